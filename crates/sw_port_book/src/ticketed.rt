//! What every ticket tells.
ghost use Rattle.std.specs.Prelude.{◌≡◌, ℕ};

use sw_base::Session;

/// The right to a session's slot, from the claim of its number to its release.
pub trait Ticketed {
    /// The session's number.
    ghost number: { Self → ℕ };

    /// The session whose number was claimed.
    fn session(&self) -> Session
        ensures { result ≡ number self.now };
}

//! What a slot of the session words holds.

/// What the word of a slot holds: the number of the session that lives there, 0 for none, and the uid that the
/// session was bound to, 0 for none.
#[derive(Clone, Copy, Debug, PartialEq, Eq)]
pub struct Word {
    /// The session's number.
    pub number: u32,
    /// Its uid.
    pub uid: u32,
}

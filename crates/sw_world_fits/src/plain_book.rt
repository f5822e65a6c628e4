//! The plain book is the ports' session book.
ghost use Rattle.std.specs.Prelude.{◌≡◌, ℕ, ◌≤◌};
ghost use Rattle.sw_step.specs.declared.actor.ActorId.{ActorId};
ghost use Rattle.sw_port_book.specs.Answers.{look_answer, bind_answer};
ghost use Rattle.sw_port_book.specs.Plain.{Words, free, word_of, with_word, bound, plain_claim};
ghost use Rattle.sw_record.specs.Terms.{Terms};
ghost use Rattle.sw_table_laws.specs.Table.{Shape};
ghost use Rattle.sw_join.specs.Legal.{LegalFor};
ghost use Rattle.sw_world_ports.specs.Calls.{Accepts, Looks, Binds, ZeroUid, Frees};
ghost use Rattle.sw_world_ports.specs.Ports.{Ports, claimed, Answers, ported};
ghost use Rattle.sw_world_fits.specs.Book.{BookStands, seen_of, got_of, claim_of};

/// A look finds what the ports' words hold.
pub fn looks_fit()
    ensures { (t : Terms) (shape : Shape) (y : ActorId) (b : Words) (p : Ports) → BookStands t b p →
        1 ≤ t.max_conn → (s : ℕ) → ¬ (s ≡ 0) →
        Answers t (LegalFor shape) p y (Looks s (seen_of (look_answer s (word_of b s)))) }
{}

/// A bind to a uid finds what the ports' words hold, and leaves what they leave.
pub fn binds_fit()
    ensures { (t : Terms) (shape : Shape) (y : ActorId) (b : Words) (p : Ports) → BookStands t b p →
        1 ≤ t.max_conn → (s u : ℕ) → ¬ (s ≡ 0) → ¬ (u ≡ 0) →
        let d = Binds s u (got_of (bind_answer s (word_of b s))) in
        Answers t (LegalFor shape) p y d × BookStands t (bound b s u (word_of b s)) (ported t p y d) }
{}

/// A bind to 0 is refused and changes nothing.
pub fn binds_to_zero_fit()
    ensures { (t : Terms) (shape : Shape) (y : ActorId) (b : Words) (p : Ports) → BookStands t b p → (s : ℕ) →
        ¬ (s ≡ 0) →
        Answers t (LegalFor shape) p y (Binds s 0 ZeroUid) × BookStands t b (ported t p y (Binds s 0 ZeroUid)) }
{}

/// A release of a session that stands in its word answers the uid of the ports' word, and empties it.
pub fn releases_fit()
    ensures { (t : Terms) (shape : Shape) (y : ActorId) (b : Words) (p : Ports) → BookStands t b p →
        1 ≤ t.max_conn → (s : ℕ) → ¬ (s ≡ 0) → (word_of b s).number ≡ s →
        let d = Frees s (word_of b s).uid in
        Answers t (LegalFor shape) p y d × BookStands t (with_word b s free) (ported t p y d) }
{}

/// A claim answers what the ports' claim answers, and leaves what it leaves.
pub fn claims_fit()
    ensures { (t : Terms) (b : Words) (p : Ports) → BookStands t b p → 1 ≤ t.max_conn → (y : ActorId) (ip : ℕ) →
        ((claimed t p).0 ≡ claim_of (plain_claim b).answer)
        × BookStands t (plain_claim b).words (ported t p y (Accepts ip (claim_of (plain_claim b).answer))) }
{}

//! The plain board is the ports' board.
ghost use Rattle.std.specs.Prelude.{◌≡◌, ℕ, ◌<◌, ◌≤◌, [], ◌∷◌, Bool, Option};
ghost use Rattle.sw_step.specs.declared.actor.ActorId.{ActorId};
ghost use Rattle.sw_port_board.specs.declared.crew.Crew.{Crew};
ghost use Rattle.sw_port_board.specs.declared.board.BoardStep.TheVariants.{Marked, Stopped, SawStop, Added};
ghost use Rattle.sw_port_board.specs.Board.{members, FindsIdle, SumsUp};
ghost use Rattle.sw_port_board.specs.PlainBoard.{PlainWords, PlainGoes};
ghost use Rattle.sw_record.specs.Words.{Counter};
ghost use Rattle.sw_record.specs.Counts.{greatest};
ghost use Rattle.sw_record.specs.Terms.{Terms};
ghost use Rattle.sw_table_laws.specs.Table.{Shape};
ghost use Rattle.sw_join.specs.Legal.{LegalFor};
ghost use Rattle.sw_world_ports.specs.Calls.{Marks, Idles, Stops, SeesStop, Adds, Sums};
ghost use Rattle.sw_world_ports.specs.Ports.{Ports, Answers, ported};
ghost use Rattle.sw_world_fits.specs.Board.{number_of, IsThere, of_taskers, BoardStands};

/// The stop word is set.
pub fn stops_fit()
    ensures { (t : Terms) (b d : PlainWords) (p : Ports) (y : ActorId) → BoardStands t b p →
        PlainGoes b (Stopped ∷ []) d → BoardStands t d (ported t p y Stops) }
{}

/// The stop word is seen as the ports have it.
pub fn stop_looks_fit()
    ensures { (t : Terms) (shape : Shape) (b d : PlainWords) (p : Ports) (y : ActorId) (set : Bool) →
        BoardStands t b p → PlainGoes b (SawStop set ∷ []) d →
        Answers t (LegalFor shape) p y (SeesStop set) × BoardStands t d (ported t p y (SeesStop set)) }
{}

/// An actor whose turn it is adds to its word of a counter.
pub fn adds_fit()
    ensures { (t : Terms) (b d : PlainWords) (p : Ports) (y : ActorId) (c : Counter) → BoardStands t b p →
        IsThere t y → b.turn ≡ number_of t y →
        ((k : Counter) (z : ActorId) → p.counts k z ≤ greatest) → PlainGoes b (Added c ∷ []) d →
        BoardStands t d (ported t p y (Adds c)) }
{}

/// An actor whose turn it is marks whether it is idle.
pub fn marks_fit()
    ensures { (t : Terms) (b d : PlainWords) (p : Ports) (y : ActorId) (idle : Bool) → BoardStands t b p →
        IsThere t y → b.turn ≡ number_of t y →
        PlainGoes b (Marked idle ∷ []) d → BoardStands t d (ported t p y (Marks idle)) }
{}

/// A sum is that of all actors' words.
pub fn sums_fit()
    ensures { (t : Terms) (shape : Shape) (b d : PlainWords) (p : Ports) (y : ActorId) (c : Counter) (n : ℕ) →
        BoardStands t b p → SumsUp PlainGoes b.sizes c b n d →
        Answers t (LegalFor shape) p y (Sums c n) × BoardStands t d (ported t p y (Sums c n)) }
{}

/// The first idle member of a crew is the ports'.
pub fn idles_fit()
    ensures { (t : Terms) (shape : Shape) (b d : PlainWords) (p : Ports) (y : ActorId)
        (which : Crew) (from : ℕ) (x : Option ℕ) → BoardStands t b p →
        from < members which b.sizes → FindsIdle PlainGoes b.sizes which from b x d →
        let i = Idles (of_taskers which) from x in Answers t (LegalFor shape) p y i
        × BoardStands t d (ported t p y i) }
{}

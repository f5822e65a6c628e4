//! Links that arrive and are accepted.
ghost use Rattle.std.specs.Prelude.{◌≡◌, ℕ, [], ◌∷◌, ◌++◌, List};
ghost use Rattle.sw_record.specs.Terms.{Terms};
ghost use Rattle.sw_past.specs.Claims.{Claim};
ghost use Rattle.sw_link.specs.declared.memory_link.LinkStep.{LinkStep};
ghost use Rattle.sw_world_places.specs.Links.{Arrivals, no_arrivals, with_come, kept, accepted, TakesAhead};
ghost use Rattle.sw_world_places.specs.declared.arrived.Claimed.{Claimed};
ghost use Rattle.sw_world_stands.specs.Links.{claim_of, LinksStand};

/// Before any step there are none.
pub fn no_links_stand()
    ensures { (t : Terms) → LinksStand t (no_arrivals t.max_conn) [] [] }
{}

/// A link that arrives waits behind the others.
pub fn arrivals_stand()
    ensures { (t : Terms) (a : Arrivals) (ip : ℕ) (given : List (ℕ × Claim)) (waiting : List ℕ) → LinksStand t a given waiting →
        LinksStand t (with_come ip a) given (waiting ++ ip ∷ []) }
{}

/// The first that waits is accepted, and its claim's answer is kept.
pub fn accepted_links_stand()
    ensures { (t : Terms) (a : Arrivals) (c : Claimed) (ip : ℕ) (rest : List ℕ) (given : List (ℕ × Claim)) →
        LinksStand t a given (ip ∷ rest) → LinksStand t (accepted c a) (given ++ (ip, claim_of c) ∷ []) rest }
{}

/// Steps that are kept for a link change nothing of this.
pub fn kept_steps_stand()
    ensures { (t : Terms) (a : Arrivals) (n : ℕ) (step : LinkStep) (given : List (ℕ × Claim)) (waiting : List ℕ) →
        LinksStand t a given waiting → LinksStand t (kept n step a) given waiting }
{}

/// Steps that are taken out change nothing of this.
pub fn taken_steps_stand()
    ensures { (t : Terms) (a b : Arrivals) (s : ℕ) (steps : List LinkStep) (given : List (ℕ × Claim)) (waiting : List ℕ) →
        LinksStand t a given waiting → TakesAhead a s steps b → LinksStand t b given waiting }
{}

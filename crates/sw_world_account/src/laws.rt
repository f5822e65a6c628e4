//! The record of the code's links is the world's. The function does nothing: its clause is the theorem.
ghost use Rattle.std.specs.Prelude.{◌≡◌, ℕ, ◌++◌, List, map};
ghost use Rattle.sw_lists.specs.Lists.{collect};
ghost use Rattle.sw_record.specs.Terms.{Terms};
ghost use Rattle.sw_record.specs.declared.record.LinkRecord.{LinkRecord};
ghost use Rattle.sw_past.specs.Claims.{Claim};
ghost use Rattle.sw_world_laws.specs.Account.{links_by, waits};
ghost use Rattle.sw_world_places.specs.Links.{Arrivals};
ghost use Rattle.sw_world_stands.specs.Links.{LinksStand};
ghost use Rattle.sw_world_account.specs.Accounting.{record_of};

/// Where the code's links stand for the world's, the record of them is that of the world's account, whatever the reactors keep.
pub fn links_are_the_worlds()
    ensures { (t : Terms) (a : Arrivals) (given : List (ℕ × Claim)) (waiting : List ℕ) (kept : ℕ → List LinkRecord) →
        LinksStand t a given waiting →
        map (record_of t.max_conn t.reactor_num kept) a.all ≡ collect (links_by t kept) given ++ collect waits waiting }
{}

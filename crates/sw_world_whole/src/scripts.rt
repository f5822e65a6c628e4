//! Steps of scripts that are given to links.
ghost use Rattle.std.specs.Prelude.{◌≡◌, ℕ, List, Some};
ghost use Rattle.sw_step.specs.declared.actor.ActorId.{ActorId};
ghost use Rattle.sw_link.specs.declared.memory_link.MemoryLink.{MemoryLink};
ghost use Rattle.sw_link.specs.declared.memory_link.LinkStep.{LinkStep};
ghost use Rattle.sw_record.specs.Terms.{Terms};
ghost use Rattle.sw_reactor.specs.Line.{link_of, with_link};
ghost use Rattle.sw_reactor_fits.specs.Told.{BringsNew};
ghost use Rattle.sw_world_reactor_fits.specs.Plain.{memory_tells};
ghost use Rattle.sw_world_places.specs.Ends.{HasRoom};
ghost use Rattle.sw_world_places.specs.Links.{TakesAhead};
ghost use Rattle.sw_world_places.specs.Pipes.{Getting};
ghost use Rattle.sw_world_front.specs.declared.front.Front.{Front};
ghost use Rattle.sw_world_stands.specs.Asked.{got_of};
ghost use Rattle.sw_world_stands.specs.New.{GotNew};
ghost use Rattle.sw_world_whole.specs.Parts.{Views};
ghost use Rattle.sw_world_whole.specs.Whole.{GoesOn, FrontSame};
ghost use Rattle.sw_world_whole.specs.Scripts.{fed, got_fed};

/// A link that was taken and is given steps is the same to the core, and as new as it was.
pub fn taken_links_go_on()
    ensures { (ss : List LinkStep) (y : ActorId) (g : Getting) → (got_of (got_fed ss g) ≡ got_of g)
        × (GotNew y g → BringsNew memory_tells (got_fed ss g)) }
{}

/// A reactor's link of a session goes on, and its ends have room.
pub fn a_reactors_link_goes_on<O, H, T>()
    ensures { (t : Terms) (v : Views O H T) (o o1 : O) (n : ℕ) (l : MemoryLink) (ss : List LinkStep) →
        link_of n (v.reactor o).line.conns ≡ Some l →
        v.reactor o1 ≡ record (v.reactor o) { line = with_link (v.reactor o).line n (fed ss l) } →
        (v.ends o1).kept ≡ (v.ends o).kept → HasRoom (v.ends o1) → GoesOn t v o o1 }
{}

/// None of its links does, and its ends have room.
pub fn a_reactor_with_room_goes_on<O, H, T>()
    ensures { (t : Terms) (v : Views O H T) (o o1 : O) → v.reactor o1 ≡ v.reactor o →
        (v.ends o1).kept ≡ (v.ends o).kept → HasRoom (v.ends o1) → GoesOn t v o o1 }
{}

/// Steps that are taken out leave the front as it was to the core.
pub fn taken_steps_leave_the_front()
    ensures { (t : Terms) (f g : Front) (s : ℕ) (ss : List LinkStep) → g ≡ record f { links = g.links } →
        TakesAhead f.links s ss g.links → FrontSame t f g }
{}

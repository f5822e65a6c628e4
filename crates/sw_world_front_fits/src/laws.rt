//! The front's calls.
ghost use Rattle.std.specs.Prelude.{◌≡◌, ℕ, ◌≤◌, [], ◌∷◌, ◌++◌, List, None, true, false};
ghost use Rattle.sw_step.specs.declared.actor.ActorId.{ActorId};
ghost use Rattle.sw_step.specs.declared.actor.ActorId.TheVariants.{Door as TheDoor};
ghost use Rattle.sw_link.specs.declared.memory_link.LinkStep.{LinkStep};
ghost use Rattle.sw_link.specs.MemoryNets.{new_net};
ghost use Rattle.sw_port_book.specs.Plain.{Words};
ghost use Rattle.sw_port_board.specs.PlainBoard.{PlainWords};
ghost use Rattle.sw_door.specs.Door.{IsNew};
ghost use Rattle.sw_record.specs.Words.{Counter};
ghost use Rattle.sw_record.specs.Counts.{greatest};
ghost use Rattle.sw_record.specs.Terms.{Terms};
ghost use Rattle.sw_table_laws.specs.Table.{Shape};
ghost use Rattle.sw_world_ports.specs.Ports.{Ports, new_ports};
ghost use Rattle.sw_world_fits.specs.Book.{BookStands};
ghost use Rattle.sw_world_fits.specs.Board.{number_of, BoardStands};
ghost use Rattle.sw_world_places.specs.Pipes.{Asking, Getting};
ghost use Rattle.sw_world_stands.specs.New.{GotNew};
ghost use Rattle.sw_world_places.specs.Links.{no_arrivals, kept, TakesAhead};
ghost use Rattle.sw_world_front.specs.declared.front.Front.{Front};
ghost use Rattle.sw_world_front.specs.Front.{arrived, net_ended, TurnsFront};
ghost use Rattle.sw_world_door.specs.Doors.{DoorState, new_door};
ghost use Rattle.sw_world_front_fits.specs.Front.{FrontStands, FrontFits};

/// A new front stands before any step.
pub fn new_fronts_stand()
    ensures { (t : Terms) (f : Front) → IsNew t.max_conn t.reactor_num f.door → f.net ≡ new_net [] false None →
        f.links ≡ no_arrivals t.max_conn → f.refusals ≡ None → FrontStands t f new_door (new_ports t) }
{}

/// A link that arrives waits behind the others.
pub fn arrivals_stand()
    ensures { (t : Terms) (f : Front) (s : DoorState) (p : Ports) (ip : ℕ) → FrontStands t f s p →
        FrontStands t (arrived ip f) s (record p { waiting = p.waiting ++ ip ∷ [] }) }
{}

/// No more links arrive.
pub fn net_ends_stand()
    ensures { (t : Terms) (f : Front) (s : DoorState) (p : Ports) → FrontStands t f s p →
        FrontStands t (net_ended f) s (record p { ended = true }) }
{}

/// A step that is kept for a link changes nothing of this.
pub fn kept_steps_stand()
    ensures { (t : Terms) (f : Front) (s : DoorState) (p : Ports) (n : ℕ) (step : LinkStep) → FrontStands t f s p →
        FrontStands t (record f { links = kept n step f.links }) s p }
{}

/// Steps that are taken out change nothing of this.
pub fn taken_steps_stand()
    ensures { (t : Terms) (f h : Front) (s : DoorState) (p : Ports) (session : ℕ) (steps : List LinkStep) → FrontStands t f s p →
        h ≡ record f { links = h.links } → TakesAhead f.links session steps h.links → FrontStands t h s p }
{}

/// A turn makes calls that the ports answer so, and is a turn of the family's door; net, links, book and board stand as
/// these calls leave them, and a link that it pushes is new.
pub fn turns_fit()
    ensures { (t : Terms) (shape : Shape) (p : Ports) (f h : Front) (s : DoorState) (b c : Words) (o q : PlainWords)
        (got : Getting) (ask : Asking) → FrontStands t f s p → GotNew TheDoor got → BookStands t b p → BoardStands t o p →
        o.turn ≡ number_of t TheDoor → ((k : Counter) (z : ActorId) → p.counts k z ≤ greatest) → 1 ≤ t.max_conn →
        TurnsFront f b o got h c q ask → FrontFits t shape p s got h c q ask }
{}

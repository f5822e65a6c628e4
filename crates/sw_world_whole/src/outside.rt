//! Before any step, and what comes from outside.
ghost use Rattle.std.specs.Prelude.{◌<◌, ◌^◌, ℕ, []};
ghost use Rattle.sw_link.specs.declared.memory_link.LinkStep.{LinkStep};
ghost use Rattle.sw_record.specs.Terms.{Terms};
ghost use Rattle.sw_table_laws.specs.Table.{Shape};
ghost use Rattle.sw_join.specs.Legal.{LegalFor};
ghost use Rattle.sw_world_laws.specs.World.{Core, start};
ghost use Rattle.sw_world_hands.specs.Hands.{Crews};
ghost use Rattle.sw_world_places.specs.Links.{kept};
ghost use Rattle.sw_world_front.specs.Front.{arrived, net_ended};
ghost use Rattle.sw_world_steps.specs.Server.{IsServed, server, AState};
ghost use Rattle.sw_world_whole.specs.Parts.{Parts, Views};
ghost use Rattle.sw_world_whole.specs.Whole.{IsNewCore, Stands, IsStep, IsLostStep};

/// New code stands for the world's start.
pub fn a_new_core_stands<O, H, T>()
    ensures { (t : Terms) (served : IsServed t) (crews : Crews) (shape : Shape) (v : Views O H T) (P : Parts O H T) →
        t.session_last < 2 ^ 32 → LegalFor shape [] → IsNewCore t crews shape v P →
        Stands t served crews shape v P (start t (server t served crews)) }
{}

/// A link that arrives is a step.
pub fn an_arrival_is_a_step<O, H, T>()
    ensures { (t : Terms) (served : IsServed t) (crews : Crews) (shape : Shape) (v : Views O H T) (P : Parts O H T)
        (c : Core AState) → Stands t served crews shape v P c → (ip : ℕ) →
        IsStep t served crews shape v c (record P { front = arrived ip P.front }) }
{}

/// The end of the net is a step.
pub fn a_net_that_ends_is_a_step<O, H, T>()
    ensures { (t : Terms) (served : IsServed t) (crews : Crews) (shape : Shape) (v : Views O H T) (P : Parts O H T)
        (c : Core AState) → Stands t served crews shape v P c →
        IsStep t served crews shape v c (record P { front = net_ended P.front }) }
{}

/// A step of a link's script is one.
pub fn a_script_is_a_step<O, H, T>()
    ensures { (t : Terms) (served : IsServed t) (crews : Crews) (shape : Shape) (v : Views O H T) (P : Parts O H T)
        (c : Core AState) → Stands t served crews shape v P c → (n : ℕ) (step : LinkStep) →
        IsStep t served crews shape v c (record P { front = record P.front { links = kept n step P.front.links } }) }
{}

/// So is one that went to a reactor's link, or to none.
pub fn a_script_that_is_given_is_a_step<O, H, T>()
    ensures { (t : Terms) (served : IsServed t) (crews : Crews) (shape : Shape) (v : Views O H T) (P : Parts O H T)
        (c : Core AState) → Stands t served crews shape v P c → (n : ℕ) (step : LinkStep) →
        IsStep t served crews shape v c P }
{}

/// A step that wanted memory before it did anything is one.
pub fn want_of_memory_is_a_step<O, H, T>()
    ensures { (t : Terms) (served : IsServed t) (crews : Crews) (shape : Shape) (v : Views O H T) (P : Parts O H T)
        (c : Core AState) → Stands t served crews shape v P c → IsLostStep t served crews shape P c }
{}

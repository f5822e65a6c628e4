//! Actors that a type stands for.
ghost use Rattle.sw_record.specs.Terms.{Terms};
ghost use Rattle.sw_world_laws.specs.Actors.{Actors};

/// What a type says of all actors: under which settings they go, what their turns do, and the laws that these keep.
pub trait Family {
    /// The settings.
    ghost terms: { Terms };

    /// The actors.
    ghost actors: { Actors terms };
}

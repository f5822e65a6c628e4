//! The rule of the base crate's table, and its kinds of step. These types are for the proofs alone.
use crate::calls::{Asked, Called, Contents, Slot};
use crate::seat::Parts;
use crate::view::View;
use atomic_table::{Join, Play, Split, TableRule};
use std::marker::PhantomData;
use std::snapshot::Snapshot;

/// What the table is told once: the rows and the pool that it starts with.
#[derive(Drop)]
pub struct Start<B, P> {
    pub rows: Snapshot<Vec<B>>,
    pub pool: Snapshot<P>,
}

/// The rule: one history, and locks over what it leaves.
pub struct Locking<C> {
    of: PhantomData<C>,
}

impl<B, P, C: Called<B, P>> TableRule<
    Slot<B, P>,
    View<Slot<B, P>, C::Call, Contents<B, P>>,
    Start<B, P>,
> for Locking<C> {
    ghost use Rattle.std.specs.Prelude.{suc, length, Some, []};
    ghost use Rattle.sw_rowlock.specs.Rule.{Locked, knows};
    ghost use Rattle.sw_rowlock.specs.Calls.{effect, cells, count_of};
    ghost use Rattle.sw_rowlock.specs.Seats.{all_parts, start_of};

    ghost holds = { λ k. Locked (effect C.row_of C.needs C.does) cells count_of C.may all_parts (suc (length (start_of k).rows)) (start_of k) };

    ghost first = { λ k. knows all_parts (Some (start_of k)) [] [] [] [] };
}

/// Takes a row.
pub struct TakesRow<C> {
    of: PhantomData<C>,
}

impl<B, P, C: Called<B, P>> Play<Slot<B, P>, View<Slot<B, P>, C::Call, Contents<B, P>>>
    for TakesRow<C> {
    ghost use Rattle.std.specs.Prelude.{◌/◌};
    ghost use Rattle.sw_rowlock.specs.Rule.{Takes};
    ghost use Rattle.sw_rowlock.specs.Calls.{effect, cells, count_of};
    ghost use Rattle.sw_rowlock.specs.Seats.{all_parts, row_first};

    ghost then = { λ s m r n. Takes (effect C.row_of C.needs C.does) cells count_of C.may all_parts (s.word / 8) (row_first (s.word / 8)) m r n };
}

/// Takes the pool.
pub struct TakesPool<C> {
    of: PhantomData<C>,
}

impl<B, P, C: Called<B, P>> Play<Slot<B, P>, View<Slot<B, P>, C::Call, Contents<B, P>>>
    for TakesPool<C> {
    ghost use Rattle.std.specs.Prelude.{◌/◌};
    ghost use Rattle.sw_rowlock.specs.Rule.{Takes};
    ghost use Rattle.sw_rowlock.specs.Calls.{effect, cells, count_of};
    ghost use Rattle.sw_rowlock.specs.Seats.{all_parts, pool_last};

    ghost then = { λ s m r n. Takes (effect C.row_of C.needs C.does) cells count_of C.may all_parts (s.word / 8) (pool_last (s.word / 8)) m r n };
}

/// Gives the row.
pub struct GivesRow;

impl<B, P, Q> Play<Slot<B, P>, View<Slot<B, P>, Q, Contents<B, P>>> for GivesRow {
    ghost use Rattle.std.specs.Prelude.{◌≡◌};
    ghost use Rattle.atomic_table.specs.Table.{rest};
    ghost use Rattle.sw_rowlock.specs.Rule.{knows};

    ghost then = { λ s m r n. n ≡ (knows m.0.parts m.0.start m.0.seen (rest m.0.held) m.0.refusals m.0.also, rest m.1) };
}

/// Gives the pool.
pub struct GivesPool;

impl<B, P, Q> Play<Slot<B, P>, View<Slot<B, P>, Q, Contents<B, P>>> for GivesPool {
    ghost use Rattle.std.specs.Prelude.{◌≡◌, []};
    ghost use Rattle.atomic_table.specs.Table.{rest};
    ghost use Rattle.sw_rowlock.specs.Rule.{knows};
    ghost use Rattle.sw_rowlock.specs.Seats.{row_part, row_in};

    ghost then = { λ s m r n. n ≡ (knows m.0.parts m.0.start m.0.seen (row_part (row_in m.0.held) []) m.0.refusals m.0.also, rest m.1) };
}

/// Loads the sequence word.
pub struct Loads<C> {
    of: PhantomData<C>,
}

impl<B, P, C: Called<B, P>> Play<Slot<B, P>, View<Slot<B, P>, C::Call, Contents<B, P>>>
    for Loads<C> {
    ghost use Rattle.sw_rowlock.specs.Rule.{Looks};
    ghost use Rattle.sw_rowlock.specs.Calls.{effect, cells, count_of};
    ghost use Rattle.sw_rowlock.specs.Seats.{all_parts};

    ghost then = { λ s m r n. Looks (effect C.row_of C.needs C.does) cells count_of C.may all_parts m r n };
}

/// Draws a place for the call Q.
pub struct Draws<C, Q> {
    of: PhantomData<(C, Q)>,
}

impl<B, P, C: Called<B, P>, Q: Asked<C::Call>> Play<
    Slot<B, P>,
    View<Slot<B, P>, C::Call, Contents<B, P>>,
> for Draws<C, Q> {
    ghost use Rattle.std.specs.Prelude.{◌%◌, ◌-◌};
    ghost use Rattle.sw_rowlock.specs.Rule as rule;
    ghost use Rattle.sw_rowlock.specs.Calls.{effect, cells, count_of};
    ghost use Rattle.sw_rowlock.specs.Seats.{all_parts, held_then};

    ghost then = { λ s m r n. rule.Draws (effect C.row_of C.needs C.does) cells count_of C.may all_parts s.slots Q.call (held_then C.row_of C.needs C.does (s.slots - 1) Q.call m.0.held (s.first % 2097152)) s.first m r n };
}

/// Cuts off a seat with the parts that N names.
pub struct Cuts<N> {
    of: PhantomData<N>,
}

impl<S, Q, T, N: Parts> Split<View<S, Q, T>> for Cuts<N> {
    ghost use Rattle.std.specs.Prelude.{◌-◌, []};
    ghost use Rattle.sw_rowlock.specs.Rule.{knows};
    ghost use Rattle.sw_rowlock.specs.History.{others, calls};

    ghost left = { λ v. knows (v.parts - N.parts) v.start v.seen v.held v.refusals v.also };

    ghost right = { λ v. knows N.parts v.start (others (calls v.seen)) [] [] v.also };
}

/// Two seats become one.
pub struct Joined;

impl<S, Q, T> Join<View<S, Q, T>> for Joined {
    ghost use Rattle.std.specs.Prelude.{◌+◌, ◌++◌, ◌∷◌, []};
    ghost use Rattle.sw_rowlock.specs.Rule.{knows, nobody};
    ghost use Rattle.sw_rowlock.specs.History.{merged, calls};

    ghost both = { λ v w. knows (v.parts + w.parts) v.start (merged v.seen w.seen) v.held (v.refusals ++ w.refusals) (v.also ++ (w.also ++ calls w.seen ∷ [])) };

    ghost spent = { nobody };
}

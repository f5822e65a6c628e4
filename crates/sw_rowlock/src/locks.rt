//! The locks, and each step on them.
ghost use Rattle.std.specs.Prelude.{◌≡◌, ◌∷◌, ◌++◌, replicate, ℕ, ◌<◌, ◌≤◌, ◌+◌, ◌-◌, ◌*◌, ◌%◌, ◌/◌, ◌^◌, ◌==◌, suc, [], length, MatchBool, IfOk, IfErr, Some, None, map};
ghost use Rattle.sw_rowlock.specs.Seats.{IsSeatOf, new_seat, all_parts, pool_number, sequence_number, HoldsRow, HoldsPool, bucket_held, done_on};
ghost use Rattle.sw_rowlock.specs.Calls.{counted, contents};
ghost use Rattle.sw_rowlock.specs.declared.calls.Slot.TheVariants.{Row, Pool};
ghost use Rattle.sw_rowlock.specs.History.{calls, others, merged, times_drawn};
ghost use Rattle.sw_rowlock.specs.Faults.{RefusedBy};
ghost use Rattle.sw_rowlock.specs.Told.{RowLeft, PoolLeft, DrewAt, LookedAt};

use crate::calls::{Asked, Called, Change, Contents, Slot};
use crate::error::OutOfMemory;
use crate::plays::{
    Cuts, Draws, GivesPool, GivesRow, Joined, Loads, Locking, Start, TakesPool, TakesRow,
};
use crate::seat::{Parts, Seat};
use crate::view::View;
use atomic_table::Table;
use std::alloc::Global;
use std::marker::Model;
use std::snapshot::Snapshot;

// The words of two locks stand a cache line of 64 bytes apart.
const WORDS_PER_LOCK: usize = 8;

// The sequence word is this times the number of calls, plus the number of rows.
const ONE_CALL: u64 = 2_097_152;

/// Rows and a pool under locks, and the word that numbers the calls.
///
/// Contracts see which locks they are and what they started with. `C` says what a call does.
#[derive(Drop)]
pub struct RowLocks<B, P, C: Called<B, P>> {
    table: Table<
        Slot<B, P>,
        View<Slot<B, P>, C::Call, Contents<B, P>>,
        Start<B, P>,
        Locking<C>,
        Global,
    >,
    rows: usize,
}

impl<B, P, C: Called<B, P>> Model for RowLocks<B, P, C> {
    ghost use Rattle.sw_rowlock.specs.Seats.{LocksNow, start_of, IsLocks};

    ghost Value = { LocksNow B P };

    ghost view = { λ l. record { id = l.table.shared.table_id; start = start_of l.table.shared.key } };

    ghost invariant = { λ l. IsLocks l.table.shared.table_id (start_of l.table.shared.key) l.rows (C.empty (start_of l.table.shared.key).rows (start_of l.table.shared.key).pool) };
}

/// A call was drawn.
#[derive(Clone, Copy, Debug, PartialEq, Eq)]
pub struct Drawn {
    /// Its place: the number of calls before it.
    pub at: u64,
    /// The number of rows before it.
    pub rows: u64,
}

/// No call was drawn.
#[derive(Clone, Copy, Debug, PartialEq, Eq)]
pub enum DrawFault {
    /// The sequence word had moved since it was loaded, to this number.
    Moved(u64),
    /// So many calls were drawn, and no more may be.
    Spent(u64),
}

// The word of a lock.
fn word_of(lock: usize) -> usize
    requires { lock ≤ 524289 }
    ensures { result ≡ lock * 8 }
{
    lock * WORDS_PER_LOCK
}

// The slots at the start: the rows, then the pool.
fn slots_of<B: Drop, P: Drop>(
    alloc: Global,
    rows: Vec<B>,
    pool: P,
) -> Result<Vec<Slot<B, P>>, OutOfMemory>
    ensures { IfOk result (λ v. v.items ≡ map Row rows.items ++ Pool pool ∷ []) }
{
    let mut slots = Vec::with_capacity(alloc, rows.len() + 1)?;
    for row in rows {
        slots.push(Slot::Row(row))?;
    }
    slots.push(Slot::Pool(pool))?;
    Ok(slots)
}

// What the sequence word becomes by a draw.
fn number_after(found: u64, change: Change) -> u64
    requires { found + 2097153 < 2 ^ 64 }
    ensures { result ≡ counted change (found + 2097152) }
{
    match change {
        Change::Same => found + ONE_CALL,
        Change::More => found + ONE_CALL + 1,
        Change::Less => found + ONE_CALL - 1,
    }
}

impl<B: Drop, P: Drop, C: Called<B, P>> RowLocks<B, P, C> {
    /// Locks over these rows and this pool, at most 524,288 rows and an empty state, and a seat with every part.
    pub fn make(
        alloc: Global,
        rows: Vec<B>,
        pool: P,
    ) -> Result<(RowLocks<B, P, C>, Seat<B, P, C>), OutOfMemory>
        requires empty { C.empty rows.items pool }
        requires few { length rows.items ≤ 524288 }
        ensures start { IfOk result (λ r. r.0.start ≡ contents rows.items pool 0) }
        ensures seat { IfOk result (λ r. r.1 ≡ new_seat r.0 all_parts [] []) }
    {
        let start = Start {
            rows: Snapshot::of(&rows),
            pool: Snapshot::of(&pool),
        };
        let count = rows.len();
        let words = vec![in alloc; 0u64; word_of(count + 1) + WORDS_PER_LOCK]?;
        let slots = slots_of(alloc, rows, pool)?;
        match Table::new(alloc, words.as_slice(), slots, &start) {
            Ok((table, place)) => Ok((RowLocks { table, rows: count }, Seat { place })),
            Err(_) => Err(OutOfMemory),
        }
    }

    /// A new seat that has made no draw, has seen what this seat has seen, and has those of its parts that `N` names.
    pub fn split<N: Parts>(&self, seat: &mut Seat<B, P, C>) -> Seat<B, P, C>
        requires seat { IsSeatOf self.now seat.old }
        requires parts { 0 < N.parts → N.parts < seat.old.parts }
        ensures seat { seat.new ≡ record seat.old { parts = seat.old.parts - N.parts } }
        ensures result { result ≡ new_seat self.now N.parts (others (calls seat.old.seen)) seat.old.also }
    {
        Seat {
            place: self.table.shared.split_seat::<Cuts<N>>(&mut seat.place),
        }
    }

    /// Puts the parts, the draws and what was seen of two seats together.
    pub fn join(&self, seat: &mut Seat<B, P, C>, other: Seat<B, P, C>)
        requires seat { IsSeatOf self.now seat.old }
        requires other { IsSeatOf self.now other }
        requires empty { (other.row ≡ None) × (other.pool ≡ None) }
        ensures seat { seat.new ≡ record seat.old { parts = seat.old.parts + other.parts; seen = merged seat.old.seen other.seen; refusals = seat.old.refusals ++ other.refusals; also = seat.old.also ++ (other.also ++ calls other.seen ∷ []) } }
        ensures draws { (p : ℕ) → times_drawn p seat.new.seen ≡ times_drawn p seat.old.seen + times_drawn p other.seen }
    {
        let Seat { place } = other;
        self.table
            .shared
            .join_seat::<Joined>(&mut seat.place, place);
    }

    /// Takes a row, or says as what its lock was found taken. What it takes is what some history leaves there that begins with
    /// all that the seat has seen; which one it is is known with every part, or at the next `draw`.
    pub fn try_row(&self, seat: &mut Seat<B, P, C>, row: u32) -> Result<B, u64>
        requires seat { IsSeatOf self.now seat.old }
        requires part { 0 < seat.old.parts }
        requires free { seat.old.row ≡ None }
        requires near { row < length self.now.start.rows }
        ensures taken { IfOk result (λ x. seat.new ≡ record seat.old { row = Some (row, x) }) }
        ensures value { IfOk result (λ x. RowLeft C.may C.row_of C.needs C.does self.now.start seat.old row x) }
        ensures refused { IfErr result (λ found. (found ≡ 1) × (seat.new ≡ record seat.old { refusals = (row, found) ∷ seat.old.refusals })) }
        ensures alone { seat.old.parts ≡ all_parts → seat.old.pool ≡ None → IfErr result (λ _. ⊥) }
    {
        let lock = row as usize;
        let found = self
            .table
            .shared
            .compare_exchange::<TakesRow<C>>(&mut seat.place, word_of(lock), 0, 1);
        if found != 0 {
            return Err(found);
        }
        let slot = self
            .table
            .shared
            .exchange(&mut seat.place, lock, Slot::Empty);
        let Slot::Row(value) = slot else {
            unreachable!()
        };
        Ok(value)
    }

    /// Takes the pool, or says as what its lock was found taken. Of what it takes the same is known as of a row.
    pub fn try_pool(&self, seat: &mut Seat<B, P, C>) -> Result<P, u64>
        requires seat { IsSeatOf self.now seat.old }
        requires part { 0 < seat.old.parts }
        requires free { seat.old.pool ≡ None }
        ensures taken { IfOk result (λ x. seat.new ≡ record seat.old { pool = Some x }) }
        ensures value { IfOk result (λ x. PoolLeft C.may C.row_of C.needs C.does self.now.start seat.old x) }
        ensures refused { IfErr result (λ found. (found ≡ 1) × (seat.new ≡ record seat.old { refusals = (pool_number self.now.start, found) ∷ seat.old.refusals })) }
        ensures alone { seat.old.parts ≡ all_parts → seat.old.row ≡ None → IfErr result (λ _. ⊥) }
    {
        let found = self
            .table
            .shared
            .compare_exchange::<TakesPool<C>>(&mut seat.place, word_of(self.rows), 0, 1);
        if found != 0 {
            return Err(found);
        }
        let slot = self
            .table
            .shared
            .exchange(&mut seat.place, self.rows, Slot::Empty);
        seat.place.turn();
        let Slot::Pool(value) = slot else {
            unreachable!()
        };
        Ok(value)
    }

    /// Draws the next place for the call `Q`, by a load of the sequence word and one exchange on it. The seat holds the call's row, and the
    /// pool where the call needs it, and `change` is what the call does to the number of rows.
    pub fn draw<Q: Asked<C::Call>>(
        &self,
        seat: &mut Seat<B, P, C>,
        last_call: u64,
        change: Change,
    ) -> Result<Drawn, DrawFault>
        requires seat { IsSeatOf self.now seat.old }
        requires part { 0 < seat.old.parts }
        requires row { HoldsRow (C.row_of Q.call) seat.old.row }
        requires pool { HoldsPool (C.needs Q.call (bucket_held (C.row_of Q.call) seat.old.row)) seat.old.pool }
        requires may { (at : ℕ) → at < last_call → C.may self.now.start at Q.call }
        requires change { (c : ℕ) → (done_on C.row_of C.needs C.does Q.call seat.old.row seat.old.pool c).change ≡ change }
        requires last { last_call ≤ 8796093022207 }
        ensures room { IfOk result (λ d. d.at < last_call) }
        ensures drew { IfOk result (λ d. DrewAt C.may C.row_of C.needs C.does self.now.start Q.call seat.old seat.new d.at d.rows) }
        ensures refused { IfErr result (λ fault. RefusedBy C.may C.row_of C.needs C.does self.now.start seat.old seat.new last_call fault) }
    {
        // The proof takes from the locks' invariant that the number of rows is below `ONE_CALL`.
        let _ = &self.rows;
        let loaded = self.look(seat);
        let at = loaded / ONE_CALL;
        if at >= last_call {
            return Err(DrawFault::Spent(at));
        }
        let found = self.exchange::<Q>(seat, loaded, change);
        if found != loaded {
            return Err(DrawFault::Moved(found));
        }
        Ok(Drawn {
            at,
            rows: loaded % ONE_CALL,
        })
    }

    /// Gives back the pool that the seat holds, as the seat's draws leave it.
    pub fn give_pool(&self, seat: &mut Seat<B, P, C>, pool: P)
        requires seat { IsSeatOf self.now seat.old }
        requires part { 0 < seat.old.parts }
        requires held { seat.old.pool ≡ Some pool }
        ensures { seat.new ≡ record seat.old { pool = None } }
    {
        seat.place.turn();
        let slot = self
            .table
            .shared
            .exchange(&mut seat.place, self.rows, Slot::Pool(pool));
        let Slot::Empty = slot else { unreachable!() };
        self.table
            .shared
            .store::<GivesPool>(&mut seat.place, word_of(self.rows), 0);
    }

    /// Gives back the row that the seat holds, as the seat's draws leave it.
    pub fn give_row(&self, seat: &mut Seat<B, P, C>, row: u32, value: B)
        requires seat { IsSeatOf self.now seat.old }
        requires part { 0 < seat.old.parts }
        requires held { seat.old.row ≡ Some (row, value) }
        ensures { seat.new ≡ record seat.old { row = None } }
    {
        let at = row as usize;
        let slot = self
            .table
            .shared
            .exchange(&mut seat.place, at, Slot::Row(value));
        let Slot::Empty = slot else { unreachable!() };
        self.table
            .shared
            .store::<GivesRow>(&mut seat.place, word_of(at), 0);
    }

    /// Loads the sequence word: how many calls were drawn, and how many rows there are.
    pub fn count(&self, seat: &mut Seat<B, P, C>) -> Drawn
        requires seat { IsSeatOf self.now seat.old }
        requires part { 0 < seat.old.parts }
        ensures looked { LookedAt C.may C.row_of C.needs C.does self.now.start seat.old seat.new (result.at * 2097152 + result.rows) }
        ensures rows { result.rows < 2097152 }
    {
        let found = self.look(seat);
        Drawn {
            at: found / ONE_CALL,
            rows: found % ONE_CALL,
        }
    }

    // Loads the sequence word.
    fn look(&self, seat: &mut Seat<B, P, C>) -> u64
        requires seat { IsSeatOf self.now seat.old }
        requires part { 0 < seat.old.parts }
        ensures { LookedAt C.may C.row_of C.needs C.does self.now.start seat.old seat.new result }
    {
        self.table
            .shared
            .load::<Loads<C>>(&mut seat.place, word_of(self.rows + 1))
    }

    // Makes the exchange of a draw, and answers what the sequence word was.
    fn exchange<Q: Asked<C::Call>>(&self, seat: &mut Seat<B, P, C>, old: u64, change: Change) -> u64
        requires seat { IsSeatOf self.now seat.old }
        requires part { 0 < seat.old.parts }
        requires row { HoldsRow (C.row_of Q.call) seat.old.row }
        requires pool { HoldsPool (C.needs Q.call (bucket_held (C.row_of Q.call) seat.old.row)) seat.old.pool }
        requires may { C.may self.now.start (old / 2097152) Q.call }
        requires change { (c : ℕ) → (done_on C.row_of C.needs C.does Q.call seat.old.row seat.old.pool c).change ≡ change }
        requires room { old + 2097153 < 2 ^ 64 }
        ensures { MatchBool (result == old)
            (DrewAt C.may C.row_of C.needs C.does self.now.start Q.call seat.old seat.new (old / 2097152) (old % 2097152))
            (seat.new ≡ record seat.old { refusals = (sequence_number self.now.start, result) ∷ seat.old.refusals }) }
    {
        let new = number_after(old, change);
        self.table
            .shared
            .compare_exchange::<Draws<C, Q>>(&mut seat.place, word_of(self.rows + 1), old, new)
    }
}

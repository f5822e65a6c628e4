//! Rows of senders, and the pipes that are closed with them.
ghost use Rattle.std.specs.Prelude.{◌≡◌, ◌++◌, ◌∷◌, [], ◌<◌, map, All, IfOk, length, vec_len};
ghost use Rattle.sw_pipe_rows.specs.Rows.{glue, Closed, Counted, Numbered, Tells};

use std::alloc::{AllocError, Global};
use std::sync::Wait;
use sw_pipe::{Left, Sender, Taker, close};

/// Takes the last of each row.
fn column<T: Drop>(alloc: Global, rows: Vec<Vec<T>>) -> Result<(Vec<Vec<T>>, Vec<T>), AllocError>
    requires { All (λ row. 0 < length row.items) rows.items }
    ensures glued { IfOk result (λ r. map (λ row. row.items) rows.items ≡ glue (map (λ row. row.items) r.0.items) r.1.items) }
    ensures length { IfOk result (λ r. length r.1.items ≡ length rows.items) }
    ensures rests { IfOk result (λ r. length r.0.items ≡ length rows.items) }
{
    let mut rest = Vec::new(alloc);
    let mut last = Vec::new(alloc);
    for row in rows {
        let (row, one) = split(row);
        rest.push(row)?;
        last.push(one)?;
    }
    Ok((rest, last))
}

fn split<T: Drop>(mut row: Vec<T>) -> (Vec<T>, T)
    requires { 0 < length row.items }
    ensures { row.items ≡ result.0.items ++ result.1 ∷ [] }
{
    let Some(one) = row.pop() else { unreachable!() };
    (row, one)
}

/// Takes the senders of the last pipe out of the rows.
fn part<M: Drop>(
    alloc: Global,
    takers: &Vec<Taker<M>>,
    taker: &Taker<M>,
    rows: Vec<Vec<Sender<M>>>,
) -> Result<(Vec<Vec<Sender<M>>>, Vec<Sender<M>>), AllocError>
    requires pipes { All (λ row. map (λ s. s.pipe) row.items ≡ map (λ t. t.pipe) (takers.now.items ++ taker.now ∷ [])) rows.items }
    requires numbers { Numbered 0 (map (λ r. r.items) rows.items) }
    ensures glued { IfOk result (λ r. map (λ row. row.items) rows.items ≡ glue (map (λ row. row.items) r.0.items) r.1.items) }
    ensures numbers { IfOk result (λ r. Numbered 0 (map (λ row. row.items) r.0.items)) }
    ensures counted { IfOk result (λ r. Counted 0 r.1.items) }
    ensures rests { IfOk result (λ r. length r.0.items ≡ length rows.items) }
    ensures length { IfOk result (λ r. length r.1.items ≡ length rows.items) }
    ensures pipes { IfOk result (λ r. All (λ row. map (λ s. s.pipe) row.items ≡ map (λ t. t.pipe) takers.now.items) r.0.items) }
    ensures last { IfOk result (λ r. All (λ s. s.pipe ≡ taker.now.pipe) r.1.items) }
{
    let (rest, last) = column(alloc, rows)?;
    Ok((rest, last))
}

/// Closes each pipe, given its taker and the rows of senders, of which each has one sender for each pipe in the order of the
/// takers; and gives what each pipe still holds. It waits. Want of memory loses what was given.
pub fn close_all<M: Drop, R: Wait>(
    rt: &R,
    alloc: Global,
    mut takers: Vec<Taker<M>>,
    rows: Vec<Vec<Sender<M>>>,
) -> Result<Vec<Left<M>>, AllocError>
    requires pipes { All (λ row. map (λ s. s.pipe) row.items ≡ map (λ t. t.pipe) takers.items) rows.items }
    requires counts { All (λ t. t.pipe.senders ≡ length rows.items) takers.items }
    requires numbers { Numbered 0 (map (λ r. r.items) rows.items) }
    ensures { IfOk result (λ lefts. Closed (length takers.items) takers.items (map (λ r. r.items) rows.items) lefts.items) }
{
    let Some(taker) = takers.pop() else {
        return Ok(Vec::new(alloc));
    };
    let (rest, last) = part(alloc, &takers, &taker, rows)?;
    let mut lefts = close_all(rt, alloc, takers, rest)?;
    lefts.push(close_full(rt, taker, last))?;
    Ok(lefts)
}

/// Closes a pipe of which all senders are there.
#[tactic(auto, using(crate::proofs::Numbers::all_there))]
fn close_full<M: Drop, R: Wait>(rt: &R, taker: Taker<M>, senders: Vec<Sender<M>>) -> Left<M>
    requires pipe { All (λ s. s.pipe ≡ taker.pipe) senders.items }
    requires all { length senders.items ≡ taker.pipe.senders }
    requires numbers { Counted 0 senders.items }
    ensures { Tells taker result senders.items }
{
    match close(rt, taker, senders) {
        Ok(left) => left,
        Err(_) => unreachable!(),
    }
}

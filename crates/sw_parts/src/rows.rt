//! Pipes with their senders in rows.
ghost use Rattle.std.specs.Prelude.{◌≤◌};

use std::alloc::Global;
use sw_base::OutOfMemory;
use sw_pipe::{Pipe, Sender, Taker};

/// So many pipes, each with so many senders: the takers by their numbers, and for each sender's number a row of its senders,
/// one for each pipe.
pub(crate) fn mesh<M: Drop>(
    alloc: Global,
    capacity: u32,
    pipes: u32,
    senders: u32,
) -> Result<(Vec<Taker<M>>, Vec<Vec<Sender<M>>>), OutOfMemory>
    requires capacity { 1 ≤ capacity }
    requires senders { 1 ≤ senders }
{
    let mut takers = Vec::with_capacity(alloc, pipes as usize)?;
    let mut rows = Vec::with_capacity(alloc, senders as usize)?;
    for _ in 0..senders {
        rows.push(Vec::with_capacity(alloc, pipes as usize)?)?;
    }
    for _ in 0..pipes {
        let (all, taker) = Pipe::make(alloc, capacity, senders)?;
        takers.push(taker)?;
        deal(&mut rows, all)?;
    }
    Ok((takers, rows))
}

/// One more at the end of a row, if it is there.
fn add_at<T: Drop>(rows: &mut Vec<Vec<T>>, at: usize, one: T) -> Result<(), OutOfMemory> {
    if at < rows.len() {
        let row = &mut rows[at];
        row.push(one)?;
    }
    Ok(())
}

/// Each row gets one more.
fn deal<T: Drop>(rows: &mut Vec<Vec<T>>, column: Vec<T>) -> Result<(), OutOfMemory> {
    let mut at: usize = 0;
    for one in column {
        add_at(rows, at, one)?;
        at = at.saturating_add(1);
    }
    Ok(())
}

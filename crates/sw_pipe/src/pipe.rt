//! Where a pipe begins.
ghost use Rattle.std.specs.Prelude.{◌≡◌, ◌≤◌, [], length, IfOk, All};
ghost use Rattle.sw_pipe.specs.Values.{took, fresh};

use crate::counter::Counter;
use crate::moves::Enrolls;
use crate::sender::Sender;
use crate::shared::{Line, Shared};
use crate::taker::Taker;
use std::alloc::Global;
use std::sync::Arc;
use sw_base::OutOfMemory;

/// Makes pipes.
pub struct Pipe;

impl Pipe {
    /// A pipe with room for `capacity` messages: its senders, by their numbers from 0, and its taker.
    pub fn make<M: Drop>(
        alloc: Global,
        capacity: u32,
        senders: u32,
    ) -> Result<(Vec<Sender<M>>, Taker<M>), OutOfMemory>
        requires capacity { 1 ≤ capacity }
        requires senders { 1 ≤ senders }
        ensures size { IfOk result (λ r. (r.1.pipe.capacity ≡ capacity) × (r.1.pipe.senders ≡ senders)) }
        ensures senders { IfOk result (λ r. r.0.items ≡ fresh r.1.pipe senders) }
        ensures taker { IfOk result (λ r. r.1 ≡ took r.1.pipe [] []) }
        ensures count { IfOk result (λ r. length r.0.items ≡ senders) }
        ensures of_pipe { IfOk result (λ r. All (λ s. s.pipe ≡ r.1.pipe) r.0.items) }
    {
        let (line, mut place) = Line::ruled(alloc, capacity as usize)?;
        let (counter, mut share) = Counter::new(alloc, senders)?;
        let shared = Arc::new(
            alloc,
            Shared {
                line,
                counter,
                capacity,
                senders,
            },
        )?;
        let mut all = Vec::with_capacity(alloc, senders as usize)?;
        for number in 0..senders {
            all.push(Sender {
                shared: Arc::try_clone(&shared)?,
                place: shared.line.another::<Enrolls>(&mut place),
                share: shared.counter.deal(&mut share),
                number,
                counted: 0,
                full: false,
            })?;
        }
        let taker = Taker {
            shared,
            place,
            share,
        };
        Ok((all, taker))
    }
}

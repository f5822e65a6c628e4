//! A trace: the Table that it speaks of, and its calls in the order in which they were written down.

use sw_base::{Call, Items};
use sw_call::Replied;
use sw_column::Schema;

/// A line of a trace: a call with its place among all calls, who made it, and what it came to.
#[derive(Drop)]
pub struct TraceLine {
    /// The place among all calls, from 0.
    pub at: u64,
    /// A number that stands for who made the call.
    pub caller: u64,
    pub call: Call,
    pub replied: Replied,
}

/// The lines of a trace, in order.
pub type TraceLines = Items<TraceLine>;

/// What a trace says.
#[derive(Drop)]
pub struct Trace {
    /// The number of rows that the Table was asked for, 1 to 524,288.
    pub size: u32,
    /// The rows of the pool for each hundred rows, 0 to 100.
    pub percent: u32,
    pub schema: Schema,
    pub lines: TraceLines,
}

//! What the queue of a pipe holds.

/// A message, marked with the number of its sender. The mark stays inside the pipe.
#[derive(Drop)]
pub struct Mail<M> {
    pub from: u32,
    pub body: M,
}

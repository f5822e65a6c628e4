//! What a seat knows. The type is for the proofs alone: no value of it is made.
use std::collections::LinkedList;

/// The seat's parts, the opening state, the history that it has seen with the number of times that it drew each call itself, the locks
/// that it holds with what has to be given back, what its refused exchanges found, each with the number of the lock, and the histories
/// that the seats had seen which were joined into it.
pub struct View<S, Q, T> {
    pub parts: u64,
    pub start: Option<T>,
    pub seen: LinkedList<(u64, Q)>,
    pub held: LinkedList<(u64, S)>,
    pub refusals: LinkedList<(u64, u64)>,
    pub also: LinkedList<LinkedList<Q>>,
}

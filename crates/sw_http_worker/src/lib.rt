//! A handler that is given whole HTTP requests. Stands above the cutter of requests and the trait of handlers: a worker
//! gives it the pieces of its links as packets, and it gives the handler inside one request after the other.
#![tactic(auto)]

mod acting;
mod refusal;
mod serving;
mod worker;

pub use worker::HttpWorker;

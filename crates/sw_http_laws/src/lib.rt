//! What a handler of whole HTTP requests was given, by the record of a run. No code: it joins what the record promises
//! with what a handler round a handler does.
#![tactic(auto)]

mod laws;

pub use laws::{
    all_requests_reach_the_handler, cut_requests_begin_all, logged_handlers_tell,
    logged_workers_have_run, new_workers_have_run, requests_reach_the_handler_in_order,
};

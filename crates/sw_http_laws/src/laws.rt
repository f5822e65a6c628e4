//! The laws. The functions do nothing: their clauses are the theorems.

ghost use Rattle.std.specs.Prelude.{◌≡◌, ◌<◌, ℕ, List, []};
ghost use Rattle.sw_lists.specs.Lists.{IsPrefix};
ghost use Rattle.sw_record.specs.declared.record.Record.{Record};
ghost use Rattle.sw_record.specs.declared.record.LinkRecord.{LinkRecord};
ghost use Rattle.sw_record.specs.Drained.{Drained};
ghost use Rattle.sw_record.specs.Right.{Right};
ghost use Rattle.sw_record.specs.Terms.{Terms, Outside};
ghost use Rattle.sw_record.specs.Words.{Given, Act, Log};
ghost use Rattle.sw_table_laws.specs.Table.{Shape};
ghost use Rattle.sw_join.specs.Legal.{LegalFor};
ghost use Rattle.sw_http.specs.Calls.{IsCut};
ghost use Rattle.sw_http_worker.specs.declared.worker.HttpWorker.{HttpWorker};
ghost use Rattle.sw_handler.specs.declared.logged.Logged.{Logged as LoggedOf};
ghost use Rattle.sw_handler.specs.Log.{inner_of, log_of};
ghost use Rattle.sw_http_worker.specs.Worker.{inner_of as inside_of, IsNew};
ghost use Rattle.sw_http_laws.specs.Inside.{Tells, Ran};
ghost use Rattle.sw_http_laws.specs.Requests.{AreRequests};
ghost use Rattle.sw_http_laws.specs.Served.{IsWeb, IsServedBy, GivenInOrder, GivenAll};

use sw_handler::{Handler, Logged};
use sw_http_worker::HttpWorker as Worker;

/// In dispatch modes 2 and 4, where a link's pieces are its packets: of each session the handler inside was given
/// requests that are cut from a beginning of what the link's pieces join to, in order, numbered from 0, each once.
pub fn requests_reach_the_handler_in_order<H: Handler>()
    ensures { (tell : H → Log) → Tells H.acts tell → (max : ℕ) (t : Terms) (shape : Shape) (r : Record) (out : Outside) (net : List LinkRecord) (s : ℕ) (l : LinkRecord) (w : HttpWorker H) →
        IsWeb t → Right t (LegalFor shape) r out net → IsServedBy H.acts tell max t r s l w → GivenInOrder tell max s l w }
{}

/// Once nothing is on its way any more, it was given all requests that are cut from the pieces that were dispatched, or
/// as many as have numbers.
pub fn all_requests_reach_the_handler<H: Handler>()
    ensures { (tell : H → Log) → Tells H.acts tell → (max : ℕ) (t : Terms) (shape : Shape) (r : Record) (out : Outside) (net : List LinkRecord) (s : ℕ) (l : LinkRecord) (w : HttpWorker H) →
        IsWeb t → Right t (LegalFor shape) r out net → Drained t r → IsServedBy H.acts tell max t r s l w → GivenAll tell max t s l w }
{}

/// Requests that are cut from a beginning of some bytes begin all requests of those.
pub fn cut_requests_begin_all()
    ensures { (max : ℕ) (front bytes : List ℕ) (qs ps : List (List ℕ × ℕ)) (rest : List ℕ) → IsPrefix front bytes → IsCut max front qs rest → AreRequests max bytes ps → IsPrefix qs ps }
{}

/// A handler with its log is one that tells.
pub fn logged_handlers_tell<H: Handler>()
    ensures { Tells ⟦<Logged<H> as Handler>⟧.acts log_of }
{}

/// A handler round one that was given nothing has run through an empty log.
pub fn new_workers_have_run<H: Handler>()
    ensures { (tell : H → Log) (max : ℕ) (w : HttpWorker H) → 0 < max → IsNew (inside_of w) max w → tell (inside_of w) ≡ [] → Ran H.acts tell max [] w }
{}

/// And with its log it has run through that, whatever it is given.
pub fn logged_workers_have_run<H: Handler>()
    ensures { (tell : H → Log) (max : ℕ) (old new : LoggedOf (HttpWorker H)) (given : Given) (act : Act) → Ran H.acts tell max (log_of old) (inner_of old) →
        ⟦<Logged<Worker<H>> as Handler>⟧.acts old given act new → Ran H.acts tell max (log_of new) (inner_of new) }
{}

//! The links that an actor or a pipe still holds, once no actor makes turns any more.
ghost use Rattle.std.specs.Prelude.{◌≡◌, ◌<◌};
ghost use Rattle.sw_sessions.specs.Values.{slots};
ghost use Rattle.sw_sweep.specs.Sorted.{IsAtReactor};
ghost use Rattle.sw_sweep.specs.Stopped.{unheard};

use std::mem::replace;
use std::sync::Wait;
use sw_data::{Cause, Ended, Got, Msg};
use sw_link::{Ends, Link};
use sw_pipe::Taker;
use sw_players::Reacting;
use sw_port_book::Ticketed;
use sw_shared::Naming;

/// What is said of a link that no reactor has.
fn unheard<K: Ticketed>(ip: u32, ticket: &K, max_conn: u32) -> Ended
    requires { 0 < max_conn }
    ensures { result ≡ unheard (K.number ticket.now) ip max_conn }
{
    let session = ticket.session();
    Ended {
        session: Some(session),
        fd: session.number() % max_conn,
        ip,
        uid: 0,
        dispatched: 0,
        split: 0,
        cause: Cause::Stop,
    }
}

/// Ends the link of a message, if it has one. Answers whether memory was there.
fn drop_message<L: Drop, K: Ticketed + Drop, E: Ends<L>>(
    message: Msg<L, K>,
    max_conn: u32,
    ends: &mut E,
) -> bool
    requires { 0 < max_conn }
{
    match message {
        Msg::Fresh(link, ip, ticket) => {
            let ended = unheard(ip, &ticket, max_conn);
            ends.put(link, ended).is_ok()
        }
        _ => true,
    }
}

/// Ends the link of a message that came or came back, if it has one. Answers whether memory was there.
pub fn drop_got<L: Drop, K: Ticketed + Drop, E: Ends<L>>(
    got: Got<Msg<L, K>>,
    max_conn: u32,
    ends: &mut E,
) -> bool
    requires { 0 < max_conn }
{
    match got {
        Got::Took(message) => drop_message(message, max_conn, ends),
        Got::Full(message) => drop_message(message, max_conn, ends),
        _ => true,
    }
}

/// Ends the first link that a reactor still holds, by Stop. None where it holds none; else whether memory was there.
fn drop_one<L: Link + Drop, J: Naming, E: Ends<L>>(one: &mut Reacting<L, J, E>) -> Option<bool>
    requires { 0 < one.old.reactor.terms.max_conn }
    ensures { one.new.reactor.terms ≡ one.old.reactor.terms }
{
    let (link, ended, _) = one.reactor.take_one()?;
    let ended = Ended {
        cause: Cause::Stop,
        ..ended
    };
    Some(one.ends.put(link, ended).is_ok())
}

/// Ends all links that a reactor still holds, by Stop. Answers whether memory was there.
fn drop_conns<L: Link + Drop, J: Naming, E: Ends<L>, R: Wait>(
    rt: &R,
    one: &mut Reacting<L, J, E>,
) -> bool
    requires { 0 < one.old.reactor.terms.max_conn }
{
    let mut whole = true;
    for _ in rt.forever() {
        match drop_one(one) {
            Some(kept) => whole = whole && kept,
            None => break,
        }
    }
    whole
}

/// Ends all links that a pipe still holds, by Stop. Answers whether memory was there.
fn drop_messages<L: Drop, K: Ticketed + Drop, E: Ends<L>, R: Wait>(
    rt: &R,
    taker: &mut Option<Taker<Msg<L, K>>>,
    max_conn: u32,
    ends: &mut E,
) -> bool
    requires { 0 < max_conn }
{
    let mut whole = true;
    let Some(taker) = taker else {
        return true;
    };
    for _ in rt.forever() {
        match taker.take(rt) {
            Some(message) => whole = drop_message(message, max_conn, ends) && whole,
            None => break,
        }
    }
    whole
}

/// Ends all links that a reactor and its pipe still hold, by Stop: what its last pipe call brought counts first. Answers whether
/// memory was there.
pub fn sweep_reactor<L: Link + Drop, J: Naming, E: Ends<L>, R: Wait>(
    rt: &R,
    one: &mut Reacting<L, J, E>,
) -> bool
    requires { IsAtReactor (slots J.book) J.board.sizes one.old }
{
    let max_conn = one.reactor.terms.max_conn;
    let got = replace(&mut one.got, Got::Nothing);
    one.reactor.settle(one.alloc, got, &mut one.pass);
    let conns = drop_conns(rt, one);
    drop_messages(rt, &mut one.lines.taker, max_conn, &mut one.ends) && conns
}

//! Which rule fits an event.

ghost use Rattle.std.specs.Prelude.{◌≡◌, ◌<◌, length, IfSome};
ghost use Rattle.sw_scripted.specs.Fitting.{kind_of, session_of, bytes_of, begins, first_fit};

use sw_base::Session;
use sw_data::Event;
use sw_script::{On, Rule};

/// The kind of an event.
pub fn kind_of(event: &Event) -> On
    ensures { result ≡ kind_of event.now }
{
    match event {
        Event::Connect(_) => On::Connect,
        Event::Packet(_, _, _) => On::Packet,
        Event::Closed(_) => On::Closed,
        Event::Finish(_, _) => On::Finish,
        Event::Task(_, _, _) => On::Task,
    }
}

/// The session that an event is about, where it is about one.
pub fn session_of(event: &Event) -> Option<Session>
    ensures { result ≡ session_of event.now }
{
    match event {
        Event::Connect(session) => Some(*session),
        Event::Packet(session, _, _) => Some(*session),
        Event::Closed(session) => Some(*session),
        Event::Finish(_, _) => None,
        Event::Task(_, _, _) => None,
    }
}

/// The bytes of an event; none on Connect and Closed.
pub fn bytes_of(event: &Event) -> &[u8]
    ensures { result.now ≡ bytes_of event.now }
{
    match event {
        Event::Connect(_) => &[],
        Event::Packet(_, _, bytes) => bytes.bytes(),
        Event::Closed(_) => &[],
        Event::Finish(_, bytes) => bytes.bytes(),
        Event::Task(_, _, bytes) => bytes.bytes(),
    }
}

/// Whether a prefix begins these bytes.
fn begins(prefix: &[u8], bytes: &[u8]) -> bool
    ensures { result ≡ begins prefix.now bytes.now }
{
    bytes.starts_with(prefix)
}

/// The place of the first rule whose prefix begins these bytes. None exactly where there is none.
pub fn first_fit(rules: &[Rule], bytes: &[u8]) -> Option<usize>
    ensures value { result ≡ first_fit rules.now bytes.now }
    ensures within { IfSome result (λ at. at < length rules.now) }
{
    rules
        .iter()
        .position(|rule| begins(rule.prefix.bytes(), bytes))
}

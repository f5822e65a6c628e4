//! What a handler is told.

ghost use Rattle.std.specs.Prelude.{◌≡◌, ◌++◌, OnOk, string_bytes};
ghost use Rattle.sw_log_text.specs.Events.{bytes_behind, session_text, packet_text, finish_text, task_text, event_text};

use crate::values::put_label;
use sw_base::{OutOfMemory, Session};
use sw_data::Event;
use sw_text::put_bytes;

/// A space, and bytes behind it.
pub fn put_bytes_behind(out: &mut String, bytes: &[u8]) -> Result<(), OutOfMemory>
    ensures { OnOk result (string_bytes out.new ≡ string_bytes out.old ++ bytes_behind bytes.now) }
{
    out.push_str(" ")?;
    put_bytes(out, bytes)?;
    Ok(())
}

/// A word, and the number of a session behind it.
pub fn put_session(out: &mut String, word: &str, session: Session) -> Result<(), OutOfMemory>
    ensures { OnOk result (string_bytes out.new ≡ string_bytes out.old ++ session_text word.now session) }
{
    put_label(out, word, session.number() as u64)
}

fn put_packet(out: &mut String, session: Session, at: u64, bytes: &[u8]) -> Result<(), OutOfMemory>
    ensures { OnOk result (string_bytes out.new ≡ string_bytes out.old ++ packet_text session at bytes.now) }
{
    put_session(out, "packet ", session)?;
    put_label(out, " ", at)?;
    put_bytes_behind(out, bytes)
}

fn put_finish(out: &mut String, id: u64, bytes: &[u8]) -> Result<(), OutOfMemory>
    ensures { OnOk result (string_bytes out.new ≡ string_bytes out.old ++ finish_text id bytes.now) }
{
    put_label(out, "finish ", id)?;
    put_bytes_behind(out, bytes)
}

fn put_task(out: &mut String, worker: u32, id: u64, bytes: &[u8]) -> Result<(), OutOfMemory>
    ensures { OnOk result (string_bytes out.new ≡ string_bytes out.old ++ task_text worker id bytes.now) }
{
    put_label(out, "task ", worker as u64)?;
    put_label(out, " ", id)?;
    put_bytes_behind(out, bytes)
}

/// Appends the text of an event.
pub fn put_event(out: &mut String, event: &Event) -> Result<(), OutOfMemory>
    ensures { OnOk result (string_bytes out.new ≡ string_bytes out.old ++ event_text event.now) }
{
    match event {
        Event::Connect(session) => put_session(out, "connect ", *session),
        Event::Packet(session, at, bytes) => put_packet(out, *session, *at, bytes.bytes()),
        Event::Closed(session) => put_session(out, "closed ", *session),
        Event::Finish(id, bytes) => put_finish(out, *id, bytes.bytes()),
        Event::Task(worker, id, bytes) => put_task(out, *worker, *id, bytes.bytes()),
    }
}

//! What a handler does.

ghost use Rattle.std.specs.Prelude.{◌≡◌, ◌++◌, OnOk, string_bytes};
ghost use Rattle.sw_log_text.specs.Acts.{send_text, bind_text, dst_text, task_text, finish_text, table_text, counter_text, stats_text, act_text};

use crate::calls::put_call;
use crate::events::{put_bytes_behind, put_session};
use crate::values::put_label;
use sw_base::{Call, Counter, OutOfMemory, Session};
use sw_data::{Act, Dst};

fn put_send(out: &mut String, session: Session, bytes: &[u8]) -> Result<(), OutOfMemory>
    ensures { OnOk result (string_bytes out.new ≡ string_bytes out.old ++ send_text session bytes.now) }
{
    put_session(out, "send ", session)?;
    put_bytes_behind(out, bytes)
}

fn put_bind(out: &mut String, session: Session, uid: u32) -> Result<(), OutOfMemory>
    ensures { OnOk result (string_bytes out.new ≡ string_bytes out.old ++ bind_text session uid) }
{
    put_session(out, "bind ", session)?;
    put_label(out, " ", uid as u64)
}

fn put_dst(out: &mut String, dst: Dst) -> Result<(), OutOfMemory>
    ensures { OnOk result (string_bytes out.new ≡ string_bytes out.old ++ dst_text dst) }
{
    match dst {
        Dst::Any => Ok(out.push_str("task any")?),
        Dst::At(number) => put_label(out, "task ", number as u64),
    }
}

fn put_task(out: &mut String, dst: Dst, bytes: &[u8]) -> Result<(), OutOfMemory>
    ensures { OnOk result (string_bytes out.new ≡ string_bytes out.old ++ task_text dst bytes.now) }
{
    put_dst(out, dst)?;
    put_bytes_behind(out, bytes)
}

fn put_finish(out: &mut String, bytes: &[u8]) -> Result<(), OutOfMemory>
    ensures { OnOk result (string_bytes out.new ≡ string_bytes out.old ++ finish_text bytes.now) }
{
    out.push_str("finish")?;
    put_bytes_behind(out, bytes)
}

fn put_table(out: &mut String, call: &Call) -> Result<(), OutOfMemory>
    ensures { OnOk result (string_bytes out.new ≡ string_bytes out.old ++ table_text call.now) }
{
    out.push_str("table ")?;
    put_call(out, call)
}

fn counter_text(counter: Counter) -> &'static str
    ensures { result.now ≡ counter_text counter }
{
    match counter {
        Counter::Accepted => "accepted",
        Counter::Ended => "ended",
        Counter::Packets => "packets",
        Counter::Sends => "sends",
        Counter::Tasks => "tasks",
        Counter::Finishes => "finishes",
    }
}

fn put_stats(out: &mut String, counter: Counter) -> Result<(), OutOfMemory>
    ensures { OnOk result (string_bytes out.new ≡ string_bytes out.old ++ stats_text counter) }
{
    out.push_str("stats ")?;
    out.push_str(counter_text(counter))?;
    Ok(())
}

/// Appends the text of an act.
pub fn put_act(out: &mut String, act: &Act) -> Result<(), OutOfMemory>
    ensures { OnOk result (string_bytes out.new ≡ string_bytes out.old ++ act_text act.now) }
{
    match act {
        Act::Send(session, bytes) => put_send(out, *session, bytes.bytes()),
        Act::Close(session) => put_session(out, "close ", *session),
        Act::Reset(session) => put_session(out, "reset ", *session),
        Act::Bind(session, uid) => put_bind(out, *session, *uid),
        Act::Exist(session) => put_session(out, "exist ", *session),
        Act::Info(session) => put_session(out, "info ", *session),
        Act::Task(dst, bytes) => put_task(out, *dst, bytes.bytes()),
        Act::Finish(bytes) => put_finish(out, bytes.bytes()),
        Act::Table(call) => put_table(out, call),
        Act::Stats(counter) => put_stats(out, *counter),
        Act::Shutdown => Ok(out.push_str("shutdown")?),
        Act::Done => Ok(out.push_str("done")?),
    }
}

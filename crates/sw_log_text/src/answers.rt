//! What an act came to.

ghost use Rattle.std.specs.Prelude.{◌≡◌, ◌++◌, OnOk, string_bytes};
ghost use Rattle.sw_log_text.specs.Answers.{refusal_text, info_text, table_text, answer_text};

use crate::values::{put_label, put_reply};
use sw_base::{CallFault, Cells, OutOfMemory, Reply};
use sw_data::Answer;

fn put_refusal(out: &mut String, fault: CallFault) -> Result<(), OutOfMemory>
    ensures { OnOk result (string_bytes out.new ≡ string_bytes out.old ++ refusal_text fault) }
{
    match fault {
        CallFault::Busy(_, _) => out.push_str("refused busy")?,
        CallFault::Spent(calls) => put_label(out, "refused spent ", calls)?,
        CallFault::BadKey => out.push_str("refused badkey")?,
        CallFault::NoColumn => out.push_str("refused nocolumn")?,
        CallFault::NotInt => out.push_str("refused notint")?,
        CallFault::BadValue => out.push_str("refused badvalue")?,
        CallFault::Range => out.push_str("refused range")?,
    }
    Ok(())
}

fn put_info(out: &mut String, fd: u32, uid: u32) -> Result<(), OutOfMemory>
    ensures { OnOk result (string_bytes out.new ≡ string_bytes out.old ++ info_text fd uid) }
{
    put_label(out, "info ", fd as u64)?;
    put_label(out, " ", uid as u64)
}

fn put_table(out: &mut String, at: u64, reply: Reply, cells: &Cells) -> Result<(), OutOfMemory>
    ensures { OnOk result (string_bytes out.new ≡ string_bytes out.old ++ table_text at reply cells.now) }
{
    put_label(out, "table ", at)?;
    out.push_str(" ")?;
    put_reply(out, reply, cells)
}

/// Appends the text of an answer.
pub fn put_answer(out: &mut String, answer: &Answer) -> Result<(), OutOfMemory>
    ensures { OnOk result (string_bytes out.new ≡ string_bytes out.old ++ answer_text answer.now) }
{
    match answer {
        Answer::Sent => out.push_str("sent")?,
        Answer::Asked => out.push_str("asked")?,
        Answer::BindOk => out.push_str("bindok")?,
        Answer::Exists => out.push_str("exists")?,
        Answer::Info(fd, uid) => put_info(out, *fd, *uid)?,
        Answer::Posted(id) => put_label(out, "posted ", *id)?,
        Answer::Finished => out.push_str("finished")?,
        Answer::Table(at, reply, cells) => put_table(out, *at, *reply, cells)?,
        Answer::TableRefused(fault) => put_refusal(out, *fault)?,
        Answer::Count(n) => put_label(out, "count ", *n)?,
        Answer::NoSession(seen) => put_label(out, "nosession ", *seen as u64)?,
        Answer::Bound(uid) => put_label(out, "bound ", *uid as u64)?,
        Answer::BadUid => out.push_str("baduid")?,
        Answer::WrongMode => out.push_str("wrongmode")?,
        Answer::TaskFull => out.push_str("taskfull")?,
        Answer::BadTarget => out.push_str("badtarget")?,
        Answer::NoTaskWorkers => out.push_str("notaskworkers")?,
        Answer::IdsSpent => out.push_str("idsspent")?,
        Answer::NotHere => out.push_str("nothere")?,
        Answer::NoTable => out.push_str("notable")?,
    }
    Ok(())
}

//! Answers as texts, read.

use std::alloc::Global;
use sw_base::{CallFault, OutOfMemory};
use sw_call::reply;
use sw_case_texts::small;
use sw_data::Answer;
use sw_text::number;

/// An answer of one word.
fn alone(word: &str) -> Option<Answer> {
    match word {
        "sent" => Some(Answer::Sent),
        "asked" => Some(Answer::Asked),
        "bindok" => Some(Answer::BindOk),
        "exists" => Some(Answer::Exists),
        "finished" => Some(Answer::Finished),
        "baduid" => Some(Answer::BadUid),
        "wrongmode" => Some(Answer::WrongMode),
        "taskfull" => Some(Answer::TaskFull),
        "badtarget" => Some(Answer::BadTarget),
        "notaskworkers" => Some(Answer::NoTaskWorkers),
        "idsspent" => Some(Answer::IdsSpent),
        "nothere" => Some(Answer::NotHere),
        "notable" => Some(Answer::NoTable),
        _ => None,
    }
}

/// An answer with a number.
fn numbered(word: &str, text: &str) -> Option<Answer> {
    match word {
        "posted" => Some(Answer::Posted(number(text.as_bytes())?)),
        "count" => Some(Answer::Count(number(text.as_bytes())?)),
        "nosession" => Some(Answer::NoSession(small(text.as_bytes())?)),
        "bound" => Some(Answer::Bound(small(text.as_bytes())?)),
        _ => None,
    }
}

fn info(text: &str) -> Option<Answer> {
    let (fd, uid) = text.split_once(" ")?;
    Some(Answer::Info(small(fd.as_bytes())?, small(uid.as_bytes())?))
}

fn refused(text: &str) -> Option<Answer> {
    let fault = match text {
        "badkey" => CallFault::BadKey,
        "nocolumn" => CallFault::NoColumn,
        "notint" => CallFault::NotInt,
        "badvalue" => CallFault::BadValue,
        "range" => CallFault::Range,
        _ => CallFault::Spent(number(text.strip_prefix("spent ")?.as_bytes())?),
    };
    Some(Answer::TableRefused(fault))
}

fn table(alloc: Global, text: &str) -> Result<Option<Answer>, OutOfMemory> {
    let Some((at, text)) = text.split_once(" ") else {
        return Ok(None);
    };
    match (number(at.as_bytes()), reply(alloc, text.as_bytes())?) {
        (Some(at), Some(found)) => Ok(Some(Answer::Table(at, found.reply, found.cells))),
        _ => Ok(None),
    }
}

/// The answer that a text is, if it is one.
pub fn answer(alloc: Global, text: &str) -> Result<Option<Answer>, OutOfMemory> {
    let Some((word, rest)) = text.split_once(" ") else {
        return Ok(alone(text));
    };
    match word {
        "table" => table(alloc, rest),
        "info" => Ok(info(rest)),
        "refused" => Ok(refused(rest)),
        _ => Ok(numbered(word, rest)),
    }
}

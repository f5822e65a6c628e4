//! The verdict on a trace: its calls are made on a plain Table in the order of their places.

ghost use Rattle.std.specs.Prelude.{◌≡◌, ◌+◌, ◌<◌, ◌≤◌, None, Some, All, IfOk, IfNone, length, MatchBool, ℕ, IsPermutation};
ghost use Rattle.std.specs.Bool.{OnTrue};
ghost use Rattle.std.specs.List.Sorted.{IsNonDecreasingBy};
ghost use Rattle.std.specs.FinMap as map;
ghost use Rattle.sw_column.specs.Fit.{call_fault};
ghost use Rattle.sw_column.specs.Values.{HasKinds};
ghost use Rattle.sw_tmodel.specs.Plain.{shape_of};
ghost use Rattle.sw_audit.specs.declared.trace.TraceLine.{TraceLine};
ghost use Rattle.sw_audit.specs.Grammar.{IsTrace};
ghost use Rattle.sw_audit.specs.Judging.{IsLeast, HasPlace, IsReached, IsSameTable, lesser};
ghost use Rattle.sw_audit.specs.Finals.{IsPlayed, IsFinished};
ghost use Rattle.sw_audit.specs.Verdicts.{IsVerdict, IsWrong, table_of, lines_at};

use crate::answers::is_told;
use crate::late::first_late;
use crate::trace::{Trace, TraceLine, TraceLines};
use crate::verdict::Verdict;
use std::alloc::Global;
use sw_base::OutOfMemory;
use sw_column::RowBuf;
use sw_tmodel::Plain;

/// The most calls that a Table can have.
const MOST_CALLS: u64 = 8_796_093_022_207;

/// The lines in the order of their places; those of one place keep their order.
fn by_place(lines: TraceLines) -> Result<Vec<TraceLine>, OutOfMemory>
    ensures order { IfOk result (λ v. IsNonDecreasingBy (λ (e : TraceLine). e.at) v.items) }
    ensures same { IfOk result (λ v. IsPermutation lines v.items) }
    ensures stable { IfOk result (λ v. (at : ℕ) → lines_at v.items at ≡ lines_at lines at) }
{
    let mut lines = lines.into_vec();
    lines.sort_by_key(|line| line.at)?;
    Ok(lines)
}

/// Whether there is a line at the index that has this place.
fn has_place(lines: &[TraceLine], index: usize, place: u64) -> bool
    ensures { MatchBool result (HasPlace lines.now index place) (¬ HasPlace lines.now index place) }
{
    index < lines.len() && lines[index].at == place
}

/// Whether the place is right: it is that of its line, of no other, and the line tells the plain Table's answer. The lines are
/// in the order of their places, all lower places are right, and the plain Table has made their calls.
fn is_right(lines: &[TraceLine], at: usize, plain: &mut Plain, row: &mut RowBuf) -> bool
    requires within { at < length lines.now }
    requires order { IsNonDecreasingBy (λ (e : TraceLine). e.at) lines.now }
    requires fit { All (λ (e : TraceLine). call_fault plain.old.columns e.call ≡ None) lines.now }
    requires reached { IsReached lines.now at plain.old }
    requires room { length lines.now ≤ plain.old.last_call }
    requires kinds { HasKinds plain.old.columns row.old }
    ensures right { MatchBool result (¬ IsWrong (shape_of plain.old) lines.now at) (IsWrong (shape_of plain.old) lines.now at) }
    ensures reached { OnTrue result (IsReached lines.now (at + 1) plain.new) }
    ensures same { IsSameTable plain.old plain.new }
    ensures kinds { HasKinds plain.old.columns row.new }
{
    let place = at as u64;
    if !has_place(lines, at, place) {
        return false;
    }
    if has_place(lines, at + 1, place) {
        return false;
    }
    is_told(&lines[at], plain, row)
}

/// The least wrong place of lines that are in the order of their places, if there is one. The plain Table has made no call, and
/// makes all of theirs where there is none.
fn first_in_order(lines: &[TraceLine], plain: &mut Plain, row: RowBuf) -> Option<u64>
    requires order { IsNonDecreasingBy (λ (e : TraceLine). e.at) lines.now }
    requires fit { All (λ (e : TraceLine). call_fault plain.old.columns e.call ≡ None) lines.now }
    requires calls { plain.old.calls ≡ 0 }
    requires state { plain.old.state ≡ map.empty }
    requires room { length lines.now ≤ plain.old.last_call }
    requires kinds { HasKinds plain.old.columns row }
    ensures least { IsLeast (IsWrong (shape_of plain.old) lines.now) result }
    ensures reached { IfNone result (IsReached lines.now (length lines.now) plain.new) }
    ensures same { IsSameTable plain.old plain.new }
{
    let mut row = row;
    for at in 0..lines.len() {
        if !is_right(lines, at, plain, &mut row) {
            return Some(at as u64);
        }
    }
    None
}

/// The Table that a trace leaves, or the least place that is missing, doubled or has another reply.
fn played(alloc: Global, trace: Trace) -> Result<Result<Plain, u64>, OutOfMemory>
    requires { IsTrace trace }
    ensures { IfOk result (IsPlayed trace) }
{
    let lines = by_place(trace.lines)?;
    if lines.len() as u64 > MOST_CALLS {
        return Err(OutOfMemory);
    }
    let row = RowBuf::make(alloc, &trace.schema)?;
    let mut plain = Plain::make(alloc, trace.schema, trace.size, trace.percent, MOST_CALLS)?;
    match first_in_order(&lines, &mut plain, row) {
        None => Ok(Ok(plain)),
        Some(at) => Ok(Err(at)),
    }
}

/// The lesser of two places, one of which may be absent.
fn lower(late: Option<u64>, wrong: u64) -> u64
    ensures { Some result ≡ lesser late (Some wrong) }
{
    match late {
        None => wrong,
        Some(late) => { if wrong < late { wrong } else { late } }
    }
}

/// The Table that a trace leaves, or the least place that is missing, doubled, has another reply than the definition's after the
/// calls at all lower places, or stands behind a greater place of the same caller. More than 8,796,093,022,207 lines are more
/// than memory holds, and the answer is `OutOfMemory`.
pub fn finished(alloc: Global, trace: Trace) -> Result<Result<Plain, u64>, OutOfMemory>
    requires { IsTrace trace }
    ensures { IfOk result (IsFinished trace) }
{
    let late = first_late(alloc, trace.lines.as_slice())?;
    let end = played(alloc, trace)?;
    match end {
        Err(wrong) => Ok(Err(lower(late, wrong))),
        Ok(plain) => match late {
            None => Ok(Ok(plain)),
            Some(at) => Ok(Err(at)),
        },
    }
}

/// The verdict on a trace: `No` for the least bad place, and `Ok` with the number of calls where there is none.
pub fn judge(alloc: Global, trace: Trace) -> Result<Verdict, OutOfMemory>
    requires { IsTrace trace }
    ensures { IfOk result (IsVerdict trace) }
{
    match finished(alloc, trace)? {
        Ok(plain) => Ok(Verdict::Ok(plain.calls())),
        Err(at) => Ok(Verdict::No(at)),
    }
}

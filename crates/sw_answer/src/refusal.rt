//! Why an input is refused, and the line that is written for it.

ghost use Rattle.std.specs.Prelude.{◌≡◌, ◌++◌, List, codes, IfOk, OnOk, string_bytes};
ghost use Rattle.std.specs.Fmt.{decimal};
ghost use Rattle.sw_text.specs.Hex.{hex};
ghost use Rattle.sw_audit.specs.declared.verdict.Verdict.TheVariants as verdicts;
ghost use Rattle.sw_audit.specs.Printing.{verdict_text};
ghost use Rattle.sw_answer.specs.Refusals.{column_word, is_memory, key_text, reason_text, settings_text, line_text, unfit_text, refusal_text, refusal_status};

use crate::status::Status;
use std::alloc::Global;
use sw_audit::{Verdict, print};
use sw_base::{Name, Octets, OutOfMemory};
use sw_column::ColumnFault;
use sw_settings::SettingsFault;
use sw_text::{put_hex, put_number};

/// Whether settings were refused for want of memory.
pub fn is_memory(fault: &SettingsFault) -> bool
    ensures { result ≡ is_memory fault.now }
{
    match fault {
        SettingsFault::OutOfMemory => true,
        _ => false,
    }
}

/// Why an input that was read whole is refused.
#[derive(Drop)]
pub enum Refusal {
    /// This line isn't in the grammar.
    Line(u64),
    /// The settings have this fault.
    Settings(SettingsFault),
    /// This is the least bad place of a trace.
    Place(u64),
    /// This is the first line whose row the new columns refuse, and this the first column for which they do.
    Unfit(u64, Name),
}

fn put_key(out: &mut Octets, word: &str, key: &[u8]) -> Result<(), OutOfMemory>
    ensures { OnOk result (out.new ≡ out.old ++ key_text word.now key.now) }
{
    out.extend(word.as_bytes())?;
    out.extend(key)
}

/// A word, and the bytes of a name behind it as hexadecimal digits.
fn put_name(alloc: Global, out: &mut Octets, word: &str, name: &[u8]) -> Result<(), OutOfMemory>
    ensures { OnOk result (out.new ≡ out.old ++ key_text word.now (hex name.now)) }
{
    let mut digits = String::new(alloc);
    put_hex(&mut digits, name)?;
    put_key(out, word, digits.as_bytes())
}

/// The word for what is wrong with a column.
fn column_word(fault: ColumnFault) -> &'static str
    ensures { result.now ≡ column_word fault }
{
    match fault {
        ColumnFault::TooMany => "toomany",
        ColumnFault::BadName => "badname",
        ColumnFault::Twice => "twice",
        ColumnFault::Float => "float",
        ColumnFault::BadSize => "badsize",
        ColumnFault::OutOfMemory => "memory",
    }
}

fn put_column(
    alloc: Global,
    out: &mut Octets,
    name: &[u8],
    fault: ColumnFault,
) -> Result<(), OutOfMemory>
    ensures { OnOk result (out.new ≡ out.old ++ reason_text (SettingsFault.Column name.now fault)) }
{
    put_name(alloc, out, "column x", name)?;
    put_key(out, " ", column_word(fault).as_bytes())
}

fn put_number_behind(alloc: Global, out: &mut Octets, number: u64) -> Result<(), OutOfMemory>
    ensures { OnOk result (out.new ≡ out.old ++ (codes " " ++ decimal number)) }
{
    let mut digits = String::new(alloc);
    put_number(&mut digits, number)?;
    put_key(out, " ", digits.as_bytes())
}

fn put_range(
    alloc: Global,
    out: &mut Octets,
    key: &[u8],
    least: u64,
    most: u64,
) -> Result<(), OutOfMemory>
    ensures { OnOk result (out.new ≡ out.old ++ reason_text (SettingsFault.Range key.now least most)) }
{
    put_key(out, "range ", key)?;
    put_number_behind(alloc, out, least)?;
    put_number_behind(alloc, out, most)
}

fn put_conflict(out: &mut Octets, key: &[u8], other: &[u8]) -> Result<(), OutOfMemory>
    ensures { OnOk result (out.new ≡ out.old ++ reason_text (SettingsFault.Conflict key.now other.now)) }
{
    put_key(out, "conflict ", key)?;
    put_key(out, " ", other)
}

fn put_reason(alloc: Global, out: &mut Octets, fault: &SettingsFault) -> Result<(), OutOfMemory>
    ensures { OnOk result (out.new ≡ out.old ++ reason_text fault.now) }
{
    match fault {
        SettingsFault::NotJson => out.extend(b"notjson"),
        SettingsFault::Unknown(key) => put_name(alloc, out, "unknown x", key.bytes()),
        SettingsFault::BadType(key) => put_key(out, "type ", key.bytes()),
        SettingsFault::Range(key, least, most) => {
            put_range(alloc, out, key.bytes(), *least, *most)
        }
        SettingsFault::Missing(key) => put_key(out, "missing ", key.bytes()),
        SettingsFault::Conflict(key, other) => put_conflict(out, key.bytes(), other.bytes()),
        SettingsFault::Column(name, fault) => put_column(alloc, out, name.bytes(), *fault),
        SettingsFault::OutOfMemory => Ok(()),
    }
}

fn settings_text(alloc: Global, fault: &SettingsFault) -> Result<Octets, OutOfMemory>
    ensures { IfOk result (λ text. text ≡ settings_text fault.now) }
{
    let mut out = Octets::new(alloc);
    out.extend(b"fault settings ")?;
    put_reason(alloc, &mut out, fault)?;
    out.extend(b"\n")?;
    Ok(out)
}

fn line_text(alloc: Global, number: u64) -> Result<Octets, OutOfMemory>
    ensures { IfOk result (λ text. text ≡ line_text number) }
{
    let mut out = Octets::new(alloc);
    let mut digits = String::new(alloc);
    put_number(&mut digits, number)?;
    put_key(&mut out, "fault line ", digits.as_bytes())?;
    out.extend(b"\n")?;
    Ok(out)
}

fn unfit_text(alloc: Global, number: u64, name: &[u8]) -> Result<Octets, OutOfMemory>
    ensures { IfOk result (λ text. text ≡ unfit_text number name.now) }
{
    let mut out = Octets::new(alloc);
    let mut digits = String::new(alloc);
    put_number(&mut digits, number)?;
    put_key(&mut out, "fault unfit ", digits.as_bytes())?;
    put_name(alloc, &mut out, " x", name)?;
    out.extend(b"\n")?;
    Ok(out)
}

fn place_text(alloc: Global, at: u64) -> Result<Octets, OutOfMemory>
    ensures { IfOk result (λ text. text ≡ verdict_text (verdicts.No at)) }
{
    let text = print(alloc, Verdict::No(at))?;
    Ok(Octets::of(text.into_bytes()))
}

impl Refusal {
    /// The line that is written.
    pub fn text(&self, alloc: Global) -> Result<Octets, OutOfMemory>
        ensures { IfOk result (λ text. text ≡ refusal_text self.now) }
    {
        match self {
            Refusal::Line(number) => line_text(alloc, *number),
            Refusal::Settings(fault) => settings_text(alloc, fault),
            Refusal::Place(at) => place_text(alloc, *at),
            Refusal::Unfit(number, name) => unfit_text(alloc, *number, name.bytes()),
        }
    }

    /// The status that is answered.
    pub fn status(self) -> Status
        ensures { result ≡ refusal_status self }
    {
        match self {
            Refusal::Line(number) => Status::BadLine(number),
            Refusal::Settings(fault) => Status::Settings(fault),
            Refusal::Place(at) => Status::No(at),
            Refusal::Unfit(number, name) => Status::Unfit(number, name),
        }
    }
}

//! Why a link ended, as text.

ghost use Rattle.std.specs.Prelude.{◌≡◌, ◌++◌, OnOk, string_bytes};
ghost use Rattle.sw_record_text.specs.Causes.{label_text, cause_text};

use sw_base::OutOfMemory;
use sw_data::Cause;
use sw_text::put_number;

/// A word, and a number behind it.
pub(crate) fn put_label(out: &mut String, word: &str, number: u64) -> Result<(), OutOfMemory>
    ensures { OnOk result (string_bytes out.new ≡ string_bytes out.old ++ label_text word.now number) }
{
    out.push_str(word)?;
    put_number(out, number)?;
    Ok(())
}

/// Appends a cause's name, with its number behind a space where it has one.
pub fn put_cause(out: &mut String, cause: Cause) -> Result<(), OutOfMemory>
    ensures { OnOk result (string_bytes out.new ≡ string_bytes out.old ++ cause_text cause) }
{
    match cause {
        Cause::PeerEnd => out.push_str("PeerEnd")?,
        Cause::ServerClose => out.push_str("ServerClose")?,
        Cause::Reset => out.push_str("Reset")?,
        Cause::ReadFault => out.push_str("ReadFault")?,
        Cause::WriteFault => out.push_str("WriteFault")?,
        Cause::TooLong(n) => put_label(out, "TooLong ", n)?,
        Cause::BadLength(n) => put_label(out, "BadLength ", n)?,
        Cause::Overflow(n) => put_label(out, "Overflow ", n)?,
        Cause::Stop => out.push_str("Stop")?,
        Cause::NoSlot => out.push_str("NoSlot")?,
        Cause::NumbersSpent => out.push_str("NumbersSpent")?,
        Cause::NoMemory => out.push_str("NoMemory")?,
    }
    Ok(())
}

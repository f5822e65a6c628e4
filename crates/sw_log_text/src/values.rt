//! Values and replies of the Table.

ghost use Rattle.std.specs.Prelude.{◌≡◌, ◌++◌, OnOk, string_bytes};
ghost use Rattle.std.specs.List.{flat_map};
ghost use Rattle.sw_log_text.specs.Values.{label_text, signed_label_text, value_text, cell_text, reply_text};

use sw_base::{Cells, OutOfMemory, Reply, Value};
use sw_text::{put_hex, put_number, put_signed};

/// A word, and a number behind it.
pub fn put_label(out: &mut String, word: &str, n: u64) -> Result<(), OutOfMemory>
    ensures { OnOk result (string_bytes out.new ≡ string_bytes out.old ++ label_text word.now n) }
{
    out.push_str(word)?;
    put_number(out, n)?;
    Ok(())
}

/// A word, and a number with its sign behind it.
pub fn put_signed_label(out: &mut String, word: &str, n: i64) -> Result<(), OutOfMemory>
    ensures { OnOk result (string_bytes out.new ≡ string_bytes out.old ++ signed_label_text word.now n) }
{
    out.push_str(word)?;
    put_signed(out, n)?;
    Ok(())
}

/// A number with its sign, or an `x` and hexadecimal digits.
pub fn put_value(out: &mut String, value: &Value) -> Result<(), OutOfMemory>
    ensures { OnOk result (string_bytes out.new ≡ string_bytes out.old ++ value_text value.now) }
{
    match value {
        Value::Int(n) => Ok(put_signed(out, *n)?),
        Value::Text(text) => {
            out.push_str("x")?;
            put_hex(out, text.bytes())?;
            Ok(())
        }
    }
}

/// Each value behind a space.
fn put_cells(out: &mut String, cells: &[Value]) -> Result<(), OutOfMemory>
    ensures { OnOk result (string_bytes out.new ≡ string_bytes out.old ++ flat_map cell_text cells.now) }
{
    for value in cells {
        out.push_str(" ")?;
        put_value(out, value)?;
    }
    Ok(())
}

fn put_row(out: &mut String, cells: &Cells) -> Result<(), OutOfMemory>
    ensures { OnOk result (string_bytes out.new ≡ string_bytes out.old ++ reply_text Reply.Found cells.now) }
{
    out.push_str("row")?;
    put_cells(out, cells.as_slice())
}

/// Appends a reply, and behind `row` the values, each behind a space.
pub fn put_reply(out: &mut String, reply: Reply, cells: &Cells) -> Result<(), OutOfMemory>
    ensures { OnOk result (string_bytes out.new ≡ string_bytes out.old ++ reply_text reply cells.now) }
{
    match reply {
        Reply::Stored => out.push_str("stored")?,
        Reply::Full => out.push_str("full")?,
        Reply::Found => put_row(out, cells)?,
        Reply::Missing => out.push_str("missing")?,
        Reply::Yes => out.push_str("yes")?,
        Reply::No => out.push_str("no")?,
        Reply::Value(n) => put_signed_label(out, "value ", n)?,
        Reply::Range => out.push_str("range")?,
        Reply::Count(n) => put_label(out, "count ", n)?,
    }
    Ok(())
}

//! Columns, rows and Sets of them as a text.
ghost use Rattle.std.specs.Prelude.{◌≡◌, ◌++◌, codes, IfOk, OnOk, string_bytes};
ghost use Rattle.std.specs.Fmt.{decimal};
ghost use Rattle.std.specs.List.{flat_map};
ghost use Rattle.sw_tmodel.specs.Dumps.{pair_of};
ghost use Rattle.sw_log_text.specs.Values.{value_text};
ghost use Rattle.sw_dump.specs.Texts.{spaced_value, values_text, row_line, kind_text, column_text, comma_column, columns_text, head_line, pair_text, set_text, call_text, reply_text, set_words, set_line_of};

use std::alloc::{AllocError, Global};
use sw_base::{Call, Name, Octets, OutOfMemory, Pairs, Reply, Value};
use sw_column::{Column, Kind, Schema};
use sw_text::{put_hex, put_number, put_signed};
use sw_tmodel::DumpRow;

fn put_value(out: &mut String, value: &Value) -> Result<(), AllocError>
    ensures { OnOk result (string_bytes out.new ≡ string_bytes out.old ++ value_text value.now) }
{
    match value {
        Value::Int(n) => put_signed(out, *n),
        Value::Text(text) => {
            out.push_str("x")?;
            put_hex(out, text.bytes())
        }
    }
}

fn put_spaced(out: &mut String, value: &Value) -> Result<(), AllocError>
    ensures { OnOk result (string_bytes out.new ≡ string_bytes out.old ++ spaced_value value.now) }
{
    out.push_str(" ")?;
    put_value(out, value)
}

/// Values, each behind a space.
fn put_values(out: &mut String, values: &[Value]) -> Result<(), AllocError>
    ensures { OnOk result (string_bytes out.new ≡ string_bytes out.old ++ values_text values.now) }
{
    for value in values {
        put_spaced(out, value)?;
    }
    Ok(())
}

fn row_line(alloc: Global, row: &DumpRow) -> Result<String, OutOfMemory>
    ensures { IfOk result (λ s. string_bytes s ≡ row_line (pair_of row.now)) }
{
    let mut line = String::new(alloc);
    line.push_str("row ")?;
    put_hex(&mut line, row.key.bytes())?;
    put_values(&mut line, row.cells.as_slice())?;
    line.push_str("\n")?;
    Ok(line)
}

/// The line of a row: its key and its values.
pub fn put_row(alloc: Global, out: &mut Octets, row: &DumpRow) -> Result<(), OutOfMemory>
    ensures { OnOk result (out.new ≡ out.old ++ row_line (pair_of row.now)) }
{
    let line = row_line(alloc, row)?;
    out.extend(line.as_bytes())
}

fn kind_word(kind: Kind) -> &'static str
    ensures { result.now ≡ kind_text kind }
{
    match kind {
        Kind::Int => "int",
        Kind::Text => "string",
        Kind::Float => "float",
    }
}

fn put_digits(alloc: Global, out: &mut Octets, n: u64) -> Result<(), OutOfMemory>
    ensures { OnOk result (out.new ≡ out.old ++ decimal n) }
{
    let mut digits = String::new(alloc);
    put_number(&mut digits, n)?;
    out.extend(digits.as_bytes())
}

fn put_column(alloc: Global, out: &mut Octets, column: &Column) -> Result<(), OutOfMemory>
    ensures { OnOk result (out.new ≡ out.old ++ column_text column.now) }
{
    out.extend(column.name.bytes())?;
    out.extend(b":")?;
    out.extend(kind_word(column.kind).as_bytes())?;
    out.extend(b":")?;
    put_digits(alloc, out, column.size as u64)
}

fn put_comma(alloc: Global, out: &mut Octets, column: &Column) -> Result<(), OutOfMemory>
    ensures { OnOk result (out.new ≡ out.old ++ comma_column column.now) }
{
    out.extend(b",")?;
    put_column(alloc, out, column)
}

fn put_more(alloc: Global, out: &mut Octets, columns: &[Column]) -> Result<(), OutOfMemory>
    ensures { OnOk result (out.new ≡ out.old ++ flat_map comma_column columns.now) }
{
    for column in columns {
        put_comma(alloc, out, column)?;
    }
    Ok(())
}

/// Columns with commas between them, or a dash for none.
pub fn put_columns(alloc: Global, out: &mut Octets, columns: &[Column]) -> Result<(), OutOfMemory>
    ensures { OnOk result (out.new ≡ out.old ++ columns_text columns.now) }
{
    match columns {
        [] => out.extend(b"-"),
        [first, rest @ ..] => {
            put_column(alloc, out, first)?;
            put_more(alloc, out, rest)
        }
    }
}

/// The first line of a Table's text: a word, its size, its percent and its columns.
pub fn put_head(
    alloc: Global,
    out: &mut Octets,
    word: &str,
    size: u32,
    percent: u32,
    schema: &Schema,
) -> Result<(), OutOfMemory>
    ensures { OnOk result (out.new ≡ out.old ++ head_line word.now size percent schema.now) }
{
    out.extend(word.as_bytes())?;
    put_digits(alloc, out, size as u64)?;
    out.extend(b" ")?;
    put_digits(alloc, out, percent as u64)?;
    out.extend(b" ")?;
    put_columns(alloc, out, schema.columns())?;
    out.extend(b"\n")
}

/// ` NAME=VALUE`.
fn put_pair(alloc: Global, out: &mut Octets, pair: &(Name, Value)) -> Result<(), OutOfMemory>
    ensures { OnOk result (out.new ≡ out.old ++ pair_text pair.now) }
{
    let mut value = String::new(alloc);
    put_value(&mut value, &pair.1)?;
    out.extend(b" ")?;
    out.extend(pair.0.bytes())?;
    out.extend(b"=")?;
    out.extend(value.as_bytes())
}

fn put_pairs(alloc: Global, out: &mut Octets, pairs: &[(Name, Value)]) -> Result<(), OutOfMemory>
    ensures { OnOk result (out.new ≡ out.old ++ flat_map pair_text pairs.now) }
{
    for pair in pairs {
        put_pair(alloc, out, pair)?;
    }
    Ok(())
}

fn put_set(alloc: Global, out: &mut Octets, key: &[u8], pairs: &Pairs) -> Result<(), OutOfMemory>
    ensures { OnOk result (out.new ≡ out.old ++ set_text key.now pairs.now) }
{
    let mut digits = String::new(alloc);
    put_hex(&mut digits, key)?;
    out.extend(b"set ")?;
    out.extend(digits.as_bytes())?;
    put_pairs(alloc, out, pairs.as_slice())
}

fn put_call(alloc: Global, out: &mut Octets, call: &Call) -> Result<(), OutOfMemory>
    ensures { OnOk result (out.new ≡ out.old ++ call_text call.now) }
{
    match call {
        Call::Set(key, pairs) => put_set(alloc, out, key.bytes(), pairs),
        _ => Ok(()),
    }
}

fn reply_word(reply: Reply) -> &'static str
    ensures { result.now ≡ reply_text reply }
{
    match reply {
        Reply::Full => "full",
        _ => "stored",
    }
}

fn put_set_words(
    alloc: Global,
    out: &mut Octets,
    at: u64,
    call: &Call,
    reply: Reply,
) -> Result<(), OutOfMemory>
    ensures { OnOk result (out.new ≡ out.old ++ set_words at call.now reply) }
{
    put_digits(alloc, out, at)?;
    out.extend(b" 0 ")?;
    put_call(alloc, out, call)?;
    out.extend(b" > ")?;
    out.extend(reply_word(reply).as_bytes())
}

/// The line of a Set by caller 0, at its place and with its reply.
pub fn put_set_line(
    alloc: Global,
    out: &mut Octets,
    at: u64,
    call: &Call,
    reply: Reply,
) -> Result<(), OutOfMemory>
    ensures { OnOk result (out.new ≡ out.old ++ set_line_of at call.now reply) }
{
    put_set_words(alloc, out, at, call, reply)?;
    out.extend(b"\n")
}

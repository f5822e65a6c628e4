//! The columns that a text names, and the schema that they make.

ghost use Rattle.std.specs.Prelude.{◌≡◌, IfOk, is_some};
ghost use Rattle.sw_settings.specs.Columns.{columns_in, columns_named, are_columns};
ghost use Rattle.sw_call.specs.Columns.{schema_of};

use std::alloc::Global;
use sw_base::OutOfMemory;
use sw_call::{Columns, Refused, columns};
use sw_column::Schema;

/// The columns that the text names; none where it is empty.
fn columns_in(alloc: Global, text: &[u8]) -> Result<Option<Columns>, OutOfMemory>
    ensures { IfOk result (λ cs. cs ≡ columns_in text.now) }
{
    match text {
        [] => Ok(Some(Columns::new(alloc))),
        _ => columns(alloc, text),
    }
}

/// Whether the text is empty or a list of columns.
pub fn are_columns(alloc: Global, text: &[u8]) -> Result<bool, OutOfMemory>
    ensures { IfOk result (λ b. b ≡ are_columns text.now) }
{
    let columns = columns_in(alloc, text)?;
    Ok(columns.is_some())
}

/// The columns that the text names; none where it names none.
fn columns_named(alloc: Global, text: &[u8]) -> Result<Columns, OutOfMemory>
    ensures { IfOk result (λ cs. cs ≡ columns_named text.now) }
{
    match columns_in(alloc, text)? {
        None => Ok(Columns::new(alloc)),
        Some(columns) => Ok(columns),
    }
}

/// The schema of the columns that the text names, or the first of them that a schema refuses.
pub fn schema(alloc: Global, text: &[u8]) -> Result<Result<Schema, Refused>, OutOfMemory>
    ensures { IfOk result (λ s. s ≡ schema_of (columns_named text.now)) }
{
    let columns = columns_named(alloc, text)?;
    sw_call::schema(alloc, &columns)
}

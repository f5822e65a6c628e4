//! The text that the lines make.

ghost use Rattle.std.specs.Prelude.{◌≡◌, ◌++◌, IfOk, OnOk, string_bytes};
ghost use Rattle.std.specs.List.{flat_map};
ghost use Rattle.sw_settings_print.specs.Print.{truth_text, text_text, shown_text, line_text, seen_text, settings_text};

use crate::lines::{Shown, lines};
use std::alloc::Global;
use sw_base::OutOfMemory;
use sw_settings::Settings;
use sw_text::{put_hex, put_number};

fn put_truth(out: &mut String, is: bool) -> Result<(), OutOfMemory>
    ensures { OnOk result (string_bytes out.new ≡ string_bytes out.old ++ truth_text is) }
{
    if is {
        out.push_str("true")?;
    } else {
        out.push_str("false")?;
    }
    Ok(())
}

fn put_text(out: &mut String, text: &[u8]) -> Result<(), OutOfMemory>
    ensures { OnOk result (string_bytes out.new ≡ string_bytes out.old ++ text_text text.now) }
{
    match text {
        [] => out.push_str("-")?,
        _ => {
            out.push_str("x")?;
            put_hex(out, text)?;
        }
    }
    Ok(())
}

fn put_shown(out: &mut String, shown: Shown<'_>) -> Result<(), OutOfMemory>
    ensures { OnOk result (string_bytes out.new ≡ string_bytes out.old ++ shown_text shown.entry) }
{
    match shown {
        Shown::Number(n) => Ok(put_number(out, n)?),
        Shown::Truth(is) => put_truth(out, is),
        Shown::Text(text) => put_text(out, text),
    }
}

fn put_line(out: &mut String, name: &str, shown: Shown<'_>) -> Result<(), OutOfMemory>
    ensures { OnOk result (string_bytes out.new ≡ string_bytes out.old ++ line_text (name.now, shown_text shown.entry)) }
{
    out.push_str(name)?;
    out.push_str(" ")?;
    put_shown(out, shown)?;
    out.push_str("\n")?;
    Ok(())
}

fn put_lines(out: &mut String, lines: &[(&str, Shown<'_>)]) -> Result<(), OutOfMemory>
    ensures { OnOk result (string_bytes out.new ≡ string_bytes out.old ++ flat_map seen_text lines.now) }
{
    for line in lines {
        put_line(out, line.0, line.1)?;
    }
    Ok(())
}

/// The text of settings: for each key a line with the key, a space and what it is set to.
pub fn print(alloc: Global, settings: &Settings) -> Result<String, OutOfMemory>
    ensures { IfOk result (λ text. string_bytes text ≡ settings_text settings.now) }
{
    let mut out = String::new(alloc);
    let made = lines(settings);
    put_lines(&mut out, &made)?;
    Ok(out)
}

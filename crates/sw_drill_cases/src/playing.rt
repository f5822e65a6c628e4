//! The cases one by one.

use std::alloc::Global;
use sw_base::OutOfMemory;
use sw_case_texts::{Case, cases};
use sw_play::drilled;
use sw_text::number_within;

fn add(text: &mut String, line: &str) -> Result<(), OutOfMemory> {
    text.push_str(line)?;
    text.push_str("\n")?;
    Ok(())
}

/// `N LINE` is N such lines, at most 1,000,000.
fn add_many(text: &mut String, words: &str) -> Result<(), OutOfMemory> {
    let (count, line) = words.split_once(" ").unwrap_or(("0", ""));
    let count = number_within(count.as_bytes(), 0, 1_000_000).unwrap_or(0);
    for _ in 0..count {
        add(text, line)?;
    }
    Ok(())
}

/// The schedule that the case's lines are.
fn text_of(alloc: Global, case: &Case) -> Result<String, OutOfMemory> {
    let mut text = String::new(alloc);
    for line in &case.lines {
        if let Some(line) = line.strip_prefix("> ") {
            add(&mut text, line)?;
        } else if let Some(words) = line.strip_prefix("* ") {
            add_many(&mut text, words)?;
        }
    }
    Ok(text)
}

/// Appends what is written for a schedule: the record that it leads to, or why it is refused.
fn put_answer(alloc: Global, out: &mut String, text: &str) -> Result<(), OutOfMemory> {
    match drilled(alloc, text.as_bytes())? {
        Ok(record) => out.push_str(&record)?,
        Err(refusal) => {
            let line = refusal.text(alloc)?;
            out.push_str(std::str::from_utf8(line.bytes()).unwrap_or("?\n"))?;
        }
    }
    Ok(())
}

fn put_case(alloc: Global, out: &mut String, case: &Case) -> Result<(), OutOfMemory> {
    writeln!(out, "\ncase {}", case.name)?;
    let text = text_of(alloc, case)?;
    put_answer(alloc, out, &text)
}

/// What all cases of the text came to.
pub fn played(alloc: Global, text: &str) -> Result<String, OutOfMemory> {
    let mut out = String::new(alloc);
    let cases = cases(alloc, text)?;
    for case in &cases {
        if !case.name.is_empty() {
            put_case(alloc, &mut out, case)?;
        }
    }
    Ok(out)
}

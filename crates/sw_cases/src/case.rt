//! A case as it is written: its name, what it is a case of, its options and its lines.

use crate::escapes::unescaped;
use std::alloc::{AllocError, Global};
use sw_text::number;

/// A case, lent from the text of all cases.
#[derive(Drop)]
pub struct Case<'a> {
    /// The name that stands behind `case`.
    pub name: &'a str,
    /// The kind and its words. Empty until it is read.
    pub kind: &'a str,
    /// The lines between the kind and the lines of the input.
    pub options: Vec<&'a str>,
    /// The lines of the input, each with its mark `>` or `+`.
    pub lines: Vec<&'a str>,
    /// The lines whose texts stand in turn where the input has `\?`, each with its word `with`.
    pub fillers: Vec<&'a str>,
}

impl<'a> Case<'a> {
    /// A case of this name in which nothing else stands yet.
    pub fn new(alloc: Global, name: &'a str) -> Case<'a> {
        Case {
            name,
            kind: "",
            options: Vec::new(alloc),
            lines: Vec::new(alloc),
            fillers: Vec::new(alloc),
        }
    }

    /// Takes a line of the case that isn't its first.
    pub fn add(&mut self, line: &'a str) -> Result<(), AllocError> {
        if line.starts_with(">") || line.starts_with("+") {
            self.lines.push(line)?;
        } else if line == "with" || line.starts_with("with ") {
            self.fillers.push(line)?;
        } else if self.kind.is_empty() {
            self.kind = line;
        } else {
            self.options.push(line)?;
        }
        Ok(())
    }

    /// What stands behind this word in an option, or nothing where there is none.
    pub fn option(&self, word: &str) -> &'a str {
        for option in &self.options {
            if let Some((name, rest)) = option.split_once(" ") {
                if name == word {
                    return rest;
                }
            }
        }
        ""
    }

    /// The numbers behind this word in an option.
    pub fn numbers(&self, alloc: Global, word: &str) -> Result<Vec<u64>, AllocError> {
        let mut numbers = Vec::new(alloc);
        for digits in self.option(word).split(" ") {
            if let Some(n) = number(digits.as_bytes()) {
                numbers.push(n)?;
            }
        }
        Ok(numbers)
    }

    /// The input: each line with a line feed behind it, unless the line ends in `\`.
    pub fn input(&self, alloc: Global, filler: &[u8]) -> Result<Vec<u8>, AllocError> {
        let mut bytes = Vec::new(alloc);
        for line in &self.lines {
            if unescaped(alloc, text_of(line), filler, &mut bytes)? {
                bytes.push(b'\n')?;
            }
        }
        Ok(bytes)
    }
}

/// The bytes of one line of the input, without a line feed.
pub fn bytes_of(alloc: Global, line: &str, filler: &[u8]) -> Result<Vec<u8>, AllocError> {
    let mut bytes = Vec::new(alloc);
    unescaped(alloc, text_of(line), filler, &mut bytes)?;
    Ok(bytes)
}

/// A line without its mark or word, and without the space behind that.
pub fn text_of<'a>(line: &'a str) -> &'a str {
    match line.split_once(" ") {
        Some((_, text)) => text,
        None => "",
    }
}

//! Cases as they are written: each has its name, what it is a case of, and its lines.

use std::alloc::Global;
use std::mem::replace;
use sw_base::OutOfMemory;

/// A case, lent from the text of all cases.
#[derive(Drop)]
pub struct Case<'a> {
    /// The name that stands behind `case`.
    pub name: &'a str,
    /// The kind and its words. Empty until it is read.
    pub kind: &'a str,
    /// The lines behind the kind.
    pub lines: Vec<&'a str>,
}

impl<'a> Case<'a> {
    /// A case of this name in which nothing else stands yet.
    fn new(alloc: Global, name: &'a str) -> Case<'a> {
        Case {
            name,
            kind: "",
            lines: Vec::new(alloc),
        }
    }

    /// Takes a line of the case that isn't its first.
    fn add(&mut self, line: &'a str) -> Result<(), OutOfMemory> {
        if self.kind.is_empty() {
            self.kind = line;
        } else {
            self.lines.push(line)?;
        }
        Ok(())
    }
}

/// The cases that a text lists, in order. An empty line says nothing, nor does one that begins with `#`; what stands
/// before the first case makes one without a name.
pub fn cases<'a>(alloc: Global, text: &'a str) -> Result<Vec<Case<'a>>, OutOfMemory> {
    let mut found = Vec::new(alloc);
    let mut case = Case::new(alloc, "");
    for line in text.lines() {
        if let Some(name) = line.strip_prefix("case ") {
            found.push(replace(&mut case, Case::new(alloc, name)))?;
        } else if !line.is_empty() && !line.starts_with("#") {
            case.add(line)?;
        }
    }
    found.push(case)?;
    Ok(found)
}

//! The escapes of a case's text: `\n`, `\r`, `\\`, `\x0a` for any byte, `\?` for what stands behind `with`, `\40(text)` for
//! a text forty times, and `\` at the end of a line, which has no line feed behind it then.

use std::alloc::{AllocError, Global};

/// Where in an escape the text is.
#[derive(Clone, Copy)]
enum Place {
    /// In none.
    Text,
    /// Behind a backslash.
    Escape,
    /// Behind the digits of a number of times.
    Times(u32),
    /// Behind `\x`.
    High,
    /// Behind the first digit of a byte.
    Low(u8),
}

/// A text that is read byte by byte.
#[derive(Drop)]
struct Reader<'a> {
    place: Place,
    /// How often the text in parentheses comes, where one is open.
    times: Option<u32>,
    /// The text in parentheses so far.
    part: Vec<u8>,
    filler: &'a [u8],
}

fn digit(byte: u8) -> u8 {
    match byte {
        b'0'..=b'9' => byte - b'0',
        b'a'..=b'f' => byte - b'a' + 10,
        _ => 0,
    }
}

impl<'a> Reader<'a> {
    fn put(&mut self, out: &mut Vec<u8>, byte: u8) -> Result<(), AllocError> {
        self.place = Place::Text;
        match self.times {
            None => out.push(byte)?,
            Some(_) => self.part.push(byte)?,
        }
        Ok(())
    }

    fn close(&mut self, out: &mut Vec<u8>) -> Result<(), AllocError> {
        for _ in 0..self.times.unwrap_or(0) {
            out.extend_from_slice(&self.part)?;
        }
        self.times = None;
        self.part.clear();
        Ok(())
    }

    fn escape(&mut self, out: &mut Vec<u8>, byte: u8) -> Result<(), AllocError> {
        match byte {
            b'n' => self.put(out, b'\n'),
            b'r' => self.put(out, b'\r'),
            b'?' => {
                self.place = Place::Text;
                out.extend_from_slice(self.filler)
            }
            b'x' => {
                self.place = Place::High;
                Ok(())
            }
            b'0'..=b'9' => {
                self.place = Place::Times(u32::from(digit(byte)));
                Ok(())
            }
            _ => self.put(out, byte),
        }
    }

    fn times(&mut self, n: u32, byte: u8) {
        if byte == b'(' {
            self.place = Place::Text;
            self.times = Some(n);
        } else {
            let next = n.saturating_mul(10).saturating_add(u32::from(digit(byte)));
            self.place = Place::Times(next);
        }
    }

    fn read(&mut self, out: &mut Vec<u8>, byte: u8) -> Result<(), AllocError> {
        match self.place {
            Place::Text if byte == b'\\' => {
                self.place = Place::Escape;
                Ok(())
            }
            Place::Text if byte == b')' && self.times.is_some() => self.close(out),
            Place::Text => self.put(out, byte),
            Place::Escape => self.escape(out, byte),
            Place::Times(n) => {
                self.times(n, byte);
                Ok(())
            }
            Place::High => {
                self.place = Place::Low(digit(byte));
                Ok(())
            }
            Place::Low(high) => self.put(out, high.wrapping_mul(16) | digit(byte)),
        }
    }
}

/// Appends the bytes that a text stands for, and answers whether a line feed follows them: whether the text doesn't end in a
/// backslash.
pub fn unescaped(
    alloc: Global,
    text: &str,
    filler: &[u8],
    out: &mut Vec<u8>,
) -> Result<bool, AllocError> {
    let mut reader = Reader {
        place: Place::Text,
        times: None,
        part: Vec::new(alloc),
        filler,
    };
    for byte in text.as_bytes() {
        reader.read(out, *byte)?;
    }
    Ok(!matches!(reader.place, Place::Escape))
}

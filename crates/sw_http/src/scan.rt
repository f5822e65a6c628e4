//! The search for the empty line that may end a head. Each byte is looked at once.

ghost use Rattle.std.specs.Prelude.{◌≡◌, ◌<◌, ◌≤◌, IsTrue, length, take};
ghost use Rattle.sw_http.specs.Lines.{IsScanned, unscanned, IsStopped};

use crate::ending::Ending;

/// How far the bytes were looked at.
#[derive(Clone, Copy, Debug)]
pub struct Scan {
    /// How many of them.
    pub at: usize,
    /// How those end.
    pub ending: Ending,
}

impl Scan {
    /// Nothing was looked at yet.
    pub fn new() -> Scan
        ensures { result ≡ unscanned }
    {
        Scan {
            at: 0,
            ending: Ending::Blank,
        }
    }

    /// Looks on to behind the next empty line, and answers whether there is one; else all bytes were looked at. The bytes are
    /// those of the last call, with others added at the end.
    pub fn next_end(&mut self, bytes: &[u8]) -> bool
        requires { IsScanned bytes.now self.old }
        ensures scanned { IsScanned bytes.now self.new }
        ensures stopped { IsStopped bytes.now self.old.at self.new.at result }
    {
        while self.at < bytes.len() {
            self.ending = self.ending.behind(bytes[self.at]);
            self.at += 1;
            if self.ending.is_end() {
                return true;
            }
        }
        false
    }
}

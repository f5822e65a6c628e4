//! Plays the drills that standard input lists, and prints for each what came out. Stands above what answers a drill. The head of
//! the stored standard input says how a case is written.
#![tactic(auto)]

mod playing;

use std::io;
use sw_causes::{ReaderSource, read_whole};

fn main(rt: HostRuntime) -> io::Result<()> {
    let mut source = ReaderSource::new(rt.reader());
    let Ok(input) = read_whole(rt.alloc(), &mut source) else {
        return println!(rt; "the cases can't be read");
    };
    let Ok(text) = std::str::from_utf8(&input) else {
        return println!(rt; "the cases aren't text");
    };
    match playing::played(rt.alloc(), text) {
        Ok(out) => rt.print(out.as_str()),
        Err(_) => println!(rt; "no memory"),
    }
}

//! Plays the cases of worker and task worker that standard input lists, and prints for each what came out: single turns
//! over ports whose answers the case gives. The head of the stored standard input says how a case is written.
#![tactic(auto)]

mod hand;
mod kinds;
mod playing;
mod printing;
mod settings;
mod shelf;
mod starving;

use std::io;
use sw_causes::{ReaderSource, read_whole};

fn main(rt: HostRuntime) -> io::Result<()> {
    let mut source = ReaderSource::new(rt.reader());
    let Ok(input) = read_whole(rt.alloc(), &mut source) else {
        return println!(rt; "the cases can't be read");
    };
    let Ok(text) = std::str::from_utf8(&input) else {
        return println!(rt; "the cases aren't text");
    };
    match kinds::played(rt.alloc(), text) {
        Ok(out) => rt.print(out.as_str()),
        Err(_) => println!(rt; "no memory"),
    }
}

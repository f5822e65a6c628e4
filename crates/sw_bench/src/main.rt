//! Measures one part of the server: the part that its word names. Stands above all parts, and nothing stands on it.
#![tactic(auto)]

mod audit;
mod bare;
mod board;
mod cut;
mod figures;
mod one_by_one;
mod pipe;
mod rowlock;
mod rowlock_loads;
mod rowlock_swaps;
mod sessions;
mod table;
mod table_calls;
mod table_maps;
mod table_plain;
mod table_shared;
mod timers;
mod turn;
mod turn_link;
mod turn_scene;

use std::{env, io};

/// What is printed where no part is named, behind a small load that is the same at each run.
const USAGE: &str = "usage: sw_bench pipe|rowlock|board|sessions|table|audit|cut|timers|turn";

fn main(rt: HostRuntime) -> io::Result<()> {
    let mut words = env::args(&rt)?;
    let _program = words.next();
    let Some(word) = words.next() else {
        cut::fixed_load(&rt, rt.alloc())?;
        return println!(rt; "{USAGE}");
    };
    match word.as_str() {
        "pipe" => pipe::figures(rt),
        "rowlock" => rowlock::figures(&rt, rt.alloc()),
        "board" => board::figures(&rt, rt.alloc()),
        "sessions" => sessions::figures(&rt, rt.alloc()),
        "table" => table::figures(&rt, rt.alloc()),
        "audit" => audit::figures(&rt, rt.alloc()),
        "cut" => cut::figures(&rt, rt.alloc()),
        "timers" => timers::figures(&rt, rt.alloc()),
        "turn" => turn::figures(&rt, rt.alloc()),
        _ => println!(rt; "{USAGE}"),
    }
}

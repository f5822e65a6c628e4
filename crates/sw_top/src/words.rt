//! The command that the words of the command line name.

ghost use Rattle.std.specs.Prelude.{◌≡◌};
ghost use Rattle.sw_top.specs.Words.{named, command_of};

use crate::word::Word;
use sw_text::is;

/// What words may ask for.
#[derive(Clone, Copy)]
pub enum Command {
    /// A schedule is played, and its record printed.
    Drill,
    /// A trace of the Table's calls is judged.
    Audit,
    /// Settings in JSON are printed, each key with its value.
    Settings,
    /// Lines on timers are played, and what they answer is printed.
    Timers,
    /// The Table that a trace leaves is printed.
    Dump,
    /// A dump is put into another Table, and the trace of that is printed.
    Restore,
}

fn named(word: &[u8]) -> Option<Command>
    ensures { result ≡ named word.now }
{
    if is(word, "drill") {
        Some(Command::Drill)
    } else if is(word, "audit") {
        Some(Command::Audit)
    } else if is(word, "settings") {
        Some(Command::Settings)
    } else if is(word, "timers") {
        Some(Command::Timers)
    } else if is(word, "dump") {
        Some(Command::Dump)
    } else if is(word, "restore") {
        Some(Command::Restore)
    } else {
        None
    }
}

/// The command that the words name: they are its name alone.
pub fn command_of(words: &[Word]) -> Option<Command>
    ensures { result ≡ command_of words.now }
{
    match words {
        [word] => named(word.bytes()),
        _ => None,
    }
}

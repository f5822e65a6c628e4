//! The command that the words name: the source is read whole, what it says is done, and one text is written.

ghost use Rattle.std.specs.Prelude.{◌≡◌, Some, None};
ghost use Rattle.sw_top.specs.Words.{command_of};
ghost use Rattle.sw_top.specs.Says.{IsOutcome, Comes, Finishes, DoesBy, Said, IsComplete};
ghost use Rattle.sw_top.specs.Rightly.{PrintsRight};

use crate::answering::answer;
use crate::word::Word;
use crate::words::{Command, command_of};
use std::alloc::Global;
use sw_answer::{Refusal, Status};
use sw_base::Octets;
use sw_causes::{InputFault, Sink, Source, read_whole, write_whole};

/// What comes of reading the source and doing what it says.
#[derive(Drop)]
pub enum Outcome {
    /// This is to be written.
    Done(Octets),
    /// The input is refused.
    Refused(Refusal),
    /// Too many bytes came.
    Long,
    /// A read failed.
    Fault,
    /// Memory ran out.
    Memory,
}

/// What comes of an input that was read whole.
fn comes_of(alloc: Global, command: Command, input: &[u8]) -> Outcome
    ensures { IsOutcome command input.now result }
{
    match answer(alloc, command, input) {
        Err(_) => Outcome::Memory,
        Ok(r) => match r {
            Err(refusal) => Outcome::Refused(refusal),
            Ok(text) => Outcome::Done(text),
        },
    }
}

fn read_and_run<S: Source>(alloc: Global, command: Command, source: &mut S) -> Outcome
    ensures { Comes command (record { left = S.left source.old; left_new = S.left source.new; faults = S.faults source.old; faults_new = S.faults source.new; ended = S.ended source.new }) result }
{
    match read_whole(alloc, source) {
        Ok(bytes) => comes_of(alloc, command, &bytes),
        Err(fault) => match fault {
            InputFault::Long => Outcome::Long,
            InputFault::Failed => Outcome::Fault,
            InputFault::OutOfMemory => Outcome::Memory,
        },
    }
}

/// Writes a text, and answers the status unless the sink fails.
fn finish<K: Sink>(sink: &mut K, status: Status, text: &[u8]) -> Status
    ensures { Finishes (record { taken = K.taken sink.old; taken_new = K.taken sink.new; faults = K.faults sink.old; faults_new = K.faults sink.new }) status text.now result }
{
    match write_whole(sink, text) {
        Ok(_) => status,
        Err(_) => match status {
            Status::OutOfMemory => Status::OutOfMemory,
            _ => Status::WriteFault,
        },
    }
}

/// Does what the command is for.
fn run<S: Source, K: Sink>(alloc: Global, command: Command, source: &mut S, sink: &mut K) -> Status
    ensures { DoesBy (Some command)
        (record { left = S.left source.old; left_new = S.left source.new; faults = S.faults source.old; faults_new = S.faults source.new; ended = S.ended source.new })
        (record { taken = K.taken sink.old; taken_new = K.taken sink.new; faults = K.faults sink.old; faults_new = K.faults sink.new }) result }
{
    match read_and_run(alloc, command, source) {
        Outcome::Done(text) => finish(sink, Status::Ok, text.bytes()),
        Outcome::Refused(refusal) => match refusal.text(alloc) {
            Ok(text) => finish(sink, refusal.status(), text.bytes()),
            Err(_) => finish(sink, Status::OutOfMemory, b"fault memory\n"),
        },
        Outcome::Long => finish(sink, Status::InputLong, b"fault long\n"),
        Outcome::Fault => finish(sink, Status::ReadFault, b"fault read\n"),
        Outcome::Memory => finish(sink, Status::OutOfMemory, b"fault memory\n"),
    }
}

fn work<S: Source, K: Sink>(alloc: Global, words: &[Word], source: &mut S, sink: &mut K) -> Status
    ensures unread { command_of words.now ≡ None → source.new ≡ source.old }
    ensures does { DoesBy (command_of words.now)
        (record { left = S.left source.old; left_new = S.left source.new; faults = S.faults source.old; faults_new = S.faults source.new; ended = S.ended source.new })
        (record { taken = K.taken sink.old; taken_new = K.taken sink.new; faults = K.faults sink.old; faults_new = K.faults sink.new }) result }
{
    match command_of(words) {
        None => finish(sink, Status::Usage, b"fault usage\n"),
        Some(command) => run(alloc, command, source, sink),
    }
}

/// Does what the words name with what the source gives, writes one text to the sink, and answers how it ended. The commands
/// are `drill`, which plays the schedule that it reads and prints the record, `audit`, which judges the trace that it reads and
/// prints its verdict, `settings`, which prints each key with its value, `timers`, which plays lines on timers and prints
/// what they answer, `dump`, which prints the Table that a trace leaves, and `restore`, which prints the trace that puts a dump into
/// another Table. It waits for nobody and returns.
///
/// Usage comes first; then ReadFault or InputLong, while reading; then BadLine; then Settings; then the run, and No or Unfit.
/// WriteFault comes only where the sink failed, and replaces any other status but OutOfMemory. The text is made whole before it is
/// written.
pub fn tool<S: Source, K: Sink>(
    alloc: Global,
    words: &[Word],
    source: &mut S,
    sink: &mut K,
) -> Status
    // Where the words name no command nothing is read.
    ensures unread { command_of words.now ≡ None → source.new ≡ source.old }

    // The status has its cause, and what it says was written.
    ensures says { Said words.now (record { left = S.left source.old; left_new = S.left source.new; faults = S.faults source.old; faults_new = S.faults source.new; ended = S.ended source.new }) (record { taken = K.taken sink.old; taken_new = K.taken sink.new; faults = K.faults sink.old; faults_new = K.faults sink.new }) result }

    // At Ok the record that a drill printed is right, and drained once all actors are finished.
    ensures right { PrintsRight words.now (record { left = S.left source.old; left_new = S.left source.new; faults = S.faults source.old; faults_new = S.faults source.new; ended = S.ended source.new }) (record { taken = K.taken sink.old; taken_new = K.taken sink.new; faults = K.faults sink.old; faults_new = K.faults sink.new }) result }

    // Without a fault the input alone decides.
    ensures complete { IsComplete words.now (record { left = S.left source.old; left_new = S.left source.new; faults = S.faults source.old; faults_new = S.faults source.new; ended = S.ended source.new }) (record { taken = K.taken sink.old; taken_new = K.taken sink.new; faults = K.faults sink.old; faults_new = K.faults sink.new }) result }
{
    work(alloc, words, source, sink)
}

//! What is printed for each answer of timers.
ghost use Rattle.std.specs.Prelude.{◌≡◌, ◌++◌, codes, OnOk, string_bytes};
ghost use Rattle.std.specs.Fmt.{decimal};
ghost use Rattle.sw_timers.specs.declared.fault.TimerFault.TheVariants.{OutOfMemory};
ghost use Rattle.sw_timers_text.specs.Prints.{id_text, fault_text, cleared_text, fire_text};

use std::alloc::AllocError;
use sw_text::put_number;
use sw_timers::TimerFault;

/// A word and a number behind it.
fn put_word(out: &mut String, word: &str, number: u64) -> Result<(), AllocError>
    ensures { OnOk result (string_bytes out.new ≡ string_bytes out.old ++ (word.now ++ decimal number)) }
{
    out.push_str(word)?;
    put_number(out, number)
}

/// The line of an entry that was added.
pub fn put_id(out: &mut String, id: u64) -> Result<(), AllocError>
    ensures { OnOk result (string_bytes out.new ≡ string_bytes out.old ++ id_text id) }
{
    put_word(out, "timer ", id)?;
    out.push_str("\n")
}

/// The word of a refusal; want of memory is never shown.
fn fault_word(fault: TimerFault) -> &'static str
    ensures { result.now ≡ fault_text fault }
{
    match fault {
        TimerFault::Zero => "zero\n",
        TimerFault::Late => "late\n",
        TimerFault::Full => "full\n",
        TimerFault::Spent => "spent\n",
        TimerFault::OutOfMemory => "memory\n",
    }
}

/// The line of an entry that was refused.
pub fn put_fault(out: &mut String, fault: TimerFault) -> Result<(), AllocError>
    ensures { OnOk result (string_bytes out.new ≡ string_bytes out.old ++ fault_text fault) }
{
    out.push_str(fault_word(fault))
}

/// The line that says whether an entry was there.
pub fn put_cleared(out: &mut String, there: bool) -> Result<(), AllocError>
    ensures { OnOk result (string_bytes out.new ≡ string_bytes out.old ++ cleared_text there) }
{
    if there {
        out.push_str("yes\n")
    } else {
        out.push_str("no\n")
    }
}

/// The line of an entry that fell due.
pub fn put_fire(out: &mut String, id: u64, moment: u64) -> Result<(), AllocError>
    ensures { OnOk result (string_bytes out.new ≡ string_bytes out.old ++ fire_text (id, moment)) }
{
    put_word(out, "fire ", id)?;
    put_word(out, " ", moment)?;
    out.push_str("\n")
}

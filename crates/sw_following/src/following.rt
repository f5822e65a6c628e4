//! The handler.

ghost use Rattle.std.specs.Prelude.{◌≡◌, IfOk};
ghost use Rattle.sw_following.specs.Following.{is_empty, is_without_rules, IsFresh};

use std::alloc::Global;
use sw_base::OutOfMemory;
use sw_data::{Act, Given};
use sw_handler::{Echo, Handler};
use sw_script::{On, Script};
use sw_scripted::Scripted;

/// An echo, or a handler that follows rules.
#[derive(Drop, Debug)]
pub enum Following {
    /// It sends back what it is given.
    Echo(Echo),
    /// It does what the rules say.
    Rules(Scripted),
}

/// Whether there is no rule for events of this kind.
fn is_empty(script: &Script, on: On) -> bool
    ensures { result ≡ is_empty on script.now }
{
    script.rules(on).len() == 0
}

/// Whether there is no rule.
fn is_without_rules(script: &Script) -> bool
    ensures { result ≡ is_without_rules script.now }
{
    is_empty(script, On::Connect)
        && is_empty(script, On::Packet)
        && is_empty(script, On::Closed)
        && is_empty(script, On::Finish)
        && is_empty(script, On::Task)
}

impl Following {
    /// The handler of a script before it is given anything: an echo exactly where the script has no rule, and else one that follows
    /// the rules.
    pub fn of(script: &Script) -> Result<Following, OutOfMemory>
        ensures { IfOk result (IsFresh script.now) }
    {
        if is_without_rules(script) {
            Ok(Following::Echo(Echo))
        } else {
            Ok(Following::Rules(Scripted::new(script.copy()?)))
        }
    }
}

impl Handler for Following {
    ghost use Rattle.std.specs.Prelude.{Option};
    ghost use Rattle.sw_script.specs.declared.script.Script.{Script};
    ghost use Rattle.sw_following.specs.Following.{rules_of, following_acts};

    ghost Made = { Option Script };

    ghost made = { rules_of };

    ghost acts = { following_acts };

    fn next(&mut self, alloc: Global, given: &Given) -> Result<Act, OutOfMemory> {
        match self {
            Following::Echo(echo) => echo.next(alloc, given),
            Following::Rules(rules) => rules.next(alloc, given),
        }
    }
}

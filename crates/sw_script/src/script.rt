//! A script: the rules by the kind of event, so that the rule for an event is looked for among its own kind alone.

ghost use Rattle.std.specs.Prelude.{◌≡◌, ◌<◌, Some, None, IfOk, OnOk, OnErr, if◌then◌else◌};
ghost use Rattle.sw_script.specs.Script.{no_rules, rules_on, with_rule, line_read};

use crate::rule::{On, Rule, Rules, rule_in};
use std::alloc::Global;
use sw_base::OutOfMemory;

/// The most rules of a script.
const MOST_RULES: u32 = 256;

/// Rules, each kind's in the order of their lines.
#[derive(Drop, Debug)]
pub struct Script {
    /// How many rules there are.
    count: u32,
    connect: Rules,
    packet: Rules,
    closed: Rules,
    finish: Rules,
    task: Rules,
}

impl Script {
    /// Makes a script without rules. It takes no memory.
    pub fn new(alloc: Global) -> Script
        ensures { result ≡ no_rules }
    {
        Script {
            count: 0,
            connect: Rules::new(alloc),
            packet: Rules::new(alloc),
            closed: Rules::new(alloc),
            finish: Rules::new(alloc),
            task: Rules::new(alloc),
        }
    }

    /// Lends the rules for events of a kind, in the order of their lines.
    pub fn rules(&self, on: On) -> &Rules
        ensures { result.now ≡ rules_on on self.now }
    {
        match on {
            On::Connect => &self.connect,
            On::Packet => &self.packet,
            On::Closed => &self.closed,
            On::Finish => &self.finish,
            On::Task => &self.task,
        }
    }

    /// Adds a rule behind those of its kind. At `OutOfMemory` the script is as before.
    fn add(&mut self, on: On, rule: Rule) -> Result<(), OutOfMemory>
        requires { self.old.count < 256 }
        ensures ok { OnOk result (self.new ≡ with_rule on rule self.old) }
        ensures err { OnErr result (self.new ≡ self.old) }
    {
        match on {
            On::Connect => self.connect.push(rule)?,
            On::Packet => self.packet.push(rule)?,
            On::Closed => self.closed.push(rule)?,
            On::Finish => self.finish.push(rule)?,
            On::Task => self.task.push(rule)?,
        }
        self.count += 1;
        Ok(())
    }

    /// Takes one line more, and answers whether it is a rule and one of the first 256. Where it isn't, and at `OutOfMemory`,
    /// the script is as before.
    #[tactic(auto, unfolding(crate::specs::Script::line_read))]
    pub fn take_line(&mut self, alloc: Global, line: &[u8]) -> Result<bool, OutOfMemory>
        ensures ok { IfOk result (λ is. line_read self.old line.now ≡ (if is then Some self.new else None)) }
        ensures err { OnErr result (self.new ≡ self.old) }
    {
        if self.count >= MOST_RULES {
            return Ok(false);
        }
        match rule_in(alloc, line)? {
            None => Ok(false),
            Some((on, rule)) => {
                self.add(on, rule)?;
                Ok(true)
            }
        }
    }

    /// Makes an equal script.
    pub fn copy(&self) -> Result<Script, OutOfMemory>
        ensures { IfOk result (λ copy. copy ≡ self.now) }
    {
        Ok(Script {
            count: self.count,
            connect: self.connect.copy()?,
            packet: self.packet.copy()?,
            closed: self.closed.copy()?,
            finish: self.finish.copy()?,
            task: self.task.copy()?,
        })
    }
}

//! The pairs that lines of settings give.

ghost use Rattle.std.specs.Prelude.{◌≡◌, [], ◌∷◌, ◌++◌, Some, None, IfOk, OnErr, false, if◌then◌else◌};
ghost use Rattle.sw_set_lines.specs.Pairs.{has_name, with_pair, AreNames};

use std::alloc::Global;
use std::collections::BTreeSet;
use std::marker::Model;
use sw_base::{Octets, OutOfMemory};
use sw_settings::{Pair, SetValue};

/// Pairs whose names differ, in the order in which they were added.
#[derive(Drop)]
pub struct Pairs {
    items: Vec<Pair>,
    // So that many lines don't take the time of all pairs of lines.
    names: BTreeSet<Vec<u8>>,
}

impl Model for Pairs {
    ghost use Rattle.std.specs.Prelude.{List};
    ghost use Rattle.sw_settings.specs.declared.pair.Pair.{Pair};
    ghost use Rattle.sw_set_lines.specs.Pairs.{AreNames};

    ghost Value = { List Pair };

    ghost view = { λ p. p.items.items };

    ghost invariant = { λ p. AreNames p.names.keys p.items.items };
}

impl Pairs {
    /// No pair. It takes no memory.
    pub fn new(alloc: Global) -> Pairs
        ensures { result ≡ [] }
    {
        Pairs {
            items: Vec::new(alloc),
            names: BTreeSet::new(alloc),
        }
    }

    /// The pairs, given away.
    pub fn into_vec(self) -> Vec<Pair>
        ensures { result.items ≡ self }
    {
        self.items
    }

    /// Adds one pair at the end, and says whether its name is new; where it isn't, and at an error, the pairs are as before.
    pub fn add(&mut self, alloc: Global, name: &[u8], value: SetValue) -> Result<bool, OutOfMemory>
        ensures ok { IfOk result (λ ok. with_pair self.old name.now value ≡ (if ok then Some self.new else None)) }
        ensures same { IfOk result (λ ok. ok ≡ false → self.new ≡ self.old) }
        ensures err { OnErr result (self.new ≡ self.old) }
    {
        add(&mut self.items, &mut self.names, alloc, name, value)
    }
}

fn add(
    items: &mut Vec<Pair>,
    names: &mut BTreeSet<Vec<u8>>,
    alloc: Global,
    name: &[u8],
    value: SetValue,
) -> Result<bool, OutOfMemory>
    requires { AreNames names.old.keys items.old.items }
    ensures names { AreNames names.new.keys items.new.items }
    ensures ok { IfOk result (λ ok. with_pair items.old.items name.now value ≡ (if ok then Some items.new.items else None)) }
    ensures same { IfOk result (λ ok. ok ≡ false → items.new.items ≡ items.old.items) }
    ensures err { OnErr result (items.new.items ≡ items.old.items) }
{
    let text = Vec::from_slice(alloc, name)?;
    let bytes = Vec::from_slice(alloc, name)?;
    items.reserve(1)?;
    if !names.insert(text)? {
        return Ok(false);
    }
    items.push_reserved(Pair {
        name: Octets::of(bytes),
        value,
    });
    Ok(true)
}

//! Whether a call fits the columns.
ghost use Rattle.std.specs.Prelude.{◌≡◌, IfSome, None, Some, IsTrue, MatchResult};
ghost use Rattle.std.specs.Option.{option_copied};
ghost use Rattle.sw_column.specs.Columns.{is_size, column_of};
ghost use Rattle.sw_column.specs.Fit.{fits, value_fault, number_fault, text_fault, at_column, pairs_fault, counter_fault, is_key, key_fault, call_fault};

use crate::column::{Column, Kind};
use crate::schema::Schema;
use sw_base::{Call, CallFault, Pairs, Value};

/// Whether a number fits a column of so many bytes.
pub fn fits(size: u32, n: i64) -> bool
    requires { IsTrue (is_size Kind.Int size) }
    ensures { result ≡ fits size n }
{
    match size {
        1 => -128 <= n && n < 128,
        2 => -32_768 <= n && n < 32_768,
        4 => -2_147_483_648 <= n && n < 2_147_483_648,
        _ => true,
    }
}

/// Whether a key has 1 to 63 bytes.
pub fn is_key(key: &[u8]) -> bool
    ensures { result ≡ is_key key.now }
{
    1 <= key.len() && key.len() <= 63
}

fn key_fault(key: &[u8]) -> Option<CallFault>
    ensures { result ≡ key_fault key.now }
{
    if is_key(key) {
        None
    } else {
        Some(CallFault::BadKey)
    }
}

fn value_fault(kind: Kind, size: u32, value: &Value) -> Option<CallFault>
    requires { IsTrue (is_size kind size) }
    ensures { result ≡ value_fault kind size value.now }
{
    match kind {
        Kind::Int => number_fault(size, value),
        Kind::Text => text_fault(value),
        Kind::Float => Some(CallFault::BadValue),
    }
}

fn number_fault(size: u32, value: &Value) -> Option<CallFault>
    requires { IsTrue (is_size Kind.Int size) }
    ensures { result ≡ number_fault size value.now }
{
    match value {
        Value::Int(n) if fits(size, *n) => None,
        Value::Int(_) => Some(CallFault::Range),
        Value::Text(_) => Some(CallFault::BadValue),
    }
}

fn text_fault(value: &Value) -> Option<CallFault>
    ensures { result ≡ text_fault value.now }
{
    match value {
        Value::Int(_) => Some(CallFault::BadValue),
        Value::Text(_) => None,
    }
}

impl Schema {
    /// Whether a call fits these columns. The fault is the first that applies: the key, then the column that is
    /// counted in, or the first pair with a refusal.
    pub fn fit(&self, call: &Call) -> Result<(), CallFault>
        ensures { MatchResult result (λ _. call_fault self.now call.now ≡ None) (λ f. call_fault self.now call.now ≡ Some f) }
    {
        match self.call_fault(call) {
            None => Ok(()),
            Some(fault) => Err(fault),
        }
    }

    fn call_fault(&self, call: &Call) -> Option<CallFault>
        ensures { result ≡ call_fault self.now call.now }
    {
        match call {
            Call::Set(key, pairs) => if is_key(key.bytes()) {
                self.pairs_fault(pairs)
            } else {
                Some(CallFault::BadKey)
            },
            Call::Get(key) => key_fault(key.bytes()),
            Call::Exist(key) => key_fault(key.bytes()),
            Call::Del(key) => key_fault(key.bytes()),
            Call::Incr(key, name, _) => if is_key(key.bytes()) {
                self.counter_fault(name.bytes())
            } else {
                Some(CallFault::BadKey)
            },
            Call::Decr(key, name, _) => if is_key(key.bytes()) {
                self.counter_fault(name.bytes())
            } else {
                Some(CallFault::BadKey)
            },
            Call::Count => None,
        }
    }

    /// The column of a name. None comes exactly where there is no such column.
    pub fn find(&self, name: &[u8]) -> Option<&Column>
        ensures value { option_copied result ≡ column_of self.now name.now }
        ensures sound { IfSome result (λ c. IsTrue (is_size c.now.kind c.now.size)) }
    {
        match self.place(name) {
            None => None,
            Some(at) => Some(self.at(at)),
        }
    }

    fn counter_fault(&self, name: &[u8]) -> Option<CallFault>
        ensures { result ≡ counter_fault (column_of self.now name.now) }
    {
        match self.find(name) {
            None => Some(CallFault::NoColumn),
            Some(c) => match c.kind {
                Kind::Int => None,
                Kind::Text => Some(CallFault::NotInt),
                Kind::Float => Some(CallFault::NotInt),
            },
        }
    }

    fn pair_fault(&self, name: &[u8], value: &Value) -> Option<CallFault>
        ensures { result ≡ at_column (column_of self.now name.now) value.now }
    {
        match self.find(name) {
            None => Some(CallFault::NoColumn),
            Some(c) => value_fault(c.kind, c.size, value),
        }
    }

    fn pairs_fault(&self, pairs: &Pairs) -> Option<CallFault>
        ensures { result ≡ pairs_fault self.now pairs.now }
    {
        for pair in pairs.as_slice() {
            match self.pair_fault(pair.0.bytes(), &pair.1) {
                None => (),
                Some(fault) => return Some(fault),
            }
        }
        None
    }
}

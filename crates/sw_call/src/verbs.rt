//! The word that a call begins with.
ghost use Rattle.std.specs.Prelude.{◌≡◌};
ghost use Rattle.sw_call.specs.Calls.{call_on};

use sw_base::{Call, Key, Name, OutOfMemory, Pairs, TryCopy};

/// What a call asks of a key: the call without its key, for texts that name keys in other ways than by digits.
#[derive(Drop, Debug)]
pub enum Verb {
    Set(Pairs),
    Get,
    Exist,
    Del,
    Incr(Name, i64),
    Decr(Name, i64),
}

impl Verb {
    /// The call on this key. It takes no memory.
    pub fn on(self, key: Key) -> Call
        ensures { result ≡ call_on self key }
    {
        match self {
            Verb::Set(pairs) => Call::Set(key, pairs),
            Verb::Get => Call::Get(key),
            Verb::Exist => Call::Exist(key),
            Verb::Del => Call::Del(key),
            Verb::Incr(name, by) => Call::Incr(key, name, by),
            Verb::Decr(name, by) => Call::Decr(key, name, by),
        }
    }
}

impl TryCopy for Verb {
    fn try_copy(&self) -> Result<Verb, OutOfMemory> {
        match self {
            Verb::Set(pairs) => Ok(Verb::Set(pairs.copy()?)),
            Verb::Get => Ok(Verb::Get),
            Verb::Exist => Ok(Verb::Exist),
            Verb::Del => Ok(Verb::Del),
            Verb::Incr(name, by) => Ok(Verb::Incr(name.copy()?, *by)),
            Verb::Decr(name, by) => Ok(Verb::Decr(name.copy()?, *by)),
        }
    }
}

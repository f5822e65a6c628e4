//! The key of a call.
ghost use Rattle.std.specs.Prelude.{◌≡◌, None, Some, MatchOption};
ghost use Rattle.sw_table_laws.specs.Laws.{key_of};

use sw_base::Call;

/// The key of a call, if it has one.
pub fn key_of(call: &Call) -> Option<&[u8]>
    ensures { MatchOption result (key_of call.now ≡ None) (λ k. key_of call.now ≡ Some k.now) }
{
    match call {
        Call::Set(key, _) => Some(key.bytes()),
        Call::Get(key) => Some(key.bytes()),
        Call::Exist(key) => Some(key.bytes()),
        Call::Del(key) => Some(key.bytes()),
        Call::Incr(key, _, _) => Some(key.bytes()),
        Call::Decr(key, _, _) => Some(key.bytes()),
        Call::Count => None,
    }
}

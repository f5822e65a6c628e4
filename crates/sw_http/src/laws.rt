//! What the contracts of a cutter say, taken together. The functions do nothing: their clauses are laws.

ghost use Rattle.std.specs.Prelude.{ℕ, List};
ghost use Rattle.sw_http.specs.Calls.{Call, IsAfter, IsExact, fed_in, given_in};
ghost use Rattle.sw_http.specs.Cutting.{Cutting};

/// However the bytes of a link are cut into pieces, and whenever the cutter is asked: the requests that were given are those that are
/// cut from the front of the joined bytes, in order, each once.
pub fn cutting_is_exact()
    ensures { (max : ℕ) (calls : List Call) (c : Cutting) → IsAfter max calls c → IsExact max (fed_in calls) (given_in calls) c.rest c.fault }
{}

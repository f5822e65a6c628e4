//! An option that stands at most once.
ghost use Rattle.std.specs.Prelude.{◌≡◌};
ghost use Rattle.sw_serve_words.specs.Unset.{unset};

/// The value of an option that wasn't named yet. None where it was, or where this is no value.
pub(crate) fn unset(named: Option<u64>, value: Option<u64>) -> Option<u64>
    ensures { result ≡ unset named value }
{
    match named {
        None => value,
        Some(_) => None,
    }
}

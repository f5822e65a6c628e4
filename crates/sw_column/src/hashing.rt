//! The hash of a key, which tells its bucket.
ghost use Rattle.std.specs.Prelude.{◌≡◌};
ghost use Rattle.sw_column.specs.Hash.{hash};

/// The hash of a key: h = (h × 31 + byte) mod 2^32 over its bytes, from 0.
pub fn hash(key: &[u8]) -> u32
    ensures { result ≡ hash key.now }
{
    key.iter().fold(
        0u32,
        |h, byte| h.wrapping_mul(31).wrapping_add(u32::from(*byte)),
    )
}

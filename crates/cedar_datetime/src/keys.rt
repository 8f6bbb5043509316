//! The bytes that tell datetimes apart, and durations, and order them.
ghost use Rattle.std.specs.Prelude.{◌≡◌, ◌^◌, ◌-ℤ◌, pos};
ghost use Rattle.cedar_datetime.specs.Keys.{key, value_of_key};

/// The key of a number of milliseconds: how far it is above the least number of 64 bits, in eight bytes, the highest
/// first. Keys are in order where the numbers are (`laws::keys_are_in_order`).
pub fn key_of(value: i64) -> [u8; 8]
    ensures { result ≡ key value }
{
    value.abs_diff(i64::MIN).to_be_bytes()
}

/// The number that has this key; none where there are not eight bytes.
pub fn value_of(key: &[u8]) -> Option<i64>
    ensures { result ≡ value_of_key key.now }
{
    if key.len() != 8 {
        return None;
    }
    match key.first_chunk::<8>() {
        Some(bytes) => Some(above_least(u64::from_be_bytes(*bytes))),
        None => None,
    }
}

// The number that is so far above the least one.
fn above_least(rank: u64) -> i64
    ensures { result ≡ pos rank -ℤ pos (2 ^ 63) }
{
    i64::MIN.wrapping_add_unsigned(rank)
}

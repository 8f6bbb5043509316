//! Digits at the places of a text.
ghost use Rattle.std.specs.Prelude.{◌≡◌, ◌+◌, ◌≤◌, ◌<◌, length};
ghost use Rattle.cedar_datetime.specs.Digits.{digit_at, two_digits};

// What the digit at this place is worth.
pub(crate) fn digit(bytes: &[u8], at: usize) -> u32
    requires { at < length bytes.now }
    ensures value { result ≡ digit_at at bytes.now }
    ensures small { result ≤ 255 }
{
    u32::from(bytes[at].saturating_sub(b'0'))
}

// The number that the two digits from this place on write.
pub(crate) fn two(bytes: &[u8], at: usize) -> u32
    requires { at + 1 < length bytes.now }
    ensures value { result ≡ two_digits at bytes.now }
    ensures small { result ≤ 2805 }
{
    digit(bytes, at) * 10 + digit(bytes, at + 1)
}

//! What a text writes.
ghost use Rattle.std.specs.Prelude.{◌≡◌, ◌-◌, ◌^◌, ◌≤◌, length, true};
ghost use Rattle.std.specs.List.{list_all};
ghost use Rattle.std.specs.Char.{is_ascii_digit};
ghost use Rattle.std.specs.Str.Parse.{digits_value};
ghost use Rattle.cedar_decimal.specs.Decimals.{decimal_of, negative, positive, unsigned_of, value_of_parts, is_numeral, ten_thousandths};
ghost use Rattle.cedar_decimal.specs.Bounds.{below_64_bits, within_64_bits};

/// The number of ten-thousandths that the text writes: perhaps a `-`, one or more digits, a dot, and one to four
/// digits, within 64 bits; the sign is that of the whole. `None` of each other text.
pub fn parse(text: &str) -> Option<i64>
    ensures { result ≡ decimal_of text.now }
{
    match text.strip_prefix('-') {
        Some(digits) => negative(parse_unsigned(digits)),
        None => positive(parse_unsigned(text)),
    }
}

// The number below zero of this size, if it fits.
fn negative(size: Option<u64>) -> Option<i64>
    ensures { result ≡ negative size }
{
    0i64.checked_sub_unsigned(size?)
}

// The number of this size that is not below zero, if it fits.
fn positive(size: Option<u64>) -> Option<i64>
    ensures { result ≡ positive size }
{
    i64::try_from(size?).ok()
}

// The size that the text writes without a sign, if it is below 2 ^ 64.
fn parse_unsigned(text: &str) -> Option<u64>
    ensures { result ≡ within_64_bits (unsigned_of text.now) }
{
    match text.split_once('.') {
        Some((whole, fraction)) => value_of_parts(whole, fraction),
        None => None,
    }
}

fn value_of_parts(whole: &str, fraction: &str) -> Option<u64>
    ensures { result ≡ within_64_bits (value_of_parts whole.now fraction.now) }
{
    if is_numeral(whole) && is_numeral(fraction) && fraction.len() <= 4 {
        ten_thousandths(whole, fraction)
    } else {
        None
    }
}

// One digit or more, and nothing else.
fn is_numeral(text: &str) -> bool
    ensures { result ≡ is_numeral text.now }
{
    !text.is_empty() && are_digits(text.as_bytes())
}

fn are_digits(bytes: &[u8]) -> bool
    ensures { result ≡ list_all is_ascii_digit bytes.now }
{
    bytes.iter().all(|byte| byte.is_ascii_digit())
}

#[tactic(auto, using(crate::proofs::Digits::four_digits))]
fn ten_thousandths(whole: &str, fraction: &str) -> Option<u64>
    requires whole { is_numeral whole.now ≡ true }
    requires fraction { is_numeral fraction.now ≡ true }
    requires short { length fraction.now ≤ 4 }
    ensures { result ≡ below_64_bits (ten_thousandths whole.now fraction.now) }
{
    let units = number(whole)?.checked_mul(10_000)?;
    let rest = number(fraction)?.checked_mul(scale(fraction.len()))?;
    units.checked_add(rest)
}

// How many ten-thousandths the last of so many digits behind the dot is worth.
fn scale(digits: usize) -> u64
    requires { digits ≤ 4 }
    ensures { result ≡ 10 ^ (4 - digits) }
{
    match digits {
        0 => 10_000,
        1 => 1_000,
        2 => 100,
        3 => 10,
        _ => 1,
    }
}

// The number that the digits write, if it is below 2 ^ 64.
fn number(digits: &str) -> Option<u64>
    requires { is_numeral digits.now ≡ true }
    ensures { result ≡ below_64_bits (digits_value 10 digits.now) }
{
    digits.parse().ok()
}

//! The texts of durations.
ghost use Rattle.std.specs.Prelude.{◌≡◌, ◌≤◌, ◌+◌, ◌^◌, ◌==◌, if◌then◌else◌, Some, None, length, IfSome, IfOk};
ghost use Rattle.std.specs.String.{string_bytes};
ghost use Rattle.std.specs.List.{prefix_len, position_or_len};
ghost use Rattle.std.specs.Char.{is_ascii_digit};
ghost use Rattle.cedar_datetime.specs.Digits.{number};
ghost use Rattle.cedar_datetime.specs.Duration as Duration;
ghost use Rattle.cedar_datetime.specs.Summing.{summed};

use std::alloc::{AllocError, Global};

const LARGEST: u64 = 9_223_372_036_854_775_808;

/// The duration that a text writes, in milliseconds; none where it writes none. A text is a minus or none, and then
/// numbers of the units `d`, `h`, `m`, `s` and `ms`, in this order, each unit once or not at all, and one at least,
/// with nothing between: `1d2h3m4s5ms`. A number has one ASCII digit or more, and the whole is within 64 bits.
pub fn parse(text: &str) -> Option<i64>
    ensures { result ≡ Duration.duration_of text.now }
{
    match text.as_bytes() {
        [] => None,
        [b'-', rest @ ..] => negative(magnitude(rest)),
        bytes => positive(magnitude(bytes)),
    }
}

/// Writes a number of milliseconds as the text of a duration, `Nms`, which `parse` reads as that number
/// (`laws::written_durations_are_read`). The only error is out of memory.
pub fn write(alloc: Global, milliseconds: i64) -> Result<String, AllocError>
    ensures { IfOk result (λ text. string_bytes text ≡ Duration.written milliseconds) }
{
    format!(in alloc; "{milliseconds}ms")
}

fn negative(magnitude: Option<u64>) -> Option<i64>
    requires { IfSome magnitude (λ n. n ≤ 2 ^ 63) }
    ensures { result ≡ Duration.negative magnitude }
{
    match magnitude {
        Some(n) => 0i64.checked_sub_unsigned(n),
        None => None,
    }
}

fn positive(magnitude: Option<u64>) -> Option<i64>
    ensures { result ≡ Duration.positive magnitude }
{
    match magnitude {
        Some(n) => { if n < LARGEST { Some(n as i64) } else { None } }
        None => None,
    }
}

// The milliseconds of a text without a sign.
#[tactic(auto, unfolding(crate::specs::Duration::magnitude_of))]
fn magnitude(bytes: &[u8]) -> Option<u64>
    ensures value { result ≡ Duration.magnitude_of bytes.now }
    ensures small { IfSome result (λ n. n ≤ 2 ^ 63) }
{
    if bytes.is_empty() {
        None
    } else {
        in_units(&UNITS, bytes)
    }
}

// A unit of a duration.
#[derive(Clone, Copy)]
enum Unit {
    Days,
    Hours,
    Minutes,
    Seconds,
    Milliseconds,
}

const UNITS: [Unit; 5] = [
    Unit::Days,
    Unit::Hours,
    Unit::Minutes,
    Unit::Seconds,
    Unit::Milliseconds,
];

// How a unit is written.
fn letters(unit: Unit) -> &'static [u8]
    ensures { result.now ≡ Duration.letters_of unit }
{
    match unit {
        Unit::Days => b"d",
        Unit::Hours => b"h",
        Unit::Minutes => b"m",
        Unit::Seconds => b"s",
        Unit::Milliseconds => b"ms",
    }
}

// How many milliseconds a unit has.
fn milliseconds(unit: Unit) -> u64
    ensures { result ≡ Duration.milliseconds_of unit }
{
    match unit {
        Unit::Days => 86_400_000,
        Unit::Hours => 3_600_000,
        Unit::Minutes => 60_000,
        Unit::Seconds => 1000,
        Unit::Milliseconds => 1,
    }
}

// The milliseconds of a text in which these units may stand.
#[tactic(auto, using(crate::proofs::Amounts::summed_is), unfolding(crate::specs::Duration::in_units))]
fn in_units(units: &[Unit], bytes: &[u8]) -> Option<u64>
    ensures value { result ≡ Duration.within (Duration.in_units units.now bytes.now) }
    ensures small { IfSome result (λ n. n ≤ 2 ^ 63) }
{
    match units.split_first() {
        None => nothing_more(bytes),
        Some((unit, smaller)) => {
            if begins_with(*unit, bytes) {
                let part = first_part(bytes);
                sum(
                    number(part.digits),
                    milliseconds(*unit),
                    in_units(smaller, part.behind),
                )
            } else {
                in_units(smaller, bytes)
            }
        }
    }
}

fn nothing_more(bytes: &[u8]) -> Option<u64>
    ensures value { result ≡ (if length bytes.now == 0 then Some 0 else None) }
    ensures small { IfSome result (λ n. n ≤ 2 ^ 63) }
{
    if bytes.is_empty() { Some(0) } else { None }
}

// So much of a unit, and the rest.
fn sum(amount: Option<u64>, milliseconds: u64, rest: Option<u64>) -> Option<u64>
    requires { IfSome rest (λ n. n ≤ 2 ^ 63) }
    ensures value { result ≡ summed amount milliseconds rest }
    ensures small { IfSome result (λ n. n ≤ 2 ^ 63) }
{
    match amount {
        Some(amount) => match rest {
            Some(rest) => match amount.checked_mul(milliseconds) {
                Some(product) => capped_sum(product, rest),
                None => None,
            },
            None => None,
        },
        None => None,
    }
}

fn capped_sum(product: u64, rest: u64) -> Option<u64>
    ensures value { result ≡ Duration.capped (product + rest) }
    ensures small { IfSome result (λ n. n ≤ 2 ^ 63) }
{
    match product.checked_add(rest) {
        Some(sum) => if sum <= LARGEST { Some(sum) } else { None },
        None => None,
    }
}

// What a text begins with: digits, what stands in front of the next digit, and from that digit on.
#[derive(Drop)]
struct Part<'a> {
    digits: &'a [u8],
    letters: &'a [u8],
    behind: &'a [u8],
}

fn first_part(bytes: &[u8]) -> Part<'_>
    ensures digits { result.digits.now ≡ Duration.digits bytes.now }
    ensures letters { result.letters.now ≡ Duration.letters (Duration.behind_digits bytes.now) }
    ensures behind { result.behind.now ≡ Duration.behind_letters (Duration.behind_digits bytes.now) }
{
    let count = digits_len(bytes);
    let rest = &bytes[count..];
    let more = letters_len(rest);
    Part {
        digits: &bytes[..count],
        letters: &rest[..more],
        behind: &rest[more..],
    }
}

// Whether the text begins with digits, behind which this unit stands.
#[tactic(auto, unfolding(crate::specs::Duration::begins_with))]
fn begins_with(unit: Unit, bytes: &[u8]) -> bool
    ensures { result ≡ Duration.begins_with unit bytes.now }
{
    let part = first_part(bytes);
    !part.digits.is_empty() && part.letters == letters(unit)
}

// How many digits the text begins with.
fn digits_len(bytes: &[u8]) -> usize
    ensures value { result ≡ prefix_len is_ascii_digit bytes.now }
    ensures within { result ≤ length bytes.now }
{
    let mut count = 0;
    let mut rest = bytes;
    'digits: while let Some((byte, others)) = rest.split_first() {
        if !byte.is_ascii_digit() {
            return count;
        }
        count += 1;
        rest = others;
    }
    count
}

// How many bytes stand in front of the first digit.
fn letters_len(bytes: &[u8]) -> usize
    ensures value { result ≡ position_or_len is_ascii_digit bytes.now }
    ensures within { result ≤ length bytes.now }
{
    let mut count = 0;
    let mut rest = bytes;
    'letters: while let Some((byte, others)) = rest.split_first() {
        if byte.is_ascii_digit() {
            return count;
        }
        count += 1;
        rest = others;
    }
    count
}

// The number that the digits write, up to 2 ^ 63.
#[tactic(auto, using(crate::proofs::Amounts::behind))]
fn number(digits: &[u8]) -> Option<u64>
    ensures value { result ≡ Duration.capped (number digits.now) }
    ensures small { IfSome result (λ n. n ≤ 2 ^ 63) }
{
    let mut value: u64 = 0;
    let mut rest = digits;
    'digits: while let Some((byte, others)) = rest.split_first() {
        let digit = u64::from(byte.saturating_sub(b'0'));
        if value > (LARGEST - digit) / 10 {
            return None;
        }
        value = value * 10 + digit;
        rest = others;
    }
    Some(value)
}

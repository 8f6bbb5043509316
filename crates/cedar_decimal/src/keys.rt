//! The keys of decimals.
ghost use Rattle.std.specs.Prelude.{◌≡◌, not};
ghost use Rattle.std.specs.Ordering.{nat_cmp, is_lt, is_gt, is_le, is_ge};
ghost use Rattle.std.specs.Cmp.Lexicographic.{slice_cmp};
ghost use Rattle.cedar_decimal.specs.Keys.{key_of, rank_of};

use crate::parsing::parse;

/// The key of the decimal that the text writes: eight bytes, the same for texts that write the same number, and in the
/// order of the numbers (`laws`). `None` of a text that writes none.
pub fn key(text: &str) -> Option<[u8; 8]>
    ensures { result ≡ key_of text.now }
{
    Some(rank(parse(text)?).to_be_bytes())
}

// How many ten-thousandths above the least decimal this one is.
fn rank(value: i64) -> u64
    ensures { result ≡ rank_of value }
{
    value.abs_diff(i64::MIN)
}

/// Whether the first of two keys is the less one.
pub fn less_than(left: &[u8], right: &[u8]) -> bool
    ensures { result ≡ is_lt (slice_cmp nat_cmp left.now right.now) }
{
    left.cmp(&right).is_lt()
}

/// Whether the first of two keys is less than the second, or the same.
pub fn less_than_or_equal(left: &[u8], right: &[u8]) -> bool
    ensures { result ≡ is_le (slice_cmp nat_cmp left.now right.now) }
{
    left.cmp(&right).is_le()
}

/// Whether the first of two keys is the greater one.
pub fn greater_than(left: &[u8], right: &[u8]) -> bool
    ensures { result ≡ is_gt (slice_cmp nat_cmp left.now right.now) }
{
    left.cmp(&right).is_gt()
}

/// Whether the first of two keys is greater than the second, or the same.
pub fn greater_than_or_equal(left: &[u8], right: &[u8]) -> bool
    ensures { result ≡ is_ge (slice_cmp nat_cmp left.now right.now) }
{
    left.cmp(&right).is_ge()
}

//! Lists of parts under a bound.
ghost use Rattle.std.specs.Prelude.{◌≡◌, ◌++◌, codes};
ghost use Rattle.std.specs.Fmt.{WritesOnOk};
ghost use Rattle.cedar_names.specs.Texts as text;

use std::fmt;

/// Writes `..` as a last part.
pub fn write_more<W: fmt::Write>(is_first: bool, f: &mut fmt::Formatter<W>) -> fmt::Result
    ensures { WritesOnOk W.write_str_gives f.old result (text.separator is_first ++ codes "..") f.new }
{
    f.write_str(separator(is_first))?;
    f.write_str("..")
}

/// What stands before a part.
pub fn separator(is_first: bool) -> &'static str
    ensures { result.now ≡ text.separator is_first }
{
    if is_first { "" } else { ", " }
}

/// Whether a bound leaves room for no part.
pub fn is_spent(bound: Option<usize>) -> bool
    ensures { result ≡ text.is_spent bound }
{
    match bound {
        None => false,
        Some(n) => n == 0,
    }
}

/// The bound after one part. A bound that leaves room for no part stays.
pub fn one_less(bound: Option<usize>) -> Option<usize>
    ensures { result ≡ text.one_less bound }
{
    match bound {
        None => None,
        Some(n) => Some(n.saturating_sub(1)),
    }
}

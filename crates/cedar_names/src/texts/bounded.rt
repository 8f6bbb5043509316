//! Texts with a bound on the parts that sets and records show.
ghost use Rattle.std.specs.Prelude.{◌≡◌, ℕ, List, Option, Some, None, OnOk};
ghost use Rattle.std.specs.Fmt.{WritesInCalls};

use std::fmt;
use std::fmt::Display;

/// A text that can be cut: with a bound `n` each set and each record shows its first `n` parts and, where it has more,
/// `..` as a last part. Without a bound it is the text of `Display`. The arguments of a call are never cut.
pub trait BoundedDisplay: Display {
    /// The bytes that are written under a bound.
    ghost bounded_output: { Self → Option ℕ → List ℕ };

    /// Writes the text under the bound `n`. Fails only where the writer does.
    fn fmt<W: fmt::Write>(&self, f: &mut W, n: Option<usize>) -> fmt::Result
        ensures { OnOk result (WritesInCalls W.write_str_gives f.old (bounded_output self.now n) f.new) };

    /// Without a bound it is what `{}` writes.
    ghost unbounded: { (x : Self) → Self.output x ≡ Some (bounded_output x None) };
}

//! The patterns of `like`.
ghost use Rattle.std.specs.Prelude.{◌≡◌};

mod matching;
pub(crate) mod texts;

use std::alloc::AllocError;
use std::marker::Model;

/// A part of a pattern: a character that stands for itself, or any run of characters.
#[derive(Clone, Copy, Debug, PartialEq, Eq, Hash)]
pub enum PatternElem {
    /// A character, which matches itself.
    Char(char),
    /// `*`, which matches any run of characters, the empty one too.
    Wildcard,
}

/// A pattern of `like`: its parts in order.
#[derive(Debug, PartialEq, Eq, Hash, Drop)]
pub struct Pattern {
    elems: Vec<PatternElem>,
}

impl Model for Pattern {
    ghost use Rattle.cedar_names.specs.PatternFields.{PatternFields};

    ghost Value = { PatternFields };

    ghost view = { λ a. record { elems = a.elems } };

    ghost inverse = { λ a. record { elems = a.elems } };
}

impl Clone for Pattern {
    ghost use Rattle.cedar_names.specs.Leaves.{pattern_view};

    ghost is_clone = { λ p copy. pattern_view copy ≡ pattern_view p };

    fn clone(&self) -> Result<Pattern, AllocError> {
        Ok(Pattern {
            elems: self.elems.clone()?,
        })
    }
}

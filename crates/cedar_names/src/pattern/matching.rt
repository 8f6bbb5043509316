//! Whether a text matches a pattern.
ghost use Rattle.std.specs.Prelude.{◌≡◌, [], ◌∷◌, MatchOption, map};
ghost use Rattle.std.specs.Str.{chars};
ghost use Rattle.cedar_model.specs.Outcomes.{matches};
ghost use Rattle.cedar_names.specs.Leaves.{part_view, pattern_view};
ghost use Rattle.cedar_names.specs.Looks.{LooksAt};

use super::{Pattern, PatternElem};

impl Pattern {
    /// The pattern of these parts, in this order. It takes no memory.
    pub fn new(elems: Vec<PatternElem>) -> Pattern
        ensures { pattern_view result ≡ map part_view elems.items }
    {
        Pattern { elems }
    }

    /// The parts of the pattern, in order.
    pub fn elems(&self) -> &[PatternElem]
        ensures { map part_view result.now ≡ pattern_view self.now }
    {
        self.elems.as_slice()
    }

    /// Whether the text matches: each character matches itself, and a wildcard any run of characters, the empty one
    /// too. Takes at most (parts + 1) times (characters + 1) steps.
    pub fn wildcard_match(&self, text: &str) -> bool
        ensures { result ≡ matches (pattern_view self.now) (chars text.now) }
    {
        matches_parts(self.elems(), text)
    }
}

// How a pattern and a text begin.
#[derive(Clone, Copy)]
enum Look<'a> {
    // Both have ended.
    Ends,
    // The pattern begins with a wildcard, and goes on so.
    Wildcard(&'a [PatternElem]),
    // Both begin with one character, and go on so.
    Same(&'a [PatternElem], &'a str),
    // The text does not match.
    Differs,
}

// The first character of a text and what follows it.
fn split_char(text: &str) -> Option<(char, &str)>
    ensures { MatchOption result (chars text.now ≡ []) (λ p. chars text.now ≡ p.0 ∷ chars p.1.now) }
{
    let mut rest = text.chars();
    match rest.next() {
        Some(c) => Some((c, rest.as_str())),
        None => None,
    }
}

#[tactic(auto, unfolding(cedar_model::specs::Outcomes::matches))]
fn beginning<'a>(parts: &'a [PatternElem], text: &'a str) -> Look<'a>
    ensures { LooksAt (map part_view parts.now) (chars text.now) result }
{
    match parts.split_first() {
        None => match split_char(text) {
            None => Look::Ends,
            Some(_) => Look::Differs,
        },
        Some((PatternElem::Wildcard, more)) => Look::Wildcard(more),
        Some((PatternElem::Char(expected), more)) => match split_char(text) {
            None => Look::Differs,
            Some((c, rest)) => {
                if *expected == c {
                    Look::Same(more, rest)
                } else {
                    Look::Differs
                }
            }
        },
    }
}

// Matches from the left. A wildcard takes no character at first. Where what follows the last wildcard does not match,
// that wildcard takes one character more, and the walk goes on behind it: the wildcards before it never need to take
// more.
#[tactic(auto, unfolding(cedar_model::specs::Outcomes::matches, cedar_model::specs::Outcomes::some_end))]
fn matches_parts(elems: &[PatternElem], text: &str) -> bool
    ensures { result ≡ matches (map part_view elems.now) (chars text.now) }
{
    let mut parts = elems;
    let mut rest = text;
    let mut after_wildcard = false;
    let mut more = elems;
    let mut from = text;
    'walk: loop {
        match beginning(parts, rest) {
            Look::Ends => return true,
            Look::Wildcard(next_parts) => {
                parts = next_parts;
                more = next_parts;
                from = rest;
                after_wildcard = true;
            }
            Look::Same(next_parts, next_rest) => {
                parts = next_parts;
                rest = next_rest;
            }
            Look::Differs => {
                if !after_wildcard {
                    return false;
                }
                match split_char(from) {
                    None => return false,
                    Some((_, next_from)) => {
                        parts = more;
                        rest = next_from;
                        from = next_from;
                    }
                }
            }
        }
    }
}

#![tactic(auto, using(crate::proofs::Building::building))]
//! `like`, with a pattern that is said as a text.
ghost use Rattle.std.specs.Prelude.{◌≡◌, ◌++◌, ◌∷◌, [], ℕ, List, map, IfOk, OnOk, Some, option_map};
ghost use Rattle.std.specs.Str.{chars};
ghost use Rattle.cedar_model.specs.Terms.{like};
ghost use Rattle.cedar_names.specs.Leaves.{part_view};
ghost use Rattle.cedar_builder.specs.Building.{term_of, term_in, Builds, Makes};
ghost use Rattle.cedar_builder.specs.Patterns.{pattern_behind, pattern_said};

use super::ExprBuilder;
use cedar_expressions::Expr;
use cedar_fallible::pair_of;
use cedar_names::{Pattern, PatternElem};
use std::alloc::{AllocError, Global};

impl ExprBuilder {
    /// `self like pattern`, of a text: a `*` stands for any run of characters, `\*` for a star, `\\` for a backslash,
    /// and each other character for itself. A `\` before another character, or at the end, is left out.
    pub fn like(self, pattern: &str) -> ExprBuilder
        ensures { Builds result (option_map (λ t. like t (pattern_said (chars pattern.now))) (term_of self)) }
    {
        let ExprBuilder { alloc, built } = self;
        ExprBuilder {
            alloc,
            built: like_of(alloc, built, pattern),
        }
    }
}

fn like_of(alloc: Global, part: Result<Expr, AllocError>, pattern: &str) -> Result<Expr, AllocError>
    ensures { Makes result (option_map (λ t. like t (pattern_said (chars pattern.now))) (term_in part)) }
{
    let (part, elems) = pair_of(part, elems_of(alloc, pattern))?;
    let made = Expr::like(alloc, part, Pattern::new(elems))?;
    Ok(made)
}

// The parts of the pattern that the text says.
fn elems_of(alloc: Global, pattern: &str) -> Result<Vec<PatternElem>, AllocError>
    ensures { IfOk result (λ v. map part_view v.items ≡ pattern_said (chars pattern.now)) }
{
    let mut elems: Vec<PatternElem> = Vec::new(alloc);
    let mut is_escaped = false;
    'characters: for character in pattern.chars() {
        is_escaped = put(&mut elems, character, is_escaped)?;
    }
    Ok(elems)
}

// Puts the part that the character is behind these, unless it is a `\` that stands before another character; whether it
// is one.
fn put(elems: &mut Vec<PatternElem>, character: char, is_escaped: bool) -> Result<bool, AllocError>
    ensures { IfOk result (λ next. (rest : List ℕ) → map part_view elems.new.items ++ pattern_behind next rest
        ≡ map part_view elems.old.items ++ pattern_behind is_escaped (character ∷ rest)) }
{
    if is_escaped {
        push(elems, PatternElem::Char(character))?;
        Ok(false)
    } else if character == '\\' {
        Ok(true)
    } else if character == '*' {
        push(elems, PatternElem::Wildcard)?;
        Ok(false)
    } else {
        push(elems, PatternElem::Char(character))?;
        Ok(false)
    }
}

fn push(elems: &mut Vec<PatternElem>, elem: PatternElem) -> Result<(), AllocError>
    ensures { OnOk result (map part_view elems.new.items ≡ map part_view elems.old.items ++ part_view elem ∷ []) }
{
    match elems.push(elem) {
        Ok(()) => Ok(()),
        Err(_) => Err(AllocError),
    }
}

//! What operands are asked by `like`, as SQL.
ghost use Rattle.std.specs.Prelude.{◌≡◌, [], ◌∷◌, ◌++◌, map, option_map, string_bytes, IfOk};
ghost use Rattle.std.specs.Str.{encode_utf8_all};
ghost use Rattle.cedar_names.specs.Leaves.{part_view, pattern_view};
ghost use Rattle.cedar_sql.specs.Terms.{sql_term};
ghost use Rattle.cedar_sql.specs.Sides.{sort_view, leaf_term, side_view};
ghost use Rattle.cedar_sql.specs.Patterns.{characters, characters_term, from_term, before_term, front_term};
ghost use Rattle.cedar_sql.specs.Patterns.{within_term, whole_term, like_term, pattern_term, liked_or_null};

use crate::leaves::written;
use crate::patterns::{Wildcards, behind_of, characters_of, wildcards_of};
use crate::sides::{Leaf, Side, Sort};
use crate::terms::{SqlTerm, both, compared, place_in};
use cedar_fallible::pair_of;
use cedar_filter::Comparison;
use cedar_names::{Pattern, PatternElem};
use std::alloc::{AllocError, Global};
use std::rc::RcStr;

pub(crate) fn liked_or_null(
    alloc: Global,
    pattern: &Pattern,
    side: Option<Side<'_>>,
) -> Result<SqlTerm, AllocError>
    ensures { IfOk result (λ t. sql_term t
        ≡ liked_or_null (pattern_view pattern.now) (option_map side_view side.entry)) }
{
    match side {
        None => Ok(SqlTerm::Null),
        Some(side) => pattern_term(alloc, pattern.elems(), side.sort, side.leaf),
    }
}

fn pattern_term(
    alloc: Global,
    parts: &[PatternElem],
    sort: Sort<'_>,
    leaf: Leaf<'_>,
) -> Result<SqlTerm, AllocError>
    ensures { IfOk result (λ t. sql_term t
        ≡ pattern_term (map part_view parts.now) (sort_view sort.entry) (leaf_term leaf.entry)) }
{
    match sort {
        Sort::Bool => Ok(SqlTerm::Null),
        Sort::Long => Ok(SqlTerm::Null),
        Sort::Text => like_term(alloc, parts, leaf),
        Sort::Entity(_) => Ok(SqlTerm::Null),
        Sort::Row(_) => Ok(SqlTerm::Null),
    }
}

fn like_term(alloc: Global, parts: &[PatternElem], leaf: Leaf<'_>) -> Result<SqlTerm, AllocError>
    ensures { IfOk result (λ t. sql_term t ≡ like_term (map part_view parts.now) (leaf_term leaf.entry)) }
{
    match wildcards_of(parts) {
        Wildcards::Nowhere => whole_term(alloc, parts, leaf),
        Wildcards::AtEnd => front_term(alloc, parts, leaf),
        Wildcards::AtBothEnds => within_term(alloc, parts, leaf),
        Wildcards::Elsewhere => Ok(SqlTerm::Null),
    }
}

// ---- texts

fn characters_term(alloc: Global, parts: &[PatternElem]) -> Result<SqlTerm, AllocError>
    ensures { IfOk result (λ t. sql_term t ≡ characters_term (characters (map part_view parts.now))) }
{
    let text = characters_of(alloc, parts)?;
    Ok(SqlTerm::Text(RcStr::from_string(text)?))
}

// These characters, and this one.
fn behind_term(alloc: Global, parts: &[PatternElem], last: char) -> Result<SqlTerm, AllocError>
    ensures { IfOk result (λ t. sql_term t ≡ characters_term (characters (map part_view parts.now) ++ (last ∷ []))) }
{
    let text = behind_text(alloc, parts, last)?;
    Ok(SqlTerm::Text(RcStr::from_string(text)?))
}

#[tactic(auto, using(crate::proofs::Utf8::one_more))]
fn behind_text(alloc: Global, parts: &[PatternElem], last: char) -> Result<String, AllocError>
    ensures { IfOk result (λ t. string_bytes t
        ≡ encode_utf8_all (characters (map part_view parts.now) ++ (last ∷ []))) }
{
    let mut text = characters_of(alloc, parts)?;
    text.push(last)?;
    Ok(text)
}

// ---- one text, those that begin with it, those that have it in them

fn whole_term(alloc: Global, parts: &[PatternElem], leaf: Leaf<'_>) -> Result<SqlTerm, AllocError>
    ensures { IfOk result (λ t. sql_term t
        ≡ whole_term (characters (map part_view parts.now)) (leaf_term leaf.entry)) }
{
    let (column, text) = pair_of(written(alloc, leaf), characters_term(alloc, parts))?;
    compared(alloc, Comparison::Equal, column, text)
}

fn front_term(alloc: Global, parts: &[PatternElem], leaf: Leaf<'_>) -> Result<SqlTerm, AllocError>
    ensures { IfOk result (λ t. sql_term t
        ≡ front_term (characters (map part_view parts.now)) (leaf_term leaf.entry)) }
{
    match behind_of(parts) {
        None => from_term(alloc, parts, leaf),
        Some((front, last)) => {
            let from = from_term(alloc, parts, leaf);
            let (from, before) = pair_of(from, before_term(alloc, front, last, leaf))?;
            both(alloc, from, before)
        }
    }
}

// From the characters on.
fn from_term(alloc: Global, parts: &[PatternElem], leaf: Leaf<'_>) -> Result<SqlTerm, AllocError>
    ensures { IfOk result (λ t. sql_term t
        ≡ from_term (characters (map part_view parts.now)) (leaf_term leaf.entry)) }
{
    let (text, column) = pair_of(characters_term(alloc, parts), written(alloc, leaf))?;
    compared(alloc, Comparison::LessEq, text, column)
}

// Before these characters and this one.
fn before_term(
    alloc: Global,
    parts: &[PatternElem],
    last: char,
    leaf: Leaf<'_>,
) -> Result<SqlTerm, AllocError>
    ensures { IfOk result (λ t. sql_term t
        ≡ before_term (characters (map part_view parts.now) ++ (last ∷ [])) (leaf_term leaf.entry)) }
{
    let (column, text) = pair_of(written(alloc, leaf), behind_term(alloc, parts, last))?;
    compared(alloc, Comparison::Less, column, text)
}

fn within_term(alloc: Global, parts: &[PatternElem], leaf: Leaf<'_>) -> Result<SqlTerm, AllocError>
    ensures { IfOk result (λ t. sql_term t
        ≡ within_term (characters (map part_view parts.now)) (leaf_term leaf.entry)) }
{
    let (column, text) = pair_of(written(alloc, leaf), characters_term(alloc, parts))?;
    let place = place_in(alloc, column, text)?;
    compared(alloc, Comparison::Less, SqlTerm::Number(0), place)
}

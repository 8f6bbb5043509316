//! Where a pattern of `like` has wildcards, and what its characters are.
ghost use Rattle.std.specs.Prelude.{◌≡◌, [], ◌∷◌, ◌++◌, map, option_map, IfOk, string_bytes};
ghost use Rattle.std.specs.Str.{encode_utf8_all};
ghost use Rattle.cedar_names.specs.Leaves.{part_view};
ghost use Rattle.cedar_sql.specs.Patterns.{is_plain, are_wildcards, is_front, behind_wildcards, wildcards, characters};
ghost use Rattle.cedar_sql.specs.Patterns.{has_nul_character, has_a_place, is_said_pattern, next_character, behind};
ghost use Rattle.cedar_sql.specs.Patterns.{next_of_part};

use cedar_names::PatternElem;
use std::alloc::{AllocError, Global};

// Where a pattern has wildcards.
#[derive(Clone, Copy)]
pub(crate) enum Wildcards {
    // Nowhere: one text matches.
    Nowhere,
    // At its end alone: the texts that begin with its characters match.
    AtEnd,
    // At its two ends alone: the texts that have its characters in them match.
    AtBothEnds,
    // Somewhere else.
    Elsewhere,
}

// ---- wildcards

pub(crate) fn wildcards_of(parts: &[PatternElem]) -> Wildcards
    ensures { result ≡ wildcards (map part_view parts.now) }
{
    if is_plain(parts) {
        Wildcards::Nowhere
    } else if is_front(parts) {
        Wildcards::AtEnd
    } else if is_front(behind_wildcards(parts)) {
        Wildcards::AtBothEnds
    } else {
        Wildcards::Elsewhere
    }
}

fn is_plain(parts: &[PatternElem]) -> bool
    ensures { result ≡ is_plain (map part_view parts.now) }
{
    'parts: for part in parts {
        match part {
            PatternElem::Char(_) => {}
            PatternElem::Wildcard => return false,
        }
    }
    true
}

// Whether it has wildcards at its end alone.
fn is_front(parts: &[PatternElem]) -> bool
    ensures { result ≡ is_front (map part_view parts.now) }
{
    let mut has_wildcard = false;
    'parts: for part in parts {
        match part {
            PatternElem::Char(_) => {
                if has_wildcard {
                    return false;
                }
            }
            PatternElem::Wildcard => has_wildcard = true,
        }
    }
    has_wildcard
}

fn behind_wildcards(parts: &[PatternElem]) -> &[PatternElem]
    ensures { map part_view result.now ≡ behind_wildcards (map part_view parts.now) }
{
    let mut rest = parts;
    'parts: loop {
        match rest.split_first() {
            None => return rest,
            Some((first, more)) => match first {
                PatternElem::Char(_) => return rest,
                PatternElem::Wildcard => rest = more,
            },
        }
    }
}

// Whether there is SQL of the pattern.
pub(crate) fn is_said(parts: &[PatternElem]) -> bool
    ensures { result ≡ is_said_pattern (map part_view parts.now) }
{
    has_a_place(wildcards_of(parts)) && !has_nul_character(parts)
}

fn has_a_place(wildcards: Wildcards) -> bool
    ensures { result ≡ has_a_place wildcards }
{
    match wildcards {
        Wildcards::Nowhere => true,
        Wildcards::AtEnd => true,
        Wildcards::AtBothEnds => true,
        Wildcards::Elsewhere => false,
    }
}

fn has_nul_character(parts: &[PatternElem]) -> bool
    ensures { result ≡ has_nul_character (map part_view parts.now) }
{
    'parts: for part in parts {
        match part {
            PatternElem::Char(character) => {
                if *character == '\0' {
                    return true;
                }
            }
            PatternElem::Wildcard => {}
        }
    }
    false
}

// ---- characters

// Its characters as a text.
pub(crate) fn characters_of(alloc: Global, parts: &[PatternElem]) -> Result<String, AllocError>
    ensures { IfOk result (λ t. string_bytes t ≡ encode_utf8_all (characters (map part_view parts.now))) }
{
    let mut text = String::new(alloc);
    'parts: for part in parts {
        push_part(&mut text, *part)?;
    }
    Ok(text)
}

fn push_part(text: &mut String, part: PatternElem) -> Result<(), AllocError>
    ensures { IfOk result (λ _. string_bytes text.new
        ≡ string_bytes text.old ++ encode_utf8_all (characters (part_view part ∷ []))) }
{
    match part {
        PatternElem::Char(character) => text.push(character),
        PatternElem::Wildcard => Ok(()),
    }
}

// The first text behind all those that begin with its characters, if there is one: these parts' characters, and this one.
pub(crate) fn behind_of(parts: &[PatternElem]) -> Option<(&[PatternElem], char)>
    ensures { option_map (λ p. characters (map part_view p.0.now) ++ (p.1 ∷ [])) result
        ≡ behind (characters (map part_view parts.now)) }
{
    let mut rest = parts;
    'parts: loop {
        match rest.split_last() {
            None => return None,
            Some((last, front)) => match next_of(*last) {
                Some(next) => return Some((front, next)),
                None => rest = front,
            },
        }
    }
}

// The next one of a character.
fn next_of(part: PatternElem) -> Option<char>
    ensures { result ≡ next_of_part (part_view part) }
{
    match part {
        PatternElem::Char(character) => next_character(character),
        PatternElem::Wildcard => None,
    }
}

fn next_character(character: char) -> Option<char>
    ensures { result ≡ next_character character }
{
    if character == '\u{10FFFF}' {
        None
    } else if character == '\u{D7FF}' {
        Some('\u{E000}')
    } else {
        char::from_u32(character as u32 + 1)
    }
}

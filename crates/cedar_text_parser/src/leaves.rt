//! What tokens stand for: keys, texts, numbers, names, entities and patterns.
//!
//! A long is at most 9223372036854775807, and with a minus before it 9223372036854775808.
ghost use Rattle.std.specs.Prelude.{◌≡◌, ◌<◌, ◌≤◌, ◌-◌, ◌^◌, ◌∷◌, List, map, length, IfOk, IfErr, OnOk, string_bytes};
ghost use Rattle.std.specs.Prelude.{neg_ℤ};
ghost use Rattle.std.specs.Rc.{rc_str_bytes};
ghost use Rattle.cedar_text_lexer.specs.Values.{Stands};
ghost use Rattle.cedar_text_lexer.specs.declared.tokens.Kind.TheVariants as kind;
ghost use Rattle.std.specs.declared.alloc.Global.{Global};
ghost use Rattle.std.specs.declared.rc.RcStr.{RcStr};
ghost use Rattle.cedar_names.specs.Leaves.{pattern_view};
ghost use Rattle.cedar_names.specs.Leaves.{part_view};
ghost use Rattle.cedar_names.specs.Names.{type_name_of};
ghost use Rattle.cedar_text_lexer.specs.Sequence as Tokens;
ghost use Rattle.cedar_text_parser.specs.Building.{number_at, IsPatternAt, pattern_part};
ghost use Rattle.cedar_text_parser.specs.Refusals.{IsRefused};
ghost use Rattle.cedar_text_parser.specs.Wording.{word_at, spelled, place, IsTextAt, IsKeyAt, AreKeysAt, IsNameAt, IsEntityAt};

use crate::refusals::{ill_made, too_large};
use crate::source::Source;
use cedar_names::{EntityType, EntityUID, FirstRest, Loc, Name, Pattern, PatternElem};
use cedar_text_lexer::errors::ReadError;
use cedar_text_lexer::tokens::{Kind, Token};
use cedar_text_lexer::values;
use cedar_text_lexer::values::PatternPart;
use std::alloc::{AllocError, Global};
use std::rc::RcStr;

/// The token of this number.
pub(crate) fn token(source: &Source, at: usize) -> Result<Token, ReadError>
    ensures is { IfOk result (λ t. t ≡ Tokens.token_at source.now.tokens at) }
    ensures within { OnOk result (at < length source.now.tokens) }
    ensures stands { IfOk result (λ t. Stands source.now.text t) }
    ensures err { IfErr result (IsRefused source.now) }
{
    if at < source.len() {
        Ok(source.token_at(at))
    } else {
        Err(ill_made(source))
    }
}

/// The long that the token of this number writes.
pub(crate) fn long(source: &Source, at: usize) -> Result<i64, ReadError>
    ensures ok { IfOk result (λ n. n ≡ number_at source.now at) }
    ensures err { IfErr result (IsRefused source.now) }
{
    let token = token(source, at)?;
    match values::number(source.text(), token) {
        Ok(number) => if number < 9_223_372_036_854_775_808 {
            Ok(number as i64)
        } else {
            Err(too_large(source, at))
        },
        Err(_) => Err(too_large(source, at)),
    }
}

/// The same with a minus before it.
pub(crate) fn negative_long(source: &Source, at: usize) -> Result<i64, ReadError>
    ensures ok { IfOk result (λ n. n ≡ neg_ℤ (number_at source.now at)) }
    ensures err { IfErr result (IsRefused source.now) }
{
    let token = token(source, at)?;
    match values::number(source.text(), token) {
        Ok(number) => if number < 9_223_372_036_854_775_808 {
            Ok(-(number as i64))
        } else {
            Ok(i64::MIN)
        },
        Err(_) => Err(too_large(source, at)),
    }
}

/// The text that the token of this number, a text in quotes, stands for.
pub(crate) fn text_at(alloc: Global, source: &Source, at: usize) -> Result<RcStr, ReadError>
    ensures ok { IfOk result (λ w. IsTextAt source.now at (rc_str_bytes w)) }
    ensures err { IfErr result (IsRefused source.now) }
{
    let token = token(source, at)?;
    match token.kind {
        Kind::Text => {
            let value = text_of(alloc, source, at)?;
            Ok(RcStr::from_string(value)?)
        }
        _ => Err(ill_made(source)),
    }
}

// The text that this token stands for.
fn text_of(alloc: Global, source: &Source, at: usize) -> Result<String, ReadError>
    requires within { at < length source.now.tokens }
    requires is { Tokens.kind_at source.now.tokens at ≡ kind.Text }
    ensures ok { IfOk result (λ w. IsTextAt source.now at (string_bytes w)) }
    ensures err { IfErr result (IsRefused source.now) }
{
    match values::text_value(alloc, source.text(), source.token_at(at)) {
        Ok(value) => Ok(value),
        Err(error) => Err(error),
    }
}

/// The attribute or the key that the token of this number names.
pub(crate) fn key(alloc: Global, source: &Source, at: usize) -> Result<RcStr, ReadError>
    ensures ok { IfOk result (λ w. IsKeyAt source.now at (rc_str_bytes w)) }
    ensures err { IfErr result (IsRefused source.now) }
{
    let token = token(source, at)?;
    if token.kind.is_identifier() {
        Ok(RcStr::from_str(alloc, values::word(source.text(), token))?)
    } else {
        let value = text_at(alloc, source, at)?;
        Ok(value)
    }
}

/// The attributes that the tokens of these numbers name, each second token one.
pub(crate) fn keys(
    alloc: Global,
    source: &Source,
    from: usize,
    to: usize,
) -> Result<FirstRest<RcStr>, ReadError>
    ensures ok { IfOk result (λ w. AreKeysAt source.now from to (w.first ∷ w.rest.items)) }
    ensures err { IfErr result (IsRefused source.now) }
{
    if from < to && to <= source.len() {
        let first = key(alloc, source, from)?;
        let rest = further_keys(alloc, source, from, to)?;
        Ok(FirstRest { first, rest })
    } else {
        Err(ill_made(source))
    }
}

// The attributes behind the first.
fn further_keys(
    alloc: Global,
    source: &Source,
    from: usize,
    to: usize,
) -> Result<Vec<RcStr>, ReadError>
    requires order { from < to }
    requires within { to ≤ length source.now.tokens }
    requires short { to < 2 ^ 63 }
    ensures ok { IfOk result (λ ws. (w : RcStr Global) → IsKeyAt source.now from (rc_str_bytes w) →
        AreKeysAt source.now from to (w ∷ ws.items)) }
    ensures err { IfErr result (IsRefused source.now) }
{
    let mut rest: Vec<RcStr> = Vec::new(alloc);
    let mut at = from + 1;
    while at < to {
        let next = key(alloc, source, at + 1)?;
        rest.push(next)?;
        at = at + 2;
    }
    if at == to {
        Ok(rest)
    } else {
        Err(ill_made(source))
    }
}

/// The name that the tokens of these numbers write.
pub(crate) fn name(
    alloc: Global,
    source: &Source,
    from: usize,
    to: usize,
) -> Result<Name, ReadError>
    ensures ok { IfOk result (λ f. IsNameAt source.now from to f) }
    ensures err { IfErr result (IsRefused source.now) }
{
    if from < to && to <= source.len() {
        let words = words(alloc, source, from, to)?;
        let start = source.start_at(from);
        let end = source.end_at(to - 1);
        Ok(Name::new(RcStr::from_string(words)?, Some(Loc { start, end })))
    } else {
        Err(ill_made(source))
    }
}

/// The words of the tokens of these numbers, one behind the other.
pub(crate) fn words(
    alloc: Global,
    source: &Source,
    from: usize,
    to: usize,
) -> Result<String, AllocError>
    requires order { from < to }
    requires within { to ≤ length source.now.tokens }
    ensures { IfOk result (λ w. string_bytes w ≡ spelled source.now from (to - from)) }
{
    let mut words = String::new(alloc);
    for n in 0..to - from {
        words.push_str(word_at(source, from + n))?;
    }
    Ok(words)
}

/// The bytes of the token of this number.
pub(crate) fn word_at<'a>(source: &Source<'a>, at: usize) -> &'a str
    requires within { at < length source.now.tokens }
    ensures { result.now ≡ word_at source.now at }
{
    values::word(source.text(), source.token_at(at))
}

/// The type that the tokens of these numbers name.
pub(crate) fn entity_type(
    alloc: Global,
    source: &Source,
    from: usize,
    to: usize,
) -> Result<EntityType, ReadError>
    ensures ok { IfOk result (λ t. IsNameAt source.now from to (type_name_of t)) }
    ensures err { IfErr result (IsRefused source.now) }
{
    let name = name(alloc, source, from, to)?;
    Ok(EntityType::new(name))
}

/// The entity whose type is named from the one token up to the `::` before the other, which is its id, at this place.
pub(crate) fn entity(
    alloc: Global,
    source: &Source,
    from: usize,
    to: usize,
    loc: Loc,
) -> Result<EntityUID, ReadError>
    ensures ok { IfOk result (λ u. IsEntityAt source.now from to loc.start loc.end u) }
    ensures err { IfErr result (IsRefused source.now) }
{
    if to == 0 {
        return Err(ill_made(source));
    }
    let id = text_at(alloc, source, to)?;
    let ty = entity_type(alloc, source, from, to - 1)?;
    Ok(EntityUID::new(ty, id, Some(loc)))
}

/// The pattern that the token of this number, a text in quotes, stands for.
pub(crate) fn pattern(alloc: Global, source: &Source, at: usize) -> Result<Pattern, ReadError>
    ensures ok { IfOk result (λ p. IsPatternAt source.now at p) }
    ensures err { IfErr result (IsRefused source.now) }
{
    let token = token(source, at)?;
    match token.kind {
        Kind::Text => {
            let pattern = pattern_of(alloc, source, at)?;
            Ok(pattern)
        }
        _ => Err(ill_made(source)),
    }
}

// The pattern that this token stands for.
fn pattern_of(alloc: Global, source: &Source, at: usize) -> Result<Pattern, ReadError>
    requires within { at < length source.now.tokens }
    requires is { Tokens.kind_at source.now.tokens at ≡ kind.Text }
    ensures ok { IfOk result (λ p. IsPatternAt source.now at p) }
    ensures err { IfErr result (IsRefused source.now) }
{
    match values::pattern(alloc, source.text(), source.token_at(at)) {
        Ok(parts) => {
            let elems = elems(alloc, &parts)?;
            Ok(Pattern::new(elems))
        }
        Err(error) => Err(error),
    }
}

// The parts of a pattern, as patterns have them.
fn elems(alloc: Global, parts: &[PatternPart]) -> Result<Vec<PatternElem>, AllocError>
    ensures { IfOk result (λ elems. map part_view elems.items ≡ map pattern_part parts.now) }
{
    let mut elems: Vec<PatternElem> = Vec::new(alloc);
    for n in 0..parts.len() {
        elems.push(elem(parts[n]))?;
    }
    Ok(elems)
}

fn elem(part: PatternPart) -> PatternElem
    ensures { part_view result ≡ pattern_part part }
{
    match part {
        PatternPart::Char(char) => PatternElem::Char(char),
        PatternPart::Wildcard => PatternElem::Wildcard,
    }
}

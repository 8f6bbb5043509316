//! What is expected of tokens, one of a kind or a name, and the errors where something else stands.
ghost use Rattle.std.specs.Prelude.{◌≡◌, ◌+◌, ◌<◌, length, IfOk, IfErr, IfSome, ℕ};
ghost use Rattle.cedar_text_syntax.specs.Grammar.{IsPath};
ghost use Rattle.cedar_text_syntax.specs.Places.{IsPlaced, end_of};
ghost use Rattle.cedar_text_lexer.specs.Sequence as Tokens;

use cedar_text_lexer::errors::{Expected, ReadError, name_for};
use cedar_text_lexer::sequence::{end_at, is_name_at, kind_at, token_at};
use cedar_text_lexer::tokens::{Kind, Token};

/// Up to which token something was read, and the byte before which it ends.
#[derive(Clone, Copy)]
pub struct Reach {
    pub next: usize,
    pub end: usize,
}

/// The number of the next token, where this one is of the kind.
///
/// Errors: `Expected` at this token, or behind the last.
pub fn expect(
    tokens: &[Token],
    index: usize,
    kind: Kind,
    what: Expected,
) -> Result<usize, ReadError>
    ensures is { IfOk result (λ next. Tokens.kind_at tokens.now index ≡ kind) }
    ensures next { IfOk result (λ next. next ≡ index + 1) }
    ensures within { IfOk result (λ next. index < length tokens.now) }
    ensures err { IfErr result (λ error. IsPlaced tokens.now error) }
{
    match accept(tokens, index, kind) {
        Some(next) => Ok(next),
        None => Err(expected_at(tokens, index, what)),
    }
}

/// The number of the next token, where this one is of the kind; nothing where it is of another.
pub fn accept(tokens: &[Token], index: usize, kind: Kind) -> Option<usize>
    ensures is { IfSome result (λ next. Tokens.kind_at tokens.now index ≡ kind) }
    ensures next { IfSome result (λ next. next ≡ index + 1) }
    ensures within { IfSome result (λ next. index < length tokens.now) }
{
    if index < tokens.len() && kind_at(tokens, index) == kind {
        Some(index + 1)
    } else {
        None
    }
}

/// A name, as long as it can be: identifiers but `__cedar` with `::` between them.
///
/// Errors: `Expected` at this token, or behind the last.
pub fn path(tokens: &[Token], index: usize, what: Expected) -> Result<Reach, ReadError>
    ensures ok { IfOk result (λ r. IsPath tokens.now index r.next (Tokens.start_at tokens.now index) r.end) }
    ensures err { IfErr result (λ error. IsPlaced tokens.now error) }
{
    let mut reach = first_name(tokens, index, what)?;
    for _ in 0..tokens.len() {
        match another_name(tokens, reach.next) {
            Some(longer) => reach = longer,
            None => return whole_name(tokens, reach),
        }
    }
    whole_name(tokens, reach)
}

// The name as it was read, where no `__cedar` goes on with it.
fn whole_name(tokens: &[Token], reach: Reach) -> Result<Reach, ReadError>
    ensures same { IfOk result (λ r. r ≡ reach) }
    ensures err { IfErr result (λ error. IsPlaced tokens.now error) }
{
    match accept(tokens, reach.next, Kind::Colons) {
        Some(name) => match kind_at(tokens, name) {
            Kind::Cedar => Err(expected_at(tokens, name, Expected::OtherName)),
            _ => Ok(reach),
        },
        None => Ok(reach),
    }
}

fn first_name(tokens: &[Token], index: usize, what: Expected) -> Result<Reach, ReadError>
    ensures ok { IfOk result (λ r. IsPath tokens.now index r.next (Tokens.start_at tokens.now index) r.end) }
    ensures err { IfErr result (λ error. IsPlaced tokens.now error) }
{
    if is_name_at(tokens, index) {
        Ok(Reach {
            next: index + 1,
            end: end_at(tokens, index),
        })
    } else {
        Err(expected_at(tokens, index, name_for(what, kind_at(tokens, index))))
    }
}

// `::` and one name more.
fn another_name(tokens: &[Token], index: usize) -> Option<Reach>
    ensures { (i s e : ℕ) → IfSome result (λ r. IsPath tokens.now i index s e → IsPath tokens.now i r.next s r.end) }
{
    let name = accept(tokens, index, Kind::Colons)?;
    if is_name_at(tokens, name) {
        Some(Reach {
            next: name + 1,
            end: end_at(tokens, name),
        })
    } else {
        None
    }
}

/// The error that this was expected where the token of this number stands, or behind the last token.
pub fn expected_at(tokens: &[Token], index: usize, what: Expected) -> ReadError
    ensures { IsPlaced tokens.now result }
{
    if index < tokens.len() {
        ReadError::expected(what, token_at(tokens, index))
    } else {
        let end = end_of(tokens);
        ReadError::Expected {
            what,
            found: Kind::End,
            start: end,
            end,
        }
    }
}

/// The error that what stands from this byte on, and ends with the token of this number, has more levels than the limit.
pub fn too_deep(tokens: &[Token], start: usize, index: usize, limit: usize) -> ReadError
    ensures { IsPlaced tokens.now result }
{
    if index < tokens.len() {
        let end = end_at(tokens, index);
        ReadError::TooDeep {
            limit,
            start: start.min(end),
            end,
        }
    } else {
        at_end(tokens)
    }
}

/// The error that no token of kind `End` stands behind the others.
pub(crate) fn at_end(tokens: &[Token]) -> ReadError
    ensures { IsPlaced tokens.now result }
{
    let end = end_of(tokens);
    ReadError::Expected {
        what: Expected::End,
        found: Kind::End,
        start: end,
        end,
    }
}

/// The byte before which the last token ends.
pub(crate) fn end_of(tokens: &[Token]) -> usize
    ensures { result ≡ end_of tokens.now }
{
    if tokens.is_empty() {
        0
    } else {
        end_at(tokens, tokens.len() - 1)
    }
}

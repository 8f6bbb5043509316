//! The annotations of a policy, before its effect.
ghost use Rattle.std.specs.Prelude.{◌≡◌, ◌+◌, ◌<◌, ◌++◌, ◌∷◌, [], true, length, IfOk, IfErr, ℕ};
ghost use Rattle.cedar_text_syntax.specs.Places.{IsPlaced};
ghost use Rattle.cedar_text_lexer.specs.Sequence as Tokens;
ghost use Rattle.cedar_text_lexer.specs.declared.tokens.Kind.TheVariants as kind;
ghost use Rattle.cedar_text_syntax.specs.PolicyGrammar.{AreAnnotations};
ghost use Rattle.cedar_text_syntax.specs.PolicyGrammar as Grammar;

use crate::expect;
use crate::looking::expect_word;
use crate::policies::Annotation;
use cedar_text_lexer::errors::{Expected, ReadError};
use cedar_text_lexer::sequence::kind_at;
use cedar_text_lexer::tokens::{Kind, Token};
use std::alloc::Global;

/// Annotations, and the token behind them.
#[derive(Drop)]
pub(crate) struct Annotated {
    pub(crate) annotations: Vec<Annotation>,
    pub(crate) next: usize,
}

pub(crate) fn annotations(
    alloc: Global,
    tokens: &[Token],
    index: usize,
) -> Result<Annotated, ReadError>
    ensures ok { IfOk result (λ a. AreAnnotations tokens.now index a.next a.annotations.items) }
    ensures err { IfErr result (λ error. IsPlaced tokens.now error) }
{
    let mut annotations = Vec::new(alloc);
    let mut next = index;
    for _ in 0..tokens.len() {
        if kind_at(tokens, next) != Kind::At {
            return Ok(Annotated { annotations, next });
        }
        next = annotation(&mut annotations, tokens, next)?;
    }
    Ok(Annotated { annotations, next })
}

fn annotation(
    annotations: &mut Vec<Annotation>,
    tokens: &[Token],
    index: usize,
) -> Result<usize, ReadError>
    ensures ok { (i : ℕ) → IfOk result (λ next. AreAnnotations tokens.now i index annotations.old.items →
        AreAnnotations tokens.now i next annotations.new.items) }
    ensures err { IfErr result (λ error. IsPlaced tokens.now error) }
{
    let key = expect(tokens, index, Kind::At, Expected::Policy)?;
    let behind = expect_word(tokens, key)?;
    if kind_at(tokens, behind) == Kind::OpenParen {
        let next = annotation_value(annotations, tokens, index, key, behind)?;
        return Ok(next);
    }
    put(annotations, tokens, Annotation { key, value: None })?;
    Ok(behind)
}

// The value of an annotation, whose parenthesis is this token.
fn annotation_value(
    annotations: &mut Vec<Annotation>,
    tokens: &[Token],
    index: usize,
    key: usize,
    paren: usize,
) -> Result<usize, ReadError>
    requires is { Tokens.kind_at tokens.now index ≡ kind.At }
    requires key { key ≡ index + 1 }
    requires word { Grammar.is_word (Tokens.kind_at tokens.now key) ≡ true }
    requires paren { paren ≡ key + 1 }
    ensures ok { (i : ℕ) → IfOk result (λ next. AreAnnotations tokens.now i index annotations.old.items →
        AreAnnotations tokens.now i next annotations.new.items) }
    ensures err { IfErr result (λ error. IsPlaced tokens.now error) }
{
    let text = expect(tokens, paren, Kind::OpenParen, Expected::OpenParen)?;
    let close = expect(tokens, text, Kind::Text, Expected::Text)?;
    let next = expect(tokens, close, Kind::CloseParen, Expected::CloseParen)?;
    let value = Some(text);
    put(annotations, tokens, Annotation { key, value })?;
    Ok(next)
}

fn put(
    annotations: &mut Vec<Annotation>,
    tokens: &[Token],
    annotation: Annotation,
) -> Result<(), ReadError>
    ensures ok { IfOk result (λ _. annotations.new.items ≡ annotations.old.items ++ annotation ∷ []) }
    ensures err { IfErr result (λ error. IsPlaced tokens.now error) }
{
    match annotations.push(annotation) {
        Ok(()) => Ok(()),
        Err(_) => Err(ReadError::Memory),
    }
}

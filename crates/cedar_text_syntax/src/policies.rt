//! A policy as it is read: its annotations and effect, and the steps of its constraints and its condition.
ghost use Rattle.std.specs.Prelude.{◌≡◌, ◌<◌, length, [], IfOk, IfErr, Some};
ghost use Rattle.cedar_text_syntax.specs.Places.{IsPlaced};
ghost use Rattle.cedar_text_lexer.specs.Sequence as Tokens;
ghost use Rattle.cedar_text_syntax.specs.Trees.{FindParts};
ghost use Rattle.cedar_text_syntax.specs.PolicyGrammar as Grammar;
ghost use Rattle.cedar_text_syntax.specs.PolicyReading.{HasPolicy};

use crate::annotations::{Annotated, annotations};
use crate::steps::Step;
use crate::written::Written;
use crate::{expected_at, looking};
use cedar_text_lexer::errors::{Expected, ReadError};
use cedar_text_lexer::sequence::{end_at, kind_at, start_at};
use cedar_text_lexer::tokens::Token;
use std::alloc::Global;

/// An annotation: the token that is its key, and the one that is its value, if it has one.
#[derive(Clone, Copy)]
pub struct Annotation {
    pub key: usize,
    pub value: Option<usize>,
}

/// A variable that a scope constrains.
#[derive(Clone, Copy)]
pub enum Variable {
    Principal,
    Action,
    Resource,
}

/// A policy: its annotations, whether it permits, the steps that make the constraints on its principal, its action and
/// its resource and then its condition, the bytes from which and up to which it stands, and the number of the token
/// behind it.
#[derive(Drop)]
pub struct PolicySteps {
    pub annotations: Vec<Annotation>,
    pub permits: bool,
    pub steps: Vec<Step>,
    pub start: usize,
    pub end: usize,
    pub next: usize,
}

/// The policy that begins with the token of this number. It is what the tokens up to its semicolon derive by the
/// grammar, and its condition has at most `limit` levels.
///
/// Errors: `Memory`; `Expected`, at a token or behind the last; `TooDeep`, from some byte up to the end of a token.
/// That this is the first token that can't be where it is, or a condition with more levels, is tested and not proved.
pub fn policy_steps(
    alloc: Global,
    tokens: &[Token],
    index: usize,
    limit: usize,
) -> Result<PolicySteps, ReadError>
    ensures ok { IfOk result (λ policy. HasPolicy tokens.now index limit policy) }
    ensures parts { IfOk result (λ policy. FindParts [] policy.steps.items) }
    ensures err { IfErr result (λ error. IsPlaced tokens.now error) }
{
    let Annotated { annotations, next } = annotations(alloc, tokens, index)?;
    let permits = effect(tokens, next)?;
    let mut written = Written::new(alloc);
    let clauses = written.scope(tokens, next + 1)?;
    let last = written.condition(alloc, tokens, clauses, limit)?;
    Ok(PolicySteps {
        annotations,
        permits,
        steps: written.steps,
        start: start_at(tokens, index),
        end: end_at(tokens, last),
        next: last + 1,
    })
}

// Whether the policy permits, by this token.
fn effect(tokens: &[Token], index: usize) -> Result<bool, ReadError>
    ensures ok { IfOk result (λ permits. Grammar.effect_of (Tokens.kind_at tokens.now index) ≡ Some permits) }
    ensures within { IfOk result (λ _. index < length tokens.now) }
    ensures err { IfErr result (λ error. IsPlaced tokens.now error) }
{
    match looking::effect_of(kind_at(tokens, index)) {
        Some(permits) if index < tokens.len() => Ok(permits),
        _ => Err(expected_at(tokens, index, Expected::Policy)),
    }
}

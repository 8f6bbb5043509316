//! What a token may be: one of a kind, a word, a name, or what stands for something in a policy.
ghost use Rattle.std.specs.Prelude.{◌≡◌, ◌+◌, IfOk, IfErr, true};
ghost use Rattle.cedar_text_lexer.specs.Sequence as Tokens;
ghost use Rattle.cedar_text_syntax.specs.Places.{IsPlaced};
ghost use Rattle.cedar_text_syntax.specs.Grammar.{IsPath};
ghost use Rattle.cedar_text_syntax.specs.PolicyGrammar as Grammar;

use crate::policies::Variable;
use crate::{Reach, accept, expected_at, path};
use cedar_text_lexer::errors::{Expected, ReadError};
use cedar_text_lexer::sequence::kind_at;
use cedar_text_lexer::tokens::{Kind, Token};

fn is_word_at(tokens: &[Token], index: usize) -> bool
    ensures { result ≡ Grammar.is_word (Tokens.kind_at tokens.now index) }
{
    kind_at(tokens, index).is_word()
}

/// The number of the token behind a word.
pub(crate) fn expect_word(tokens: &[Token], index: usize) -> Result<usize, ReadError>
    ensures is { IfOk result (λ next. Grammar.is_word (Tokens.kind_at tokens.now index) ≡ true) }
    ensures next { IfOk result (λ next. next ≡ index + 1) }
    ensures err { IfErr result (λ error. IsPlaced tokens.now error) }
{
    if index < tokens.len() && is_word_at(tokens, index) {
        Ok(index + 1)
    } else {
        Err(expected_at(tokens, index, Expected::Word))
    }
}

/// The name of a type, behind which no `::` stands.
pub(crate) fn type_name(tokens: &[Token], index: usize) -> Result<Reach, ReadError>
    ensures ok { IfOk result (λ r. IsPath tokens.now index r.next (Tokens.start_at tokens.now index) r.end) }
    ensures err { IfErr result (λ error. IsPlaced tokens.now error) }
{
    let name = path(tokens, index, Expected::Type)?;
    match accept(tokens, name.next, Kind::Colons) {
        Some(next) => Err(expected_at(tokens, next, Expected::Type)),
        None => Ok(name),
    }
}

pub(crate) fn variable_kind(variable: Variable) -> Kind
    ensures { result ≡ Grammar.variable_kind variable }
{
    match variable {
        Variable::Principal => Kind::Principal,
        Variable::Action => Kind::Action,
        Variable::Resource => Kind::Resource,
    }
}

pub(crate) fn expected_variable(variable: Variable) -> Expected {
    match variable {
        Variable::Principal => Expected::Principal,
        Variable::Action => Expected::Action,
        Variable::Resource => Expected::Resource,
    }
}

pub(crate) fn is_slot_of(variable: Variable, kind: Kind) -> bool
    ensures { result ≡ Grammar.is_slot_of variable kind }
{
    match variable {
        Variable::Principal => matches!(kind, Kind::PrincipalSlot),
        Variable::Action => false,
        Variable::Resource => matches!(kind, Kind::ResourceSlot),
    }
}

pub(crate) fn has_type(variable: Variable) -> bool
    ensures { result ≡ Grammar.has_type variable }
{
    match variable {
        Variable::Principal => true,
        Variable::Action => false,
        Variable::Resource => true,
    }
}

pub(crate) fn effect_of(kind: Kind) -> Option<bool>
    ensures { result ≡ Grammar.effect_of kind }
{
    match kind {
        Kind::Permit => Some(true),
        Kind::Forbid => Some(false),
        _ => None,
    }
}

pub(crate) fn negates(kind: Kind) -> Option<bool>
    ensures { result ≡ Grammar.negates kind }
{
    match kind {
        Kind::When => Some(false),
        Kind::Unless => Some(true),
        _ => None,
    }
}

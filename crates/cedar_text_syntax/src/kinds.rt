//! What the kinds of tokens are to an expression.
ghost use Rattle.std.specs.Prelude.{◌≡◌};
ghost use Rattle.cedar_text_syntax.specs.Faults as Faults;
ghost use Rattle.cedar_text_syntax.specs.Grammar as Grammar;

use crate::levels::Operator;
use crate::steps::{Bracketed, Leaf};
use cedar_text_lexer::errors::Expected;
use cedar_text_lexer::tokens::Kind;

/// Whether the token may be the key of a record.
pub fn is_key(kind: Kind) -> bool
    ensures { result ≡ Grammar.is_key kind }
{
    match kind {
        Kind::Text => true,
        _ => kind.is_identifier(),
    }
}

/// The part that a token of this kind and number is.
pub fn leaf(kind: Kind, index: usize) -> Option<Leaf>
    ensures { result ≡ Grammar.leaf_of kind index }
{
    match kind {
        Kind::True => Some(Leaf::Bool(true)),
        Kind::False => Some(Leaf::Bool(false)),
        Kind::Text => Some(Leaf::Text(index)),
        Kind::Principal | Kind::Action | Kind::Resource | Kind::Context => Some(Leaf::Variable(
            index,
        )),
        _ => None,
    }
}

/// The operator between two parts that a token of this kind is.
pub fn operator(kind: Kind) -> Option<Operator>
    ensures { result ≡ Grammar.operator_of kind }
{
    match kind {
        Kind::Or => Some(Operator::Or),
        Kind::And => Some(Operator::And),
        Kind::Equal => Some(Operator::Equal),
        Kind::NotEqual => Some(Operator::NotEqual),
        Kind::Less => Some(Operator::Less),
        Kind::LessEqual => Some(Operator::LessEqual),
        Kind::Greater => Some(Operator::Greater),
        Kind::GreaterEqual => Some(Operator::GreaterEqual),
        Kind::In => Some(Operator::In),
        Kind::Plus => Some(Operator::Add),
        Kind::Minus => Some(Operator::Sub),
        Kind::Star => Some(Operator::Mul),
        _ => None,
    }
}

/// Whether a token of this kind closes the brackets.
pub fn closes(bracketed: Bracketed, kind: Kind) -> bool
    ensures { result ≡ Grammar.closes bracketed kind }
{
    match bracketed {
        Bracketed::Set => matches!(kind, Kind::CloseBracket),
        Bracketed::Record => matches!(kind, Kind::CloseBrace),
        Bracketed::Call(_, _) => matches!(kind, Kind::CloseParen),
        Bracketed::Method(_) => matches!(kind, Kind::CloseParen),
    }
}

/// What closes the bracket, where a token of this kind would end more than what stands in it; or else another thing.
pub fn due(closing: Expected, other: Expected, kind: Kind) -> Expected
    ensures { result ≡ Faults.due closing other kind }
{
    match kind {
        Kind::CloseParen | Kind::CloseBracket | Kind::CloseBrace | Kind::Semicolon | Kind::End =>
            closing,
        _ => other,
    }
}

/// What closes the brackets of this kind that stand from this byte on.
pub fn closing(bracketed: Bracketed, start: usize) -> Expected
    ensures { result ≡ Faults.closing_of bracketed start }
{
    match bracketed {
        Bracketed::Set => Expected::ClosedBracket(start),
        Bracketed::Record => Expected::ClosedBrace(start),
        Bracketed::Call(_, _) => Expected::ClosedCall(start),
        Bracketed::Method(_) => Expected::ClosedCall(start),
    }
}

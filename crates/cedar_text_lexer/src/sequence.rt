//! Tokens by their numbers; behind the last one stand such of kind `End`.
ghost use Rattle.std.specs.Prelude.{◌≡◌, ◌<◌, length, true};
ghost use Rattle.cedar_text_lexer.specs.Kinds as Kinds;
ghost use Rattle.cedar_text_lexer.specs.Sequence as Tokens;

use crate::tokens::{Kind, Token};

/// The token of this number; behind the last one, one of kind `End` from byte 0 up to byte 0.
#[inline]
#[tactic(auto, unfolding(crate::specs::Sequence::token_at))]
pub fn token_at(tokens: &[Token], index: usize) -> Token
    ensures { result ≡ Tokens.token_at tokens.now index }
{
    match tokens.get(index) {
        Some(token) => *token,
        None => Token {
            kind: Kind::End,
            start: 0,
            end: 0,
        },
    }
}

/// The kind of the token of this number; behind the last one, `End`.
#[inline]
pub fn kind_at(tokens: &[Token], index: usize) -> Kind
    ensures { result ≡ Tokens.kind_at tokens.now index }
{
    token_at(tokens, index).kind
}

/// The byte at which the token of this number starts; behind the last one, 0.
#[inline]
pub fn start_at(tokens: &[Token], index: usize) -> usize
    ensures { result ≡ Tokens.start_at tokens.now index }
{
    token_at(tokens, index).start
}

/// The byte before which the token of this number ends; behind the last one, 0.
#[inline]
pub fn end_at(tokens: &[Token], index: usize) -> usize
    ensures { result ≡ Tokens.end_at tokens.now index }
{
    token_at(tokens, index).end
}

/// Whether the token of this number may stand in the name of a type, a namespace or a function; behind the last one, no.
#[inline]
#[tactic(auto, unfolding(crate::specs::Sequence::token_at))]
pub fn is_name_at(tokens: &[Token], index: usize) -> bool
    ensures is { result ≡ Kinds.is_name (Tokens.kind_at tokens.now index) }
    ensures within { result ≡ true → index < length tokens.now }
{
    kind_at(tokens, index).is_name()
}

/// Whether the token of this number may name an attribute; behind the last one, no.
#[inline]
#[tactic(auto, unfolding(crate::specs::Sequence::token_at))]
pub fn is_identifier_at(tokens: &[Token], index: usize) -> bool
    ensures is { result ≡ Kinds.is_identifier (Tokens.kind_at tokens.now index) }
    ensures within { result ≡ true → index < length tokens.now }
{
    kind_at(tokens, index).is_identifier()
}

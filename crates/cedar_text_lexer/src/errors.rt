//! Why a text can't be read.
ghost use Rattle.std.specs.Prelude.{◌≡◌};
ghost use Rattle.cedar_text_lexer.specs.declared.errors.ReadError.TheVariants as error;
ghost use Rattle.cedar_text_lexer.specs.Kinds as Kinds;

use crate::tokens::{Kind, Token};
use std::alloc::{AllocError, AllocFailed};
use std::error::Error;

/// What a text should have had at a place.
#[derive(Clone, Copy, Debug)]
pub enum Expected {
    /// A token of the language.
    Token,
    /// The quote that ends a text.
    Quote,
    /// An expression.
    Expression,
    /// An operator, or the end of the expression.
    Operator,
    /// An operator that is no relation: relations can't be chained.
    NoSecondRelation,
    /// At most four of `!` or of `-`.
    FewerSigns,
    /// A variable, or the rest of a name.
    Name,
    /// A name in which `__cedar` does not stand.
    OtherName,
    /// `::` and an id behind the name of a type.
    Id,
    /// An identifier or a text in quotes behind `::`.
    NameOrId,
    /// The name of an attribute.
    Attribute,
    /// A text in quotes.
    Text,
    /// `]`
    CloseBracket,
    /// `:`
    Colon,
    /// `,` or the bracket that closes a list.
    CommaOrClose,
    /// `then`
    Then,
    /// `else`
    Else,
    /// The end of the text.
    End,
    /// A number that a long can hold.
    Long,
    /// An escape of the language.
    Escape,
    /// A text without `\*`, which is for patterns.
    NoStar,
    /// A key that the record doesn't have yet.
    NewKey,
    /// No argument, where so many are given.
    NoArgument(usize),
    /// One argument, where so many are given.
    OneArgument(usize),
    /// `)` for the `(` at this byte.
    ClosedParen(usize),
    /// `)` for the call that stands from this byte on.
    ClosedCall(usize),
    /// `]` for the `[` at this byte.
    ClosedBracket(usize),
    /// `}` for the `{` at this byte.
    ClosedBrace(usize),
    /// An expression of at most so many nodes: `is` with `in` has its left side twice.
    FewerNodes(usize),
    /// Steps that are well made.
    Steps,
    /// `permit`, `forbid` or an annotation.
    Policy,
    /// A word, the key of an annotation.
    Word,
    /// `(`
    OpenParen,
    /// `)`
    CloseParen,
    /// `{`
    OpenBrace,
    /// `,`
    Comma,
    /// `principal`
    Principal,
    /// `action`
    Action,
    /// `resource`
    Resource,
    /// An entity.
    Entity,
    /// An entity or a slot.
    EntityOrSlot,
    /// The name of a type.
    Type,
    /// `when`, `unless` or `;`
    Clause,
    /// `?principal` or `?resource`.
    Slot,
}

/// Why a text can't be read, and where: from the byte `start` up to, but not including, the byte `end`.
#[derive(Clone, Copy, Debug)]
pub enum ReadError {
    /// Out of memory.
    Memory,
    /// This was expected there, and a token of this kind was found.
    Expected {
        what: Expected,
        found: Kind,
        start: usize,
        end: usize,
    },
    /// The expression there has more levels than this limit.
    TooDeep {
        limit: usize,
        start: usize,
        end: usize,
    },
}

impl Error for ReadError {}

impl From<AllocError> for ReadError {
    ghost from_gives = { λ _ result. result ≡ error.Memory };

    fn from(_error: AllocError) -> ReadError {
        ReadError::Memory
    }
}

impl<T: Drop> From<AllocFailed<T>> for ReadError {
    ghost from_gives = { λ _ result. result ≡ error.Memory };

    fn from(_error: AllocFailed<T>) -> ReadError {
        ReadError::Memory
    }
}

impl ReadError {
    /// This was expected where the token stands; where the token can't be read, what it should have been.
    pub fn expected(what: Expected, token: Token) -> ReadError
        ensures { result ≡ error.Expected (Kinds.what_for what token.kind) token.kind token.start token.end }
    {
        ReadError::Expected {
            what: what_for(what, token.kind),
            found: token.kind,
            start: token.start,
            end: token.end,
        }
    }
}

/// What was expected where a token of this kind stands in place of a name: `__cedar` should have been another.
pub fn name_for(what: Expected, found: Kind) -> Expected
    ensures { result ≡ Kinds.name_for what found }
{
    match found {
        Kind::Cedar => Expected::OtherName,
        _ => what,
    }
}

fn what_for(what: Expected, found: Kind) -> Expected
    ensures { result ≡ Kinds.what_for what found }
{
    match found {
        Kind::UnclosedText => Expected::Quote,
        Kind::Unreadable => Expected::Token,
        Kind::OtherSlot => Expected::Slot,
        _ => what,
    }
}

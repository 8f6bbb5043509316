//! What was expected, in words.
ghost use Rattle.std.specs.Prelude.{◌≡◌, Some};
ghost use Rattle.cedar_text_lexer.specs.Names.{expected_text};

use crate::errors::Expected;
use std::fmt;

/// What was expected, in words.
impl fmt::Display for Expected {
    ghost output = { λ x. Some (expected_text x) };

    fn fmt<W: fmt::Write>(&self, f: &mut fmt::Formatter<W>) -> fmt::Result {
        f.write_str(expected_text(*self))
    }
}

fn expected_text(it: Expected) -> &'static str
    ensures { result.now ≡ expected_text it }
{
    match it {
        Expected::Token => "a token",
        Expected::Quote => "the closing quote",
        Expected::Expression => "an expression",
        Expected::Operator => "an operator",
        Expected::NoSecondRelation => "no second relation",
        Expected::FewerSigns => "at most four signs",
        Expected::Name => "a variable or the rest of a name",
        Expected::OtherName => "another name than `__cedar`, which is reserved",
        Expected::Id => "`::` and an id in quotes, as in `User::\"alice\"`",
        Expected::NameOrId => "a name or an id",
        Expected::Attribute => "an attribute",
        Expected::Text => "a text in quotes",
        Expected::CloseBracket => "`]`",
        Expected::Colon => "`:`",
        Expected::CommaOrClose => "`,` or the end of the list",
        Expected::Then => "`then`",
        Expected::Else => "`else`",
        Expected::End => "the end",
        Expected::Long => "a number up to 9223372036854775807",
        Expected::Escape => "an escape of the language",
        Expected::NoStar => "no star with a backslash",
        Expected::NewKey => "a new key",
        Expected::NoArgument(_) => "no argument",
        Expected::OneArgument(_) => "one argument",
        Expected::ClosedParen(_) => "`)`",
        Expected::ClosedCall(_) => "`)`",
        Expected::ClosedBracket(_) => "`]`",
        Expected::ClosedBrace(_) => "`}`",
        Expected::FewerNodes(_) => "fewer nodes",
        Expected::Steps => "well made steps",
        Expected::Policy => "a policy",
        Expected::Word => "a word",
        Expected::OpenParen => "`(`",
        Expected::CloseParen => "`)`",
        Expected::OpenBrace => "`{`",
        Expected::Comma => "`,`",
        Expected::Principal => "`principal`",
        Expected::Action => "`action`",
        Expected::Resource => "`resource`",
        Expected::Entity => "an entity",
        Expected::EntityOrSlot => "an entity or a slot",
        Expected::Type => "a type",
        Expected::Clause => "`when`, `unless` or `;`",
        Expected::Slot => "`?principal` or `?resource`",
    }
}

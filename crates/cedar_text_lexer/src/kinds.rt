//! What kinds of tokens are called.
ghost use Rattle.std.specs.Prelude.{◌≡◌, Some};
ghost use Rattle.cedar_text_lexer.specs.Names.{kind_text};

use crate::tokens::Kind;
use std::fmt;

/// What a token of this kind is called where one is found.
impl fmt::Display for Kind {
    ghost output = { λ x. Some (kind_text x) };

    fn fmt<W: fmt::Write>(&self, f: &mut fmt::Formatter<W>) -> fmt::Result {
        f.write_str(kind_text(*self))
    }
}

/// What a token of this kind is called where one is found.
pub(crate) fn kind_text(it: Kind) -> &'static str
    ensures { result.now ≡ kind_text it }
{
    match it {
        Kind::Identifier => "an identifier",
        Kind::Number => "a number",
        Kind::Text => "a text",
        Kind::Principal => "`principal`",
        Kind::Action => "`action`",
        Kind::Resource => "`resource`",
        Kind::Context => "`context`",
        Kind::Permit => "`permit`",
        Kind::Forbid => "`forbid`",
        Kind::When => "`when`",
        Kind::Unless => "`unless`",
        Kind::If => "`if`",
        Kind::Then => "`then`",
        Kind::Else => "`else`",
        Kind::Cedar => "`__cedar`",
        Kind::True => "`true`",
        Kind::False => "`false`",
        Kind::In => "`in`",
        Kind::Has => "`has`",
        Kind::Like => "`like`",
        Kind::Is => "`is`",
        Kind::PrincipalSlot => "`?principal`",
        Kind::ResourceSlot => "`?resource`",
        Kind::OtherSlot => "another slot",
        Kind::At => "`@`",
        Kind::OpenParen => "`(`",
        Kind::CloseParen => "`)`",
        Kind::OpenBracket => "`[`",
        Kind::CloseBracket => "`]`",
        Kind::OpenBrace => "`{`",
        Kind::CloseBrace => "`}`",
        Kind::Comma => "`,`",
        Kind::Semicolon => "`;`",
        Kind::Colon => "`:`",
        Kind::Colons => "`::`",
        Kind::Dot => "`.`",
        Kind::Or => "`||`",
        Kind::And => "`&&`",
        Kind::Equal => "`==`",
        Kind::NotEqual => "`!=`",
        Kind::Less => "`<`",
        Kind::LessEqual => "`<=`",
        Kind::Greater => "`>`",
        Kind::GreaterEqual => "`>=`",
        Kind::Bang => "`!`",
        Kind::Plus => "`+`",
        Kind::Minus => "`-`",
        Kind::Star => "`*`",
        Kind::UnclosedText => "a text without its closing quote",
        Kind::Unreadable => "a character that begins no token",
        Kind::End => "the end",
    }
}

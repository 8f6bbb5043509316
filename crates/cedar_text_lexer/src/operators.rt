//! Operators and brackets.
ghost use Rattle.std.specs.Prelude.{◌≡◌};
ghost use Rattle.cedar_text_lexer.specs.Operators as Operators;

use crate::tokens::Kind;

/// The operator or bracket that these bytes are, if any.
pub(crate) fn operator_kind(word: &[u8]) -> Option<Kind>
    ensures { result ≡ Operators.operator_kind word.now }
{
    match word {
        b"@" => Some(Kind::At),
        b"(" => Some(Kind::OpenParen),
        b")" => Some(Kind::CloseParen),
        b"[" => Some(Kind::OpenBracket),
        b"]" => Some(Kind::CloseBracket),
        b"{" => Some(Kind::OpenBrace),
        b"}" => Some(Kind::CloseBrace),
        b"," => Some(Kind::Comma),
        b";" => Some(Kind::Semicolon),
        b":" => Some(Kind::Colon),
        b"::" => Some(Kind::Colons),
        b"." => Some(Kind::Dot),
        b"||" => Some(Kind::Or),
        b"&&" => Some(Kind::And),
        b"==" => Some(Kind::Equal),
        b"!=" => Some(Kind::NotEqual),
        b"<" => Some(Kind::Less),
        b"<=" => Some(Kind::LessEqual),
        b">" => Some(Kind::Greater),
        b">=" => Some(Kind::GreaterEqual),
        b"!" => Some(Kind::Bang),
        b"+" => Some(Kind::Plus),
        b"-" => Some(Kind::Minus),
        b"*" => Some(Kind::Star),
        _ => None,
    }
}

//! Words: identifiers, keywords and slots.
ghost use Rattle.std.specs.Prelude.{◌≡◌};
ghost use Rattle.std.specs.List.{list_all};
ghost use Rattle.cedar_text_lexer.specs.Words as Words;

use crate::scanning;
use crate::tokens::Kind;

/// Whether the text is a word: a letter or `_`, and then letters, digits and `_`.
pub fn is_word(text: &str) -> bool
    ensures { result ≡ Words.is_word text.now }
{
    let bytes = text.as_bytes();
    if bytes.is_empty() {
        return false;
    }
    starts_word(bytes[0]) && are_word_bytes(&bytes[1..])
}

fn are_word_bytes(bytes: &[u8]) -> bool
    ensures { result ≡ list_all Words.is_word_byte bytes.now }
{
    bytes.iter().all(|byte| is_word_byte(*byte))
}

/// Whether the text is an identifier: one word, and none that is reserved.
#[tactic(auto, unfolding(crate::specs::Words::is_identifier))]
pub fn is_identifier(text: &str) -> bool
    ensures { result ≡ Words.is_identifier text.now }
{
    is_word(text) && word_kind(text).is_identifier()
}

/// Whether the bytes begin with a reserved word, which ends at the first byte that no word goes on with.
pub fn begins_reserved(bytes: &[u8]) -> bool
    ensures { result ≡ Words.begins_reserved bytes.now }
{
    let end = scanning::word_end(bytes, 0);
    match str::from_utf8(&bytes[..end]) {
        Ok(word) => word_kind(word).is_reserved(),
        Err(_) => false,
    }
}

/// A letter or `_`.
pub fn starts_word(byte: u8) -> bool
    ensures { result ≡ Words.starts_word byte }
{
    byte.is_ascii_alphabetic() || byte == b'_'
}

/// A letter, a digit or `_`.
pub fn is_word_byte(byte: u8) -> bool
    ensures { result ≡ Words.is_word_byte byte }
{
    byte.is_ascii_alphanumeric() || byte == b'_'
}

/// The keyword that the word is, or else an identifier.
pub(crate) fn word_kind(word: &str) -> Kind
    ensures { result ≡ Words.word_kind word.now }
{
    match word {
        "permit" => Kind::Permit,
        "forbid" => Kind::Forbid,
        "when" => Kind::When,
        "unless" => Kind::Unless,
        "principal" => Kind::Principal,
        "action" => Kind::Action,
        "resource" => Kind::Resource,
        "context" => Kind::Context,
        "true" => Kind::True,
        "false" => Kind::False,
        "if" => Kind::If,
        "then" => Kind::Then,
        "else" => Kind::Else,
        "in" => Kind::In,
        "has" => Kind::Has,
        "like" => Kind::Like,
        "is" => Kind::Is,
        "__cedar" => Kind::Cedar,
        _ => Kind::Identifier,
    }
}

/// The slot that the word behind `?` names, or else one that the language doesn't have.
pub(crate) fn slot_kind(word: &str) -> Kind
    ensures { result ≡ Words.slot_kind word.now }
{
    match word {
        "principal" => Kind::PrincipalSlot,
        "resource" => Kind::ResourceSlot,
        _ => Kind::OtherSlot,
    }
}

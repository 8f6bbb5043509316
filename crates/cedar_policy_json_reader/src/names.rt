//! Names made of words.
ghost use Rattle.std.specs.Prelude.{◌≡◌, true};
ghost use Rattle.cedar_policy_json_reader.specs.Words as Words;

use cedar_text_lexer::words::{begins_reserved, is_word_byte, starts_word};

/// Where a name is read: at a word that is to begin, inside a word, or behind the first of two colons.
#[derive(Clone, Copy)]
pub(crate) enum Place {
    AtWord,
    InWord,
    AtColon,
}

/// Whether the text is a name: words with `::` between them, none of which is reserved, as `__cedar` is in names.
pub(crate) fn is_name(text: &str) -> bool
    ensures { result ≡ Words.is_name text.now }
{
    are_words(text.as_bytes()) && has_no_reserved(text.as_bytes())
}

// Whether the bytes are words with `::` between them.
fn are_words(bytes: &[u8]) -> bool
    ensures { result ≡ Words.are_words bytes.now }
{
    let mut place = Place::AtWord;
    'bytes: for byte in bytes {
        match behind(place, *byte) {
            Some(next) => place = next,
            None => return false,
        }
    }
    match place {
        Place::AtWord => false,
        Place::InWord => true,
        Place::AtColon => false,
    }
}

// Where the name is read behind this byte, if it can stand there.
fn behind(place: Place, byte: u8) -> Option<Place>
    ensures { result ≡ Words.behind place byte }
{
    match place {
        Place::AtWord => if starts_word(byte) {
            Some(Place::InWord)
        } else {
            None
        },
        Place::InWord => if is_word_byte(byte) {
            Some(Place::InWord)
        } else if byte == b':' {
            Some(Place::AtColon)
        } else {
            None
        },
        Place::AtColon => if byte == b':' {
            Some(Place::AtWord)
        } else {
            None
        },
    }
}

// Whether none of the words that begin in the bytes is reserved, where one begins at the first byte.
fn has_no_reserved(bytes: &[u8]) -> bool
    ensures { result ≡ Words.has_no_reserved true bytes.now }
{
    let mut begins = true;
    let mut rest = bytes;
    'bytes: while let Some((first, others)) = rest.split_first() {
        if begins && begins_reserved_in_names(rest) {
            return false;
        }
        begins = *first == b':';
        rest = others;
    }
    true
}

// Whether the bytes begin with a word that is reserved in names: one of the language, or `__cedar`.
fn begins_reserved_in_names(bytes: &[u8]) -> bool
    ensures { result ≡ Words.begins_reserved_in_names bytes.now }
{
    begins_reserved(bytes) || begins_cedar(bytes)
}

// Whether the bytes begin with the word `__cedar`, which ends at the first byte that no word goes on with.
fn begins_cedar(bytes: &[u8]) -> bool
    ensures { result ≡ Words.begins_cedar bytes.now }
{
    match bytes.strip_prefix(b"__cedar") {
        Some(rest) => ends_word(rest),
        None => false,
    }
}

fn ends_word(rest: &[u8]) -> bool
    ensures { result ≡ Words.ends_word rest.now }
{
    match rest.first() {
        Some(byte) => !is_word_byte(*byte),
        None => true,
    }
}

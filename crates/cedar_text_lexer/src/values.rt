//! What tokens stand for: words, numbers, texts and patterns.
ghost use Rattle.std.specs.Prelude.{◌≡◌, ◌+◌, ◌^◌, ◌<◌, ◌≤◌, true, false, length, string_bytes};
ghost use Rattle.std.specs.Prelude.{IfOk, IfErr, OnErr, IfSome, IfNone};
ghost use Rattle.std.specs.Str.Parse.{digits_value};
ghost use Rattle.cedar_text_lexer.specs.declared.tokens.Kind.TheVariants as kind;
ghost use Rattle.cedar_text_lexer.specs.declared.errors.Expected.TheVariants as wanted;
ghost use Rattle.cedar_text_lexer.specs.declared.errors.ReadError.TheVariants as error;
ghost use Rattle.cedar_text_lexer.specs.Values.{word_of, inside_of, Stands, IsTextOf, IsPatternOf, HasQuotes, IsRefusal};

use crate::errors::{Expected, ReadError};
use crate::tokens::{Kind, Token};
use crate::{escaping, pieces};
use std::alloc::Global;

/// A part of the pattern of `like`.
#[derive(Clone, Copy, PartialEq, Eq)]
pub enum PatternPart {
    /// This character.
    Char(char),
    /// `*`, which stands for any characters.
    Wildcard,
}

/// The token's own bytes.
pub fn word<'a>(text: &'a str, token: Token) -> &'a str
    requires { Stands text.now token }
    ensures { result.now ≡ word_of text.now token }
{
    &text[token.start..token.end]
}

/// The number that the token writes.
///
/// # Errors
///
/// The number is larger than 2 ^ 63: no long is it, or its negation. The error is where the token stands.
pub fn number(text: &str, token: Token) -> Result<u64, ReadError>
    requires { Stands text.now token }
    ensures value { IfOk result (λ n. n ≡ digits_value 10 (word_of text.now token)) }
    ensures long { IfOk result (λ n. n ≤ 2 ^ 63) }
    ensures large { OnErr result (2 ^ 63 < digits_value 10 (word_of text.now token)) }
    ensures refused { IfErr result (λ e. e ≡ error.Expected wanted.Long token.kind token.start token.end) }
{
    match decimal(word(text, token).as_bytes()) {
        Some(value) => Ok(value),
        None => Err(ReadError::Expected {
            what: Expected::Long,
            found: token.kind,
            start: token.start,
            end: token.end,
        }),
    }
}

const LARGEST: u64 = 9_223_372_036_854_775_808;

// The number that the digits write, up to 2 ^ 63.
fn decimal(bytes: &[u8]) -> Option<u64>
    ensures value { IfSome result (λ n. n ≡ digits_value 10 bytes.now) }
    ensures long { IfSome result (λ n. n ≤ 2 ^ 63) }
    ensures large { IfNone result (2 ^ 63 < digits_value 10 bytes.now) }
{
    let mut value = 0;
    for i in 0..bytes.len() {
        let digit = u64::from(escaping::digit(bytes[i]));
        if value > (LARGEST - digit) / 10 {
            return None;
        }
        value = value * 10 + digit;
    }
    Some(value)
}

/// The text that the token, a text in quotes, stands for.
///
/// # Errors
///
/// An escape that the language doesn't have: the error is where its backslash and the character behind it stand. Out
/// of memory.
pub fn text_value(alloc: Global, text: &str, token: Token) -> Result<String, ReadError>
    requires stands { Stands text.now token }
    requires is { token.kind ≡ kind.Text }
    ensures value { IfOk result (λ value. IsTextOf (inside_of (word_of text.now token)) (string_bytes value)) }
    ensures refused { IfErr result (IsRefusal false (inside_of (word_of text.now token)) (token.start + 1)) }
{
    unescape_text(alloc, inside(word(text, token)), token.start + 1)
}

/// The parts of the pattern that the token, a text in quotes, stands for.
///
/// # Errors
///
/// An escape that patterns don't have: the error is where its backslash and the character behind it stand. Out
/// of memory.
pub fn pattern(alloc: Global, text: &str, token: Token) -> Result<Vec<PatternPart>, ReadError>
    requires stands { Stands text.now token }
    requires is { token.kind ≡ kind.Text }
    ensures value { IfOk result (λ parts. IsPatternOf (inside_of (word_of text.now token)) parts.items) }
    ensures refused { IfErr result (IsRefusal true (inside_of (word_of text.now token)) (token.start + 1)) }
{
    parts(alloc, inside(word(text, token)), token.start + 1)
}

// What stands between the quotes.
fn inside(word: &str) -> &str
    requires { HasQuotes word.now }
    ensures value { result.now ≡ inside_of word.now }
    ensures shorter { length result.now + 2 ≡ length word.now }
{
    &word[1..word.len() - 1]
}

// `at` is the byte at which these begin.
fn unescape_text(alloc: Global, inside: &str, at: usize) -> Result<String, ReadError>
    requires { at + length inside.now < 2 ^ 64 }
    ensures value { IfOk result (λ value. IsTextOf inside.now (string_bytes value)) }
    ensures refused { IfErr result (IsRefusal false inside.now at) }
{
    let mut value = String::new(alloc);
    let mut rest = inside;
    while let Some((first, after)) = pieces::split_first(rest) {
        match pieces::piece(false, first, rest, after) {
            Ok(piece) => {
                value.push(piece.char)?;
                rest = &rest[piece.len..];
            }
            Err(len) => return Err(refuse_escape(at + (inside.len() - rest.len()), len)),
        }
    }
    Ok(value)
}

fn parts(alloc: Global, inside: &str, at: usize) -> Result<Vec<PatternPart>, ReadError>
    requires { at + length inside.now < 2 ^ 64 }
    ensures value { IfOk result (λ parts. IsPatternOf inside.now parts.items) }
    ensures refused { IfErr result (IsRefusal true inside.now at) }
{
    let mut parts = Vec::new(alloc);
    let mut rest = inside;
    while let Some((first, after)) = pieces::split_first(rest) {
        match pieces::piece(true, first, rest, after) {
            Ok(piece) => {
                parts.push(pieces::part(piece))?;
                rest = &rest[piece.len..];
            }
            Err(len) => return Err(refuse_escape(at + (inside.len() - rest.len()), len)),
        }
    }
    Ok(parts)
}

// So many bytes from here on are no escape.
fn refuse_escape(start: usize, len: usize) -> ReadError
    requires { start + len < 2 ^ 64 }
    ensures { result ≡ error.Expected wanted.Escape kind.Text start (start + len) }
{
    ReadError::Expected {
        what: Expected::Escape,
        found: Kind::Text,
        start,
        end: start + len,
    }
}

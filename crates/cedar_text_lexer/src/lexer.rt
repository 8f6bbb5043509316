//! Cuts a text into tokens.
ghost use Rattle.std.specs.Prelude.{◌≡◌, ◌==◌, ◌<◌, ◌&&◌, not, length, All, IfOk, IfSome, IfNone, IsFalse, IsTrue, IsCharBoundary};
ghost use Rattle.std.specs.Char.{is_ascii_digit, is_whitespace};
ghost use Rattle.cedar_text_lexer.specs.Scanning.{begins_slot, begins_comment, begins_operator, begins_token, begins_with};
ghost use Rattle.cedar_text_lexer.specs.Scanning.{begins_bare_return, double_of, single_of};
ghost use Rattle.cedar_text_lexer.specs.Tokens.{IsTokens, IsCut};
ghost use Rattle.cedar_text_lexer.specs.Values.{Stands};
ghost use Rattle.cedar_text_lexer.specs.Words.{starts_word};

use crate::tokens::{Kind, Token};
use crate::{operators, scanning, words};
use std::alloc::{AllocError, Global};

/// The tokens of the text, blanks and comments left out, and one of kind `End` behind them. What can't be read is a
/// token too, of kind `Unreadable`, `UnclosedText` or `OtherSlot`.
///
/// # Errors
///
/// Out of memory.
pub fn tokens(alloc: Global, text: &str) -> Result<Vec<Token>, AllocError>
    ensures tokens { IfOk result (λ tokens. IsTokens 0 text.now tokens.items) }
    ensures stand { IfOk result (λ tokens. All (Stands text.now) tokens.items) }
{
    let mut tokens = Vec::new(alloc);
    let mut rest = text;
    let mut start = 0;
    while !rest.is_empty() {
        let cut = cut_front(rest);
        let end = start + cut.len;
        match cut.kind {
            Some(kind) => tokens.push(Token { kind, start, end })?,
            None => {}
        }
        rest = &rest[cut.len..];
        start = end;
    }
    tokens.push(Token {
        kind: Kind::End,
        start,
        end: start,
    })?;
    Ok(tokens)
}

// What a text begins with: a token of this kind, or none, and how many bytes it has.
#[derive(Clone, Copy)]
struct Cut {
    kind: Option<Kind>,
    len: usize,
}

fn cut_front(rest: &str) -> Cut
    requires { 0 < length rest.now }
    ensures some { 0 < result.len }
    ensures within { IsCharBoundary rest.now result.len }
    ensures front { IsCut rest.now result.kind result.len }
{
    let bytes = rest.as_bytes();
    let first = bytes[0];
    if words::starts_word(first) {
        word(rest)
    } else if first.is_ascii_digit() {
        number(rest)
    } else if first == b'"' {
        text(rest)
    } else if begins_slot(bytes) {
        slot(rest)
    } else if begins_comment(bytes) {
        comment(rest)
    } else {
        match operator(rest) {
            Some(cut) => cut,
            None => character(rest),
        }
    }
}

fn word(rest: &str) -> Cut
    requires { IsTrue (begins_with starts_word rest.now) }
    ensures some { 0 < result.len }
    ensures within { IsCharBoundary rest.now result.len }
    ensures front { IsCut rest.now result.kind result.len }
{
    let bytes = rest.as_bytes();
    let len = scanning::word_end(bytes, 1);
    Cut {
        kind: Some(words::word_kind(&rest[..len])),
        len,
    }
}

fn number(rest: &str) -> Cut
    requires { IsTrue (begins_with is_ascii_digit rest.now) }
    ensures some { 0 < result.len }
    ensures within { IsCharBoundary rest.now result.len }
    ensures front { IsCut rest.now result.kind result.len }
{
    Cut {
        kind: Some(Kind::Number),
        len: scanning::number_end(rest.as_bytes(), 1),
    }
}

fn text(rest: &str) -> Cut
    requires { IsTrue (begins_with (λ b. b == 34) rest.now) }
    ensures some { 0 < result.len }
    ensures within { IsCharBoundary rest.now result.len }
    ensures front { IsCut rest.now result.kind result.len }
{
    match scanning::closing_quote(rest.as_bytes(), 1) {
        Some(quote) => Cut {
            kind: Some(Kind::Text),
            len: quote + 1,
        },
        None => Cut {
            kind: Some(Kind::UnclosedText),
            len: rest.len(),
        },
    }
}

fn begins_slot(bytes: &[u8]) -> bool
    ensures { result ≡ begins_slot bytes.now }
{
    bytes.len() > 1 && bytes[0] == b'?' && words::starts_word(bytes[1])
}

fn slot(rest: &str) -> Cut
    requires { IsTrue (begins_slot rest.now) }
    ensures some { 0 < result.len }
    ensures within { IsCharBoundary rest.now result.len }
    ensures front { IsCut rest.now result.kind result.len }
{
    let bytes = rest.as_bytes();
    let len = scanning::word_end(bytes, 2);
    Cut {
        kind: Some(words::slot_kind(&rest[1..len])),
        len,
    }
}

fn begins_comment(bytes: &[u8]) -> bool
    ensures { result ≡ begins_comment bytes.now }
{
    bytes.len() > 1 && bytes[0] == b'/' && bytes[1] == b'/'
}

fn comment(rest: &str) -> Cut
    requires { IsTrue (begins_comment rest.now) }
    ensures some { 0 < result.len }
    ensures within { IsCharBoundary rest.now result.len }
    ensures front { IsCut rest.now result.kind result.len }
{
    Cut {
        kind: None,
        len: scanning::line_end(rest.as_bytes(), 2),
    }
}

// The longest operator with which the text begins.
fn operator(rest: &str) -> Option<Cut>
    ensures some { IfSome result (λ cut. 0 < cut.len) }
    ensures within { IfSome result (λ cut. IsCharBoundary rest.now cut.len) }
    ensures front { IfSome result (λ cut. IsCut rest.now cut.kind cut.len) }
    ensures none { IfNone result (IsFalse (begins_operator rest.now)) }
{
    let bytes = rest.as_bytes();
    match double_operator(bytes) {
        Some(kind) => Some(Cut {
            kind: Some(kind),
            len: 2,
        }),
        None => match single_operator(bytes) {
            Some(kind) => Some(Cut {
                kind: Some(kind),
                len: 1,
            }),
            None => None,
        },
    }
}

fn double_operator(bytes: &[u8]) -> Option<Kind>
    ensures { result ≡ double_of bytes.now }
{
    if bytes.len() > 1 {
        operators::operator_kind(&bytes[..2])
    } else {
        None
    }
}

fn single_operator(bytes: &[u8]) -> Option<Kind>
    ensures { result ≡ single_of bytes.now }
{
    if bytes.len() > 0 {
        operators::operator_kind(&bytes[..1])
    } else {
        None
    }
}

// The character with which the text begins is a blank, and no bare carriage return.
fn is_blank(c: char, rest: &str) -> bool
    ensures { result ≡ (is_whitespace c && not (begins_bare_return rest.now)) }
{
    c.is_whitespace() && !scanning::begins_bare_return(rest.as_bytes())
}

// A blank, or a character with which no token begins.
fn character(rest: &str) -> Cut
    requires some { 0 < length rest.now }
    requires none { IsFalse (begins_token rest.now) }
    ensures some { 0 < result.len }
    ensures within { IsCharBoundary rest.now result.len }
    ensures front { IsCut rest.now result.kind result.len }
{
    match rest.chars().next() {
        Some(c) => Cut {
            kind: if is_blank(c, rest) {
                None
            } else {
                Some(Kind::Unreadable)
            },
            len: c.len_utf8(),
        },
        None => unreachable!(),
    }
}

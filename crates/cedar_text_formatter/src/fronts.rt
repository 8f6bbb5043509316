//! What a text begins with: a blank, a comment or a token.
ghost use Rattle.std.specs.Prelude.{◌≡◌, ◌+◌, ◌-◌, ◌≤◌, ◌<◌, IsFalse, IsTrue, length, take, drop, IsCharBoundary, ◌≢◌};
ghost use Rattle.std.specs.List.{prefix_len};
ghost use Rattle.cedar_text_lexer.specs.Scanning.{begins_comment, is_line_byte};
ghost use Rattle.cedar_text_lexer.specs.Sequence.{start_at};
ghost use Rattle.cedar_text_lexer.specs.Tokens.{IsTokens};
ghost use Rattle.cedar_text_formatter.specs.Fronts.{IsFront, BeginsWithChar};
ghost use Rattle.cedar_text_formatter.specs.Pieces.{are_readable};

use cedar_text_lexer::sequence::token_at;
use cedar_text_lexer::tokens::{Kind, Token};

/// What a text begins with.
#[derive(Clone, Copy)]
pub(crate) enum Front {
    Blank,
    Comment,
    Token(Kind),
}

/// What a text begins with, how many bytes it has, and how many tokens, none or one.
#[derive(Clone, Copy)]
pub(crate) struct Cut {
    pub(crate) front: Front,
    pub(crate) len: usize,
    pub(crate) count: usize,
}

/// What the rest of a text begins with, which begins at byte `at` and has these tokens left.
pub(crate) fn cut_front(rest: &str, at: usize, left: &[Token]) -> Cut
    requires some { 0 < length rest.now }
    requires tokens { IsTokens at rest.now left.now }
    requires readable { IsTrue (are_readable left.now) }
    ensures some { 0 < result.len }
    ensures within { IsCharBoundary rest.now result.len }
    ensures count { result.count ≤ length left.now }
    ensures front { IsFront result.front (take result.len rest.now) (drop result.len rest.now) }
    ensures tokens { IsTokens (at + result.len) (drop result.len rest.now) (drop result.count left.now) }
{
    if token_at(left, 0).start == at {
        token(rest, at, left)
    } else if begins_comment(rest.as_bytes()) {
        comment(rest, at, left)
    } else {
        blank(rest, at, left)
    }
}

/// The tokens behind the first so many.
pub(crate) fn behind<'a>(left: &'a [Token], count: usize) -> &'a [Token]
    requires { count ≤ length left.now }
    ensures { result.now ≡ drop count left.now }
{
    &left[count..]
}

// The rest begins with its first token.
fn token(rest: &str, at: usize, left: &[Token]) -> Cut
    requires some { 0 < length rest.now }
    requires tokens { IsTokens at rest.now left.now }
    requires readable { IsTrue (are_readable left.now) }
    requires here { start_at left.now 0 ≡ at }
    ensures some { 0 < result.len }
    ensures within { IsCharBoundary rest.now result.len }
    ensures count { result.count ≤ length left.now }
    ensures front { IsFront result.front (take result.len rest.now) (drop result.len rest.now) }
    ensures tokens { IsTokens (at + result.len) (drop result.len rest.now) (drop result.count left.now) }
{
    let token = token_at(left, 0);
    Cut {
        front: Front::Token(token.kind),
        len: token.end.saturating_sub(at),
        count: 1,
    }
}

// The rest begins with a comment.
fn comment(rest: &str, at: usize, left: &[Token]) -> Cut
    requires tokens { IsTokens at rest.now left.now }
    requires later { start_at left.now 0 ≢ at }
    requires is { IsTrue (begins_comment rest.now) }
    ensures some { 0 < result.len }
    ensures within { IsCharBoundary rest.now result.len }
    ensures count { result.count ≤ length left.now }
    ensures front { IsFront result.front (take result.len rest.now) (drop result.len rest.now) }
    ensures tokens { IsTokens (at + result.len) (drop result.len rest.now) (drop result.count left.now) }
{
    Cut {
        front: Front::Comment,
        len: line_end(rest.as_bytes(), 2),
        count: 0,
    }
}

// The rest begins with a blank.
fn blank(rest: &str, at: usize, left: &[Token]) -> Cut
    requires some { 0 < length rest.now }
    requires tokens { IsTokens at rest.now left.now }
    requires later { start_at left.now 0 ≢ at }
    requires no { IsFalse (begins_comment rest.now) }
    ensures some { 0 < result.len }
    ensures within { IsCharBoundary rest.now result.len }
    ensures count { result.count ≤ length left.now }
    ensures front { IsFront result.front (take result.len rest.now) (drop result.len rest.now) }
    ensures tokens { IsTokens (at + result.len) (drop result.len rest.now) (drop result.count left.now) }
{
    Cut {
        front: Front::Blank,
        len: first_len(rest),
        count: 0,
    }
}

// How many bytes the first character has.
fn first_len(rest: &str) -> usize
    requires { 0 < length rest.now }
    ensures { BeginsWithChar rest.now result }
{
    match rest.chars().next() {
        Some(c) => c.len_utf8(),
        None => unreachable!(),
    }
}

// `//`
fn begins_comment(bytes: &[u8]) -> bool
    ensures { result ≡ begins_comment bytes.now }
{
    bytes.len() > 1 && bytes[0] == b'/' && bytes[1] == b'/'
}

// The first byte from `from` on that ends a line, or the end.
fn line_end(bytes: &[u8], from: usize) -> usize
    requires { from ≤ length bytes.now }
    ensures { result ≡ from + prefix_len is_line_byte (drop from bytes.now) }
{
    for i in from..bytes.len() {
        if !is_line_byte(bytes[i]) {
            return i;
        }
    }
    bytes.len()
}

// Neither `\n` nor `\r`.
fn is_line_byte(byte: u8) -> bool
    ensures { result ≡ is_line_byte byte }
{
    byte != b'\n' && byte != b'\r'
}

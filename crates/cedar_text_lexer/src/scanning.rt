//! How far a word, a number, a comment and a text go on.
ghost use Rattle.std.specs.Prelude.{◌≡◌, ◌+◌, ◌≤◌, false, length, drop, option_map};
ghost use Rattle.std.specs.List.{prefix_len};
ghost use Rattle.std.specs.Char.{is_ascii_digit};
ghost use Rattle.cedar_text_lexer.specs.Words.{is_word_byte};
ghost use Rattle.cedar_text_lexer.specs.Scanning.{begins_bare_return, is_line_byte, closes_text, escapes, quote_from};

use crate::words;

/// The first byte from `from` on that no word goes on with, or the end.
pub(crate) fn word_end(bytes: &[u8], from: usize) -> usize
    requires { from ≤ length bytes.now }
    ensures { result ≡ from + prefix_len is_word_byte (drop from bytes.now) }
{
    for i in from..bytes.len() {
        if !words::is_word_byte(bytes[i]) {
            return i;
        }
    }
    bytes.len()
}

/// The first byte from `from` on that is no digit, or the end.
pub(crate) fn number_end(bytes: &[u8], from: usize) -> usize
    requires { from ≤ length bytes.now }
    ensures { result ≡ from + prefix_len is_ascii_digit (drop from bytes.now) }
{
    for i in from..bytes.len() {
        if !bytes[i].is_ascii_digit() {
            return i;
        }
    }
    bytes.len()
}

/// The first byte from `from` on that ends a line, or the end.
pub(crate) fn line_end(bytes: &[u8], from: usize) -> usize
    requires { from ≤ length bytes.now }
    ensures { result ≡ from + prefix_len is_line_byte (drop from bytes.now) }
{
    for i in from..bytes.len() {
        if !is_line_byte(bytes[i]) {
            return i;
        }
    }
    bytes.len()
}

/// The bytes begin with a carriage return that no line feed follows.
pub(crate) fn begins_bare_return(bytes: &[u8]) -> bool
    ensures { result ≡ begins_bare_return bytes.now }
{
    bytes.len() > 0 && bytes[0] == b'\r' && !(bytes.len() > 1 && bytes[1] == b'\n')
}

// Neither `\n` nor `\r`.
fn is_line_byte(byte: u8) -> bool
    ensures { result ≡ is_line_byte byte }
{
    byte != b'\n' && byte != b'\r'
}

/// The first quote from `from` on that no backslash escapes.
pub(crate) fn closing_quote(bytes: &[u8], from: usize) -> Option<usize>
    requires { from ≤ length bytes.now }
    ensures { result ≡ option_map (λ n. from + n) (quote_from false (drop from bytes.now)) }
{
    let mut is_escaped = false;
    for i in from..bytes.len() {
        if closes_text(is_escaped, bytes[i]) {
            return Some(i);
        }
        is_escaped = escapes(is_escaped, bytes[i]);
    }
    None
}

// A quote that no backslash escapes.
fn closes_text(is_escaped: bool, byte: u8) -> bool
    ensures { result ≡ closes_text is_escaped byte }
{
    !is_escaped && byte == b'"'
}

// A backslash that none escapes.
fn escapes(is_escaped: bool, byte: u8) -> bool
    ensures { result ≡ escapes is_escaped byte }
{
    !is_escaped && byte == b'\\'
}

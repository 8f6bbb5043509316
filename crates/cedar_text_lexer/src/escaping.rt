//! Reads escapes.
ghost use Rattle.std.specs.Prelude.{◌≡◌, ◌+◌, ◌≤◌, ◌<◌, length, drop, take};
ghost use Rattle.std.specs.List.{prefix_len};
ghost use Rattle.std.specs.Char.{digit_value};
ghost use Rattle.std.specs.Str.Parse.{digits_value};
ghost use Rattle.cedar_text_lexer.specs.Escapes as Escapes;

use crate::escapes::Escape;

// The escape that these bytes, which stand behind a backslash, begin with.
#[tactic(auto, unfolding(crate::specs::Escapes::escape_at))]
fn escape(bytes: &[u8]) -> Option<Escape>
    ensures { result ≡ Escapes.escape_at bytes.now }
{
    if bytes.len() == 0 {
        return None;
    }
    if bytes[0] == b'x' {
        return hex(&bytes[1..]);
    }
    if bytes[0] == b'u' {
        return unicode(&bytes[1..]);
    }
    match simple(bytes[0]) {
        Some(char) => Some(Escape { char, len: 1 }),
        None => None,
    }
}

/// The escape that these bytes, which stand behind a backslash, begin with, in a pattern or else in a text: a pattern
/// has the escape `\*` as well.
#[tactic(auto, unfolding(crate::specs::Escapes::escape_in))]
pub(crate) fn escape_in(in_pattern: bool, bytes: &[u8]) -> Option<Escape>
    ensures { result ≡ Escapes.escape_in in_pattern bytes.now }
{
    if in_pattern && bytes.len() > 0 && bytes[0] == b'*' {
        return Some(Escape { char: '*', len: 1 });
    }
    escape(bytes)
}

/// The value of a digit or a letter as a digit, and 36 for each other byte.
pub(crate) fn digit(byte: u8) -> u32
    ensures value { result ≡ digit_value byte }
    ensures small { result ≤ 36 }
{
    char::from(byte).to_digit(36).unwrap_or(36)
}

// The character for which a backslash and this one stand.
fn simple(byte: u8) -> Option<char>
    ensures { result ≡ Escapes.simple_of byte }
{
    match byte {
        b'n' => Some('\n'),
        b'r' => Some('\r'),
        b't' => Some('\t'),
        b'0' => Some('\0'),
        b'\\' => Some('\\'),
        b'\'' => Some('\''),
        b'"' => Some('"'),
        _ => None,
    }
}

fn is_hex(byte: u8) -> bool
    ensures { result ≡ Escapes.is_hex byte }
{
    digit(byte) < 16
}

// Behind `\x`: two hexadecimal digits, up to 7F.
#[tactic(auto, unfolding(crate::specs::Escapes::hex_at))]
fn hex(bytes: &[u8]) -> Option<Escape>
    ensures { result ≡ Escapes.hex_at bytes.now }
{
    if bytes.len() > 1 {
        hex_pair(bytes[0], bytes[1])
    } else {
        None
    }
}

fn hex_pair(a: u8, b: u8) -> Option<Escape>
    ensures { result ≡ Escapes.hex_of a b }
{
    if !is_hex(a) || !is_hex(b) {
        return None;
    }
    let value = digit(a) * 16 + digit(b);
    match char::from_u32(value) {
        Some(char) => if value < 128 {
            Some(Escape { char, len: 3 })
        } else {
            None
        },
        None => None,
    }
}

// Behind `\u`: one to six hexadecimal digits in braces.
#[tactic(auto, unfolding(crate::specs::Escapes::unicode_at))]
fn unicode(bytes: &[u8]) -> Option<Escape>
    ensures { result ≡ Escapes.unicode_at bytes.now }
{
    if bytes.len() > 0 && bytes[0] == b'{' {
        read_braced(&bytes[1..])
    } else {
        None
    }
}

#[tactic(auto, unfolding(crate::specs::Escapes::digits_at))]
fn read_braced(bytes: &[u8]) -> Option<Escape>
    ensures { result ≡ Escapes.digits_at bytes.now (prefix_len Escapes.is_hex bytes.now) }
{
    let len = hex_end(bytes);
    if len == 0 || len > 6 || len == bytes.len() || bytes[len] != b'}' {
        return None;
    }
    match char::from_u32(hex_value(&bytes[..len])) {
        Some(char) => Some(Escape { char, len: len + 3 }),
        None => None,
    }
}

// The first byte that is no hexadecimal digit, or the end.
fn hex_end(bytes: &[u8]) -> usize
    ensures end { result ≡ prefix_len Escapes.is_hex bytes.now }
    ensures within { result ≤ length bytes.now }
{
    for i in 0..bytes.len() {
        if !is_hex(bytes[i]) {
            return i;
        }
    }
    bytes.len()
}

// The number that the digits write.
fn hex_value(bytes: &[u8]) -> u32
    requires { length bytes.now ≤ 6 }
    ensures { result ≡ digits_value 16 bytes.now }
{
    let mut value = 0;
    for i in 0..bytes.len() {
        value = value * 16 + digit(bytes[i]);
    }
    value
}

//! Reads the characters of texts and patterns, one by one.
ghost use Rattle.std.specs.Prelude.{◌≡◌, ◌+◌, ◌<◌, ◌++◌, length, IfOk, IfErr, MatchOption, IsCharBoundary, encode_utf8};
ghost use Rattle.cedar_text_lexer.specs.Scanning.{begins_bare_return};
ghost use Rattle.cedar_text_lexer.specs.Values.{IsPiece, IsNoPiece, part_of};

use crate::escapes::Piece;
use crate::values::PatternPart;
use crate::{escaping, scanning};

/// The character with which the text begins, and what is behind it.
pub(crate) fn split_first(rest: &str) -> Option<(char, &str)>
    ensures { MatchOption result (length rest.now ≡ 0) (λ r. rest.now ≡ encode_utf8 r.0 ++ r.1.now) }
{
    let mut chars = rest.chars();
    match chars.next() {
        Some(c) => Some((c, chars.as_str())),
        None => None,
    }
}

/// The character with which the text begins or for which the escape stands with which it begins; `first` is its first
/// character, and `after` what is behind that one.
///
/// # Errors
///
/// A backslash and a character that are no escape, or a carriage return that no line feed follows: how many bytes they
/// have.
pub(crate) fn piece(in_pattern: bool, first: char, rest: &str, after: &str) -> Result<Piece, usize>
    requires { rest.now ≡ encode_utf8 first ++ after.now }
    ensures some { IfOk result (λ p. 0 < p.len) }
    ensures within { IfOk result (λ p. IsCharBoundary rest.now p.len) }
    ensures piece { IfOk result (λ p. IsPiece in_pattern rest.now p) }
    ensures none { IfErr result (λ n. IsNoPiece in_pattern rest.now n) }
{
    if first != '\\' {
        if begins_bare_return(rest) {
            return Err(1);
        }
        return Ok(Piece {
            char: first,
            is_escaped: false,
            len: first.len_utf8(),
        });
    }
    match escaping::escape_in(in_pattern, after.as_bytes()) {
        Some(escape) => Ok(Piece {
            char: escape.char,
            is_escaped: true,
            len: escape.len + 1,
        }),
        None => match split_first(after) {
            Some((next, _)) => Err(next.len_utf8() + 1),
            None => Err(1),
        },
    }
}

fn begins_bare_return(rest: &str) -> bool
    ensures { result ≡ begins_bare_return rest.now }
{
    scanning::begins_bare_return(rest.as_bytes())
}

/// What the character is in a pattern.
pub(crate) fn part(piece: Piece) -> PatternPart
    ensures { result ≡ part_of piece }
{
    if piece.is_escaped {
        PatternPart::Char(piece.char)
    } else if piece.char == '*' {
        PatternPart::Wildcard
    } else {
        PatternPart::Char(piece.char)
    }
}

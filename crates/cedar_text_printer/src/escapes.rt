//! Texts and patterns in double quotes.
ghost use Rattle.std.specs.Prelude.{◌≡◌, ◌<◌, ◌∷◌, [], flat_map, map};
ghost use Rattle.std.specs.Char.{encode_utf8};
ghost use Rattle.std.specs.Fmt.{WritesOnOk};
ghost use Rattle.cedar_model.specs.Terms as model;
ghost use Rattle.cedar_names.specs.Leaves.{part_view, pattern_view};
ghost use Rattle.cedar_text_printer.specs.Escapes as texts;

use cedar_names::{Pattern, PatternElem};
use std::fmt;
use std::fmt::Write;

/// Writes a text in double quotes, with escapes.
pub(crate) fn write_text<W: fmt::Write>(text: &str, f: &mut fmt::Formatter<W>) -> fmt::Result
    ensures { WritesOnOk W.write_str_gives f.old result (texts.written_quoted text.now) f.new }
{
    f.write_str("\"")?;
    write_escaped(text, f)?;
    f.write_str("\"")
}

#[tactic(auto, using(crate::proofs::Escaping::escapes))]
fn write_escaped<W: fmt::Write>(text: &str, f: &mut fmt::Formatter<W>) -> fmt::Result
    ensures { WritesOnOk W.write_str_gives f.old result (texts.written_escaped text.now) f.new }
{
    'characters: for character in text.chars() {
        write_character(character, f)?;
    }
    Ok(())
}

/// Writes a character as it stands in double quotes.
#[tactic(auto, using(crate::proofs::Escaping::escapes))]
fn write_character<W: fmt::Write>(character: char, f: &mut fmt::Formatter<W>) -> fmt::Result
    ensures { WritesOnOk W.write_str_gives f.old result (texts.written_escaped (encode_utf8 character)) f.new }
{
    if character == '"' {
        f.write_str("\\\"")
    } else if character == '\\' {
        f.write_str("\\\\")
    } else if character == '\n' {
        f.write_str("\\n")
    } else if character == '\r' {
        f.write_str("\\r")
    } else if character == '\t' {
        f.write_str("\\t")
    } else if character == '\0' {
        f.write_str("\\0")
    } else if is_control(character) {
        write_control(character, f)
    } else {
        f.write_char(character)
    }
}

/// Whether a character is a control character of ASCII.
fn is_control(character: char) -> bool
    ensures { result ≡ texts.is_control character }
{
    character < ' ' || character == '\x7f'
}

/// Writes `\u{..}` with two digits.
fn write_control<W: fmt::Write>(character: char, f: &mut fmt::Formatter<W>) -> fmt::Result
    requires { character < 256 }
    ensures { WritesOnOk W.write_str_gives f.old result (texts.unicode_escape character) f.new }
{
    let code = character as u8;
    f.write_str("\\u{")?;
    f.write_char(hex_digit(code / 16))?;
    f.write_char(hex_digit(code % 16))?;
    f.write_str("}")
}

fn hex_digit(n: u8) -> char
    requires { n < 16 }
    ensures { result ≡ texts.hex_digit n }
{
    if n < 10 {
        char::from(b'0' + n)
    } else {
        char::from(87 + n)
    }
}

/// Writes a pattern in double quotes, with escapes.
pub(crate) fn write_pattern<W: fmt::Write>(
    pattern: &Pattern,
    f: &mut fmt::Formatter<W>,
) -> fmt::Result
    ensures { WritesOnOk W.write_str_gives f.old result (texts.pattern_text (pattern_view pattern.now)) f.new }
{
    f.write_str("\"")?;
    write_elems(pattern.elems(), f)?;
    f.write_str("\"")
}

fn write_elems<W: fmt::Write>(parts: &[PatternElem], f: &mut fmt::Formatter<W>) -> fmt::Result
    ensures { WritesOnOk W.write_str_gives f.old result
        (flat_map texts.pattern_part_text (map part_view parts.now)) f.new }
{
    'parts: for part in parts {
        write_elem(part, f)?;
    }
    Ok(())
}

fn write_elem<W: fmt::Write>(part: &PatternElem, f: &mut fmt::Formatter<W>) -> fmt::Result
    ensures { WritesOnOk W.write_str_gives f.old result (texts.pattern_part_text (part_view part.now)) f.new }
{
    match part {
        PatternElem::Char(character) => write_pattern_character(*character, f),
        PatternElem::Wildcard => f.write_str("*"),
    }
}

fn write_pattern_character<W: fmt::Write>(character: char, f: &mut fmt::Formatter<W>) -> fmt::Result
    ensures { WritesOnOk W.write_str_gives f.old result
        (texts.pattern_part_text (model.character character)) f.new }
{
    if character == '*' {
        f.write_str("\\*")
    } else {
        write_character(character, f)
    }
}

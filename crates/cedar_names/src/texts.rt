//! The texts that types and operators print as, and the pieces that the texts of expressions and values are made of.
ghost use Rattle.std.specs.Fmt.{WritesOnOk};
ghost use Rattle.std.specs.Char.{encode_utf8};
ghost use Rattle.cedar_model.specs.Outcomes.{escaped};
ghost use Rattle.cedar_names.specs.Texts.{quoted};

mod bounded;
pub(crate) mod laws;
pub(crate) mod lists;
pub(crate) mod literals;
mod operators;
pub(crate) mod pieces;
mod types;

pub use bounded::BoundedDisplay;
use std::fmt;

/// Writes a text in double quotes, with `\` before `"` and `\`.
pub fn write_quoted<W: fmt::Write>(text: &str, f: &mut fmt::Formatter<W>) -> fmt::Result
    ensures { WritesOnOk W.write_str_gives f.old result (quoted text.now) f.new }
{
    f.write_str("\"")?;
    write_escaped(text, f)?;
    f.write_str("\"")
}

#[tactic(auto, using(crate::proofs::Escapes::escapes))]
fn write_escaped<W: fmt::Write>(text: &str, f: &mut fmt::Formatter<W>) -> fmt::Result
    ensures { WritesOnOk W.write_str_gives f.old result (escaped text.now) f.new }
{
    'characters: for character in text.chars() {
        write_escaped_character(character, f)?;
    }
    Ok(())
}

/// Writes a character as it stands in double quotes.
#[tactic(auto, using(crate::proofs::Escapes::escapes))]
pub(crate) fn write_escaped_character<W: fmt::Write>(
    character: char,
    f: &mut fmt::Formatter<W>,
) -> fmt::Result
    ensures { WritesOnOk W.write_str_gives f.old result (escaped (encode_utf8 character)) f.new }
{
    if character == '"' {
        f.write_str("\\\"")
    } else if character == '\\' {
        f.write_str("\\\\")
    } else {
        f.write_char(character)
    }
}

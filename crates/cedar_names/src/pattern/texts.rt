//! How patterns print.
ghost use Rattle.std.specs.Prelude.{flat_map, map};
ghost use Rattle.std.specs.Fmt.{WritesOnOk};
ghost use Rattle.cedar_model.specs.Terms as model;
ghost use Rattle.cedar_names.specs.Leaves.{part_view, pattern_view};
ghost use Rattle.cedar_names.specs.Texts.{pattern_text, pattern_part_text};

use super::{Pattern, PatternElem};
use crate::texts::write_escaped_character;
use std::fmt;

/// Writes a pattern in double quotes, with `\` before `"`, `\` and a star that stands for itself.
pub fn write_pattern<W: fmt::Write>(pattern: &Pattern, f: &mut fmt::Formatter<W>) -> fmt::Result
    ensures { WritesOnOk W.write_str_gives f.old result (pattern_text (pattern_view pattern.now)) f.new }
{
    f.write_str("\"")?;
    write_parts(&pattern.elems, f)?;
    f.write_str("\"")
}

fn write_parts<W: fmt::Write>(parts: &[PatternElem], f: &mut fmt::Formatter<W>) -> fmt::Result
    ensures { WritesOnOk W.write_str_gives f.old result (flat_map pattern_part_text (map part_view parts.now)) f.new }
{
    'parts: for part in parts {
        write_part(part, f)?;
    }
    Ok(())
}

fn write_part<W: fmt::Write>(part: &PatternElem, f: &mut fmt::Formatter<W>) -> fmt::Result
    ensures { WritesOnOk W.write_str_gives f.old result (pattern_part_text (part_view part.now)) f.new }
{
    match part {
        PatternElem::Char(character) => write_character(*character, f),
        PatternElem::Wildcard => f.write_str("*"),
    }
}

fn write_character<W: fmt::Write>(character: char, f: &mut fmt::Formatter<W>) -> fmt::Result
    ensures { WritesOnOk W.write_str_gives f.old result (pattern_part_text (model.character character)) f.new }
{
    if character == '*' {
        f.write_str("\\*")
    } else {
        write_escaped_character(character, f)
    }
}

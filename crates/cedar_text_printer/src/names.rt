//! Names, entities and literals, and what stands behind a part.
ghost use Rattle.std.specs.Prelude.{◌∷◌, flat_map};
ghost use Rattle.std.specs.Rc.{rc_str_bytes};
ghost use Rattle.std.specs.Fmt.{WritesOnOk};
ghost use Rattle.cedar_names.specs.Names.{uid_name};
ghost use Rattle.cedar_names.specs.Leaves.{literal_view, pattern_view, texts_view};
ghost use Rattle.cedar_text_printer.specs.Names as texts;

use crate::escapes::{write_pattern, write_text};
use cedar_names::shared::write_literal;
use cedar_names::{EntityUID, FirstRest, Literal, Pattern};
use cedar_text_lexer::words::is_identifier;
use std::fmt;
use std::fmt::Display;
use std::rc::RcStr;

/// Writes the key of a field, or an attribute behind `has`.
pub(crate) fn write_key<W: fmt::Write>(key: &RcStr, f: &mut fmt::Formatter<W>) -> fmt::Result
    ensures { WritesOnOk W.write_str_gives f.old result (texts.key_text (rc_str_bytes key.now)) f.new }
{
    write_word(key.as_str(), f)
}

fn write_word<W: fmt::Write>(word: &str, f: &mut fmt::Formatter<W>) -> fmt::Result
    ensures { WritesOnOk W.write_str_gives f.old result (texts.key_text word.now) f.new }
{
    if is_identifier(word) {
        f.write_str(word)
    } else {
        write_text(word, f)
    }
}

/// Writes `.a` or `["a b"]`.
pub(crate) fn write_attribute<W: fmt::Write>(attr: &RcStr, f: &mut fmt::Formatter<W>) -> fmt::Result
    ensures { WritesOnOk W.write_str_gives f.old result (texts.attribute_text (rc_str_bytes attr.now)) f.new }
{
    write_access(attr.as_str(), f)
}

fn write_access<W: fmt::Write>(attr: &str, f: &mut fmt::Formatter<W>) -> fmt::Result
    ensures { WritesOnOk W.write_str_gives f.old result (texts.attribute_text attr.now) f.new }
{
    if is_identifier(attr) {
        write_dotted(attr, f)
    } else {
        write_index(attr, f)
    }
}

fn write_dotted<W: fmt::Write>(attr: &str, f: &mut fmt::Formatter<W>) -> fmt::Result
    ensures { WritesOnOk W.write_str_gives f.old result (46 ∷ attr.now) f.new }
{
    f.write_str(".")?;
    f.write_str(attr)
}

fn write_index<W: fmt::Write>(attr: &str, f: &mut fmt::Formatter<W>) -> fmt::Result
    ensures { WritesOnOk W.write_str_gives f.old result (texts.index_text attr.now) f.new }
{
    f.write_str("[")?;
    write_text(attr, f)?;
    f.write_str("]")
}

/// Writes ` has ` and an attribute.
pub(crate) fn write_has<W: fmt::Write>(attr: &RcStr, f: &mut fmt::Formatter<W>) -> fmt::Result
    ensures { WritesOnOk W.write_str_gives f.old result (texts.has_text (rc_str_bytes attr.now)) f.new }
{
    f.write_str(" has ")?;
    write_key(attr, f)
}

/// Writes ` has ` and attributes with dots between them.
pub(crate) fn write_path<W: fmt::Write>(
    attrs: &FirstRest<RcStr>,
    f: &mut fmt::Formatter<W>,
) -> fmt::Result
    ensures { WritesOnOk W.write_str_gives f.old result
        (texts.path_text (rc_str_bytes attrs.now.first) (texts_view attrs.now.rest.items)) f.new }
{
    f.write_str(" has ")?;
    write_key(&attrs.first, f)?;
    write_further(&attrs.rest, f)
}

fn write_further<W: fmt::Write>(attrs: &[RcStr], f: &mut fmt::Formatter<W>) -> fmt::Result
    ensures { WritesOnOk W.write_str_gives f.old result (flat_map texts.further_text (texts_view attrs.now)) f.new }
{
    'attrs: for attr in attrs {
        write_one_further(attr, f)?;
    }
    Ok(())
}

fn write_one_further<W: fmt::Write>(attr: &RcStr, f: &mut fmt::Formatter<W>) -> fmt::Result
    ensures { WritesOnOk W.write_str_gives f.old result (texts.further_text (rc_str_bytes attr.now)) f.new }
{
    f.write_str(".")?;
    write_key(attr, f)
}

/// Writes ` like ` and the pattern.
pub(crate) fn write_like<W: fmt::Write>(pattern: &Pattern, f: &mut fmt::Formatter<W>) -> fmt::Result
    ensures { WritesOnOk W.write_str_gives f.old result (texts.like_text (pattern_view pattern.now)) f.new }
{
    f.write_str(" like ")?;
    write_pattern(pattern, f)
}

/// Writes an entity: its type, `::` and its id in double quotes.
pub(crate) fn write_entity<W: fmt::Write>(uid: &EntityUID, f: &mut fmt::Formatter<W>) -> fmt::Result
    ensures { WritesOnOk W.write_str_gives f.old result (texts.entity_text (uid_name uid.now)) f.new }
{
    uid.entity_type().fmt(f)?;
    f.write_str("::")?;
    write_text(uid.eid().as_str(), f)
}

/// Writes a literal.
pub(crate) fn write_value<W: fmt::Write>(
    literal: &Literal,
    f: &mut fmt::Formatter<W>,
) -> fmt::Result
    ensures { WritesOnOk W.write_str_gives f.old result (texts.literal_text (literal_view literal.now)) f.new }
{
    match literal {
        Literal::Bool(_) => write_literal(literal, f),
        Literal::Long(_) => write_literal(literal, f),
        Literal::String(text) => write_text(text.as_str(), f),
        Literal::EntityUID(uid) => write_entity(uid, f),
    }
}

/// Writes `unknown("name")`.
pub(crate) fn write_unknown<W: fmt::Write>(name: &RcStr, f: &mut fmt::Formatter<W>) -> fmt::Result
    ensures { WritesOnOk W.write_str_gives f.old result (texts.unknown_text (rc_str_bytes name.now)) f.new }
{
    f.write_str("unknown(")?;
    write_text(name.as_str(), f)?;
    f.write_str(")")
}

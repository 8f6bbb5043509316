//! How literals print.
ghost use Rattle.std.specs.Fmt.{WritesOnOk};
ghost use Rattle.cedar_model.specs.Terms.{bool_literal};
ghost use Rattle.cedar_names.specs.Leaves.{literal_view};
ghost use Rattle.cedar_names.specs.Texts.{literal_text};

use super::write_quoted;
use crate::types::Literal;
use std::fmt;
use std::fmt::Display;

/// Writes a literal as it stands in an expression.
pub fn write_literal<W: fmt::Write>(literal: &Literal, f: &mut fmt::Formatter<W>) -> fmt::Result
    ensures { WritesOnOk W.write_str_gives f.old result (literal_text (literal_view literal.now)) f.new }
{
    match literal {
        Literal::Bool(b) => write_bool(*b, f),
        Literal::Long(n) => n.fmt(f),
        Literal::String(text) => write_quoted(text.as_str(), f),
        Literal::EntityUID(uid) => uid.fmt(f),
    }
}

fn write_bool<W: fmt::Write>(b: bool, f: &mut fmt::Formatter<W>) -> fmt::Result
    ensures { WritesOnOk W.write_str_gives f.old result (literal_text (bool_literal b)) f.new }
{
    if b {
        f.write_str("true")
    } else {
        f.write_str("false")
    }
}

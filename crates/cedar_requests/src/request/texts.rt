//! How requests print.
ghost use Rattle.std.specs.Prelude.{◌++◌, Some, option_map};
ghost use Rattle.std.specs.Fmt.{WritesOnOk};
ghost use Rattle.cedar_names.specs.Names.{type_text};
ghost use Rattle.cedar_requests.specs.Requests.{entry_view, context_given};
ghost use Rattle.cedar_requests.specs.Contexts.{context_view};
ghost use Rattle.cedar_requests.specs.Texts.{entry_text, context_text, unknown_entry_text};

use super::Request;
use crate::context::Context;
use crate::entry::EntityUIDEntry;
use cedar_names::EntityType;
use std::fmt;
use std::fmt::Display;

/// `request with principal P, action A, resource R, and context C`: each entity as it prints, `unknown` or
/// `unknown of type T`, and the context as it prints, or `unknown`.
impl fmt::Display for Request {
    ghost use Rattle.cedar_requests.specs.Requests.{request_view};
    ghost use Rattle.cedar_requests.specs.Texts.{request_text};

    ghost output = { λ r. Some (request_text (request_view r)) };

    fn fmt<W: fmt::Write>(&self, f: &mut fmt::Formatter<W>) -> fmt::Result {
        write_named("request with principal ", &self.principal, f)?;
        write_named(", action ", &self.action, f)?;
        write_named(", resource ", &self.resource, f)?;
        f.write_str(", and context ")?;
        write_context(&self.context, f)
    }
}

// Writes an entity behind these words.
fn write_named<W: fmt::Write>(
    words: &str,
    entry: &EntityUIDEntry,
    f: &mut fmt::Formatter<W>,
) -> fmt::Result
    ensures { WritesOnOk W.write_str_gives f.old result (words.now ++ entry_text (entry_view entry.now)) f.new }
{
    f.write_str(words)?;
    write_entry(entry, f)
}

fn write_entry<W: fmt::Write>(entry: &EntityUIDEntry, f: &mut fmt::Formatter<W>) -> fmt::Result
    ensures { WritesOnOk W.write_str_gives f.old result (entry_text (entry_view entry.now)) f.new }
{
    match entry {
        EntityUIDEntry::Known { euid, loc: _ } => euid.fmt(f),
        EntityUIDEntry::Unknown { ty, loc: _ } => write_unknown(ty, f),
    }
}

// Writes that an entity is unknown, and its type if that is known.
fn write_unknown<W: fmt::Write>(ty: &Option<EntityType>, f: &mut fmt::Formatter<W>) -> fmt::Result
    ensures { WritesOnOk W.write_str_gives f.old result (unknown_entry_text (option_map type_text ty.now)) f.new }
{
    match ty {
        Some(ty) => write_unknown_of(ty, f),
        None => f.write_str("unknown"),
    }
}

fn write_unknown_of<W: fmt::Write>(ty: &EntityType, f: &mut fmt::Formatter<W>) -> fmt::Result
    ensures { WritesOnOk W.write_str_gives f.old result (unknown_entry_text (Some (type_text ty.now))) f.new }
{
    f.write_str("unknown of type ")?;
    ty.fmt(f)
}

// Writes the context, or that it is unknown.
fn write_context<W: fmt::Write>(context: &Option<Context>, f: &mut fmt::Formatter<W>) -> fmt::Result
    ensures { WritesOnOk W.write_str_gives f.old result (context_text (context_given context.now)) f.new }
{
    match context {
        Some(context) => write_known(context, f),
        None => f.write_str("unknown"),
    }
}

fn write_known<W: fmt::Write>(context: &Context, f: &mut fmt::Formatter<W>) -> fmt::Result
    ensures { WritesOnOk W.write_str_gives f.old result (context_text (context_view context.now)) f.new }
{
    context.fmt(f)
}

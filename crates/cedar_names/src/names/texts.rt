//! How names print.
ghost use Rattle.std.specs.Prelude.{◌≡◌, Some};
ghost use Rattle.cedar_names.specs.Names.{name_text, type_text, uid_name};
ghost use Rattle.cedar_names.specs.Leaves.{slot_view, variable_view};
ghost use Rattle.cedar_names.specs.Texts.{entity_text, slot_text, variable_text};

use super::{EntityType, EntityUID, Name, SlotId, Var};
use crate::texts::write_quoted;
use std::fmt;

/// The name's text.
impl fmt::Display for Name {
    ghost output = { λ name. Some (name_text name) };

    fn fmt<W: fmt::Write>(&self, f: &mut fmt::Formatter<W>) -> fmt::Result {
        f.write_str(self.text.as_str())
    }
}

/// The text of its name.
impl fmt::Display for EntityType {
    ghost output = { λ ty. Some (type_text ty) };

    fn fmt<W: fmt::Write>(&self, f: &mut fmt::Formatter<W>) -> fmt::Result {
        self.0.fmt(f)
    }
}

/// The entity's type, `::` and its id in double quotes, as `User::"alice"`.
impl fmt::Display for EntityUID {
    ghost output = { λ uid. Some (entity_text (uid_name uid)) };

    fn fmt<W: fmt::Write>(&self, f: &mut fmt::Formatter<W>) -> fmt::Result {
        self.ty.fmt(f)?;
        f.write_str("::")?;
        write_quoted(self.eid.as_str(), f)
    }
}

/// `?principal` or `?resource`.
impl fmt::Display for SlotId {
    ghost output = { λ slot. Some (slot_text (slot_view slot)) };

    fn fmt<W: fmt::Write>(&self, f: &mut fmt::Formatter<W>) -> fmt::Result {
        match self {
            SlotId::Principal => f.write_str("?principal"),
            SlotId::Resource => f.write_str("?resource"),
        }
    }
}

/// The variable's name, in lower case.
impl fmt::Display for Var {
    ghost output = { λ var. Some (variable_text (variable_view var)) };

    fn fmt<W: fmt::Write>(&self, f: &mut fmt::Formatter<W>) -> fmt::Result {
        f.write_str(variable_text(*self))
    }
}

/// The variable's name, in lower case.
pub fn variable_text(var: Var) -> &'static str
    ensures { result.now ≡ variable_text (variable_view var) }
{
    match var {
        Var::Principal => "principal",
        Var::Action => "action",
        Var::Resource => "resource",
        Var::Context => "context",
    }
}

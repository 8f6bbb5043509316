//! How types of values print.
ghost use Rattle.std.specs.Prelude.{Some};
ghost use Rattle.cedar_names.specs.Leaves.{type_view};
ghost use Rattle.cedar_names.specs.Texts.{value_type_text};

use crate::types::Type;
use std::fmt;

/// The type's name: ``(entity of type `T`)`` for an entity type, and an extension type's own name.
impl fmt::Display for Type {
    ghost output = { λ ty. Some (value_type_text (type_view ty)) };

    fn fmt<W: fmt::Write>(&self, f: &mut fmt::Formatter<W>) -> fmt::Result {
        match self {
            Type::Bool => f.write_str("bool"),
            Type::Long => f.write_str("long"),
            Type::String => f.write_str("string"),
            Type::Set => f.write_str("set"),
            Type::Record => f.write_str("record"),
            Type::Entity { ty } => write!(f, "(entity of type `{ty}`)"),
            Type::Extension { name } => name.fmt(f),
        }
    }
}

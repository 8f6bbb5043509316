//! The types of what standard functions take and answer.
ghost use Rattle.std.specs.Prelude.{◌≡◌, IfOk};
ghost use Rattle.cedar_model.specs.Terms.{extension_type};
ghost use Rattle.cedar_names.specs.Leaves.{type_view};
ghost use Rattle.cedar_standard_functions.specs.Kinds.{kind_type};

use cedar_names::{Name, Type};
use std::alloc::{AllocError, Global};
use std::rc::RcStr;

// A type that a standard function takes or answers.
#[derive(Clone, Copy)]
pub(crate) enum Kind {
    Bool,
    Long,
    String,
    Decimal,
    Ipaddr,
    Datetime,
    Duration,
}

impl Kind {
    // The type itself.
    pub(crate) fn value_type(self, alloc: Global) -> Result<Type, AllocError>
        ensures { IfOk result (λ t. type_view t ≡ kind_type self) }
    {
        match self {
            Kind::Bool => Ok(Type::Bool),
            Kind::Long => Ok(Type::Long),
            Kind::String => Ok(Type::String),
            Kind::Decimal => extension(alloc, "decimal"),
            Kind::Ipaddr => extension(alloc, "ipaddr"),
            Kind::Datetime => extension(alloc, "datetime"),
            Kind::Duration => extension(alloc, "duration"),
        }
    }
}

// The extension type of this name.
fn extension(alloc: Global, name: &str) -> Result<Type, AllocError>
    ensures { IfOk result (λ t. type_view t ≡ extension_type name.now) }
{
    let name = Name::new(RcStr::from_str(alloc, name)?, None);
    Ok(Type::Extension { name })
}

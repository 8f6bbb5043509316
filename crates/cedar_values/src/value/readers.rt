//! What a value holds, where it is a text or an entity.
ghost use Rattle.std.specs.Prelude.{◌≡◌, option_map, option_copied};
ghost use Rattle.std.specs.Rc.{rc_str_bytes};
ghost use Rattle.std.specs.declared.alloc.Global.{Global};
ghost use Rattle.std.specs.declared.rc.Rc.{Rc};
ghost use Rattle.cedar_model.specs.Values.{abstract_value};
ghost use Rattle.cedar_model.specs.Outcomes.{text_of, entity_of};
ghost use Rattle.cedar_names.specs.declared.names.EntityUID.{EntityUID};
ghost use Rattle.cedar_names.specs.Names.{uid_name};

use super::{Value, ValueKind};
use cedar_names::{EntityUID, Literal};
use std::rc::{Rc, RcStr};

/// The text, if the value is one.
#[tactic(auto, unfolding(cedar_model::specs::Outcomes::text_of))]
#[inline(always)]
pub fn text_in(value: &Value) -> Option<&RcStr>
    ensures { option_map rc_str_bytes (option_copied result) ≡ text_of (abstract_value value.now.what) }
{
    match value.value_kind() {
        ValueKind::Lit(literal) => match literal {
            Literal::Bool(_) => None,
            Literal::Long(_) => None,
            Literal::String(text) => Some(text),
            Literal::EntityUID(_) => None,
        },
        ValueKind::Set(_) => None,
        ValueKind::Record(_) => None,
        ValueKind::ExtensionValue(_) => None,
    }
}

/// The entity, if the value is one.
#[tactic(auto, unfolding(cedar_model::specs::Outcomes::entity_of))]
#[inline(always)]
pub fn entity_in(value: &Value) -> Option<&Rc<EntityUID>>
    ensures { option_map (λ (u : Rc EntityUID Global). uid_name u.value) (option_copied result)
        ≡ entity_of (abstract_value value.now.what) }
{
    match value.value_kind() {
        ValueKind::Lit(literal) => match literal {
            Literal::Bool(_) => None,
            Literal::Long(_) => None,
            Literal::String(_) => None,
            Literal::EntityUID(uid) => Some(uid),
        },
        ValueKind::Set(_) => None,
        ValueKind::Record(_) => None,
        ValueKind::ExtensionValue(_) => None,
    }
}

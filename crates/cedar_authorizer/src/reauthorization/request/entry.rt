//! The entry that a map makes of another.
ghost use Rattle.std.specs.Prelude.{◌≡◌, None, IfOk, IfSome, option_map, option_copied};
ghost use Rattle.std.specs.declared.alloc.Global.{Global};
ghost use Rattle.std.specs.declared.rc.Rc.{Rc};
ghost use Rattle.cedar_model.specs.Values.{abstract_value};
ghost use Rattle.cedar_model.specs.Outcomes.{entity_of, text_eq};
ghost use Rattle.cedar_model.specs.Refusals.{concrete_entry, entry_by, entry_beside, typed_entry};
ghost use Rattle.cedar_names.specs.declared.names.EntityUID.{EntityUID};
ghost use Rattle.cedar_names.specs.Leaves.{variable_view};
ghost use Rattle.cedar_names.specs.Names.{type_text, uid_name};
ghost use Rattle.cedar_names.specs.Texts.{variable_text};
ghost use Rattle.cedar_requests.specs.Requests.{entry_view, entry_loc};
ghost use Rattle.cedar_requests.specs.Substitutions.{values_for};
ghost use Rattle.cedar_authorizer.specs.reauthorization.Errors.{answer_by};
ghost use Rattle.cedar_authorizer.specs.reauthorization.Concretizations.{concrete_loc};

use super::refusals::{is_there_already, type_is_other, value_is_wrong};
use super::value_for;
use crate::reauthorization::err::ConcretizationError;
use cedar_names::{EntityType, EntityUID, Var};
use cedar_requests::EntityUIDEntry;
use cedar_values::{Value, entity_in};
use std::alloc::Global;
use std::collections::HashMap;
use std::rc::{Rc, RcStr};

// The entry with the map's value for the variable, or as it is where the map has none.
#[tactic(auto, unfolding(cedar_model::specs::Refusals::concrete_entry))]
pub(super) fn mapped_entry(
    alloc: Global,
    var: Var,
    entry: &EntityUIDEntry,
    map: &HashMap<RcStr, Value>,
) -> Result<EntityUIDEntry, ConcretizationError>
    ensures view { IfSome (answer_by entry_view result)
        (λ a. a ≡ concrete_entry (variable_text (variable_view var))
        (values_for map.now.entries (variable_text (variable_view var))) (entry_view entry.now)) }
    ensures place { IfOk result (λ e. entry_loc e
        ≡ concrete_loc (values_for map.now.entries (variable_text (variable_view var))) (entry_loc entry.now)) }
{
    match value_for(map, var) {
        Some(value) => entry_with(alloc, var, entry, value),
        None => Ok(entry.clone()?),
    }
}

// The entry with this value.
#[tactic(auto, unfolding(cedar_model::specs::Refusals::entry_by))]
fn entry_with(
    alloc: Global,
    var: Var,
    entry: &EntityUIDEntry,
    value: &Value,
) -> Result<EntityUIDEntry, ConcretizationError>
    ensures view { IfSome (answer_by entry_view result)
        (λ a. a ≡ entry_by (variable_text (variable_view var)) value.now.what
        (entity_of (abstract_value value.now.what)) (entry_view entry.now)) }
    ensures place { IfOk result (λ e. entry_loc e ≡ None) }
{
    match entity_in(value) {
        Some(uid) => entry_of(alloc, var, entry, value, uid),
        None => Err(value_is_wrong(alloc, var, "entity", value)?),
    }
}

// The entry with this value, which is this entity.
#[tactic(auto, unfolding(cedar_model::specs::Refusals::entry_beside))]
fn entry_of(
    alloc: Global,
    var: Var,
    entry: &EntityUIDEntry,
    value: &Value,
    uid: &EntityUID,
) -> Result<EntityUIDEntry, ConcretizationError>
    ensures view { IfSome (answer_by entry_view result)
        (λ a. a ≡ entry_beside (variable_text (variable_view var)) value.now.what (uid_name uid.now)
        (entry_view entry.now)) }
    ensures place { IfOk result (λ e. entry_loc e ≡ None) }
{
    match entry {
        EntityUIDEntry::Known { euid: _, loc: _ } => {
            let existing = entry.evaluate(alloc, var)?;
            Err(is_there_already(alloc, var, existing, value)?)
        }
        EntityUIDEntry::Unknown { ty, loc: _ } => known_of(alloc, var, ty.as_ref(), value, uid),
    }
}

// The known entry of this entity, which must be of the type that is known of the entry, if one is.
#[tactic(auto, unfolding(cedar_model::specs::Refusals::typed_entry))]
fn known_of(
    alloc: Global,
    var: Var,
    ty: Option<&EntityType>,
    value: &Value,
    uid: &EntityUID,
) -> Result<EntityUIDEntry, ConcretizationError>
    ensures view { IfSome (answer_by entry_view result)
        (λ a. a ≡ typed_entry (variable_text (variable_view var)) value.now.what (uid_name uid.now)
        (option_map type_text (option_copied ty.entry))) }
    ensures place { IfOk result (λ e. entry_loc e ≡ None) }
{
    match ty {
        None => Ok(EntityUIDEntry::known(uid.clone()?, None)),
        Some(ty) => {
            if is_same_type(ty, uid.entity_type()) {
                Ok(EntityUIDEntry::known(uid.clone()?, None))
            } else {
                Err(type_is_other(alloc, var, ty, value)?)
            }
        }
    }
}

// Whether the two types have one name.
fn is_same_type(a: &EntityType, b: &EntityType) -> bool
    ensures { result ≡ text_eq (type_text a.now) (type_text b.now) }
{
    a == b
}

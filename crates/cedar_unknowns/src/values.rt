//! The entities that unknowns stand for, as the values of these unknowns.
ghost use Rattle.std.specs.Prelude.{◌≡◌, map, IfOk, OnOk};
ghost use Rattle.std.specs.Rc.{rc_str_bytes};
ghost use Rattle.cedar_model.specs.Settings.{printed_entity};
ghost use Rattle.cedar_names.specs.Names.{uid_name};
ghost use Rattle.cedar_requests.specs.Substitutions.{values_for};
ghost use Rattle.cedar_unknowns.specs.Occurrences.{asked_each};
ghost use Rattle.cedar_unknowns.specs.Entities.{entities_asked};
ghost use Rattle.cedar_unknowns.specs.Themselves.{itself, entity_values, IsCompletedByThem};
ghost use Rattle.cedar_unknowns.specs.Valued.{with_itself, with_each};

use crate::entities::entities_of;
use cedar_names::{EntityUID, Unknown};
use cedar_values::Value;
use indexmap::IndexSet;
use std::alloc::{AllocError, Global};
use std::collections::HashMap;
use std::rc::RcStr;

/// The entities that these unknowns stand for, each as the value of its unknown.
pub(crate) fn values_of(
    alloc: Global,
    found: &IndexSet<Unknown>,
) -> Result<HashMap<RcStr, Value>, AllocError>
    ensures values { IfOk result (λ m.
        values_for m.entries ≡ entity_values (entities_asked (asked_each found.now.keys))) }
    ensures completed { IfOk result (λ m.
        IsCompletedByThem (entities_asked (asked_each found.now.keys)) (values_for m.entries)) }
{
    let entities = entities_of(alloc, found)?;
    let values = each_itself(alloc, &entities)?;
    Ok(values)
}

// Each of these entities, under its text.
fn each_itself(
    alloc: Global,
    entities: &Vec<EntityUID>,
) -> Result<HashMap<RcStr, Value>, AllocError>
    ensures { IfOk result (λ m. values_for m.entries ≡ entity_values (map uid_name entities.now.items)) }
{
    let mut values: HashMap<RcStr, Value> = HashMap::new(alloc);
    'entities: for uid in entities {
        put(alloc, &mut values, uid)?;
    }
    Ok(values)
}

// Puts the entity under its text.
fn put(alloc: Global, values: &mut HashMap<RcStr, Value>, uid: &EntityUID) -> Result<(), AllocError>
    ensures { OnOk result (values_for values.new.entries
        ≡ with_itself (values_for values.old.entries) (uid_name uid.now)) }
{
    let text = text_of(alloc, uid)?;
    let value = itself(alloc, uid)?;
    drop(values.insert(text, value)?);
    Ok(())
}

// The entity's text.
fn text_of(alloc: Global, uid: &EntityUID) -> Result<RcStr, AllocError>
    ensures { IfOk result (λ t. rc_str_bytes t ≡ printed_entity (uid_name uid.now)) }
{
    Ok(RcStr::from_string(uid.to_string(alloc)?)?)
}

// The entity, as a value.
fn itself(alloc: Global, uid: &EntityUID) -> Result<Value, AllocError>
    ensures { IfOk result (λ v. v.what ≡ itself (uid_name uid.now)) }
{
    Value::entity(alloc, uid.clone()?)
}

#![tactic(auto, using(crate::proofs::Named::steps))]
//! Contexts of values under their names.
ghost use Rattle.std.specs.Prelude.{◌≡◌, None, Some, IfOk, OnOk, IfErr};
ghost use Rattle.std.specs.Rc.{rc_str_bytes};
ghost use Rattle.cedar_model.specs.Settings.{known_context};
ghost use Rattle.cedar_model.specs.Refusals.{first_repeated};
ghost use Rattle.cedar_expressions.specs.Records.{repeated_key, HasOneMore};
ghost use Rattle.cedar_values.specs.Sound.{whats_at};
ghost use Rattle.cedar_requests.specs.Contexts.{context_view};
ghost use Rattle.cedar_requests.specs.Named.{names_given, entry_names, put_value, values_in_order};
ghost use Rattle.cedar_requests.specs.Named.{IsRefusalOfName, IsRefusalOfNamed};

use super::Context;
use crate::errors::ContextCreationError;
use cedar_expressions::ExpressionConstructionError;
use cedar_values::Value;
use std::alloc::Global;
use std::collections::BTreeMap;
use std::rc::{Rc, RcStr};

impl Context {
    /// The context of these values under their names. Refuses the first duplicate name with
    /// `ExpressionConstruction`, which holds a `DuplicateKey` in the context `in context`, as `from_pairs` does; else
    /// only if out of memory, with `Memory`.
    pub fn of(alloc: Global, pairs: Vec<(&str, Value)>) -> Result<Context, ContextCreationError>
        ensures view { IfOk result (λ c. context_view c ≡ known_context (values_in_order pairs.entry.items)) }
        ensures distinct { IfOk result (λ c. first_repeated (names_given pairs.entry.items) ≡ None) }
        ensures refused { IfErr result (IsRefusalOfNamed pairs.entry.items) }
    {
        let values = values_of(alloc, pairs)?;
        Ok(Context::from_shared_values(alloc, Rc::new(alloc, values)?))
    }
}

// The values under their names.
fn values_of(
    alloc: Global,
    pairs: Vec<(&str, Value)>,
) -> Result<BTreeMap<RcStr, Value>, ContextCreationError>
    ensures values { IfOk result (λ m. whats_at m.entries ≡ values_in_order pairs.entry.items) }
    ensures distinct { IfOk result (λ m. first_repeated (names_given pairs.entry.items) ≡ None) }
    ensures refused { IfErr result (IsRefusalOfNamed pairs.entry.items) }
{
    let mut values: BTreeMap<RcStr, Value> = BTreeMap::new(alloc);
    'pairs: for (name, value) in pairs {
        put_named(alloc, &mut values, name, value)?;
    }
    Ok(values)
}

// Puts the value under the name, or refuses where the name is there.
fn put_named(
    alloc: Global,
    values: &mut BTreeMap<RcStr, Value>,
    name: &str,
    value: Value,
) -> Result<(), ContextCreationError>
    ensures values { OnOk result
        (whats_at values.new.entries ≡ put_value (whats_at values.old.entries) name.now value.what) }
    ensures names { OnOk result
        (HasOneMore (entry_names values.old.entries) name.now (entry_names values.new.entries)) }
    ensures refused { IfErr result (IsRefusalOfName (repeated_key (entry_names values.old.entries) name.now)) }
{
    let key = RcStr::from_str(alloc, name)?;
    if values.contains_key(&key) {
        drop(value);
        return Err(refuse_duplicate_name(key));
    }
    drop(values.insert(key, value)?);
    Ok(())
}

// The error that the name is a duplicate.
#[cold]
fn refuse_duplicate_name(key: RcStr) -> ContextCreationError
    ensures { IsRefusalOfName (Some (rc_str_bytes key)) result }
{
    ContextCreationError::ExpressionConstruction(ExpressionConstructionError::DuplicateKey {
        key,
        context: "in context",
    })
}

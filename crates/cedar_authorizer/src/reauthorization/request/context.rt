//! The context that a map makes of another.
ghost use Rattle.std.specs.Prelude.{◌≡◌, IfOk, IfErr, IfSome, option_map, option_copied};
ghost use Rattle.std.specs.Prelude.{codes};
ghost use Rattle.cedar_model.specs.Settings.{Setting, known_context};
ghost use Rattle.cedar_model.specs.Refusals.{concrete_context, context_by};
ghost use Rattle.cedar_model.specs.Chains.{SubstitutesTo};
ghost use Rattle.cedar_values.specs.Sound.{whats_at};
ghost use Rattle.cedar_extensions.specs.Extensions.{extensions_view, calls_of};
ghost use Rattle.cedar_requests.specs.Contexts.{ValueMap, context_view};
ghost use Rattle.std.specs.declared.alloc.Global.{Global};
ghost use Rattle.std.specs.declared.rc.Rc.{Rc};
ghost use Rattle.cedar_requests.specs.Requests.{context_given};
ghost use Rattle.cedar_requests.specs.Substitutions.{values_for};
ghost use Rattle.cedar_authorizer.specs.reauthorization.Errors.{answer_by, IsBelowLimit, IsUnwrappedRefusal};
ghost use Rattle.cedar_authorizer.specs.reauthorization.Concretizations.{fields_of_represented, IsResidualNoHigher};

use super::refusals::{is_there_already, value_is_wrong};
use super::value_for;
use crate::reauthorization::err::ConcretizationError;
use cedar_extensions::Extensions;
use cedar_names::Var;
use cedar_requests::Context;
use cedar_values::{PartialValue, Value, ValueKind};
use std::alloc::{AllocError, Global};
use std::collections::{BTreeMap, HashMap};
use std::rc::{Rc, RcStr};

// The context that the map has a value for, or as it is where the map has none.
#[tactic(auto, unfolding(cedar_model::specs::Refusals::concrete_context))]
pub(super) fn mapped_context(
    alloc: Global,
    context: Option<&Context>,
    map: &HashMap<RcStr, Value>,
) -> Result<Option<Context>, ConcretizationError>
    ensures { IfSome (answer_by context_given result)
        (λ a. a ≡ concrete_context (values_for map.now.entries (codes "context"))
        (context_given (option_copied context.entry))) }
{
    match value_for(map, Var::Context) {
        Some(value) => context_with(alloc, context, value),
        None => Ok(copy_context(context)?),
    }
}

// A copy of the context, where there is one.
fn copy_context(context: Option<&Context>) -> Result<Option<Context>, AllocError>
    ensures { IfOk result (λ c. context_given c ≡ context_given (option_copied context.entry)) }
{
    match context {
        Some(context) => Ok(Some(context.clone()?)),
        None => Ok(None),
    }
}

// The context that the value is, where there is none yet.
fn context_with(
    alloc: Global,
    context: Option<&Context>,
    value: &Value,
) -> Result<Option<Context>, ConcretizationError>
    ensures { IfSome (answer_by context_given result)
        (λ a. a ≡ context_by value.now.what (context_given (option_copied context.entry))) }
{
    match record_in(value) {
        Some(pairs) => match context {
            Some(existing) => {
                let existing = PartialValue::try_from(existing.clone()?)?;
                Err(is_there_already(alloc, Var::Context, existing, value)?)
            }
            None => Ok(Some(context_of(alloc, pairs)?)),
        },
        None => Err(value_is_wrong(alloc, Var::Context, "record", value)?),
    }
}

// The context of these values, which it shares.
fn context_of(alloc: Global, pairs: &Rc<BTreeMap<RcStr, Value>>) -> Result<Context, AllocError>
    ensures { IfOk result (λ c. context_view c ≡ known_context (whats_at pairs.now.value.entries)) }
{
    Ok(Context::from_shared_values(alloc, pairs.clone()?))
}

// The values of the record, if the value is one.
fn record_in(value: &Value) -> Option<&Rc<BTreeMap<RcStr, Value>>>
    ensures { option_map (λ (m : Rc ValueMap Global). whats_at m.value.entries) (option_copied result)
        ≡ fields_of_represented value.now.what }
{
    match value.value_kind() {
        ValueKind::Record(pairs) => Some(pairs),
        ValueKind::Lit(_) => None,
        ValueKind::Set(_) => None,
        ValueKind::ExtensionValue(_) => None,
    }
}

// The context with the map's values for its unknowns, where there is one.
pub(super) fn with_values(
    alloc: Global,
    context: Option<Context>,
    map: &HashMap<RcStr, Value>,
    extensions: &Extensions<'_>,
    limit: usize,
) -> Result<Option<Context>, ConcretizationError>
    ensures values { (s : Setting) → s.extensions ≡ extensions_view extensions.now →
        IfSome (answer_by context_given result)
        (SubstitutesTo s (calls_of extensions.now) limit (values_for map.now.entries) (context_given context)) }
    ensures low { IsResidualNoHigher (values_for map.now.entries) limit (context_given context) →
        IfErr result IsBelowLimit }
    ensures memory { IfErr result IsUnwrappedRefusal }
{
    match context {
        Some(context) => match context.substitute(alloc, map, extensions, limit) {
            Ok(context) => Ok(Some(context)),
            Err(error) => Err(ConcretizationError::from(error)),
        },
        None => Ok(None),
    }
}

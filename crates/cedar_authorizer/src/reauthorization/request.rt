//! The request that a map of values for unknowns makes of another.
ghost use Rattle.std.specs.Prelude.{◌≡◌, IfOk, IfErr, IfSome, option_map, option_copied, codes};
ghost use Rattle.cedar_model.specs.Settings.{Setting};
ghost use Rattle.cedar_model.specs.Refusals.{concrete_request};
ghost use Rattle.cedar_names.specs.Leaves.{variable_view};
ghost use Rattle.cedar_names.specs.Texts.{variable_text};
ghost use Rattle.cedar_values.specs.Sound.{Placed};
ghost use Rattle.cedar_extensions.specs.Extensions.{extensions_view, calls_of};
ghost use Rattle.cedar_requests.specs.Requests.{entry_view, entry_loc, request_view};
ghost use Rattle.cedar_requests.specs.Substitutions.{values_for};
ghost use Rattle.cedar_authorizer.specs.reauthorization.Errors.{answer_by, IsBelowLimit, IsUnwrappedRefusal};
ghost use Rattle.cedar_authorizer.specs.reauthorization.Concretizations.{IsWithValues, IsConcretized};
ghost use Rattle.cedar_authorizer.specs.reauthorization.Concretizations.{IsResidualNoHigher};
ghost use Rattle.cedar_authorizer.specs.reauthorization.Concretizations.{entity_locs, concrete_loc, concrete_locs};
ghost use Rattle.cedar_authorizer.specs.reauthorization.Concretizations.{after_principal, after_action, after_resource};

mod context;
mod entry;
mod refusals;

use crate::reauthorization::err::ConcretizationError;
use cedar_extensions::Extensions;
use cedar_names::Var;
use cedar_names::shared::variable_text;
use cedar_requests::{EntityUIDEntry, Request};
use cedar_values::Value;
use context::{mapped_context, with_values};
use entry::mapped_entry;
use std::alloc::Global;
use std::collections::HashMap;
use std::rc::RcStr;

/// The request that the map makes of this one. Principal, action and resource in turn: where the map has a value for
/// the variable's name, the entry is known from then on, at no location. Refuses a value that is no entity with
/// `ValueError`, an entry that is known already with `VarConfictError`, and an entity of another type than is known of
/// the entry with `EntityTypeConfictError`. Then, where the map has a value for `context`, it is the context. Refuses
/// one that is no record with `ValueError`, and a context that is there already with `VarConfictError`. Then the map's
/// values are put into the context (`Context::substitute`). Refuses with `ValueEval` where that fails; or if
/// out of memory, with `Memory` alone.
pub fn concretize_request(
    alloc: Global,
    request: &Request,
    map: &HashMap<RcStr, Value>,
    extensions: &Extensions<'_>,
    limit: usize,
) -> Result<Request, ConcretizationError>
    ensures concrete { IsConcretized (extensions_view extensions.now) (calls_of extensions.now) limit
        (values_for map.now.entries) (request_view request.now) result }
    ensures places { IfOk result
        (λ r. entity_locs r ≡ concrete_locs (values_for map.now.entries) (entity_locs request.now)) }
    ensures low { IsResidualNoHigher (values_for map.now.entries) limit (request_view request.now).context_part →
        IfErr result IsBelowLimit }
    ensures memory { IfErr result IsUnwrappedRefusal }
{
    match mapped_request(alloc, request, map) {
        Ok(mapped) => substituted_request(alloc, mapped, map, extensions, limit),
        Err(error) => Err(error),
    }
}

// The request that the map makes, before values are put into its context.
fn mapped_request(
    alloc: Global,
    request: &Request,
    map: &HashMap<RcStr, Value>,
) -> Result<Request, ConcretizationError>
    ensures view { IfSome (answer_by request_view result)
        (λ a. a ≡ concrete_request (values_for map.now.entries) (request_view request.now)) }
    ensures places { IfOk result
        (λ r. entity_locs r ≡ concrete_locs (values_for map.now.entries) (entity_locs request.now)) }
{
    match mapped_entry(alloc, Var::Principal, request.principal(), map) {
        Ok(principal) => with_principal(alloc, request, principal, map),
        Err(error) => Err(error),
    }
}

// The same, where the principal is made.
fn with_principal(
    alloc: Global,
    request: &Request,
    principal: EntityUIDEntry,
    map: &HashMap<RcStr, Value>,
) -> Result<Request, ConcretizationError>
    ensures view { IfSome (answer_by request_view result)
        (λ a. a ≡ after_principal (values_for map.now.entries) (request_view request.now) (entry_view principal)) }
    ensures places { IfOk result (λ r. entity_locs r
        ≡ (
          entry_loc principal,
          concrete_loc (values_for map.now.entries (codes "action")) (entity_locs request.now).1,
          concrete_loc (values_for map.now.entries (codes "resource")) (entity_locs request.now).2,
        )) }
{
    match mapped_entry(alloc, Var::Action, request.action(), map) {
        Ok(action) => with_action(alloc, request, principal, action, map),
        Err(error) => Err(error),
    }
}

// The same, where principal and action are made.
fn with_action(
    alloc: Global,
    request: &Request,
    principal: EntityUIDEntry,
    action: EntityUIDEntry,
    map: &HashMap<RcStr, Value>,
) -> Result<Request, ConcretizationError>
    ensures view { IfSome (answer_by request_view result)
        (λ a. a ≡ after_action (values_for map.now.entries) (request_view request.now) (entry_view principal)
        (entry_view action)) }
    ensures places { IfOk result (λ r. entity_locs r
        ≡ (
          entry_loc principal,
          entry_loc action,
          concrete_loc (values_for map.now.entries (codes "resource")) (entity_locs request.now).2,
        )) }
{
    match mapped_entry(alloc, Var::Resource, request.resource(), map) {
        Ok(resource) => with_resource(alloc, request, principal, action, resource, map),
        Err(error) => Err(error),
    }
}

// The same, where all three are made.
fn with_resource(
    alloc: Global,
    request: &Request,
    principal: EntityUIDEntry,
    action: EntityUIDEntry,
    resource: EntityUIDEntry,
    map: &HashMap<RcStr, Value>,
) -> Result<Request, ConcretizationError>
    ensures view { IfSome (answer_by request_view result)
        (λ a. a ≡ after_resource (values_for map.now.entries) (request_view request.now) (entry_view principal)
        (entry_view action) (entry_view resource)) }
    ensures places { IfOk result (λ r. entity_locs r
        ≡ (entry_loc principal, entry_loc action, entry_loc resource)) }
{
    match mapped_context(alloc, request.context(), map) {
        Ok(context) => Ok(Request::new_with_unknowns(principal, action, resource, context)),
        Err(error) => Err(error),
    }
}

// The request with the map's values in its context.
fn substituted_request(
    alloc: Global,
    request: Request,
    map: &HashMap<RcStr, Value>,
    extensions: &Extensions<'_>,
    limit: usize,
) -> Result<Request, ConcretizationError>
    ensures values { (s : Setting) → s.extensions ≡ extensions_view extensions.now →
        IfSome (answer_by request_view result)
        (IsWithValues s (calls_of extensions.now) limit (values_for map.now.entries) (request_view request)) }
    ensures places { IfOk result (λ r. entity_locs r ≡ entity_locs request) }
    ensures low { IsResidualNoHigher (values_for map.now.entries) limit (request_view request).context_part →
        IfErr result IsBelowLimit }
    ensures memory { IfErr result IsUnwrappedRefusal }
{
    let (principal, action, resource, context) = request.into_parts();
    match with_values(alloc, context, map, extensions, limit) {
        Ok(context) => Ok(Request::new_with_unknowns(principal, action, resource, context)),
        Err(error) => Err(error),
    }
}

// The map's value for the variable, if it has one.
fn value_for<'m>(map: &'m HashMap<RcStr, Value>, var: Var) -> Option<&'m Value>
    ensures { option_map (λ (v : Placed). v.what) (option_copied result)
        ≡ values_for map.now.entries (variable_text (variable_view var)) }
{
    map.get(variable_text(var))
}

#![tactic(auto, using(crate::proofs::UnknownLemmas::unknowns))]
//! What is refused where nothing may be unknown.
ghost use Rattle.std.specs.Prelude.{◌≡◌, [], ◌∷◌, Some, None, option_map, option_copied, codes, OnOk, IfErr};
ghost use Rattle.cedar_model.specs.Settings.{names_of};
ghost use Rattle.cedar_model.specs.Agreement.{IsKnownContext};
ghost use Rattle.cedar_expressions.specs.View.{fields_view};
ghost use Rattle.cedar_values.specs.Residuals.{partial_view};
ghost use Rattle.cedar_layers.specs.Parts.{found_part};
ghost use Rattle.cedar_layers.specs.Stores.{entity_view};
ghost use Rattle.cedar_requests.specs.Contexts.{context_view};
ghost use Rattle.cedar_requests.specs.Requests.{request_view};
ghost use Rattle.cedar_json_reader.specs.Paths.{at_key};
ghost use Rattle.cedar_json_reader.specs.Refusals.{IsRefusedAt};
ghost use Rattle.cedar_json_reader.specs.NothingUnknown.{is_left, first_left, unknown_of, unknown_from, first_open, way_to};
ghost use Rattle.cedar_json_reader.specs.NothingUnknown.{AreKnownEntities, IsUnknownAt, IsUnknownContext};
ghost use Rattle.cedar_json_reader.specs.declared.errors.RefusalReason.TheVariants as reasons;

use crate::errors::{JsonError, RefusalReason};
use cedar_expressions::Expr;
use cedar_layers::policies::Entity;
use cedar_requests::{Context, Request};
use cedar_values::PartialValue;
use std::alloc::Global;
use std::collections::BTreeMap;
use std::rc::RcStr;

// ---- entities

/// Refuses entities in which an unknown stands, with `Unknown`, at the first attribute or tag in which one does, in
/// their order.
pub(crate) fn refuse_unknown_entities(alloc: Global, entities: &[Entity]) -> Result<(), JsonError>
    ensures known { OnOk result (AreKnownEntities entities.now) }
    ensures refused { IfErr result (IsUnknownAt (unknown_from 0 entities.now)) }
{
    let mut index: usize = 0;
    'entities: for entity in entities {
        match refuse_unknown_entity(alloc, entity) {
            Ok(()) => index += 1,
            Err(error) => return Err(error.under_index(index)),
        }
    }
    Ok(())
}

fn refuse_unknown_entity(alloc: Global, entity: &Entity) -> Result<(), JsonError>
    ensures known { OnOk result (unknown_of (entity_view entity.now) ≡ None) }
    ensures refused { IfErr result (IsUnknownAt (unknown_of (entity_view entity.now))) }
{
    match first_left_attribute(entity) {
        Some(name) => Err(refuse_unknown_at(alloc, "attrs", name)),
        None => match first_left_tag(entity) {
            Some(name) => Err(refuse_unknown_at(alloc, "tags", name)),
            None => Ok(()),
        },
    }
}

// The first attribute in which an unknown stands.
fn first_left_attribute(entity: &Entity) -> Option<&str>
    ensures { option_map (λ k. k.now) result ≡ first_left (entity_view entity.now).attributes
        (names_of (entity_view entity.now).attributes) }
{
    'names: for name in entity.keys() {
        if is_left(entity.get(name.as_str())) {
            return Some(name.as_str());
        }
    }
    None
}

// The first tag in which one does.
fn first_left_tag(entity: &Entity) -> Option<&str>
    ensures { option_map (λ k. k.now) result ≡ first_left (entity_view entity.now).tags
        (names_of (entity_view entity.now).tags) }
{
    'names: for name in entity.tag_keys() {
        if is_left(entity.get_tag(name.as_str())) {
            return Some(name.as_str());
        }
    }
    None
}

fn is_left(part: Option<&PartialValue>) -> bool
    ensures { result ≡ is_left (found_part (option_copied part.entry)) }
{
    match part {
        Some(part) => is_residual(part),
        None => false,
    }
}

fn is_residual(part: &PartialValue) -> bool
    ensures { result ≡ is_left (Some (partial_view part.now)) }
{
    match part {
        PartialValue::Value(_) => false,
        PartialValue::Residual(_) => true,
    }
}

#[cold]
fn refuse_unknown_at(alloc: Global, key: &str, name: &str) -> JsonError
    ensures { IsRefusedAt (at_key key.now ∷ at_key name.now ∷ []) reasons.Unknown result }
{
    JsonError::refusal(alloc, RefusalReason::Unknown)
        .under_key(alloc, name)
        .under_key(alloc, key)
}

// ---- contexts

/// Refuses a context in which an unknown stands, with `Unknown`, at the first attribute in which one does.
pub(crate) fn refuse_unknown_context(alloc: Global, context: &Context) -> Result<(), JsonError>
    ensures known { OnOk result (IsKnownContext (context_view context.now)) }
    ensures refused { IfErr result (IsUnknownContext (context_view context.now) []) }
{
    match context.as_residual() {
        None => Ok(()),
        Some(fields) => Err(refuse_open(alloc, first_open(fields))),
    }
}

// The name of the first expression that has an unknown.
fn first_open(fields: &BTreeMap<RcStr, Expr>) -> Option<&str>
    ensures { option_map (λ k. k.now) result ≡ first_open (fields_view fields.now.entries) }
{
    'fields: for (name, expr) in fields {
        if expr.has_unknown() {
            return Some(name.as_str());
        }
    }
    None
}

#[cold]
fn refuse_open(alloc: Global, name: Option<&str>) -> JsonError
    ensures { IsRefusedAt (way_to (option_map (λ k. k.now) name.entry)) reasons.Unknown result }
{
    let error = JsonError::refusal(alloc, RefusalReason::Unknown);
    match name {
        Some(name) => error.under_key(alloc, name),
        None => error,
    }
}

/// Refuses a request whose context is not known, with `Unknown`, at the first attribute in which an unknown stands.
pub(crate) fn refuse_unknown_request(alloc: Global, request: &Request) -> Result<(), JsonError>
    ensures known { OnOk result (IsKnownContext (request_view request.now).context_part) }
    ensures refused { IfErr result
        (IsUnknownContext (request_view request.now).context_part (at_key (codes "context") ∷ [])) }
{
    match request.context() {
        Some(context) => match refuse_unknown_context(alloc, context) {
            Ok(()) => Ok(()),
            Err(error) => Err(error.under_key(alloc, "context")),
        },
        None => Err(refuse_open(alloc, Some("context"))),
    }
}

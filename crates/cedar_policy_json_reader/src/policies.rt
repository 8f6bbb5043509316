#![tactic(auto, using(crate::proofs::Views::views, crate::proofs::Refused::refusals, crate::proofs::Members::members))]
//! Policies and templates.
ghost use Rattle.std.specs.Prelude.{◌≡◌, [], ◌∷◌, ◌++◌, None, Ok, map, length, option_map, codes, OnOk, IfOk, IfErr};
ghost use Rattle.std.specs.Option.{option_and_then};
ghost use Rattle.json.specs.Find.{as_array, as_str, get};
ghost use Rattle.json.specs.Strict.{keys};
ghost use Rattle.json.specs.Value.{value_view, items_view, members_view};
ghost use Rattle.cedar_model.specs.Terms as model;
ghost use Rattle.cedar_names.specs.Leaves.{variable_view};
ghost use Rattle.cedar_expressions.specs.View.{view};
ghost use Rattle.cedar_functions.specs.Functions.{knowledge};
ghost use Rattle.cedar_layers.specs.Policies.{policy_view, effect_view, policy_id_text, annotations_view};
ghost use Rattle.cedar_policy_json_reader.specs.Expressions.{expression_said};
ghost use Rattle.cedar_policy_json_reader.specs.Lists.{IsOneMore};
ghost use Rattle.cedar_policy_json_reader.specs.Paths.{at_key, at_index};
ghost use Rattle.cedar_policy_json_reader.specs.Policies as says;
ghost use Rattle.cedar_policy_json_reader.specs.Refusals.{IsRefusal, IsMemory, under, made_of, and_then, both_said};
ghost use Rattle.cedar_policy_json_reader.specs.Shapes as shapes;

use crate::annotations::annotations_at;
use crate::conditions::conditions_at;
use crate::errors::{PolicyJsonError, RefusalReason};
use crate::scopes::scope;
use crate::shapes::{member_count, missing};
use cedar_expressions::Expr;
use cedar_functions::Functions;
use cedar_layers::policies::{Annotations, Effect, Policy, PolicyID};
use cedar_names::{SlotEnv, Var};
use json::Value;
use std::alloc::Global;

// The constraints on the principal, the action and the resource.
type Scopes = (Expr, (Expr, Expr));

/// The policy of this id that the JSON value says: an object of `effect`, `principal`, `action`, `resource`,
/// `conditions` and, where there are any, `annotations`. No slot stands in its scope. The levels of a condition are at
/// most `limit`, and its functions are of these. Refuses with `Refused`, which holds the path of the part that is
/// refused first, and the reason; `Memory` is out of memory.
pub fn policy_from_json(
    alloc: Global,
    json: &Value<'_>,
    id: PolicyID,
    functions: &Functions,
    limit: usize,
) -> Result<Policy, PolicyJsonError>
    ensures said { IfOk result (λ p. says.policy_said (knowledge functions.now) limit (policy_id_text id)
        (value_view json.now) ≡ Ok (policy_view p)) }
    ensures refused { IfErr result (IsRefusal (says.policy_said (knowledge functions.now) limit (policy_id_text id)
        (value_view json.now))) }
{
    read_policy(alloc, false, json, id, functions, limit)
}

/// The template of this id that the JSON value says: as a policy, but that slots may stand in its scope, each in the
/// constraint on its own variable. No slot has a value. Refuses as `policy_from_json` does.
pub fn template_from_json(
    alloc: Global,
    json: &Value<'_>,
    id: PolicyID,
    functions: &Functions,
    limit: usize,
) -> Result<Policy, PolicyJsonError>
    ensures said { IfOk result (λ p. says.template_said (knowledge functions.now) limit (policy_id_text id)
        (value_view json.now) ≡ Ok (policy_view p)) }
    ensures refused { IfErr result (IsRefusal (says.template_said (knowledge functions.now) limit (policy_id_text id)
        (value_view json.now))) }
{
    read_policy(alloc, true, json, id, functions, limit)
}

fn read_policy(
    alloc: Global,
    is_open: bool,
    json: &Value<'_>,
    id: PolicyID,
    functions: &Functions,
    limit: usize,
) -> Result<Policy, PolicyJsonError>
    ensures said { IfOk result (λ p. says.policy_by is_open (expression_said (knowledge functions.now) limit)
        (policy_id_text id) (value_view json.now) ≡ Ok (policy_view p)) }
    ensures refused { IfErr result (IsRefusal (says.policy_by is_open
        (expression_said (knowledge functions.now) limit) (policy_id_text id) (value_view json.now))) }
{
    match member_count(json) {
        Some(count) => if count > member_limit(json) {
            drop(id);
            Err(PolicyJsonError::refusal(alloc, RefusalReason::UnexpectedMember))
        } else {
            read_whole(alloc, is_open, json, id, functions, limit)
        },
        None => {
            drop(id);
            Err(PolicyJsonError::refusal(alloc, RefusalReason::NotAnObject))
        }
    }
}

// How many members a policy has.
fn member_limit(json: &Value<'_>) -> usize
    ensures { result ≡ says.member_limit (get (codes "annotations") (value_view json.now)) }
{
    match json.get("annotations") {
        Some(_) => 6,
        None => 5,
    }
}

fn read_whole(
    alloc: Global,
    is_open: bool,
    json: &Value<'_>,
    id: PolicyID,
    functions: &Functions,
    limit: usize,
) -> Result<Policy, PolicyJsonError>
    ensures said { IfOk result (λ p. says.whole_said is_open (expression_said (knowledge functions.now) limit)
        (policy_id_text id) (value_view json.now) ≡ Ok (policy_view p)) }
    ensures refused { IfErr result (IsRefusal (says.whole_said is_open
        (expression_said (knowledge functions.now) limit) (policy_id_text id) (value_view json.now))) }
{
    match effect_at(alloc, json) {
        Ok(effect) => match read_annotated(alloc, is_open, json, functions, limit) {
            Ok((terms, annotations)) => made_policy(alloc, effect, id, terms, annotations),
            Err(error) => {
                drop(id);
                Err(error)
            }
        },
        Err(error) => {
            drop(id);
            Err(error)
        }
    }
}

fn made_policy(
    alloc: Global,
    effect: Effect,
    id: PolicyID,
    terms: (Scopes, Expr),
    annotations: Annotations,
) -> Result<Policy, PolicyJsonError>
    ensures said { IfOk result (λ p. policy_view p ≡ says.policy_made (policy_id_text id) (
      effect_view effect,
      (((view terms.0.0, (view terms.0.1.0, view terms.0.1.1)), view terms.1), annotations_view annotations),
    )) }
    ensures memory { IfErr result IsMemory }
{
    let ((principal, (action, resource)), when) = terms;
    let env = SlotEnv::new(alloc);
    match Policy::new(
        alloc,
        effect,
        id,
        annotations,
        principal,
        action,
        resource,
        when,
        env,
    ) {
        Ok(policy) => Ok(policy),
        Err(error) => Err(PolicyJsonError::Memory(error)),
    }
}

// ---- effect

fn effect_at(alloc: Global, json: &Value<'_>) -> Result<Effect, PolicyJsonError>
    ensures said { IfOk result (λ e. says.effect_at (value_view json.now) ≡ Ok (effect_view e)) }
    ensures refused { IfErr result (IsRefusal (says.effect_at (value_view json.now))) }
{
    match json.get("effect") {
        Some(effect) => match effect_in(effect) {
            Some(effect) => Ok(effect),
            None => Err(PolicyJsonError::refusal_at(alloc, "effect", RefusalReason::NotAnEffect)),
        },
        None => Err(missing(alloc, "effect")),
    }
}

fn effect_in(value: &Value<'_>) -> Option<Effect>
    ensures { option_map effect_view result ≡ option_and_then says.effect_named (as_str (value_view value.now)) }
{
    match value.as_str() {
        Some(text) => effect_named(text),
        None => None,
    }
}

fn effect_named(text: &str) -> Option<Effect>
    ensures { option_map effect_view result ≡ says.effect_named text.now }
{
    if text == "permit" {
        Some(Effect::Permit)
    } else if text == "forbid" {
        Some(Effect::Forbid)
    } else {
        None
    }
}

// ---- scopes, conditions and annotations

fn read_annotated(
    alloc: Global,
    is_open: bool,
    json: &Value<'_>,
    functions: &Functions,
    limit: usize,
) -> Result<((Scopes, Expr), Annotations), PolicyJsonError>
    ensures said { IfOk result (λ p. says.annotated_said is_open (expression_said (knowledge functions.now) limit)
        (value_view json.now) ≡ Ok (
          ((view p.0.0.0, (view p.0.0.1.0, view p.0.0.1.1)), view p.0.1),
          annotations_view p.1,
        )) }
    ensures refused { IfErr result (IsRefusal (says.annotated_said is_open
        (expression_said (knowledge functions.now) limit) (value_view json.now))) }
{
    match read_terms(alloc, is_open, json, functions, limit) {
        Ok(terms) => match annotations_at(alloc, json) {
            Ok(annotations) => Ok((terms, annotations)),
            Err(error) => {
                drop(terms);
                Err(error)
            }
        },
        Err(error) => Err(error),
    }
}

fn read_terms(
    alloc: Global,
    is_open: bool,
    json: &Value<'_>,
    functions: &Functions,
    limit: usize,
) -> Result<(Scopes, Expr), PolicyJsonError>
    ensures said { IfOk result (λ p. says.terms_said is_open (expression_said (knowledge functions.now) limit)
        (value_view json.now) ≡ Ok ((view p.0.0, (view p.0.1.0, view p.0.1.1)), view p.1)) }
    ensures refused { IfErr result (IsRefusal (says.terms_said is_open
        (expression_said (knowledge functions.now) limit) (value_view json.now))) }
{
    match read_scopes(alloc, is_open, json) {
        Ok(scopes) => match conditions_at(alloc, json, functions, limit) {
            Ok(when) => Ok((scopes, when)),
            Err(error) => {
                drop(scopes);
                Err(error)
            }
        },
        Err(error) => Err(error),
    }
}

fn read_scopes(alloc: Global, is_open: bool, json: &Value<'_>) -> Result<Scopes, PolicyJsonError>
    ensures said { IfOk result (λ p. says.scopes_said is_open (value_view json.now)
        ≡ Ok (view p.0, (view p.1.0, view p.1.1))) }
    ensures refused { IfErr result (IsRefusal (says.scopes_said is_open (value_view json.now))) }
{
    match scope_at(alloc, is_open, Var::Principal, "principal", json) {
        Ok(principal) => match read_action_and_resource(alloc, is_open, json) {
            Ok(others) => Ok((principal, others)),
            Err(error) => {
                drop(principal);
                Err(error)
            }
        },
        Err(error) => Err(error),
    }
}

fn read_action_and_resource(
    alloc: Global,
    is_open: bool,
    json: &Value<'_>,
) -> Result<(Expr, Expr), PolicyJsonError>
    ensures said { IfOk result
        (λ p. says.action_and_resource is_open (value_view json.now) ≡ Ok (view p.0, view p.1)) }
    ensures refused { IfErr result (IsRefusal (says.action_and_resource is_open (value_view json.now))) }
{
    match scope_at(alloc, is_open, Var::Action, "action", json) {
        Ok(action) => match scope_at(alloc, is_open, Var::Resource, "resource", json) {
            Ok(resource) => Ok((action, resource)),
            Err(error) => {
                drop(action);
                Err(error)
            }
        },
        Err(error) => Err(error),
    }
}

// The constraint on the variable, which stands at this key.
fn scope_at(
    alloc: Global,
    is_open: bool,
    var: Var,
    key: &str,
    json: &Value<'_>,
) -> Result<Expr, PolicyJsonError>
    ensures said { IfOk result
        (λ e. says.scope_at is_open key.now (variable_view var) (value_view json.now) ≡ Ok (view e)) }
    ensures refused { IfErr result
        (IsRefusal (says.scope_at is_open key.now (variable_view var) (value_view json.now))) }
{
    match json.get(key) {
        Some(value) => match scope(alloc, is_open, var, value) {
            Ok(constraint) => Ok(constraint),
            Err(error) => Err(error.under_key(alloc, key)),
        },
        None => Err(missing(alloc, key)),
    }
}

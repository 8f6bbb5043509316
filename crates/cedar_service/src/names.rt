#![tactic(auto, using(cedar_json_reader::proofs::Views::views, crate::proofs::Told::told))]
//! The entities of a request.
ghost use Rattle.std.specs.Prelude.{◌≡◌, ◌++◌, [], ◌∷◌, Ok, Err, Some, true, IfOk, IfErr, OnOk, codes, is_some};
ghost use Rattle.json.specs.Json.{object, member, no_members};
ghost use Rattle.json.specs.Value.{value_view, members_view};
ghost use Rattle.cedar_names.specs.Names.{uid_name};
ghost use Rattle.cedar_restricted.specs.Readers.{entity_in};
ghost use Rattle.cedar_restricted.specs.Views.{restricted_term};
ghost use Rattle.cedar_endpoints.specs.Asked.{named_view};
ghost use Rattle.cedar_service.specs.Asked.{entity_said, action_named, IsUnnamed, uid_json};
ghost use Rattle.cedar_service.specs.Faults.{IsFault, IsToldAs, IsOfJson};

use crate::faults::{Refusal, refuse};
use cedar_endpoints::Named;
use cedar_json_reader::{JsonError, restricted_expr_from_json_value};
use cedar_names::EntityUID;
use cedar_restricted::RestrictedExpr;
use json::Value;
use std::alloc::{AllocError, Global};

/// The entity of this type and this id. Refuses a type that is no name, which stands at this path.
pub(crate) fn entity_of(alloc: Global, named: Named<'_>, path: &str) -> Result<EntityUID, Refusal>
    ensures said { IfOk result (λ u. entity_said (named_view named.entry) ≡ Ok (uid_name u)) }
    ensures refused { IfErr result (IsToldAs (λ t.
        IsUnnamed (named_view named.entry) × IsFault path.now (codes "not a name") t)) }
{
    match uid_value(alloc, named) {
        Ok(value) => read_uid(alloc, named, &value, path),
        Err(AllocError) => Err(Refusal::Memory),
    }
}

/// The action of this type and this name.
pub(crate) fn action_of(
    alloc: Global,
    action_type: &str,
    name: &str,
) -> Result<EntityUID, AllocError>
    ensures { IfOk result (λ u. uid_name u ≡ action_named action_type.now name.now) }
{
    EntityUID::of(alloc, action_type, name)
}

fn read_uid(
    alloc: Global,
    named: Named<'_>,
    value: &Value<'_>,
    path: &str,
) -> Result<EntityUID, Refusal>
    requires { value_view value.now ≡ uid_json (named_view named) }
    ensures said { IfOk result (λ u. entity_said (named_view named.entry) ≡ Ok (uid_name u)) }
    ensures refused { IfErr result (IsToldAs (λ t.
        IsUnnamed (named_view named.entry) × IsFault path.now (codes "not a name") t)) }
{
    match restricted_expr_from_json_value(alloc, value) {
        Ok(expr) => uid_of(expr),
        Err(error) => Err(refuse_name(alloc, path, error)),
    }
}

// The refusal of a type that is no name.
#[cold]
fn refuse_name(alloc: Global, path: &str, error: JsonError) -> Refusal
    ensures json { IsToldAs (λ _. IsOfJson error) result }
    ensures fault { IsToldAs (IsFault path.now (codes "not a name")) result }
{
    match error {
        JsonError::Syntax => refuse(alloc, path, "not a name"),
        JsonError::DuplicateKey => refuse(alloc, path, "not a name"),
        JsonError::Refused { .. } => refuse(alloc, path, "not a name"),
        JsonError::Evaluation { .. } => refuse(alloc, path, "not a name"),
        JsonError::Memory(_) => Refusal::Memory,
    }
}

fn uid_of(expr: RestrictedExpr) -> Result<EntityUID, Refusal>
    requires { is_some (entity_in (restricted_term expr)) ≡ true }
    ensures entity { IfOk result (λ u. entity_in (restricted_term expr) ≡ Some (uid_name u)) }
    ensures memory { IfErr result (IsToldAs (λ _. ⊥)) }
{
    let uid = uid_in(&expr);
    drop(expr);
    match uid {
        Ok(uid) => Ok(uid),
        Err(AllocError) => Err(Refusal::Memory),
    }
}

// The entity that the expression is.
fn uid_in(expr: &RestrictedExpr) -> Result<EntityUID, AllocError>
    requires { is_some (entity_in (restricted_term expr.now)) ≡ true }
    ensures { IfOk result (λ u. entity_in (restricted_term expr.now) ≡ Some (uid_name u)) }
{
    match expr.as_euid() {
        Some(uid) => Ok(uid.clone()?),
        None => unreachable!(),
    }
}

// The JSON of an entity of this type and this id.
fn uid_value<'v>(alloc: Global, named: Named<'v>) -> Result<Value<'v>, AllocError>
    ensures { IfOk result (λ v. value_view v ≡ uid_json (named_view named.entry)) }
{
    let mut parts: Vec<(&'v str, Value<'v>)> = Vec::new(alloc);
    put_part("type", Value::String(named.type_name), &mut parts)?;
    put_part("id", Value::String(named.id), &mut parts)?;
    let mut whole: Vec<(&'v str, Value<'v>)> = Vec::new(alloc);
    put_part("__entity", Value::Object(parts), &mut whole)?;
    Ok(Value::Object(whole))
}

fn put_part<'v>(
    key: &'v str,
    value: Value<'v>,
    parts: &mut Vec<(&'v str, Value<'v>)>,
) -> Result<(), AllocError>
    ensures { OnOk result (parts.new.items ≡ parts.old.items ++ (key.entry, value.entry) ∷ []) }
{
    match parts.push((key, value)) {
        Ok(()) => Ok(()),
        Err(_) => Err(AllocError),
    }
}

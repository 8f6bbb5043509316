//! Entities and calls.
ghost use Rattle.std.specs.Prelude.{◌≡◌, [], ◌∷◌, None, Ok, map, IfOk, IfErr};
ghost use Rattle.std.specs.Rc.{rc_str_bytes};
ghost use Rattle.json.specs.Value.{value_view};
ghost use Rattle.cedar_model.specs.Terms.{unknown, call, terms_of};
ghost use Rattle.cedar_names.specs.Names.{uid_name};
ghost use Rattle.cedar_restricted.specs.Views.{restricted_term};
ghost use Rattle.cedar_json_reader.specs.Refusals.{IsRefusal, IsRefusedAt, IsMemory};
ghost use Rattle.cedar_json_reader.specs.Paths.{at_key};
ghost use Rattle.cedar_json_reader.specs.Said as says;
ghost use Rattle.cedar_json_reader.specs.declared.errors.RefusalReason.TheVariants as reasons;

use crate::errors::{JsonError, RefusalReason};
use crate::names::is_name;
use crate::shapes::uid_shape;
use cedar_names::{EntityType, EntityUID, Literal, Name, Unknown};
use cedar_restricted::RestrictedExpr;
use json::Value;
use std::alloc::Global;
use std::rc::{Rc, RcStr};

/// Whether no attribute can have this key: that of an entity, of a call, or one that Cedar's JSON had once.
pub(crate) fn is_reserved_key(key: &str) -> bool
    ensures { result ≡ says.is_reserved_key key.now }
{
    key == "__entity" || key == "__extn" || key == "__expr"
}

/// The entity of a type and an id.
pub(crate) fn uid(alloc: Global, value: &Value<'_>) -> Result<EntityUID, JsonError>
    ensures said { IfOk result (λ u. says.uid_said (value_view value.now) ≡ Ok (uid_name u)) }
    ensures refused { IfErr result (IsRefusal (says.uid_said (value_view value.now))) }
{
    match uid_shape(value) {
        Some((ty, id)) => if is_name(ty) {
            named_uid(alloc, ty, id)
        } else {
            Err(no_name(alloc, "type"))
        },
        None => Err(JsonError::refusal(alloc, RefusalReason::NotAnEntity)),
    }
}

fn named_uid(alloc: Global, ty: &str, id: &str) -> Result<EntityUID, JsonError>
    ensures said { IfOk result (λ u. uid_name u ≡ record { type_name = ty.now; id = id.now }) }
    ensures memory { IfErr result IsMemory }
{
    let ty = RcStr::from_str(alloc, ty)?;
    let id = RcStr::from_str(alloc, id)?;
    Ok(EntityUID::new(EntityType::new(Name::new(ty, None)), id, None))
}

// The refusal of what stands at this key, which is no name.
#[cold]
fn no_name(alloc: Global, key: &str) -> JsonError
    ensures { IsRefusedAt (at_key key.now ∷ []) reasons.NotAName result }
{
    JsonError::refusal(alloc, RefusalReason::NotAName).under_key(alloc, key)
}

/// The expression of the entity.
pub(crate) fn entity(alloc: Global, value: &Value<'_>) -> Result<RestrictedExpr, JsonError>
    ensures said { IfOk result (λ r. says.entity_said (value_view value.now) ≡ Ok (restricted_term r)) }
    ensures refused { IfErr result (IsRefusal (says.entity_said (value_view value.now))) }
{
    match uid(alloc, value) {
        Ok(uid) => match Rc::new(alloc, uid) {
            Ok(uid) => Ok(RestrictedExpr::val(Literal::EntityUID(uid))),
            Err(failed) => Err(JsonError::from(failed)),
        },
        Err(error) => Err(error.under_key(alloc, "__entity")),
    }
}

/// The call of the function on these arguments, or the unknown that they name.
pub(crate) fn make_call(
    alloc: Global,
    function: &str,
    args: Vec<RestrictedExpr>,
) -> Result<RestrictedExpr, JsonError>
    ensures said { IfOk result
        (λ r. says.called function.now (map restricted_term args.items) ≡ Ok (restricted_term r)) }
    ensures refused { IfErr result (IsRefusal (says.called function.now (map restricted_term args.items))) }
{
    if function == "unknown" {
        let name = unknown_name(alloc, args.as_slice());
        drop(args);
        Ok(RestrictedExpr::unknown(Unknown::new_untyped(name?)))
    } else if is_name(function) {
        extension_call(alloc, function, args)
    } else {
        drop(args);
        Err(no_name(alloc, "fn"))
    }
}

fn extension_call(
    alloc: Global,
    function: &str,
    args: Vec<RestrictedExpr>,
) -> Result<RestrictedExpr, JsonError>
    ensures said { IfOk result
        (λ r. restricted_term r ≡ call function.now (terms_of (map restricted_term args.items))) }
    ensures memory { IfErr result IsMemory }
{
    match RcStr::from_str(alloc, function) {
        Ok(name) => match RestrictedExpr::call_extension_fn(alloc, Name::new(name, None), args) {
            Ok(call) => Ok(call),
            Err(error) => Err(JsonError::Memory(error)),
        },
        Err(error) => {
            drop(args);
            Err(JsonError::Memory(error))
        }
    }
}

// The name of the unknown: the one argument, which is a text.
fn unknown_name(alloc: Global, args: &[RestrictedExpr]) -> Result<RcStr, JsonError>
    ensures said { IfOk result
        (λ n. says.unknown_said (map restricted_term args.now) ≡ Ok (unknown (rc_str_bytes n) None)) }
    ensures refused { IfErr result (IsRefusal (says.unknown_said (map restricted_term args.now))) }
{
    if args.len() != 1 {
        return Err(JsonError::refusal(alloc, RefusalReason::NotAnUnknown));
    }
    match args[0].as_string() {
        Some(name) => match name.clone() {
            Ok(name) => Ok(name),
            Err(error) => Err(JsonError::Memory(error)),
        },
        None => Err(JsonError::refusal(alloc, RefusalReason::NotAnUnknown)),
    }
}

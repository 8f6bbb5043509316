#![tactic(auto, using(crate::proofs::Views::views, crate::proofs::Refused::refusals))]
//! Names, entities, literals, variables, types and unknowns.
ghost use Rattle.std.specs.Prelude.{◌≡◌, [], ◌∷◌, None, Ok, option_map, codes, IfOk, IfErr};
ghost use Rattle.std.specs.Option.{option_and_then};
ghost use Rattle.json.specs.Find.{as_number, as_str};
ghost use Rattle.json.specs.Value.{value_view, members_view};
ghost use Rattle.cedar_model.specs.Terms as model;
ghost use Rattle.cedar_names.specs.Names.{uid_name, name_text};
ghost use Rattle.cedar_names.specs.Leaves.{literal_view, variable_view, type_view};
ghost use Rattle.cedar_expressions.specs.View.{view};
ghost use Rattle.cedar_policy_json_reader.specs.Leaves as says;
ghost use Rattle.cedar_policy_json_reader.specs.Numbers.{long_in, signed_long_of_text};
ghost use Rattle.cedar_policy_json_reader.specs.Paths.{at_key};
ghost use Rattle.cedar_policy_json_reader.specs.Refusals.{IsRefusal, IsRefusedAt, IsMemory, under, made_of, and_then};
ghost use Rattle.cedar_policy_json_reader.specs.Names as names;
ghost use Rattle.cedar_policy_json_reader.specs.Shapes as shapes;
ghost use Rattle.cedar_policy_json_reader.specs.declared.errors.RefusalReason.TheVariants as reasons;

use crate::errors::{PolicyJsonError, RefusalReason};
use crate::names::is_name;
use crate::operators::{type_named, variable_named};
use crate::shapes::{one_member, sole, text, text_at, two_members};
use cedar_expressions::Expr;
use cedar_names::{EntityType, EntityUID, Literal, Name, Type, Unknown, Var};
use json::Value;
use std::alloc::Global;
use std::rc::{Rc, RcStr};

// ---- names and entities

// The text that the value is, which is a name: words with `::` between them, none of which is reserved.
fn name<'a>(alloc: Global, value: &Value<'a>) -> Result<&'a str, PolicyJsonError>
    ensures said { IfOk result (λ t. says.name_said (value_view value.now) ≡ Ok t.now) }
    ensures refused { IfErr result (IsRefusal (says.name_said (value_view value.now))) }
{
    match text(alloc, value) {
        Ok(text) => checked_name(alloc, text),
        Err(error) => Err(error),
    }
}

fn checked_name<'a>(alloc: Global, text: &'a str) -> Result<&'a str, PolicyJsonError>
    ensures said { IfOk result (λ t. says.name_of_text text.now ≡ Ok t.now) }
    ensures refused { IfErr result (IsRefusal (says.name_of_text text.now)) }
{
    if is_name(text) {
        Ok(text)
    } else {
        Err(PolicyJsonError::refusal(alloc, RefusalReason::NotAName))
    }
}

/// The name that the value at this key is.
pub(crate) fn name_at<'a>(
    alloc: Global,
    key: &str,
    value: &Value<'a>,
) -> Result<&'a str, PolicyJsonError>
    ensures said { IfOk result (λ t. under (at_key key.now) (says.name_said (value_view value.now)) ≡ Ok t.now) }
    ensures refused { IfErr result (IsRefusal (under (at_key key.now) (says.name_said (value_view value.now)))) }
{
    match name(alloc, value) {
        Ok(name) => Ok(name),
        Err(error) => Err(error.under_key(alloc, key)),
    }
}

/// The entity of a type and an id.
pub(crate) fn uid(alloc: Global, value: &Value<'_>) -> Result<EntityUID, PolicyJsonError>
    ensures said { IfOk result (λ u. says.uid_said (value_view value.now) ≡ Ok (uid_name u)) }
    ensures refused { IfErr result (IsRefusal (says.uid_said (value_view value.now))) }
{
    match two_members(alloc, value, "type", "id") {
        Ok((ty, id)) => uid_of(alloc, ty, id),
        Err(error) => Err(error),
    }
}

fn uid_of(alloc: Global, ty: &Value<'_>, id: &Value<'_>) -> Result<EntityUID, PolicyJsonError>
    ensures said { IfOk result (λ u. made_of says.entity_of
        (says.type_and_id_said (value_view ty.now, value_view id.now)) ≡ Ok (uid_name u)) }
    ensures refused { IfErr result (IsRefusal (made_of says.entity_of
        (says.type_and_id_said (value_view ty.now, value_view id.now)))) }
{
    match name_at(alloc, "type", ty) {
        Ok(ty) => match text_at(alloc, "id", id) {
            Ok(id) => made_uid(alloc, ty, id),
            Err(error) => Err(error),
        },
        Err(error) => Err(error),
    }
}

fn made_uid(alloc: Global, ty: &str, id: &str) -> Result<EntityUID, PolicyJsonError>
    ensures said { IfOk result (λ u. uid_name u ≡ record { type_name = ty.now; id = id.now }) }
    ensures memory { IfErr result IsMemory }
{
    match EntityUID::of(alloc, ty, id) {
        Ok(uid) => Ok(uid),
        Err(error) => Err(PolicyJsonError::Memory(error)),
    }
}

/// The name of this text.
pub(crate) fn made_name(alloc: Global, text: &str) -> Result<Name, PolicyJsonError>
    ensures said { IfOk result (λ n. name_text n ≡ text.now) }
    ensures memory { IfErr result IsMemory }
{
    match RcStr::from_str(alloc, text) {
        Ok(text) => Ok(Name::new(text, None)),
        Err(error) => Err(PolicyJsonError::Memory(error)),
    }
}

// ---- literals

/// The expression of a boolean, a long, a text or an entity.
pub(crate) fn value(alloc: Global, value: &Value<'_>) -> Result<Expr, PolicyJsonError>
    ensures said { IfOk result
        (λ e. made_of model.literal (says.literal_said (value_view value.now)) ≡ Ok (view e)) }
    ensures refused { IfErr result (IsRefusal (made_of model.literal (says.literal_said (value_view value.now)))) }
{
    match literal(alloc, value) {
        Ok(literal) => Ok(Expr::val(literal)),
        Err(error) => Err(error),
    }
}

fn literal(alloc: Global, value: &Value<'_>) -> Result<Literal, PolicyJsonError>
    ensures said { IfOk result (λ l. says.literal_said (value_view value.now) ≡ Ok (literal_view l)) }
    ensures refused { IfErr result (IsRefusal (says.literal_said (value_view value.now))) }
{
    match value {
        Value::Null => Err(PolicyJsonError::refusal(alloc, RefusalReason::NotALiteral)),
        Value::Bool(flag) => Ok(Literal::Bool(*flag)),
        Value::Number(_) => read_long(alloc, value),
        Value::String(text) => read_text(alloc, text),
        Value::Array(_) => Err(PolicyJsonError::refusal(alloc, RefusalReason::NotALiteral)),
        Value::Object(members) => read_escape(alloc, members),
    }
}

fn read_long(alloc: Global, number: &Value<'_>) -> Result<Literal, PolicyJsonError>
    ensures said { IfOk result
        (λ l. says.long_said (long_in (value_view number.now)) ≡ Ok (literal_view l)) }
    ensures refused { IfErr result (IsRefusal (says.long_said (long_in (value_view number.now)))) }
{
    match long_in(number) {
        Some(long) => Ok(Literal::Long(long)),
        None => Err(PolicyJsonError::refusal(alloc, RefusalReason::NotALong)),
    }
}

// The long that a number writes. `-0` is none.
fn long_in(number: &Value<'_>) -> Option<i64>
    ensures { result ≡ long_in (value_view number.now) }
{
    match number.as_number() {
        Some(text) => if text == "-0" {
            None
        } else {
            signed_long_in(number)
        },
        None => None,
    }
}

// The same, and zero for `-0`.
#[tactic(auto, using(crate::proofs::Longs::long_parsed))]
fn signed_long_in(number: &Value<'_>) -> Option<i64>
    ensures { result ≡ option_and_then signed_long_of_text (as_number (value_view number.now)) }
{
    number.as_i64()
}

fn read_text(alloc: Global, text: &str) -> Result<Literal, PolicyJsonError>
    ensures said { IfOk result (λ l. literal_view l ≡ model.text_literal text.now) }
    ensures memory { IfErr result IsMemory }
{
    match RcStr::from_str(alloc, text) {
        Ok(text) => Ok(Literal::String(text)),
        Err(error) => Err(PolicyJsonError::Memory(error)),
    }
}

// The entity at `__entity`, the one member.
fn read_escape<'a>(
    alloc: Global,
    members: &Vec<(&'a str, Value<'a>)>,
) -> Result<Literal, PolicyJsonError>
    ensures said { IfOk result
        (λ l. says.escape_said (shapes.sole (members_view members.now.items)) ≡ Ok (literal_view l)) }
    ensures refused { IfErr result
        (IsRefusal (says.escape_said (shapes.sole (members_view members.now.items)))) }
{
    match sole(members) {
        Some((key, value)) => if key == "__entity" {
            read_entity(alloc, value)
        } else {
            Err(PolicyJsonError::refusal(alloc, RefusalReason::NotALiteral))
        },
        None => Err(PolicyJsonError::refusal(alloc, RefusalReason::NotALiteral)),
    }
}

fn read_entity(alloc: Global, value: &Value<'_>) -> Result<Literal, PolicyJsonError>
    ensures said { IfOk result (λ l. under (at_key (codes "__entity"))
        (made_of model.entity_literal (says.uid_said (value_view value.now))) ≡ Ok (literal_view l)) }
    ensures refused { IfErr result (IsRefusal (under (at_key (codes "__entity"))
        (made_of model.entity_literal (says.uid_said (value_view value.now))))) }
{
    match uid(alloc, value) {
        Ok(uid) => match Rc::new(alloc, uid) {
            Ok(uid) => Ok(Literal::EntityUID(uid)),
            Err(failed) => Err(PolicyJsonError::from(failed)),
        },
        Err(error) => Err(error.under_key(alloc, "__entity")),
    }
}

// ---- variables

/// The expression of the variable of this name.
pub(crate) fn variable(alloc: Global, value: &Value<'_>) -> Result<Expr, PolicyJsonError>
    ensures said { IfOk result
        (λ e. made_of model.variable (says.variable_said (value_view value.now)) ≡ Ok (view e)) }
    ensures refused { IfErr result
        (IsRefusal (made_of model.variable (says.variable_said (value_view value.now)))) }
{
    match variable_in(value) {
        Some(var) => Ok(Expr::var(var)),
        None => Err(PolicyJsonError::refusal(alloc, RefusalReason::NotAVariable)),
    }
}

fn variable_in(value: &Value<'_>) -> Option<Var>
    ensures { option_map variable_view result
        ≡ option_and_then names.variable_named (as_str (value_view value.now)) }
{
    match value.as_str() {
        Some(name) => variable_named(name),
        None => None,
    }
}

// ---- unknowns

/// The expression of an unknown, with its type or without one.
pub(crate) fn unknown(alloc: Global, value: &Value<'_>) -> Result<Expr, PolicyJsonError>
    ensures said { IfOk result (λ e. says.unknown_said (value_view value.now) ≡ Ok (view e)) }
    ensures refused { IfErr result (IsRefusal (says.unknown_said (value_view value.now))) }
{
    match value.get("type") {
        Some(_) => typed_unknown(alloc, value),
        None => untyped_unknown(alloc, value),
    }
}

fn untyped_unknown(alloc: Global, value: &Value<'_>) -> Result<Expr, PolicyJsonError>
    ensures said { IfOk result (λ e. says.unknown_by_type None (value_view value.now) ≡ Ok (view e)) }
    ensures refused { IfErr result (IsRefusal (says.unknown_by_type None (value_view value.now))) }
{
    match one_member(alloc, value, "name") {
        Ok(name) => match text_at(alloc, "name", name) {
            Ok(name) => made_unknown(alloc, name, None),
            Err(error) => Err(error),
        },
        Err(error) => Err(error),
    }
}

fn typed_unknown(alloc: Global, value: &Value<'_>) -> Result<Expr, PolicyJsonError>
    ensures said { IfOk result
        (λ e. made_of says.typed (and_then says.name_and_type_said
        (shapes.two_at (codes "name") (codes "type") (value_view value.now))) ≡ Ok (view e)) }
    ensures refused { IfErr result
        (IsRefusal (made_of says.typed (and_then says.name_and_type_said
        (shapes.two_at (codes "name") (codes "type") (value_view value.now))))) }
{
    match two_members(alloc, value, "name", "type") {
        Ok((name, ty)) => unknown_of_type(alloc, name, ty),
        Err(error) => Err(error),
    }
}

fn unknown_of_type(alloc: Global, name: &Value<'_>, ty: &Value<'_>) -> Result<Expr, PolicyJsonError>
    ensures said { IfOk result (λ e. made_of says.typed
        (says.name_and_type_said (value_view name.now, value_view ty.now)) ≡ Ok (view e)) }
    ensures refused { IfErr result (IsRefusal (made_of says.typed
        (says.name_and_type_said (value_view name.now, value_view ty.now)))) }
{
    match text_at(alloc, "name", name) {
        Ok(name) => match type_in(alloc, ty) {
            Ok(ty) => made_unknown(alloc, name, Some(ty)),
            Err(error) => Err(error.under_key(alloc, "type")),
        },
        Err(error) => Err(error),
    }
}

fn made_unknown(alloc: Global, name: &str, ty: Option<Type>) -> Result<Expr, PolicyJsonError>
    ensures said { IfOk result (λ e. view e ≡ model.unknown name.now (option_map type_view ty)) }
    ensures memory { IfErr result IsMemory }
{
    match RcStr::from_str(alloc, name) {
        Ok(name) => Ok(Expr::unknown(Unknown {
            name,
            type_annotation: ty,
        })),
        Err(error) => {
            drop(ty);
            Err(PolicyJsonError::Memory(error))
        }
    }
}

// ---- types

fn type_in(alloc: Global, value: &Value<'_>) -> Result<Type, PolicyJsonError>
    ensures said { IfOk result (λ t. says.type_said (value_view value.now) ≡ Ok (type_view t)) }
    ensures refused { IfErr result (IsRefusal (says.type_said (value_view value.now))) }
{
    match value.get("name") {
        Some(_) => type_with_name(alloc, value),
        None => type_without_name(alloc, value),
    }
}

fn type_without_name(alloc: Global, value: &Value<'_>) -> Result<Type, PolicyJsonError>
    ensures said { IfOk result
        (λ t. says.type_by_name None (value_view value.now) ≡ Ok (type_view t)) }
    ensures refused { IfErr result (IsRefusal (says.type_by_name None (value_view value.now))) }
{
    match one_member(alloc, value, "type") {
        Ok(kind) => match plain_type_in(kind) {
            Some(ty) => Ok(ty),
            None => Err(no_type(alloc)),
        },
        Err(error) => Err(error),
    }
}

#[cold]
fn no_type(alloc: Global) -> PolicyJsonError
    ensures { IsRefusedAt (at_key (codes "type") ∷ []) reasons.NotAType result }
{
    PolicyJsonError::refusal_at(alloc, "type", RefusalReason::NotAType)
}

fn plain_type_in(value: &Value<'_>) -> Option<Type>
    ensures { option_map type_view result ≡ option_and_then names.type_named (as_str (value_view value.now)) }
{
    match value.as_str() {
        Some(name) => type_named(name),
        None => None,
    }
}

fn type_with_name(alloc: Global, value: &Value<'_>) -> Result<Type, PolicyJsonError>
    ensures said { IfOk result
        (λ t. and_then says.kind_and_name_said
        (shapes.two_at (codes "type") (codes "name") (value_view value.now)) ≡ Ok (type_view t)) }
    ensures refused { IfErr result
        (IsRefusal (and_then says.kind_and_name_said
        (shapes.two_at (codes "type") (codes "name") (value_view value.now)))) }
{
    match two_members(alloc, value, "type", "name") {
        Ok((kind, name)) => named_type(alloc, kind, name),
        Err(error) => Err(error),
    }
}

fn named_type(alloc: Global, kind: &Value<'_>, name: &Value<'_>) -> Result<Type, PolicyJsonError>
    ensures said { IfOk result
        (λ t. says.kind_and_name_said (value_view kind.now, value_view name.now) ≡ Ok (type_view t)) }
    ensures refused { IfErr result
        (IsRefusal (says.kind_and_name_said (value_view kind.now, value_view name.now))) }
{
    match name_at(alloc, "name", name) {
        Ok(name) => match made_name(alloc, name) {
            Ok(name) => type_of_kind(alloc, kind, name),
            Err(error) => Err(error),
        },
        Err(error) => Err(error),
    }
}

fn type_of_kind(alloc: Global, kind: &Value<'_>, name: Name) -> Result<Type, PolicyJsonError>
    ensures said { IfOk result (λ t. says.kind_said (value_view kind.now) (name_text name) ≡ Ok (type_view t)) }
    ensures refused { IfErr result (IsRefusal (says.kind_said (value_view kind.now) (name_text name))) }
{
    match kind.as_str() {
        Some(kind) => match type_of(kind, name) {
            Some(ty) => Ok(ty),
            None => Err(no_type(alloc)),
        },
        None => {
            drop(name);
            Err(no_type(alloc))
        }
    }
}

fn type_of(kind: &str, name: Name) -> Option<Type>
    ensures { option_map type_view result ≡ says.kind_named (name_text name) kind.now }
{
    if kind == "Entity" {
        Some(Type::Entity {
            ty: EntityType::new(name),
        })
    } else if kind == "Extension" {
        Some(Type::Extension { name })
    } else {
        drop(name);
        None
    }
}

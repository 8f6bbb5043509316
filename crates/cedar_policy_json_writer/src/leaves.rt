#![tactic(auto, using(cedar_json_writer::proofs::Trees::trees))]
//! Literals, variables, slots, unknowns, patterns and attributes.
ghost use Rattle.std.specs.Prelude.{◌≡◌, [], ◌∷◌, ◌++◌, map, option_map, IfOk, OnOk};
ghost use Rattle.std.specs.Char.{encode_utf8};
ghost use Rattle.std.specs.Rc.{rc_str_bytes};
ghost use Rattle.json.specs.Json.{string};
ghost use Rattle.cedar_model.specs.Terms as model;
ghost use Rattle.cedar_names.specs.Names.{uid_name, name_text};
ghost use Rattle.cedar_names.specs.Leaves.{literal_view, slot_view, variable_view, type_view, part_view, pattern_view};
ghost use Rattle.cedar_layers.specs.Policies.{slots_view};
ghost use Rattle.cedar_json_writer.specs.Trees.{json_view};
ghost use Rattle.cedar_json_writer.specs.Written.{written_literal, written_uid};
ghost use Rattle.cedar_policy_json_writer.specs.Names.{type_json, plain_type, named_type};
ghost use Rattle.cedar_policy_json_writer.specs.Expressions.{value_json, variable_json, open_slot_json};
ghost use Rattle.cedar_policy_json_writer.specs.Expressions.{linked_json, unknown_json, untyped_unknown};
ghost use Rattle.cedar_policy_json_writer.specs.Expressions.{typed_unknown, pattern_json, pattern_part_json, path_json};

use crate::names::slot_name;
use crate::objects::{object_of, object_of_two, text_of};
use cedar_json_writer::{JsonValue, put_item, text_to_json};
use cedar_names::shared::variable_text;
use cedar_names::{
    EntityUID, FirstRest, Literal, Pattern, PatternElem, SlotEnv, SlotId, Type, Unknown, Var,
};
use std::alloc::{AllocError, Global};
use std::rc::RcStr;

// ---- values

/// The literal as a value.
pub(crate) fn value_to_json(alloc: Global, literal: &Literal) -> Result<JsonValue, AllocError>
    ensures { IfOk result (λ j. json_view j ≡ value_json (literal_view literal.now)) }
{
    let literal = literal_to_json(alloc, literal)?;
    object_of(alloc, "Value", literal)
}

fn literal_to_json(alloc: Global, literal: &Literal) -> Result<JsonValue, AllocError>
    ensures { IfOk result (λ j. json_view j ≡ written_literal (literal_view literal.now)) }
{
    match literal {
        Literal::Bool(flag) => Ok(JsonValue::Bool(*flag)),
        Literal::Long(long) => Ok(JsonValue::Long(*long)),
        Literal::String(text) => text_of(text),
        Literal::EntityUID(uid) => entity_to_json(alloc, uid),
    }
}

fn entity_to_json(alloc: Global, uid: &EntityUID) -> Result<JsonValue, AllocError>
    ensures { IfOk result (λ j. json_view j ≡ written_literal (model.entity_literal (uid_name uid.now))) }
{
    let uid = uid_to_json(alloc, uid)?;
    object_of(alloc, "__entity", uid)
}

/// The type and the id.
pub(crate) fn uid_to_json(alloc: Global, uid: &EntityUID) -> Result<JsonValue, AllocError>
    ensures { IfOk result (λ j. json_view j ≡ written_uid (uid_name uid.now)) }
{
    let ty = text_of(uid.entity_type().text())?;
    let id = text_of(uid.eid())?;
    object_of_two(alloc, "type", ty, "id", id)
}

// ---- variables and slots

/// The variable.
pub(crate) fn variable_to_json(alloc: Global, var: Var) -> Result<JsonValue, AllocError>
    ensures { IfOk result (λ j. json_view j ≡ variable_json (variable_view var)) }
{
    let name = text_to_json(alloc, variable_text(var))?;
    object_of(alloc, "Var", name)
}

/// The entity that the slot is linked to, or the slot itself.
pub(crate) fn slot_to_json(
    alloc: Global,
    slots: &SlotEnv,
    slot: SlotId,
) -> Result<JsonValue, AllocError>
    ensures { IfOk result (λ j. json_view j
        ≡ linked_json (slot_view slot) (slots_view slots.now (slot_view slot))) }
{
    match slots.get(&slot) {
        Some(uid) => entity_value(alloc, uid),
        None => open_slot(alloc, slot),
    }
}

fn entity_value(alloc: Global, uid: &EntityUID) -> Result<JsonValue, AllocError>
    ensures { IfOk result (λ j. json_view j ≡ value_json (model.entity_literal (uid_name uid.now))) }
{
    let entity = entity_to_json(alloc, uid)?;
    object_of(alloc, "Value", entity)
}

fn open_slot(alloc: Global, slot: SlotId) -> Result<JsonValue, AllocError>
    ensures { IfOk result (λ j. json_view j ≡ open_slot_json (slot_view slot)) }
{
    let name = text_to_json(alloc, slot_name(slot))?;
    object_of(alloc, "Slot", name)
}

// ---- unknowns

/// The unknown, with its type where that is known.
pub(crate) fn unknown_to_json(alloc: Global, unknown: &Unknown) -> Result<JsonValue, AllocError>
    ensures { IfOk result (λ j. json_view j ≡ unknown_json (rc_str_bytes unknown.now.name)
        (option_map type_view unknown.now.type_annotation)) }
{
    match &unknown.type_annotation {
        None => untyped_unknown(alloc, &unknown.name),
        Some(ty) => typed_unknown(alloc, &unknown.name, ty),
    }
}

fn untyped_unknown(alloc: Global, name: &RcStr) -> Result<JsonValue, AllocError>
    ensures { IfOk result (λ j. json_view j ≡ untyped_unknown (rc_str_bytes name.now)) }
{
    let name = text_of(name)?;
    let unknown = object_of(alloc, "name", name)?;
    object_of(alloc, "Unknown", unknown)
}

fn typed_unknown(alloc: Global, name: &RcStr, ty: &Type) -> Result<JsonValue, AllocError>
    ensures { IfOk result (λ j. json_view j ≡ typed_unknown (rc_str_bytes name.now) (type_view ty.now)) }
{
    let name = text_of(name)?;
    let ty = type_to_json(alloc, ty)?;
    let unknown = object_of_two(alloc, "name", name, "type", ty)?;
    object_of(alloc, "Unknown", unknown)
}

fn type_to_json(alloc: Global, ty: &Type) -> Result<JsonValue, AllocError>
    ensures { IfOk result (λ j. json_view j ≡ type_json (type_view ty.now)) }
{
    match ty {
        Type::Bool => plain_type(alloc, "Boolean"),
        Type::Long => plain_type(alloc, "Long"),
        Type::String => plain_type(alloc, "String"),
        Type::Set => plain_type(alloc, "Set"),
        Type::Record => plain_type(alloc, "Record"),
        Type::Entity { ty } => named_type(alloc, "Entity", ty.text()),
        Type::Extension { name } => named_type(alloc, "Extension", name.text()),
    }
}

fn plain_type(alloc: Global, kind: &str) -> Result<JsonValue, AllocError>
    ensures { IfOk result (λ j. json_view j ≡ plain_type kind.now) }
{
    let kind = text_to_json(alloc, kind)?;
    object_of(alloc, "type", kind)
}

fn named_type(alloc: Global, kind: &str, name: &RcStr) -> Result<JsonValue, AllocError>
    ensures { IfOk result (λ j. json_view j ≡ named_type kind.now (rc_str_bytes name.now)) }
{
    let kind = text_to_json(alloc, kind)?;
    let name = text_of(name)?;
    object_of_two(alloc, "type", kind, "name", name)
}

// ---- patterns

/// The parts of the pattern, each character a literal of its own.
pub(crate) fn pattern_to_json(alloc: Global, pattern: &Pattern) -> Result<JsonValue, AllocError>
    ensures { IfOk result (λ j. json_view j ≡ pattern_json (pattern_view pattern.now)) }
{
    parts_to_json(alloc, pattern.elems())
}

fn parts_to_json(alloc: Global, parts: &[PatternElem]) -> Result<JsonValue, AllocError>
    ensures { IfOk result (λ j. json_view j ≡ pattern_json (map part_view parts.now)) }
{
    let mut items: Vec<JsonValue> = Vec::new(alloc);
    'parts: for part in parts {
        let item = part_to_json(alloc, part)?;
        put_item(item, &mut items)?;
    }
    Ok(JsonValue::Array(items))
}

fn part_to_json(alloc: Global, part: &PatternElem) -> Result<JsonValue, AllocError>
    ensures { IfOk result (λ j. json_view j ≡ pattern_part_json (part_view part.now)) }
{
    match part {
        PatternElem::Char(character) => character_to_json(alloc, *character),
        PatternElem::Wildcard => text_to_json(alloc, "Wildcard"),
    }
}

fn character_to_json(alloc: Global, character: char) -> Result<JsonValue, AllocError>
    ensures { IfOk result (λ j. json_view j ≡ pattern_part_json (model.character character)) }
{
    let mut text = String::new(alloc);
    text.push(character)?;
    let literal = text_to_json(alloc, text.as_str())?;
    object_of(alloc, "Literal", literal)
}

// ---- attributes

/// The attributes of an extended `has`, one behind the other.
pub(crate) fn path_to_json(alloc: Global, attrs: &FirstRest<RcStr>) -> Result<JsonValue, AllocError>
    ensures { IfOk result (λ j. json_view j
        ≡ path_json (rc_str_bytes attrs.now.first) (map rc_str_bytes attrs.now.rest.items)) }
{
    let mut items: Vec<JsonValue> = Vec::new(alloc);
    put_text(&attrs.first, &mut items)?;
    'rest: for attr in &attrs.rest {
        put_text(attr, &mut items)?;
    }
    Ok(JsonValue::Array(items))
}

fn put_text(text: &RcStr, items: &mut Vec<JsonValue>) -> Result<(), AllocError>
    ensures { OnOk result (map json_view items.new.items
        ≡ map json_view items.old.items ++ string (rc_str_bytes text.now) ∷ []) }
{
    let text = text_of(text)?;
    put_item(text, items)?;
    Ok(())
}

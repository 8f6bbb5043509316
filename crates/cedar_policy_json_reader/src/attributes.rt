#![tactic(auto, using(crate::proofs::Views::views, crate::proofs::Refused::refusals, crate::proofs::Lists::lists))]
//! Attributes, and the patterns of `like`.
ghost use Rattle.std.specs.Prelude.{◌≡◌, [], ◌∷◌, ◌++◌, Ok, map, codes, OnOk, IfOk, IfErr};
ghost use Rattle.std.specs.Rc.{rc_str_bytes};
ghost use Rattle.json.specs.Find.{as_array};
ghost use Rattle.json.specs.Value.{value_view, items_view};
ghost use Rattle.cedar_model.specs.Terms as model;
ghost use Rattle.cedar_names.specs.Leaves.{part_view, pattern_view, texts_view};
ghost use Rattle.cedar_expressions.specs.View.{view};
ghost use Rattle.cedar_policy_json_reader.specs.Leaves as says;
ghost use Rattle.cedar_policy_json_reader.specs.Lists.{IsOneMore, AreMore, attributes_view};
ghost use Rattle.cedar_policy_json_reader.specs.Paths.{at_key, at_index};
ghost use Rattle.cedar_policy_json_reader.specs.Shapes as shapes;
ghost use Rattle.cedar_policy_json_reader.specs.Refusals.{IsRefusal, IsMemory, under, made_of, and_then};

use crate::errors::{PolicyJsonError, RefusalReason};
use crate::shapes::{array, one_member, text, text_at};
use cedar_expressions::Expr;
use cedar_names::{FirstRest, Pattern, PatternElem};
use json::Value;
use std::alloc::Global;
use std::rc::RcStr;

// ---- attributes

/// An attribute, or attributes one behind the other.
#[derive(Drop)]
pub(crate) enum Attributes {
    One(RcStr),
    From(FirstRest<RcStr>),
}

/// The attributes that a text names, or an array of texts.
pub(crate) fn read_attributes(
    alloc: Global,
    value: &Value<'_>,
) -> Result<Attributes, PolicyJsonError>
    ensures said { IfOk result (λ a. says.attributes_said (value_view value.now) ≡ Ok (attributes_view a)) }
    ensures refused { IfErr result (IsRefusal (says.attributes_said (value_view value.now))) }
{
    match value {
        Value::Null => Err(PolicyJsonError::refusal(alloc, RefusalReason::NotAnAttribute)),
        Value::Bool(_) => Err(PolicyJsonError::refusal(alloc, RefusalReason::NotAnAttribute)),
        Value::Number(_) => Err(PolicyJsonError::refusal(alloc, RefusalReason::NotAnAttribute)),
        Value::String(text) => one_attribute(alloc, text),
        Value::Array(items) => read_path(alloc, items),
        Value::Object(_) => Err(PolicyJsonError::refusal(alloc, RefusalReason::NotAnAttribute)),
    }
}

fn one_attribute(alloc: Global, text: &str) -> Result<Attributes, PolicyJsonError>
    ensures said { IfOk result (λ a. attributes_view a ≡ says.one_attribute text.now) }
    ensures memory { IfErr result IsMemory }
{
    match RcStr::from_str(alloc, text) {
        Ok(text) => Ok(Attributes::One(text)),
        Err(error) => Err(PolicyJsonError::Memory(error)),
    }
}

fn read_path(alloc: Global, items: &Vec<Value<'_>>) -> Result<Attributes, PolicyJsonError>
    ensures said { IfOk result (λ a. and_then says.first_and_rest (says.texts_said 0 (items_view items.now.items))
        ≡ Ok (attributes_view a)) }
    ensures refused { IfErr result
        (IsRefusal (and_then says.first_and_rest (says.texts_said 0 (items_view items.now.items)))) }
{
    let mut texts: Vec<RcStr> = Vec::new(alloc);
    match read_texts(alloc, items, &mut texts) {
        Ok(()) => first_and_rest(alloc, texts),
        Err(error) => {
            drop(texts);
            Err(error)
        }
    }
}

fn first_and_rest(alloc: Global, texts: Vec<RcStr>) -> Result<Attributes, PolicyJsonError>
    ensures said { IfOk result
        (λ a. says.first_and_rest (texts_view texts.items) ≡ Ok (attributes_view a)) }
    ensures refused { IfErr result (IsRefusal (says.first_and_rest (texts_view texts.items))) }
{
    if texts.is_empty() {
        drop(texts);
        return Err(PolicyJsonError::refusal(alloc, RefusalReason::NotAnAttribute));
    }
    let mut rest = texts;
    let first = rest.remove(0);
    Ok(Attributes::From(FirstRest { first, rest }))
}

// Puts the texts of the items behind those that are there.
fn read_texts(
    alloc: Global,
    items: &Vec<Value<'_>>,
    texts: &mut Vec<RcStr>,
) -> Result<(), PolicyJsonError>
    requires { texts.old.items ≡ [] }
    ensures said { OnOk result
        (says.texts_said 0 (items_view items.now.items) ≡ Ok (texts_view texts.new.items)) }
    ensures refused { IfErr result (IsRefusal (says.texts_said 0 (items_view items.now.items))) }
{
    let mut index: usize = 0;
    'items: for item in items {
        put_text(alloc, item, index, texts)?;
        index += 1;
    }
    Ok(())
}

fn put_text(
    alloc: Global,
    item: &Value<'_>,
    index: usize,
    texts: &mut Vec<RcStr>,
) -> Result<(), PolicyJsonError>
    ensures said { OnOk result (IsOneMore (texts_view texts.old.items)
        (under (at_index index) (shapes.text_said (value_view item.now))) (texts_view texts.new.items)) }
    ensures refused { IfErr result (IsRefusal (under (at_index index) (shapes.text_said (value_view item.now)))) }
{
    match text(alloc, item) {
        Ok(text) => push_text(alloc, text, texts),
        Err(error) => Err(error.under_index(index)),
    }
}

fn push_text(alloc: Global, text: &str, texts: &mut Vec<RcStr>) -> Result<(), PolicyJsonError>
    ensures said { OnOk result (texts_view texts.new.items ≡ texts_view texts.old.items ++ text.now ∷ []) }
    ensures memory { IfErr result IsMemory }
{
    match RcStr::from_str(alloc, text) {
        Ok(text) => match texts.push(text) {
            Ok(()) => Ok(()),
            Err(failed) => Err(PolicyJsonError::from(failed)),
        },
        Err(error) => Err(PolicyJsonError::Memory(error)),
    }
}

/// The expression that asks for these attributes of another.
pub(crate) fn has(
    alloc: Global,
    left: Expr,
    attributes: Attributes,
) -> Result<Expr, PolicyJsonError>
    ensures said { IfOk result (λ e. view e ≡ says.has_term (attributes_view attributes) (view left)) }
    ensures memory { IfErr result IsMemory }
{
    match attributes {
        Attributes::One(attribute) => match Expr::has_attr(alloc, left, attribute) {
            Ok(expr) => Ok(expr),
            Err(error) => Err(PolicyJsonError::Memory(error)),
        },
        Attributes::From(path) => match Expr::extended_has_attr(alloc, left, path) {
            Ok(expr) => Ok(expr),
            Err(error) => Err(PolicyJsonError::Memory(error)),
        },
    }
}

// ---- patterns

/// The pattern of parts in an array.
pub(crate) fn pattern(alloc: Global, value: &Value<'_>) -> Result<Pattern, PolicyJsonError>
    ensures said { IfOk result (λ p. says.parts_in (as_array (value_view value.now)) ≡ Ok (pattern_view p)) }
    ensures refused { IfErr result (IsRefusal (says.parts_in (as_array (value_view value.now)))) }
{
    match array(value) {
        Some(items) => read_pattern(alloc, items),
        None => Err(PolicyJsonError::refusal(alloc, RefusalReason::NotAnArray)),
    }
}

fn read_pattern(alloc: Global, items: &Vec<Value<'_>>) -> Result<Pattern, PolicyJsonError>
    ensures said { IfOk result
        (λ p. says.parts_said 0 (items_view items.now.items) ≡ Ok (pattern_view p)) }
    ensures refused { IfErr result (IsRefusal (says.parts_said 0 (items_view items.now.items))) }
{
    let mut elems: Vec<PatternElem> = Vec::new(alloc);
    match read_parts(alloc, items, &mut elems) {
        Ok(()) => Ok(Pattern::new(elems)),
        Err(error) => {
            drop(elems);
            Err(error)
        }
    }
}

// Puts the parts that the items say behind those that are there.
fn read_parts(
    alloc: Global,
    items: &Vec<Value<'_>>,
    elems: &mut Vec<PatternElem>,
) -> Result<(), PolicyJsonError>
    requires { elems.old.items ≡ [] }
    ensures said { OnOk result
        (says.parts_said 0 (items_view items.now.items) ≡ Ok (map part_view elems.new.items)) }
    ensures refused { IfErr result (IsRefusal (says.parts_said 0 (items_view items.now.items))) }
{
    let mut index: usize = 0;
    'items: for item in items {
        put_part_at(alloc, item, index, elems)?;
        index += 1;
    }
    Ok(())
}

fn put_part_at(
    alloc: Global,
    item: &Value<'_>,
    index: usize,
    elems: &mut Vec<PatternElem>,
) -> Result<(), PolicyJsonError>
    ensures said { OnOk result (AreMore (map part_view elems.old.items)
        (under (at_index index) (says.part_said (value_view item.now))) (map part_view elems.new.items)) }
    ensures refused { IfErr result (IsRefusal (under (at_index index) (says.part_said (value_view item.now)))) }
{
    match put_part(alloc, item, elems) {
        Ok(()) => Ok(()),
        Err(error) => Err(error.under_index(index)),
    }
}

fn put_part(
    alloc: Global,
    item: &Value<'_>,
    elems: &mut Vec<PatternElem>,
) -> Result<(), PolicyJsonError>
    ensures said { OnOk result (AreMore (map part_view elems.old.items)
        (says.part_said (value_view item.now)) (map part_view elems.new.items)) }
    ensures refused { IfErr result (IsRefusal (says.part_said (value_view item.now))) }
{
    match item {
        Value::Null => Err(PolicyJsonError::refusal(alloc, RefusalReason::NotAPatternPart)),
        Value::Bool(_) => Err(PolicyJsonError::refusal(alloc, RefusalReason::NotAPatternPart)),
        Value::Number(_) => Err(PolicyJsonError::refusal(alloc, RefusalReason::NotAPatternPart)),
        Value::String(text) => put_wildcard(alloc, text, elems),
        Value::Array(_) => Err(PolicyJsonError::refusal(alloc, RefusalReason::NotAPatternPart)),
        Value::Object(_) => put_literal(alloc, item, elems),
    }
}

fn put_wildcard(
    alloc: Global,
    text: &str,
    elems: &mut Vec<PatternElem>,
) -> Result<(), PolicyJsonError>
    ensures said { OnOk result (AreMore (map part_view elems.old.items) (says.wildcard_said text.now)
        (map part_view elems.new.items)) }
    ensures refused { IfErr result (IsRefusal (says.wildcard_said text.now)) }
{
    if text == "Wildcard" {
        push_part(PatternElem::Wildcard, elems)
    } else {
        Err(PolicyJsonError::refusal(alloc, RefusalReason::NotAPatternPart))
    }
}

fn push_part(elem: PatternElem, elems: &mut Vec<PatternElem>) -> Result<(), PolicyJsonError>
    ensures said { OnOk result (map part_view elems.new.items ≡ map part_view elems.old.items ++ part_view elem ∷ []) }
    ensures memory { IfErr result IsMemory }
{
    match elems.push(elem) {
        Ok(()) => Ok(()),
        Err(failed) => Err(PolicyJsonError::from(failed)),
    }
}

// Puts the characters of the text at `Literal`, the one member of the object.
fn put_literal(
    alloc: Global,
    item: &Value<'_>,
    elems: &mut Vec<PatternElem>,
) -> Result<(), PolicyJsonError>
    ensures said { OnOk result (AreMore (map part_view elems.old.items)
        (and_then says.characters_said (shapes.one_at (codes "Literal") (value_view item.now)))
        (map part_view elems.new.items)) }
    ensures refused { IfErr result
        (IsRefusal (and_then says.characters_said (shapes.one_at (codes "Literal") (value_view item.now)))) }
{
    match one_member(alloc, item, "Literal") {
        Ok(literal) => match text_at(alloc, "Literal", literal) {
            Ok(text) => put_characters(text, elems),
            Err(error) => Err(error),
        },
        Err(error) => Err(error),
    }
}

// Puts each character of the text behind those that are there.
fn put_characters(text: &str, elems: &mut Vec<PatternElem>) -> Result<(), PolicyJsonError>
    ensures said { OnOk result
        (map part_view elems.new.items ≡ map part_view elems.old.items ++ says.characters_of text.now) }
    ensures memory { IfErr result IsMemory }
{
    'characters: for character in text.chars() {
        push_part(PatternElem::Char(character), elems)?;
    }
    Ok(())
}

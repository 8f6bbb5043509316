#![tactic(auto, using(crate::proofs::Views::views, crate::proofs::Refused::refusals))]
//! Columns: which attribute each holds, and what.
ghost use Rattle.std.specs.Prelude.{◌≡◌, ◌≤◌, [], ◌∷◌, ◌++◌, Some, Ok, map, codes, OnOk, IfOk, IfErr};
ghost use Rattle.std.specs.Rc.{rc_str_bytes};
ghost use Rattle.json.specs.Find.{as_str, as_array};
ghost use Rattle.json.specs.Value.{value_view, items_view, members_view};
ghost use Rattle.cedar_names.specs.Names.{type_text};
ghost use Rattle.cedar_sql_columns.specs.Paths.{at_key, at_index};
ghost use Rattle.cedar_sql_columns.specs.Refusals.{IsRefusal, IsMemory, under, made_of};
ghost use Rattle.cedar_sql_columns.specs.Said as says;
ghost use Rattle.cedar_sql_columns.specs.Tables.{column_view, held_view, operand_view};

use crate::errors::{ColumnsError, RefusalReason};
use crate::names::checked_name;
use crate::shapes::{array, one_member, text, text_at, two_members};
use cedar_filter::Operand;
use cedar_names::shared::same_text;
use cedar_names::{EntityType, Name};
use cedar_sql::{Column, ColumnType};
use json::Value;
use std::alloc::Global;
use std::rc::RcStr;

/// The columns that the members of an object say, the first at this place of the row.
pub(crate) fn read_columns<'a>(
    alloc: Global,
    members: &Vec<(&'a str, Value<'a>)>,
    first: usize,
) -> Result<Vec<Column>, ColumnsError>
    requires { first ≤ 3 }
    ensures said { IfOk result
        (λ cs. says.columns_said first (members_view members.now.items) ≡ Ok (map column_view cs.items)) }
    ensures refused { IfErr result (IsRefusal (says.columns_said first (members_view members.now.items))) }
{
    let mut columns: Vec<Column> = Vec::new(alloc);
    match put_columns(alloc, members, first, &mut columns) {
        Ok(()) => Ok(columns),
        Err(error) => {
            drop(columns);
            Err(error)
        }
    }
}

fn put_columns<'a>(
    alloc: Global,
    members: &Vec<(&'a str, Value<'a>)>,
    first: usize,
    columns: &mut Vec<Column>,
) -> Result<(), ColumnsError>
    requires none { columns.old.items ≡ [] }
    requires first { first ≤ 3 }
    ensures said { OnOk result
        (says.columns_said first (members_view members.now.items) ≡ Ok (map column_view columns.new.items)) }
    ensures refused { IfErr result (IsRefusal (says.columns_said first (members_view members.now.items))) }
{
    let mut place = first;
    'members: for member in members {
        put_column(alloc, member.0, &member.1, place, columns)?;
        place += 1;
    }
    Ok(())
}

fn put_column(
    alloc: Global,
    key: &str,
    value: &Value<'_>,
    place: usize,
    columns: &mut Vec<Column>,
) -> Result<(), ColumnsError>
    ensures said { OnOk result (says.one_more_said (map column_view columns.old.items) place key.now
        (value_view value.now) ≡ Ok (map column_view columns.new.items)) }
    ensures refused { IfErr result
        (IsRefusal (says.one_more_said (map column_view columns.old.items) place key.now (value_view value.now))) }
{
    match read_named_column(alloc, key, value, place, columns) {
        Ok(column) => push_column(column, columns),
        Err(error) => Err(error.under_key(alloc, key)),
    }
}

// A column of this name, whose attribute none of these columns holds.
fn read_named_column(
    alloc: Global,
    name: &str,
    value: &Value<'_>,
    place: usize,
    columns: &Vec<Column>,
) -> Result<Column, ColumnsError>
    ensures said { IfOk result (λ c. says.named_column_said (map column_view columns.now.items) place name.now
        (value_view value.now) ≡ Ok (column_view c)) }
    ensures refused { IfErr result (IsRefusal
        (says.named_column_said (map column_view columns.now.items) place name.now (value_view value.now))) }
{
    match checked_name(alloc, name) {
        Ok(_) => read_new_column(alloc, value, place, columns),
        Err(error) => Err(error),
    }
}

fn push_column(column: Column, columns: &mut Vec<Column>) -> Result<(), ColumnsError>
    ensures said { OnOk result (map column_view columns.new.items
        ≡ map column_view columns.old.items ++ column_view column ∷ []) }
    ensures memory { IfErr result IsMemory }
{
    match columns.push(column) {
        Ok(()) => Ok(()),
        Err(failed) => Err(ColumnsError::from(failed)),
    }
}

// A column whose attribute none of these columns holds.
fn read_new_column(
    alloc: Global,
    value: &Value<'_>,
    place: usize,
    columns: &Vec<Column>,
) -> Result<Column, ColumnsError>
    ensures said { IfOk result (λ c. says.new_column_said (map column_view columns.now.items) place
        (value_view value.now) ≡ Ok (column_view c)) }
    ensures refused { IfErr result
        (IsRefusal (says.new_column_said (map column_view columns.now.items) place (value_view value.now))) }
{
    match read_column(alloc, value, place) {
        Ok(column) => new_column(alloc, column, columns),
        Err(error) => Err(error),
    }
}

fn new_column(alloc: Global, column: Column, columns: &Vec<Column>) -> Result<Column, ColumnsError>
    ensures said { IfOk result
        (λ c. says.new_column (map column_view columns.now.items) (column_view column) ≡ Ok (column_view c)) }
    ensures refused { IfErr result
        (IsRefusal (says.new_column (map column_view columns.now.items) (column_view column))) }
{
    if is_held(&column.attribute, columns) {
        drop(column);
        Err(ColumnsError::refusal(alloc, RefusalReason::DuplicateAttribute))
    } else {
        Ok(column)
    }
}

// Whether one of the columns holds the attribute.
fn is_held(attribute: &Operand, columns: &Vec<Column>) -> bool
    ensures { result ≡ says.is_held (operand_view attribute.now) (map column_view columns.now.items) }
{
    'columns: for column in columns {
        if is_same_attribute(&column.attribute, attribute) {
            return true;
        }
    }
    false
}

fn is_same_attribute(attribute: &Operand, other: &Operand) -> bool
    ensures { result ≡ says.place_eq (operand_view attribute.now) (operand_view other.now) }
{
    match attribute {
        Operand::Known(_) => false,
        Operand::Row => is_row(other),
        Operand::Attribute(of, name) => match other {
            Operand::Known(_) => false,
            Operand::Row => false,
            Operand::Attribute(other_of, other_name) => {
                same_text(name, other_name) && is_same_attribute(of, other_of)
            }
        },
    }
}

fn read_column(alloc: Global, value: &Value<'_>, place: usize) -> Result<Column, ColumnsError>
    ensures said { IfOk result (λ c. says.column_said place (value_view value.now) ≡ Ok (column_view c)) }
    ensures refused { IfErr result (IsRefusal (says.column_said place (value_view value.now))) }
{
    match two_members(alloc, value, "attribute", "holds") {
        Ok((attribute, holds)) => column_of(alloc, attribute, holds, place),
        Err(error) => Err(error),
    }
}

fn column_of(
    alloc: Global,
    attribute: &Value<'_>,
    holds: &Value<'_>,
    place: usize,
) -> Result<Column, ColumnsError>
    ensures said { IfOk result
        (λ c. says.column_parts place (value_view attribute.now, value_view holds.now) ≡ Ok (column_view c)) }
    ensures refused { IfErr result
        (IsRefusal (says.column_parts place (value_view attribute.now, value_view holds.now))) }
{
    match attribute_at(alloc, attribute) {
        Ok(attribute) => with_attribute(alloc, attribute, holds, place),
        Err(error) => Err(error),
    }
}

fn with_attribute(
    alloc: Global,
    attribute: Operand,
    holds: &Value<'_>,
    place: usize,
) -> Result<Column, ColumnsError>
    ensures said { IfOk result
        (λ c. says.with_attribute place (value_view holds.now) (operand_view attribute) ≡ Ok (column_view c)) }
    ensures refused { IfErr result
        (IsRefusal (says.with_attribute place (value_view holds.now) (operand_view attribute))) }
{
    match held_at(alloc, holds) {
        Ok(holds) => Ok(Column {
            attribute,
            holds,
            place,
        }),
        Err(error) => {
            drop(attribute);
            Err(error)
        }
    }
}

// ---- which attribute is held

// What stands at `attribute`.
fn attribute_at(alloc: Global, value: &Value<'_>) -> Result<Operand, ColumnsError>
    ensures said { IfOk result (λ o. under (at_key (codes "attribute")) (says.attribute_said (value_view value.now))
        ≡ Ok (operand_view o)) }
    ensures refused { IfErr result
        (IsRefusal (under (at_key (codes "attribute")) (says.attribute_said (value_view value.now)))) }
{
    match read_attribute(alloc, value) {
        Ok(attribute) => Ok(attribute),
        Err(error) => Err(error.under_key(alloc, "attribute")),
    }
}

fn read_attribute(alloc: Global, value: &Value<'_>) -> Result<Operand, ColumnsError>
    ensures said { IfOk result (λ o. says.attribute_said (value_view value.now) ≡ Ok (operand_view o)) }
    ensures refused { IfErr result (IsRefusal (says.attribute_said (value_view value.now))) }
{
    match array(value) {
        Some(items) => attribute_of(alloc, items),
        None => Err(ColumnsError::refusal(alloc, RefusalReason::NotAnArray)),
    }
}

fn attribute_of(alloc: Global, items: &Vec<Value<'_>>) -> Result<Operand, ColumnsError>
    ensures said { IfOk result
        (λ o. says.attribute_by (Some (items_view items.now.items)) ≡ Ok (operand_view o)) }
    ensures refused { IfErr result (IsRefusal (says.attribute_by (Some (items_view items.now.items)))) }
{
    match go_steps(alloc, items) {
        Ok(attribute) => some_attribute(alloc, attribute),
        Err(error) => Err(error),
    }
}

fn some_attribute(alloc: Global, attribute: Operand) -> Result<Operand, ColumnsError>
    ensures said { IfOk result (λ o. says.some_attribute (operand_view attribute) ≡ Ok (operand_view o)) }
    ensures refused { IfErr result (IsRefusal (says.some_attribute (operand_view attribute))) }
{
    if is_row(&attribute) {
        drop(attribute);
        Err(ColumnsError::refusal(alloc, RefusalReason::NotAnAttribute))
    } else {
        Ok(attribute)
    }
}

fn is_row(operand: &Operand) -> bool
    ensures { result ≡ says.is_entity (operand_view operand.now) }
{
    match operand {
        Operand::Known(_) => false,
        Operand::Row => true,
        Operand::Attribute(_, _) => false,
    }
}

// What the texts lead to, from the row on.
fn go_steps(alloc: Global, items: &Vec<Value<'_>>) -> Result<Operand, ColumnsError>
    ensures said { IfOk result
        (λ o. says.steps_said says.the_entity 0 (items_view items.now.items) ≡ Ok (operand_view o)) }
    ensures refused { IfErr result
        (IsRefusal (says.steps_said says.the_entity 0 (items_view items.now.items))) }
{
    let mut operand = Operand::Row;
    let mut index: usize = 0;
    'items: for item in items {
        operand = go_step(alloc, operand, item, index)?;
        index += 1;
    }
    Ok(operand)
}

fn go_step(
    alloc: Global,
    operand: Operand,
    item: &Value<'_>,
    index: usize,
) -> Result<Operand, ColumnsError>
    ensures said { IfOk result
        (λ o. says.step_said (operand_view operand) index (value_view item.now) ≡ Ok (operand_view o)) }
    ensures refused { IfErr result
        (IsRefusal (says.step_said (operand_view operand) index (value_view item.now))) }
{
    match text(alloc, item) {
        Ok(name) => attribute_named(alloc, operand, name),
        Err(error) => {
            drop(operand);
            Err(error.under_index(index))
        }
    }
}

fn attribute_named(alloc: Global, operand: Operand, name: &str) -> Result<Operand, ColumnsError>
    ensures said { IfOk result (λ o. operand_view o ≡ says.attribute_in (operand_view operand) name.now) }
    ensures memory { IfErr result IsMemory }
{
    match RcStr::from_str(alloc, name) {
        Ok(name) => boxed_attribute(alloc, operand, name),
        Err(error) => {
            drop(operand);
            Err(ColumnsError::Memory(error))
        }
    }
}

fn boxed_attribute(alloc: Global, operand: Operand, name: RcStr) -> Result<Operand, ColumnsError>
    ensures said { IfOk result
        (λ o. operand_view o ≡ says.attribute_in (operand_view operand) (rc_str_bytes name)) }
    ensures memory { IfErr result IsMemory }
{
    match Box::new(alloc, operand) {
        Ok(operand) => Ok(Operand::Attribute(operand, name)),
        Err(failed) => {
            drop(name);
            Err(ColumnsError::from(failed))
        }
    }
}

// ---- what is held

// What stands at `holds`.
fn held_at(alloc: Global, value: &Value<'_>) -> Result<ColumnType, ColumnsError>
    ensures said { IfOk result
        (λ t. under (at_key (codes "holds")) (says.held_said (value_view value.now)) ≡ Ok (held_view t)) }
    ensures refused { IfErr result
        (IsRefusal (under (at_key (codes "holds")) (says.held_said (value_view value.now)))) }
{
    match read_held(alloc, value) {
        Ok(held) => Ok(held),
        Err(error) => Err(error.under_key(alloc, "holds")),
    }
}

fn read_held(alloc: Global, value: &Value<'_>) -> Result<ColumnType, ColumnsError>
    ensures said { IfOk result (λ t. says.held_said (value_view value.now) ≡ Ok (held_view t)) }
    ensures refused { IfErr result (IsRefusal (says.held_said (value_view value.now))) }
{
    match value.as_str() {
        Some(name) => held_named(alloc, name),
        None => held_entity(alloc, value),
    }
}

fn held_named(alloc: Global, name: &str) -> Result<ColumnType, ColumnsError>
    ensures said { IfOk result (λ t. says.held_named name.now ≡ Ok (held_view t)) }
    ensures refused { IfErr result (IsRefusal (says.held_named name.now)) }
{
    if name == "Bool" {
        Ok(ColumnType::Bool)
    } else if name == "Long" {
        Ok(ColumnType::Long)
    } else if name == "String" {
        Ok(ColumnType::String)
    } else if name == "Record" {
        Ok(ColumnType::Record)
    } else {
        Err(ColumnsError::refusal(alloc, RefusalReason::NotHeld))
    }
}

// An entity of the type at `entity`.
fn held_entity(alloc: Global, value: &Value<'_>) -> Result<ColumnType, ColumnsError>
    ensures said { IfOk result (λ t. says.entity_said (value_view value.now) ≡ Ok (held_view t)) }
    ensures refused { IfErr result (IsRefusal (says.entity_said (value_view value.now))) }
{
    match one_member(alloc, value, "entity") {
        Ok(name) => entity_at(alloc, name),
        Err(error) => Err(error),
    }
}

fn entity_at(alloc: Global, value: &Value<'_>) -> Result<ColumnType, ColumnsError>
    ensures said { IfOk result
        (λ t. made_of says.an_entity_of (says.text_under (codes "entity") (value_view value.now)) ≡ Ok (held_view t)) }
    ensures refused { IfErr result
        (IsRefusal (made_of says.an_entity_of (says.text_under (codes "entity") (value_view value.now)))) }
{
    match text_at(alloc, "entity", value) {
        Ok(name) => entity_of(alloc, name),
        Err(error) => Err(error),
    }
}

fn entity_of(alloc: Global, name: &str) -> Result<ColumnType, ColumnsError>
    ensures said { IfOk result (λ t. held_view t ≡ says.an_entity_of name.now) }
    ensures memory { IfErr result IsMemory }
{
    match type_named(alloc, name) {
        Ok(ty) => Ok(ColumnType::Entity(ty)),
        Err(error) => Err(error),
    }
}

/// The type of entities of this text.
pub(crate) fn type_named(alloc: Global, name: &str) -> Result<EntityType, ColumnsError>
    ensures said { IfOk result (λ t. type_text t ≡ name.now) }
    ensures memory { IfErr result IsMemory }
{
    match RcStr::from_str(alloc, name) {
        Ok(text) => Ok(EntityType::new(Name::new(text, None))),
        Err(error) => Err(ColumnsError::Memory(error)),
    }
}

#![tactic(auto)]
//! What a row tells of conditions.
ghost use Rattle.std.specs.Prelude.{◌≡◌, Some, option_map, option_copied, is_some};
ghost use Rattle.std.specs.Ordering.{is_lt, is_le};
ghost use Rattle.std.specs.Rc.{rc_str_bytes};
ghost use Rattle.std.specs.Str.{chars};
ghost use Rattle.cedar_model.specs.Terms.{entity_literal};
ghost use Rattle.cedar_model.specs.Values.{abstract_value, abstract_fields, plain};
ghost use Rattle.cedar_model.specs.Keys.{value_eq};
ghost use Rattle.cedar_model.specs.Outcomes.{value_at, text_of, entity_of, elements_of, bool_of, long_of, entity_eq};
ghost use Rattle.cedar_model.specs.Outcomes.{text_eq, matches, needing, gives_bool, record_attribute_does_not_exist};
ghost use Rattle.cedar_model.specs.Meaning.{or_errs};
ghost use Rattle.cedar_model.specs.Sets.{has_value};
ghost use Rattle.cedar_model.specs.Settings.{part_at};
ghost use Rattle.cedar_names.specs.Names.{uid_name, type_text};
ghost use Rattle.cedar_names.specs.Leaves.{pattern_view, literal_view};
ghost use Rattle.cedar_values.specs.Residuals.{partial_view};
ghost use Rattle.cedar_values.specs.Sound.{Placed, whats_at};
ghost use Rattle.cedar_layers.specs.Stores.{entity_name, entity_view};
ghost use Rattle.cedar_filter.specs.Rows.{told_then, told_needing, told_bool, tells_bool, attribute_told, has_told};
ghost use Rattle.cedar_filter.specs.Rows.{part_told, tells, is_extension};
ghost use Rattle.cedar_filter.specs.Conditions.{operand_told, condition_says, known_told, compared_told, within_told};
ghost use Rattle.cedar_filter.specs.Conditions.{contains_told};
ghost use Rattle.cedar_filter.specs.Truths.{seen_told, truth_told};

use crate::conditions::{Comparison, Condition, Operand};
use crate::simpler::order;
use crate::truths::{RowError, Truth};
use cedar_layers::policies::Entity;
use cedar_names::shared::{same_text, same_type};
use cedar_names::{EntityType, EntityUID, Literal, Pattern};
use cedar_values::{PartialValue, Value, ValueKind, entity_in, text_in};
use std::cmp::Ordering;
use std::collections::BTreeMap;
use std::rc::RcStr;

// What was read of a row: a value, the row itself, an error, or nothing that is known.
#[derive(Clone, Copy)]
pub(crate) enum Seen<'a> {
    Value(&'a Value),
    Row,
    Errs(RowError),
    Untold,
}

// ---- conditions

/// What the row tells of the condition.
#[tactic(auto, unfolding(cedar_model::specs::Outcomes::bool_of))]
pub(crate) fn told_truth(condition: &Condition, row: &Entity) -> Truth
    ensures { truth_told result ≡ condition_says (entity_name row.now) (entity_view row.now) condition.now }
{
    match condition {
        Condition::Known(known) => truth_of(*known),
        Condition::And(left, right) => match told_truth(left, row) {
            Truth::Holds => told_truth(right, row),
            Truth::Fails => Truth::Fails,
            Truth::Errs(error) => Truth::Errs(error),
            Truth::Untold => Truth::Untold,
        },
        Condition::Or(left, right) => match told_truth(left, row) {
            Truth::Holds => Truth::Holds,
            Truth::Fails => told_truth(right, row),
            Truth::Errs(error) => Truth::Errs(error),
            Truth::Untold => Truth::Untold,
        },
        Condition::Not(part) => match told_truth(part, row) {
            Truth::Holds => Truth::Fails,
            Truth::Fails => Truth::Holds,
            Truth::Errs(error) => Truth::Errs(error),
            Truth::Untold => Truth::Untold,
        },
        Condition::If(test, yes, no) => match told_truth(test, row) {
            Truth::Holds => told_truth(yes, row),
            Truth::Fails => told_truth(no, row),
            Truth::Errs(error) => Truth::Errs(error),
            Truth::Untold => Truth::Untold,
        },
        Condition::Holds(operand) => as_truth(read(operand, row), row),
        Condition::Compare(comparison, first, second) => compared(
            *comparison,
            read(first, row),
            read(second, row),
            row,
        ),
        Condition::In(operand, other) => is_within(read(operand, row), other, row),
        Condition::Has(operand, name) => has(read(operand, row), name, row),
        Condition::Like(operand, pattern) => is_like(read(operand, row), pattern, row),
        Condition::Is(operand, ty) => is_of_type(read(operand, row), ty, row),
        Condition::Contains(operand, value) => contains(read(operand, row), value, row),
    }
}

fn truth_of(holds: bool) -> Truth
    ensures { truth_told result ≡ tells_bool holds }
{
    if holds { Truth::Holds } else { Truth::Fails }
}

// ---- operands

fn read<'a>(operand: &'a Operand, row: &'a Entity) -> Seen<'a>
    ensures { seen_told (entity_name row.now) result
        ≡ operand_told (entity_name row.now) (entity_view row.now) operand.now }
{
    match operand {
        Operand::Known(value) => known(value, row),
        Operand::Row => Seen::Row,
        Operand::Attribute(of, name) => match read(of, row) {
            Seen::Value(value) => attribute_of(value, name, row),
            Seen::Row => attribute_of_row(name, row),
            Seen::Errs(error) => Seen::Errs(error),
            Seen::Untold => Seen::Untold,
        },
    }
}

fn known<'a>(value: &'a Value, row: &Entity) -> Seen<'a>
    ensures { seen_told (entity_name row.now) result ≡ known_told value.now.what }
{
    match value.value_kind() {
        ValueKind::Lit(_) => Seen::Value(value),
        ValueKind::Set(_) => Seen::Untold,
        ValueKind::Record(_) => Seen::Untold,
        ValueKind::ExtensionValue(_) => Seen::Untold,
    }
}

// ---- attributes

fn attribute_of<'a>(value: &'a Value, name: &RcStr, row: &'a Entity) -> Seen<'a>
    ensures { seen_told (entity_name row.now) result ≡ attribute_told (entity_name row.now) (entity_view row.now)
        (abstract_value value.now.what) (rc_str_bytes name.now) }
{
    match value.value_kind() {
        ValueKind::Lit(literal) => attribute_of_literal(literal, name, row),
        ValueKind::Set(_) => Seen::Errs(RowError::TypeError),
        ValueKind::Record(pairs) => attribute_of_record(pairs, name, row),
        ValueKind::ExtensionValue(_) => Seen::Errs(RowError::TypeError),
    }
}

#[tactic(auto, unfolding(cedar_model::specs::Meaning::or_errs))]
fn attribute_of_record<'a>(
    pairs: &'a BTreeMap<RcStr, Value>,
    name: &RcStr,
    row: &Entity,
) -> Seen<'a>
    ensures { seen_told (entity_name row.now) result ≡ tells (or_errs record_attribute_does_not_exist
        (value_at (rc_str_bytes name.now) (abstract_fields (whats_at pairs.now.entries)))) }
{
    match field(pairs, name) {
        Some(found) => Seen::Value(found),
        None => Seen::Errs(RowError::KeyDoesNotExist),
    }
}

fn attribute_of_literal<'a>(literal: &Literal, name: &RcStr, row: &'a Entity) -> Seen<'a>
    ensures { seen_told (entity_name row.now) result ≡ attribute_told (entity_name row.now) (entity_view row.now)
        (plain (literal_view literal.now)) (rc_str_bytes name.now) }
{
    match literal {
        Literal::Bool(_) => Seen::Errs(RowError::TypeError),
        Literal::Long(_) => Seen::Errs(RowError::TypeError),
        Literal::String(_) => Seen::Errs(RowError::TypeError),
        Literal::EntityUID(uid) => {
            if same_uid(uid, row.uid()) {
                stored_attribute(name, row)
            } else {
                Seen::Untold
            }
        }
    }
}

fn attribute_of_row<'a>(name: &RcStr, row: &'a Entity) -> Seen<'a>
    ensures { seen_told (entity_name row.now) result ≡ attribute_told (entity_name row.now) (entity_view row.now)
        (plain (entity_literal (entity_name row.now))) (rc_str_bytes name.now) }
{
    stored_attribute(name, row)
}

fn stored_attribute<'a>(name: &RcStr, row: &'a Entity) -> Seen<'a>
    ensures { seen_told (entity_name row.now) result
        ≡ part_told (part_at (rc_str_bytes name.now) (entity_view row.now).attributes) }
{
    match row.get(name.as_str()) {
        Some(part) => part_seen(part, row),
        None => Seen::Errs(RowError::AttributeDoesNotExist),
    }
}

fn part_seen<'a>(part: &'a PartialValue, row: &Entity) -> Seen<'a>
    ensures { seen_told (entity_name row.now) result ≡ part_told (Some (partial_view part.now)) }
{
    match part {
        PartialValue::Value(value) => Seen::Value(value),
        PartialValue::Residual(_) => Seen::Untold,
    }
}

// The value at the key of a record.
fn field<'a>(pairs: &'a BTreeMap<RcStr, Value>, name: &RcStr) -> Option<&'a Value>
    ensures { option_map (λ (p : Placed). abstract_value p.what) (option_copied result)
        ≡ value_at (rc_str_bytes name.now) (abstract_fields (whats_at pairs.now.entries)) }
{
    pairs.get(name)
}

fn has(seen: Seen<'_>, name: &RcStr, row: &Entity) -> Truth
    ensures { truth_told result ≡ told_then (seen_told (entity_name row.now) seen.entry)
        (λ v. has_told (entity_name row.now) (entity_view row.now) v (rc_str_bytes name.now)) }
{
    match seen {
        Seen::Value(value) => value_has(value, name, row),
        Seen::Row => row_has(name, row),
        Seen::Errs(error) => Truth::Errs(error),
        Seen::Untold => Truth::Untold,
    }
}

fn value_has(value: &Value, name: &RcStr, row: &Entity) -> Truth
    ensures { truth_told result ≡ has_told (entity_name row.now) (entity_view row.now)
        (abstract_value value.now.what) (rc_str_bytes name.now) }
{
    match value.value_kind() {
        ValueKind::Lit(literal) => literal_has(literal, name, row),
        ValueKind::Set(_) => Truth::Errs(RowError::TypeError),
        ValueKind::Record(pairs) => truth_of(field(pairs, name).is_some()),
        ValueKind::ExtensionValue(_) => Truth::Errs(RowError::TypeError),
    }
}

fn literal_has(literal: &Literal, name: &RcStr, row: &Entity) -> Truth
    ensures { truth_told result ≡ has_told (entity_name row.now) (entity_view row.now)
        (plain (literal_view literal.now)) (rc_str_bytes name.now) }
{
    match literal {
        Literal::Bool(_) => Truth::Errs(RowError::TypeError),
        Literal::Long(_) => Truth::Errs(RowError::TypeError),
        Literal::String(_) => Truth::Errs(RowError::TypeError),
        Literal::EntityUID(uid) => {
            if same_uid(uid, row.uid()) {
                truth_of(is_stored(name, row))
            } else {
                Truth::Untold
            }
        }
    }
}

fn row_has(name: &RcStr, row: &Entity) -> Truth
    ensures { truth_told result ≡ has_told (entity_name row.now) (entity_view row.now)
        (plain (entity_literal (entity_name row.now))) (rc_str_bytes name.now) }
{
    truth_of(is_stored(name, row))
}

fn is_stored(name: &RcStr, row: &Entity) -> bool
    ensures { result ≡ is_some (part_at (rc_str_bytes name.now) (entity_view row.now).attributes) }
{
    row.get(name.as_str()).is_some()
}

fn same_uid(uid: &EntityUID, other: &EntityUID) -> bool
    ensures { result ≡ entity_eq (uid_name uid.now) (uid_name other.now) }
{
    same_type(uid.entity_type(), other.entity_type()) && same_text(uid.eid(), other.eid())
}

// ---- what is needed of a value

#[tactic(auto, unfolding(cedar_model::specs::Outcomes::bool_of))]
fn as_truth(seen: Seen<'_>, row: &Entity) -> Truth
    ensures { truth_told result ≡ told_bool (seen_told (entity_name row.now) seen.entry) tells_bool }
{
    match seen {
        Seen::Value(value) => match bool_in(value) {
            Some(holds) => truth_of(holds),
            None => Truth::Errs(RowError::TypeError),
        },
        Seen::Row => Truth::Errs(RowError::TypeError),
        Seen::Errs(error) => Truth::Errs(error),
        Seen::Untold => Truth::Untold,
    }
}

#[tactic(auto, unfolding(cedar_model::specs::Outcomes::bool_of))]
fn bool_in(value: &Value) -> Option<bool>
    ensures { result ≡ bool_of (abstract_value value.now.what) }
{
    match value.value_kind() {
        ValueKind::Lit(literal) => match literal {
            Literal::Bool(holds) => Some(*holds),
            Literal::Long(_) => None,
            Literal::String(_) => None,
            Literal::EntityUID(_) => None,
        },
        ValueKind::Set(_) => None,
        ValueKind::Record(_) => None,
        ValueKind::ExtensionValue(_) => None,
    }
}

#[tactic(auto, unfolding(cedar_model::specs::Outcomes::long_of))]
fn long_in(value: &Value) -> Option<i64>
    ensures { result ≡ long_of (abstract_value value.now.what) }
{
    match value.value_kind() {
        ValueKind::Lit(literal) => match literal {
            Literal::Bool(_) => None,
            Literal::Long(number) => Some(*number),
            Literal::String(_) => None,
            Literal::EntityUID(_) => None,
        },
        ValueKind::Set(_) => None,
        ValueKind::Record(_) => None,
        ValueKind::ExtensionValue(_) => None,
    }
}

#[tactic(auto, unfolding(cedar_model::specs::Outcomes::text_of))]
fn is_like(seen: Seen<'_>, pattern: &Pattern, row: &Entity) -> Truth
    ensures { truth_told result ≡ told_then (seen_told (entity_name row.now) seen.entry)
        (λ v. told_needing (text_of v) (λ t. tells_bool (matches (pattern_view pattern.now) (chars t)))) }
{
    match seen {
        Seen::Value(value) => match text_in(value) {
            Some(text) => truth_of(pattern.wildcard_match(text.as_str())),
            None => Truth::Errs(RowError::TypeError),
        },
        Seen::Row => Truth::Errs(RowError::TypeError),
        Seen::Errs(error) => Truth::Errs(error),
        Seen::Untold => Truth::Untold,
    }
}

#[tactic(auto, unfolding(cedar_model::specs::Outcomes::entity_of))]
fn is_of_type(seen: Seen<'_>, ty: &EntityType, row: &Entity) -> Truth
    ensures { truth_told result ≡ told_then (seen_told (entity_name row.now) seen.entry)
        (λ v. told_needing (entity_of v) (λ d. tells_bool (text_eq d.type_name (type_text ty.now)))) }
{
    match seen {
        Seen::Value(value) => match entity_in(value) {
            Some(uid) => truth_of(same_type(uid.entity_type(), ty)),
            None => Truth::Errs(RowError::TypeError),
        },
        Seen::Row => truth_of(same_type(row.uid().entity_type(), ty)),
        Seen::Errs(error) => Truth::Errs(error),
        Seen::Untold => Truth::Untold,
    }
}

#[tactic(auto, unfolding(cedar_model::specs::Outcomes::entity_of))]
fn is_within(seen: Seen<'_>, other: &EntityUID, row: &Entity) -> Truth
    ensures { truth_told result ≡ told_then (seen_told (entity_name row.now) seen.entry)
        (within_told (entity_name row.now) (entity_view row.now) (uid_name other.now)) }
{
    match seen {
        Seen::Value(value) => match entity_in(value) {
            Some(uid) => within(uid, other, row),
            None => Truth::Errs(RowError::TypeError),
        },
        Seen::Row => within(row.uid(), other, row),
        Seen::Errs(error) => Truth::Errs(error),
        Seen::Untold => Truth::Untold,
    }
}

#[tactic(auto, unfolding(cedar_model::specs::Outcomes::entity_of))]
fn within(uid: &EntityUID, other: &EntityUID, row: &Entity) -> Truth
    ensures { truth_told result ≡ within_told (entity_name row.now) (entity_view row.now) (uid_name other.now)
        (plain (entity_literal (uid_name uid.now))) }
{
    if same_uid(uid, row.uid()) {
        truth_of(same_uid(uid, other) || row.is_descendant_of(other))
    } else {
        Truth::Untold
    }
}

fn contains(seen: Seen<'_>, value: &Value, row: &Entity) -> Truth
    ensures { truth_told result ≡ told_then (seen_told (entity_name row.now) seen.entry)
        (λ u. contains_told u value.now.what) }
{
    match seen {
        Seen::Value(set) => value_contains(set, value),
        Seen::Row => row_contains(value, row),
        Seen::Errs(error) => Truth::Errs(error),
        Seen::Untold => Truth::Untold,
    }
}

fn value_contains(set: &Value, value: &Value) -> Truth
    ensures { truth_told result ≡ contains_told (abstract_value set.now.what) value.now.what }
{
    match value.value_kind() {
        ValueKind::Lit(_) => set_contains(set, value),
        ValueKind::Set(_) => Truth::Untold,
        ValueKind::Record(_) => Truth::Untold,
        ValueKind::ExtensionValue(_) => Truth::Untold,
    }
}

#[tactic(auto, unfolding(cedar_model::specs::Outcomes::elements_of))]
fn set_contains(set: &Value, value: &Value) -> Truth
    ensures { truth_told result ≡ told_needing (elements_of (abstract_value set.now.what))
        (λ us. tells_bool (has_value (abstract_value value.now.what) us)) }
{
    match set.value_kind() {
        ValueKind::Lit(_) => Truth::Errs(RowError::TypeError),
        ValueKind::Set(elements) => truth_of(elements.contains(value)),
        ValueKind::Record(_) => Truth::Errs(RowError::TypeError),
        ValueKind::ExtensionValue(_) => Truth::Errs(RowError::TypeError),
    }
}

#[tactic(auto, unfolding(cedar_model::specs::Outcomes::elements_of))]
fn row_contains(value: &Value, row: &Entity) -> Truth
    ensures { truth_told result ≡ contains_told (plain (entity_literal (entity_name row.now))) value.now.what }
{
    match value.value_kind() {
        ValueKind::Lit(_) => Truth::Errs(RowError::TypeError),
        ValueKind::Set(_) => Truth::Untold,
        ValueKind::Record(_) => Truth::Untold,
        ValueKind::ExtensionValue(_) => Truth::Untold,
    }
}

// ---- comparisons

fn compared(comparison: Comparison, first: Seen<'_>, second: Seen<'_>, row: &Entity) -> Truth
    ensures { truth_told result ≡ told_then (seen_told (entity_name row.now) first.entry)
        (λ u. told_then (seen_told (entity_name row.now) second.entry) (compared_told comparison u)) }
{
    match first {
        Seen::Value(value) => value_compared(comparison, value, second, row),
        Seen::Row => row_compared(comparison, second, row),
        Seen::Errs(error) => Truth::Errs(error),
        Seen::Untold => Truth::Untold,
    }
}

fn value_compared(comparison: Comparison, value: &Value, second: Seen<'_>, row: &Entity) -> Truth
    ensures { truth_told result ≡ told_then (seen_told (entity_name row.now) second.entry)
        (compared_told comparison (abstract_value value.now.what)) }
{
    match second {
        Seen::Value(other) => values_compared(comparison, value, other),
        Seen::Row => compared_with_row(comparison, value, row),
        Seen::Errs(error) => Truth::Errs(error),
        Seen::Untold => Truth::Untold,
    }
}

fn row_compared(comparison: Comparison, second: Seen<'_>, row: &Entity) -> Truth
    ensures { truth_told result ≡ told_then (seen_told (entity_name row.now) second.entry)
        (compared_told comparison (plain (entity_literal (entity_name row.now)))) }
{
    match second {
        Seen::Value(other) => row_compared_with(comparison, other, row),
        Seen::Row => itself_compared(comparison, row),
        Seen::Errs(error) => Truth::Errs(error),
        Seen::Untold => Truth::Untold,
    }
}

#[tactic(auto, unfolding(cedar_model::specs::Outcomes::long_of, cedar_model::specs::Outcomes::needing))]
fn values_compared(comparison: Comparison, value: &Value, other: &Value) -> Truth
    ensures { truth_told result
        ≡ compared_told comparison (abstract_value value.now.what) (abstract_value other.now.what) }
{
    match comparison {
        Comparison::Equal => truth_of(value == other),
        Comparison::Less => {
            if is_extension(value) && is_extension(other) {
                Truth::Untold
            } else {
                is_less(order(long_in(value), long_in(other)))
            }
        }
        Comparison::LessEq => {
            if is_extension(value) && is_extension(other) {
                Truth::Untold
            } else {
                is_at_most(order(long_in(value), long_in(other)))
            }
        }
    }
}

#[tactic(auto, unfolding(cedar_model::specs::Outcomes::needing))]
fn is_less(order: Option<Ordering>) -> Truth
    ensures { truth_told result ≡ tells (needing order (λ o. gives_bool (is_lt o))) }
{
    match order {
        Some(order) => truth_of(order.is_lt()),
        None => Truth::Errs(RowError::TypeError),
    }
}

#[tactic(auto, unfolding(cedar_model::specs::Outcomes::needing))]
fn is_at_most(order: Option<Ordering>) -> Truth
    ensures { truth_told result ≡ tells (needing order (λ o. gives_bool (is_le o))) }
{
    match order {
        Some(order) => truth_of(order.is_le()),
        None => Truth::Errs(RowError::TypeError),
    }
}

fn is_extension(value: &Value) -> bool
    ensures { result ≡ is_extension (abstract_value value.now.what) }
{
    match value.value_kind() {
        ValueKind::Lit(_) => false,
        ValueKind::Set(_) => false,
        ValueKind::Record(_) => false,
        ValueKind::ExtensionValue(_) => true,
    }
}

#[tactic(auto, unfolding(cedar_model::specs::Outcomes::long_of, cedar_model::specs::Outcomes::needing))]
fn compared_with_row(comparison: Comparison, value: &Value, row: &Entity) -> Truth
    ensures { truth_told result ≡ compared_told comparison (abstract_value value.now.what)
        (plain (entity_literal (entity_name row.now))) }
{
    match comparison {
        Comparison::Equal => truth_of(is_row(value, row)),
        Comparison::Less => Truth::Errs(RowError::TypeError),
        Comparison::LessEq => Truth::Errs(RowError::TypeError),
    }
}

#[tactic(auto, unfolding(cedar_model::specs::Outcomes::long_of, cedar_model::specs::Outcomes::needing))]
fn row_compared_with(comparison: Comparison, value: &Value, row: &Entity) -> Truth
    ensures { truth_told result ≡ compared_told comparison (plain (entity_literal (entity_name row.now)))
        (abstract_value value.now.what) }
{
    match comparison {
        Comparison::Equal => truth_of(is_row(value, row)),
        Comparison::Less => Truth::Errs(RowError::TypeError),
        Comparison::LessEq => Truth::Errs(RowError::TypeError),
    }
}

#[tactic(auto, unfolding(cedar_model::specs::Outcomes::long_of, cedar_model::specs::Outcomes::needing))]
fn itself_compared(comparison: Comparison, row: &Entity) -> Truth
    ensures { truth_told result ≡ compared_told comparison (plain (entity_literal (entity_name row.now)))
        (plain (entity_literal (entity_name row.now))) }
{
    match comparison {
        Comparison::Equal => Truth::Holds,
        Comparison::Less => Truth::Errs(RowError::TypeError),
        Comparison::LessEq => Truth::Errs(RowError::TypeError),
    }
}

#[tactic(auto, unfolding(cedar_model::specs::Outcomes::entity_of))]
fn is_row(value: &Value, row: &Entity) -> bool
    ensures { result ≡ value_eq (abstract_value value.now.what) (plain (entity_literal (entity_name row.now))) }
{
    match entity_in(value) {
        Some(uid) => same_uid(uid, row.uid()),
        None => false,
    }
}

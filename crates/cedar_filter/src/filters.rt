#![tactic(auto, using(cedar_expressions::proofs::Levels::levels))]
//! Filters: an expression as a condition on the rows that stand for an unknown.
ghost use Rattle.std.specs.Prelude.{◌≡◌, None, Some, IfOk, IfErr, IfSome, is_some, option_map, option_copied};
ghost use Rattle.std.specs.Rc.{rc_str_bytes};
ghost use Rattle.cedar_model.specs.Terms.{Term, binary, if_then_else, in_operator, contains_operator};
ghost use Rattle.cedar_names.specs.Leaves.{type_view, literal_view};
ghost use Rattle.cedar_expressions.specs.View.{view};
ghost use Rattle.cedar_layers.specs.Stores.{entity_name, entity_view};
ghost use Rattle.cedar_filter.specs.Faults.{condition_fault, can_stand_for, literal_if_uid, kept_path, kept_operand};
ghost use Rattle.cedar_filter.specs.Faults.{kept_binary, kept_condition};
ghost use Rattle.cedar_filter.specs.Conditions.{operator_of, operand_term, condition_term};
ghost use Rattle.cedar_filter.specs.Rows.{condition_told};
ghost use Rattle.cedar_filter.specs.Truths.{truth_told};
ghost use Rattle.cedar_filter.specs.Filters.{row_term, filter_row, filter_condition, filter_term, IsFault, IsToldOf};
ghost use Rattle.cedar_filter.specs.Filters.{uid_literal};

use crate::conditions::{Comparison, Condition, Operand};
use crate::faults::fault_in;
use crate::rows::told_truth;
use crate::simpler::literal_in;
use crate::truths::Truth;
use cedar_expressions::{Expr, ExprKind};
use cedar_fallible::pair_of;
use cedar_layers::policies::Entity;
use cedar_names::shared::same_type;
use cedar_names::{BinaryOp, EntityUID, Literal, Type, UnaryOp, Unknown};
use cedar_values::Value;
use std::alloc::{AllocError, Global};
use std::rc::Rc;

/// Why there is no filter.
#[derive(Clone, Copy)]
pub enum NoFilter<'a> {
    /// This part is no condition on one row: the first, from left to right.
    Part(&'a Expr),
    /// Out of memory.
    Memory,
}

/// A condition on the rows that stand for an unknown.
#[derive(Drop)]
pub struct Filter {
    row: Unknown,
    condition: Condition,
}

impl Filter {
    /// The expression as a condition on the rows that stand for this unknown: literals `true` and `false`; `&&`, `||`,
    /// `!`, `if`; attributes of the row, and of records in it, and `==`, `<` and `<=` of them and of literals;
    /// `in` an entity, `is`, `has`, `like`, and `contains` of a literal. Refuses the first part of another kind (as
    /// another unknown, a variable, a call, arithmetic, a set), and if out of memory.
    pub fn of<'a>(alloc: Global, expr: &'a Expr, row: &Unknown) -> Result<Filter, NoFilter<'a>>
        ensures term { IfOk result (λ f. filter_term f ≡ view expr.now) }
        ensures row { IfOk result (λ f. row_term (filter_row f) ≡ row_term row.now) }
        ensures whole { IfOk result (λ f. condition_fault (rc_str_bytes row.now.name)
            (option_map type_view row.now.type_annotation) (view expr.now) ≡ None) }
        ensures refused { IfErr result (IsFault (condition_fault (rc_str_bytes row.now.name)
            (option_map type_view row.now.type_annotation) (view expr.now))) }
    {
        match fault_in(expr, row) {
            Some(part) => Err(NoFilter::Part(part)),
            None => match made(alloc, expr, row) {
                Ok(filter) => Ok(filter),
                Err(_) => Err(NoFilter::Memory),
            },
        }
    }

    /// The unknown that the rows stand for.
    pub fn row(&self) -> &Unknown
        ensures { result.now ≡ filter_row self.now }
    {
        &self.row
    }

    /// The condition.
    pub fn condition(&self) -> &Condition
        ensures { result.now ≡ filter_condition self.now }
    {
        &self.condition
    }

    /// What the entity, as a row, tells of the condition: whether it is true, false or errs, in each world that has
    /// this entity with exactly these attributes, tags and ancestors; or nothing, where the condition reads another
    /// entity, an attribute that is not known, or the order of two extension values. `None` if the entity cannot stand
    /// for the unknown: it is of another type than the annotation.
    pub fn passes(&self, entity: &Entity) -> Option<Truth>
        ensures typed { is_some result ≡ can_stand_for (option_map type_view (filter_row self.now).type_annotation)
            (entity_name entity.now) }
        ensures meaning { IfSome result (IsToldOf (rc_str_bytes (filter_row self.now).name) (entity_name entity.now)
            (entity_view entity.now) (filter_term self.now)) }
        ensures told { IfSome result (λ t. truth_told t ≡ condition_told (rc_str_bytes (filter_row self.now).name)
            (entity_name entity.now) (entity_view entity.now) (filter_term self.now)) }
    {
        if can_stand_for(&self.row.type_annotation, entity) {
            Some(told_truth(self.condition(), entity))
        } else {
            None
        }
    }
}

fn can_stand_for(annotation: &Option<Type>, entity: &Entity) -> bool
    ensures { result ≡ can_stand_for (option_map type_view annotation.now) (entity_name entity.now) }
{
    match annotation {
        None => true,
        Some(ty) => is_of_type(ty, entity),
    }
}

fn is_of_type(ty: &Type, entity: &Entity) -> bool
    ensures { result ≡ can_stand_for (Some (type_view ty.now)) (entity_name entity.now) }
{
    match ty {
        Type::Bool => false,
        Type::Long => false,
        Type::String => false,
        Type::Set => false,
        Type::Record => false,
        Type::Entity { ty } => same_type(entity.uid().entity_type(), ty),
        Type::Extension { .. } => false,
    }
}

// The filter, where each part is a condition on one row.
fn made(alloc: Global, expr: &Expr, row: &Unknown) -> Result<Filter, AllocError>
    requires { condition_fault (rc_str_bytes row.now.name) (option_map type_view row.now.type_annotation)
        (view expr.now) ≡ None }
    ensures term { IfOk result (λ f. filter_term f ≡ view expr.now) }
    ensures row { IfOk result (λ f. row_term (filter_row f) ≡ row_term row.now) }
{
    let (row, condition) = pair_of(copied(row), read_condition(alloc, expr, row))?;
    Ok(Filter { row, condition })
}

fn copied(row: &Unknown) -> Result<Unknown, AllocError>
    ensures { IfOk result (λ u. row_term u ≡ row_term row.now) }
{
    Ok(row.clone()?)
}

// ---- conditions: `false` in place of what is at fault

fn read_condition(alloc: Global, expr: &Expr, row: &Unknown) -> Result<Condition, AllocError>
    ensures { IfOk result (λ c. condition_term (row_term row.now) c
        ≡ kept_condition (rc_str_bytes row.now.name) (option_map type_view row.now.type_annotation) (view expr.now)) }
{
    match expr.expr_kind() {
        ExprKind::Lit(literal) => match literal {
            Literal::Bool(known) => Ok(Condition::Known(*known)),
            Literal::Long(_) => Ok(Condition::Known(false)),
            Literal::String(_) => Ok(Condition::Known(false)),
            Literal::EntityUID(_) => Ok(Condition::Known(false)),
        },
        ExprKind::Var(_) => Ok(Condition::Known(false)),
        ExprKind::Slot(_) => Ok(Condition::Known(false)),
        ExprKind::Unknown(_) => Ok(Condition::Known(false)),
        ExprKind::If {
            test_expr,
            then_expr,
            else_expr,
        } => {
            let yes = read_condition(alloc, then_expr, row);
            let branches = pair_of(yes, read_condition(alloc, else_expr, row));
            let (test, (yes, no)) = pair_of(read_condition(alloc, test_expr, row), branches)?;
            chosen(alloc, test, yes, no)
        }
        ExprKind::And { left, right } => {
            let right = read_condition(alloc, right, row);
            let (left, right) = pair_of(read_condition(alloc, left, row), right)?;
            let (left, right) = boxed_pair(alloc, left, right)?;
            Ok(Condition::And(left, right))
        }
        ExprKind::Or { left, right } => {
            let right = read_condition(alloc, right, row);
            let (left, right) = pair_of(read_condition(alloc, left, row), right)?;
            let (left, right) = boxed_pair(alloc, left, right)?;
            Ok(Condition::Or(left, right))
        }
        ExprKind::UnaryApp { op, arg } => match op {
            UnaryOp::Not => {
                let part = boxed(alloc, read_condition(alloc, arg, row)?)?;
                Ok(Condition::Not(part))
            }
            UnaryOp::Neg => Ok(Condition::Known(false)),
            UnaryOp::IsEmpty => Ok(Condition::Known(false)),
        },
        ExprKind::BinaryApp { op, arg1, arg2 } => match op {
            BinaryOp::Eq => read_comparison(alloc, Comparison::Equal, arg1, arg2, row),
            BinaryOp::Less => read_comparison(alloc, Comparison::Less, arg1, arg2, row),
            BinaryOp::LessEq => read_comparison(alloc, Comparison::LessEq, arg1, arg2, row),
            BinaryOp::Add => Ok(Condition::Known(false)),
            BinaryOp::Sub => Ok(Condition::Known(false)),
            BinaryOp::Mul => Ok(Condition::Known(false)),
            BinaryOp::In => read_in(alloc, arg1, arg2, row),
            BinaryOp::Contains => read_contains(alloc, arg1, arg2, row),
            BinaryOp::ContainsAll => Ok(Condition::Known(false)),
            BinaryOp::ContainsAny => Ok(Condition::Known(false)),
            BinaryOp::GetTag => Ok(Condition::Known(false)),
            BinaryOp::HasTag => Ok(Condition::Known(false)),
        },
        ExprKind::ExtensionFunctionApp { .. } => Ok(Condition::Known(false)),
        ExprKind::GetAttr { .. } => {
            let path = read_path(alloc, expr, row)?;
            Ok(Condition::Holds(path))
        }
        ExprKind::HasAttr { expr: of, attr } => {
            let (name, path) = pair_of(attr.clone(), read_path(alloc, of, row))?;
            Ok(Condition::Has(path, name))
        }
        ExprKind::ExtHasAttr { .. } => Ok(Condition::Known(false)),
        ExprKind::Like { expr: of, pattern } => {
            let (pattern, path) = pair_of(pattern.clone(), read_path(alloc, of, row))?;
            Ok(Condition::Like(path, pattern))
        }
        ExprKind::Is {
            expr: of,
            entity_type,
        } => {
            let (ty, path) = pair_of(entity_type.clone(), read_path(alloc, of, row))?;
            Ok(Condition::Is(path, ty))
        }
        ExprKind::Set(_) => Ok(Condition::Known(false)),
        ExprKind::Record(_) => Ok(Condition::Known(false)),
    }
}

fn read_comparison(
    alloc: Global,
    comparison: Comparison,
    first: &Expr,
    second: &Expr,
    row: &Unknown,
) -> Result<Condition, AllocError>
    ensures { IfOk result (λ c. condition_term (row_term row.now) c
        ≡ binary (operator_of comparison)
        (kept_operand (rc_str_bytes row.now.name) (option_map type_view row.now.type_annotation) (view first.now))
        (kept_operand (rc_str_bytes row.now.name) (option_map type_view row.now.type_annotation) (view second.now))) }
{
    let second = read_operand(alloc, second, row);
    let (first, second) = pair_of(read_operand(alloc, first, row), second)?;
    Ok(Condition::Compare(comparison, first, second))
}

fn read_in(
    alloc: Global,
    first: &Expr,
    second: &Expr,
    row: &Unknown,
) -> Result<Condition, AllocError>
    ensures { IfOk result (λ c. condition_term (row_term row.now) c
        ≡ kept_binary (rc_str_bytes row.now.name) (option_map type_view row.now.type_annotation) in_operator
        (view first.now) (view second.now)) }
{
    match uid_in(literal_in(second)) {
        None => Ok(Condition::Known(false)),
        Some(uid) => {
            let (uid, path) = pair_of(uid.clone(), read_path(alloc, first, row))?;
            Ok(Condition::In(path, uid))
        }
    }
}

fn uid_in(literal: Option<&Literal>) -> Option<&Rc<EntityUID>>
    ensures { option_map uid_literal (option_copied result)
        ≡ literal_if_uid (option_map literal_view (option_copied literal.entry)) }
{
    match literal {
        None => None,
        Some(literal) => match literal {
            Literal::Bool(_) => None,
            Literal::Long(_) => None,
            Literal::String(_) => None,
            Literal::EntityUID(uid) => Some(uid),
        },
    }
}

fn read_contains(
    alloc: Global,
    first: &Expr,
    second: &Expr,
    row: &Unknown,
) -> Result<Condition, AllocError>
    ensures { IfOk result (λ c. condition_term (row_term row.now) c
        ≡ kept_binary (rc_str_bytes row.now.name) (option_map type_view row.now.type_annotation) contains_operator
        (view first.now) (view second.now)) }
{
    match literal_in(second) {
        None => Ok(Condition::Known(false)),
        Some(literal) => {
            let (literal, path) = pair_of(literal.clone(), read_path(alloc, first, row))?;
            Ok(Condition::Contains(path, Value::from(literal)))
        }
    }
}

fn read_operand(alloc: Global, expr: &Expr, row: &Unknown) -> Result<Operand, AllocError>
    ensures { IfOk result (λ o. operand_term (row_term row.now) o
        ≡ kept_operand (rc_str_bytes row.now.name) (option_map type_view row.now.type_annotation) (view expr.now)) }
{
    match literal_in(expr) {
        None => read_path(alloc, expr, row),
        Some(literal) => {
            let literal = literal.clone()?;
            Ok(Operand::Known(Value::from(literal)))
        }
    }
}

fn read_path(alloc: Global, expr: &Expr, row: &Unknown) -> Result<Operand, AllocError>
    ensures { IfOk result (λ o. operand_term (row_term row.now) o
        ≡ kept_path (rc_str_bytes row.now.name) (option_map type_view row.now.type_annotation) (view expr.now)) }
{
    match expr.expr_kind() {
        ExprKind::Lit(_) => Ok(Operand::Row),
        ExprKind::Var(_) => Ok(Operand::Row),
        ExprKind::Slot(_) => Ok(Operand::Row),
        ExprKind::Unknown(_) => Ok(Operand::Row),
        ExprKind::If { .. } => Ok(Operand::Row),
        ExprKind::And { .. } => Ok(Operand::Row),
        ExprKind::Or { .. } => Ok(Operand::Row),
        ExprKind::UnaryApp { .. } => Ok(Operand::Row),
        ExprKind::BinaryApp { .. } => Ok(Operand::Row),
        ExprKind::ExtensionFunctionApp { .. } => Ok(Operand::Row),
        ExprKind::GetAttr { expr: of, attr } => {
            let (name, path) = pair_of(attr.clone(), read_path(alloc, of, row))?;
            let path = boxed(alloc, path)?;
            Ok(Operand::Attribute(path, name))
        }
        ExprKind::HasAttr { .. } => Ok(Operand::Row),
        ExprKind::ExtHasAttr { .. } => Ok(Operand::Row),
        ExprKind::Like { .. } => Ok(Operand::Row),
        ExprKind::Is { .. } => Ok(Operand::Row),
        ExprKind::Set(_) => Ok(Operand::Row),
        ExprKind::Record(_) => Ok(Operand::Row),
    }
}

// ---- parts in boxes

fn chosen(
    alloc: Global,
    test: Condition,
    yes: Condition,
    no: Condition,
) -> Result<Condition, AllocError>
    ensures { (r : Term) → IfOk result (λ c. condition_term r c
        ≡ if_then_else (condition_term r test) (condition_term r yes) (condition_term r no)) }
{
    let (yes, no) = boxed_pair(alloc, yes, no)?;
    let test = boxed(alloc, test)?;
    Ok(Condition::If(test, yes, no))
}

fn boxed<T: Drop>(alloc: Global, held: T) -> Result<Box<T>, AllocError>
    ensures { IfOk result (λ b. b.value ≡ held) }
{
    Ok(Box::new(alloc, held)?)
}

fn boxed_pair<T: Drop>(alloc: Global, first: T, second: T) -> Result<(Box<T>, Box<T>), AllocError>
    ensures first { IfOk result (λ p. p.0.value ≡ first) }
    ensures second { IfOk result (λ p. p.1.value ≡ second) }
{
    let first = Box::new(alloc, first)?;
    let second = Box::new(alloc, second)?;
    Ok((first, second))
}

#![tactic(auto, using(crate::proofs::Refused::refusals, cedar_expressions::proofs::Levels::levels))]
//! The request that a response is to.
ghost use Rattle.std.specs.Prelude.{◌≡◌, [], Ok, Some, IfOk, IfErr, option_map};
ghost use Rattle.json.specs.Value.{value_view};
ghost use Rattle.cedar_model.specs.Settings.{known_entry, unknown_entry};
ghost use Rattle.cedar_names.specs.Names.{type_text, uid_name};
ghost use Rattle.cedar_names.specs.Leaves.{literal_view, type_view, variable_view};
ghost use Rattle.cedar_names.specs.Texts.{variable_text};
ghost use Rattle.cedar_expressions.specs.View.{view};
ghost use Rattle.cedar_functions.specs.Functions.{knowledge};
ghost use Rattle.cedar_requests.specs.Requests.{entry_view};
ghost use Rattle.cedar_policy_json_reader.specs.Expressions.{expression_said};
ghost use Rattle.cedar_response_json_reader.specs.Requests as says;
ghost use Rattle.cedar_response_json_reader.specs.Refusals.{IsRefusal, IsRefusedAt, IsMemory, of_policies};
ghost use Rattle.cedar_response_json_reader.specs.declared.errors.ResponseRefusal.TheVariants as reasons;

use crate::errors::{ResponseJsonError, ResponseRefusal};
use crate::shapes::member_at;
use cedar_expressions::{Expr, ExprKind};
use cedar_functions::Functions;
use cedar_names::shared::variable_text;
use cedar_names::{EntityType, EntityUID, Literal, Type, Unknown, Var};
use cedar_policy_json_reader::expression_from_json;
use cedar_requests::EntityUIDEntry;
use json::Value;
use std::alloc::Global;

/// What stands there for the variable: an entity, or its unknown.
pub(crate) fn entry_at(
    alloc: Global,
    json: &Value<'_>,
    var: Var,
    functions: &Functions,
    limit: usize,
) -> Result<EntityUIDEntry, ResponseJsonError>
    ensures said { IfOk result (λ e. says.entry_at (knowledge functions.now) limit (variable_text (variable_view var))
        (value_view json.now) ≡ Ok (entry_view e)) }
    ensures refused { IfErr result (IsRefusal (says.entry_at (knowledge functions.now) limit
        (variable_text (variable_view var)) (value_view json.now))) }
{
    let name = variable_text(var);
    match member_at(alloc, json, name) {
        Ok(part) => match entry(alloc, part, name, functions, limit) {
            Ok(entry) => Ok(entry),
            Err(error) => Err(error.under_key(alloc, name)),
        },
        Err(error) => Err(error),
    }
}

fn entry(
    alloc: Global,
    json: &Value<'_>,
    name: &str,
    functions: &Functions,
    limit: usize,
) -> Result<EntityUIDEntry, ResponseJsonError>
    ensures said { IfOk result (λ e. says.entry_said (knowledge functions.now) limit name.now (value_view json.now)
        ≡ Ok (entry_view e)) }
    ensures refused { IfErr result
        (IsRefusal (says.entry_said (knowledge functions.now) limit name.now (value_view json.now))) }
{
    match expression(alloc, json, functions, limit) {
        Ok(expr) => {
            let entry = entry_of(alloc, name, &expr);
            drop(expr);
            entry
        }
        Err(error) => Err(error),
    }
}

fn expression(
    alloc: Global,
    json: &Value<'_>,
    functions: &Functions,
    limit: usize,
) -> Result<Expr, ResponseJsonError>
    ensures said { IfOk result
        (λ e. of_policies (expression_said (knowledge functions.now) limit (value_view json.now)) ≡ Ok (view e)) }
    ensures refused { IfErr result
        (IsRefusal (of_policies (expression_said (knowledge functions.now) limit (value_view json.now)))) }
{
    match expression_from_json(alloc, json, functions, limit) {
        Ok(expr) => Ok(expr),
        Err(error) => Err(ResponseJsonError::of_policies(error)),
    }
}

/// The expression at `context`.
pub(crate) fn context_at(
    alloc: Global,
    json: &Value<'_>,
    functions: &Functions,
    limit: usize,
) -> Result<Expr, ResponseJsonError>
    ensures said { IfOk result
        (λ e. says.context_at (knowledge functions.now) limit (value_view json.now) ≡ Ok (view e)) }
    ensures refused { IfErr result
        (IsRefusal (says.context_at (knowledge functions.now) limit (value_view json.now))) }
{
    match member_at(alloc, json, "context") {
        Ok(part) => match expression(alloc, part, functions, limit) {
            Ok(expr) => Ok(expr),
            Err(error) => Err(error.under_key(alloc, "context")),
        },
        Err(error) => Err(error),
    }
}

// ---- entries

fn entry_of(alloc: Global, name: &str, expr: &Expr) -> Result<EntityUIDEntry, ResponseJsonError>
    ensures said { IfOk result (λ e. says.entry_of name.now (view expr.now) ≡ Ok (entry_view e)) }
    ensures refused { IfErr result (IsRefusal (says.entry_of name.now (view expr.now))) }
{
    match literal_in(expr) {
        Some(literal) => entry_of_literal(alloc, literal),
        None => entry_of_unknown(alloc, name, unknown_in(expr)),
    }
}

fn entry_of_literal(alloc: Global, literal: &Literal) -> Result<EntityUIDEntry, ResponseJsonError>
    ensures said { IfOk result
        (λ e. says.entry_of_literal (literal_view literal.now) ≡ Ok (entry_view e)) }
    ensures refused { IfErr result (IsRefusal (says.entry_of_literal (literal_view literal.now))) }
{
    match literal {
        Literal::Bool(_) => Err(no_entity(alloc)),
        Literal::Long(_) => Err(no_entity(alloc)),
        Literal::String(_) => Err(no_entity(alloc)),
        Literal::EntityUID(uid) => known(uid),
    }
}

fn known(uid: &EntityUID) -> Result<EntityUIDEntry, ResponseJsonError>
    ensures said { IfOk result (λ e. entry_view e ≡ known_entry (uid_name uid.now)) }
    ensures memory { IfErr result IsMemory }
{
    match uid.clone() {
        Ok(uid) => Ok(EntityUIDEntry::known(uid, None)),
        Err(error) => Err(ResponseJsonError::Memory(error)),
    }
}

fn entry_of_unknown(
    alloc: Global,
    name: &str,
    unknown: Option<&Unknown>,
) -> Result<EntityUIDEntry, ResponseJsonError>
    ensures said { IfOk result
        (λ e. says.entry_of_unknown name.now (option_map says.unknown_view unknown.entry) ≡ Ok (entry_view e)) }
    ensures refused { IfErr result
        (IsRefusal (says.entry_of_unknown name.now (option_map says.unknown_view unknown.entry))) }
{
    match unknown {
        Some(unknown) => if unknown.name.as_str() == name {
            entry_of_type(alloc, unknown.type_annotation.as_ref())
        } else {
            Err(no_entity(alloc))
        },
        None => Err(no_entity(alloc)),
    }
}

fn entry_of_type(alloc: Global, ty: Option<&Type>) -> Result<EntityUIDEntry, ResponseJsonError>
    ensures said { IfOk result
        (λ e. says.entry_of_type (option_map (λ t. type_view t.now) ty.entry) ≡ Ok (entry_view e)) }
    ensures refused { IfErr result
        (IsRefusal (says.entry_of_type (option_map (λ t. type_view t.now) ty.entry))) }
{
    match ty {
        None => Ok(EntityUIDEntry::unknown()),
        Some(ty) => typed(alloc, ty),
    }
}

fn typed(alloc: Global, ty: &Type) -> Result<EntityUIDEntry, ResponseJsonError>
    ensures said { IfOk result (λ e. says.entry_of_type (Some (type_view ty.now)) ≡ Ok (entry_view e)) }
    ensures refused { IfErr result (IsRefusal (says.entry_of_type (Some (type_view ty.now)))) }
{
    match ty {
        Type::Bool => Err(no_entity(alloc)),
        Type::Long => Err(no_entity(alloc)),
        Type::String => Err(no_entity(alloc)),
        Type::Set => Err(no_entity(alloc)),
        Type::Record => Err(no_entity(alloc)),
        Type::Entity { ty } => of_type(ty),
        Type::Extension { name: _ } => Err(no_entity(alloc)),
    }
}

fn of_type(ty: &EntityType) -> Result<EntityUIDEntry, ResponseJsonError>
    ensures said { IfOk result (λ e. entry_view e ≡ unknown_entry (Some (type_text ty.now))) }
    ensures memory { IfErr result IsMemory }
{
    match ty.clone() {
        Ok(ty) => Ok(EntityUIDEntry::unknown_with_type(ty, None)),
        Err(error) => Err(ResponseJsonError::Memory(error)),
    }
}

#[cold]
fn no_entity(alloc: Global) -> ResponseJsonError
    ensures { IsRefusedAt [] reasons.NotAnEntity result }
{
    ResponseJsonError::refusal(alloc, ResponseRefusal::NotAnEntity)
}

// ---- literals and unknowns

/// The literal that the expression is, if it is one.
pub(crate) fn literal_in(expr: &Expr) -> Option<&Literal>
    ensures { option_map (λ l. literal_view l.now) result ≡ says.literal_in (view expr.now) }
{
    match expr.expr_kind() {
        ExprKind::Lit(literal) => Some(literal),
        ExprKind::Var(_) => None,
        ExprKind::Slot(_) => None,
        ExprKind::Unknown(_) => None,
        ExprKind::If { .. } => None,
        ExprKind::And { .. } => None,
        ExprKind::Or { .. } => None,
        ExprKind::UnaryApp { .. } => None,
        ExprKind::BinaryApp { .. } => None,
        ExprKind::ExtensionFunctionApp { .. } => None,
        ExprKind::GetAttr { .. } => None,
        ExprKind::HasAttr { .. } => None,
        ExprKind::ExtHasAttr { .. } => None,
        ExprKind::Like { .. } => None,
        ExprKind::Is { .. } => None,
        ExprKind::Set(_) => None,
        ExprKind::Record(_) => None,
    }
}

/// The unknown that the expression is, if it is one.
pub(crate) fn unknown_in(expr: &Expr) -> Option<&Unknown>
    ensures { option_map says.unknown_view result ≡ says.unknown_in (view expr.now) }
{
    match expr.expr_kind() {
        ExprKind::Unknown(unknown) => Some(unknown),
        ExprKind::Lit(_) => None,
        ExprKind::Var(_) => None,
        ExprKind::Slot(_) => None,
        ExprKind::If { .. } => None,
        ExprKind::And { .. } => None,
        ExprKind::Or { .. } => None,
        ExprKind::UnaryApp { .. } => None,
        ExprKind::BinaryApp { .. } => None,
        ExprKind::ExtensionFunctionApp { .. } => None,
        ExprKind::GetAttr { .. } => None,
        ExprKind::HasAttr { .. } => None,
        ExprKind::ExtHasAttr { .. } => None,
        ExprKind::Like { .. } => None,
        ExprKind::Is { .. } => None,
        ExprKind::Set(_) => None,
        ExprKind::Record(_) => None,
    }
}

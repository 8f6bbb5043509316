#![tactic(auto, using(crate::proofs::Views::views, crate::proofs::Refused::refusals))]
//! The conditions of policies.
ghost use Rattle.std.specs.Prelude.{◌≡◌, [], Ok, map, option_map, codes, OnOk, IfOk, IfErr};
ghost use Rattle.json.specs.Find.{as_array};
ghost use Rattle.json.specs.Value.{value_view, items_view};
ghost use Rattle.cedar_expressions.specs.View.{view};
ghost use Rattle.cedar_functions.specs.Functions.{knowledge};
ghost use Rattle.cedar_policy_json_reader.specs.Expressions.{expression_said};
ghost use Rattle.cedar_policy_json_reader.specs.Lists.{IsOneMore};
ghost use Rattle.cedar_policy_json_reader.specs.Paths.{at_key, at_index};
ghost use Rattle.cedar_policy_json_reader.specs.Policies as says;
ghost use Rattle.cedar_policy_json_reader.specs.Refusals.{IsRefusal, IsMemory, under, made_of};

use crate::errors::{PolicyJsonError, RefusalReason};
use crate::expressions::expression_from_json;
use crate::making::{put, unary};
use crate::shapes::{array, missing, text_at, two_members};
use cedar_expressions::Expr;
use cedar_functions::Functions;
use cedar_names::{Literal, UnaryOp};
use json::Value;
use std::alloc::{AllocError, Global};

/// The conditions at `conditions`, joined by `&&`; `true` where there are none.
pub(crate) fn conditions_at(
    alloc: Global,
    json: &Value<'_>,
    functions: &Functions,
    limit: usize,
) -> Result<Expr, PolicyJsonError>
    ensures said { IfOk result (λ e. says.conditions_at (expression_said (knowledge functions.now) limit)
        (value_view json.now) ≡ Ok (view e)) }
    ensures refused { IfErr result (IsRefusal (says.conditions_at (expression_said (knowledge functions.now) limit)
        (value_view json.now))) }
{
    match json.get("conditions") {
        Some(conditions) => match read_conditions(alloc, conditions, functions, limit) {
            Ok(when) => Ok(when),
            Err(error) => Err(error.under_key(alloc, "conditions")),
        },
        None => Err(missing(alloc, "conditions")),
    }
}

fn read_conditions(
    alloc: Global,
    conditions: &Value<'_>,
    functions: &Functions,
    limit: usize,
) -> Result<Expr, PolicyJsonError>
    ensures said { IfOk result (λ e. says.conditions_said (expression_said (knowledge functions.now) limit)
        (value_view conditions.now) ≡ Ok (view e)) }
    ensures refused { IfErr result (IsRefusal (says.conditions_said
        (expression_said (knowledge functions.now) limit) (value_view conditions.now))) }
{
    match array(conditions) {
        Some(items) => read_all(alloc, items, functions, limit),
        None => Err(PolicyJsonError::refusal(alloc, RefusalReason::NotAnArray)),
    }
}

fn read_all(
    alloc: Global,
    items: &Vec<Value<'_>>,
    functions: &Functions,
    limit: usize,
) -> Result<Expr, PolicyJsonError>
    ensures said { IfOk result (λ e. made_of says.joined (says.conditions_from
        (expression_said (knowledge functions.now) limit) 0 (items_view items.now.items)) ≡ Ok (view e)) }
    ensures refused { IfErr result (IsRefusal (made_of says.joined (says.conditions_from
        (expression_said (knowledge functions.now) limit) 0 (items_view items.now.items)))) }
{
    let mut conditions: Vec<Expr> = Vec::new(alloc);
    match put_conditions(alloc, items, &mut conditions, functions, limit) {
        Ok(()) => join(alloc, conditions),
        Err(error) => {
            drop(conditions);
            Err(error)
        }
    }
}

// Puts the conditions of the items behind those that are there.
fn put_conditions(
    alloc: Global,
    items: &Vec<Value<'_>>,
    conditions: &mut Vec<Expr>,
    functions: &Functions,
    limit: usize,
) -> Result<(), PolicyJsonError>
    requires { conditions.old.items ≡ [] }
    ensures said { OnOk result (says.conditions_from (expression_said (knowledge functions.now) limit) 0
        (items_view items.now.items) ≡ Ok (map view conditions.new.items)) }
    ensures refused { IfErr result (IsRefusal (says.conditions_from (expression_said (knowledge functions.now) limit) 0
        (items_view items.now.items))) }
{
    let mut index: usize = 0;
    'items: for item in items {
        put_condition(alloc, item, index, conditions, functions, limit)?;
        index += 1;
    }
    Ok(())
}

fn put_condition(
    alloc: Global,
    item: &Value<'_>,
    index: usize,
    conditions: &mut Vec<Expr>,
    functions: &Functions,
    limit: usize,
) -> Result<(), PolicyJsonError>
    ensures said { OnOk result (IsOneMore (map view conditions.old.items) (under (at_index index)
        (says.condition_said (expression_said (knowledge functions.now) limit) (value_view item.now)))
        (map view conditions.new.items)) }
    ensures refused { IfErr result (IsRefusal (under (at_index index)
        (says.condition_said (expression_said (knowledge functions.now) limit) (value_view item.now)))) }
{
    match read_condition(alloc, item, functions, limit) {
        Ok(condition) => put(condition, conditions),
        Err(error) => Err(error.under_index(index)),
    }
}

fn read_condition(
    alloc: Global,
    item: &Value<'_>,
    functions: &Functions,
    limit: usize,
) -> Result<Expr, PolicyJsonError>
    ensures said { IfOk result (λ e. says.condition_said (expression_said (knowledge functions.now) limit)
        (value_view item.now) ≡ Ok (view e)) }
    ensures refused { IfErr result (IsRefusal (says.condition_said
        (expression_said (knowledge functions.now) limit) (value_view item.now))) }
{
    match two_members(alloc, item, "kind", "body") {
        Ok((kind, body)) => read_body(alloc, kind, body, functions, limit),
        Err(error) => Err(error),
    }
}

fn read_body(
    alloc: Global,
    kind: &Value<'_>,
    body: &Value<'_>,
    functions: &Functions,
    limit: usize,
) -> Result<Expr, PolicyJsonError>
    ensures said { IfOk result (λ e. says.kind_and_body_said (expression_said (knowledge functions.now) limit)
        (value_view kind.now, value_view body.now) ≡ Ok (view e)) }
    ensures refused { IfErr result (IsRefusal (says.kind_and_body_said
        (expression_said (knowledge functions.now) limit) (value_view kind.now, value_view body.now))) }
{
    match text_at(alloc, "kind", kind) {
        Ok(kind) => match expression_from_json(alloc, body, functions, limit) {
            Ok(body) => of_kind(alloc, kind, body),
            Err(error) => Err(error.under_key(alloc, "body")),
        },
        Err(error) => Err(error),
    }
}

// The condition, which is negated behind `unless`.
fn of_kind(alloc: Global, kind: &str, body: Expr) -> Result<Expr, PolicyJsonError>
    ensures said { IfOk result (λ e. says.kind_of_said kind.now (view body) ≡ Ok (view e)) }
    ensures refused { IfErr result (IsRefusal (says.kind_of_said kind.now (view body))) }
{
    if kind == "when" {
        Ok(body)
    } else if kind == "unless" {
        unary(alloc, UnaryOp::Not, body)
    } else {
        drop(body);
        Err(PolicyJsonError::refusal_at(alloc, "kind", RefusalReason::NotAKind))
    }
}

// The conditions, joined by `&&`, the first two first; `true` where there are none.
fn join(alloc: Global, conditions: Vec<Expr>) -> Result<Expr, PolicyJsonError>
    ensures said { IfOk result (λ e. view e ≡ says.joined (map view conditions.items)) }
    ensures memory { IfErr result IsMemory }
{
    let mut rest = conditions;
    if rest.is_empty() {
        drop(rest);
        return Ok(Expr::val(Literal::Bool(true)));
    }
    let first = rest.remove(0);
    match join_behind(alloc, first, rest) {
        Ok(joined) => Ok(joined),
        Err(error) => Err(PolicyJsonError::Memory(error)),
    }
}

fn join_behind(alloc: Global, first: Expr, others: Vec<Expr>) -> Result<Expr, AllocError>
    ensures { IfOk result (λ e. view e ≡ says.joined_behind (view first) (map view others.items)) }
{
    let mut joined = first;
    'others: for other in others {
        joined = Expr::and(alloc, joined, other)?;
    }
    Ok(joined)
}

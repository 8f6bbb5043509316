#![tactic(auto, using(cedar_json_writer::proofs::Trees::trees))]
//! What the variables of a request answer.
ghost use Rattle.std.specs.Prelude.{◌≡◌, [], ◌∷◌, ◌++◌, IfOk, OnOk};
ghost use Rattle.cedar_model.specs.Agreement.{no_slots};
ghost use Rattle.cedar_model.specs.Settings.{variable_part};
ghost use Rattle.cedar_model.specs.Terms.{principal, action, resource, context};
ghost use Rattle.cedar_expressions.specs.View.{view};
ghost use Rattle.cedar_values.specs.Residuals.{partial_view, partial_term};
ghost use Rattle.cedar_requests.specs.Requests.{request_view};
ghost use Rattle.cedar_json_writer.specs.Trees.{json_view, members_seen};
ghost use Rattle.cedar_policy_json_writer.specs.Expressions.{expression_json};
ghost use Rattle.cedar_response_json.specs.Responses.{request_members, four_parts};

use cedar_expressions::Expr;
use cedar_json_writer::{JsonValue, put_member};
use cedar_policy_json_writer::expression_to_json;
use cedar_requests::Request;
use cedar_values::PartialValue;
use std::alloc::{AllocError, Global};
use std::rc::RcStr;

/// Puts what the four variables answer behind the members that are there, each under its name.
pub(crate) fn put_request(
    alloc: Global,
    request: &Request,
    members: &mut Vec<(RcStr, JsonValue)>,
) -> Result<(), AllocError>
    ensures { OnOk result (members_seen members.new.items
        ≡ members_seen members.old.items ++ request_members (request_view request.now)) }
{
    let (principal, action, resource, context) = variable_values(alloc, request)?;
    put_parts(alloc, principal, action, resource, context, members)?;
    Ok(())
}

fn variable_values(
    alloc: Global,
    request: &Request,
) -> Result<(PartialValue, PartialValue, PartialValue, PartialValue), AllocError>
    ensures principal { IfOk result (λ p. partial_view p.0 ≡ variable_part (request_view request.now) principal) }
    ensures action { IfOk result (λ p. partial_view p.1 ≡ variable_part (request_view request.now) action) }
    ensures resource { IfOk result (λ p. partial_view p.2 ≡ variable_part (request_view request.now) resource) }
    ensures context { IfOk result (λ p. partial_view p.3 ≡ variable_part (request_view request.now) context) }
{
    let copy = request.clone()?;
    copy.variable_values(alloc)
}

fn put_parts(
    alloc: Global,
    principal: PartialValue,
    action: PartialValue,
    resource: PartialValue,
    context: PartialValue,
    members: &mut Vec<(RcStr, JsonValue)>,
) -> Result<(), AllocError>
    ensures { OnOk result (members_seen members.new.items ≡ members_seen members.old.items
        ++ four_parts (partial_view principal) (partial_view action) (partial_view resource) (partial_view context)) }
{
    put_part(alloc, "principal", principal, members)?;
    put_part(alloc, "action", action, members)?;
    put_part(alloc, "resource", resource, members)?;
    put_part(alloc, "context", context, members)?;
    Ok(())
}

// The value or the residual under this key, as an expression.
fn put_part(
    alloc: Global,
    key: &str,
    part: PartialValue,
    members: &mut Vec<(RcStr, JsonValue)>,
) -> Result<(), AllocError>
    ensures { OnOk result (members_seen members.new.items ≡ members_seen members.old.items
        ++ (key.now, expression_json no_slots (partial_term (partial_view part))) ∷ []) }
{
    let json = part_to_json(alloc, part)?;
    put_member(alloc, key, json, members)?;
    Ok(())
}

fn part_to_json(alloc: Global, part: PartialValue) -> Result<JsonValue, AllocError>
    ensures { IfOk result (λ j. json_view j ≡ expression_json no_slots (partial_term (partial_view part))) }
{
    match part.as_expr(alloc) {
        Ok(expr) => {
            let json = written(alloc, &expr);
            drop(expr);
            json
        }
        Err(error) => Err(error),
    }
}

fn written(alloc: Global, expr: &Expr) -> Result<JsonValue, AllocError>
    ensures { IfOk result (λ j. json_view j ≡ expression_json no_slots (view expr.now)) }
{
    expression_to_json(alloc, expr)
}

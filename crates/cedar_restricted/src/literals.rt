//! Literals among parts. Those that follow an answered part are their values, and take no turn of their own: an answer
//! shows that parts have at least one level, and a literal needs no more.
ghost use Rattle.std.specs.Prelude.{◌≡◌, ◌<◌, ◌≤◌, length, IfOk};
ghost use Rattle.cedar_model.specs.Values.{plain_represented};
ghost use Rattle.cedar_names.specs.Leaves.{literal_view};
ghost use Rattle.cedar_expressions.specs.View.{expr_loc};
ghost use Rattle.cedar_restricted.specs.Literals.{IsGrown};
ghost use Rattle.cedar_restricted.specs.Parts.{count};
ghost use Rattle.cedar_restricted.specs.Elements.{GrowsWith};

use crate::answers::Answers;
use cedar_expressions::Expr;
use cedar_names::Literal;
use cedar_values::{PartialValue, Value, ValueKind};
use std::alloc::{AllocError, Global};

// These answers and one more, and behind it the values of the literals that follow it in the parts; where an answer is
// a residual none of them. Refuses only if out of memory.
pub(crate) fn answers_with(
    alloc: Global,
    answers: Answers,
    answer: PartialValue,
    parts: &[Expr],
) -> Result<Answers, AllocError>
    requires { count answers < length parts.now }
    ensures grows { IfOk result (GrowsWith parts.now answers answer) }
    ensures no_more { IfOk result (λ a. count a ≤ length parts.now) }
{
    let grown = answers.with(alloc, answer)?;
    match grown {
        Answers::Values(values) => {
            let done = values.len();
            Ok(Answers::Values(values_behind(values, &parts[done..])?))
        }
        Answers::Mixed(mixed) => Ok(Answers::Mixed(mixed)),
    }
}

// The values, and behind them those of the literals that the parts begin with.
fn values_behind(mut values: Vec<Value>, parts: &[Expr]) -> Result<Vec<Value>, AllocError>
    ensures { IfOk result (λ v. IsGrown parts.now values.items v.items) }
{
    values.reserve(parts.len())?;
    'literals: for part in parts {
        match part.as_literal() {
            Some(literal) => values.push(value_at(part, literal)?)?,
            None => return Ok(values),
        }
    }
    Ok(values)
}

// The value of the literal, where the part stands.
fn value_at(part: &Expr, literal: &Literal) -> Result<Value, AllocError>
    ensures what { IfOk result (λ v. v.what ≡ plain_represented (literal_view literal.now)) }
    ensures place { IfOk result (λ v. v.loc ≡ expr_loc part.now) }
{
    let literal = literal.clone()?;
    let loc = part.source_loc().copied();
    Ok(Value::new(ValueKind::Lit(literal), loc))
}

//! What is evaluated directly, without a turn of the loop: the value of an expression that is low, of operators on
//! literals and known variables.
ghost use Rattle.std.specs.Prelude.{◌≡◌, ◌≤◌, true, IfSome};
ghost use Rattle.cedar_model.specs.Failures.{answers_value};
ghost use Rattle.cedar_model.specs.Values.{plain_represented};
ghost use Rattle.cedar_names.specs.Leaves.{literal_view};
ghost use Rattle.cedar_expressions.specs.View.{view, expr_loc};
ghost use Rattle.cedar_errors.specs.Answers.{partial_answer};
ghost use Rattle.cedar_interpreter.specs.Direct.{IsBoxOf, IsBoolOf, IsMovedTo, HasDirectValue};
ghost use Rattle.cedar_interpreter.specs.Direct.{HasDirectValueIn, HasDirectAnswerIn, HasDirectBoolIn};

use crate::direct_evaluators::{DirectEvaluator, EvaluatorAbove, LeafEvaluator};
use crate::evaluation::Evaluation;
use cedar_errors::evaluator::err::EvaluationError;
use cedar_expressions::Expr;
use cedar_names::{Literal, Loc};
use cedar_operators::typed::bool_in;
use cedar_values::{PartialValue, Value, ValueKind};
use std::alloc::Global;

impl<'e, 'g, 'f> Evaluation<'e, 'g, 'f> {
    // The value of the part, if it is evaluated directly, where so many levels are left for the whole: in a box.
    pub(crate) fn direct_answer(
        &self,
        alloc: Global,
        part: &Expr,
        levels: usize,
    ) -> Option<Box<PartialValue>>
        ensures { HasDirectAnswerIn self.now levels (view part.now) result }
    {
        if is_tried(part, levels) {
            boxed_at(
                alloc,
                self.direct_value_unplaced(alloc, part),
                part.source_loc().copied(),
            )
        } else {
            None
        }
    }

    // The boolean that the part is, if it is evaluated directly and is one.
    pub(crate) fn direct_bool(&self, alloc: Global, part: &Expr, levels: usize) -> Option<bool>
        ensures { HasDirectBoolIn self.now levels (view part.now) result }
    {
        if is_tried(part, levels) {
            boolean_of(self.direct_value_unplaced(alloc, part))
        } else {
            None
        }
    }

    // The value of the part, if it is evaluated directly: where the part stands.
    pub(crate) fn direct_value(&self, alloc: Global, part: &Expr, levels: usize) -> Option<Value>
        ensures direct { HasDirectValueIn self.now levels (view part.now) result }
        ensures place { IfSome result (λ v. v.loc ≡ expr_loc part.now) }
    {
        if is_tried(part, levels) {
            place_value(
                self.direct_value_unplaced(alloc, part),
                part.source_loc().copied(),
            )
        } else {
            None
        }
    }

    // The value of an expression for which there are five levels, if it has one, wherever that value stands.
    fn direct_value_unplaced(&self, alloc: Global, part: &Expr) -> Option<Value>
        ensures { HasDirectValue self.now 5 (view part.now) result }
    {
        highest().evaluate(self, alloc, part)
    }
}

/// The direct evaluator that is tried: it evaluates expressions five levels high.
type Highest = EvaluatorAbove<EvaluatorAbove<EvaluatorAbove<EvaluatorAbove<LeafEvaluator>>>>;

fn highest() -> Highest {
    let second = EvaluatorAbove {
        below: LeafEvaluator,
    };
    let third = EvaluatorAbove { below: second };
    let fourth = EvaluatorAbove { below: third };
    EvaluatorAbove { below: fourth }
}

// Whether it is worth a try to evaluate the part directly, where so many levels are left for the whole.
fn is_tried(part: &Expr, levels: usize) -> bool
    ensures { result ≡ true → 6 ≤ levels }
{
    if levels < 6 {
        false
    } else {
        highest().suits(part)
    }
}

// The value in a box, at this place, unless out of memory.
fn boxed_at(alloc: Global, value: Option<Value>, loc: Option<Loc>) -> Option<Box<PartialValue>>
    ensures { IsBoxOf value result }
{
    match value {
        Some(mut value) => {
            value.loc = loc;
            match Box::new(alloc, PartialValue::Value(value)) {
                Ok(boxed) => Some(boxed),
                Err(_) => None,
            }
        }
        None => None,
    }
}

// The boolean that the value is, if it is one.
pub(crate) fn boolean_of(value: Option<Value>) -> Option<bool>
    ensures { IsBoolOf value result }
{
    match value {
        Some(value) => {
            let found = bool_in(&value);
            drop(value);
            found
        }
        None => None,
    }
}

// The value, at this place.
fn place_value(value: Option<Value>, loc: Option<Loc>) -> Option<Value>
    ensures { IsMovedTo value loc result }
{
    match value {
        Some(mut value) => {
            value.loc = loc;
            Some(value)
        }
        None => None,
    }
}

// The value of the literal, unless out of memory.
pub(crate) fn literal_value(literal: &Literal) -> Option<Value>
    ensures { IfSome result (λ v. v.what ≡ plain_represented (literal_view literal.now)) }
{
    match literal.clone() {
        Ok(literal) => Some(Value::new(ValueKind::Lit(literal), None)),
        Err(_) => None,
    }
}

// The value that a call answered, if it is one.
pub(crate) fn answered_value(answer: Result<PartialValue, EvaluationError>) -> Option<Value>
    ensures { IfSome result (λ v. partial_answer answer ≡ answers_value v.what) }
{
    match answer {
        Ok(PartialValue::Value(value)) => Some(value),
        Ok(PartialValue::Residual(residual)) => {
            drop(residual);
            None
        }
        Err(error) => {
            drop(error);
            None
        }
    }
}

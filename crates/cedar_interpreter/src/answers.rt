//! Answers that end an expression: a value, an error or a residual, put at its location.
ghost use Rattle.std.specs.Prelude.{◌≡◌, ◌≢◌, true, None, IfOk};
ghost use Rattle.cedar_model.specs.Failures.{Answer, answers, fails};
ghost use Rattle.cedar_model.specs.Rules.{bool_expected};
ghost use Rattle.cedar_expressions.specs.View.{expr_loc};
ghost use Rattle.cedar_values.specs.Residuals.{partial_view, partial_loc, partial_inside};
ghost use Rattle.cedar_errors.specs.Answers.{AnswersWith};
ghost use Rattle.cedar_errors.specs.Failures.{failure_of};
ghost use Rattle.cedar_interpreter.specs.Tasks.{Gives, IsOrWant, IsWaiting};
ghost use Rattle.cedar_interpreter.specs.Booleans.{part_bool};
ghost use Rattle.cedar_interpreter.specs.Elements.{IsBoxed};
ghost use Rattle.cedar_interpreter.specs.declared.frame.Task.TheVariants as tasks;

use crate::failed::Failed;
use crate::frame::{Frame, Next, Pending, SharedExpr, Task};
use crate::stopped::Stopped;
use cedar_errors::evaluator::err::EvaluationError;
use cedar_frames::Transition;
use cedar_layers::expressions::Type;
use cedar_names::Loc;
use cedar_operators::failures::type_error;
use cedar_operators::typed::{bool_in, bool_part};
use cedar_values::{PartialValue, Value};
use std::alloc::{AllocError, Global};
use std::mem;

// Where an expression stands.
#[inline(always)]
pub(crate) fn loc_of(whole: &SharedExpr) -> Option<Loc>
    ensures { result ≡ expr_loc whole.now.value }
{
    whole.source_loc().copied()
}

// What a call answers, where the whole stands.
pub(crate) fn answer_result(
    alloc: Global,
    whole: &SharedExpr,
    answer: Result<PartialValue, EvaluationError>,
) -> Next
    ensures { (a : Answer) → AnswersWith answer a → Gives (expr_loc whole.now.value) result a }
{
    match answer {
        Ok(value) => answer_part(alloc, whole, value),
        Err(error) => Transition::Done(Err(Stopped::of(alloc, error, loc_of(whole)))),
    }
}

// What a call answers, in the box of an operand, where the whole stands.
pub(crate) fn answer_result_in(
    alloc: Global,
    whole: &SharedExpr,
    mut operand: Box<PartialValue>,
    answer: Result<PartialValue, EvaluationError>,
) -> Next
    ensures { (a : Answer) → AnswersWith answer a → Gives (expr_loc whole.now.value) result a }
{
    match answer {
        Ok(value) => {
            drop(mem::replace(&mut *operand, value));
            put_at(whole, operand)
        }
        Err(error) => Transition::Done(Err(Stopped::of(alloc, error, loc_of(whole)))),
    }
}

// Takes an operand out of its box.
#[inline(always)]
pub(crate) fn taken_out(operand: &mut PartialValue) -> PartialValue
    ensures { result ≡ operand.old }
{
    mem::replace(operand, bool_part(false))
}

// This value or residual, where the whole stands.
#[inline(always)]
pub(crate) fn answer_part(alloc: Global, whole: &SharedExpr, part: PartialValue) -> Next
    ensures answer { Gives (expr_loc whole.now.value) result (answers (partial_view part)) }
    ensures boxed { IsBoxed part result }
{
    match Box::new(alloc, part) {
        Ok(part) => put_at(whole, part),
        Err(_) => Transition::Done(Err(Stopped::Memory)),
    }
}

// This answer, where the whole stands.
#[inline(always)]
pub(crate) fn put_at(whole: &SharedExpr, mut part: Box<PartialValue>) -> Next
    ensures answer { Gives (expr_loc whole.now.value) result (answers (partial_view part.value)) }
    ensures boxed { IsBoxed part.value result }
{
    if put_value(&mut part, whole) {
        Transition::Done(Ok(part))
    } else {
        residual_at(whole, part)
    }
}

// An answer that is a boolean, where the whole stands. It is no step, which would be copied once more.
#[inline(always)]
pub(crate) fn bool_at(whole: &SharedExpr, mut part: Box<PartialValue>) -> Box<PartialValue>
    requires { part_bool (partial_view part.value) ≢ None }
    ensures view { partial_view result.value ≡ partial_view part.value }
    ensures place { partial_loc result.value ≡ expr_loc whole.now.value }
{
    let _is_put = put_value(&mut part, whole);
    part
}

// Puts a value where the whole stands; a residual stays.
#[inline(always)]
fn put_value(part: &mut PartialValue, whole: &SharedExpr) -> bool
    ensures view { partial_view part.new ≡ partial_view part.old }
    ensures inside { partial_inside part.new ≡ partial_inside part.old }
    ensures put { result ≡ true → partial_loc part.new ≡ expr_loc whole.now.value }
    ensures known { part_bool (partial_view part.old) ≢ None → result ≡ true }
{
    match part {
        PartialValue::Value(value) => {
            value.loc = loc_of(whole);
            true
        }
        PartialValue::Residual(_) => false,
    }
}

// A residual, where the whole stands: in its box.
#[cold]
#[inline(never)]
fn residual_at(whole: &SharedExpr, mut part: Box<PartialValue>) -> Next
    ensures answer { Gives (expr_loc whole.now.value) result (answers (partial_view part.value)) }
    ensures boxed { IsBoxed part.value result }
{
    let placed = taken_out(&mut part).with_maybe_source_loc(loc_of(whole));
    drop(mem::replace(&mut *part, placed));
    Transition::Done(Ok(part))
}

// The error that came, which ends what waited too, where the whole stands if it stands nowhere.
pub(crate) fn pass_failure_on<T: Drop>(
    alloc: Global,
    whole: &SharedExpr,
    _held: T,
    failed: Box<Failed>,
) -> Next
    ensures { Gives (expr_loc whole.now.value) result (fails (failure_of failed.value.error)) }
{
    Transition::Done(Err(Stopped::Failed(failed).within(alloc, loc_of(whole))))
}

// The boolean that an answer is, if it is one.
#[inline(always)]
pub(crate) fn known_bool(part: &PartialValue) -> Option<bool>
    ensures { result ≡ part_bool (partial_view part.now) }
{
    match part {
        PartialValue::Value(value) => bool_in(value),
        PartialValue::Residual(_) => None,
    }
}

// That a boolean is expected.
#[cold]
#[inline(never)]
pub(crate) fn no_bool(alloc: Global, whole: &SharedExpr, value: &Value) -> Next
    ensures { Gives (expr_loc whole.now.value) result (bool_expected value.now.what) }
{
    Transition::Done(Err(Stopped::of(alloc, type_error(alloc, Type::Bool, value), loc_of(whole))))
}

// What comes next, or out of memory.
pub(crate) fn or_out_of_memory(next: Result<Next, AllocError>) -> Next
    ensures { IsOrWant next result }
{
    match next {
        Ok(next) => next,
        Err(_) => Transition::Done(Err(Stopped::Memory)),
    }
}

// The whole waits for this part, with this to be done with its answer.
pub(crate) fn wait(whole: &SharedExpr, part: &SharedExpr, pending: Pending) -> Next
    ensures { IsWaiting whole.now (tasks.Other pending) part.now result }
{
    match pair_of_copies(whole, part) {
        Ok((whole, part)) => {
            let task = Task::Other(pending);
            Transition::Wait(Frame { whole, task }, part)
        }
        Err(_) => Transition::Done(Err(Stopped::Memory)),
    }
}

// Each of two once more.
#[inline(always)]
pub(crate) fn pair_of_copies(
    first: &SharedExpr,
    second: &SharedExpr,
) -> Result<(SharedExpr, SharedExpr), AllocError>
    ensures first { IfOk result (λ p. p.0.value ≡ first.now.value) }
    ensures second { IfOk result (λ p. p.1.value ≡ second.now.value) }
{
    let first = first.clone()?;
    let second = second.clone()?;
    Ok((first, second))
}

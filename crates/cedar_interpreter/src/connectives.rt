//! `&&` and `||`: their left side, and what its answer makes of the right one.
ghost use Rattle.std.specs.Prelude.{◌≡◌, None, Some, IfOk, IfSome};
ghost use Rattle.cedar_model.specs.Terms.{bool_literal, literal};
ghost use Rattle.cedar_model.specs.Values.{plain_represented};
ghost use Rattle.cedar_model.specs.Failures.{Answer, value, answers, answers_bool};
ghost use Rattle.cedar_expressions.specs.View.{view};
ghost use Rattle.cedar_values.specs.Residuals.{partial_view};
ghost use Rattle.cedar_operators.specs.Connectives.{neutral, joined_terms};
ghost use Rattle.cedar_interpreter.specs.Booleans.{part_bool};
ghost use Rattle.cedar_interpreter.specs.Continuations.{ContinuesIn, StartsAt, ContinuesAt};
ghost use Rattle.cedar_interpreter.specs.Direct.{IsRightSide, IsAwaited};
ghost use Rattle.cedar_interpreter.specs.Endings.{boxed_answer};
ghost use Rattle.cedar_interpreter.specs.Kept.{IsKept};
ghost use Rattle.cedar_interpreter.specs.declared.frame.Pending.TheVariants as pendings;

use crate::answers::{
    answer_result_in, bool_at, known_bool, no_bool, or_out_of_memory, taken_out, wait,
};
use crate::boxed::copied_beside;
use crate::boxed_residual::BoxedResidual;
use crate::evaluation::Evaluation;
use crate::frame::{Frame, Next, Pending, SharedExpr, Task};
use crate::stopped::Stopped;
use cedar_expressions::Expr;
use cedar_frames::Transition;
use cedar_names::Literal;
use cedar_operators::partial::connectives::{Connective, joined_right, residual_connective};
use cedar_operators::typed::bool_part;
use cedar_values::PartialValue;
use std::alloc::{AllocError, Global};
use std::mem;
use std::rc::Rc;

impl<'e, 'g, 'f> Evaluation<'e, 'g, 'f> {
    // `&&` or `||` waits for its left side.
    pub(crate) fn begin_and_or(
        &self,
        whole: &SharedExpr,
        connective: Connective,
        left: &SharedExpr,
        right: &SharedExpr,
    ) -> Next
        ensures { StartsAt self.now whole.now
            (joined_terms connective (view left.now.value) (view right.now.value)) result }
    {
        match right.clone() {
            Ok(right) => wait(whole, left, Pending::LeftSide { connective, right }),
            Err(_) => Transition::Done(Err(Stopped::Memory)),
        }
    }

    // After the left side: one boolean decides, the other leaves the right side.
    pub(crate) fn resume_and_or_left(
        &self,
        alloc: Global,
        whole: SharedExpr,
        connective: Connective,
        right: Rc<Expr>,
        left: Box<PartialValue>,
        levels: usize,
    ) -> Next
        ensures { ContinuesIn self.now levels whole (pendings.LeftSide connective right) (boxed_answer left) result }
    {
        match known_bool(&left) {
            Some(b) => {
                if connective.is_decided_by(b) {
                    drop(right);
                    Transition::Done(Ok(bool_at(&whole, left)))
                } else {
                    self.begin_and_or_right(alloc, whole, connective, right, left, levels)
                }
            }
            None => or_out_of_memory(self.resume_and_or_left_no_bool(
                alloc, whole, connective, right, left,
            )),
        }
    }

    // The same after one that is no boolean.
    #[cold]
    #[inline(never)]
    fn resume_and_or_left_no_bool(
        &self,
        alloc: Global,
        whole: SharedExpr,
        connective: Connective,
        right: Rc<Expr>,
        left: Box<PartialValue>,
    ) -> Result<Next, AllocError>
        requires { part_bool (partial_view left.value) ≡ None }
        ensures { IfOk result (ContinuesAt self.now whole (pendings.LeftSide connective right) (boxed_answer left)) }
    {
        match &*left {
            PartialValue::Value(value) => Ok(no_bool(alloc, &whole, value)),
            PartialValue::Residual(_) => {
                self.keep_and_or_left(whole, connective, BoxedResidual::new(left), right)
            }
        }
    }

    // Beside a residual left side the right side is waited for.
    #[cold]
    #[inline(never)]
    fn keep_and_or_left(
        &self,
        whole: SharedExpr,
        connective: Connective,
        left: BoxedResidual,
        right: Rc<Expr>,
    ) -> Result<Next, AllocError>
        ensures { IfOk result (ContinuesAt self.now whole (pendings.LeftSide connective right)
            (boxed_answer left.part)) }
    {
        let (left, right, part) = copied_beside(left, right)?;
        let task = Task::Other(Pending::KeptRightSide {
            connective,
            left,
            right,
        });
        Ok(Transition::Wait(Frame { whole, task }, part))
    }

    // After the right side beside a left side that does not decide: it must be a boolean.
    pub(crate) fn resume_and_or_right(
        &self,
        alloc: Global,
        whole: SharedExpr,
        connective: Connective,
        right: Box<PartialValue>,
    ) -> Next
        ensures { ContinuesAt self.now whole (pendings.RightSide connective) (boxed_answer right) result }
    {
        match known_bool(&right) {
            Some(b) => Transition::Done(Ok(bool_at(&whole, right))),
            None => self.resume_and_or_right_no_bool(alloc, whole, connective, right),
        }
    }

    // The same after one that is no boolean.
    #[cold]
    #[inline(never)]
    fn resume_and_or_right_no_bool(
        &self,
        alloc: Global,
        whole: SharedExpr,
        connective: Connective,
        mut right: Box<PartialValue>,
    ) -> Next
        ensures { ContinuesAt self.now whole (pendings.RightSide connective) (boxed_answer right) result }
    {
        let part = taken_out(&mut right);
        answer_result_in(alloc, &whole, right, joined_right(alloc, connective, part))
    }

    // Both sides, of a residual left one and what is kept of the right, in the box of the left one.
    pub(crate) fn end_and_or(
        &self,
        alloc: Global,
        whole: SharedExpr,
        connective: Connective,
        left: BoxedResidual,
        right: Rc<Expr>,
        right_kept: Result<Expr, AllocError>,
    ) -> Next
        ensures { (x : Answer) → IsKept right_kept x right.value
            → ContinuesAt self.now whole (pendings.KeptRightSide connective left right) x result }
    {
        match right_kept {
            Ok(right) => {
                let (left, part) = left.taken_apart();
                let answer = residual_connective(alloc, connective, left, right);
                answer_result_in(alloc, &whole, part, answer)
            }
            Err(_) => Transition::Done(Err(Stopped::Memory)),
        }
    }

    // The right side beside a left side that does not decide: a boolean that is evaluated directly is the answer, in
    // the box of the left one.
    fn begin_and_or_right(
        &self,
        alloc: Global,
        whole: SharedExpr,
        connective: Connective,
        right: SharedExpr,
        left: Box<PartialValue>,
        levels: usize,
    ) -> Next
        requires { part_bool (partial_view left.value) ≡ Some (neutral connective) }
        ensures { IsRightSide self.now levels whole (pendings.RightSide connective) right result }
    {
        match bool_literal_in(&right) {
            Some(b) => Transition::Done(Ok(bool_at(&whole, set_bool_of(connective, left, b)))),
            None => self.begin_and_or_right_other(alloc, whole, connective, right, left, levels),
        }
    }

    // The same of one that is no literal.
    fn begin_and_or_right_other(
        &self,
        alloc: Global,
        whole: SharedExpr,
        connective: Connective,
        right: SharedExpr,
        left: Box<PartialValue>,
        levels: usize,
    ) -> Next
        ensures { IsRightSide self.now levels whole (pendings.RightSide connective) right result }
    {
        match self.direct_bool(alloc, &right, levels) {
            Some(b) => Transition::Done(Ok(bool_at(&whole, with_bool(left, b)))),
            None => wait_for_right(whole, Pending::RightSide(connective), right),
        }
    }
}

// The box of a left side that does not decide, with this boolean in it.
#[inline(always)]
fn set_bool_of(connective: Connective, left: Box<PartialValue>, b: bool) -> Box<PartialValue>
    requires { part_bool (partial_view left.value) ≡ Some (neutral connective) }
    ensures answer { answers (partial_view result.value) ≡ answers_bool b }
    ensures known { part_bool (partial_view result.value) ≡ Some b }
{
    if connective.is_decided_by(b) {
        with_bool(left, b)
    } else {
        left
    }
}

// The boolean that the expression is, if it is a literal that is one.
#[inline(always)]
fn bool_literal_in(e: &Expr) -> Option<bool>
    ensures { IfSome result (λ b. view e.now ≡ literal (bool_literal b)) }
{
    match e.as_literal() {
        Some(Literal::Bool(b)) => Some(*b),
        Some(Literal::Long(_)) => None,
        Some(Literal::String(_)) => None,
        Some(Literal::EntityUID(_)) => None,
        None => None,
    }
}

// The box with this boolean in it.
#[inline(always)]
#[tactic(auto, unfolding(cedar_model::specs::Outcomes::bool_of))]
fn with_bool(mut part: Box<PartialValue>, b: bool) -> Box<PartialValue>
    ensures view { partial_view result.value ≡ value (plain_represented (bool_literal b)) }
    ensures known { part_bool (partial_view result.value) ≡ Some b }
{
    drop(mem::replace(&mut *part, bool_part(b)));
    part
}

// The right side is waited for.
fn wait_for_right(whole: SharedExpr, pending: Pending, right: SharedExpr) -> Next
    ensures { IsAwaited whole pending right result }
{
    let task = Task::Other(pending);
    Transition::Wait(Frame { whole, task }, right)
}

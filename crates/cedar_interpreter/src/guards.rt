//! `if`: its guard, the branch that is taken, and both branches beside a residual guard.
ghost use Rattle.std.specs.Prelude.{◌≡◌, None, IfOk};
ghost use Rattle.cedar_model.specs.Terms.{if_then_else};
ghost use Rattle.cedar_model.specs.Failures.{Answer, answers_residual};
ghost use Rattle.cedar_expressions.specs.View.{view};
ghost use Rattle.cedar_values.specs.Residuals.{partial_view, residual_term};
ghost use Rattle.cedar_interpreter.specs.Booleans.{part_bool};
ghost use Rattle.cedar_interpreter.specs.Continuations.{StartsAt, ContinuesAt};
ghost use Rattle.cedar_interpreter.specs.Endings.{boxed_answer};
ghost use Rattle.cedar_interpreter.specs.Kept.{IsKept};
ghost use Rattle.cedar_interpreter.specs.declared.frame.Pending.TheVariants as pendings;

use crate::answers::{answer_result, known_bool, no_bool, or_out_of_memory, pair_of_copies, wait};
use crate::boxed::boxed_with;
use crate::evaluation::Evaluation;
use crate::frame::{FirstBranch, Frame, Next, Pending, SecondBranch, SharedExpr, Task};
use crate::stopped::Stopped;
use cedar_expressions::Expr;
use cedar_frames::Transition;
use cedar_operators::partial::connectives::residual_if;
use cedar_values::{PartialValue, ResidualExpr};
use std::alloc::{AllocError, Global};
use std::rc::Rc;

impl<'e, 'g, 'f> Evaluation<'e, 'g, 'f> {
    // `if` waits for its guard.
    pub(crate) fn begin_if(
        &self,
        whole: &SharedExpr,
        test_expr: &SharedExpr,
        then_expr: &SharedExpr,
        else_expr: &SharedExpr,
    ) -> Next
        ensures { StartsAt self.now whole.now
            (if_then_else (view test_expr.now.value) (view then_expr.now.value) (view else_expr.now.value)) result }
    {
        match pair_of_copies(then_expr, else_expr) {
            Ok((then_expr, else_expr)) => {
                wait(
                    whole,
                    test_expr,
                    Pending::Guard {
                        then_expr,
                        else_expr,
                    },
                )
            }
            Err(_) => Transition::Done(Err(Stopped::Memory)),
        }
    }

    // The branch that the guard takes, or beside a residual guard the first of both.
    pub(crate) fn resume_if(
        &self,
        alloc: Global,
        whole: SharedExpr,
        then_expr: Rc<Expr>,
        else_expr: Rc<Expr>,
        guard: Box<PartialValue>,
    ) -> Next
        ensures { ContinuesAt self.now whole (pendings.Guard then_expr else_expr) (boxed_answer guard) result }
    {
        match known_bool(&guard) {
            Some(true) => {
                drop((guard, else_expr));
                let task = Task::Other(Pending::Passed);
                Transition::Wait(Frame { whole, task }, then_expr)
            }
            Some(false) => {
                drop((guard, then_expr));
                let task = Task::Other(Pending::Passed);
                Transition::Wait(Frame { whole, task }, else_expr)
            }
            None => or_out_of_memory(self.resume_if_no_bool(
                alloc, whole, then_expr, else_expr, guard,
            )),
        }
    }

    // The same after one that is no boolean.
    #[cold]
    #[inline(never)]
    fn resume_if_no_bool(
        &self,
        alloc: Global,
        whole: SharedExpr,
        then_expr: Rc<Expr>,
        else_expr: Rc<Expr>,
        guard: Box<PartialValue>,
    ) -> Result<Next, AllocError>
        requires { part_bool (partial_view guard.value) ≡ None }
        ensures { IfOk result (ContinuesAt self.now whole (pendings.Guard then_expr else_expr) (boxed_answer guard)) }
    {
        match Box::into_inner(guard) {
            PartialValue::Value(value) => {
                let next = no_bool(alloc, &whole, &value);
                drop(value);
                Ok(next)
            }
            PartialValue::Residual(guard) => {
                self.begin_if_first_branch(alloc, whole, guard, then_expr, else_expr)
            }
        }
    }

    // The first branch beside a residual guard.
    #[cold]
    #[inline(never)]
    fn begin_if_first_branch(
        &self,
        alloc: Global,
        whole: SharedExpr,
        guard: ResidualExpr,
        then_expr: Rc<Expr>,
        else_expr: Rc<Expr>,
    ) -> Result<Next, AllocError>
        ensures { IfOk result (ContinuesAt self.now whole (pendings.Guard then_expr else_expr)
            (answers_residual (residual_term guard))) }
    {
        let part: Result<Rc<Expr>, AllocError> = then_expr.clone();
        let first = FirstBranch {
            guard,
            then_expr,
            else_expr,
        };
        let (first, part) = boxed_with(alloc, first, part)?;
        let task = Task::Other(Pending::Then(first));
        Ok(Transition::Wait(Frame { whole, task }, part))
    }

    // The second branch beside a residual guard, after what is kept of the first.
    pub(crate) fn begin_if_second_branch(
        &self,
        alloc: Global,
        whole: SharedExpr,
        first: Box<FirstBranch>,
        then_kept: Result<Expr, AllocError>,
    ) -> Result<Next, AllocError>
        ensures { (x : Answer) → IsKept then_kept x first.value.then_expr.value
            → IfOk result (ContinuesAt self.now whole (pendings.Then first) x) }
    {
        let then_expr = then_kept?;
        let FirstBranch {
            guard,
            then_expr: _,
            else_expr,
        } = Box::into_inner(first);
        let part: Result<Rc<Expr>, AllocError> = else_expr.clone();
        let second = SecondBranch {
            guard,
            then_expr,
            else_expr,
        };
        let (second, part) = boxed_with(alloc, second, part)?;
        let task = Task::Other(Pending::Else(second));
        Ok(Transition::Wait(Frame { whole, task }, part))
    }

    // `if` with a residual guard and what is kept of both branches.
    pub(crate) fn end_if_branches(
        &self,
        alloc: Global,
        whole: SharedExpr,
        second: Box<SecondBranch>,
        else_kept: Result<Expr, AllocError>,
    ) -> Next
        ensures { (x : Answer) → IsKept else_kept x second.value.else_expr.value
            → ContinuesAt self.now whole (pendings.Else second) x result }
    {
        match else_kept {
            Ok(else_expr) => {
                let SecondBranch {
                    guard,
                    then_expr,
                    else_expr: _,
                } = Box::into_inner(second);
                let answer = residual_if(alloc, guard, then_expr, else_expr);
                answer_result(alloc, &whole, answer)
            }
            Err(_) => Transition::Done(Err(Stopped::Memory)),
        }
    }
}

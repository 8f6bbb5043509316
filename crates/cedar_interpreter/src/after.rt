//! What comes after a part of `if`, `&&` or `||` that is kept beside a residual, and after a part that failed.
ghost use Rattle.std.specs.Prelude.{◌≡◌, IfOk};
ghost use Rattle.cedar_model.specs.Terms.{Term};
ghost use Rattle.cedar_model.specs.Failures.{answers, fails};
ghost use Rattle.cedar_model.specs.Rules.{best, kept};
ghost use Rattle.cedar_expressions.specs.View.{view};
ghost use Rattle.cedar_values.specs.Residuals.{partial_view};
ghost use Rattle.cedar_errors.specs.Failures.{failure_of};
ghost use Rattle.cedar_interpreter.specs.Continuations.{ContinuesIn, ContinuesAt};
ghost use Rattle.cedar_interpreter.specs.Endings.{boxed_answer};
ghost use Rattle.cedar_interpreter.specs.declared.frame.Pending.TheVariants as pendings;

use crate::answers::{or_out_of_memory, pass_failure_on, put_at};
use crate::boxed_residual::BoxedResidual;
use crate::evaluation::Evaluation;
use crate::failed::Failed;
use crate::frame::{FirstBranch, Next, Pending, SecondBranch, SharedExpr};
use cedar_expressions::Expr;
use cedar_operators::partial::connectives::Connective;
use cedar_values::PartialValue;
use std::alloc::{AllocError, Global};
use std::rc::Rc;

impl<'e, 'g, 'f> Evaluation<'e, 'g, 'f> {
    // What comes next of what waited, after this value or residual.
    pub(crate) fn resume_pending(
        &self,
        alloc: Global,
        whole: SharedExpr,
        pending: Pending,
        answer: Box<PartialValue>,
        levels: usize,
    ) -> Next
        ensures { ContinuesIn self.now levels whole pending (boxed_answer answer) result }
    {
        match pending {
            Pending::Passed => put_at(&whole, answer),
            Pending::Guard {
                then_expr,
                else_expr,
            } => self.resume_if(alloc, whole, then_expr, else_expr, answer),
            Pending::Then(first) => self.resume_if_then(alloc, whole, first, answer),
            Pending::Else(second) => self.resume_if_else(alloc, whole, second, answer),
            Pending::LeftSide { connective, right } => {
                self.resume_and_or_left(alloc, whole, connective, right, answer, levels)
            }
            Pending::RightSide(connective) => {
                self.resume_and_or_right(alloc, whole, connective, answer)
            }
            Pending::KeptRightSide {
                connective,
                left,
                right,
            } => self.resume_and_or_kept(alloc, whole, connective, left, right, answer),
            Pending::Unary(op) => self.resume_unary(alloc, &whole, op, answer),
            Pending::BinaryLeft { op, right } => {
                self.resume_binary_left(alloc, &whole, op, &right, answer, levels)
            },
            Pending::BinaryRight { op, left } => {
                self.resume_binary_right(alloc, &whole, op, left, answer)
            },
            Pending::GetAttr(attr) => self.resume_attribute(alloc, &whole, &attr, answer),
            Pending::HasAttr(attr) => self.resume_has(alloc, &whole, &attr, answer),
            Pending::ExtHasAttr(attrs) => self.resume_extended_has(alloc, &whole, &attrs, answer),
            Pending::Like(pattern) => self.resume_like(alloc, &whole, &pattern, answer),
            Pending::Is(entity_type) => self.resume_is(alloc, &whole, &entity_type, answer),
        }
    }

    // The second branch beside a residual guard, after the first.
    #[cold]
    #[inline(never)]
    fn resume_if_then(
        &self,
        alloc: Global,
        whole: SharedExpr,
        first: Box<FirstBranch>,
        answer: Box<PartialValue>,
    ) -> Next
        ensures { ContinuesAt self.now whole (pendings.Then first) (boxed_answer answer) result }
    {
        let kept = kept_part(alloc, answer);
        or_out_of_memory(self.begin_if_second_branch(alloc, whole, first, kept))
    }

    // `if` beside a residual guard, after both branches.
    #[cold]
    #[inline(never)]
    fn resume_if_else(
        &self,
        alloc: Global,
        whole: SharedExpr,
        second: Box<SecondBranch>,
        answer: Box<PartialValue>,
    ) -> Next
        ensures { ContinuesAt self.now whole (pendings.Else second) (boxed_answer answer) result }
    {
        let kept = kept_part(alloc, answer);
        self.end_if_branches(alloc, whole, second, kept)
    }

    // `&&` or `||` beside a residual left side, after the right.
    #[cold]
    #[inline(never)]
    fn resume_and_or_kept(
        &self,
        alloc: Global,
        whole: SharedExpr,
        connective: Connective,
        left: BoxedResidual,
        right: Rc<Expr>,
        answer: Box<PartialValue>,
    ) -> Next
        ensures { ContinuesAt self.now whole (pendings.KeptRightSide connective left right)
            (boxed_answer answer) result }
    {
        let kept = kept_part(alloc, answer);
        self.end_and_or(alloc, whole, connective, left, right, kept)
    }

    // What comes next of what waited, after this error: beside a residual the part's original is kept, elsewhere it is
    // the answer.
    #[cold]
    #[inline(never)]
    pub(crate) fn resume_failed(
        &self,
        alloc: Global,
        whole: SharedExpr,
        pending: Pending,
        failed: Box<Failed>,
    ) -> Next
        ensures { ContinuesAt self.now whole pending (fails (failure_of failed.value.error)) result }
    {
        match pending {
            Pending::Then(first) => self.resume_if_failed_then(alloc, whole, first, failed),
            Pending::Else(second) => self.resume_if_failed_else(alloc, whole, second, failed),
            Pending::KeptRightSide {
                connective,
                left,
                right,
            } => {
                let kept = original_of(failed, &right);
                self.end_and_or(alloc, whole, connective, left, right, kept)
            }
            other => pass_failure_on(alloc, &whole, other, failed),
        }
    }

    // The second branch beside a residual guard, after an error in the first.
    fn resume_if_failed_then(
        &self,
        alloc: Global,
        whole: SharedExpr,
        first: Box<FirstBranch>,
        failed: Box<Failed>,
    ) -> Next
        ensures { ContinuesAt self.now whole (pendings.Then first) (fails (failure_of failed.value.error)) result }
    {
        let kept = original_of(failed, &first.then_expr);
        or_out_of_memory(self.begin_if_second_branch(alloc, whole, first, kept))
    }

    // `if` beside a residual guard, after an error in the second branch.
    fn resume_if_failed_else(
        &self,
        alloc: Global,
        whole: SharedExpr,
        second: Box<SecondBranch>,
        failed: Box<Failed>,
    ) -> Next
        ensures { ContinuesAt self.now whole (pendings.Else second) (fails (failure_of failed.value.error)) result }
    {
        let kept = original_of(failed, &second.else_expr);
        self.end_if_branches(alloc, whole, second, kept)
    }
}

// What is kept of a part that answered.
#[tactic(auto, unfolding(cedar_model::specs::Rules::best, cedar_model::specs::Failures::part_expression))]
fn kept_part(alloc: Global, answer: Box<PartialValue>) -> Result<Expr, AllocError>
    ensures { (t : Term) → IfOk result (λ e. best (answers (partial_view answer.value)) t ≡ kept (view e)) }
{
    match Box::into_inner(answer) {
        PartialValue::Value(value) => Ok(value.to_expr(alloc)?),
        PartialValue::Residual(residual) => Ok(residual.into_expr()),
    }
}

// What is kept of a part that failed: its original.
fn original_of(failed: Box<Failed>, part: &SharedExpr) -> Result<Expr, AllocError>
    ensures { IfOk result (λ e. best (fails (failure_of failed.value.error)) (view part.now.value) ≡ kept (view e)) }
{
    Failed::original(failed, part)
}

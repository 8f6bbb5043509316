//! The evaluation of restricted expressions, for the loop over frames.
ghost use Rattle.std.specs.Prelude.{◌≡◌, ℕ, ◌+◌, ◌^◌, Err};
ghost use Rattle.cedar_expressions.specs.declared.expr.Expr.{Expr};
ghost use Rattle.cedar_errors.specs.declared.evaluator.err.EvaluationError.TheVariants as errors;
ghost use Rattle.cedar_extensions.specs.Extensions.{extensions_view, calls_of};
ghost use Rattle.cedar_frames.specs.Frames.{Resumes, Fewer, Below};
ghost use Rattle.cedar_restricted.specs.Evaluations.{ends_all, limit_error, out_of_memory_error};
ghost use Rattle.cedar_restricted.specs.Frames.{WaitsForParts, IsRight, left_of};
ghost use Rattle.cedar_restricted.specs.Elements.{AnswerStands, FrameStands, ended_stands};
ghost use Rattle.cedar_restricted.specs.Laws.{right_limit, right_out_of_memory, right_upward, limit_ends, some_left, some_most};

use crate::parts::{NextPart, PartsFrame};
use cedar_errors::evaluator::err::{EvaluationError, evaluation_errors};
use cedar_expressions::{Expr, ExprKind};
use cedar_extensions::Extensions;
use cedar_frames::{Machine, Stack, Transition, interpret_on};
use cedar_names::{Literal, Loc};
use cedar_values::{PartialValue, ResidualExpr, Value, ValueKind};
use evaluation_errors::RecursionLimitError;
use std::alloc::{AllocError, Global};

/// The evaluation of restricted expressions, with these extensions.
#[derive(Drop)]
pub(crate) struct Restricted<'x, 'f> {
    pub(crate) extensions: &'x Extensions<'f>,
}

impl<'x, 'f> Machine for Restricted<'x, 'f> {
    type Frame = PartsFrame;

    type Part = Expr;

    type Answer = Result<PartialValue, EvaluationError>;

    ghost right = { λ s k t a.
        IsRight (extensions_view s.extensions.now) (calls_of s.extensions.now) k t a × AnswerStands t a };

    ghost waits = { λ s k f t c.
        WaitsForParts (extensions_view s.extensions.now) (calls_of s.extensions.now) k f t c × FrameStands f t c };

    ghost left_of = { left_of };

    ghost most = { 2 ^ 64 + 1 };

    ghost ends_all = { ends_all };

    ghost at_limit = { Err limit_error };

    ghost at_out_of_memory = { Err out_of_memory_error };

    fn start(&self, alloc: Global, part: Expr, _levels: usize) -> NextPart {
        let step = self.first(alloc, &part);
        drop(part);
        step
    }

    fn resume(
        &self,
        alloc: Global,
        frame: PartsFrame,
        answer: Result<PartialValue, EvaluationError>,
        _levels: usize,
    ) -> NextPart {
        frame.resume_parts(alloc, self.extensions, answer)
    }

    fn ends(&self, answer: &Result<PartialValue, EvaluationError>) -> bool {
        match answer {
            Ok(_) => false,
            Err(error) => error.is_final(),
        }
    }

    fn limit(&self) -> Result<PartialValue, EvaluationError> {
        Err(EvaluationError::RecursionLimit(RecursionLimitError { source_loc: None }))
    }

    fn want(&self) -> Result<PartialValue, EvaluationError> {
        Err(EvaluationError::Memory(AllocError))
    }

    ghost right_limit = { λ s t.
        (right_limit (extensions_view s.extensions.now) (calls_of s.extensions.now) t, λ n. tt) };

    ghost right_out_of_memory = { λ s k t.
        (right_out_of_memory (extensions_view s.extensions.now) (calls_of s.extensions.now) k t, λ n. tt) };

    ghost limit_ends = { limit_ends };

    ghost right_upward = { λ s k f t c a ends waits right. (
      right_upward (extensions_view s.extensions.now) (calls_of s.extensions.now) k f t c a ends waits.0 right.0,
      ended_stands t a ends,
    ) };

    ghost some_left = { some_left };

    ghost some_most = { some_most };
}

impl<'x, 'f> Restricted<'x, 'f> {
    // What the expression is answered within so many levels. An error that came up in an expression that was not looked
    // at stands at the nearest one around it that has a location.
    pub(crate) fn evaluate_within(
        &self,
        alloc: Global,
        expr: Expr,
        limit: usize,
    ) -> Result<PartialValue, EvaluationError>
        ensures right { IsRight (extensions_view self.now.extensions.now) (calls_of self.now.extensions.now) limit expr
            result }
        ensures elements { AnswerStands expr result }
    {
        let mut stack = Stack::new(alloc, limit);
        match interpret_on(self, alloc, &mut stack, expr) {
            Ok(answer) => Ok(answer),
            Err(error) => Err(error.with_enclosing_loc(last_loc(stack.frames()))),
        }
    }
}

// The location of the last frame that has one.
fn last_loc(frames: &[PartsFrame]) -> Option<Loc> {
    frames.iter().rev().find_map(PartsFrame::loc)
}

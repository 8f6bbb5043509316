//! The evaluation as the loop over frames runs it: how an expression starts, and how a frame resumes with an answer.
ghost use Rattle.std.specs.Prelude.{ℕ, ◌+◌, ◌^◌, Ok, Err};
ghost use Rattle.cedar_model.specs.Failures.{fails};
ghost use Rattle.cedar_errors.specs.Failures.{failure_of};
ghost use Rattle.cedar_interpreter.specs.declared.frame.Task.TheVariants as tasks;
ghost use Rattle.cedar_interpreter.specs.declared.stopped.Stopped.TheVariants as stops;
ghost use Rattle.cedar_interpreter.specs.Endings.{ending_answer, stopped_failure, boxed_answer};
ghost use Rattle.cedar_interpreter.specs.Settings.{Speaks, evaluation_setting, calls_in};
ghost use Rattle.cedar_interpreter.specs.Continuations.{LeadsIn};
ghost use Rattle.cedar_interpreter.specs.Frames.{IsRight, FrameWaits, left_of, ends_all};
ghost use Rattle.cedar_interpreter.specs.Elements.{EndingStands, FrameStands, TaskContinues, ended_stands};
ghost use Rattle.cedar_interpreter.specs.Laws.{right_limit, right_out_of_memory, right_upward, limit_ends, some_left, some_most};

use crate::answers::pass_failure_on;
use crate::evaluation::Evaluation;
use crate::failed::Failed;
use crate::frame::{Ending, Frame, Next, SharedExpr, Task};
use crate::start::next_of_parts;
use crate::stopped::Stopped;
use cedar_frames::{Machine, Transition};
use cedar_restricted::PartsFrame;
use cedar_values::PartialValue;
use std::alloc::Global;

impl<'e, 'g, 'f> Machine for Evaluation<'e, 'g, 'f> {
    type Frame = Frame;

    type Part = SharedExpr;

    type Answer = Ending;

    ghost right = { λ s k t a.
        IsRight (λ r. Speaks r s) (λ r. evaluation_setting r s) (calls_in s) k t a × EndingStands t a };

    ghost waits = { λ s k f t c.
        FrameWaits (λ r. Speaks r s) (λ r. evaluation_setting r s) (calls_in s) k f t c × FrameStands f t c };

    ghost left_of = { left_of };

    ghost most = { 2 ^ 64 + 1 };

    ghost ends_all = { ends_all };

    ghost at_limit = { Err stops.Limit };

    ghost at_out_of_memory = { Err stops.Memory };

    #[inline(always)]
    fn start(&self, alloc: Global, part: SharedExpr, levels: usize) -> Next {
        self.begin(alloc, &part, &part, levels)
    }

    #[inline(always)]
    fn resume(&self, alloc: Global, frame: Frame, answer: Ending, levels: usize) -> Next {
        let Frame { whole, task } = frame;
        self.resume_task(alloc, whole, task, answer, levels)
    }

    #[inline(always)]
    fn ends(&self, answer: &Ending) -> bool {
        match answer {
            Ok(_) => false,
            Err(Stopped::Memory) => true,
            Err(Stopped::Limit) => true,
            Err(Stopped::Failed(_)) => false,
        }
    }

    fn limit(&self) -> Ending {
        Err(Stopped::Limit)
    }

    fn want(&self) -> Ending {
        Err(Stopped::Memory)
    }

    ghost right_limit = { λ s t. (
      right_limit (λ r. Speaks r s) (λ r. evaluation_setting r s) (calls_in s) t,
      λ n. tt,
    ) };

    ghost right_out_of_memory = { λ s k t. (
      right_out_of_memory (λ r. Speaks r s) (λ r. evaluation_setting r s) (calls_in s) k t,
      λ n. tt,
    ) };

    ghost limit_ends = { limit_ends };

    ghost right_upward = { λ s k f t c a ends waits right. (
      right_upward (λ r. Speaks r s) (λ r. evaluation_setting r s) (calls_in s) k f t c a ends waits.0 right.0,
      ended_stands t a ends,
    ) };

    ghost some_left = { some_left };

    ghost some_most = { some_most };
}

impl<'e, 'g, 'f> Evaluation<'e, 'g, 'f> {
    // What comes next of what waited, after this answer.
    #[inline(always)]
    fn resume_task(
        &self,
        alloc: Global,
        whole: SharedExpr,
        task: Task,
        answer: Ending,
        levels: usize,
    ) -> Next
        ensures leads { LeadsIn self.now levels whole task (ending_answer answer) result }
        ensures elements { TaskContinues task answer result }
    {
        match answer {
            Ok(value) => self.resume_valued(alloc, whole, task, value, levels),
            Err(stopped) => self.resume_stopped(alloc, whole, task, stopped),
        }
    }

    // The same after what stopped the part.
    #[cold]
    #[inline(never)]
    fn resume_stopped(&self, alloc: Global, whole: SharedExpr, task: Task, stopped: Stopped) -> Next
        ensures leads { (levels : ℕ) → LeadsIn self.now levels whole task (fails (stopped_failure stopped)) result }
        ensures elements { TaskContinues task (Err stopped) result }
    {
        match stopped {
            Stopped::Memory => Transition::Done(Err(Stopped::Memory)),
            Stopped::Limit => Transition::Done(Err(Stopped::Limit)),
            Stopped::Failed(failed) => self.kept_or_failed(alloc, whole, task, failed),
        }
    }

    // The same after a value or a residual.
    #[inline(always)]
    fn resume_valued(
        &self,
        alloc: Global,
        whole: SharedExpr,
        task: Task,
        value: Box<PartialValue>,
        levels: usize,
    ) -> Next
        ensures leads { LeadsIn self.now levels whole task (boxed_answer value) result }
        ensures elements { TaskContinues task (Ok value) result }
    {
        match task {
            Task::Parts(frame) => self.after_part(alloc, whole, frame, value),
            Task::Other(pending) => self.resume_pending(alloc, whole, pending, value, levels),
        }
    }

    // The same in a set, a record or a call.
    fn after_part(
        &self,
        alloc: Global,
        whole: SharedExpr,
        frame: Box<PartsFrame>,
        value: Box<PartialValue>,
    ) -> Next
        ensures leads { (levels : ℕ) → LeadsIn self.now levels whole (tasks.Parts frame) (boxed_answer value) result }
        ensures elements { TaskContinues (tasks.Parts frame) (Ok value) result }
    {
        let parts = Box::into_inner(frame);
        let part = Box::into_inner(value);
        next_of_parts(
            alloc,
            whole,
            parts.resume_parts(alloc, self.given.extensions, Ok(part)),
        )
    }

    // The same after an error.
    fn kept_or_failed(
        &self,
        alloc: Global,
        whole: SharedExpr,
        task: Task,
        failed: Box<Failed>,
    ) -> Next
        ensures leads { (levels : ℕ) →
            LeadsIn self.now levels whole task (fails (failure_of failed.value.error)) result }
        ensures elements { TaskContinues task (Err (stops.Failed failed)) result }
    {
        match task {
            Task::Parts(frame) => pass_failure_on(alloc, &whole, frame, failed),
            Task::Other(pending) => self.resume_failed(alloc, whole, pending, failed),
        }
    }
}

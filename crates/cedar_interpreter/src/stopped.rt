//! Why an evaluation stopped, small enough to be handed on from frame to frame.
use crate::boxed::put_in_box;
use crate::failed::Failed;
use cedar_errors::evaluator::err::{EvaluationError, evaluation_errors};
use cedar_names::Loc;
use evaluation_errors::RecursionLimitError;
use std::alloc::{AllocError, Global};

/// Why an evaluation stopped.
#[derive(Drop)]
pub enum Stopped {
    /// Out of memory. It ends the whole evaluation.
    Memory,
    /// No level was left. It ends the whole evaluation.
    Limit,
    /// An error of the language, or one that a stored function answered.
    Failed(Box<Failed>),
}

impl Stopped {
    ghost use Rattle.std.specs.Prelude.{◌≡◌, ◌≢◌};
    ghost use Rattle.cedar_model.specs.Failures.{out_of_memory};
    ghost use Rattle.cedar_errors.specs.Failures.{failure_of};
    ghost use Rattle.cedar_interpreter.specs.Endings.{stopped_failure};

    /// The reason that is this error, at this location if it has none. Memory may run out to keep it.
    #[cold]
    #[inline(never)]
    pub fn of(alloc: Global, error: EvaluationError, loc: Option<Loc>) -> Stopped
        ensures { stopped_failure result ≢ out_of_memory → stopped_failure result ≡ failure_of error }
    {
        if error.is_recursion_limit() {
            drop(error);
            Stopped::Limit
        } else if error.is_out_of_memory() {
            drop(error);
            Stopped::Memory
        } else {
            Stopped::boxed_within(alloc, Failed::new(error), loc)
        }
    }

    // The same reason, at this location if it has none.
    #[inline(always)]
    pub fn within(self, alloc: Global, loc: Option<Loc>) -> Stopped
        ensures { stopped_failure result ≢ out_of_memory → stopped_failure result ≡ stopped_failure self }
    {
        match self {
            Stopped::Memory => Stopped::Memory,
            Stopped::Limit => Stopped::Limit,
            Stopped::Failed(failed) => {
                if failed.has_no_loc() && loc.is_some() {
                    Stopped::boxed_within(alloc, Box::into_inner(failed), loc)
                } else {
                    Stopped::Failed(failed)
                }
            }
        }
    }

    // The error, at this location if it has none.
    #[cold]
    #[inline(never)]
    fn boxed_within(alloc: Global, failed: Failed, loc: Option<Loc>) -> Stopped
        ensures { stopped_failure result ≢ out_of_memory → stopped_failure result ≡ failure_of failed.error }
    {
        match put_in_box(alloc, failed.within(loc)) {
            Ok(failed) => Stopped::Failed(failed),
            Err(_) => Stopped::Memory,
        }
    }

    /// The error.
    pub fn into_error(self) -> EvaluationError
        ensures { failure_of result ≡ stopped_failure self }
    {
        match self {
            Stopped::Memory => EvaluationError::Memory(AllocError),
            Stopped::Limit => EvaluationError::RecursionLimit(RecursionLimitError {
                source_loc: None,
            }),
            Stopped::Failed(failed) => Box::into_inner(failed).into_error(),
        }
    }
}

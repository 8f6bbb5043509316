//! Why an evaluation failed.
use crate::extensions::ExtensionFunctionLookupError;
use cedar_names::Loc;
use evaluation_errors::{
    EntityAttrDoesNotExistError, EntityDoesNotExistError, ExtensionFunctionExecutionError,
    IntegerOverflowError, NonValueError, RecordAttrDoesNotExistError, RecursionLimitError,
    TypeError, UnlinkedSlotError, WrongNumArgumentsError,
};
use std::alloc::{AllocError, AllocFailed};
use thiserror::Error;

pub mod evaluation_errors;

/// Why an evaluation failed. Nine of the kinds are errors of the language; `NonValue`, `RecursionLimit` and `Memory`
/// say that the evaluation did not come to an end.
#[derive(Debug, Clone, PartialEq, Eq, Drop, Error)]
pub enum EvaluationError {
    /// An entity was read that the store does not have.
    #[error(transparent)]
    EntityDoesNotExist(EntityDoesNotExistError),
    /// An attribute or a tag was read that the entity does not have.
    #[error(transparent)]
    EntityAttrDoesNotExist(EntityAttrDoesNotExistError),
    /// An attribute was read that the record does not have.
    #[error(transparent)]
    RecordAttrDoesNotExist(RecordAttrDoesNotExistError),
    /// A function was called that no extension has.
    #[error(transparent)]
    FailedExtensionFunctionLookup(ExtensionFunctionLookupError),
    /// A value was of another type than its place takes.
    #[error(transparent)]
    TypeError(TypeError),
    /// An extension function was called with more or fewer arguments than it takes.
    #[error(transparent)]
    WrongNumArguments(WrongNumArgumentsError),
    /// A number needs more than 64 bits.
    #[error(transparent)]
    IntegerOverflow(IntegerOverflowError),
    /// A slot of a template was read that is not linked to an entity.
    #[error(transparent)]
    UnlinkedSlot(UnlinkedSlotError),
    /// An extension function answered an error of its own.
    #[error(transparent)]
    FailedExtensionFunctionExecution(ExtensionFunctionExecutionError),
    /// The expression holds an unknown, where a value was asked for.
    #[error(transparent)]
    NonValue(NonValueError),
    /// The depth of evaluation passed the limit.
    #[error(transparent)]
    RecursionLimit(RecursionLimitError),
    /// Out of memory.
    #[error("out of memory")]
    Memory(AllocError),
}

impl EvaluationError {
    ghost use Rattle.std.specs.Prelude.{◌≡◌, option_copied};
    ghost use Rattle.cedar_model.specs.Chains as chains;
    ghost use Rattle.cedar_model.specs.Failures.{failure_kind};
    ghost use Rattle.cedar_errors.specs.Errors.{error_loc, error_at, error_within};
    ghost use Rattle.cedar_errors.specs.Failures.{failure_of};
    ghost use Rattle.cedar_errors.specs.Finals.{is_limit, is_memory_variant, is_of_memory, is_final, is_final_kind};

    /// Where the error arose, if that is known. Running out of memory has no location.
    pub fn source_loc(&self) -> Option<&Loc>
        ensures { option_copied result ≡ error_loc self.now }
    {
        match self {
            EvaluationError::EntityDoesNotExist(e) => e.source_loc.as_ref(),
            EvaluationError::EntityAttrDoesNotExist(e) => e.source_loc.as_ref(),
            EvaluationError::RecordAttrDoesNotExist(e) => e.source_loc.as_ref(),
            EvaluationError::FailedExtensionFunctionLookup(e) => e.source_loc(),
            EvaluationError::TypeError(e) => e.source_loc.as_ref(),
            EvaluationError::WrongNumArguments(e) => e.source_loc.as_ref(),
            EvaluationError::IntegerOverflow(e) => e.source_loc(),
            EvaluationError::UnlinkedSlot(e) => e.source_loc.as_ref(),
            EvaluationError::FailedExtensionFunctionExecution(e) => e.source_loc.as_ref(),
            EvaluationError::NonValue(e) => e.source_loc.as_ref(),
            EvaluationError::RecursionLimit(e) => e.source_loc.as_ref(),
            EvaluationError::Memory(_) => None,
        }
    }

    /// Whether the recursion limit was met.
    #[tactic(auto, unfolding(cedar_model::specs::Chains::is_limit, cedar_model::specs::Failures::failure_kind))]
    pub fn is_recursion_limit(&self) -> bool
        ensures variant { result ≡ is_limit self.now }
        ensures kind { result ≡ chains.is_limit (failure_kind (failure_of self.now)) }
    {
        match self {
            EvaluationError::EntityDoesNotExist(_) => false,
            EvaluationError::EntityAttrDoesNotExist(_) => false,
            EvaluationError::RecordAttrDoesNotExist(_) => false,
            EvaluationError::FailedExtensionFunctionLookup(_) => false,
            EvaluationError::TypeError(_) => false,
            EvaluationError::WrongNumArguments(_) => false,
            EvaluationError::IntegerOverflow(_) => false,
            EvaluationError::UnlinkedSlot(_) => false,
            EvaluationError::FailedExtensionFunctionExecution(_) => false,
            EvaluationError::NonValue(_) => false,
            EvaluationError::RecursionLimit(_) => true,
            EvaluationError::Memory(_) => false,
        }
    }

    /// Whether the error ends an evaluation at once: the recursion limit, or out of memory. Best effort keeps no
    /// operand that fails so.
    pub fn is_final(&self) -> bool
        ensures variant { result ≡ is_final self.now }
        ensures kind { result ≡ is_final_kind (failure_kind (failure_of self.now)) }
    {
        self.is_recursion_limit() || self.is_out_of_memory()
    }

    /// Whether memory ran out: not where a look-up of a function found none, which holds that as an error of its
    /// own.
    #[tactic(auto, unfolding(crate::specs::Finals::is_of_memory, cedar_model::specs::Failures::failure_kind))]
    pub fn is_out_of_memory(&self) -> bool
        ensures variant { result ≡ is_memory_variant self.now }
        ensures kind { result ≡ is_of_memory (failure_kind (failure_of self.now)) }
    {
        match self {
            EvaluationError::EntityDoesNotExist(_) => false,
            EvaluationError::EntityAttrDoesNotExist(_) => false,
            EvaluationError::RecordAttrDoesNotExist(_) => false,
            EvaluationError::FailedExtensionFunctionLookup(_) => false,
            EvaluationError::TypeError(_) => false,
            EvaluationError::WrongNumArguments(_) => false,
            EvaluationError::IntegerOverflow(_) => false,
            EvaluationError::UnlinkedSlot(_) => false,
            EvaluationError::FailedExtensionFunctionExecution(_) => false,
            EvaluationError::NonValue(_) => false,
            EvaluationError::RecursionLimit(_) => false,
            EvaluationError::Memory(_) => true,
        }
    }

    /// The same error, at this location if it has none.
    #[inline(always)]
    pub fn with_enclosing_loc(self, loc: Option<Loc>) -> EvaluationError
        ensures whole { result ≡ error_within (error_loc self) self loc }
        ensures failure { failure_of result ≡ failure_of self }
    {
        match self.source_loc() {
            Some(_) => self,
            None => self.with_maybe_source_loc(loc),
        }
    }

    /// The same error at this location, or at no known location.
    pub fn with_maybe_source_loc(self, source_loc: Option<Loc>) -> EvaluationError
        ensures { result ≡ error_at self source_loc }
    {
        let mut error = self;
        error.set_source_loc(source_loc);
        error
    }

    // Puts it at this location, or at no known location.
    fn set_source_loc(&mut self, source_loc: Option<Loc>)
        ensures { self.new ≡ error_at self.old source_loc }
    {
        match self {
            EvaluationError::EntityDoesNotExist(e) => e.source_loc = source_loc,
            EvaluationError::EntityAttrDoesNotExist(e) => e.source_loc = source_loc,
            EvaluationError::RecordAttrDoesNotExist(e) => e.source_loc = source_loc,
            EvaluationError::FailedExtensionFunctionLookup(e) => e.set_source_loc(source_loc),
            EvaluationError::TypeError(e) => e.source_loc = source_loc,
            EvaluationError::WrongNumArguments(e) => e.source_loc = source_loc,
            EvaluationError::IntegerOverflow(e) => e.set_source_loc(source_loc),
            EvaluationError::UnlinkedSlot(e) => e.source_loc = source_loc,
            EvaluationError::FailedExtensionFunctionExecution(e) => e.source_loc = source_loc,
            EvaluationError::NonValue(e) => e.source_loc = source_loc,
            EvaluationError::RecursionLimit(e) => e.source_loc = source_loc,
            EvaluationError::Memory(_) => {}
        }
    }
}

impl From<EntityDoesNotExistError> for EvaluationError {
    ghost use Rattle.std.specs.Prelude.{◌≡◌};
    ghost use Rattle.cedar_errors.specs.declared.evaluator.err.EvaluationError.TheVariants.{EntityDoesNotExist};

    ghost from_gives = { λ e r. r ≡ EntityDoesNotExist e };

    fn from(e: EntityDoesNotExistError) -> EvaluationError {
        EvaluationError::EntityDoesNotExist(e)
    }
}

impl From<EntityAttrDoesNotExistError> for EvaluationError {
    ghost use Rattle.std.specs.Prelude.{◌≡◌};
    ghost use Rattle.cedar_errors.specs.declared.evaluator.err.EvaluationError.TheVariants.{EntityAttrDoesNotExist};

    ghost from_gives = { λ e r. r ≡ EntityAttrDoesNotExist e };

    fn from(e: EntityAttrDoesNotExistError) -> EvaluationError {
        EvaluationError::EntityAttrDoesNotExist(e)
    }
}

impl From<RecordAttrDoesNotExistError> for EvaluationError {
    ghost use Rattle.std.specs.Prelude.{◌≡◌};
    ghost use Rattle.cedar_errors.specs.declared.evaluator.err.EvaluationError.TheVariants.{RecordAttrDoesNotExist};

    ghost from_gives = { λ e r. r ≡ RecordAttrDoesNotExist e };

    fn from(e: RecordAttrDoesNotExistError) -> EvaluationError {
        EvaluationError::RecordAttrDoesNotExist(e)
    }
}

impl From<TypeError> for EvaluationError {
    ghost use Rattle.std.specs.Prelude.{◌≡◌};
    ghost use Rattle.cedar_errors.specs.declared.evaluator.err.EvaluationError.TheVariants.{TypeError};

    ghost from_gives = { λ e r. r ≡ TypeError e };

    fn from(e: TypeError) -> EvaluationError {
        EvaluationError::TypeError(e)
    }
}

impl From<WrongNumArgumentsError> for EvaluationError {
    ghost use Rattle.std.specs.Prelude.{◌≡◌};
    ghost use Rattle.cedar_errors.specs.declared.evaluator.err.EvaluationError.TheVariants.{WrongNumArguments};

    ghost from_gives = { λ e r. r ≡ WrongNumArguments e };

    fn from(e: WrongNumArgumentsError) -> EvaluationError {
        EvaluationError::WrongNumArguments(e)
    }
}

impl From<IntegerOverflowError> for EvaluationError {
    ghost use Rattle.std.specs.Prelude.{◌≡◌};
    ghost use Rattle.cedar_errors.specs.declared.evaluator.err.EvaluationError.TheVariants.{IntegerOverflow};

    ghost from_gives = { λ e r. r ≡ IntegerOverflow e };

    fn from(e: IntegerOverflowError) -> EvaluationError {
        EvaluationError::IntegerOverflow(e)
    }
}

impl From<UnlinkedSlotError> for EvaluationError {
    ghost use Rattle.std.specs.Prelude.{◌≡◌};
    ghost use Rattle.cedar_errors.specs.declared.evaluator.err.EvaluationError.TheVariants.{UnlinkedSlot};

    ghost from_gives = { λ e r. r ≡ UnlinkedSlot e };

    fn from(e: UnlinkedSlotError) -> EvaluationError {
        EvaluationError::UnlinkedSlot(e)
    }
}

impl From<ExtensionFunctionExecutionError> for EvaluationError {
    ghost use Rattle.std.specs.Prelude.{◌≡◌};
    ghost use Rattle.cedar_errors.specs.declared.evaluator.err.EvaluationError.TheVariants as errors;

    ghost from_gives = { λ e r. r ≡ errors.FailedExtensionFunctionExecution e };

    fn from(e: ExtensionFunctionExecutionError) -> EvaluationError {
        EvaluationError::FailedExtensionFunctionExecution(e)
    }
}

impl From<NonValueError> for EvaluationError {
    ghost use Rattle.std.specs.Prelude.{◌≡◌};
    ghost use Rattle.cedar_errors.specs.declared.evaluator.err.EvaluationError.TheVariants.{NonValue};

    ghost from_gives = { λ e r. r ≡ NonValue e };

    fn from(e: NonValueError) -> EvaluationError {
        EvaluationError::NonValue(e)
    }
}

impl From<RecursionLimitError> for EvaluationError {
    ghost use Rattle.std.specs.Prelude.{◌≡◌};
    ghost use Rattle.cedar_errors.specs.declared.evaluator.err.EvaluationError.TheVariants.{RecursionLimit};

    ghost from_gives = { λ e r. r ≡ RecursionLimit e };

    fn from(e: RecursionLimitError) -> EvaluationError {
        EvaluationError::RecursionLimit(e)
    }
}

/// Of a look-up that found no function `FailedExtensionFunctionLookup`, and of one that found no memory `Memory`
/// itself: running out of memory is never inside the error of a look-up.
impl From<ExtensionFunctionLookupError> for EvaluationError {
    ghost use Rattle.std.specs.Prelude.{◌≡◌};
    ghost use Rattle.cedar_errors.specs.Errors.{error_of_lookup};

    ghost from_gives = { λ e r. r ≡ error_of_lookup e };

    fn from(e: ExtensionFunctionLookupError) -> EvaluationError {
        match e {
            ExtensionFunctionLookupError::FuncDoesNotExist(e) => {
                EvaluationError::FailedExtensionFunctionLookup(
                    ExtensionFunctionLookupError::FuncDoesNotExist(e),
                )
            }
            ExtensionFunctionLookupError::Memory(e) => EvaluationError::Memory(e),
        }
    }
}

/// Running out of memory is `Memory` itself, never inside the error of a look-up.
impl From<AllocError> for EvaluationError {
    ghost use Rattle.std.specs.Prelude.{◌≡◌};
    ghost use Rattle.cedar_errors.specs.declared.evaluator.err.EvaluationError.TheVariants.{Memory};

    ghost from_gives = { λ e r. r ≡ Memory e };

    fn from(e: AllocError) -> EvaluationError {
        EvaluationError::Memory(e)
    }
}

/// Running out of memory is `Memory` itself, and what found no room is dropped.
impl<T: Drop> From<AllocFailed<T>> for EvaluationError {
    ghost use Rattle.std.specs.Prelude.{◌≡◌, alloc_error};
    ghost use Rattle.cedar_errors.specs.declared.evaluator.err.EvaluationError.TheVariants.{Memory};

    ghost from_gives = { λ _ r. r ≡ Memory alloc_error };

    fn from(_e: AllocFailed<T>) -> EvaluationError {
        EvaluationError::Memory(AllocError)
    }
}

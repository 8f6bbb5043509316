//! What a part of a condition comes to, what a policy does, and the kinds of errors.
ghost use Rattle.std.specs.Prelude.{◌≡◌};
ghost use Rattle.cedar_model.specs.Failures.{failure_kind};
ghost use Rattle.cedar_errors.specs.Failures.{failure_of};
ghost use Rattle.cedar_explain.specs.Outcomes.{came_bool, as_side, negated};
ghost use Rattle.cedar_explain.specs.Views.{kind_view, part_came, policy_came};

use cedar_errors::evaluator::err::EvaluationError;

/// The kind of an error of evaluation: nine of the language, and three that say that an evaluation did not come to an
/// end, of which an explanation never has `Memory`.
#[derive(Clone, Copy, Debug, PartialEq, Eq)]
pub enum ErrorKind {
    /// An entity was read that the store does not have.
    EntityDoesNotExist,
    /// An attribute or a tag was read that the entity does not have.
    EntityAttrDoesNotExist,
    /// An attribute was read that the record does not have.
    RecordAttrDoesNotExist,
    /// A function was called that no extension has.
    FailedExtensionFunctionLookup,
    /// A value was of another type than its place takes.
    TypeError,
    /// An extension function was called with more or fewer arguments than it takes.
    WrongNumArguments,
    /// A number needs more than 64 bits.
    IntegerOverflow,
    /// A slot of a template was read that is not linked to an entity.
    UnlinkedSlot,
    /// An extension function answered an error of its own.
    FailedExtensionFunctionExecution,
    /// The part holds an unknown: its value is not known.
    NonValue,
    /// The depth of evaluation passed the limit.
    RecursionLimit,
    /// Out of memory.
    Memory,
}

/// What a part of a condition comes to, as `&&`, `||`, `!` and `if` see it.
#[derive(Clone, Copy, Debug, PartialEq, Eq)]
pub enum PartOutcome {
    /// `true`.
    True,
    /// `false`.
    False,
    /// A value that is no boolean.
    OtherValue,
    /// An error of this kind.
    Error(ErrorKind),
}

/// What a policy comes to.
#[derive(Clone, Copy, Debug, PartialEq, Eq)]
pub enum PolicyOutcome {
    /// Its condition is true.
    Satisfied,
    /// Its condition is false.
    Unsatisfied,
    /// Its condition errs so: an error of the language, or that a part is unknown or too deep for the limit.
    Error(ErrorKind),
}

// The kind of the error.
#[tactic(auto, unfolding(cedar_model::specs::Failures::failure_kind))]
pub(crate) fn kind_of(error: &EvaluationError) -> ErrorKind
    ensures { kind_view result ≡ failure_kind (failure_of error.now) }
{
    match error {
        EvaluationError::EntityDoesNotExist(_) => ErrorKind::EntityDoesNotExist,
        EvaluationError::EntityAttrDoesNotExist(_) => ErrorKind::EntityAttrDoesNotExist,
        EvaluationError::RecordAttrDoesNotExist(_) => ErrorKind::RecordAttrDoesNotExist,
        EvaluationError::FailedExtensionFunctionLookup(_) =>
            ErrorKind::FailedExtensionFunctionLookup,
        EvaluationError::TypeError(_) => ErrorKind::TypeError,
        EvaluationError::WrongNumArguments(_) => ErrorKind::WrongNumArguments,
        EvaluationError::IntegerOverflow(_) => ErrorKind::IntegerOverflow,
        EvaluationError::UnlinkedSlot(_) => ErrorKind::UnlinkedSlot,
        EvaluationError::FailedExtensionFunctionExecution(_) => {
            ErrorKind::FailedExtensionFunctionExecution
        }
        EvaluationError::NonValue(_) => ErrorKind::NonValue,
        EvaluationError::RecursionLimit(_) => ErrorKind::RecursionLimit,
        EvaluationError::Memory(_) => ErrorKind::Memory,
    }
}

// What a value comes to that is this boolean, or none.
pub(crate) fn of_truth(truth: Option<bool>) -> PartOutcome
    ensures { part_came result ≡ came_bool truth }
{
    match truth {
        Some(true) => PartOutcome::True,
        Some(false) => PartOutcome::False,
        None => PartOutcome::OtherValue,
    }
}

// What a side of `&&` or `||` comes to.
pub(crate) fn as_side(outcome: PartOutcome) -> PartOutcome
    ensures { part_came result ≡ as_side (part_came outcome) }
{
    match outcome {
        PartOutcome::True => PartOutcome::True,
        PartOutcome::False => PartOutcome::False,
        PartOutcome::OtherValue => PartOutcome::Error(ErrorKind::TypeError),
        PartOutcome::Error(kind) => PartOutcome::Error(kind),
    }
}

// What `!` of it comes to.
pub(crate) fn negated(outcome: PartOutcome) -> PartOutcome
    ensures { part_came result ≡ negated (part_came outcome) }
{
    match outcome {
        PartOutcome::True => PartOutcome::False,
        PartOutcome::False => PartOutcome::True,
        PartOutcome::OtherValue => PartOutcome::Error(ErrorKind::TypeError),
        PartOutcome::Error(kind) => PartOutcome::Error(kind),
    }
}

// What a policy comes to whose condition does so.
pub(crate) fn of_policy(outcome: PartOutcome) -> PolicyOutcome
    ensures { policy_came result ≡ as_side (part_came outcome) }
{
    match outcome {
        PartOutcome::True => PolicyOutcome::Satisfied,
        PartOutcome::False => PolicyOutcome::Unsatisfied,
        PartOutcome::OtherValue => PolicyOutcome::Error(ErrorKind::TypeError),
        PartOutcome::Error(kind) => PolicyOutcome::Error(kind),
    }
}

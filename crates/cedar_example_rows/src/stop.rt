//! Why the program stops.
use cedar_authorizer::authorizer::ReauthorizationError;
use cedar_evaluator::request::ContextCreationError;
use cedar_extensions::ExtensionInitializationError;
use std::alloc::{AllocError, AllocFailed, Global};
use std::io;

/// Why the program stops.
#[derive(Debug, Drop)]
pub enum Stop {
    /// Out of memory.
    Memory,
    /// The output could not be written.
    Output,
    /// A row's context, or a step of a row, was refused, for this reason.
    Refused(String),
    /// The stored functions can't be used together.
    Functions,
}

impl From<AllocError> for Stop {
    fn from(_error: AllocError) -> Stop {
        Stop::Memory
    }
}

impl<T: Drop> From<AllocFailed<T>> for Stop {
    fn from(_error: AllocFailed<T>) -> Stop {
        Stop::Memory
    }
}

impl From<io::Error> for Stop {
    fn from(error: io::Error) -> Stop {
        if error.kind() == io::ErrorKind::OutOfMemory {
            Stop::Memory
        } else {
            Stop::Output
        }
    }
}

impl From<ExtensionInitializationError> for Stop {
    fn from(error: ExtensionInitializationError) -> Stop {
        match error {
            ExtensionInitializationError::FuncMultiplyDefined(_) => Stop::Functions,
            ExtensionInitializationError::MultipleConstructorsSameSignature(_) => Stop::Functions,
            ExtensionInitializationError::StandardTypeOverloaded(_) => Stop::Functions,
            ExtensionInitializationError::Memory(_) => Stop::Memory,
        }
    }
}

/// The stop at a context that is refused so.
pub fn context_refused(alloc: Global, error: &ContextCreationError) -> Stop {
    match error {
        ContextCreationError::NotARecord(_) => refuse_row(format!(in alloc; "{error}")),
        ContextCreationError::Evaluation(_) => refuse_row(format!(in alloc; "{error}")),
        ContextCreationError::ExpressionConstruction(_) => refuse_row(format!(in alloc; "{error}")),
        ContextCreationError::Memory(_) => Stop::Memory,
    }
}

/// The stop at a step that is refused so.
pub fn step_refused(alloc: Global, error: &ReauthorizationError) -> Stop {
    match error {
        ReauthorizationError::ErrorHandlingConflict { .. } => refuse_row(format!(in alloc;
            "{error}"
        )),
        ReauthorizationError::PolicySetError(_) => refuse_row(format!(in alloc; "{error}")),
        ReauthorizationError::ConcretizationError(_) => refuse_row(format!(in alloc; "{error}")),
        ReauthorizationError::Memory(_) => Stop::Memory,
    }
}

fn refuse_row(reason: Result<String, AllocError>) -> Stop {
    match reason {
        Ok(reason) => Stop::Refused(reason),
        Err(_) => Stop::Memory,
    }
}

//! Why the service stops.
use cedar_policy_core::ast::PolicySetError;
use cedar_policy_core::authorizer::ReauthorizationError;
use cedar_policy_core::extensions::ExtensionInitializationError;
use std::alloc::{AllocError, AllocFailed};
use std::io;

/// Why the service stops.
#[derive(Debug, Drop)]
pub enum Stop {
    /// Out of memory.
    Memory,
    /// The output could not be written.
    Output,
    /// Two policies have one id.
    RepeatedId,
    /// The stored functions can't be used together.
    Functions,
    /// A response was not taken further.
    Step,
}

impl From<AllocError> for Stop {
    fn from(_error: AllocError) -> Stop {
        Stop::Memory
    }
}

impl<T: Drop> From<AllocFailed<T>> for Stop {
    fn from(_error: AllocFailed<T>) -> Stop {
        Stop::Memory
    }
}

impl From<io::Error> for Stop {
    fn from(error: io::Error) -> Stop {
        if error.kind() == io::ErrorKind::OutOfMemory {
            Stop::Memory
        } else {
            Stop::Output
        }
    }
}

impl From<PolicySetError> for Stop {
    fn from(error: PolicySetError) -> Stop {
        match error {
            PolicySetError::Occupied { id: _ } => Stop::RepeatedId,
            PolicySetError::Memory(_) => Stop::Memory,
        }
    }
}

impl From<ExtensionInitializationError> for Stop {
    fn from(error: ExtensionInitializationError) -> Stop {
        match error {
            ExtensionInitializationError::FuncMultiplyDefined(_) => Stop::Functions,
            ExtensionInitializationError::MultipleConstructorsSameSignature(_) => Stop::Functions,
            ExtensionInitializationError::StandardTypeOverloaded(_) => Stop::Functions,
            ExtensionInitializationError::Memory(_) => Stop::Memory,
        }
    }
}

impl From<ReauthorizationError> for Stop {
    fn from(error: ReauthorizationError) -> Stop {
        match error {
            ReauthorizationError::ErrorHandlingConflict { .. } => Stop::Step,
            ReauthorizationError::PolicySetError(error) => Stop::from(error),
            ReauthorizationError::ConcretizationError(error) => {
                drop(error);
                Stop::Step
            }
            ReauthorizationError::Memory(_) => Stop::Memory,
        }
    }
}

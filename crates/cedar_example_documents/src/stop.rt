//! Why the program stops.
use cedar_policy_core::ast::PolicySetError;
use cedar_policy_core::authorizer::ReauthorizationError;
use cedar_policy_core::filters::NoPlan;
use sqlite::{Error, ErrorCode};
use std::alloc::{AllocError, AllocFailed};
use std::io;

/// Why the program stops.
#[derive(Clone, Copy, Debug, PartialEq, Eq)]
pub enum Stop {
    /// Out of memory.
    Memory,
    /// The output could not be written.
    Output,
    /// The policies could not be read.
    Policies,
    /// The database refused a statement.
    Database,
    /// There is no plan: a policy met the recursion limit.
    Limit,
    /// A response was not taken further.
    Step,
}

impl From<AllocError> for Stop {
    fn from(_error: AllocError) -> Stop {
        Stop::Memory
    }
}

impl<T: Drop> From<AllocFailed<T>> for Stop {
    fn from(_error: AllocFailed<T>) -> Stop {
        Stop::Memory
    }
}

impl From<io::Error> for Stop {
    fn from(error: io::Error) -> Stop {
        if error.kind() == io::ErrorKind::OutOfMemory {
            Stop::Memory
        } else {
            Stop::Output
        }
    }
}

impl From<NoPlan> for Stop {
    fn from(error: NoPlan) -> Stop {
        match error {
            NoPlan::RecursionLimit => Stop::Limit,
            NoPlan::Memory => Stop::Memory,
        }
    }
}

impl From<Error> for Stop {
    fn from(error: Error) -> Stop {
        if error == Error::SqliteFailure(ErrorCode::OutOfMemory) {
            Stop::Memory
        } else {
            Stop::Database
        }
    }
}

impl From<ReauthorizationError> for Stop {
    fn from(error: ReauthorizationError) -> Stop {
        match error {
            ReauthorizationError::ErrorHandlingConflict { .. } => Stop::Step,
            ReauthorizationError::PolicySetError(error) => of_set(error),
            ReauthorizationError::ConcretizationError(error) => {
                drop(error);
                Stop::Step
            }
            ReauthorizationError::Memory(_) => Stop::Memory,
        }
    }
}

fn of_set(error: PolicySetError) -> Stop {
    match error {
        PolicySetError::Occupied { id: _ } => Stop::Step,
        PolicySetError::Memory(_) => Stop::Memory,
    }
}

//! Why the gateway stops.
use cedar_response_json_reader::ResponseJsonError;
use cedar_staged::StageError;
use std::alloc::{AllocError, AllocFailed};
use std::io;

/// Why the gateway stops.
#[derive(Debug, Drop)]
pub enum Stop {
    /// Out of memory.
    Memory,
    /// A file could not be read, or the output not written.
    Io,
    /// The policies can't be read.
    Policies,
    /// The entities can't be read.
    Entities,
    /// What is asked names no entity.
    Entity,
    /// The line of the stage before can't be read.
    Line,
    /// The step is refused.
    Step,
    /// The recursion limit is recorded.
    Limit,
}

impl Stop {
    /// A line that says it.
    pub fn told(&self) -> &'static str {
        match self {
            Stop::Memory => "out of memory\n",
            Stop::Io => "input or output failed\n",
            Stop::Policies => "the policies can not be read\n",
            Stop::Entities => "the entities can not be read\n",
            Stop::Entity => "no entity\n",
            Stop::Line => "the line of the stage before can not be read\n",
            Stop::Step => "the step is refused\n",
            Stop::Limit => "the recursion limit is recorded\n",
        }
    }
}

impl From<AllocError> for Stop {
    fn from(_error: AllocError) -> Stop {
        Stop::Memory
    }
}

impl<T: Drop> From<AllocFailed<T>> for Stop {
    fn from(_error: AllocFailed<T>) -> Stop {
        Stop::Memory
    }
}

impl From<io::Error> for Stop {
    fn from(_error: io::Error) -> Stop {
        Stop::Io
    }
}

impl From<StageError> for Stop {
    fn from(error: StageError) -> Stop {
        match error {
            StageError::LimitIsRecorded => Stop::Limit,
            StageError::Refused(refused) => {
                drop(refused);
                Stop::Step
            }
            StageError::Memory(_) => Stop::Memory,
        }
    }
}

impl From<ResponseJsonError> for Stop {
    fn from(error: ResponseJsonError) -> Stop {
        match error {
            ResponseJsonError::Memory(_) => Stop::Memory,
            other => {
                drop(other);
                Stop::Line
            }
        }
    }
}

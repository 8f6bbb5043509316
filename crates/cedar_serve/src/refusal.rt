//! Why nothing is served.
ghost use Rattle.std.specs.Prelude.{◌≡◌};
ghost use Rattle.cedar_serve.specs.declared.refusal.Refusal.TheVariants as refusals;

use crate::visible::visible;
use std::alloc::{AllocError, AllocFailed, Global};

/// Why nothing is served.
#[derive(Debug, Drop)]
pub(crate) enum Refusal {
    /// Out of memory.
    Memory,
    /// For a reason that is told in these lines, each of which is ended.
    Told(String),
    /// For the type of actions, which is no name; the same.
    NoType(String),
}

impl From<AllocError> for Refusal {
    ghost from_gives = { λ e result. result ≡ refusals.Memory };

    fn from(_error: AllocError) -> Refusal {
        Refusal::Memory
    }
}

impl<T: Drop> From<AllocFailed<T>> for Refusal {
    ghost from_gives = { λ e result. result ≡ refusals.Memory };

    fn from(_error: AllocFailed<T>) -> Refusal {
        Refusal::Memory
    }
}

/// The refusal for which this is the reason, in one line: what is hidden in it is shown.
#[cold]
pub(crate) fn refuse_with_line(alloc: Global, reason: Result<String, AllocError>) -> Refusal {
    match end_line(alloc, reason) {
        Ok(line) => Refusal::Told(line),
        Err(AllocError) => Refusal::Memory,
    }
}

fn end_line(alloc: Global, reason: Result<String, AllocError>) -> Result<String, AllocError> {
    let mut line = visible(alloc, reason?.as_str())?;
    line.push_str("\n")?;
    Ok(line)
}

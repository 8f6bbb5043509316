//! Why there is no text of linked policies.
ghost use Rattle.std.specs.Prelude.{◌≡◌, alloc_error};
ghost use Rattle.cedar_linked_text.specs.declared.errors.LinkedTextError.TheVariants as errors;

use cedar_layers::policies::PolicyID;
use cedar_names::FirstRest;
use cedar_policy_json_reader::PolicyJsonError;
use cedar_policy_json_text::PolicyTextError;
use cedar_text_parser::ParseError;
use std::alloc::{AllocError, AllocFailed};
use std::fmt;
use std::fmt::Display;

/// Why there is no text.
#[derive(Debug, Drop)]
pub enum LinkedTextError {
    /// The policies can't be read: all errors, in the order of the text.
    Unread(FirstRest<ParseError>),
    /// Two policies or templates of the text are called so.
    Shared(PolicyID),
    /// The file of links can't be read, or a link of it makes no policy.
    Link(PolicyJsonError),
    /// The link that is to be added makes no policy.
    NewLink(PolicyJsonError),
    /// A policy has no text that is read as it.
    Text(PolicyTextError),
    /// Out of memory.
    Memory(AllocError),
}

/// `Memory`.
impl From<AllocError> for LinkedTextError {
    ghost from_gives = { λ error result. result ≡ errors.Memory error };

    fn from(error: AllocError) -> LinkedTextError {
        LinkedTextError::Memory(error)
    }
}

/// `Memory`, and what found no room is dropped.
impl<T: Drop> From<AllocFailed<T>> for LinkedTextError {
    ghost from_gives = { λ _ result. result ≡ errors.Memory alloc_error };

    fn from(_failed: AllocFailed<T>) -> LinkedTextError {
        LinkedTextError::Memory(AllocError)
    }
}

/// Why, as `$[0].template_id: no such template`.
impl fmt::Display for LinkedTextError {
    fn fmt<W: fmt::Write>(&self, f: &mut fmt::Formatter<W>) -> fmt::Result {
        match self {
            LinkedTextError::Unread(_) => f.write_str("the policies can't be read"),
            LinkedTextError::Shared(id) => {
                f.write_str("two policies or templates are called `")?;
                id.fmt(f)?;
                f.write_str("`")
            }
            LinkedTextError::Link(error) => error.fmt(f),
            LinkedTextError::NewLink(error) => error.fmt(f),
            LinkedTextError::Text(error) => error.fmt(f),
            LinkedTextError::Memory(_) => f.write_str("out of memory"),
        }
    }
}

impl std::error::Error for LinkedTextError {}

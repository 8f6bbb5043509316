//! Why there is no text of policies.
ghost use Rattle.std.specs.Prelude.{◌≡◌, alloc_error};
ghost use Rattle.cedar_policy_json_text.specs.declared.errors.PolicyTextError.TheVariants as errors;

use cedar_layers::policies::PolicyID;
use cedar_policy_json_reader::{JsonPath, PolicyJsonError};
use std::alloc::{AllocError, AllocFailed};
use std::fmt;
use std::fmt::Display;

/// Why there is no text.
#[derive(Debug, Drop)]
pub enum PolicyTextError {
    /// The JSON can't be read as a set of policies.
    Unread(PolicyJsonError),
    /// Cedar's text has nothing that is read as this policy: it holds an unknown, or it is higher than the limit.
    NoText {
        id: PolicyID,
    },
    /// The policy has an annotation `id`, here its name, that is not its id, and its id is not its place in the text:
    /// a text has one name for it.
    AnotherName {
        /// Where the annotation stands.
        path: JsonPath,
        /// The policy.
        id: PolicyID,
        /// Its annotation.
        name: PolicyID,
    },
    /// The policy has an annotation `id`, here its name, that is the id or the name of another policy or template.
    SharedName {
        /// Where the annotation stands.
        path: JsonPath,
        /// The policy.
        id: PolicyID,
        /// Its annotation.
        name: PolicyID,
    },
    /// Out of memory.
    Memory(AllocError),
}

/// `Memory`.
impl From<AllocError> for PolicyTextError {
    ghost from_gives = { λ error result. result ≡ errors.Memory error };

    fn from(error: AllocError) -> PolicyTextError {
        PolicyTextError::Memory(error)
    }
}

/// `Memory`, and what found no room is dropped.
impl<T: Drop> From<AllocFailed<T>> for PolicyTextError {
    ghost from_gives = { λ _ result. result ≡ errors.Memory alloc_error };

    fn from(_failed: AllocFailed<T>) -> PolicyTextError {
        PolicyTextError::Memory(AllocError)
    }
}

/// Why, as `$.staticPolicies.a.effect: not permit or forbid`.
impl fmt::Display for PolicyTextError {
    fn fmt<W: fmt::Write>(&self, f: &mut fmt::Formatter<W>) -> fmt::Result {
        match self {
            PolicyTextError::Unread(error) => error.fmt(f),
            PolicyTextError::NoText { id } => {
                f.write_str("the policy `")?;
                id.fmt(f)?;
                f.write_str("` has no text that reads back as it")
            }
            PolicyTextError::AnotherName { path, id, name } => {
                write_names(path, id, "` has another name, `", name, f)
            }
            PolicyTextError::SharedName { path, id, name } => {
                write_names(path, id, "` has the name of another, `", name, f)
            }
            PolicyTextError::Memory(_) => f.write_str("out of memory"),
        }
    }
}

// `$.staticPolicies.a.annotations.id: the policy `ID` has .., `NAME``
fn write_names<W: fmt::Write>(
    path: &JsonPath,
    id: &PolicyID,
    has: &str,
    name: &PolicyID,
    f: &mut fmt::Formatter<W>,
) -> fmt::Result {
    path.fmt(f)?;
    f.write_str(": the policy `")?;
    id.fmt(f)?;
    f.write_str(has)?;
    name.fmt(f)?;
    f.write_str("`")
}

impl std::error::Error for PolicyTextError {}

#![tactic(auto, using(crate::proofs::Refused::refusals))]
//! Why the JSON of a response was not read.
ghost use Rattle.std.specs.Prelude.{◌≡◌, ◌∷◌, [], IfOk, alloc_error};
ghost use Rattle.std.specs.Rc.{rc_str_bytes};
ghost use Rattle.cedar_policy_json_reader.specs.Paths.{at_key, at_index, step_view, path_view};
ghost use Rattle.cedar_response_json_reader.specs.declared.errors.ResponseJsonError.TheVariants as errors;

use cedar_policy_json_reader::{JsonPath, PathStep, PolicyJsonError, RefusalReason};
use std::alloc::{AllocError, AllocFailed, Global};
use std::rc::RcStr;
use thiserror::Error;

/// Why a part of the JSON of a response is refused.
#[derive(Clone, Copy, Debug, Drop, Error)]
pub enum ResponseRefusal {
    /// A policy or an expression, as the reader of these refuses it; or a key that comes twice in an object.
    #[error("{0}")]
    InPolicy(RefusalReason),
    /// What stands at `errorHandling` is neither `skip` nor `forbidOnError`.
    #[error("not skip or forbidOnError")]
    NotAMode,
    /// The response was made with other extensions than those that are handed in, or in another order.
    #[error("other extensions than these")]
    OtherExtensions,
    /// What stands for a variable is neither an entity nor the unknown of its name, with the type of an entity or with
    /// none.
    #[error("not an entity and not the unknown of this variable")]
    NotAnEntity,
    /// What stands for the context is neither its unknown nor a record that is restricted, is evaluated without an error
    /// and is written as what it is evaluated to: its sets in order, no element twice.
    #[error("not a context, or not as a context is written")]
    NotAContext,
    /// What stands at `reported` is neither `satisfied`, `unsatisfied`, `erring` nor `residual`.
    #[error("not satisfied, unsatisfied, erring or residual")]
    NotAReport,
    /// A policy with a scope: what is left of a policy has none.
    #[error("a policy with a scope")]
    HasAScope,
    /// The condition is not `true` of a policy that is satisfied, or not `false` of one that is not, or holds no unknown
    /// where it is a residual.
    #[error("a condition that is not as it is reported")]
    NotAsReported,
    /// Two policies have one id.
    #[error("two policies have one id")]
    RepeatedId,
    /// No text, where one is asked for.
    #[error("not a text")]
    NotAText,
    /// No object, where one is asked for.
    #[error("not an object")]
    NotAnObject,
    /// No array, where one is asked for.
    #[error("not an array")]
    NotAnArray,
    /// An object has more members than it may have.
    #[error("a member too many")]
    UnexpectedMember,
    /// A member that the object must have.
    #[error("missing")]
    MissingMember,
}

/// Why the JSON of a response was not read.
#[derive(Debug, Drop, Error)]
pub enum ResponseJsonError {
    /// The text is no JSON, or nests deeper than `json_depth` of the limit.
    #[error("not JSON")]
    Syntax,
    /// A part of the JSON value is refused: where it stands, and why.
    #[error("{path}: {reason}")]
    Refused {
        /// Where it stands.
        path: JsonPath,
        /// Why.
        reason: ResponseRefusal,
    },
    /// Out of memory.
    #[error("out of memory")]
    Memory(AllocError),
}

impl ResponseJsonError {
    ghost use Rattle.cedar_response_json_reader.specs.Refusals.{IsUnder, IsRefusedAt, IsOfPolicies};

    // The refusal of the whole value.
    #[cold]
    pub(crate) fn refusal(alloc: Global, reason: ResponseRefusal) -> ResponseJsonError
        ensures { IsRefusedAt [] reason result }
    {
        let path = JsonPath {
            steps: Vec::new(alloc),
        };
        ResponseJsonError::Refused { path, reason }
    }

    // The refusal of the part at this key.
    #[cold]
    pub(crate) fn refusal_at(alloc: Global, key: &str, reason: ResponseRefusal) -> ResponseJsonError
        ensures { IsRefusedAt (at_key key.now ∷ []) reason result }
    {
        ResponseJsonError::refusal(alloc, reason).under_key(alloc, key)
    }

    // The same error, of the part at this key.
    #[cold]
    pub(crate) fn under_key(self, alloc: Global, key: &str) -> ResponseJsonError
        ensures { IsUnder (at_key key.now) self result }
    {
        match RcStr::from_str(alloc, key) {
            Ok(key) => self.under(PathStep::Key(key)),
            Err(error) => {
                drop(self);
                ResponseJsonError::Memory(error)
            }
        }
    }

    // The same error, of the part at this index.
    #[cold]
    pub(crate) fn under_index(self, index: usize) -> ResponseJsonError
        ensures { IsUnder (at_index index) self result }
    {
        self.under(PathStep::Index(index))
    }

    fn under(self, step: PathStep) -> ResponseJsonError
        ensures { IsUnder (step_view step) self result }
    {
        match self {
            ResponseJsonError::Syntax => ResponseJsonError::Syntax,
            ResponseJsonError::Refused { path, reason } => match longer(path, step) {
                Ok(path) => ResponseJsonError::Refused { path, reason },
                Err(error) => ResponseJsonError::Memory(error),
            },
            ResponseJsonError::Memory(error) => ResponseJsonError::Memory(error),
        }
    }

    // The same error of Cedar's JSON of policies.
    #[cold]
    pub(crate) fn of_policies(error: PolicyJsonError) -> ResponseJsonError
        ensures { IsOfPolicies error result }
    {
        match error {
            PolicyJsonError::Syntax => ResponseJsonError::Syntax,
            PolicyJsonError::DuplicateKey => ResponseJsonError::Syntax,
            PolicyJsonError::Refused { path, reason } => ResponseJsonError::Refused {
                path,
                reason: ResponseRefusal::InPolicy(reason),
            },
            PolicyJsonError::Memory(error) => ResponseJsonError::Memory(error),
        }
    }
}

// The same way, of the part that this step leads to.
fn longer(path: JsonPath, step: PathStep) -> Result<JsonPath, AllocError>
    ensures { IfOk result (λ p. path_view p ≡ step_view step ∷ path_view path) }
{
    let mut steps = path.steps;
    match steps.insert(0, step) {
        Ok(()) => Ok(JsonPath { steps }),
        Err(_) => {
            drop(steps);
            Err(AllocError)
        }
    }
}

/// `Memory`.
impl From<AllocError> for ResponseJsonError {
    ghost from_gives = { λ error result. result ≡ errors.Memory error };

    fn from(error: AllocError) -> ResponseJsonError {
        ResponseJsonError::Memory(error)
    }
}

/// `Memory`, and what found no room is dropped.
impl<T: Drop> From<AllocFailed<T>> for ResponseJsonError {
    ghost from_gives = { λ _ result. result ≡ errors.Memory alloc_error };

    fn from(_failed: AllocFailed<T>) -> ResponseJsonError {
        ResponseJsonError::Memory(AllocError)
    }
}

//! Why the policies of a request came to what they did, line by line, as a person reads it.
//!
//! - `requests`: `explanation_lines`, the lines of all policies on a request, and `Telling`, the way they are told.
//! - `lines`: `Line` and `LineKind`.
//! - `policies`: the line of a policy and of each of its parts. `lacks`: what alone keeps a permit from applying.
//! - `words`: what a part and a policy came to, and kinds of errors. `names`: how a policy is called.
//!
//! The promise: there is an explanation of the request, as `cedar_explain` promises it, and the lines are those that
//! the definition has of it (`IsExplanation`, in `specs/Explanations.antt`, over `all_lines` of `specs/Lines.antt` and
//! the texts of `specs/Texts.antt`): first what the permits lack, then each policy in the order of the set, with the
//! parts that decide it. Expressions and values stand there as Cedar's text. A text may hold any character: who prints
//! it shows what is hidden.
#![tactic(auto)]

mod lacks;
mod lines;
mod names;
mod policies;
mod requests;
mod words;

pub use lines::{Line, LineKind};
pub use requests::{Telling, explanation_lines};

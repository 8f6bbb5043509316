//! What Cedar's command line answers to questions that are asked in Cedar's text and JSON; `cedar_commands` asks them.
//! Each question is answered by the whole text that is to be printed, or refused: then nothing is to be printed but
//! why. What a reader of an answer would not see by it is told beside it, on standard error.
//!
//! - `asked`, `policies`, `stores`, `ancestors`, `reading`, `limits`: what is asked, and the policies, entities,
//!   requests and limits.
//! - `decisions`, `explanations`, `partial`, `stages`, `steps`, `left`, `evaluations`: what is answered. `batch`: what
//!   is answered to many requests, a line each. `documents`, `readable`, `translations`: answers, and policies, as JSON.
//!   `strictness`, `repeated`: what is told of policies that are read.
//! - `refusal`, `faults`, `places`, `visible`, `warnings`, `undecided`: why a question is not answered, and where; what
//!   is told beside an answer.
//!
//! The promise, from the texts and the options on: what `authorize` prints is the decision on the policies, the
//! entities and the request that the texts say (`specs/Authorized`, over `Questions` and `Standard`), and it refuses
//! for the reasons of `specs/Reasons` alone; `authorize_each` prints a line for each of many requests, which is what
//! `authorize` prints of it alone (`specs/Batch`); `partially_authorize` prints the decisions of a chain of steps, of
//! which the last has the headline (`specs/Stages`, over `Steps`), and refuses for those of `specs/Stopped`; what
//! `evaluate_expression` prints is the value (`specs/Evaluated`, `Visible`), and `format_policies` keeps tokens and
//! comments. Below a decision `authorize_and_explain` prints why (`specs/Explained`); `check_strictly` tells policies
//! that can't be meant (`specs/Strict`), and `translate_to_json` prints policies as JSON (`specs/Translated`). Words
//! and statuses go by `specs/Printing`, policies' names by `specs/Named`, what is printed as JSON by `specs/Documents`,
//! lines and columns by `specs/Noted`.
//! What reads the parts of a question is public too, for crates that answer other questions over the same texts: policies
//! (`read_over`), a store (`known_store`, `given_store`), a request (`whole_request`), and what is told of them (`specs/Questions`,
//! `specs/Reasons`).
//! `docs/COMMANDS.md` describes each command and where these promises end; the rest is tested by `cedar_test_cli`.
#![tactic(auto)]

mod ancestors;
mod asked;
mod batch;
mod decisions;
mod documents;
mod evaluations;
mod explanations;
mod faults;
mod left;
mod limits;
mod partial;
mod places;
mod policies;
mod readable;
mod reading;
mod refusal;
mod repeated;
mod stages;
mod steps;
mod stores;
mod strictness;
mod translations;
mod undecided;
mod visible;
mod warnings;

pub use asked::{Asked, Source, Step, Way};
pub use batch::{authorize_each, refusal_document};
pub use cedar_policy_core::authorizer::{Decision, ErrorHandling};
pub use decisions::{Printed, authorize, line_of, push_visible_name, status_of};
pub use evaluations::evaluate_expression;
pub use explanations::authorize_and_explain;
pub use limits::{levels_within, text_limit};
pub use partial::{partially_authorize, print_stages_of};
pub use policies::{check_format, check_policies, format_policies, push_name, read_over, with_id};
pub use reading::whole_request;
pub use refusal::{Refusal, refuse_with_line, unread_json};
pub use stages::{Stages, all_stages, first_stage, stages_from};
pub use steps::Taken;
pub use stores::{Store, given_store, known_store};
pub use strictness::check_strictly;
pub use translations::translate_to_json;
pub use warnings::{push_warning, tell_errors, tell_templates};

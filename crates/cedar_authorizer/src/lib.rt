//! The authorizer: what a set of policies decides for a request, and how what is left open is taken further.
//!
//! - `authorizer`: `Authorizer`, and its calls `is_authorized`, `is_authorized_core` and `authorize_in_steps`. Below
//!   it: `reaching` (which policies are looked at), `sheets` and `telling` (their run), `steps` (`reauthorize`),
//!   `laws`.
//! - `reauthorization` (`policies`, `request`, `err`): what a step takes over: the policies that are decided again,
//!   the request with the map's values, and why a step is refused.
//! - `responses` (`response`, `partial_response`, `sheet`, `err`, `laws`): what is answered, what is read of it, and
//!   the sheet on which outcomes are noted.
//!
//! The promise: `is_authorized_core` answers a run of the policies (clause `run`; `specs/Running.antt`). If it
//! records no recursion limit it stands in every completion (`stands`), and where nothing is unknown decision,
//! reasons and errors are the definition's (`known` of `is_authorized`; `specs/Responding.antt`). `reauthorize`
//! answers the model's step or exactly its refusal (`step`, `conflict`; `specs/Steps.antt`), and `authorize_in_steps`
//! has the headline (`headline`; `specs/Headline.antt`). Rows of a response: `specs/responses/Rows.antt`.
#![tactic(auto)]

pub mod authorizer;
mod reauthorization;
pub mod responses;

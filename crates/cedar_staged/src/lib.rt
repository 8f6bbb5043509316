//! A decision in stages: a request is decided with what is known, and each stage brings values for what was unknown
//! and a store that knows more.
//!
//! `Staged::begin` asks first; `response`, `decision`, the two bounds, `unknowns` and `missing_entities` say what came of
//! it and what is still asked; `step` takes the next stage. A response whose errors hold the recursion limit is the
//! last: `step` refuses to go on, since a forbid that met the limit is not known to be false. `Resumed` is the same from a
//! response that is there already, as one that was read of what another machine wrote.
//!
//! - `staged`: the type, and its calls. `readers`: what is read of it. `resumed`, `resumed_readers`: the same from a
//!   response. `limits`: whether the recursion limit is recorded. `errors`: why no step was taken. `laws`: steps from a
//!   response that crossed a wire.
//!
//! The promise: the type keeps that its response is what the chain of all its steps gives, from the request, the policies
//! and the store that it was begun with (ghost field `chain`). So whoever reads the response has the headline: what it
//! reports stands in every completion, and a decision that is given is the completion's (clause `headline`;
//! `specs/Stages.antt`). `step` answers the model's step, or exactly its refusal, and then nothing changed (`step`,
//! `refused`, `unchanged`). `Resumed` keeps that its response is where the steps lead from its first, so that what stood of
//! the first stands (clause `stands`; `specs/Resumptions.antt`); and the law `relayed_steps_have_the_headline` has the
//! headline of steps on different machines (`specs/Relays.antt`).
#![tactic(auto)]

mod errors;
pub mod laws;
mod limits;
mod readers;
mod resumed;
mod resumed_readers;
mod staged;

pub use errors::StageError;
pub use resumed::Resumed;
pub use staged::Staged;

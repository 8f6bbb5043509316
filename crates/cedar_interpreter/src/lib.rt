//! Evaluates an expression for a request: to a value, an error, or a residual.
//!
//! `interpret`, in `interpreted`, is the call. `machine` runs on the loop of `cedar_frames`: `start` begins an
//! expression (a function a kind), and once a part has answered `guards` (`if`), `connectives` (`&&`, `||`) and
//! `operators` (all others) go on; `after` takes what is kept beside a residual, and what failed. `residuals`
//! and `stored` evaluate what the store holds. What waits is a `frame`; `answers` and `stopped` end an expression.
//!
//! - Given: `evaluation`, `at_hand` (the entities of the request, looked up once). For the checker: `boxed`,
//!   `boxed_residual`, `failed`.
//! - `direct`, `direct_evaluators`, `variables` answer low expressions without a turn of the loop; no promise rests
//!   on when they do.
//!
//! Four places evaluate; whoever changes a kind changes each that has it: (1) the loop here, all 17 kinds, always
//! unless one of the next two answers; (2) direct parts here, at most five levels high, without call, slot or
//! unknown; (3) `conditions` and `joining` of `cedar_evaluator`, a policy's scope, with a limit of five levels or
//! more; (4) `cedar_restricted`: contexts and stored attributes.
//!
//! The promise: `interpret` runs by the rules (clause `runs`), and its answer is as promised (`promised`;
//! `IsPromised` in `specs/Promises.antt`). What a frame waits for: `specs/Tasks.antt`, `specs/Frames.antt`; the
//! rules: `cedar_model/specs/Rules`.
#![tactic(auto)]

mod after;
mod answers;
mod at_hand;
mod boxed;
mod boxed_residual;
mod connectives;
mod direct;
mod direct_evaluators;
mod evaluation;
mod failed;
mod frame;
mod guards;
mod interpreted;
mod machine;
mod operators;
mod residuals;
mod start;
mod stopped;
mod stored;
mod variables;

pub use at_hand::{Known, KnownEntities, entity_at_hand};
pub use boxed_residual::BoxedResidual;
pub use evaluation::{Evaluation, Given, Mapper, Resolution};
pub use failed::Failed;
pub use frame::{FirstBranch, Frame, Next, Pending, SecondBranch, SharedExpr, Task};
pub use stopped::Stopped;

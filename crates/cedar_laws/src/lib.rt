//! Laws of the model's data that callers' proofs cite. Each function is a law, and does nothing; its contract is the
//! statement, whose definitions stand in `specs/`.
//!
//! - `determinism`: two runs of the same policies are alike but for calls in residuals (`runs_are_alike`), and equal
//!   where functions have one answer (`runs_are_equal`): `specs/AlikeRuns.antt`, `specs/EqualRuns.antt`.
//! - `levels`: more levels change only what met the limit (`levels_keep_runs`): `specs/LevelRuns.antt`.
//! - `steps`: steps with equal arguments are equal (`steps_are_equal`), and a chain goes on by a step
//!   (`chains_go_on`): `specs/EqualSteps.antt`, `specs/StepChains.antt`.
//! - `faithful`: what holds no extension value is faithful (`values_without_extensions_are_faithful` and its kin),
//!   with an instance of the premises: `specs/Faithful.antt`, `specs/FaithfulInstances.antt`.
//! - `index`: an index of policies by scope loses none that asks for the entities of a request
//!   (`reached_policies_are_within_reach`), and bounds how many are looked at (`reached_policies_are_bounded`):
//!   `specs/Index.antt`.
#![tactic(auto)]

pub mod determinism;
pub mod faithful;
pub mod index;
pub mod levels;
pub mod steps;

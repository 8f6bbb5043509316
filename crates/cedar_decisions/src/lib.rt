//! Decisions, and what decides: whether there are satisfied and residual permits and forbids, and how errors are
//! handled. The crate knows no policy, no request and no response, so that what an authorizer must never get wrong
//! stands alone and is tried alone.
//!
//! - `decision`: `Decision` and `ErrorHandling`; `decide` for partial responses, which answers `None` where the
//!   decision is open; `decide_concretely`, where all that is left counts as an error; and `forbids`, whether
//!   something forbids then.
//!
//! The promise, in clauses without a name: `decide` gives the decision where one is known (`known_decision`;
//! `cedar_authorizer` proves of its rows that it is the model's), and `decide_concretely` Allow exactly with a
//! satisfied permit and nothing that forbids, in each way to handle errors (`forbids`). The definitions stand in
//! `specs/Decisions.antt`, over `cedar_model/specs/Policies`.
//!
//! Wrong bodies of this crate are tried with each run of the gate: a default of `Allow`, a forbid that does not
//! override, and a residual that is passed over must be refused by the prover.
#![tactic(auto)]

mod decision;

pub use decision::{Decision, ErrorHandling, decide, decide_concretely, forbids};

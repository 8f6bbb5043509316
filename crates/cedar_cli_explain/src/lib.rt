//! What the command line answers of a request, and why, as one JSON value.
//!
//! - `answers`: `authorize_and_explain_as_json`, the decision as `authorize` prints it as JSON, and the explanation as one
//!   member more.
//!
//! The promise, from the texts and options on: the decision is what `authorize` promises (`IsAuthorized` of `cedar_cli`),
//! and the explanation is one of the policies, the entities and the request that the texts say, as `cedar_explain_json`
//! promises it (`specs/Explained`); the object that is printed has the members of the decision's, and the explanation
//! behind them. It refuses for the reasons alone for which `authorize` does.
//!
//! `docs/COMMANDS.md` describes the command that asks this.
#![tactic(auto)]

mod answers;

pub use answers::authorize_and_explain_as_json;

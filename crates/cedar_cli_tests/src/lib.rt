//! What the command line answers of tests of policies.
//!
//! - `runs`: `run_tests`, the tests of a text that fail, each with what it fails in, and how many pass.
//! - `one`: one test. `answers`: what is answered to its request. `results`: what is printed of tests, one behind the
//!   other. `texts`: the texts of the parts of a test. How far a run is, `cedar_progress` tells.
//!
//! The promise, from the texts and options on: `run_tests` prints a line of JSON, in the order of the tests, for each that
//! fails, and none for another, and behind them how many pass and fail; the exit status is 1 where one fails
//! (`specs/Tested`). A test fails where decision, reasons or the count of the errors are not those that it expects (`passes`
//! of `cedar_policy_tests`), or it can't be asked. What is answered to it is what the policies of the text decide of its
//! request, over its own entities or those that are given (`IsAnswerOf` of `cedar_regression`, over what `cedar_cli`
//! promises of `authorize`). It refuses for the reasons of `AreUntested` there alone.
//!
//! What a test expects is told by `cedar_policy_tests`. `docs/COMMANDS.md` describes the command that asks this.
#![tactic(auto)]

mod answers;
mod one;
mod results;
mod runs;
mod texts;

pub use runs::run_tests;

//! What policies answer to many requests, against what others answer.
//!
//! - `comparisons`: `compare_policies`, what two sets of policies answer differently.
//! - `answers`: what policies answer to one request.
//!
//! The promise, from the texts and the options on: `compare_policies` prints a line of JSON, in the order of the
//! requests, for each that the old and the new policies answer differently, with what differs, one for each request that
//! is refused, and none for another (`specs/Compared`); an answer is what the policies of the text decide of that
//! request over those entities (`specs/Answered`, over what `cedar_cli` promises of `authorize`). It refuses for the reasons
//! of `specs/Compared` alone.
//!
//! What differs is told by `cedar_expectations`. `docs/COMMANDS.md` describes the commands that ask this.
#![tactic(auto)]

mod answers;
mod comparisons;

pub use answers::answer_of;
pub use comparisons::compare_policies;

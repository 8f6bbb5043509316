//! The syntax of Cedar's text: a machine takes one token at a time and writes an expression down as steps, each behind
//! those of its parts, as a calculator with a stack takes them; annotations, effect, scope and clauses of a policy are
//! read so too. No function calls itself, and nothing here knows an `Expr` or a `Policy`.
//!
//! - `machine`: `expression_steps`, and `clause_steps` for an expression in braces. Below it: `operands` (what an
//!   expression begins with), `operators`, `relations` (`has`, `like`, `is`), `members`, `brackets`, and `work` (what
//!   the machine keeps).
//! - `frames`: the stack of what waits. `levels`, `kinds`: operators, their levels, and what tokens are to an
//!   expression. `steps`: the steps that are written. `nodes`: how many nodes are built of them. `expecting`: what is
//!   expected of tokens, and the errors.
//! - `policies`: `policy_steps`, which reads one policy. `annotations`, `scopes`, `clauses`: its parts, in the order
//!   in which they are read. `looking`: what a token may be in a policy. `written`: the steps that were written so
//!   far.
//!
//! The promise: they answer the steps of a tree that the tokens derive by the grammar, no higher than the limit
//! (clause `ok`; `specs/Grammar.antt`, `specs/Trees.antt`), of a policy with annotations and effect (`HasPolicy` in
//! `specs/PolicyReading.antt`, by `specs/PolicyGrammar.antt`), each part inside what it is a part of (`parts`;
//! `specs/Places.antt`). Of an expression and of what stands in braces at most sixteen nodes a byte are built (`nodes`;
//! `specs/Nodes.antt`). Of an error it is promised that it is at a token or behind the last, or, where the limit is
//! passed, ends with a token (`err`), and no more.
#![tactic(auto)]

mod annotations;
mod clauses;
mod expecting;
mod frames;
mod kinds;
mod levels;
mod looking;
mod machine;
mod nodes;
pub mod policies;
mod scopes;
pub mod steps;
mod written;

pub use expecting::{Reach, accept, expect, expected_at, path, too_deep};
pub use machine::{ClauseSteps, clause_steps, expression_steps};
pub use policies::policy_steps;

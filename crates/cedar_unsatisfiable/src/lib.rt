//! Policies that can be read, but can't be meant, by what their text shows: those that apply in no world, that err
//! wherever their scope holds, that test an attribute after they read it, and two that say the same.
//!
//! - `policies`: `is_unsatisfiable`, of a policy.
//! - `showing`: what shows that a condition is never true (`shows_never`): a conjunct that is never true, or two that
//!   contradict each other. Below it: `claims`, what a conjunct says of a value.
//! - `erring`: `always_errs`, of a policy: an operator stands beside a value of a kind that it does not take. Below it:
//!   `kinds`, the kinds of values that expressions show, and that operators take.
//! - `late`: `late_test`, the attribute that a policy tests after it read it. `alike`: `say_the_same`, of two policies.
//!
//! The promise: a policy of which `is_unsatisfiable` tells it is satisfied in no world, whatever its slots are linked to
//! (clause `never`), and so a condition is true in none (`never` of `shows_never`; both in `specs/Showing.antt`). One of
//! which `always_errs` tells it errs in every world in which its scope is satisfied (`errs`; `specs/Erring.antt`). Each
//! is told exactly where the text shows it (`shown`); the other two are said of texts alone (`specs/Late.antt`,
//! `specs/Alike.antt`). A policy of which nothing is told may still never apply, or always err: only what stands in its
//! text is looked at, and no schema.
#![tactic(auto)]

mod alike;
mod claims;
mod erring;
mod kinds;
mod late;
mod policies;
mod showing;

pub use alike::say_the_same;
pub use erring::always_errs;
pub use late::late_test;
pub use policies::is_unsatisfiable;
pub use showing::shows_never;

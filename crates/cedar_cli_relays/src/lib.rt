//! What the command line answers of a request in stages, each of which may be on another machine: the line of a response
//! that is saved, and a line that is taken further.
//!
//! Whoever can write the line can change the decision: a forbid that is left out of it is missed by nobody. So sign it, and
//! resume only what someone signed who is trusted.
//!
//! - `relays`: the calls, `partially_authorize_and_save` and `resume`. `lines`: the line of a response, and the response of
//!   a line.
//!
//! The promise, from the texts and options on: what is printed is what `partially_authorize` of `cedar_cli` prints, and
//! the line is that of the last response, whole (`specs/Saved`); a line that is resumed says a response, which each step
//! takes further by the rules, in the way that it was made. It is refused for the reasons alone for which
//! `partially_authorize` is, and a line for those of `specs/Unresumed`.
//!
//! `docs/COMMANDS.md` describes the options that ask this.
#![tactic(auto)]

mod lines;
mod relays;

pub use relays::{Saved, partially_authorize_and_save, resume};

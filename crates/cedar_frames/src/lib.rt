//! A loop over an explicit stack of frames, for any evaluator: no function calls itself, so that the depth of what is
//! evaluated costs memory, and none of the machine's stack. What is evaluated, and by which rules, is the evaluator's
//! own; this crate knows no language.
//!
//! An evaluator is a `Machine`: it looks at a part, and either answers at once or waits, in a frame, for a part of
//! it; and it goes on in a frame with the answer that came. `interpret` runs it, at most `limit` levels deep.
//!
//! - `machine`: the trait `Machine`, its laws, and what a step comes to (`Transition`).
//! - `stack`: the stack of frames, no higher than its limit.
//! - `turns`: the loop: `interpret`, `interpret_on` a stack that is there, and one turn (`advance`).
//!
//! The promise: `interpret` answers what is right with so many levels (`Machine::right`); a turn keeps that (clause
//! `right` of `advance`), leaves less to do (`less`), and hands an answer that ends the whole to no frame
//! (`handed_on`). What frames wait for stands in `specs/Frames.antt`, what is taken off a stack in
//! `specs/Stacks.antt`.
#![tactic(auto)]

mod machine;
mod stack;
mod turns;

pub use machine::{Machine, Transition};
pub use stack::Stack;
pub use turns::{Mode, Turn, advance, interpret, interpret_on};

//! How far a long run is, told on standard error while a person waits for it: the commands that ask many requests or
//! tests in one run call this after each. This crate knows no language.
//!
//! - `progress`: `tell_progress`, after each that is asked, and `end_progress`, after the last.
//!
//! It is told of each thousand, on one line that is written over. Who has found that standard error is a terminal
//! hands that in; without it nothing is told, so that a file or a pipe gets none of it. What can't be written is not
//! told, and the run goes on.
//!
//! The promise is the checker's alone: each ends, and stays within its memory. What is answered does not go through
//! here, so there is no `specs/`.
#![tactic(auto)]

mod progress;

pub use progress::{end_progress, tell_progress};

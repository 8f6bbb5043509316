//! Cedar's own requests, a line each, with a log.
//!
//! - `lines`: `answer_logged_lines`, which reads lines up to the end: each is answered as `answer_lines` of
//!   `cedar_endpoints` answers it, and told to a log of `cedar_log` before.
//! - `answers`: the answer to one line, and what is told of it.
//!
//! The promise (`specs/Lines`): the lines that are read are answered as without a log, in their order and up to the end,
//! and nothing else is written. After what the log had stands, in the same order, the line of each request that was
//! decided, with its answer; of what is refused nothing is told. Where it ends in an error the same is so of the lines up
//! to some line; of the next one at most a first part of its line stands in the log, and nothing of its answer is
//! written, or its line stands there whole and at most a first part of its answer is written.
#![tactic(auto)]

mod answers;
mod lines;

pub use lines::answer_logged_lines;

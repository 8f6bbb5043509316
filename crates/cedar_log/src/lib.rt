//! A log of what a service over HTTP decides: a line of JSON for each decision, appended before the answer is handed out.
//!
//! - `logged`: `Logged`, a service with a log. `serving`: `serve_logged`, one connection of it.
//! - `logs`: `Log`, to which lines are appended whole, or none from then on. `sinks`: `Sink`, what takes the lines, and
//!   `Flushed`, any `Write` as one.
//! - `exchanges`: which lines tell what a response hands out. `lines`: the line of one decision. `stamps`: the version and
//!   the id that each names. `parts`: where a document has what is told. `texts`: JSON as text.
//! - `reading`: `logged_request`, the request of a line.
//!
//! The promise, of `Logged` (`specs/Logs`): the service behind it answers as it does without a log, and each answer is
//! handed out once the lines of the decisions in it stand after what the log had; or 500 is sent, and no decision. That
//! is so where they could not be appended whole, and from then on at each decision; where one of the two bodies is no
//! JSON; or if memory ran out before they were made, which is noted. Nothing stands in the log but those lines and, as
//! the last of it, a first part of lines that could not be appended whole. A line says what was decided as Cedar's own
//! request, the answer, the version, and the request's id (`specs/Lines`).
//!
//! It takes from a service no more than its answers: what is told are the bodies of a request and of the response to it.
#![tactic(auto)]

mod exchanges;
mod lines;
mod logged;
mod logs;
mod parts;
mod reading;
mod serving;
mod sinks;
mod stamps;
mod texts;

pub use exchanges::request_line;
pub use logged::Logged;
pub use logs::{Log, append};
pub use reading::logged_request;
pub use serving::serve_logged;
pub use sinks::{Flushed, Sink};

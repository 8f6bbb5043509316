//! The commands of Cedar's command line, over any host: what words write is asked of the crates that answer, and what
//! they answer is handed out. A refused command has nothing to print by its type (`Answer`). Files that words name are
//! read here, each once, and nowhere below.
//!
//! - `commands`: the commands and their arguments, which `clap` reads. `files`: the files that arguments name.
//!   `policies`: policies in JSON, as text. `links`: links of templates. `relays`: answers that are saved and taken further.
//!   `run`: `answer_command`, which takes the words of a command line.
//!
//! What is answered is promised by the crates that are asked (`cedar_cli`, from texts and options on). The promise here
//! is the checker's alone: each command stays within its memory and comes to an end. That words and files become these
//! questions is tested by `cedar_test_cli`. `docs/COMMANDS.md` describes each command.
#![tactic(auto)]

mod commands;
mod files;
mod links;
mod policies;
mod relays;
mod run;

pub use run::{Answer, answer_command};

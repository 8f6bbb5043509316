//! Policies that go to Cedar's JSON of policies and back, and from there to text and to JSON once more.
//!
//! A policy comes back if its JSON is read as a policy that says the same under the same annotations, if the text of that
//! one is read so too, and if the JSON of this last one is, byte for byte, the first.
//!
//! Files: `trips` takes a policy there and back; `tallies` counts what became of the policies of texts and rows, and `files` of
//! those of files and tables.
//!
//! The promise is the checker's alone: each call stays within its memory and comes to an end. Test programs count the
//! policies of their tables by it.
#![tactic(auto)]

mod files;
mod tallies;
mod trips;

pub use files::{file_comes_back, print_tally, table_comes_back};
pub use tallies::{Tally, with_row, with_text};
pub use trips::comes_back;

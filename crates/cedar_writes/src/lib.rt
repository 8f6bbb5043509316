//! Bytes that are written whole, or of which a first part is. What answers lines and what keeps a log write through this
//! crate, since both promise what stands where a write fails. It knows no language.
//!
//! - `writing`: `write_whole`, all of the bytes, to any `Write`. An interrupted write is tried again, as std's `write_all`
//!   does; that promises nothing of what stands where it fails.
//!
//! The promise (`AppendsPart` in `specs/Parts`): what is written is the bytes, or, with an error, a first part of them,
//! which may be none; and no other byte. The bytes are those that the writer holds by its own account (`contents` of
//! `Write`); whether they have left the program is not said, so that who waits for that calls `flush`, as `Flushed` of
//! `cedar_log` does.
#![tactic(auto)]

mod writing;

pub use writing::write_whole;

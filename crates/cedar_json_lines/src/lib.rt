//! Objects in JSON that stand on lines of their own.
//!
//! Who has such a line, as it is printed, and not the value, puts one member more behind the others; nothing of the line
//! is read for that but its end.
//!
//! - `objects`: `with_member`, the line of an object with one member more.
//!
//! The promise: of the line of an object that has a member the line of the very object with the new member behind the
//! others (`IsOneMore` of `specs/Objects.antt`); the line of an object is its text with no space, and a line's end. Of
//! any other line nothing is promised.
#![tactic(auto)]

mod objects;

pub use objects::with_member;

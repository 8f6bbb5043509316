//! Laws for callers: what holds no extension value is faithful, and where functions answer faithfully so is what is
//! read and evaluated. So whoever stores no function, or functions that answer no extension value, or the standard
//! ones, owes no premise on the values of stores, contexts and maps. Each function is a law, and does nothing.
//!
//! - `given`: what stores, contexts, requests and maps of values hold, and what functions answer.
//! - `read`: what is read from JSON and evaluated, where functions answer no extension value.
//! - `faithful_read`: the same where functions answer faithfully.
//! - `owed`: what the headline takes of functions.
//!
//! The promise: what callers hold meets the headline's premises on values (`stores_are_faithful`,
//! `read_entities_hold_none`, `read_entities_are_faithful` and their kin), and nothing is owed of the standard
//! functions (`nothing_is_owed_of_functions`). The definitions stand in `specs/Held.antt` and `specs/Owed.antt`, over
//! `cedar_laws/specs/Faithful`.
#![tactic(auto)]

pub mod faithful_read;
pub mod given;
pub mod owed;
pub mod read;

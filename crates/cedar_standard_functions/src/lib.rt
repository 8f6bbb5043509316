//! The functions of Cedar's standard extensions, by name. The extensions are `decimal`, `ipaddr` and `datetime`
//! (which has the type `duration` too).
//!
//! - `function`: [`StandardFunction`] is one of them: its name, how it is called, the types of its arguments and of
//!   what it answers; `named` finds one, and `call` answers what it answers to values.
//! - `types`: [`is_standard_type`] says of a type whether it is one of theirs, and [`is_overloaded`] whether `<` and
//!   `<=` compare its values.
//! - `kind`: the types as one enum, for both.
//! - `laws`: what holds of all of them. Each function is a law, and does nothing.
//!
//! The promise: `call` answers what the definition of the function gives, or the error with its fields (clause
//! `answers`); the definitions by name are `answer_of` and `made_of` in `specs/Standard.antt`. `named` finds each by
//! its name and no other (`names_are_found`); all are computed, faithful and lawful (`functions_are_computed`,
//! `functions_are_faithful`, `functions_are_lawful`; `specs/Laws.antt`).
#![tactic(auto)]

mod function;
mod kind;
pub mod laws;
mod types;

pub use function::StandardFunction;
pub use types::{OVERLOADED, is_overloaded, is_standard_type};

//! The extensions that an evaluator may use: the standard ones, and those whose functions its caller stores.
//!
//! - `extensions`, `extension`: `Extensions` (none, the standard ones, or given ones with or without these), and one
//!   extension; `iterators` over what they have.
//! - `function` (`stored`, `built_in`, `callee`): a function that a caller stores, the built-in `unknown`, and what a
//!   call does.
//! - `checks`, `errors`: whether extensions can be used together, and why not; `util`: maps of pairs whose keys
//!   differ.
//! - `laws`: what functions may answer. Each function is a law, and does nothing.
//!
//! The promise: a caller stores a function with three facts about it (clauses `callable`, `functional`, `lawful`;
//! `specs/Functions.antt`, `specs/Outcomes.antt`), and may say what it computes (`specs/Computations.antt`); `call`
//! answers what the model's rule for calls reads (`specs/Callees.antt`, `specs/Answers.antt`). Extensions that can't
//! be used together are refused, with the first name (`refused`; `specs/Refused.antt`). How extensions are seen is
//! `extensions_view` in `specs/Extensions.antt`.
#![tactic(auto)]

mod checks;
mod errors;
mod extension;
mod extensions;
mod function;
mod iterators;
pub mod laws;
pub mod util;

pub use cedar_errors::extensions::{
    ExtensionFunctionLookupError, extension_function_lookup_errors,
};
pub use cedar_standard_functions::StandardFunction;
pub use errors::{ExtensionInitializationError, extension_initialization_errors};
pub use extension::Extension;
pub use extensions::Extensions;
pub use function::{ExtensionFunction, ExtensionFunctionObject, ExtensionOutputValue};
pub use iterators::{ExtNames, ExtTypes, OverloadingTypes};

/// What a look-up of a function answers.
pub type Result<T> = std::result::Result<T, ExtensionFunctionLookupError>;

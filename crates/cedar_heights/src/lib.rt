//! How high things are, as an evaluator counts levels, and the limit of levels that suffices for them.
//!
//! An expression has one level more than the highest of its parts, and a value as many as the expression that it is
//! written as. An evaluation never meets a limit as high as the expression and, once or twice, what it is given: that
//! is the depth bound, and its premises are what the functions here tell. Each walks once over what it is handed, and
//! takes no memory but the stack's; a part that is shared is walked over as often as it is there.
//!
//! - `expressions`, `values`, `contexts`, `entities`, `policies`: how high each is.
//! - `numbers`: levels above levels, and the limits that suffice (`levels_for`, `levels_for_step`). `laws`: what the
//!   heights say of the depth bound.
//!
//! The promise: each call tells the model's height, or `usize::MAX` where it is greater (`capped` in
//! `specs/Capped.antt`; the heights are in `specs/Heights.antt`), and with the limits that suffice the depth bound's
//! premises hold (`enough_is_deep_enough`; `specs/Limits.antt`).
#![tactic(auto)]

mod contexts;
mod entities;
mod expressions;
pub mod laws;
mod numbers;
mod policies;
mod values;

pub use contexts::{context_height, request_height};
pub use entities::{entities_height, entity_height};
pub use expressions::{expr_height, fields_height};
pub use numbers::{levels_for, levels_for_step};
pub use policies::{condition_height, policies_height, residuals_height};
pub use values::{mapped_height, record_height, value_height};

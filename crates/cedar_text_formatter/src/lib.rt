//! Lays Cedar's policy text out anew: its tokens and comments stay what they are, and where they are; the blanks
//! between them change.
//!
//! - `formatting`: `format_text`, `is_formatted`. `fronts`: what a text begins with, a blank, a comment or a token.
//! - `layout`, `roles`: what stands before each piece, by the token before it and the brackets that are open.
//! - `laws`: that the lexer reads the same tokens of both, that a text has one layout, and that to lay out once
//!   more changes nothing. Each function is a law, and does nothing.
//!
//! The promise: text and answer have the same pieces, which are tokens by the lexer's own definition and comments, in
//! one order (`IsFormatted` in `specs/Formatted.antt`, by `specs/Pieces.antt`), and the answer is their layout
//! (`specs/Layout.antt`). It refuses only a text of which a token can't be read (`refused`).
#![tactic(auto)]

pub mod formatting;
mod fronts;
pub mod laws;
mod layout;
mod roles;

pub use formatting::{FormatError, format_text, is_formatted};

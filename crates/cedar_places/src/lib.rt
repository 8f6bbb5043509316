//! Lines and columns of many places of a text, which is gone over once.
//!
//! A text's bytes are numbered from 0, its lines and the characters of a line from 1. Of each 256 bytes one has its
//! position noted, from which a look-up counts on, over 255 bytes at most.
//!
//! - `places`: `Places`, a text in which places are looked up.
//!
//! The promise: the line and the column of a place are those of its byte (`place_of`, over `place_at` of
//! `specs/Noted.antt`, by the positions of `cedar_text_lexer`); of a text with fewer bytes those of its end. The text is
//! the one that was handed in (`text_in` of `specs/Texts.antt`). How far a look-up goes is no clause.
#![tactic(auto)]

mod places;

pub use places::Places;

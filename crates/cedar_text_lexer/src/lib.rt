//! The tokens of Cedar's policy text: a text is cut into tokens, and what a token stands for is read.
//!
//! - `lexer`, `scanning`, `words`, `operators`: cut a text into tokens. `tokens`, `kinds`, `sequence`: a token, its
//!   kind, and tokens by their numbers.
//! - `values`, `pieces`, `escaping`, `escapes`: what words, numbers, texts and patterns stand for.
//! - `errors`, `expectations`, `messages`, `show`: why a text can't be read, in words, and where, with a mark below the
//!   line.
//! - `laws`: that what is read is determined. Each function is a law, and does nothing.
//!
//! The promise: `tokens` answers the tokens of a text, each as long as it can be (clauses `tokens`, `stand`;
//! `IsTokens` in `specs/Tokens.antt`, `IsToken` in `specs/Lexicon.antt`), of which there is one list alone
//! (`tokens_are_determined`). What a text, a pattern or a number stands for is exact (`IsTextOf`, `IsPatternOf` in
//! `specs/Values.antt`), and so are the place of a refused escape and what `message` says (`specs/Messages.antt`).
#![tactic(auto)]

pub mod errors;
mod escapes;
mod escaping;
mod expectations;
mod kinds;
pub mod laws;
pub mod lexer;
pub mod messages;
mod operators;
mod pieces;
mod scanning;
pub mod sequence;
pub mod show;
pub mod tokens;
pub mod values;
pub mod words;

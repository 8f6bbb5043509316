//! The texts that expressions print as.
mod bounded;
pub(crate) mod expressions;

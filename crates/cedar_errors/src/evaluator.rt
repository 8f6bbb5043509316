//! Evaluation, as far as its errors go.

pub mod err;

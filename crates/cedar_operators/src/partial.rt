//! What operators answer to parts, which are values or residuals: to values what the modules beside this one answer,
//! and else a residual with the operator around it. One public function for each rule, for an evaluator that finds the
//! parts.

pub mod attributes;
pub mod binary;
pub mod connectives;
mod residuals;
mod shapes;
pub mod unary;

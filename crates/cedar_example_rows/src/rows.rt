//! The built-in rows.
use cedar_authorizer::authorizer::{ErrorHandling, Resolution};

/// A built-in row.
#[derive(Debug, Clone, Copy, PartialEq, Eq)]
pub enum Row {
    /// No policies.
    Empty,
    /// 1 permits all, 2 permits when `context.bad == 2`; the context has no `bad`.
    Skip2,
    /// The same, and 3 forbids when `context.bad == 2`.
    Skip3,
    /// The same, and 4 forbids all.
    Skip4,
    /// 0 permits all, 1 forbids when `context.test`, which is not known.
    Residual,
    /// 1 permits all, 2 forbids when `unknown("test")`; a step says that it is false.
    StepFalse,
    /// The same; a step says that it is true.
    StepTrue,
    /// 1 permits when `false`, 2 forbids when `unknown("a")`; there is no step.
    Early,
    /// policy0 permits when `principal == NS::"a" && resource == NS::"b"`, policy1 forbids when
    /// `context.c && context.d == 10`. The principal is `NS::"a"`, and nothing else is known. The first step says that
    /// the resource is `NS::"b"`, the second that `c` is true and `d` is 10.
    Chain,
    /// 1 permits when `unknown("x") && (1 + "a")`; a step says that `x` is true.
    Kept,
    /// 1 permits when `unknown("r")`; a step says that it is 1.
    NonBool,
    /// 1 permits when `even(context.n)`, and `n` is not known; a step says that it is 4.
    Stored,
    /// As `Skip3`, where a forbid that errs forbids.
    Strict3,
    /// As `Residual`, where a forbid that errs forbids.
    StrictResidual,
    /// 1 permits when `principal.g.contains(1)`; the principal is not known, and `E::"e"` stores `g` as
    /// `[unknown("u")]`. A step says that the principal is `E::"e"` and `u` is 1. Stored residuals are evaluated.
    Deep,
}

/// All rows, in the order in which they are printed.
pub const ROWS: [Row; 15] = [
    Row::Empty,
    Row::Skip2,
    Row::Skip3,
    Row::Skip4,
    Row::Residual,
    Row::StepFalse,
    Row::StepTrue,
    Row::Early,
    Row::Chain,
    Row::Kept,
    Row::NonBool,
    Row::Stored,
    Row::Strict3,
    Row::StrictResidual,
    Row::Deep,
];

impl Row {
    /// The name of the row.
    pub fn name(self) -> &'static str {
        match self {
            Row::Empty => "empty",
            Row::Skip2 => "skip2",
            Row::Skip3 => "skip3",
            Row::Skip4 => "skip4",
            Row::Residual => "residual",
            Row::StepFalse => "step-false",
            Row::StepTrue => "step-true",
            Row::Early => "early",
            Row::Chain => "chain",
            Row::Kept => "kept",
            Row::NonBool => "nonbool",
            Row::Stored => "stored",
            Row::Strict3 => "strict3",
            Row::StrictResidual => "strict-residual",
            Row::Deep => "deep",
        }
    }

    /// How the row's policies are decided where one errs.
    pub fn error_handling(self) -> ErrorHandling {
        match self {
            Row::Empty => ErrorHandling::Skip,
            Row::Skip2 => ErrorHandling::Skip,
            Row::Skip3 => ErrorHandling::Skip,
            Row::Skip4 => ErrorHandling::Skip,
            Row::Residual => ErrorHandling::Skip,
            Row::StepFalse => ErrorHandling::Skip,
            Row::StepTrue => ErrorHandling::Skip,
            Row::Early => ErrorHandling::Skip,
            Row::Chain => ErrorHandling::Skip,
            Row::Kept => ErrorHandling::Skip,
            Row::NonBool => ErrorHandling::Skip,
            Row::Stored => ErrorHandling::Skip,
            Row::Strict3 => ErrorHandling::ForbidOnError,
            Row::StrictResidual => ErrorHandling::ForbidOnError,
            Row::Deep => ErrorHandling::Skip,
        }
    }

    /// What reading a stored residual answers where the row's policies are decided.
    pub fn resolution(self) -> Resolution {
        match self {
            Row::Empty => Resolution::Shallow,
            Row::Skip2 => Resolution::Shallow,
            Row::Skip3 => Resolution::Shallow,
            Row::Skip4 => Resolution::Shallow,
            Row::Residual => Resolution::Shallow,
            Row::StepFalse => Resolution::Shallow,
            Row::StepTrue => Resolution::Shallow,
            Row::Early => Resolution::Shallow,
            Row::Chain => Resolution::Shallow,
            Row::Kept => Resolution::Shallow,
            Row::NonBool => Resolution::Shallow,
            Row::Stored => Resolution::Shallow,
            Row::Strict3 => Resolution::Shallow,
            Row::StrictResidual => Resolution::Shallow,
            Row::Deep => Resolution::Deep,
        }
    }
}

/// The row of this name.
pub fn row_named(name: &str) -> Option<Row> {
    for row in ROWS {
        if row.name() == name {
            return Some(row);
        }
    }
    None
}

//! What is reported of a policy.

/// What is reported of a policy, without what is left of it.
#[derive(Clone, Copy)]
pub enum Report {
    /// It is satisfied.
    Satisfied,
    /// It is not satisfied.
    Unsatisfied,
    /// It erred.
    Erring,
    /// A residual is left of it.
    Residual,
}

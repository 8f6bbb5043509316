//! What a row tells of a condition: a truth, an error, or nothing.

/// Why a condition errs.
#[derive(Clone, Copy, Debug, PartialEq, Eq)]
pub enum RowError {
    /// The row has no attribute of this name.
    AttributeDoesNotExist,
    /// A record in the row has no such key.
    KeyDoesNotExist,
    /// A value is of another type than its operator needs.
    TypeError,
}

/// What a row tells of a condition.
#[derive(Clone, Copy, Debug, PartialEq, Eq)]
pub enum Truth {
    /// The condition is true.
    Holds,
    /// The condition is false.
    Fails,
    /// The condition errs: its policy is not satisfied.
    Errs(RowError),
    /// The row alone does not tell: the condition reads another entity, or what is not known of the row.
    Untold,
}

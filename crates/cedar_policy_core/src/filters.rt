//! Expressions without what is known in them, expressions as conditions on rows, and what a whole partial response tells of
//! each row.
pub use cedar_filter::{
    Comparison, Condition, Filter, NoFilter, Operand, RowError, Truth, simplified,
};
pub use cedar_plan::{NoPlan, Plan, PlannedPolicies, RowCondition, RowPolicy};

/// Worlds that have a row, and decisions that are told of rows. Each function is a law, and does nothing.
pub mod laws {
    pub use cedar_filter::laws::{rows_have_worlds, stored_rows_are_rows};
    pub use cedar_plan::laws::decisions_are_of_requests;
}

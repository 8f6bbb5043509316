//! Expressions and values: names, literals, the kinds of expression, values and partial values, and their laws.
pub use cedar_expressions::{AsExpression, Expr, ExprKind, ExpressionConstructionError};
pub use cedar_names::{
    BinaryOp, BoundedDisplay, CallStyle, EntityType, EntityUID, FirstRest, Literal, Loc, Name,
    Pattern, PatternElem, SlotEnv, SlotId, Type, UnaryOp, Unknown, Var,
    entities_that_print_alike_are_one,
};
pub use cedar_values::{
    ExtensionValue, PartialValue, Representation, ResidualExpr, Set, Value, ValueKind,
};

/// When names, leaves and expressions are equal. Each function is a law, and does nothing.
pub mod laws {
    pub use cedar_expressions::laws::expressions_are_equal_by_term;
    pub use cedar_names::laws::{leaves_are_equal_by_view, names_are_equal_by_text};
}

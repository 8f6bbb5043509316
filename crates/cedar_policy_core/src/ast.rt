//! Names, expressions, values, policies, entities, requests, restricted expressions and extension functions; and which
//! unknowns are left in an expression, a request or a response.
pub use cedar_evaluator::request::{
    Context, ContextCreationError, EntityUIDEntry, IntoIter, Request, RequestType,
    context_creation_errors,
};
pub use cedar_extensions::{
    Extension, ExtensionFunction, ExtensionFunctionObject, ExtensionOutputValue,
};
pub use cedar_layers::expressions::{
    AsExpression, BinaryOp, BoundedDisplay, CallStyle, EntityType, EntityUID, Expr, ExprKind,
    ExpressionConstructionError, ExtensionValue, FirstRest, Literal, Name, PartialValue, Pattern,
    PatternElem, Representation, ResidualExpr, Set, SlotEnv, SlotId, Type, UnaryOp, Unknown, Value,
    ValueKind, Var, entities_that_print_alike_are_one,
};
pub use cedar_layers::policies::{
    Annotations, Effect, Entity, Policies, Policy, PolicyID, PolicySet, PolicySetError,
};
pub use cedar_restricted::{
    BorrowedRestrictedExpr, CallArguments, PartialValueToRestrictedExprError, RecordPairs,
    RestrictedExpr, RestrictedExprShapeOnly, RestrictedExpressionError, SetElements,
    restricted_expr_errors,
};
pub use cedar_unknowns::Unknowns;

/// What holds of names, leaves, expressions, values, contexts, stores, maps of values, listed unknowns, and policies by
/// their scopes. Each function is a law, and does nothing.
pub mod laws {
    pub use cedar_faithful::faithful_read::{
        evaluated_values_are_faithful, made_contexts_are_faithful,
    };
    pub use cedar_faithful::given::{
        contexts_are_faithful, faithful_values_make_faithful_parts, mapped_values_are_faithful,
        maps_keep_faithful_values, requests_are_faithful,
    };
    pub use cedar_faithful::read::made_contexts_hold_none;
    pub use cedar_laws::faithful::{
        given_without_extensions_is_faithful, records_hold_no_extensions,
        restricted_expressions_hold_no_extensions, values_without_extensions_are_faithful,
    };
    pub use cedar_laws::index::{
        policies_looked_at_are_bounded, policies_within_reach_are_fewer,
        reached_policies_are_bounded, reached_policies_are_within_reach,
    };
    pub use cedar_layers::expressions::laws::{
        expressions_are_equal_by_term, leaves_are_equal_by_view, names_are_equal_by_text,
    };
    pub use cedar_layers::laws::{mapped_values_are_sound, stores_are_sound};
    pub use cedar_unknowns::laws::{
        entities_have_their_unknowns, listed_names_are_all, missing_entity_is_itself,
        unknowns_are_listed_once, waiting_responses_are_named,
    };
}

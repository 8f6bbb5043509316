//! Policies and expressions in code, as they read.
pub use cedar_builder::{
    ExprBuilder, FieldBuilder, PolicyBuilder, action, boolean, call, context, entity, expr, field,
    forbid, if_then_else, long, permit, principal, record, resource, set, slot, text, uid, unknown,
    unknown_with_type,
};

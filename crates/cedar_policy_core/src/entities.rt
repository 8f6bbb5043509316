//! Stores of entities: of entities that record all their ancestors, and of those that record their parents alone.
pub use cedar_hierarchy::{
    ClosureError, PartialClosure, close_hierarchy, close_hierarchy_partially,
};
pub use cedar_layers::policies::{Dereference, Entities};

/// What holds of stores, of entities that come later, and of what is read from JSON. Each function is a law, and does
/// nothing.
pub mod laws {
    pub use cedar_faithful::faithful_read::{
        read_contexts_are_faithful, read_entities_are_faithful, read_requests_are_faithful,
    };
    pub use cedar_faithful::given::{
        stores_are_faithful, stores_hold_what_entities_hold, stores_keep_faithful_entities,
    };
    pub use cedar_faithful::read::{
        read_contexts_hold_none, read_entities_hold_none, read_requests_hold_none,
    };
    pub use cedar_hierarchy::laws::ancestors_stay;
}

/// Values, contexts, entities and requests of Cedar's JSON, and values, restricted expressions and contexts in it.
pub mod json {
    pub use cedar_json_reader::{
        JsonError, JsonPath, PathStep, RefusalReason, StatedEntity, context_from_json_str,
        entities_from_json_str, evaluated_entities, known_context_from_json_str,
        known_entities_from_json_str, known_request_from_json_str, request_from_json_str,
        restricted_expr_from_json_str, restricted_expr_from_json_value,
        stated_entities_from_json_str,
    };
    pub use cedar_json_writer::{
        JsonValue, context_to_json, expr_to_json, put_item, put_member, record_to_json,
        text_to_json, value_to_json,
    };
}

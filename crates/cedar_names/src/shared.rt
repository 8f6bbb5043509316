//! What the crates above share with this one, and their users need not know: equality and hashes of leaves, the names
//! of variables, and the pieces of texts.
pub use crate::leaf_equality::{
    same_annotation, same_binary, same_literal, same_name, same_pattern, same_slot, same_text,
    same_texts, same_type, same_unary, same_variable,
};
pub use crate::leaf_hashing::{
    feed_annotation, feed_binary, feed_literal, feed_name, feed_pattern, feed_slot, feed_text,
    feed_texts, feed_type, feed_unary, feed_variable,
};
pub use crate::names::texts::variable_text;
pub use crate::texts::lists::{is_spent, one_less, separator, write_more};
pub use crate::texts::literals::write_literal;
pub use crate::texts::pieces::{
    after_part, before_part, between_parts, is_infix, is_prefix, write_attribute,
    write_extended_has, write_has, write_is, write_like, write_unknown,
};
pub use crate::texts::write_quoted;

//! What is in a value.
use cedar_policy_core::ast::{EntityUID, Literal, PartialValue, Value, ValueKind};

/// The value of an attribute or a tag, if there is one and it is known.
pub fn known(part: Option<&PartialValue>) -> Option<&Value> {
    match part {
        Some(PartialValue::Value(value)) => Some(value),
        Some(PartialValue::Residual(_)) => None,
        None => None,
    }
}

/// The literal that the value is, if it is one.
pub fn as_literal(value: &Value) -> Option<&Literal> {
    match value.value_kind() {
        ValueKind::Lit(literal) => Some(literal),
        ValueKind::Set(_) => None,
        ValueKind::Record(_) => None,
        ValueKind::ExtensionValue(_) => None,
    }
}

/// The boolean that the value is, if it is one.
pub fn as_bool(value: &Value) -> Option<bool> {
    match as_literal(value) {
        Some(Literal::Bool(b)) => Some(*b),
        Some(Literal::Long(_)) => None,
        Some(Literal::String(_)) => None,
        Some(Literal::EntityUID(_)) => None,
        None => None,
    }
}

/// The long that the value is, if it is one.
pub fn as_long(value: &Value) -> Option<i64> {
    match as_literal(value) {
        Some(Literal::Long(number)) => Some(*number),
        Some(Literal::Bool(_)) => None,
        Some(Literal::String(_)) => None,
        Some(Literal::EntityUID(_)) => None,
        None => None,
    }
}

/// The text that the value is, if it is one.
pub fn as_text(value: &Value) -> Option<&str> {
    match as_literal(value) {
        Some(Literal::String(text)) => Some(text.as_str()),
        Some(Literal::Bool(_)) => None,
        Some(Literal::Long(_)) => None,
        Some(Literal::EntityUID(_)) => None,
        None => None,
    }
}

/// The entity that the value names, if it names one.
pub fn as_entity(value: &Value) -> Option<&EntityUID> {
    match as_literal(value) {
        Some(Literal::EntityUID(uid)) => Some(uid.as_ref()),
        Some(Literal::Bool(_)) => None,
        Some(Literal::Long(_)) => None,
        Some(Literal::String(_)) => None,
        None => None,
    }
}

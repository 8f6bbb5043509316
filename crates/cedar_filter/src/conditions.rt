//! Conditions on one row, as trees of their own.
use cedar_names::{EntityType, EntityUID, Pattern};
use cedar_values::Value;
use std::rc::{Rc, RcStr};

/// What a condition compares: a literal, or what is read of the row.
#[derive(Drop)]
pub enum Operand {
    /// A literal. Of another value a row tells nothing.
    Known(Value),
    /// The row itself.
    Row,
    /// The attribute of this name: of the row, or of a record in it.
    Attribute(Box<Operand>, RcStr),
}

/// How a condition compares two operands.
#[derive(Clone, Copy, Drop)]
pub enum Comparison {
    /// `==`
    Equal,
    /// `<`
    Less,
    /// `<=`
    LessEq,
}

/// A condition on one row.
#[derive(Drop)]
pub enum Condition {
    /// `true` or `false`.
    Known(bool),
    /// `&&`: the second is asked only where the first is true.
    And(Box<Condition>, Box<Condition>),
    /// `||`: the second is asked only where the first is false.
    Or(Box<Condition>, Box<Condition>),
    /// `!`
    Not(Box<Condition>),
    /// `if` the first `then` the second `else` the third.
    If(Box<Condition>, Box<Condition>, Box<Condition>),
    /// That the attribute of this name is `true`, of the row or of a record in it.
    Holds(Operand),
    /// A comparison of the first with the second.
    Compare(Comparison, Operand, Operand),
    /// That the row is this entity, or in it.
    In(Operand, Rc<EntityUID>),
    /// That the row, or a record in it, has the attribute of this name.
    Has(Operand, RcStr),
    /// That the text is like the pattern.
    Like(Operand, Pattern),
    /// That the entity is of this type.
    Is(Operand, EntityType),
    /// That the set has this literal. Of another value a row tells nothing.
    Contains(Operand, Value),
}

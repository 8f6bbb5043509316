//! The operators of expressions.

/// An operator on one value.
#[derive(Clone, Copy, Debug, PartialEq, Eq, Hash)]
pub enum UnaryOp {
    /// `!`, of a boolean.
    Not,
    /// `-`, of a long.
    Neg,
    /// `.isEmpty()`, of a set.
    IsEmpty,
}

/// An operator on two values.
#[derive(Clone, Copy, Debug, PartialEq, Eq, Hash)]
pub enum BinaryOp {
    /// `==`, of any two values.
    Eq,
    /// `<`, of two longs or of two extension values of one overloaded type.
    Less,
    /// `<=`, of the same.
    LessEq,
    /// `+`, of two longs.
    Add,
    /// `-`, of two longs.
    Sub,
    /// `*`, of two longs.
    Mul,
    /// `in`, of an entity and an entity or a set of entities.
    In,
    /// `.contains(..)`, of a set and any value.
    Contains,
    /// `.containsAll(..)`, of two sets.
    ContainsAll,
    /// `.containsAny(..)`, of two sets.
    ContainsAny,
    /// `.getTag(..)`, of an entity and a text.
    GetTag,
    /// `.hasTag(..)`, of an entity and a text.
    HasTag,
}

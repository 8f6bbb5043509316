//! The steps that write an expression down, each behind those of its parts, as a calculator with a stack takes them.
//!
//! A step names tokens by their numbers; `from` and `to` say from which token a name stands up to, but not including,
//! which.

/// A sign before a part.
#[derive(Clone, Copy)]
pub enum Sign {
    /// `!`
    Not,
    /// `-`
    Neg,
}

/// A part that has no parts.
#[derive(Clone, Copy)]
pub enum Leaf {
    /// `true` or `false`.
    Bool(bool),
    /// The number of this token.
    Long(usize),
    /// The number of this token, with a minus.
    NegativeLong(usize),
    /// The text of this token.
    Text(usize),
    /// The variable that this token names.
    Variable(usize),
    /// The entity whose type is named from the one token up to the `::` before the other, which is its id.
    Entity(usize, usize),
    /// The slot that this token names: in the scope of a policy alone, and in no expression.
    Slot(usize),
}

/// What is made of one part.
#[derive(Clone, Copy)]
pub enum Unary {
    /// The part with a sign before it.
    Sign(Sign),
    /// The attribute that this token names, an identifier or a text.
    Attribute(usize),
    /// `has` of the attributes from the one token up to the other: each second token names one.
    Has(usize, usize),
    /// `like` the pattern of this token.
    Like(usize),
    /// `is` of the type that is named from the one token up to the other.
    Is(usize, usize),
}

/// What is made of two parts.
#[derive(Clone, Copy)]
pub enum Binary {
    Or,
    And,
    Equal,
    Less,
    LessEqual,
    In,
    Add,
    Sub,
    Mul,
    /// `is` of the type that is named from the one token up to the other, and `in` the second part. It stands for three
    /// nodes, the first of which takes the first part again: `a is T && a in b`.
    IsIn(usize, usize),
}

/// What is made of the parts in brackets.
#[derive(Clone, Copy)]
pub enum Bracketed {
    /// A set of the parts.
    Set,
    /// A record of the fields. Whether a key is a duplicate isn't looked at.
    Record,
    /// A call of the function that is named from the one token up to the other.
    Call(usize, usize),
    /// A call of the method that this token names; the first part is the receiver.
    Method(usize),
}

/// What a step makes of the last parts.
#[derive(Clone, Copy)]
pub enum What {
    Leaf(Leaf),
    Unary(Unary),
    Binary(Binary),
    /// `if`, of three parts.
    If,
    /// The field of a record whose key this token names, an identifier or a text.
    Field(usize),
    /// What is made of so many parts in brackets.
    Bracketed(Bracketed, usize),
}

/// A step: what it makes, and the bytes from which and up to which that stands.
#[derive(Clone, Copy)]
pub struct Step {
    pub what: What,
    pub start: usize,
    pub end: usize,
}

//! Operators and levels: the lower a level, the closer what it makes holds together.
ghost use Rattle.std.specs.Prelude.{◌≡◌};
ghost use Rattle.cedar_text_syntax.specs.Grammar as Grammar;
ghost use Rattle.cedar_text_syntax.specs.Levels as Levels;

use crate::frames::Wait;
use crate::steps::{Binary, Sign};

/// A number that stands alone.
pub const NUMBER: u8 = 0;

/// What needs no brackets anywhere.
pub const MEMBER: u8 = 1;

/// A part with signs before it.
pub const UNARY: u8 = 2;

/// What `+` and `-` make.
pub const SUM: u8 = 4;

/// What relations make, `has`, `like` and `is` among them.
pub const RELATION: u8 = 5;

/// What `if` makes.
pub const CONDITIONAL: u8 = 8;

/// All expressions are below this level.
pub const WHOLE: u8 = 9;

/// An operator between two parts.
#[derive(Clone, Copy)]
pub enum Operator {
    Or,
    And,
    Equal,
    NotEqual,
    Less,
    LessEqual,
    Greater,
    GreaterEqual,
    In,
    Add,
    Sub,
    Mul,
}

/// The level of what the operator makes.
pub fn level(operator: Operator) -> u8
    ensures { result ≡ Levels.level_of operator }
{
    match operator {
        Operator::Mul => 3,
        Operator::Add | Operator::Sub => 4,
        Operator::Equal
        | Operator::NotEqual
        | Operator::Less
        | Operator::LessEqual
        | Operator::Greater
        | Operator::GreaterEqual
        | Operator::In => 5,
        Operator::And => 6,
        Operator::Or => 7,
    }
}

/// The highest level that the operator takes on its left: a relation takes no relation.
pub fn left_level(operator: Operator) -> u8
    ensures { result ≡ Levels.left_level_of operator }
{
    match operator {
        Operator::Mul => 3,
        Operator::Add | Operator::Sub => 4,
        Operator::Equal
        | Operator::NotEqual
        | Operator::Less
        | Operator::LessEqual
        | Operator::Greater
        | Operator::GreaterEqual
        | Operator::In => 4,
        Operator::And => 6,
        Operator::Or => 7,
    }
}

/// What the operator makes of its two parts, but for the negation.
pub fn binary(operator: Operator) -> Binary
    ensures { result ≡ Grammar.binary_of operator }
{
    match operator {
        Operator::Or => Binary::Or,
        Operator::And => Binary::And,
        Operator::Equal | Operator::NotEqual => Binary::Equal,
        Operator::Less | Operator::GreaterEqual => Binary::Less,
        Operator::LessEqual | Operator::Greater => Binary::LessEqual,
        Operator::In => Binary::In,
        Operator::Add => Binary::Add,
        Operator::Sub => Binary::Sub,
        Operator::Mul => Binary::Mul,
    }
}

/// Whether what the operator makes of its two parts is then negated.
pub fn is_negated(operator: Operator) -> bool
    ensures { result ≡ Grammar.is_negated operator }
{
    match operator {
        Operator::NotEqual | Operator::Greater | Operator::GreaterEqual => true,
        Operator::Or
        | Operator::And
        | Operator::Equal
        | Operator::Less
        | Operator::LessEqual
        | Operator::In
        | Operator::Add
        | Operator::Sub
        | Operator::Mul => false,
    }
}

/// The lowest level that the sign takes: a minus before a number that stands alone is the number's own.
pub fn lowest(sign: Sign) -> u8
    ensures { result ≡ Levels.lowest_of sign }
{
    match sign {
        Sign::Not => 0,
        Sign::Neg => 1,
    }
}

/// The level below which the part is that is waited for.
pub fn awaited(wait: Wait) -> u8
    ensures { result ≡ Levels.awaited_of wait }
{
    match wait {
        Wait::Infix(operator) => level(operator),
        Wait::Signs(_, _) => 2,
        Wait::IsIn(_, _) => 5,
        Wait::Paren => 9,
        Wait::Clause(_) => 9,
        Wait::Item(_, _) => 9,
        Wait::Field(_, _) => 9,
        Wait::If => 9,
        Wait::Then => 9,
        Wait::Else => 9,
    }
}

/// The level of what a frame waits to make, or that of brackets.
pub fn frame_level(wait: Wait) -> u8
    ensures { result ≡ Levels.frame_level_of wait }
{
    match wait {
        Wait::Infix(operator) => level(operator),
        Wait::Signs(_, _) => 2,
        Wait::IsIn(_, _) => 5,
        Wait::Else => 8,
        Wait::Paren => 9,
        Wait::Clause(_) => 9,
        Wait::Item(_, _) => 9,
        Wait::Field(_, _) => 9,
        Wait::If => 9,
        Wait::Then => 9,
    }
}

//! Frames: an expression that waits for the answer of a part, and what is to be done with it.
use crate::boxed_residual::BoxedResidual;
use crate::stopped::Stopped;
use cedar_expressions::Expr;
use cedar_frames::Transition;
use cedar_names::{BinaryOp, EntityType, FirstRest, Pattern, UnaryOp};
use cedar_operators::partial::connectives::Connective;
use cedar_restricted::PartsFrame;
use cedar_values::{PartialValue, ResidualExpr};
use std::rc::{Rc, RcStr};

/// What is evaluated: an expression that others may hold too.
pub type SharedExpr = Rc<Expr>;

/// An expression that waits for the answer of a part, and what is to be done with it.
#[derive(Drop)]
pub struct Frame {
    pub(crate) whole: Rc<Expr>,
    pub(crate) task: Task,
}

/// What is to be done with the answer of a part.
#[derive(Drop)]
pub enum Task {
    /// It is one of the parts of a set, a record or a call.
    Parts(Box<PartsFrame>),
    /// It is a part of another expression.
    Other(Pending),
}

/// What is to be done with the answer of a part, in an expression that is neither a set nor a record nor a call.
#[derive(Drop)]
pub enum Pending {
    /// It is the answer.
    Passed,
    /// It is the guard of an `if` with these branches.
    Guard {
        then_expr: Rc<Expr>,
        else_expr: Rc<Expr>,
    },
    /// It is that of the first branch beside a residual guard.
    Then(Box<FirstBranch>),
    /// It is that of the second branch beside a residual guard, after what is kept of the first.
    Else(Box<SecondBranch>),
    /// It is the left side of `&&` or `||`.
    LeftSide {
        connective: Connective,
        right: Rc<Expr>,
    },
    /// It is the right side of `true && ..` or `false || ..`.
    RightSide(Connective),
    /// It is the right side of `&&` or `||` beside a residual left side.
    KeptRightSide {
        connective: Connective,
        left: BoxedResidual,
        right: Rc<Expr>,
    },
    /// It is the operand of this operator.
    Unary(UnaryOp),
    /// It is the left operand of this operator.
    BinaryLeft {
        op: BinaryOp,
        right: Rc<Expr>,
    },
    /// It is the right operand of this operator, after this left one.
    BinaryRight {
        op: BinaryOp,
        left: Box<PartialValue>,
    },
    /// It has the attribute.
    GetAttr(RcStr),
    /// It is tested for the attribute.
    HasAttr(RcStr),
    /// It is tested for the attributes, one in the other.
    ExtHasAttr(Rc<FirstRest<RcStr>>),
    /// It is matched against the pattern.
    Like(Box<Pattern>),
    /// It is tested for the entity type.
    Is(Box<EntityType>),
}

/// A residual guard, and both branches, of which the first is waited for.
#[derive(Drop)]
pub struct FirstBranch {
    pub(crate) guard: ResidualExpr,
    pub(crate) then_expr: Rc<Expr>,
    pub(crate) else_expr: Rc<Expr>,
}

/// A residual guard, what is kept of the first branch, and the second, which is waited for.
#[derive(Drop)]
pub struct SecondBranch {
    pub(crate) guard: ResidualExpr,
    pub(crate) then_expr: Expr,
    pub(crate) else_expr: Rc<Expr>,
}

/// What an evaluation ends with.
pub type Ending = Result<Box<PartialValue>, Stopped>;

/// What comes next of an expression: its answer, or the part that it waits for.
pub type Next = Transition<Frame, SharedExpr, Ending>;

//! What a scope says of its variable, as parts of a constraint.
use cedar_expressions::Expr;
use cedar_names::{EntityType, EntityUID, SlotId};

/// What stands beside `==` and `in`: an entity, also one that a slot is linked to, or a slot that is not linked.
#[derive(Clone, Copy)]
pub(crate) enum Place<'a> {
    Entity(&'a EntityUID),
    Slot(SlotId),
}

/// What a scope says of its variable.
#[derive(Clone, Copy)]
pub(crate) enum Scope<'a> {
    /// Nothing.
    Any,
    /// `== E`
    Equal(Place<'a>),
    /// `in E`
    In(Place<'a>),
    /// `in [E, ..]`
    InAny(&'a [Expr]),
    /// `is T`
    Is(&'a EntityType),
    /// `is T in E`
    IsIn(&'a EntityType, Place<'a>),
}

#![tactic(auto, using(crate::proofs::Building::building))]
//! Expressions in the making.
ghost use Rattle.std.specs.Prelude.{◌≡◌, Some, Ok};
ghost use Rattle.cedar_expressions.specs.View.{view};
ghost use Rattle.cedar_builder.specs.Building.{term_of, term_in, expression_of};

mod leaves;
mod lists;
mod operators;
mod patterns;

use cedar_expressions::Expr;
pub use leaves::{
    action, boolean, context, entity, long, principal, resource, slot, text, uid, unknown,
    unknown_with_type,
};
pub use lists::{FieldBuilder, call, field, record, set};
pub use operators::if_then_else;
use std::alloc::{AllocError, Global};
use std::marker::Model;

/// An expression in the making: what was said so far, or that memory ran out on the way.
#[derive(Drop)]
pub struct ExprBuilder {
    pub(crate) alloc: Global,
    pub(crate) built: Result<Expr, AllocError>,
}

impl Model for ExprBuilder {
    ghost use Rattle.std.specs.Coded.{codes};
    ghost use Rattle.cedar_expressions.specs.contracts.expr.Expr as expressions;
    ghost use Rattle.cedar_builder.specs.Fields.{ExprFields};

    ghost Value = { ExprFields };

    ghost coded = { Prim.hlevel (codes, expressions.the_row.coded) };

    ghost view = { λ a. record { built = a.built } };
}

/// This expression, as it is: it and its parts stand where they stood. It takes no memory.
pub fn expr(alloc: Global, expr: Expr) -> ExprBuilder
    ensures term { term_of result ≡ Some (view expr) }
    ensures whole { expression_of result ≡ Ok expr }
{
    ExprBuilder {
        alloc,
        built: Ok(expr),
    }
}

impl ExprBuilder {
    /// The expression that was said. One that was handed in (`expr`) comes back as it was handed in, and with it the
    /// places of its parts. Refuses only if memory ran out on the way.
    pub fn expr(self) -> Result<Expr, AllocError>
        ensures term { term_in result ≡ term_of self }
        ensures whole { result ≡ expression_of self }
    {
        let ExprBuilder { alloc: _, built } = self;
        built
    }
}

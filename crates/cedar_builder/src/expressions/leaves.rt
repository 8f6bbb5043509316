#![tactic(auto, using(crate::proofs::Building::building))]
//! Expressions without parts: variables, literals, unknowns.
ghost use Rattle.std.specs.Prelude.{◌≡◌, IfOk, None, Some};
ghost use Rattle.cedar_model.specs.Terms.{variable, principal, action, resource, context, literal, slot, unknown};
ghost use Rattle.cedar_model.specs.Terms.{bool_literal, long_literal, text_literal, entity_literal};
ghost use Rattle.cedar_names.specs.Leaves.{slot_view, type_view};
ghost use Rattle.cedar_names.specs.Names.{uid_name};
ghost use Rattle.cedar_expressions.specs.View.{view};
ghost use Rattle.cedar_builder.specs.Building.{term_of, Builds, Makes};

use super::{ExprBuilder, expr};
use cedar_expressions::Expr;
use cedar_names::{EntityUID, Literal, SlotId, Type, Unknown, Var};
use std::alloc::{AllocError, Global};
use std::rc::RcStr;

/// `principal`. It takes no memory.
pub fn principal(alloc: Global) -> ExprBuilder
    ensures { term_of result ≡ Some (variable principal) }
{
    expr(alloc, Expr::var(Var::Principal))
}

/// `action`. It takes no memory.
pub fn action(alloc: Global) -> ExprBuilder
    ensures { term_of result ≡ Some (variable action) }
{
    expr(alloc, Expr::var(Var::Action))
}

/// `resource`. It takes no memory.
pub fn resource(alloc: Global) -> ExprBuilder
    ensures { term_of result ≡ Some (variable resource) }
{
    expr(alloc, Expr::var(Var::Resource))
}

/// `context`. It takes no memory.
pub fn context(alloc: Global) -> ExprBuilder
    ensures { term_of result ≡ Some (variable context) }
{
    expr(alloc, Expr::var(Var::Context))
}

/// `?principal` or `?resource`, which stands in the scope of a template. It takes no memory.
pub fn slot(alloc: Global, slot_id: SlotId) -> ExprBuilder
    ensures { term_of result ≡ Some (slot (slot_view slot_id)) }
{
    expr(alloc, Expr::slot(slot_id))
}

/// `true` or `false`. It takes no memory.
pub fn boolean(alloc: Global, value: bool) -> ExprBuilder
    ensures { term_of result ≡ Some (literal (bool_literal value)) }
{
    expr(alloc, Expr::val(Literal::Bool(value)))
}

/// A whole number of 64 bits. It takes no memory.
pub fn long(alloc: Global, value: i64) -> ExprBuilder
    ensures { term_of result ≡ Some (literal (long_literal value)) }
{
    expr(alloc, Expr::val(Literal::Long(value)))
}

/// The literal of this text, whose characters all stand for themselves.
pub fn text(alloc: Global, text: &str) -> ExprBuilder
    ensures { Builds result (Some (literal (text_literal text.now))) }
{
    ExprBuilder {
        alloc,
        built: Expr::text(alloc, text),
    }
}

/// The literal that names the entity of this type with this id: `entity(alloc, "User", "alice")` is `User::"alice"`.
/// Both are taken as they stand, unchecked.
pub fn entity(alloc: Global, ty: &str, id: &str) -> ExprBuilder
    ensures { Builds result (Some (literal (entity_literal (record { type_name = ty.now; id = id.now })))) }
{
    ExprBuilder {
        alloc,
        built: entity_literal(alloc, ty, id),
    }
}

fn entity_literal(alloc: Global, ty: &str, id: &str) -> Result<Expr, AllocError>
    ensures { Makes result (Some (literal (entity_literal (record { type_name = ty.now; id = id.now })))) }
{
    let uid = EntityUID::of(alloc, ty, id)?;
    let literal = Expr::entity(alloc, uid)?;
    Ok(literal)
}

/// The literal that names this entity.
pub fn uid(alloc: Global, uid: EntityUID) -> ExprBuilder
    ensures { Builds result (Some (literal (entity_literal (uid_name uid)))) }
{
    ExprBuilder {
        alloc,
        built: Expr::entity(alloc, uid),
    }
}

/// The unknown of this name, of any type.
pub fn unknown(alloc: Global, name: &str) -> ExprBuilder
    ensures { Builds result (Some (unknown name.now None)) }
{
    ExprBuilder {
        alloc,
        built: make_untyped_unknown(alloc, name),
    }
}

fn make_untyped_unknown(alloc: Global, name: &str) -> Result<Expr, AllocError>
    ensures { Makes result (Some (unknown name.now None)) }
{
    let name = RcStr::from_str(alloc, name)?;
    Ok(Expr::unknown(Unknown::new_untyped(name)))
}

/// The unknown of this name, which stands for values of this type alone.
pub fn unknown_with_type(alloc: Global, name: &str, ty: Type) -> ExprBuilder
    ensures { Builds result (Some (unknown name.now (Some (type_view ty)))) }
{
    ExprBuilder {
        alloc,
        built: make_typed_unknown(alloc, name, ty),
    }
}

fn make_typed_unknown(alloc: Global, name: &str, ty: Type) -> Result<Expr, AllocError>
    ensures { Makes result (Some (unknown name.now (Some (type_view ty)))) }
{
    match RcStr::from_str(alloc, name) {
        Ok(name) => Ok(Expr::unknown(Unknown::new_with_type(name, ty))),
        Err(error) => {
            drop(ty);
            Err(error)
        }
    }
}

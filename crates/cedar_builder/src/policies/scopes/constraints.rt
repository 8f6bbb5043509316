#![tactic(auto, using(crate::proofs::Building::building))]
//! The constraints that a scope can have.
ghost use Rattle.std.specs.Prelude.{◌≡◌, IfOk, Some, option_map};
ghost use Rattle.cedar_model.specs.Terms.{binary, variable, is_of_type, in_operator};
ghost use Rattle.cedar_names.specs.Leaves.{variable_view, binary_view};
ghost use Rattle.cedar_builder.specs.Building.{term_in, is_of_type_in, Makes};

use cedar_expressions::Expr;
use cedar_fallible::pair_of;
use cedar_names::{BinaryOp, EntityType, Name, Var};
use std::alloc::{AllocError, Global};
use std::rc::RcStr;

/// The operator on the variable and another part.
pub(crate) fn compare_variable(
    alloc: Global,
    var: Var,
    op: BinaryOp,
    other: Result<Expr, AllocError>,
) -> Result<Expr, AllocError>
    ensures { Makes result (option_map (binary (binary_view op) (variable (variable_view var))) (term_in other)) }
{
    let other = other?;
    let made = Expr::binary_app(alloc, op, Expr::var(var), other)?;
    Ok(made)
}

/// That the variable is of this type.
pub(crate) fn test_variable_type(alloc: Global, var: Var, ty: &str) -> Result<Expr, AllocError>
    ensures { Makes result (Some (is_of_type (variable (variable_view var)) ty.now)) }
{
    let name = RcStr::from_str(alloc, ty)?;
    let ty = EntityType::new(Name::new(name, None));
    let made = Expr::is_entity_type(alloc, Expr::var(var), ty)?;
    Ok(made)
}

/// That it is of this type and in another part.
pub(crate) fn typed_in(
    alloc: Global,
    var: Var,
    ty: &str,
    other: Result<Expr, AllocError>,
) -> Result<Expr, AllocError>
    ensures { Makes result (option_map (is_of_type_in ty.now (variable (variable_view var))) (term_in other)) }
{
    let is_in = compare_variable(alloc, var, BinaryOp::In, other);
    let (is, is_in) = pair_of(test_variable_type(alloc, var, ty), is_in)?;
    let made = Expr::and(alloc, is, is_in)?;
    Ok(made)
}

//! The conditions of the policies.
use crate::entities::{literal, name};
use cedar_fallible::pair_of;
use cedar_layers::expressions::{BinaryOp, Expr, Literal, Unknown, Var};
use std::alloc::{AllocError, Global};
use std::rc::RcStr;

/// `true` or `false`.
pub fn truth(is_true: bool) -> Expr {
    Expr::val(Literal::Bool(is_true))
}

/// `unknown("name")`
pub fn unknown(alloc: Global, name: &str) -> Result<Expr, AllocError> {
    let name = RcStr::from_str(alloc, name)?;
    Ok(Expr::unknown(Unknown::new_untyped(name)))
}

/// `context.name`
pub fn attribute(alloc: Global, name: &str) -> Result<Expr, AllocError> {
    let name = RcStr::from_str(alloc, name)?;
    Expr::get_attr(alloc, Expr::var(Var::Context), name)
}

/// `context.name == number`
pub fn attribute_is(alloc: Global, name: &str, number: i64) -> Result<Expr, AllocError> {
    let attribute = attribute(alloc, name)?;
    Expr::binary_app(
        alloc,
        BinaryOp::Eq,
        attribute,
        Expr::val(Literal::Long(number)),
    )
}

/// `principal == NS::"a" && resource == NS::"b"`
pub fn of_a_and_b(alloc: Global) -> Result<Expr, AllocError> {
    let (is_a, is_b) = pair_of(
        variable_is(alloc, Var::Principal, "a"),
        variable_is(alloc, Var::Resource, "b"),
    )?;
    Expr::and(alloc, is_a, is_b)
}

// `variable == NS::"id"`
fn variable_is(alloc: Global, variable: Var, id: &str) -> Result<Expr, AllocError> {
    let entity = Expr::val(literal(alloc, "NS", id)?);
    Expr::binary_app(alloc, BinaryOp::Eq, Expr::var(variable), entity)
}

/// `context.c && context.d == 10`
pub fn of_c_and_d(alloc: Global) -> Result<Expr, AllocError> {
    let (c, d_is_ten) = pair_of(attribute(alloc, "c"), attribute_is(alloc, "d", 10))?;
    Expr::and(alloc, c, d_is_ten)
}

/// `unknown("x") && (1 + "a")`
pub fn of_wrong_sum(alloc: Global) -> Result<Expr, AllocError> {
    let (x, sum) = pair_of(unknown(alloc, "x"), wrong_sum(alloc))?;
    Expr::and(alloc, x, sum)
}

// `1 + "a"`
fn wrong_sum(alloc: Global) -> Result<Expr, AllocError> {
    let text = Expr::val(Literal::String(RcStr::from_str(alloc, "a")?));
    Expr::binary_app(alloc, BinaryOp::Add, Expr::val(Literal::Long(1)), text)
}

/// `even(context.n)`
pub fn of_even_number(alloc: Global) -> Result<Expr, AllocError> {
    let number = vec![in alloc; attribute(alloc, "n")?]?;
    let even = name(alloc, "even")?;
    Expr::call_extension_fn(alloc, even, number)
}

/// `principal.g.contains(1)`
pub fn of_one_in_g(alloc: Global) -> Result<Expr, AllocError> {
    let g = RcStr::from_str(alloc, "g")?;
    let set = Expr::get_attr(alloc, Expr::var(Var::Principal), g)?;
    let one = Expr::val(Literal::Long(1));
    Expr::binary_app(alloc, BinaryOp::Contains, set, one)
}

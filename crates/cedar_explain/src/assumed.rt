#![tactic(auto, using(cedar_expressions::proofs::Levels::levels))]
//! A condition in which a part is taken to be true or false.
ghost use Rattle.std.specs.Prelude.{◌≡◌, if◌then◌else◌, IfOk};
ghost use Rattle.cedar_model.specs.Terms.{unary};
ghost use Rattle.cedar_names.specs.Leaves.{unary_view};
ghost use Rattle.cedar_expressions.specs.View.{view};
ghost use Rattle.cedar_explain.specs.Assuming.{assuming, assumed_alone, assumed_unary};

use cedar_fallible::pair_of;
use cedar_layers::expressions::{Expr, ExprKind, Literal, UnaryOp};
use std::alloc::{AllocError, Global};

// The condition in which this truth stands in place of the part, wherever that stands inside `&&`, `||`, `!` and `if`
// alone.
pub(crate) fn assumed(
    alloc: Global,
    expr: &Expr,
    part: &Expr,
    truth: bool,
) -> Result<Expr, AllocError>
    ensures { IfOk result (λ e. view e ≡ assuming (view part.now) truth (view expr.now)) }
{
    match expr.expr_kind() {
        ExprKind::Lit(_) => alone(expr, part, truth),
        ExprKind::Var(_) => alone(expr, part, truth),
        ExprKind::Slot(_) => alone(expr, part, truth),
        ExprKind::Unknown(_) => alone(expr, part, truth),
        ExprKind::If {
            test_expr,
            then_expr,
            else_expr,
        } => {
            let then_expr = assumed(alloc, then_expr, part, truth);
            let branches = pair_of(then_expr, assumed(alloc, else_expr, part, truth));
            let test_expr = assumed(alloc, test_expr, part, truth);
            let (test_expr, (then_expr, else_expr)) = pair_of(test_expr, branches)?;
            Expr::ite(alloc, test_expr, then_expr, else_expr)
        }
        ExprKind::And { left, right } => {
            let left = assumed(alloc, left, part, truth);
            let (left, right) = pair_of(left, assumed(alloc, right, part, truth))?;
            Expr::and(alloc, left, right)
        }
        ExprKind::Or { left, right } => {
            let left = assumed(alloc, left, part, truth);
            let (left, right) = pair_of(left, assumed(alloc, right, part, truth))?;
            Expr::or(alloc, left, right)
        }
        ExprKind::UnaryApp { op, arg } => match op {
            UnaryOp::Not => {
                Expr::unary_app(alloc, UnaryOp::Not, assumed(alloc, arg, part, truth)?)
            }
            UnaryOp::Neg => alone(expr, part, truth),
            UnaryOp::IsEmpty => alone(expr, part, truth),
        },
        ExprKind::BinaryApp { .. } => alone(expr, part, truth),
        ExprKind::ExtensionFunctionApp { .. } => alone(expr, part, truth),
        ExprKind::GetAttr { .. } => alone(expr, part, truth),
        ExprKind::HasAttr { .. } => alone(expr, part, truth),
        ExprKind::ExtHasAttr { .. } => alone(expr, part, truth),
        ExprKind::Like { .. } => alone(expr, part, truth),
        ExprKind::Is { .. } => alone(expr, part, truth),
        ExprKind::Set(_) => alone(expr, part, truth),
        ExprKind::Record(_) => alone(expr, part, truth),
    }
}

// The truth, if the expression is the part, and else the expression.
fn alone(expr: &Expr, part: &Expr, truth: bool) -> Result<Expr, AllocError>
    ensures { IfOk result (λ e. view e ≡ assumed_alone (view part.now) truth (view expr.now)) }
{
    if expr == part {
        Ok(Expr::val(Literal::Bool(truth)))
    } else {
        Ok(expr.clone()?)
    }
}

#![tactic(auto, using(cedar_expressions::proofs::Levels::levels, cedar_expressions::proofs::NodeLevels::nodes))]
//! The kind of a restricted expression.
ghost use Rattle.std.specs.Prelude.{◌≡◌, true};
ghost use Rattle.cedar_model.specs.Shapes.{is_restricted};
ghost use Rattle.cedar_expressions.specs.View.{view};
ghost use Rattle.cedar_expressions.specs.Nodes.{node_of};
ghost use Rattle.cedar_restricted.specs.Kinds.{kind_term, kind_node};

use cedar_expressions::{Expr, ExprKind};
use cedar_names::{Literal, Name, Unknown};
use std::collections::BTreeMap;
use std::rc::RcStr;

// The kind of a restricted expression, with its parts.
#[derive(Clone, Copy)]
pub(crate) enum RestrictedKind<'a> {
    Literal(&'a Literal),
    Unknown(&'a Unknown),
    Set(&'a [Expr]),
    Record(&'a BTreeMap<RcStr, Expr>),
    Call(&'a Name, &'a [Expr]),
}

// The kind of a restricted expression. The other kinds don't come.
pub(crate) fn kind_of(expr: &Expr) -> RestrictedKind<'_>
    requires { is_restricted (view expr.now) ≡ true }
    ensures view { kind_term result ≡ view expr.now }
    ensures node { kind_node result ≡ node_of expr.now }
{
    match expr.expr_kind() {
        ExprKind::Lit(value) => RestrictedKind::Literal(value),
        ExprKind::Unknown(unknown) => RestrictedKind::Unknown(unknown),
        ExprKind::Set(parts) => RestrictedKind::Set(parts.as_slice()),
        ExprKind::Record(pairs) => RestrictedKind::Record(pairs),
        ExprKind::ExtensionFunctionApp { fn_name, args } => {
            RestrictedKind::Call(fn_name, args.as_slice())
        }
        ExprKind::Var(_) => unreachable!(),
        ExprKind::Slot(_) => unreachable!(),
        ExprKind::If {
            test_expr: _,
            then_expr: _,
            else_expr: _,
        } => unreachable!(),
        ExprKind::And { left: _, right: _ } => unreachable!(),
        ExprKind::Or { left: _, right: _ } => unreachable!(),
        ExprKind::UnaryApp { op: _, arg: _ } => unreachable!(),
        ExprKind::BinaryApp {
            op: _,
            arg1: _,
            arg2: _,
        } => unreachable!(),
        ExprKind::GetAttr { expr: _, attr: _ } => unreachable!(),
        ExprKind::HasAttr { expr: _, attr: _ } => unreachable!(),
        ExprKind::ExtHasAttr { expr: _, attrs: _ } => unreachable!(),
        ExprKind::Like {
            expr: _,
            pattern: _,
        } => unreachable!(),
        ExprKind::Is {
            expr: _,
            entity_type: _,
        } => unreachable!(),
    }
}

#![tactic(auto, using(cedar_expressions::proofs::Levels::levels))]
//! The operands of a part: of what it is computed.
ghost use Rattle.std.specs.Prelude.{◌≡◌, ◌++◌, ◌∷◌, [], IfOk, OnOk};
ghost use Rattle.cedar_expressions.specs.View.{view, terms_view};
ghost use Rattle.cedar_explain_json.specs.Operands.{operands, unless_literal, none_literal, is_literal, terms_seen};

use cedar_layers::expressions::{Expr, ExprKind};
use std::alloc::{AllocError, Global};

// The operands of the part, in their order, but for literals.
pub(crate) fn operands_of<'x>(alloc: Global, part: &'x Expr) -> Result<Vec<&'x Expr>, AllocError>
    ensures { IfOk result (λ v. terms_seen v.items ≡ operands (view part.now)) }
{
    let mut operands: Vec<&'x Expr> = Vec::new(alloc);
    put_operands(part, &mut operands)?;
    Ok(operands)
}

fn put_operands<'x>(part: &'x Expr, found: &mut Vec<&'x Expr>) -> Result<(), AllocError>
    ensures { OnOk result
        (terms_seen found.new.items ≡ terms_seen found.old.items ++ operands (view part.now)) }
{
    match part.expr_kind() {
        ExprKind::Lit(_) => put_none(found),
        ExprKind::Var(_) => put_none(found),
        ExprKind::Slot(_) => put_none(found),
        ExprKind::Unknown(_) => put_none(found),
        ExprKind::If { .. } => put_none(found),
        ExprKind::And { .. } => put_none(found),
        ExprKind::Or { .. } => put_none(found),
        ExprKind::UnaryApp { op: _, arg } => put_operand(arg, found),
        ExprKind::BinaryApp { op: _, arg1, arg2 } => put_two(arg1, arg2, found),
        ExprKind::ExtensionFunctionApp { fn_name: _, args } => put_each(args, found),
        ExprKind::GetAttr { expr, attr: _ } => put_operand(expr, found),
        ExprKind::HasAttr { expr, attr: _ } => put_operand(expr, found),
        ExprKind::ExtHasAttr { expr, attrs: _ } => put_operand(expr, found),
        ExprKind::Like { expr, pattern: _ } => put_operand(expr, found),
        ExprKind::Is {
            expr,
            entity_type: _,
        } => put_operand(expr, found),
        ExprKind::Set(_) => put_none(found),
        ExprKind::Record(_) => put_none(found),
    }
}

fn put_none<'x>(found: &mut Vec<&'x Expr>) -> Result<(), AllocError>
    ensures { OnOk result (terms_seen found.new.items ≡ terms_seen found.old.items ++ []) }
{
    Ok(())
}

fn put_two<'x>(
    first: &'x Expr,
    second: &'x Expr,
    found: &mut Vec<&'x Expr>,
) -> Result<(), AllocError>
    ensures { OnOk result (terms_seen found.new.items ≡ terms_seen found.old.items
        ++ (unless_literal (view first.now) ++ unless_literal (view second.now))) }
{
    put_operand(first, found)?;
    put_operand(second, found)?;
    Ok(())
}

fn put_each<'x>(parts: &'x Vec<Expr>, found: &mut Vec<&'x Expr>) -> Result<(), AllocError>
    ensures { OnOk result (terms_seen found.new.items
        ≡ terms_seen found.old.items ++ none_literal (terms_view parts.now.items)) }
{
    'parts: for part in parts {
        put_operand(part, found)?;
    }
    Ok(())
}

fn put_operand<'x>(expr: &'x Expr, found: &mut Vec<&'x Expr>) -> Result<(), AllocError>
    ensures { OnOk result (terms_seen found.new.items
        ≡ terms_seen found.old.items ++ unless_literal (view expr.now)) }
{
    if is_literal(expr) {
        Ok(())
    } else {
        put(expr, found)
    }
}

fn put<'x>(expr: &'x Expr, found: &mut Vec<&'x Expr>) -> Result<(), AllocError>
    ensures { OnOk result
        (terms_seen found.new.items ≡ terms_seen found.old.items ++ view expr.now ∷ []) }
{
    found.push(expr)?;
    Ok(())
}

fn is_literal(expr: &Expr) -> bool
    ensures { result ≡ is_literal (view expr.now) }
{
    match expr.expr_kind() {
        ExprKind::Lit(_) => true,
        ExprKind::Var(_) => false,
        ExprKind::Slot(_) => false,
        ExprKind::Unknown(_) => false,
        ExprKind::If { .. } => false,
        ExprKind::And { .. } => false,
        ExprKind::Or { .. } => false,
        ExprKind::UnaryApp { .. } => false,
        ExprKind::BinaryApp { .. } => false,
        ExprKind::ExtensionFunctionApp { .. } => false,
        ExprKind::GetAttr { .. } => false,
        ExprKind::HasAttr { .. } => false,
        ExprKind::ExtHasAttr { .. } => false,
        ExprKind::Like { .. } => false,
        ExprKind::Is { .. } => false,
        ExprKind::Set(_) => false,
        ExprKind::Record(_) => false,
    }
}

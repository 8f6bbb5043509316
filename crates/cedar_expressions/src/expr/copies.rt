#![tactic(auto, using(crate::proofs::Levels::levels, crate::proofs::NodeLevels::nodes))]
//! Copies of expressions. The parts lie behind `Rc`, so a copy is a copy of one node, and of the pattern that a `like`
//! has.
ghost use Rattle.std.specs.Prelude.{◌≡◌, ◌∷◌, [], IfOk};
ghost use Rattle.std.specs.Rc.{rc_str_bytes};
ghost use Rattle.cedar_model.specs.Terms.{if_then_else, both, either, unary, binary, call, get_attribute};
ghost use Rattle.cedar_model.specs.Terms.{has_attribute, like, is_of_type};
ghost use Rattle.cedar_names.specs.Names.{name_text, type_text};
ghost use Rattle.cedar_names.specs.Leaves.{unary_view, binary_view, pattern_view};
ghost use Rattle.cedar_expressions.specs.View.{view, kind_view, expr_loc, terms_view, extended_has_of};
ghost use Rattle.cedar_expressions.specs.Nodes.{kind_parts, parts_of};

use super::{Expr, ExprKind};
use cedar_names::{BinaryOp, EntityType, FirstRest, Name, Pattern, UnaryOp};
use std::alloc::AllocError;
use std::rc::{Rc, RcStr};

impl Clone for Expr {
    ghost is_clone = { λ e copy. (view copy ≡ view e) × (expr_loc copy ≡ expr_loc e) × (parts_of copy ≡ parts_of e) };

    fn clone(&self) -> Result<Expr, AllocError> {
        let expr_kind = self.expr_kind.clone()?;
        Ok(Expr {
            expr_kind,
            source_loc: self.source_loc,
        })
    }
}

impl Clone for ExprKind {
    ghost is_clone = { λ k copy. (kind_view copy ≡ kind_view k) × (kind_parts copy ≡ kind_parts k) };

    fn clone(&self) -> Result<ExprKind, AllocError> {
        match self {
            ExprKind::Lit(value) => Ok(ExprKind::Lit(value.clone()?)),
            ExprKind::Var(var) => Ok(ExprKind::Var(*var)),
            ExprKind::Slot(slot) => Ok(ExprKind::Slot(*slot)),
            ExprKind::Unknown(unknown) => Ok(ExprKind::Unknown(unknown.clone()?)),
            ExprKind::If {
                test_expr,
                then_expr,
                else_expr,
            } => copied_if(test_expr, then_expr, else_expr),
            ExprKind::And { left, right } => copied_and(left, right),
            ExprKind::Or { left, right } => copied_or(left, right),
            ExprKind::UnaryApp { op, arg } => copied_unary(*op, arg),
            ExprKind::BinaryApp { op, arg1, arg2 } => copied_binary(*op, arg1, arg2),
            ExprKind::ExtensionFunctionApp { fn_name, args } => copied_call(fn_name, args),
            ExprKind::GetAttr { expr, attr } => copied_attribute(expr, attr),
            ExprKind::HasAttr { expr, attr } => copied_has(expr, attr),
            ExprKind::ExtHasAttr { expr, attrs } => copied_extended_has(expr, attrs),
            ExprKind::Like { expr, pattern } => copied_like(expr, pattern),
            ExprKind::Is { expr, entity_type } => copied_is(expr, entity_type),
            ExprKind::Set(parts) => Ok(ExprKind::Set(parts.clone()?)),
            ExprKind::Record(pairs) => Ok(ExprKind::Record(pairs.clone()?)),
        }
    }
}

fn copied_if(
    test_expr: &Rc<Expr>,
    then_expr: &Rc<Expr>,
    else_expr: &Rc<Expr>,
) -> Result<ExprKind, AllocError>
    ensures view { IfOk result (λ k. kind_view k
        ≡ if_then_else (view test_expr.now.value) (view then_expr.now.value) (view else_expr.now.value)) }
    ensures parts { IfOk result (λ k. kind_parts k
        ≡ test_expr.now.value ∷ then_expr.now.value ∷ else_expr.now.value ∷ []) }
{
    let test_expr = test_expr.clone()?;
    let then_expr = then_expr.clone()?;
    let else_expr = else_expr.clone()?;
    Ok(ExprKind::If {
        test_expr,
        then_expr,
        else_expr,
    })
}

fn copied_and(left: &Rc<Expr>, right: &Rc<Expr>) -> Result<ExprKind, AllocError>
    ensures view { IfOk result (λ k. kind_view k ≡ both (view left.now.value) (view right.now.value)) }
    ensures parts { IfOk result (λ k. kind_parts k ≡ left.now.value ∷ right.now.value ∷ []) }
{
    let left = left.clone()?;
    let right = right.clone()?;
    Ok(ExprKind::And { left, right })
}

fn copied_or(left: &Rc<Expr>, right: &Rc<Expr>) -> Result<ExprKind, AllocError>
    ensures view { IfOk result (λ k. kind_view k ≡ either (view left.now.value) (view right.now.value)) }
    ensures parts { IfOk result (λ k. kind_parts k ≡ left.now.value ∷ right.now.value ∷ []) }
{
    let left = left.clone()?;
    let right = right.clone()?;
    Ok(ExprKind::Or { left, right })
}

fn copied_unary(op: UnaryOp, arg: &Rc<Expr>) -> Result<ExprKind, AllocError>
    ensures view { IfOk result (λ k. kind_view k ≡ unary (unary_view op) (view arg.now.value)) }
    ensures parts { IfOk result (λ k. kind_parts k ≡ arg.now.value ∷ []) }
{
    let arg = arg.clone()?;
    Ok(ExprKind::UnaryApp { op, arg })
}

fn copied_binary(op: BinaryOp, arg1: &Rc<Expr>, arg2: &Rc<Expr>) -> Result<ExprKind, AllocError>
    ensures view { IfOk result (λ k. kind_view k
        ≡ binary (binary_view op) (view arg1.now.value) (view arg2.now.value)) }
    ensures parts { IfOk result (λ k. kind_parts k ≡ arg1.now.value ∷ arg2.now.value ∷ []) }
{
    let arg1 = arg1.clone()?;
    let arg2 = arg2.clone()?;
    Ok(ExprKind::BinaryApp { op, arg1, arg2 })
}

fn copied_call(fn_name: &Name, args: &Rc<Vec<Expr>>) -> Result<ExprKind, AllocError>
    ensures view { IfOk result (λ k. kind_view k ≡ call (name_text fn_name.now) (terms_view args.now.value.items)) }
    ensures parts { IfOk result (λ k. kind_parts k ≡ args.now.value.items) }
{
    let fn_name = fn_name.clone()?;
    let args = args.clone()?;
    Ok(ExprKind::ExtensionFunctionApp { fn_name, args })
}

fn copied_attribute(expr: &Rc<Expr>, attr: &RcStr) -> Result<ExprKind, AllocError>
    ensures view { IfOk result (λ k. kind_view k ≡ get_attribute (view expr.now.value) (rc_str_bytes attr.now)) }
    ensures parts { IfOk result (λ k. kind_parts k ≡ expr.now.value ∷ []) }
{
    let attr = attr.clone()?;
    let expr = expr.clone()?;
    Ok(ExprKind::GetAttr { expr, attr })
}

fn copied_has(expr: &Rc<Expr>, attr: &RcStr) -> Result<ExprKind, AllocError>
    ensures view { IfOk result (λ k. kind_view k ≡ has_attribute (view expr.now.value) (rc_str_bytes attr.now)) }
    ensures parts { IfOk result (λ k. kind_parts k ≡ expr.now.value ∷ []) }
{
    let attr = attr.clone()?;
    let expr = expr.clone()?;
    Ok(ExprKind::HasAttr { expr, attr })
}

fn copied_extended_has(
    expr: &Rc<Expr>,
    attrs: &Rc<FirstRest<RcStr>>,
) -> Result<ExprKind, AllocError>
    ensures view { IfOk result (λ k. kind_view k ≡ extended_has_of (view expr.now.value) attrs.now.value) }
    ensures parts { IfOk result (λ k. kind_parts k ≡ expr.now.value ∷ []) }
{
    let attrs = attrs.clone()?;
    let expr = expr.clone()?;
    Ok(ExprKind::ExtHasAttr { expr, attrs })
}

fn copied_like(expr: &Rc<Expr>, pattern: &Pattern) -> Result<ExprKind, AllocError>
    ensures view { IfOk result (λ k. kind_view k ≡ like (view expr.now.value) (pattern_view pattern.now)) }
    ensures parts { IfOk result (λ k. kind_parts k ≡ expr.now.value ∷ []) }
{
    let pattern = pattern.clone()?;
    let expr = expr.clone()?;
    Ok(ExprKind::Like { expr, pattern })
}

fn copied_is(expr: &Rc<Expr>, entity_type: &EntityType) -> Result<ExprKind, AllocError>
    ensures view { IfOk result (λ k. kind_view k ≡ is_of_type (view expr.now.value) (type_text entity_type.now)) }
    ensures parts { IfOk result (λ k. kind_parts k ≡ expr.now.value ∷ []) }
{
    let entity_type = entity_type.clone()?;
    let expr = expr.clone()?;
    Ok(ExprKind::Is { expr, entity_type })
}

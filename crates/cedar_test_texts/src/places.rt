//! Where the nodes of an expression stand: each before its parts, which come in the order of the tree.
use crate::answer::Answer;
use cedar_expressions::{Expr, ExprKind};
use cedar_names::Loc;
use std::collections::BTreeMap;
use std::rc::RcStr;

/// Writes where the expression stands, and where its parts do, from which byte up to which, with a space between them.
#[cycle(put)]
pub fn put_places(answer: &mut Answer, expr: &Expr) {
    put_place(answer, expr.source_loc());
    match expr.expr_kind() {
        ExprKind::Lit(_) => {}
        ExprKind::Var(_) => {}
        ExprKind::Slot(_) => {}
        ExprKind::Unknown(_) => {}
        ExprKind::If {
            test_expr,
            then_expr,
            else_expr,
        } => {
            put_next(answer, test_expr);
            put_next(answer, then_expr);
            put_next(answer, else_expr);
        }
        ExprKind::And { left, right } => {
            put_next(answer, left);
            put_next(answer, right);
        }
        ExprKind::Or { left, right } => {
            put_next(answer, left);
            put_next(answer, right);
        }
        ExprKind::UnaryApp { op: _, arg } => put_next(answer, arg),
        ExprKind::BinaryApp { op: _, arg1, arg2 } => {
            put_next(answer, arg1);
            put_next(answer, arg2);
        }
        ExprKind::ExtensionFunctionApp { fn_name: _, args } => put_all(answer, args),
        ExprKind::GetAttr { expr, attr: _ } => put_next(answer, expr),
        ExprKind::HasAttr { expr, attr: _ } => put_next(answer, expr),
        ExprKind::ExtHasAttr { expr, attrs: _ } => put_next(answer, expr),
        ExprKind::Like { expr, pattern: _ } => put_next(answer, expr),
        ExprKind::Is {
            expr,
            entity_type: _,
        } => put_next(answer, expr),
        ExprKind::Set(parts) => put_all(answer, parts),
        ExprKind::Record(fields) => put_fields(answer, fields),
    }
}

/// Writes `FROM..TO`, or `nowhere`.
pub fn put_place(answer: &mut Answer, place: Option<&Loc>) {
    match place {
        Some(place) => {
            answer.show(&place.start);
            answer.put("..");
            answer.show(&place.end);
        }
        None => answer.put("nowhere"),
    }
}

#[cycle(put)]
fn put_next(answer: &mut Answer, part: &Expr) {
    answer.put(" ");
    put_places(answer, part);
}

#[cycle(put)]
fn put_all(answer: &mut Answer, parts: &[Expr]) {
    'parts: for part in parts {
        put_next(answer, part);
    }
}

#[cycle(put)]
fn put_fields(answer: &mut Answer, fields: &BTreeMap<RcStr, Expr>) {
    'fields: for (_key, part) in fields.iter() {
        put_next(answer, part);
    }
}

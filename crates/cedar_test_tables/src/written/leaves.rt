//! Leaves as they are printed.
use crate::notation::answer::Answer;
use crate::notation::expressions::expression;
use crate::notation::leaves::{entity_type, name, named_type, uid};
use crate::notation::split_first_word;
use crate::notation::unanswered::Unanswered;
use cedar_layers::expressions::{Expr, ExprKind};
use std::fmt;

/// The text of the leaf that is written behind its kind: `name`, `entity-type`, `uid`, `type`, or `head`, the operator,
/// the variable or the slot that an expression begins with.
pub fn ask(answer: &mut Answer, words: &str) {
    let (kind, written) = split_first_word(words);
    let alloc = answer.alloc;
    match kind {
        "name" => put_read(answer, name(alloc, written)),
        "entity-type" => put_read(answer, entity_type(alloc, written)),
        "uid" => put_read(answer, uid(alloc, written)),
        "type" => put_read(answer, named_type(alloc, written)),
        "head" => ask_head(answer, written),
        _ => answer.refuse("no such leaf"),
    }
}

// The text of what was read.
fn put_read<T: fmt::Display + Drop>(answer: &mut Answer, read: Result<T, Unanswered>) {
    match read {
        Ok(leaf) => answer.show(&leaf),
        Err(why) => answer.fail(why),
    }
}

fn ask_head(answer: &mut Answer, text: &str) {
    match expression(answer.alloc, text) {
        Ok(expr) => {
            put_head(answer, &expr);
            drop(expr);
        }
        Err(why) => answer.fail(why),
    }
}

fn put_head(answer: &mut Answer, expr: &Expr) {
    match expr.expr_kind() {
        ExprKind::Var(var) => answer.show(var),
        ExprKind::Slot(slot) => answer.show(slot),
        ExprKind::UnaryApp { op, .. } => answer.show(op),
        ExprKind::BinaryApp { op, .. } => answer.show(op),
        _ => answer.refuse("no such leaf"),
    }
}

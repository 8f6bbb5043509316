#![tactic(auto, using(cedar_expressions::proofs::Levels::levels, crate::proofs::Noted::noting))]
//! The unknowns that stand in an expression.
ghost use Rattle.std.specs.Prelude.{◌≡◌, IfOk, OnOk};
ghost use Rattle.cedar_expressions.specs.View.{view, terms_view, fields_view};
ghost use Rattle.cedar_unknowns.specs.Occurrences.{asked, asked_each, noted, noted_each};
ghost use Rattle.cedar_unknowns.specs.Occurrences.{occurrences, occurrences_each, occurrences_at};

use cedar_expressions::{Expr, ExprKind};
use cedar_names::Unknown;
use indexmap::IndexSet;
use std::alloc::AllocError;
use std::collections::BTreeMap;
use std::rc::RcStr;

/// Puts the unknowns that stand in the expression behind these, each unless it is one of them.
#[cycle(note)]
pub(crate) fn note_unknowns(expr: &Expr, found: &mut IndexSet<Unknown>) -> Result<(), AllocError>
    ensures { OnOk result
        (asked_each found.new.keys ≡ noted_each (occurrences (view expr.now)) (asked_each found.old.keys)) }
{
    match expr.expr_kind() {
        ExprKind::Lit(_) => Ok(()),
        ExprKind::Var(_) => Ok(()),
        ExprKind::Slot(_) => Ok(()),
        ExprKind::Unknown(unknown) => note(unknown, found),
        ExprKind::If {
            test_expr,
            then_expr,
            else_expr,
        } => note_three(test_expr, then_expr, else_expr, found),
        ExprKind::And { left, right } => note_two(left, right, found),
        ExprKind::Or { left, right } => note_two(left, right, found),
        ExprKind::UnaryApp { op: _, arg } => note_unknowns(arg, found),
        ExprKind::BinaryApp { op: _, arg1, arg2 } => note_two(arg1, arg2, found),
        ExprKind::ExtensionFunctionApp { fn_name: _, args } => note_each(args, found),
        ExprKind::GetAttr { expr, attr: _ } => note_unknowns(expr, found),
        ExprKind::HasAttr { expr, attr: _ } => note_unknowns(expr, found),
        ExprKind::ExtHasAttr { expr, attrs: _ } => note_unknowns(expr, found),
        ExprKind::Like { expr, pattern: _ } => note_unknowns(expr, found),
        ExprKind::Is {
            expr,
            entity_type: _,
        } => note_unknowns(expr, found),
        ExprKind::Set(parts) => note_each(parts, found),
        ExprKind::Record(parts) => note_at(parts, found),
    }
}

#[cycle(note)]
fn note_two(first: &Expr, second: &Expr, found: &mut IndexSet<Unknown>) -> Result<(), AllocError>
    ensures { OnOk result (asked_each found.new.keys ≡ noted_each (occurrences (view second.now))
        (noted_each (occurrences (view first.now)) (asked_each found.old.keys))) }
{
    note_unknowns(first, found)?;
    note_unknowns(second, found)?;
    Ok(())
}

#[cycle(note)]
fn note_three(
    first: &Expr,
    second: &Expr,
    third: &Expr,
    found: &mut IndexSet<Unknown>,
) -> Result<(), AllocError>
    ensures { OnOk result (asked_each found.new.keys ≡ noted_each (occurrences (view third.now))
        (noted_each (occurrences (view second.now))
        (noted_each (occurrences (view first.now)) (asked_each found.old.keys)))) }
{
    note_unknowns(first, found)?;
    note_unknowns(second, found)?;
    note_unknowns(third, found)?;
    Ok(())
}

#[cycle(note)]
fn note_each(parts: &Vec<Expr>, found: &mut IndexSet<Unknown>) -> Result<(), AllocError>
    ensures { OnOk result (asked_each found.new.keys ≡
        noted_each (occurrences_each (terms_view parts.now.items)) (asked_each found.old.keys)) }
{
    'parts: for part in parts {
        note_unknowns(part, found)?;
    }
    Ok(())
}

/// The same of what stands under the keys of a record.
#[cycle(note)]
pub(crate) fn note_at(
    parts: &BTreeMap<RcStr, Expr>,
    found: &mut IndexSet<Unknown>,
) -> Result<(), AllocError>
    ensures { OnOk result (asked_each found.new.keys ≡
        noted_each (occurrences_at (fields_view parts.now.entries)) (asked_each found.old.keys)) }
{
    'parts: for (_, part) in parts {
        note_unknowns(part, found)?;
    }
    Ok(())
}

/// Puts the unknown behind these, unless it is one of them.
pub(crate) fn note(unknown: &Unknown, found: &mut IndexSet<Unknown>) -> Result<(), AllocError>
    ensures { OnOk result (asked_each found.new.keys ≡ noted (asked unknown.now) (asked_each found.old.keys)) }
{
    found.insert(copy_unknown(unknown)?)?;
    Ok(())
}

/// The same unknown, whose texts are shared.
pub(crate) fn copy_unknown(unknown: &Unknown) -> Result<Unknown, AllocError>
    ensures { IfOk result (λ u. asked u ≡ asked unknown.now) }
{
    Ok(unknown.clone()?)
}

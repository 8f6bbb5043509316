#![tactic(auto, using(cedar_expressions::proofs::Levels::levels))]
//! Policies that err wherever their scope holds.
ghost use Rattle.std.specs.Prelude.{◌≡◌, true, IfOk};
ghost use Rattle.cedar_layers.specs.Policies.{policy_view};
ghost use Rattle.cedar_filter.specs.Simplifying.{simplified};
ghost use Rattle.cedar_expressions.specs.View.{view};
ghost use Rattle.cedar_unsatisfiable.specs.Erring.{shows_error, shows_no_truth, shows_erring, ErrsInScope};
ghost use Rattle.cedar_unsatisfiable.specs.Erring.{IsNeverTruth};

use crate::kinds::{
    is_not_taken, is_not_taken_first, is_not_taken_second, is_other_than_entity,
    is_other_than_text, is_other_than_truth, is_without_attributes,
};
use cedar_expressions::{Expr, ExprKind};
use cedar_filter::simplified;
use cedar_layers::policies::Policy;
use std::alloc::{AllocError, Global};

/// Whether the policy's text shows that it errs wherever its scope holds: its clauses, without what is known in them
/// (`simplified`), show that they err or are no boolean (`shows_no_truth`). Where this is told, the policy errs in every
/// world in which its scope is satisfied, whatever its slots are linked to; a policy of which it is not told may still
/// err in all. Refuses only if out of memory.
pub fn always_errs(alloc: Global, policy: &Policy) -> Result<bool, AllocError>
    ensures shown { IfOk result (λ b. b ≡ shows_erring (policy_view policy.now)) }
    ensures errs { IfOk result (λ b. b ≡ true → ErrsInScope (policy_view policy.now)) }
{
    is_never_truth(alloc, policy.when_clause())
}

// The same of its clauses.
fn is_never_truth(alloc: Global, clauses: &Expr) -> Result<bool, AllocError>
    ensures shown { IfOk result (λ b. b ≡ shows_no_truth (simplified (view clauses.now))) }
    ensures never { IfOk result (λ b. b ≡ true → IsNeverTruth (view clauses.now)) }
{
    let simple = simplified(alloc, clauses)?;
    let told = shows_no_truth(&simple);
    drop(simple);
    Ok(told)
}

// Whether it shows that it errs, or is no boolean.
fn shows_no_truth(expr: &Expr) -> bool
    ensures { result ≡ shows_no_truth (view expr.now) }
{
    shows_error(expr) || is_other_than_truth(expr)
}

// Whether it shows that it errs in every world: an operator stands beside a value of a kind that it does not take
// wherever that is reached.
fn shows_error(expr: &Expr) -> bool
    ensures { result ≡ shows_error (view expr.now) }
{
    match expr.expr_kind() {
        ExprKind::Lit(_) => false,
        ExprKind::Var(_) => false,
        ExprKind::Slot(_) => false,
        ExprKind::Unknown(_) => false,
        ExprKind::If {
            test_expr,
            then_expr,
            else_expr,
        } => {
            shows_error(test_expr)
                || (is_other_than_truth(test_expr)
                    || (shows_error(then_expr) && shows_error(else_expr)))
        }
        ExprKind::And { left, right: _ } => shows_error(left) || is_other_than_truth(left),
        ExprKind::Or { left, right: _ } => shows_error(left) || is_other_than_truth(left),
        ExprKind::UnaryApp { op, arg } => shows_error(arg) || is_not_taken(*op, arg),
        ExprKind::BinaryApp { op, arg1, arg2 } => {
            shows_error(arg1)
                || (shows_error(arg2)
                    || (is_not_taken_first(*op, arg1) || is_not_taken_second(*op, arg2)))
        }
        ExprKind::ExtensionFunctionApp { .. } => false,
        ExprKind::GetAttr { expr: of, attr: _ } => shows_error(of) || is_without_attributes(of),
        ExprKind::HasAttr { expr: of, attr: _ } => shows_error(of) || is_without_attributes(of),
        ExprKind::ExtHasAttr { expr: of, attrs: _ } => {
            shows_error(of) || is_without_attributes(of)
        }
        ExprKind::Like { expr: of, .. } => shows_error(of) || is_other_than_text(of),
        ExprKind::Is { expr: of, .. } => shows_error(of) || is_other_than_entity(of),
        ExprKind::Set(_) => false,
        ExprKind::Record(_) => false,
    }
}

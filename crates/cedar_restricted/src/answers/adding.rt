//! The answers of parts with one more behind them: values, or expressions from the first residual on.
ghost use Rattle.std.specs.Prelude.{◌≡◌, ◌++◌, ◌∷◌, [], suc, List, length, map, IfOk};
ghost use Rattle.cedar_model.specs.Failures as model;
ghost use Rattle.cedar_model.specs.Failures.{part_expression};
ghost use Rattle.cedar_expressions.specs.View.{view, expr_loc};
ghost use Rattle.cedar_values.specs.Residuals.{partial_view, partial_loc, residual_term, residual_loc};
ghost use Rattle.cedar_values.specs.Sound.{whats};
ghost use Rattle.cedar_restricted.specs.declared.answers.Answers.TheVariants as answereds;
ghost use Rattle.cedar_restricted.specs.Parts.{count, Are, all_values, answered_locs};
ghost use Rattle.cedar_restricted.specs.Elements.{AreWith};

use super::{Answers, Mixed, exprs_of, first_residual, with_value};
use cedar_expressions::Expr;
use cedar_values::{PartialValue, ResidualExpr, Value};
use std::alloc::{AllocError, Global};

// Values and one more answer.
pub(super) fn values_with(
    alloc: Global,
    values: Vec<Value>,
    answer: PartialValue,
) -> Result<Answers, AllocError>
    ensures count { IfOk result (λ a. count a ≡ suc (length values.items)) }
    ensures answers { IfOk result (λ a. (ps : List model.PartialValue) → ps ≡ all_values (whats values.items) →
        Are a (ps ++ partial_view answer ∷ [])) }
    ensures values { IfOk result (λ a. AreWith (answereds.Values values) answer a) }
    ensures places { IfOk result
        (λ a. answered_locs a ≡ answered_locs (answereds.Values values) ++ partial_loc answer ∷ []) }
{
    match answer {
        PartialValue::Value(value) => Ok(Answers::Values(with_value(values, value)?)),
        PartialValue::Residual(residual) => {
            let mixed = mixed_of(alloc, values.as_slice(), residual)?;
            Ok(Answers::Mixed(mixed))
        }
    }
}

// The values as expressions, and the first residual behind them.
fn mixed_of(alloc: Global, values: &[Value], residual: ResidualExpr) -> Result<Mixed, AllocError>
    ensures count { IfOk result (λ m. length m.exprs.items ≡ suc (length values.now)) }
    ensures answers { IfOk result (λ m. Are (answereds.Mixed m)
        (all_values (whats values.now) ++ model.residual (residual_term residual) ∷ [])) }
    ensures places { IfOk result
        (λ m. map expr_loc m.exprs.items ≡ map (λ v. v.loc) values.now ++ residual_loc residual ∷ []) }
{
    match exprs_of(alloc, values) {
        Ok(exprs) => Ok(first_residual(exprs, residual)?),
        Err(error) => {
            drop(residual);
            Err(error)
        }
    }
}

// Expressions and one more answer.
pub(super) fn mixed_with(
    alloc: Global,
    mixed: Mixed,
    answer: PartialValue,
) -> Result<Answers, AllocError>
    ensures count { IfOk result (λ a. count a ≡ suc (length mixed.exprs.items)) }
    ensures answers { IfOk result (λ a. (ps : List model.PartialValue) → Are (answereds.Mixed mixed) ps →
        Are a (ps ++ partial_view answer ∷ [])) }
    ensures values { IfOk result (λ a. AreWith (answereds.Mixed mixed) answer a) }
    ensures places { IfOk result
        (λ a. answered_locs a ≡ answered_locs (answereds.Mixed mixed) ++ partial_loc answer ∷ []) }
{
    let expr = expr_of(alloc, answer)?;
    Ok(Answers::Mixed(mixed.with(expr)?))
}

// The answer as an expression.
#[tactic(auto, unfolding(cedar_model::specs::Failures::part_expression))]
fn expr_of(alloc: Global, answer: PartialValue) -> Result<Expr, AllocError>
    ensures view { IfOk result (λ e. view e ≡ part_expression (partial_view answer)) }
    ensures loc { IfOk result (λ e. expr_loc e ≡ partial_loc answer) }
{
    match answer {
        PartialValue::Value(value) => value.to_expr(alloc),
        PartialValue::Residual(residual) => Ok(residual.into_expr()),
    }
}

//! Residuals: an operator around what is not known. None stands at a location.
ghost use Rattle.std.specs.Prelude.{◌≡◌, ◌∷◌, ◌++◌, IfOk};
ghost use Rattle.std.specs.Rc.{rc_str_bytes};
ghost use Rattle.cedar_model.specs.Terms.{binary, get_attribute, has_attribute, extended_has};
ghost use Rattle.cedar_model.specs.Failures.{answers_residual};
ghost use Rattle.cedar_names.specs.Leaves.{binary_view, texts_view};
ghost use Rattle.cedar_expressions.specs.View.{view};
ghost use Rattle.cedar_expressions.specs.Readers.{unknown_term};
ghost use Rattle.cedar_values.specs.Residuals.{residual_term};
ghost use Rattle.cedar_errors.specs.Answers.{AnswersWith};

use cedar_errors::evaluator::err::EvaluationError;
use cedar_fallible::beside;
use cedar_layers::expressions::{BinaryOp, Expr, FirstRest, PartialValue, ResidualExpr, Unknown};
use std::alloc::{AllocError, Global};
use std::rc::RcStr;

/// The unknown, as a residual, at no location.
pub fn residual_unknown(value: Unknown) -> ResidualExpr
    ensures { residual_term result ≡ unknown_term value }
{
    ResidualExpr::new(Expr::unknown(value))
}

// The operator on the unknown and the expression, at no location. Refuses only if out of memory.
pub(crate) fn binary_of_unknown(
    alloc: Global,
    op: BinaryOp,
    value: Unknown,
    second: Expr,
) -> Result<PartialValue, EvaluationError>
    ensures { AnswersWith result (answers_residual (binary (binary_view op) (unknown_term value) (view second))) }
{
    let expr = Expr::binary_app(alloc, op, Expr::unknown(value), second)?;
    Ok(PartialValue::Residual(ResidualExpr::new(expr)))
}

/// `part.attr`, at no location. Refuses only if out of memory.
pub fn residual_attribute(
    alloc: Global,
    part: ResidualExpr,
    attr: &RcStr,
) -> Result<PartialValue, EvaluationError>
    ensures { AnswersWith result (answers_residual (get_attribute (residual_term part) (rc_str_bytes attr.now))) }
{
    let (part, attr) = beside(part, attr.clone())?;
    let expr = Expr::get_attr(alloc, part.into_expr(), attr)?;
    Ok(PartialValue::Residual(ResidualExpr::new(expr)))
}

/// `part has attr`, at no location. Refuses only if out of memory.
pub fn residual_has(
    alloc: Global,
    part: ResidualExpr,
    attr: &RcStr,
) -> Result<PartialValue, EvaluationError>
    ensures { AnswersWith result (answers_residual (has_attribute (residual_term part) (rc_str_bytes attr.now))) }
{
    let (part, attr) = beside(part, attr.clone())?;
    let expr = Expr::has_attr(alloc, part.into_expr(), attr)?;
    Ok(PartialValue::Residual(ResidualExpr::new(expr)))
}

/// `part has first.other..`, at no location. Refuses only if out of memory.
pub fn residual_path(
    alloc: Global,
    part: ResidualExpr,
    attrs: FirstRest<RcStr>,
) -> Result<PartialValue, EvaluationError>
    ensures { AnswersWith result (answers_residual (extended_has (residual_term part) (rc_str_bytes attrs.first)
        (texts_view attrs.rest.items))) }
{
    let expr = Expr::extended_has_attr(alloc, part.into_expr(), attrs)?;
    Ok(PartialValue::Residual(ResidualExpr::new(expr)))
}

/// The attributes of an extended `has`. Refuses only if out of memory.
pub fn path(alloc: Global, first: &RcStr, others: &[RcStr]) -> Result<FirstRest<RcStr>, AllocError>
    ensures first { IfOk result (λ p. rc_str_bytes p.first ≡ rc_str_bytes first.now) }
    ensures rest { IfOk result (λ p. texts_view p.rest.items ≡ texts_view others.now) }
{
    let rest = with_texts(Vec::new(alloc), others)?;
    Ok(FirstRest {
        first: first.clone()?,
        rest,
    })
}

// The list of these texts.
pub(crate) fn path_from(
    alloc: Global,
    first: &RcStr,
    second: &RcStr,
    others: &[RcStr],
) -> Result<FirstRest<RcStr>, AllocError>
    ensures first { IfOk result (λ p. rc_str_bytes p.first ≡ rc_str_bytes first.now) }
    ensures rest { IfOk result (λ p. texts_view p.rest.items ≡ rc_str_bytes second.now ∷ texts_view others.now) }
{
    let mut rest = Vec::new(alloc);
    rest.push(second.clone()?)?;
    let rest = with_texts(rest, others)?;
    Ok(FirstRest {
        first: first.clone()?,
        rest,
    })
}

// The texts, and behind them these.
fn with_texts(mut texts: Vec<RcStr>, others: &[RcStr]) -> Result<Vec<RcStr>, AllocError>
    ensures { IfOk result (λ v. texts_view v.items ≡ texts_view texts.items ++ texts_view others.now) }
{
    'others: for other in others {
        texts.push(other.clone()?)?;
    }
    Ok(texts)
}

#![tactic(auto, using(crate::proofs::Refused::refusals))]
//! The context that an expression is.
ghost use Rattle.std.specs.Prelude.{◌≡◌, [], ◌∷◌, Ok, Err, IfOk, IfErr, option_map, codes};
ghost use Rattle.cedar_expressions.specs.View.{view};
ghost use Rattle.cedar_extensions.specs.Extensions.{extensions_view, calls_of};
ghost use Rattle.cedar_names.specs.Equality.{term_eq};
ghost use Rattle.cedar_values.specs.Residuals.{partial_term};
ghost use Rattle.cedar_restricted.specs.Views.{restricted_term};
ghost use Rattle.cedar_requests.specs.Contexts.{context_part_value};
ghost use Rattle.cedar_requests.specs.Requests.{context_given};
ghost use Rattle.cedar_response_json_reader.specs.Requests as says;
ghost use Rattle.cedar_response_json_reader.specs.Contexts.{is_absent, IsContextOf, IsRecordOf, IsWhyNone, IsNoneFor};
ghost use Rattle.cedar_requests.specs.Creations.{IsCreated};
ghost use Rattle.cedar_policy_json_reader.specs.Paths.{at_key};
ghost use Rattle.cedar_response_json_reader.specs.Refusals.{IsRefusedAt};
ghost use Rattle.cedar_response_json_reader.specs.declared.errors.ResponseRefusal.TheVariants as reasons;

use crate::errors::{ResponseJsonError, ResponseRefusal};
use crate::requests::unknown_in;
use cedar_expressions::Expr;
use cedar_extensions::Extensions;
use cedar_names::Unknown;
use cedar_requests::{Context, ContextCreationError};
use cedar_restricted::{RestrictedExpr, RestrictedExpressionError};
use std::alloc::{AllocError, Global};

/// The context that the expression is: none where it is the unknown `context`, and else what its record is evaluated to,
/// where that is written as this very expression. So a set is in order, and holds no element twice.
pub(crate) fn context_of(
    alloc: Global,
    expr: Expr,
    extensions: &Extensions<'_>,
    limit: usize,
) -> Result<Option<Context>, ResponseJsonError>
    ensures said { IfOk result (λ c. IsContextOf (extensions_view extensions.now) (calls_of extensions.now) limit
        (view expr) (context_given c)) }
    ensures refused { IfErr result (IsWhyNone (extensions_view extensions.now) (calls_of extensions.now) limit
        (view expr)) }
{
    if is_absent(unknown_in(&expr)) {
        drop(expr);
        Ok(None)
    } else {
        restricted(alloc, expr, extensions, limit)
    }
}

// Whether it is the unknown that stands for a context of which nothing is known.
fn is_absent(unknown: Option<&Unknown>) -> bool
    ensures { result ≡ is_absent (option_map says.unknown_view unknown.entry) }
{
    match unknown {
        Some(unknown) => unknown.type_annotation.is_none() && unknown.name.as_str() == "context",
        None => false,
    }
}

fn restricted(
    alloc: Global,
    expr: Expr,
    extensions: &Extensions<'_>,
    limit: usize,
) -> Result<Option<Context>, ResponseJsonError>
    ensures said { IfOk result (λ c. IsRecordOf (extensions_view extensions.now) (calls_of extensions.now) limit
        (view expr) (context_given c)) }
    ensures refused { IfErr result (IsWhyNone (extensions_view extensions.now) (calls_of extensions.now) limit
        (view expr)) }
{
    match RestrictedExpr::new(expr) {
        Ok(restricted) => evaluated(alloc, restricted, extensions, limit),
        Err(RestrictedExpressionError::InvalidRestrictedExpression(error)) => {
            drop(error);
            Err(no_context(alloc))
        }
        Err(RestrictedExpressionError::Memory(error)) => Err(ResponseJsonError::Memory(error)),
    }
}

fn evaluated(
    alloc: Global,
    expr: RestrictedExpr,
    extensions: &Extensions<'_>,
    limit: usize,
) -> Result<Option<Context>, ResponseJsonError>
    ensures said { IfOk result (λ c. IsRecordOf (extensions_view extensions.now) (calls_of extensions.now) limit
        (restricted_term expr) (context_given c)) }
    ensures refused { IfErr result (IsWhyNone (extensions_view extensions.now) (calls_of extensions.now) limit
        (restricted_term expr)) }
{
    match Context::from_expr(alloc, expr.as_borrowed(), extensions, limit) {
        Ok(context) => as_written(alloc, context, expr, extensions, limit),
        Err(error) => {
            drop(expr);
            Err(refusal(alloc, error))
        }
    }
}

// The context that the expression is evaluated to, where that is written as this very expression.
fn as_written(
    alloc: Global,
    context: Context,
    expr: RestrictedExpr,
    extensions: &Extensions<'_>,
    limit: usize,
) -> Result<Option<Context>, ResponseJsonError>
    requires { IsCreated (extensions_view extensions.now) (calls_of extensions.now) limit (restricted_term expr)
        (Ok context) }
    ensures said { IfOk result (λ c. IsRecordOf (extensions_view extensions.now) (calls_of extensions.now) limit
        (restricted_term expr) (context_given c)) }
    ensures refused { IfErr result (IsWhyNone (extensions_view extensions.now) (calls_of extensions.now) limit
        (restricted_term expr)) }
{
    let is_same = is_written_as(&context, &expr);
    drop(expr);
    match is_same {
        Ok(true) => Ok(Some(context)),
        Ok(false) => {
            drop(context);
            Err(no_context(alloc))
        }
        Err(error) => {
            drop(context);
            Err(ResponseJsonError::Memory(error))
        }
    }
}

// Whether the context is written as this expression.
fn is_written_as(context: &Context, expr: &RestrictedExpr) -> Result<bool, AllocError>
    ensures { IfOk result
        (λ b. b ≡ term_eq (partial_term (context_part_value context.now)) (restricted_term expr.now)) }
{
    let copy = context.clone()?;
    let written = RestrictedExpr::try_from(copy)?;
    let is_same = written.as_ref() == expr.as_ref();
    drop(written);
    Ok(is_same)
}

#[cold]
fn refusal(alloc: Global, error: ContextCreationError) -> ResponseJsonError
    ensures { IsNoneFor error result }
{
    match error {
        ContextCreationError::NotARecord(error) => {
            drop(error);
            no_context(alloc)
        }
        ContextCreationError::Evaluation(error) => {
            drop(error);
            no_context(alloc)
        }
        ContextCreationError::ExpressionConstruction(error) => {
            drop(error);
            no_context(alloc)
        }
        ContextCreationError::Memory(error) => ResponseJsonError::Memory(error),
    }
}

#[cold]
fn no_context(alloc: Global) -> ResponseJsonError
    ensures { IsRefusedAt (at_key (codes "context") ∷ []) reasons.NotAContext result }
{
    ResponseJsonError::refusal_at(alloc, "context", ResponseRefusal::NotAContext)
}

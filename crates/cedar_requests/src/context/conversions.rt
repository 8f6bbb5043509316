//! The partial value and the restricted expression that a context is.
ghost use Rattle.std.specs.Prelude.{◌≡◌, None, IfOk};
ghost use Rattle.cedar_model.specs.Values.{record_represented};
ghost use Rattle.cedar_values.specs.Sound.{whats_at};
ghost use Rattle.cedar_values.specs.Residuals.{partial_view, partial_loc, partial_term};
ghost use Rattle.cedar_restricted.specs.Views.{restricted_term, restricted_loc};
ghost use Rattle.cedar_requests.specs.Contexts.{context_part_value};

use super::Context;
use super::pairs::ContextPairs;
use super::values::ContextValues;
use cedar_expressions::Expr;
use cedar_restricted::RestrictedExpr;
use cedar_values::{PartialValue, ResidualExpr, Value, ValueKind};
use std::alloc::{AllocError, Global};

/// The record of the context's values, or the residual of its expressions, at no location.
impl TryFrom<Context> for PartialValue {
    type Error = AllocError;

    ghost try_from_gives = { λ c r. IfOk r (λ p. (partial_view p ≡ context_part_value c)
        × (partial_loc p ≡ None)) };

    #[tactic(auto, unfolding(cedar_model::specs::Settings::context_value))]
    fn try_from(context: Context) -> Result<PartialValue, AllocError> {
        let alloc = context.alloc;
        match context.pairs {
            ContextPairs::Values(values) => {
                let value = shared_record(alloc, values)?;
                Ok(PartialValue::Value(value))
            }
            ContextPairs::Residual(residual) => {
                let expr = Expr::record_map(alloc, residual.into_map())?;
                Ok(PartialValue::Residual(ResidualExpr::new(expr)))
            }
        }
    }
}

/// The record of the context's attributes, values written as expressions, at no location.
impl TryFrom<Context> for RestrictedExpr {
    type Error = AllocError;

    ghost try_from_gives = { λ c r. IfOk r (λ e. (restricted_term e ≡ partial_term (context_part_value c))
        × (restricted_loc e ≡ None)) };

    #[tactic(auto, unfolding(cedar_model::specs::Settings::context_value))]
    fn try_from(context: Context) -> Result<RestrictedExpr, AllocError> {
        let alloc = context.alloc;
        match context.pairs {
            ContextPairs::Values(values) => {
                let record = shared_record(alloc, values)?;
                Ok(RestrictedExpr::try_from_value(alloc, record)?)
            }
            ContextPairs::Residual(residual) => {
                let expr = Expr::record_map(alloc, residual.into_map())?;
                Ok(RestrictedExpr::new_unchecked(expr))
            }
        }
    }
}

// The record of the values, at no location: it shares them.
fn shared_record(alloc: Global, values: ContextValues) -> Result<Value, AllocError>
    ensures what { IfOk result (λ v. v.what ≡ record_represented (whats_at values.entries)) }
    ensures loc { IfOk result (λ v. v.loc ≡ None) }
{
    let shared = values.into_shared(alloc)?;
    Ok(Value::new(ValueKind::Record(shared), None))
}

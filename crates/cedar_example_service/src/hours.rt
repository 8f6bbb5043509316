//! The hours at which the service is open: a function that policies call.
ghost use Rattle.std.specs.Prelude.{◌≡◌, true, [], ◌∷◌};
ghost use Rattle.cedar_policy_core.specs.Model.Values.{abstract_value};
ghost use Rattle.cedar_policy_core.specs.Model.Outcomes.{type_error};
ghost use Rattle.cedar_policy_core.specs.Model.World.{function_errs};
ghost use Rattle.cedar_policy_core.specs.Extensions.Outcomes.{ComesTo, is_lawful, abstracts};
ghost use Rattle.cedar_example_service.specs.Stored.{is_open_of};

use cedar_policy_core::ast::{ExtensionOutputValue, FirstRest, Literal, Type, Value, ValueKind};
use cedar_policy_core::evaluator::EvaluationError;
use cedar_policy_core::evaluator::evaluation_errors::TypeError;
use std::alloc::Global;

/// Whether the service is open at the hour that is the first argument, or a type error that expects a long.
#[tactic(auto, unfolding(crate::specs::Stored::is_open_of))]
pub fn is_open(alloc: Global, args: &[Value]) -> Result<ExtensionOutputValue, EvaluationError>
    ensures computes { ComesTo result (is_open_of (abstracts args.now)) }
    ensures lawful { is_lawful result ≡ true }
{
    match args.first() {
        Some(hour) => is_open_at(alloc, hour),
        None => long_expected(alloc, &Value::from(false)),
    }
}

#[tactic(auto, unfolding(crate::specs::Stored::is_open_of))]
fn is_open_at(alloc: Global, hour: &Value) -> Result<ExtensionOutputValue, EvaluationError>
    ensures computes { ComesTo result (is_open_of (abstract_value hour.now.what ∷ [])) }
    ensures lawful { is_lawful result ≡ true }
{
    match hour.value_kind() {
        ValueKind::Lit(literal) => match literal {
            Literal::Long(h) => {
                let is_open = 8 <= *h && *h < 18;
                Ok(ExtensionOutputValue::Known(Value::from(is_open)))
            }
            Literal::Bool(_) => long_expected(alloc, hour),
            Literal::String(_) => long_expected(alloc, hour),
            Literal::EntityUID(_) => long_expected(alloc, hour),
        },
        ValueKind::Set(_) => long_expected(alloc, hour),
        ValueKind::Record(_) => long_expected(alloc, hour),
        ValueKind::ExtensionValue(_) => long_expected(alloc, hour),
    }
}

// The error that the value is no long.
fn long_expected(alloc: Global, value: &Value) -> Result<ExtensionOutputValue, EvaluationError>
    ensures computes { ComesTo result (function_errs type_error) }
    ensures lawful { is_lawful result ≡ true }
{
    match value.type_of() {
        Ok(actual) => Err(EvaluationError::TypeError(TypeError {
            expected: FirstRest {
                first: Type::Long,
                rest: Vec::new(alloc),
            },
            actual,
            source_loc: None,
        })),
        Err(error) => Err(EvaluationError::Memory(error)),
    }
}

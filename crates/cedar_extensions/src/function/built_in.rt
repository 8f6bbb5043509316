//! The built-in function `unknown`, which makes an unknown of its name.
ghost use Rattle.std.specs.Prelude.{◌≡◌, ◌≢◌};
ghost use Rattle.cedar_model.specs.Failures.{fails, out_of_memory};
ghost use Rattle.cedar_extensions.specs.Answers.{returned_answer, asks, IsTextExpected};

use super::stored::ExtensionOutputValue;
use cedar_errors::evaluator::err::EvaluationError;
use cedar_errors::evaluator::err::evaluation_errors::TypeError;
use cedar_names::{FirstRest, Type, Unknown};
use cedar_values::{Value, text_in};
use std::alloc::Global;

// The unknown of this name, or a type error that expects a text.
#[tactic(auto, unfolding(cedar_model::specs::Operators::expecting))]
pub(crate) fn ask(alloc: Global, value: &Value) -> Result<ExtensionOutputValue, EvaluationError>
    ensures { returned_answer result ≢ fails out_of_memory → returned_answer result ≡ asks value.now.what }
{
    match text_in(value) {
        Some(name) => match name.clone() {
            Ok(name) => Ok(ExtensionOutputValue::Unknown(Unknown::new_untyped(name))),
            Err(error) => Err(EvaluationError::Memory(error)),
        },
        None => Err(text_expected(alloc, value)),
    }
}

// The error that the value is no text, at the value's location.
#[cold]
#[inline(never)]
fn text_expected(alloc: Global, value: &Value) -> EvaluationError
    ensures { IsTextExpected value.now.what result }
{
    match value.type_of() {
        Ok(actual) => EvaluationError::TypeError(TypeError {
            expected: FirstRest {
                first: Type::String,
                rest: Vec::new(alloc),
            },
            actual,
            source_loc: value.source_loc().copied(),
        }),
        Err(error) => EvaluationError::Memory(error),
    }
}

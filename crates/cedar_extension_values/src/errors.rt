//! The errors of functions of the standard extensions.
ghost use Rattle.std.specs.Prelude.{◌≡◌, [], None, IfOk};
ghost use Rattle.std.specs.String.{string_bytes};
ghost use Rattle.cedar_model.specs.Failures.{wrong_type, function_has_failed};
ghost use Rattle.cedar_model.specs.Values.{abstract_value};
ghost use Rattle.cedar_names.specs.Leaves.{type_view};
ghost use Rattle.cedar_names.specs.Names.{name_text};
ghost use Rattle.cedar_errors.specs.Answers.{FailsWith};
ghost use Rattle.cedar_errors.specs.Errors.{error_loc};

use cedar_errors::evaluator::err::EvaluationError;
use cedar_errors::evaluator::err::evaluation_errors::{ExtensionFunctionExecutionError, TypeError};
use cedar_names::{FirstRest, Name, Type};
use cedar_values::Value;
use std::alloc::{AllocError, Global};
use std::rc::RcStr;

/// The error that a value of this type was expected, and this value was there. At no place: the evaluator says where.
/// `Memory` if out of memory.
#[cold]
#[inline(never)]
pub fn type_error(alloc: Global, expected: Type, value: &Value) -> EvaluationError
    ensures failure { FailsWith result (wrong_type (type_view expected) [] (abstract_value value.now.what)) }
    ensures place { error_loc result ≡ None }
{
    match value.type_of() {
        Ok(actual) => EvaluationError::TypeError(TypeError {
            expected: FirstRest {
                first: expected,
                rest: Vec::new(alloc),
            },
            actual,
            source_loc: None,
        }),
        Err(error) => EvaluationError::Memory(error),
    }
}

/// The error that a function of the extension of this name failed, with this message. At no place: the evaluator says
/// where. `Memory` if out of memory.
#[cold]
#[inline(never)]
pub fn fail_with_message(alloc: Global, extension_name: &str, message: &str) -> EvaluationError
    ensures failure { FailsWith result (function_has_failed extension_name.now message.now) }
    ensures place { error_loc result ≡ None }
{
    match failure(alloc, extension_name, message) {
        Ok(error) => EvaluationError::FailedExtensionFunctionExecution(error),
        Err(error) => EvaluationError::Memory(error),
    }
}

fn failure(
    alloc: Global,
    extension_name: &str,
    message: &str,
) -> Result<ExtensionFunctionExecutionError, AllocError>
    ensures name { IfOk result (λ e. name_text e.extension_name ≡ extension_name.now) }
    ensures message { IfOk result (λ e. string_bytes e.msg ≡ message.now) }
    ensures place { IfOk result (λ e. e.source_loc ≡ None) }
{
    Ok(ExtensionFunctionExecutionError {
        extension_name: parse_name(alloc, extension_name)?,
        msg: String::from_str(alloc, message)?,
        source_loc: None,
    })
}

// The name of this text, at no place.
pub(crate) fn parse_name(alloc: Global, text: &str) -> Result<Name, AllocError>
    ensures { IfOk result (λ n. name_text n ≡ text.now) }
{
    Ok(Name::new(RcStr::from_str(alloc, text)?, None))
}

//! Reads errors of evaluation: `TypeError Bool Long,String` has the type that was given and those that were expected,
//! `WrongNumArguments f 2 1` the function, the count that it takes and the count that it was given,
//! `FailedExtensionFunctionExecution f text` the extension and what it says.
use crate::notation::leaves::{name, named_type};
use crate::notation::unanswered::Unanswered;
use crate::notation::{Parts, both, split_first_word};
use cedar_errors::evaluator::err::EvaluationError;
use cedar_errors::evaluator::err::evaluation_errors::{
    ExtensionFunctionExecutionError, TypeError, WrongNumArgumentsError,
};
use cedar_layers::expressions::{FirstRest, Type};
use std::alloc::Global;

/// The error that these words write, at no known place.
pub fn error(alloc: Global, words: &str) -> Result<EvaluationError, Unanswered> {
    let (kind, rest) = split_first_word(words);
    let (first, rest) = split_first_word(rest);
    match kind {
        "TypeError" => type_error(alloc, first, rest),
        "WrongNumArguments" => wrong_count(alloc, first, rest),
        "FailedExtensionFunctionExecution" => failed_execution(alloc, first, rest),
        _ => Err(Unanswered::Unreadable("no such error")),
    }
}

fn type_error(alloc: Global, actual: &str, expected: &str) -> Result<EvaluationError, Unanswered> {
    let (expected, actual) = both(types(alloc, expected), named_type(alloc, actual))?;
    Ok(EvaluationError::from(TypeError {
        expected,
        actual,
        source_loc: None,
    }))
}

fn types(alloc: Global, written: &str) -> Result<FirstRest<Type>, Unanswered> {
    let (first, others) = match written.split_once(',') {
        Some((first, others)) => (first, Some(others)),
        None => (written, None),
    };
    let (first, rest) = both(named_type(alloc, first), other_types(alloc, others))?;
    Ok(FirstRest { first, rest })
}

fn other_types(alloc: Global, others: Option<&str>) -> Result<Vec<Type>, Unanswered> {
    let mut types: Parts<Type> = Parts::new(alloc);
    if let Some(others) = others {
        for other in others.split(',') {
            types.push_read(named_type(alloc, other));
        }
    }
    types.all()
}

fn wrong_count(alloc: Global, function: &str, counts: &str) -> Result<EvaluationError, Unanswered> {
    let (expected, actual) = split_first_word(counts);
    let (expected, actual) = (expected.parse::<usize>()?, actual.parse::<usize>()?);
    let function_name = name(alloc, function)?;
    let error = WrongNumArgumentsError {
        function_name,
        expected,
        actual,
        source_loc: None,
    };
    Ok(EvaluationError::from(error))
}

fn failed_execution(
    alloc: Global,
    extension: &str,
    says: &str,
) -> Result<EvaluationError, Unanswered> {
    let msg = String::from_str(alloc, says)?;
    let extension_name = name(alloc, extension)?;
    let error = ExtensionFunctionExecutionError {
        extension_name,
        msg,
        source_loc: None,
    };
    Ok(EvaluationError::from(error))
}

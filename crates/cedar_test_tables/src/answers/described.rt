//! Errors of evaluation as one line of text: what the error says of itself, and behind that the fields that it does
//! not tell, but for the place.
use crate::notation::answer::Answer;
use cedar_evaluator::evaluator::EvaluationError;
use std::rc::RcStr;

/// The error as one line of text. Running out of memory is no answer.
pub fn describe(answer: &mut Answer, error: &EvaluationError) {
    match error {
        EvaluationError::EntityAttrDoesNotExist(fields) => {
            let (names, total) = (&fields.available_attrs_or_tags, fields.total_attrs_or_tags);
            answer.show(error);
            put_names(answer, fields.exists_the_other_kind, names, total);
        }
        EvaluationError::RecordAttrDoesNotExist(fields) => {
            answer.show(error);
            put_names(answer, false, &fields.available_attrs, fields.total_attrs);
        }
        EvaluationError::Memory(_) => answer.lack_memory(),
        _ => answer.show(error),
    }
}

/// The kind of the error.
pub fn kind(error: &EvaluationError) -> &'static str {
    match error {
        EvaluationError::EntityDoesNotExist(_) => "EntityDoesNotExist",
        EvaluationError::EntityAttrDoesNotExist(_) => "EntityAttrDoesNotExist",
        EvaluationError::RecordAttrDoesNotExist(_) => "RecordAttrDoesNotExist",
        EvaluationError::FailedExtensionFunctionLookup(_) => "FailedExtensionFunctionLookup",
        EvaluationError::TypeError(_) => "TypeError",
        EvaluationError::WrongNumArguments(_) => "WrongNumArguments",
        EvaluationError::IntegerOverflow(_) => "IntegerOverflow",
        EvaluationError::UnlinkedSlot(_) => "UnlinkedSlot",
        EvaluationError::FailedExtensionFunctionExecution(_) => "FailedExtensionFunctionExecution",
        EvaluationError::NonValue(_) => "NonValue",
        EvaluationError::RecursionLimit(_) => "RecursionLimit",
        EvaluationError::Memory(_) => "Memory",
    }
}

// Whether it is there as the other kind, and what is there of its kind: some names, and how many there are.
fn put_names(answer: &mut Answer, is_other: bool, names: &[RcStr], total: usize) {
    answer.put(", other ");
    answer.show(&is_other);
    answer.put(", ");
    answer.show(&total);
    answer.put(":");
    for name in names {
        answer.put(" ");
        answer.put(name.as_str());
    }
}

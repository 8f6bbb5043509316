//! What is wrong with the texts, as it is told: the file, the place, and why.
use crate::arguments::Options;
use crate::refusal::{Refusal, refuse_with_line};
use crate::serving::Texts;
use cedar_json_reader::JsonError;
use cedar_names::FirstRest;
use cedar_service::{NotStarted, policies_reason};
use cedar_text_parser::ParseError;
use std::alloc::{AllocError, Global};

/// The refusal of texts of which no engine is made.
#[cold]
pub(crate) fn refuse_texts(
    alloc: Global,
    files: &Options<'_>,
    texts: &Texts<'_>,
    reason: &NotStarted,
) -> Refusal {
    let name = files.entities;
    match reason {
        NotStarted::Policies(errors) => {
            refuse_with_line(
                alloc,
                policies_line(alloc, files.policies, texts.policies, errors),
            )
        }
        NotStarted::Entities(error) => {
            refuse_with_line(alloc, entities_line(alloc, name, error))
        }
        NotStarted::Parents(error) => {
            refuse_with_line(alloc, format!(in alloc; "{name}: {error}"))
        }
        NotStarted::Memory => Refusal::Memory,
    }
}

// `NAME: line L, column C: why`, of the first error of the policies, and how many more there are.
fn policies_line(
    alloc: Global,
    name: &str,
    text: &str,
    errors: &FirstRest<ParseError>,
) -> Result<String, AllocError> {
    let reason = policies_reason(alloc, text, errors)?;
    let reason = reason.as_str();
    format!(in alloc; "{name}: {reason}")
}

// `NAME: $.path: why`; a text that is no JSON has no path.
fn entities_line(alloc: Global, name: &str, error: &JsonError) -> Result<String, AllocError> {
    match error {
        JsonError::Syntax => {
            format!(in alloc;
                "{name}: not JSON, or more than 128 arrays and objects, one in another"
            )
        }
        JsonError::DuplicateKey => { format!(in alloc; "{name}: a key comes twice in an object") }
        JsonError::Refused { path, reason } => { format!(in alloc; "{name}: {path}: {reason}") }
        JsonError::Evaluation { path, error } => { format!(in alloc; "{name}: {path}: {error}") }
        JsonError::Memory(_) => Err(AllocError),
    }
}

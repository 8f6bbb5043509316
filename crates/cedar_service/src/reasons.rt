//! What is wrong with a text of policies, as it is told: the place, and why.
use cedar_names::FirstRest;
use cedar_text_lexer::errors::ReadError;
use cedar_text_lexer::show::locate;
use cedar_text_parser::ParseError;
use cedar_text_parser::show::message;
use std::alloc::{AllocError, Global};

/// The first of the errors of this text, as `line L, column C: why`, and how many more there are. Refuses only if out
/// of memory.
pub fn policies_reason(
    alloc: Global,
    text: &str,
    errors: &FirstRest<ParseError>,
) -> Result<String, AllocError> {
    let reason = error_reason(alloc, text, &errors.first)?;
    let more = errors.rest.len();
    if more == 0 {
        return Ok(reason);
    }
    let reason = reason.as_str();
    format!(in alloc; "{reason} (and {more} more)")
}

fn error_reason(alloc: Global, text: &str, error: &ParseError) -> Result<String, AllocError> {
    let why = message(alloc, text, error)?;
    let start = start_of(error).min(text.len());
    let place = locate(text, start);
    let (line, column, why) = (place.line, place.column, why.as_str());
    format!(in alloc; "line {line}, column {column}: {why}")
}

// The byte from which on the text can't be read.
fn start_of(error: &ParseError) -> usize {
    match error {
        ParseError::Read(error) => start_of_read(*error),
        ParseError::UnknownFunction { start, .. } => *start,
        ParseError::WrongStyle { start, .. } => *start,
        ParseError::WrongNumberOfArguments { start, .. } => *start,
    }
}

fn start_of_read(error: ReadError) -> usize {
    match error {
        ReadError::Memory => 0,
        ReadError::Expected { start, .. } => start,
        ReadError::TooDeep { start, .. } => start,
    }
}

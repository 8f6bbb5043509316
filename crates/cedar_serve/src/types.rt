//! The type of the actions.
use crate::refusal::{Refusal, refuse_with_line};
use cedar_text_lexer::errors::ReadError;
use cedar_text_parser::parse_name;
use std::alloc::{AllocError, Global};

// What it is where that is not said.
const ACTION: &str = "Action";

/// The type that the option says, as `App::Action`: its name, without what may stand between its parts; where it says
/// none, `Action`. Refuses what is no name.
pub(crate) fn type_said(alloc: Global, said: Option<&str>) -> Result<String, Refusal> {
    match said {
        Some(text) => type_in(alloc, text),
        None => Ok(String::from_str(alloc, ACTION)?),
    }
}

fn type_in(alloc: Global, text: &str) -> Result<String, Refusal> {
    match parse_name(alloc, text) {
        Ok(name) => {
            let text: Result<String, AllocError> = format!(in alloc; "{name}");
            drop(name);
            Ok(text?)
        }
        Err(ReadError::Memory) => Err(Refusal::Memory),
        Err(error) => Err(no_type(refuse_with_line(
            alloc,
            format!(in alloc; "--action-type: {error}"),
        ))),
    }
}

#[cold]
fn no_type(refusal: Refusal) -> Refusal {
    match refusal {
        Refusal::Told(line) => Refusal::NoType(line),
        Refusal::NoType(line) => Refusal::NoType(line),
        Refusal::Memory => Refusal::Memory,
    }
}

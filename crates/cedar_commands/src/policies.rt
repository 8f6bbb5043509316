//! Policies in JSON: as the text that says the same, from which on all is as of policies in text.
use cedar_cli::{Refusal, Source, refuse_with_line};
use cedar_policy_core::ast::{Extension, ExtensionFunction, Name};
use cedar_policy_core::extensions::Extensions;
use cedar_policy_core::parser::Functions;
use cedar_policy_json_text::{PolicyTextError, deciding_policies_to_text, policies_to_text};
use std::alloc::{AllocError, Global};
use std::rc::RcStr;

// How many levels a policy may have, as those of a text.
pub(crate) const LEVELS: usize = 4000;

/// The text of the policies that the JSON says, in which the standard functions and `unknown` may be called; where it is
/// to decide, without the templates that have links.
pub(crate) fn text_of_json(
    alloc: Global,
    json: Source<'_>,
    is_deciding: bool,
) -> Result<String, Refusal> {
    let functions = known_functions(alloc)?;
    let text = if is_deciding {
        deciding_policies_to_text(alloc, json.text, &functions, LEVELS)
    } else {
        policies_to_text(alloc, json.text, &functions, LEVELS)
    };
    drop(functions);
    match text {
        Ok(text) => Ok(text),
        Err(error) => Err(refusal(alloc, json.name, &error)),
    }
}

/// The standard functions and `unknown`.
pub(crate) fn known_functions(alloc: Global) -> Result<Functions, Refusal> {
    let name = Name::new(RcStr::from_str(alloc, "partial_evaluation")?, None);
    let functions = vec![in alloc; ExtensionFunction::unknown(alloc)?]?;
    let all = vec![in alloc; Extension::new(name, functions, Vec::new(alloc))]?;
    match Extensions::with_standard(alloc, all.as_slice()) {
        Ok(extensions) => Ok(Functions::of(alloc, &extensions)?),
        Err(_) => Err(Refusal::Memory),
    }
}

#[cold]
fn refusal(alloc: Global, name: &str, error: &PolicyTextError) -> Refusal {
    match error {
        PolicyTextError::Memory(_) => Refusal::Memory,
        _ => refuse_with_line(alloc, format!(in alloc; "{name}: {error}")),
    }
}

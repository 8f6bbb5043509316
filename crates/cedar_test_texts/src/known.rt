//! What is read where only the function `unknown` is known.
use crate::answer::Answer;
use crate::questions::{MANY, Shown, ask_expression, ask_policies, ask_policy};
use crate::told::ask_told;
use cedar_extensions::{Extension, ExtensionFunction, Extensions};
use cedar_functions::Functions;
use cedar_names::Name;
use std::alloc::{AllocError, Global};
use std::rc::RcStr;

/// Answers the question on the text, which may call no function but `unknown`.
pub fn ask_known(answer: &mut Answer, question: &str, text: &str) {
    match known_functions(answer.alloc) {
        Ok(functions) => {
            match question {
                "tree" => ask_expression(answer, Shown::Tree, MANY, text, &functions),
                "policies" => ask_policies(answer, Shown::Tree, text, &functions),
                "policy" => ask_policy(answer, text, &functions),
                "told" => ask_told(answer, text, &functions),
                _ => answer.refuse("no such question"),
            }
            drop(functions);
        }
        Err(_) => answer.lack_memory(),
    }
}

// The function `unknown`.
fn known_functions(alloc: Global) -> Result<Functions, AllocError> {
    let functions = vec![in alloc; ExtensionFunction::unknown(alloc)?]?;
    let name = Name::new(RcStr::from_str(alloc, "unknowns")?, None);
    let extensions = vec![in alloc; Extension::new(name, functions, Vec::new(alloc))]?;
    match Extensions::specific_extensions(alloc, &extensions) {
        Ok(extensions) => Functions::of(alloc, &extensions),
        Err(_) => Err(AllocError),
    }
}

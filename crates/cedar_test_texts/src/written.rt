//! Texts that are read, written in Cedar's own syntax, and then asked again.
use crate::answer::Unanswered;
use crate::questions::MANY;
use cedar_functions::Functions;
use cedar_layers::policies::PolicyID;
use cedar_text_parser::{parse_expr, parse_policies, parse_policy};
use cedar_text_printer::{policies_to_cedar, policy_to_cedar, to_cedar};
use std::alloc::Global;
use std::rc::RcStr;

/// The text in Cedar's own syntax: the expression, policy or policies that it is read as, written. Of another question,
/// and where it can't be read or has templates, the text itself.
pub fn rewrite_text(alloc: Global, question: &str, text: &str) -> Result<String, Unanswered> {
    match question {
        "tree" => expression(alloc, text),
        "policies" => policies(alloc, text),
        "policy" => policy(alloc, text),
        _ => itself(alloc, text),
    }
}

fn itself(alloc: Global, text: &str) -> Result<String, Unanswered> {
    Ok(String::from_str(alloc, text)?)
}

fn expression(alloc: Global, text: &str) -> Result<String, Unanswered> {
    match parse_expr(alloc, text, MANY, &Functions::any()) {
        Ok(expr) => Ok(to_cedar(alloc, &expr)?),
        Err(_) => itself(alloc, text),
    }
}

fn policies(alloc: Global, text: &str) -> Result<String, Unanswered> {
    match parse_policies(alloc, text, MANY, &Functions::any()) {
        Ok(parsed) => {
            if parsed.templates.is_empty() {
                Ok(policies_to_cedar(alloc, &parsed.policies)?)
            } else {
                itself(alloc, text)
            }
        }
        Err(_) => itself(alloc, text),
    }
}

fn policy(alloc: Global, text: &str) -> Result<String, Unanswered> {
    let id = PolicyID::from_string(RcStr::from_str(alloc, "policy")?);
    match parse_policy(alloc, id, text, MANY, &Functions::any()) {
        Ok(policy) => Ok(policy_to_cedar(alloc, &policy)?),
        Err(_) => itself(alloc, text),
    }
}

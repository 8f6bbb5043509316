#![tactic(auto)]
//! A policy, to JSON and back, to text and to JSON.
use cedar_functions::Functions;
use cedar_json_writer::JsonValue;
use cedar_layers::policies::{Policy, PolicyID};
use cedar_policy_json_reader::{
    PolicyJsonError, json_depth, parse_deep_json, policy_from_json, template_from_json,
};
use cedar_policy_json_writer::{policy_to_json, template_to_json};
use cedar_text_lexer::errors::ReadError;
use cedar_text_parser::{ParseError, parse_policy};
use cedar_text_printer::policy_to_cedar;
use cedar_unsatisfiable::say_the_same;
use json::Scratch;
use std::alloc::{AllocError, Global};

/// Whether the policy, or where it is open the template, comes back: its JSON is read as one that says the same under the same annotations, the
/// text of that one too, and the JSON of this last one is the first. What is read has at most so many levels. Refuses only
/// if out of memory.
pub fn comes_back(
    alloc: Global,
    is_open: bool,
    policy: &Policy,
    limit: usize,
) -> Result<bool, AllocError> {
    let json: String = written(alloc, is_open, policy)?;
    comes_back_of(alloc, is_open, policy, json.as_str(), limit)
}

// With slots where it is a template.
fn written(alloc: Global, is_open: bool, policy: &Policy) -> Result<String, AllocError> {
    if is_open {
        text_of(alloc, template_to_json(alloc, policy))
    } else {
        text_of(alloc, policy_to_json(alloc, policy))
    }
}

fn text_of(alloc: Global, json: Result<JsonValue, AllocError>) -> Result<String, AllocError> {
    match json {
        Ok(json) => {
            let text = json.to_text(alloc);
            drop(json);
            text
        }
        Err(error) => Err(error),
    }
}

fn comes_back_of(
    alloc: Global,
    is_open: bool,
    policy: &Policy,
    json: &str,
    limit: usize,
) -> Result<bool, AllocError> {
    match read(alloc, is_open, policy, json, limit) {
        Ok(read) => {
            let comes = comes_further(alloc, is_open, policy, &read, json, limit);
            drop(read);
            comes
        }
        Err(PolicyJsonError::Memory(error)) => Err(error),
        Err(error) => {
            drop(error);
            Ok(false)
        }
    }
}

// The policy that the JSON says, under the id of this one.
fn read(
    alloc: Global,
    is_open: bool,
    policy: &Policy,
    json: &str,
    limit: usize,
) -> Result<Policy, PolicyJsonError> {
    let id: PolicyID = policy.id().clone()?;
    let mut scratch = Scratch::new(alloc);
    match parse_deep_json(alloc, json, &mut scratch, json_depth(limit)) {
        Ok(value) => if is_open {
            template_from_json(alloc, &value, id, &Functions::any(), limit)
        } else {
            policy_from_json(alloc, &value, id, &Functions::any(), limit)
        },
        Err(error) => {
            drop(id);
            Err(error)
        }
    }
}

// Whether what was read is the same, and goes to text and to the same JSON.
fn comes_further(
    alloc: Global,
    is_open: bool,
    policy: &Policy,
    read: &Policy,
    json: &str,
    limit: usize,
) -> Result<bool, AllocError> {
    if is_same(policy, read) {
        let text: String = policy_to_cedar(alloc, read)?;
        comes_of_text(alloc, is_open, policy, text.as_str(), json, limit)
    } else {
        Ok(false)
    }
}

fn comes_of_text(
    alloc: Global,
    is_open: bool,
    policy: &Policy,
    text: &str,
    json: &str,
    limit: usize,
) -> Result<bool, AllocError> {
    let id: PolicyID = policy.id().clone()?;
    match parse_policy(alloc, id, text, limit, &Functions::any()) {
        Ok(read) => {
            let comes = is_written_so(alloc, is_open, policy, &read, json);
            drop(read);
            comes
        }
        Err(error) => {
            let is_memory = is_memory(&error);
            drop(error);
            if is_memory {
                Err(AllocError)
            } else {
                Ok(false)
            }
        }
    }
}

/// Whether the error is that memory ran out.
pub(crate) fn is_memory(error: &ParseError) -> bool {
    match error {
        ParseError::Read(ReadError::Memory) => true,
        _ => false,
    }
}

fn is_written_so(
    alloc: Global,
    is_open: bool,
    policy: &Policy,
    read: &Policy,
    json: &str,
) -> Result<bool, AllocError> {
    if is_same(policy, read) {
        let again: String = written(alloc, is_open, read)?;
        Ok(again.as_str() == json)
    } else {
        Ok(false)
    }
}

fn is_same(policy: &Policy, other: &Policy) -> bool {
    say_the_same(policy, other) && policy.annotations_rc() == other.annotations_rc()
}

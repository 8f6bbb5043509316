//! Policies that are made in code, as Cedar's text, with the signs of rows for blanks.
use crate::answer::Answer;
use crate::questions::MANY;
use crate::samples::sample;
use cedar_builder::PolicyBuilder;
use cedar_functions::Functions;
use cedar_layers::policies::{Policy, PolicyID};
use cedar_text_lexer::errors::ReadError;
use cedar_text_parser::{ParseError, parse_policy};
use cedar_text_printer::policy_to_cedar;
use std::rc::RcStr;

/// Writes the text of the policy of this name, and whether it is read as another policy than the one that was made.
pub fn ask_built(answer: &mut Answer, name: &str) {
    match sample(answer, name) {
        Some(said) => put_built(answer, said),
        None => answer.refuse("no policy of this name"),
    }
}

fn put_built(answer: &mut Answer, said: PolicyBuilder) {
    match said.policy() {
        Ok(policy) => {
            put_written(answer, &policy);
            drop(policy);
        }
        Err(_) => answer.lack_memory(),
    }
}

fn put_written(answer: &mut Answer, policy: &Policy) {
    match policy_to_cedar(answer.alloc, policy) {
        Ok(text) => {
            put_signed(answer, text.as_str());
            put_if_other(answer, policy, text.as_str());
        }
        Err(_) => answer.lack_memory(),
    }
}

fn put_signed(answer: &mut Answer, text: &str) {
    for character in text.chars() {
        match character {
            '\n' => answer.put("␊"),
            _ => answer.put_char(character),
        }
    }
}

fn put_if_other(answer: &mut Answer, policy: &Policy, text: &str) {
    match RcStr::from_str(answer.alloc, "policy") {
        Ok(id) => put_if_read_as_other(answer, policy, PolicyID::from_string(id), text),
        Err(_) => answer.lack_memory(),
    }
}

fn put_if_read_as_other(answer: &mut Answer, policy: &Policy, id: PolicyID, text: &str) {
    match parse_policy(answer.alloc, id, text, MANY, &Functions::any()) {
        Ok(read) => {
            if !are_equal(policy, &read) {
                answer.put(", read as another");
            }
            drop(read);
        }
        Err(error) => put_unread(answer, error),
    }
}

// Running out of memory is no answer.
fn put_unread(answer: &mut Answer, error: ParseError) {
    match error {
        ParseError::Read(ReadError::Memory) => answer.lack_memory(),
        _ => answer.put(", not read"),
    }
    drop(error);
}

fn are_equal(policy: &Policy, read: &Policy) -> bool {
    policy.id() == read.id()
        && policy.effect() == read.effect()
        && **policy.annotations_rc() == **read.annotations_rc()
        && policy.principal_constraint() == read.principal_constraint()
        && policy.action_constraint() == read.action_constraint()
        && policy.resource_constraint() == read.resource_constraint()
        && policy.when_clause() == read.when_clause()
}

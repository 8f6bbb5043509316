//! Policies and expressions that are read of JSON, as text, and those that go to JSON and back.
use crate::answer::{Answer, Unanswered};
use crate::given::LEVELS;
use cedar_expressions::Expr;
use cedar_functions::Functions;
use cedar_json_writer::JsonValue;
use cedar_policy_json_reader::{PolicyJsonError, expression_from_json_str};
use cedar_policy_json_text::{PolicyTextError, policies_to_text};
use cedar_policy_json_writer::policy_set_to_json;
use cedar_text_parser::ParsedPolicies;
use std::alloc::AllocError;

/// Writes the policies that the JSON says, as text, each line behind the one before, or why there is none.
pub fn put_text(answer: &mut Answer, json: &str) {
    match policies_to_text(answer.alloc, json, &Functions::any(), LEVELS) {
        Ok(text) => {
            put_lines(answer, text.as_str());
            drop(text);
        }
        Err(PolicyTextError::Memory(_)) => answer.fail(Unanswered::Memory),
        Err(error) => {
            answer.show(&error);
            drop(error);
        }
    }
}

// On one line.
fn put_lines(answer: &mut Answer, text: &str) {
    let mut is_first = true;
    'lines: for line in text.lines() {
        if !line.is_empty() {
            if !is_first {
                answer.put(" ");
            }
            answer.put(line);
            is_first = false;
        }
    }
}

/// Writes the expression that the JSON says, as text, or why it says none.
pub fn put_expression_read(answer: &mut Answer, json: &str) {
    match expression_from_json_str(answer.alloc, json, &Functions::any(), LEVELS) {
        Ok(expr) => put_and_drop(answer, expr),
        Err(PolicyJsonError::Memory(_)) => answer.fail(Unanswered::Memory),
        Err(error) => {
            answer.show(&error);
            drop(error);
        }
    }
}

fn put_and_drop(answer: &mut Answer, expr: Expr) {
    answer.put_expression(&expr);
    drop(expr);
}

/// Writes the policies and templates as text, once more of their JSON.
pub fn put_again(answer: &mut Answer, parsed: &ParsedPolicies) {
    let templates = parsed.templates.as_slice();
    match policy_set_to_json(answer.alloc, &parsed.policies, templates, &[]) {
        Ok(json) => put_text_of(answer, json),
        Err(AllocError) => answer.fail(Unanswered::Memory),
    }
}

fn put_text_of(answer: &mut Answer, json: JsonValue) {
    let text = json.to_text(answer.alloc);
    drop(json);
    match text {
        Ok(text) => {
            put_text(answer, text.as_str());
            drop(text);
        }
        Err(_) => answer.fail(Unanswered::Memory),
    }
}

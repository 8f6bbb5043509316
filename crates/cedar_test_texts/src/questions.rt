//! What is asked of texts.
//!
//! - `tree`: the expression as a tree, or why there is none: `LINE:COLUMN expected .., found ..`;
//! - `places`: where its nodes stand;
//! - `within LIMIT`: the tree within so many levels, or where what has more stands: `LINE:COLUMN too deep`;
//! - `levels`: the least limit within which it is read;
//! - `entity`: the entity, as a tree, and `name`: the name;
//! - `policies`: the policies and templates, or why each policy that can't be read can't;
//! - `policy-places`: where they stand, and where the nodes of their three constraints and their condition do;
//! - `policy`: the only policy;
//! - `built`: the policy of this name that is made in code (`samples`), written in Cedar's own syntax;
//! - `known tree`, `known policies` and `known policy`: the same, where `unknown` is the only function that is known; of
//!   a call of another it says `LINE:COLUMN` and why it is refused;
//! - `known told`: that the text is read, or what its error says without the text;
//! - `json QUESTION`: what `json` has of texts in JSON.
use crate::answer::Answer;
use crate::built::ask_built;
use crate::json::ask_json;
use crate::known::ask_known;
use crate::places::put_places;
use crate::policies::{put_policies, put_policy};
use crate::trees::{put_entity, put_tree};
use cedar_expressions::Expr;
use cedar_functions::Functions;
use cedar_layers::policies::PolicyID;
use cedar_names::FirstRest;
use cedar_text_lexer::errors::{Expected, ReadError};
use cedar_text_lexer::show::locate;
use cedar_text_lexer::tokens::Kind;
use cedar_text_parser::show::message;
use cedar_text_parser::{
    ParseError, parse_entity_uid, parse_expr, parse_name, parse_policies, parse_policy,
};
use std::rc::RcStr;

/// More levels than any text of a row has.
pub const MANY: usize = 1000;

/// Answers the question on the text.
pub fn ask(answer: &mut Answer, question: &str, text: &str) {
    match question {
        "tree" => ask_expression(answer, Shown::Tree, MANY, text, &Functions::any()),
        "places" => ask_expression(answer, Shown::Places, MANY, text, &Functions::any()),
        "levels" => ask_levels(answer, text),
        "entity" => ask_entity(answer, text),
        "name" => ask_name(answer, text),
        "policies" => ask_policies(answer, Shown::Tree, text, &Functions::any()),
        "policy-places" => ask_policies(answer, Shown::Places, text, &Functions::any()),
        "policy" => ask_policy(answer, text, &Functions::any()),
        "built" => ask_built(answer, text),
        _ => ask_more(answer, question, text),
    }
}

fn ask_more(answer: &mut Answer, question: &str, text: &str) {
    match question.strip_prefix("json ") {
        Some(asked) => ask_json(answer, asked, text),
        None => match question.strip_prefix("known ") {
            Some(asked) => ask_known(answer, asked, text),
            None => ask_within(answer, question, text),
        },
    }
}

fn ask_within(answer: &mut Answer, question: &str, text: &str) {
    match question.strip_prefix("within ") {
        Some(limit) => match limit.parse::<usize>() {
            Ok(limit) => ask_expression(answer, Shown::Tree, limit, text, &Functions::any()),
            Err(_) => answer.refuse("a limit is a number"),
        },
        None => answer.refuse("no such question"),
    }
}

/// What of an expression or a policy is shown.
#[derive(Clone, Copy)]
pub enum Shown {
    /// The tree.
    Tree,
    /// Where the nodes stand.
    Places,
}

/// What is shown of the expression, which calls functions that are known.
pub fn ask_expression(
    answer: &mut Answer,
    shown: Shown,
    limit: usize,
    text: &str,
    functions: &Functions,
) {
    match parse_expr(answer.alloc, text, limit, functions) {
        Ok(expr) => {
            put_shown(answer, shown, &expr);
            drop(expr);
        }
        Err(error) => put_refusal(answer, text, error),
    }
}

/// Writes what of the expression is shown.
pub fn put_shown(answer: &mut Answer, shown: Shown, expr: &Expr) {
    match shown {
        Shown::Tree => put_tree(answer, expr),
        Shown::Places => put_places(answer, expr),
    }
}

// The least limit within which the text is read.
fn ask_levels(answer: &mut Answer, text: &str) {
    for limit in 0..MANY {
        match parse_expr(answer.alloc, text, limit, &Functions::any()) {
            Ok(expr) => {
                drop(expr);
                answer.show(&limit);
                return;
            }
            Err(error) => if is_too_deep(&error) {
                drop(error);
            } else {
                put_refusal(answer, text, error);
                return;
            },
        }
    }
    answer.refuse("it has too many levels");
}

fn ask_entity(answer: &mut Answer, text: &str) {
    match parse_entity_uid(answer.alloc, text) {
        Ok(uid) => {
            put_entity(answer, &uid);
            drop(uid);
        }
        Err(error) => put_error(answer, text, error),
    }
}

/// The policies and templates, which call functions that are known, or why each that can't be read can't.
pub fn ask_policies(answer: &mut Answer, shown: Shown, text: &str, functions: &Functions) {
    match parse_policies(answer.alloc, text, MANY, functions) {
        Ok(parsed) => {
            put_policies(answer, shown, &parsed.policies, parsed.templates.as_slice());
            drop(parsed);
        }
        Err(errors) => {
            put_errors(answer, text, &errors);
            drop(errors);
        }
    }
}

fn put_errors(answer: &mut Answer, text: &str, errors: &FirstRest<ParseError>) {
    answer.next();
    put_parse_error(answer, text, &errors.first);
    'errors: for error in &errors.rest {
        answer.next();
        put_parse_error(answer, text, error);
    }
}

/// The only policy, which calls functions that are known.
pub fn ask_policy(answer: &mut Answer, text: &str, functions: &Functions) {
    match RcStr::from_str(answer.alloc, "policy") {
        Ok(id) => put_policy_of(answer, PolicyID::from_string(id), text, functions),
        Err(_) => answer.lack_memory(),
    }
}

fn put_policy_of(answer: &mut Answer, id: PolicyID, text: &str, functions: &Functions) {
    match parse_policy(answer.alloc, id, text, MANY, functions) {
        Ok(policy) => {
            put_policy(answer, Shown::Tree, &policy);
            drop(policy);
        }
        Err(error) => put_refusal(answer, text, error),
    }
}

fn ask_name(answer: &mut Answer, text: &str) {
    match parse_name(answer.alloc, text) {
        Ok(name) => {
            answer.show(&name);
            drop(name);
        }
        Err(error) => put_error(answer, text, error),
    }
}

fn is_too_deep(error: &ParseError) -> bool {
    match error {
        ParseError::Read(ReadError::TooDeep { .. }) => true,
        _ => false,
    }
}

// Writes why the text can't be read, and where; of a call `LINE:COLUMN` and the message. Hands the error on to be
// dropped.
fn put_refusal(answer: &mut Answer, text: &str, error: ParseError) {
    put_parse_error(answer, text, &error);
    drop(error);
}

fn put_parse_error(answer: &mut Answer, text: &str, error: &ParseError) {
    match error {
        ParseError::Read(error) => put_error(answer, text, *error),
        ParseError::UnknownFunction { start, .. } => put_call(answer, text, error, *start),
        ParseError::WrongStyle { start, .. } => put_call(answer, text, error, *start),
        ParseError::WrongNumberOfArguments { start, .. } => put_call(answer, text, error, *start),
    }
}

fn put_call(answer: &mut Answer, text: &str, error: &ParseError, start: usize) {
    put_position(answer, text, start);
    answer.put(" ");
    match message(answer.alloc, text, error) {
        Ok(told) => {
            answer.put(&told);
            drop(told);
        }
        Err(_) => answer.lack_memory(),
    }
}

/// Writes why the text can't be read, and where: `LINE:COLUMN expected .., found ..`. Running out of memory is no
/// answer.
pub fn put_error(answer: &mut Answer, text: &str, error: ReadError) {
    match error {
        ReadError::Memory => answer.lack_memory(),
        ReadError::Expected {
            what,
            found,
            start,
            end: _,
        } => put_expected(answer, text, what, found, start),
        ReadError::TooDeep { start, .. } => {
            put_position(answer, text, start);
            answer.put(" too deep");
        }
    }
}

fn put_expected(answer: &mut Answer, text: &str, what: Expected, found: Kind, start: usize) {
    put_position(answer, text, start);
    answer.put(" expected ");
    answer.show(&what);
    answer.put(", found ");
    answer.show(&found);
}

// `LINE:COLUMN`, both counted from 1.
fn put_position(answer: &mut Answer, text: &str, start: usize) {
    let position = locate(text, start.min(text.len()));
    answer.show(&position.line);
    answer.put(":");
    answer.show(&position.column);
}

#![tactic(auto, using(crate::proofs::Views::views, crate::proofs::Numbers::numbers))]
//! Which lines tell what a response hands out.
ghost use Rattle.std.specs.Prelude.{◌≡◌, Some, None, IfOk, IfSome, option_map, codes, string_bytes};
ghost use Rattle.json.specs.Find.{get, as_array};
ghost use Rattle.json.specs.Tree.{HasNumbers};
ghost use Rattle.json.specs.Value.{value_view};
ghost use Rattle.cedar_log.specs.Lines.{HaveNumbers, nth, json_text, found_text, stamp_text, decision_line, other_line};
ghost use Rattle.cedar_log.specs.Exchanges.{hands_out, AreFound, AreFoundFor, AreFoundOf, exchange_text};
ghost use Rattle.cedar_log.specs.Exchanges.{single_text, several_text, listed_text, items_text, item_text};

use crate::lines::{decision_line, other_line, request_text, stamp_text};
use crate::parts::{nth, within};
use crate::reading::{Unread, parse_text};
use crate::stamps::stamp_of;
use crate::texts::{found_text, value_text};
use bytes::{Buf, Bytes};
use http::Request;
use http_server::Response;
use json::{Scratch, Value};
use std::alloc::{AllocError, Global};

/// Whether the response hands out what is told.
pub(crate) fn hands_out(request: &Request<Bytes>, response: &Response) -> bool
    ensures { result ≡ hands_out request.now response.now }
{
    request.method().as_str() == "POST" && response.status.as_u16() == 200
}

/// The lines of what the request asks and the response hands out. None, where one of the two bodies is no JSON. Refuses
/// only if out of memory; a response of which the body lies in several pieces would want more.
pub(crate) fn lines_of(
    alloc: Global,
    request: &Request<Bytes>,
    response: &Response,
) -> Result<Option<String>, AllocError>
    ensures { IfOk result (λ o. AreFound request.now response.now (option_map string_bytes o)) }
{
    match whole_body(response) {
        Some(answer) => stamped_lines(alloc, request, response, answer),
        None => Err(AllocError),
    }
}

// The body, where it lies in one piece, as `cedar_endpoints` puts it.
fn whole_body(response: &Response) -> Option<&[u8]>
    ensures { IfSome result (λ b. b.now ≡ response.now.body.items) }
{
    let piece = response.body.chunk();
    if piece.len() == response.body.len() {
        Some(piece)
    } else {
        None
    }
}

fn stamped_lines(
    alloc: Global,
    request: &Request<Bytes>,
    response: &Response,
    answer: &[u8],
) -> Result<Option<String>, AllocError>
    requires { answer.now ≡ response.now.body.items }
    ensures { IfOk result (λ o. AreFound request.now response.now (option_map string_bytes o)) }
{
    let stamp = stamp_of(alloc, response)?;
    read_body(
        alloc,
        stamp.as_str(),
        request.uri().path(),
        request.body().as_slice(),
        answer,
    )
}

/// The line of one of Cedar's own requests and the answer to it, in this version. None, where one of the two is no JSON.
/// Refuses only if out of memory.
pub fn request_line(
    alloc: Global,
    version: &str,
    request: &[u8],
    answer: &str,
) -> Result<Option<String>, AllocError>
    ensures { IfOk result (λ o. AreFoundOf (stamp_text (Some version.now) None) (codes "/v1/authorize")
        request.now answer.now (option_map string_bytes o)) }
{
    let stamp = stamp_text(alloc, Some(version), None)?;
    read_body(
        alloc,
        stamp.as_str(),
        "/v1/authorize",
        request,
        answer.as_bytes(),
    )
}

// ---- what was asked and what is answered, as JSON

fn read_body(
    alloc: Global,
    stamp: &str,
    path: &str,
    body: &[u8],
    answer: &[u8],
) -> Result<Option<String>, AllocError>
    ensures { IfOk result (λ o.
        AreFoundOf stamp.now path.now body.now answer.now (option_map string_bytes o)) }
{
    match str::from_utf8(body) {
        Ok(body) => read_asked(alloc, stamp, path, body, answer),
        Err(_) => Ok(None),
    }
}

fn read_asked(
    alloc: Global,
    stamp: &str,
    path: &str,
    body: &str,
    answer: &[u8],
) -> Result<Option<String>, AllocError>
    ensures { IfOk result (λ o.
        AreFoundOf stamp.now path.now body.now answer.now (option_map string_bytes o)) }
{
    let mut scratch = Scratch::new(alloc);
    match parse_text(alloc, body, &mut scratch) {
        Ok(asked) => read_answer(alloc, stamp, path, &asked, answer),
        Err(Unread::Syntax) => Ok(None),
        Err(Unread::Memory) => Err(AllocError),
    }
}

fn read_answer(
    alloc: Global,
    stamp: &str,
    path: &str,
    asked: &Value<'_>,
    answer: &[u8],
) -> Result<Option<String>, AllocError>
    requires { HasNumbers (value_view asked.now) }
    ensures { IfOk result (λ o.
        AreFoundFor stamp.now path.now (value_view asked.now) answer.now (option_map string_bytes o)) }
{
    match str::from_utf8(answer) {
        Ok(answer) => read_answered(alloc, stamp, path, asked, answer),
        Err(_) => Ok(None),
    }
}

fn read_answered(
    alloc: Global,
    stamp: &str,
    path: &str,
    asked: &Value<'_>,
    answer: &str,
) -> Result<Option<String>, AllocError>
    requires { HasNumbers (value_view asked.now) }
    ensures { IfOk result (λ o.
        AreFoundFor stamp.now path.now (value_view asked.now) answer.now (option_map string_bytes o)) }
{
    let mut scratch = Scratch::new(alloc);
    match parse_text(alloc, answer, &mut scratch) {
        Ok(answered) => tell(alloc, stamp, path, asked, &answered),
        Err(Unread::Syntax) => Ok(None),
        Err(Unread::Memory) => Err(AllocError),
    }
}

fn tell(
    alloc: Global,
    stamp: &str,
    path: &str,
    asked: &Value<'_>,
    answered: &Value<'_>,
) -> Result<Option<String>, AllocError>
    requires asked { HasNumbers (value_view asked.now) }
    requires answered { HasNumbers (value_view answered.now) }
    ensures { IfOk result (λ o. option_map string_bytes o ≡ Some (
        exchange_text stamp.now path.now (value_view asked.now) (value_view answered.now))) }
{
    let lines = exchange_text(alloc, stamp, path, asked, answered)?;
    Ok(Some(lines))
}

// ---- lines

fn exchange_text(
    alloc: Global,
    stamp: &str,
    path: &str,
    asked: &Value<'_>,
    answered: &Value<'_>,
) -> Result<String, AllocError>
    requires asked { HasNumbers (value_view asked.now) }
    requires answered { HasNumbers (value_view answered.now) }
    ensures { IfOk result (λ s. string_bytes s ≡
        exchange_text stamp.now path.now (value_view asked.now) (value_view answered.now)) }
{
    if path == "/access/v1/evaluation" {
        single_text(alloc, stamp, asked, answered)
    } else if path == "/access/v1/evaluations" {
        several_text(
            alloc,
            stamp,
            asked,
            answered,
            within(Some(answered), "evaluations"),
        )
    } else if path == "/v1/authorize" {
        authorized_text(alloc, stamp, asked, answered)
    } else {
        other_text(alloc, stamp, path, asked, answered)
    }
}

fn single_text(
    alloc: Global,
    stamp: &str,
    asked: &Value<'_>,
    answered: &Value<'_>,
) -> Result<String, AllocError>
    requires asked { HasNumbers (value_view asked.now) }
    requires answered { HasNumbers (value_view answered.now) }
    ensures { IfOk result (λ s. string_bytes s ≡
        single_text stamp.now (value_view asked.now) (value_view answered.now)) }
{
    let request = request_text(alloc, None, asked)?;
    let answer = value_text(alloc, answered)?;
    decision_line(alloc, stamp, request.as_str(), answer.as_str())
}

fn authorized_text(
    alloc: Global,
    stamp: &str,
    asked: &Value<'_>,
    answered: &Value<'_>,
) -> Result<String, AllocError>
    requires asked { HasNumbers (value_view asked.now) }
    requires answered { HasNumbers (value_view answered.now) }
    ensures { IfOk result (λ s. string_bytes s ≡
        decision_line stamp.now (json_text (value_view asked.now)) (json_text (value_view answered.now))) }
{
    let request = value_text(alloc, asked)?;
    let answer = value_text(alloc, answered)?;
    decision_line(alloc, stamp, request.as_str(), answer.as_str())
}

fn other_text(
    alloc: Global,
    stamp: &str,
    path: &str,
    asked: &Value<'_>,
    answered: &Value<'_>,
) -> Result<String, AllocError>
    requires asked { HasNumbers (value_view asked.now) }
    requires answered { HasNumbers (value_view answered.now) }
    ensures { IfOk result (λ s. string_bytes s ≡
        other_line stamp.now path.now (json_text (value_view asked.now)) (json_text (value_view answered.now))) }
{
    let asked = value_text(alloc, asked)?;
    let answer = value_text(alloc, answered)?;
    other_line(alloc, stamp, path, asked.as_str(), answer.as_str())
}

// ---- several

fn several_text(
    alloc: Global,
    stamp: &str,
    asked: &Value<'_>,
    answered: &Value<'_>,
    answers: Option<&Value<'_>>,
) -> Result<String, AllocError>
    requires asked { HasNumbers (value_view asked.now) }
    requires answered { HasNumbers (value_view answered.now) }
    requires answers { HaveNumbers (option_map (λ v. value_view v.now) answers) }
    ensures { IfOk result (λ s. string_bytes s ≡ several_text stamp.now (value_view asked.now)
        (value_view answered.now) (option_map (λ v. value_view v.now) answers.entry)) }
{
    match answers {
        Some(answers) => listed_text(alloc, stamp, asked, answered, answers),
        None => single_text(alloc, stamp, asked, answered),
    }
}

fn listed_text(
    alloc: Global,
    stamp: &str,
    asked: &Value<'_>,
    answered: &Value<'_>,
    answers: &Value<'_>,
) -> Result<String, AllocError>
    requires asked { HasNumbers (value_view asked.now) }
    requires answered { HasNumbers (value_view answered.now) }
    requires answers { HasNumbers (value_view answers.now) }
    ensures { IfOk result (λ s. string_bytes s ≡ listed_text stamp.now (value_view asked.now)
        (value_view answered.now) (value_view answers.now) (as_array (value_view answers.now))) }
{
    match answers {
        Value::Array(items) => items_text(
            alloc,
            stamp,
            asked,
            within(Some(asked), "evaluations"),
            answers,
            items.as_slice().len(),
        ),
        Value::Null => single_text(alloc, stamp, asked, answered),
        Value::Bool(_) => single_text(alloc, stamp, asked, answered),
        Value::Number(_) => single_text(alloc, stamp, asked, answered),
        Value::String(_) => single_text(alloc, stamp, asked, answered),
        Value::Object(_) => single_text(alloc, stamp, asked, answered),
    }
}

// So many first ones.
fn items_text<'v, 'a>(
    alloc: Global,
    stamp: &str,
    all: &'v Value<'a>,
    asked: Option<&'v Value<'a>>,
    answers: &Value<'_>,
    count: usize,
) -> Result<String, AllocError>
    requires all { HasNumbers (value_view all.now) }
    requires asked { HaveNumbers (option_map (λ v. value_view v.now) asked) }
    requires answers { HasNumbers (value_view answers.now) }
    ensures { IfOk result (λ s. string_bytes s ≡ items_text stamp.now (value_view all.now)
        (option_map (λ v. value_view v.now) asked.entry) (value_view answers.now) count) }
{
    let mut lines = String::new(alloc);
    'items: for index in 0..count {
        let line = item_text(alloc, stamp, all, asked, answers, index)?;
        lines.push_str(line.as_str())?;
    }
    Ok(lines)
}

// That of the item at this place.
fn item_text<'v, 'a>(
    alloc: Global,
    stamp: &str,
    all: &'v Value<'a>,
    asked: Option<&'v Value<'a>>,
    answers: &Value<'_>,
    index: usize,
) -> Result<String, AllocError>
    requires all { HasNumbers (value_view all.now) }
    requires asked { HaveNumbers (option_map (λ v. value_view v.now) asked) }
    requires answers { HasNumbers (value_view answers.now) }
    ensures { IfOk result (λ s. string_bytes s ≡ item_text stamp.now (value_view all.now)
        (nth index (option_map (λ v. value_view v.now) asked.entry)) (nth index (Some (value_view answers.now)))) }
{
    let request = request_text(alloc, nth(asked, index), all)?;
    let answer = answer_text(alloc, answers, index)?;
    decision_line(alloc, stamp, request.as_str(), answer.as_str())
}

fn answer_text(alloc: Global, answers: &Value<'_>, index: usize) -> Result<String, AllocError>
    requires { HasNumbers (value_view answers.now) }
    ensures { IfOk result (λ s. string_bytes s ≡ found_text (nth index (Some (value_view answers.now)))) }
{
    found_text(alloc, nth(Some(answers), index))
}

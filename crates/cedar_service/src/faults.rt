#![tactic(auto, using(cedar_json_writer::proofs::Trees::trees, crate::proofs::Told::told))]
//! Why there is no decision.
ghost use Rattle.std.specs.Prelude.{◌≡◌, ◌∷◌, [], ◌++◌, codes, IfOk, OnOk, string_bytes};
ghost use Rattle.json.specs.Json.{string};
ghost use Rattle.cedar_json_writer.specs.Trees.{json_view, members_seen};
ghost use Rattle.cedar_service.specs.Faults.{fault_json, fault_text, IsFault, IsFaultBelow, IsToldAs, IsOfJson};

use cedar_errors::evaluator::err::EvaluationError;
use cedar_fallible::add_last;
use cedar_json_reader::{JsonError, JsonPath, PathStep, RefusalReason};
use cedar_json_writer::{JsonValue, put_member, text_to_json};
use std::alloc::{AllocError, Global};
use std::rc::RcStr;

/// Why there is no decision.
#[derive(Debug, Drop)]
pub(crate) enum Refusal {
    /// Out of memory.
    Memory,
    /// Something is wrong: its path, and why, as JSON.
    Told(String),
}

/// The refusal of what stands at this path, for this reason.
#[cold]
pub(crate) fn refuse(alloc: Global, path: &str, reason: &str) -> Refusal
    ensures { IsToldAs (IsFault path.now reason.now) result }
{
    match fault_text(alloc, path, reason) {
        Ok(text) => Refusal::Told(text),
        Err(AllocError) => Refusal::Memory,
    }
}

/// The same, where less is promised of the path.
#[cold]
pub(crate) fn refuse_below(alloc: Global, path: &str, reason: &str) -> Refusal
    ensures { IsToldAs (IsFaultBelow path.now) result }
{
    match fault_below(alloc, path, "", reason) {
        Ok(text) => Refusal::Told(text),
        Err(AllocError) => Refusal::Memory,
    }
}

/// The refusal of JSON that stands at this path, or of a part of it.
#[cold]
pub(crate) fn refuse_json(alloc: Global, path: &str, error: &JsonError) -> Refusal
    ensures json { IsToldAs (λ _. IsOfJson error.now) result }
    ensures fault { IsToldAs (IsFaultBelow path.now) result }
{
    match json_fault(alloc, path, error) {
        Ok(text) => Refusal::Told(text),
        Err(AllocError) => Refusal::Memory,
    }
}

/// The refusal of what stands at this path, for the JSON reader's own reason.
#[cold]
pub(crate) fn refuse_reason(alloc: Global, path: &str, reason: RefusalReason) -> Refusal
    ensures { IsToldAs (IsFaultBelow path.now) result }
{
    match reason_fault(alloc, path, "", reason) {
        Ok(text) => Refusal::Told(text),
        Err(AllocError) => Refusal::Memory,
    }
}

/// The refusal of what stands at this path and does not evaluate.
#[cold]
pub(crate) fn refuse_evaluation(alloc: Global, path: &str, error: &EvaluationError) -> Refusal
    ensures { IsToldAs (IsFaultBelow path.now) result }
{
    match evaluation_fault(alloc, path, "", error) {
        Ok(text) => Refusal::Told(text),
        Err(AllocError) => Refusal::Memory,
    }
}

/// The refusal of the member of this key of what stands at this path.
#[cold]
pub(crate) fn refuse_at_key(alloc: Global, path: &str, key: &RcStr, reason: &str) -> Refusal
    ensures { IsToldAs (IsFaultBelow path.now) result }
{
    match key_step(key) {
        Ok(step) => refuse_at_step(alloc, path, step, reason),
        Err(AllocError) => Refusal::Memory,
    }
}

/// The refusal of the element of this index of what stands at this path.
#[cold]
pub(crate) fn refuse_at_index(alloc: Global, path: &str, index: usize, reason: &str) -> Refusal
    ensures { IsToldAs (IsFaultBelow path.now) result }
{
    refuse_at_step(alloc, path, PathStep::Index(index), reason)
}

fn key_step(key: &RcStr) -> Result<PathStep, AllocError> {
    Ok(PathStep::Key(key.clone()?))
}

fn refuse_at_step(alloc: Global, path: &str, step: PathStep, reason: &str) -> Refusal
    ensures { IsToldAs (IsFaultBelow path.now) result }
{
    match step_fault(alloc, path, step, reason) {
        Ok(text) => Refusal::Told(text),
        Err(AllocError) => Refusal::Memory,
    }
}

fn step_fault(alloc: Global, path: &str, step: PathStep, reason: &str) -> Result<String, AllocError>
    ensures { IfOk result (λ s. IsFaultBelow path.now (string_bytes s)) }
{
    let part = step_text(alloc, step)?;
    fault_below(alloc, path, steps_of(part.as_str()), reason)
}

fn step_text(alloc: Global, step: PathStep) -> Result<String, AllocError> {
    let mut steps: Vec<PathStep> = Vec::new(alloc);
    add_last(&mut steps, step)?;
    let part = JsonPath { steps };
    format!(in alloc; "{part}")
}

fn json_fault(alloc: Global, path: &str, error: &JsonError) -> Result<String, AllocError>
    ensures json { OnOk result (IsOfJson error.now) }
    ensures fault { IfOk result (λ s. IsFaultBelow path.now (string_bytes s)) }
{
    match error {
        JsonError::Syntax => fault_below(alloc, path, "", "not JSON"),
        JsonError::DuplicateKey => fault_below(alloc, path, "", "a key comes twice in an object"),
        JsonError::Refused { path: part, reason } => refused_fault(alloc, path, part, *reason),
        JsonError::Evaluation { path: part, error } => failed_fault(alloc, path, part, error),
        JsonError::Memory(_) => Err(AllocError),
    }
}

fn refused_fault(
    alloc: Global,
    path: &str,
    part: &JsonPath,
    reason: RefusalReason,
) -> Result<String, AllocError>
    ensures { IfOk result (λ s. IsFaultBelow path.now (string_bytes s)) }
{
    let part = format!(in alloc; "{part}")?;
    reason_fault(alloc, path, steps_of(part.as_str()), reason)
}

fn reason_fault(
    alloc: Global,
    path: &str,
    steps: &str,
    reason: RefusalReason,
) -> Result<String, AllocError>
    ensures { IfOk result (λ s. IsFaultBelow path.now (string_bytes s)) }
{
    let reason = format!(in alloc; "{reason}")?;
    fault_below(alloc, path, steps, reason.as_str())
}

fn failed_fault(
    alloc: Global,
    path: &str,
    part: &JsonPath,
    error: &EvaluationError,
) -> Result<String, AllocError>
    ensures { IfOk result (λ s. IsFaultBelow path.now (string_bytes s)) }
{
    let part = format!(in alloc; "{part}")?;
    evaluation_fault(alloc, path, steps_of(part.as_str()), error)
}

fn evaluation_fault(
    alloc: Global,
    path: &str,
    steps: &str,
    error: &EvaluationError,
) -> Result<String, AllocError>
    ensures { IfOk result (λ s. IsFaultBelow path.now (string_bytes s)) }
{
    let reason = format!(in alloc; "{error}")?;
    fault_below(alloc, path, steps, reason.as_str())
}

// What stands in a path behind its `$`.
fn steps_of(path: &str) -> &str {
    path.strip_prefix("$").unwrap_or(path)
}

// That something is wrong behind these steps from this path.
fn fault_below(alloc: Global, path: &str, steps: &str, reason: &str) -> Result<String, AllocError>
    ensures { IfOk result (λ s. IsFaultBelow path.now (string_bytes s)) }
{
    let joined = join(alloc, path, steps)?;
    fault_text(alloc, joined.as_str(), reason)
}

fn join(alloc: Global, path: &str, steps: &str) -> Result<String, AllocError>
    ensures { IfOk result (λ s. string_bytes s ≡ path.now ++ steps.now) }
{
    format!(in alloc; "{path}{steps}")
}

/// Where something is wrong, and why, as JSON.
pub(crate) fn fault_text(alloc: Global, path: &str, reason: &str) -> Result<String, AllocError>
    ensures { IfOk result (λ s. string_bytes s ≡ fault_text path.now reason.now) }
{
    let fault = fault_json(alloc, path, reason)?;
    let text = fault.to_text(alloc);
    drop(fault);
    text
}

fn fault_json(alloc: Global, path: &str, reason: &str) -> Result<JsonValue, AllocError>
    ensures { IfOk result (λ j. json_view j ≡ fault_json path.now reason.now) }
{
    let mut members: Vec<(RcStr, JsonValue)> = Vec::new(alloc);
    put_text(alloc, "path", path, &mut members)?;
    put_text(alloc, "reason", reason, &mut members)?;
    Ok(JsonValue::Object(members))
}

fn put_text(
    alloc: Global,
    key: &str,
    text: &str,
    members: &mut Vec<(RcStr, JsonValue)>,
) -> Result<(), AllocError>
    ensures { OnOk result
        (members_seen members.new.items ≡ members_seen members.old.items ++ (key.now, string text.now) ∷ []) }
{
    let text = text_to_json(alloc, text)?;
    put_member(alloc, key, text, members)
}

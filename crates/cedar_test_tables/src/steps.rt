//! Reads the steps that a response is taken further by, and what a response is made of.
//!
//! - `x = 1; y = true` is a step with these values for unknowns, and `none` one with no value. Steps have ` / ` between
//!   them.
//! - `then x = 1` is a step over the second store, of which each fact stands behind `then` in the setting; by an
//!   authorizer that handles errors as `then errors` says, or as the setting does, and resolves as `then resolution`
//!   says, or as the setting does.
//! - `permit a true; permit b=note error; forbid c unknown("x")` is what a response is made of: `a` is satisfied, `b`
//!   erred and has the annotation `note`, and `c` has this expression left.
use crate::notation::errors::error;
use crate::notation::expressions::expression;
use crate::notation::policies::{effect, policy_id};
use crate::notation::settings::{error_handling, put_value, read_store, resolution};
use crate::notation::unanswered::{Noted, Unanswered};
use crate::notation::{Parts, fact, first_fact, split_first_word};
use cedar_authorizer::authorizer::{ErrorHandling, Resolution};
use cedar_authorizer::responses::{ConditionOutcome, Sheet};
use cedar_layers::expressions::{Expr, Literal, Value};
use cedar_layers::policies::{Annotations, Effect, Entities, Policy};
use std::alloc::{AllocError, Global};
use std::collections::HashMap;
use std::rc::{Rc, RcStr};

/// What a response is taken further by.
#[derive(Drop)]
pub struct Step {
    pub map: HashMap<RcStr, Value>,
    pub entities: Entities,
    pub error_handling: ErrorHandling,
    pub resolution: Resolution,
}

/// The steps that are written so, in the setting of these facts.
pub fn steps(alloc: Global, facts: &str, written: &str) -> Result<Vec<Step>, Unanswered> {
    let mut steps: Parts<Step> = Parts::new(alloc);
    for step in written.split(" / ") {
        if !step.is_empty() {
            put_step(alloc, facts, step, &mut steps);
        }
    }
    steps.all()
}

fn put_step(alloc: Global, facts: &str, written: &str, steps: &mut Parts<Step>) {
    match written.strip_prefix("then ") {
        Some(values) => match second_facts(alloc, facts) {
            Ok(second) => put_step_over(alloc, second.as_str(), values, steps),
            Err(_) => steps.lack_memory(),
        },
        None => put_step_over(alloc, facts, written, steps),
    }
}

fn put_step_over(alloc: Global, facts: &str, values: &str, steps: &mut Parts<Step>) {
    let mut noted = Noted::none();
    let map = read_mapping(alloc, values, &mut noted);
    let entities = read_store(alloc, facts, &mut noted);
    let error_handling = error_handling(facts, &mut noted);
    let resolution = resolution(facts, &mut noted);
    steps.push(Step {
        map,
        entities,
        error_handling,
        resolution,
    });
    if let Some(why) = noted.why() {
        steps.fail(why);
    }
}

// The facts of the second store, and behind them how errors are handled in the setting, and how it resolves.
fn second_facts(alloc: Global, facts: &str) -> Result<String, AllocError> {
    let mut second = String::new(alloc);
    for line in facts.lines() {
        if let Some(rest) = fact(line, "then") {
            second.push_str(rest)?;
            second.push_str("\n")?;
        }
    }
    put_fact(&mut second, facts, "errors")?;
    put_fact(&mut second, facts, "resolution")?;
    Ok(second)
}

// The first fact of this keyword, if there is one, behind the others.
fn put_fact(second: &mut String, facts: &str, keyword: &str) -> Result<(), AllocError> {
    if let Some(rest) = first_fact(facts, keyword) {
        second.push_str(keyword)?;
        second.push_str(" ")?;
        second.push_str(rest)?;
        second.push_str("\n")?;
    }
    Ok(())
}

/// The values for unknowns that a step has.
pub fn mapping(alloc: Global, written: &str) -> Result<HashMap<RcStr, Value>, Unanswered> {
    let mut noted = Noted::none();
    let map = read_mapping(alloc, written, &mut noted);
    match noted.why() {
        None => Ok(map),
        Some(why) => Err(why),
    }
}

fn read_mapping(alloc: Global, written: &str, noted: &mut Noted) -> HashMap<RcStr, Value> {
    let mut map: HashMap<RcStr, Value> = HashMap::new(alloc);
    for value in written.split("; ") {
        if value != "none" {
            put_value(alloc, &mut map, value, noted);
        }
    }
    map
}

/// The sheet with these notes, where errors are handled so.
pub fn sheet(alloc: Global, mode: ErrorHandling, written: &str) -> Result<Sheet, Unanswered> {
    let mut sheet = Sheet::new(alloc);
    for note in written.split("; ") {
        if let Err(error) = put_note(alloc, mode, &mut sheet, note) {
            drop(sheet);
            return Err(error);
        }
    }
    Ok(sheet)
}

fn put_note(
    alloc: Global,
    mode: ErrorHandling,
    sheet: &mut Sheet,
    written: &str,
) -> Result<(), Unanswered> {
    let (effect, rest) = split_first_word(written);
    let (named, came_out) = split_first_word(rest);
    let policy = make_noted(alloc, effect, named)?;
    put_outcome(alloc, mode, sheet, &policy, came_out)
}

fn put_outcome(
    alloc: Global,
    mode: ErrorHandling,
    sheet: &mut Sheet,
    policy: &Policy,
    came_out: &str,
) -> Result<(), Unanswered> {
    Ok(sheet.place(mode, policy, outcome(alloc, came_out)?)?)
}

fn outcome(alloc: Global, written: &str) -> Result<ConditionOutcome, Unanswered> {
    match written {
        "true" => Ok(ConditionOutcome::Decided(true)),
        "false" => Ok(ConditionOutcome::Decided(false)),
        "error" => Ok(ConditionOutcome::Failed(error(alloc, "TypeError Long Bool")?)),
        _ => Ok(ConditionOutcome::Residual(Rc::new(alloc, expression(alloc, written)?)?)),
    }
}

// The policy of this effect, and of this id and annotation.
fn make_noted(alloc: Global, effect_name: &str, named: &str) -> Result<Policy, Unanswered> {
    let effect = effect(effect_name)?;
    match named.split_once('=') {
        Some((id, note)) => noted_with(alloc, effect, id, make_annotations(alloc, note)?),
        None => noted_with(alloc, effect, named, Annotations::new(alloc)),
    }
}

fn noted_with(
    alloc: Global,
    effect: Effect,
    id: &str,
    annotations: Annotations,
) -> Result<Policy, Unanswered> {
    let annotations = Rc::new(alloc, annotations)?;
    let clause = Rc::new(alloc, Expr::val(Literal::Bool(true)))?;
    let id = policy_id(alloc, id)?;
    Ok(Policy::from_when_clause_annos(alloc, effect, clause, id, None, annotations)?)
}

fn make_annotations(alloc: Global, note: &str) -> Result<Annotations, AllocError> {
    let mut annotations = Annotations::new(alloc);
    annotations.0.insert(
        RcStr::from_str(alloc, "note")?,
        RcStr::from_str(alloc, note)?,
    )?;
    Ok(annotations)
}

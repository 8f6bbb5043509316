//! What is known of a decision where parts of the request or of the entities are unknown.
ghost use Rattle.std.specs.Prelude.{◌≡◌, ◌++◌, IfOk, IfErr, OnOk, codes, string_bytes, option_map};
ghost use Rattle.cedar_decisions.specs.Decisions.{decision_view};
ghost use Rattle.cedar_extensions.specs.Extensions.{extensions_view, calls_of};
ghost use Rattle.cedar_layers.specs.PolicySets.{policies_view};
ghost use Rattle.cedar_functions.specs.Functions.{these, signatures_of};
ghost use Rattle.cedar_cli.specs.Printing.{partial_word};
ghost use Rattle.cedar_cli.specs.Stages.{IsPartiallyAuthorized, IsPartlyAnsweredBy, IsPartlyAnsweredOver};
ghost use Rattle.cedar_cli.specs.Stages.{ArePrintedAs, AreInDocument, AreWords, AreWordsAbove, IsWordOf, IsLastWord};
ghost use Rattle.cedar_cli.specs.Inputs.{AddsWord};
ghost use Rattle.cedar_cli.specs.Reasons.{IsToldFor};
ghost use Rattle.cedar_cli.specs.Stopped.{IsPartlyUnanswered, IsPartlyUnansweredBy, IsPartlyUnansweredOver};

use crate::asked::{Asked, Source, Step, Way};
use crate::decisions::{
    Printed, partial_word_of, print_decision, print_document, push_visible_name,
};
use crate::documents::stages_document;
use crate::left::{entities_left, unknown_names};
use crate::places::Places;
use crate::policies::read_over;
use crate::refusal::Refusal;
use crate::stages::{Stages, all_stages};
use crate::steps::{Taken, response_after};
use crate::stores::{Store, given_store};
use crate::undecided::push_why_open;
use crate::visible::push_visible;
use crate::warnings::{Deciding, push_errors, push_templates};
use cedar_policy_core::ast::{EntityUID, Policy, PolicySet};
use cedar_policy_core::authorizer::{Decision, PartialResponse, ReportedPolicies};
use cedar_policy_core::extensions::Extensions;
use cedar_policy_core::parser::ParsedPolicies;
use cedar_policy_core::writing::policy_to_cedar;
use std::alloc::{AllocError, Global};
use std::rc::RcStr;

/// What is known of what the policies decide, where these are the functions: the decision, if it is given, the policies
/// that must and that may determine it, and what is left of each policy; and the same behind each step, below a line
/// that says which step it is, or all this as one JSON value. A step takes values for unknowns, and perhaps another
/// store; beside these each entity that a store lacked is itself. A step that names no unknown and brings no entities
/// is not taken. The status is that of the last decision, 4 where that is not known. The errors of policies are told as
/// warnings, and so is what does not show in the answer; as JSON the errors stand in the value.
pub fn partially_authorize(
    alloc: Global,
    extensions: &Extensions<'_>,
    policies: Source<'_>,
    asked: &Asked<'_, '_>,
    steps: &[Step<'_>],
    way: Way,
) -> Result<Printed, Refusal>
    ensures answered { IfOk result (IsPartiallyAuthorized (these (signatures_of extensions.now))
        (extensions_view extensions.now) (calls_of extensions.now) policies.entry.text.now asked.now steps.now way) }
    ensures refused { IfErr result (IsToldFor (IsPartlyUnanswered (these (signatures_of extensions.now))
        (extensions_view extensions.now) (calls_of extensions.now) policies.entry.text.now asked.now steps.now way)) }
{
    let parsed = read_over(alloc, policies, extensions)?;
    let printed = partially_authorize_parsed(
        alloc, policies, &parsed, asked, steps, way, extensions,
    );
    drop(parsed);
    printed
}

fn partially_authorize_parsed(
    alloc: Global,
    source: Source<'_>,
    parsed: &ParsedPolicies,
    asked: &Asked<'_, '_>,
    steps: &[Step<'_>],
    way: Way,
    extensions: &Extensions<'_>,
) -> Result<Printed, Refusal>
    ensures answered { IfOk result (IsPartlyAnsweredBy (extensions_view extensions.now) (calls_of extensions.now)
        source.entry.text.now parsed.now.policies asked.now steps.now way) }
    ensures refused { IfErr result (IsToldFor (IsPartlyUnansweredBy (extensions_view extensions.now)
        (calls_of extensions.now) parsed.now.policies asked.now steps.now way)) }
{
    let places = Places::of(alloc, source)?;
    let mut warnings = String::new(alloc);
    push_templates(alloc, &places, &parsed.templates, &mut warnings)?;
    let deciding = Deciding {
        places: &places,
        policies: &parsed.policies,
        way,
    };
    partially_authorize_over_given_store(alloc, deciding, asked, steps, extensions, warnings)
}

fn partially_authorize_over_given_store(
    alloc: Global,
    deciding: Deciding<'_>,
    asked: &Asked<'_, '_>,
    steps: &[Step<'_>],
    extensions: &Extensions<'_>,
    mut warnings: String,
) -> Result<Printed, Refusal>
    ensures answered { IfOk result (IsPartlyAnsweredBy (extensions_view extensions.now) (calls_of extensions.now)
        deciding.entry.places.now.source.text.now deciding.entry.policies.now asked.now steps.now deciding.entry.way) }
    ensures refused { IfErr result (IsToldFor (IsPartlyUnansweredBy (extensions_view extensions.now)
        (calls_of extensions.now) deciding.entry.policies.now asked.now steps.now deciding.entry.way)) }
{
    let store = given_store(alloc, asked, extensions, &mut warnings)?;
    let printed = partially_authorize_over_store(
        alloc, deciding, &store, asked, steps, extensions, warnings,
    );
    drop(store);
    printed
}

fn partially_authorize_over_store(
    alloc: Global,
    deciding: Deciding<'_>,
    store: &Store,
    asked: &Asked<'_, '_>,
    steps: &[Step<'_>],
    extensions: &Extensions<'_>,
    mut warnings: String,
) -> Result<Printed, Refusal>
    ensures answered { IfOk result (IsPartlyAnsweredOver (extensions_view extensions.now) (calls_of extensions.now)
        deciding.entry.places.now.source.text.now deciding.entry.policies.now store.now.entities asked.now steps.now
        deciding.entry.way) }
    ensures refused { IfErr result (IsToldFor (IsPartlyUnansweredOver (extensions_view extensions.now)
        (calls_of extensions.now) deciding.entry.policies.now store.now.entities asked.now steps.now
        deciding.entry.way)) }
{
    let stages = all_stages(
        alloc,
        deciding.policies,
        store,
        asked,
        steps,
        deciding.way,
        extensions,
        &mut warnings,
    )?;
    let printed = print_stages(alloc, deciding, &stages, warnings);
    drop(stages);
    Ok(printed?)
}

/// The stages as they are printed in this way: each response, of policies of this text, and the steps between them. The
/// errors of policies and why the last one does not decide are told behind these warnings.
pub fn print_stages_of(
    alloc: Global,
    source: Source<'_>,
    policies: &PolicySet,
    way: Way,
    stages: &Stages<'_>,
    warnings: String,
) -> Result<Printed, AllocError>
    ensures { IfOk result (ArePrintedAs way.is_json source.entry.text.now (policies_view policies.now)
        stages.now.first stages.now.later.items) }
{
    match Places::of(alloc, source) {
        Ok(places) => {
            let deciding = Deciding {
                places: &places,
                policies,
                way,
            };
            let printed = print_stages(alloc, deciding, stages, warnings);
            drop(places);
            printed
        }
        Err(error) => {
            drop(warnings);
            Err(error)
        }
    }
}

fn print_stages(
    alloc: Global,
    deciding: Deciding<'_>,
    stages: &Stages<'_>,
    warnings: String,
) -> Result<Printed, AllocError>
    ensures { IfOk result (ArePrintedAs deciding.entry.way.is_json deciding.entry.places.now.source.text.now
        (policies_view deciding.entry.policies.now) stages.now.first stages.now.later.items) }
{
    if deciding.way.is_json {
        stages_as_json(alloc, deciding, stages, warnings)
    } else {
        stages_as_text(alloc, deciding, stages, warnings)
    }
}

fn stages_as_json(
    alloc: Global,
    deciding: Deciding<'_>,
    stages: &Stages<'_>,
    mut warnings: String,
) -> Result<Printed, AllocError>
    ensures { IfOk result (AreInDocument deciding.entry.places.now.source.text.now
        (policies_view deciding.entry.policies.now) stages.now.first stages.now.later.items) }
{
    let last = stages.last();
    push_why_open(alloc, last, &mut warnings)?;
    let document = stages_document(alloc, deciding, stages)?;
    let printed = print_document(alloc, last.decision(), &document, warnings);
    drop(document);
    printed
}

fn stages_as_text(
    alloc: Global,
    deciding: Deciding<'_>,
    stages: &Stages<'_>,
    mut warnings: String,
) -> Result<Printed, AllocError>
    ensures { IfOk result (AreWords stages.now.first stages.now.later.items) }
{
    push_errors(alloc, deciding, &stages.first.errors, &mut warnings)?;
    let above = text_above(alloc, deciding, &stages.first, &stages.later, &mut warnings)?;
    let last = stages.last();
    push_why_open(alloc, last, &mut warnings)?;
    let printed = print_response(alloc, above.as_str(), last, warnings);
    drop(above);
    printed
}

// Each response that a step follows, with the step below it. The errors behind each step are told.
fn text_above(
    alloc: Global,
    deciding: Deciding<'_>,
    first: &PartialResponse,
    later: &[Taken<'_>],
    warnings: &mut String,
) -> Result<String, AllocError>
    ensures { IfOk result (λ s. AreWordsAbove first.now later.now (string_bytes s)) }
{
    let mut above = String::new(alloc);
    let mut response = first;
    'later: for taken in later {
        push_stage(alloc, response, taken, &mut above)?;
        response = response_after(&taken.response, response);
        push_step_errors(alloc, deciding, taken, warnings)?;
    }
    Ok(above)
}

fn push_stage(
    alloc: Global,
    response: &PartialResponse,
    taken: &Taken<'_>,
    above: &mut String,
) -> Result<(), AllocError>
    ensures { OnOk result (AddsWord response.now (string_bytes above.old) (string_bytes above.new)) }
{
    let text = stage_text(alloc, response, taken)?;
    above.push_str(text.as_str())?;
    Ok(())
}

// The errors of policies behind a step that is taken, below a line that says which step it is.
fn push_step_errors(
    alloc: Global,
    deciding: Deciding<'_>,
    taken: &Taken<'_>,
    warnings: &mut String,
) -> Result<(), AllocError> {
    match &taken.response {
        Some(response) => {
            push_response_errors(alloc, deciding, taken.number, response, warnings)
        }
        None => Ok(()),
    }
}

fn push_response_errors(
    alloc: Global,
    deciding: Deciding<'_>,
    number: usize,
    response: &PartialResponse,
    warnings: &mut String,
) -> Result<(), AllocError> {
    if response.errors.is_empty() {
        return Ok(());
    }
    warnings.push_str(format!(in alloc; "step {number}:\n")?.as_str())?;
    push_errors(alloc, deciding, &response.errors, warnings)
}

// The decision of an earlier stage, what is known of it, and the step below it.
fn stage_text(
    alloc: Global,
    response: &PartialResponse,
    taken: &Taken<'_>,
) -> Result<String, AllocError>
    ensures { IfOk result (λ s. IsWordOf response.now (string_bytes s)) }
{
    let lines = stage_lines(alloc, response, taken)?;
    let text = text_below_word(alloc, response.decision(), lines.as_str());
    drop(lines);
    text
}

fn stage_lines(
    alloc: Global,
    response: &PartialResponse,
    taken: &Taken<'_>,
) -> Result<String, AllocError> {
    let mut lines = String::new(alloc);
    push_response(alloc, response, &mut lines)?;
    push_step(alloc, taken.number, &taken.step, &mut lines)?;
    Ok(lines)
}

fn text_below_word(
    alloc: Global,
    decision: Option<Decision>,
    lines: &str,
) -> Result<String, AllocError>
    ensures { IfOk result (λ s. string_bytes s
        ≡ partial_word (option_map decision_view decision) ++ (codes "\n" ++ (lines.now ++ codes "\n"))) }
{
    let word = partial_word_of(decision);
    format!(in alloc; "{word}\n{lines}\n")
}

// `step 1: VALUES over ENTITIES`, below an empty line.
fn push_step(
    alloc: Global,
    number: usize,
    step: &Step<'_>,
    output: &mut String,
) -> Result<(), AllocError> {
    output.push_str(format!(in alloc; "\nstep {number}: ")?.as_str())?;
    push_visible(alloc, step.values.name, output)?;
    if let Some(entities) = step.entities {
        output.push_str(" over ")?;
        push_visible(alloc, entities.name, output)?;
    }
    output.push_str("\n")
}

fn print_response(
    alloc: Global,
    above: &str,
    response: &PartialResponse,
    warnings: String,
) -> Result<Printed, AllocError>
    ensures { IfOk result (IsLastWord above.now response.now) }
{
    let mut lines = String::new(alloc);
    push_response(alloc, response, &mut lines)?;
    let printed = print_decision(alloc, above, response.decision(), lines.as_str(), warnings);
    drop(lines);
    printed
}

fn push_response(
    alloc: Global,
    response: &PartialResponse,
    lines: &mut String,
) -> Result<(), AllocError> {
    push_bounds(alloc, response, lines)?;
    push_residuals(alloc, response.nontrivial_residuals(), lines)?;
    push_unknowns(alloc, response, lines)
}

// The policies that must and that may determine the decision.
fn push_bounds(
    alloc: Global,
    response: &PartialResponse,
    lines: &mut String,
) -> Result<(), AllocError> {
    lines.push_str("\nmust be determining: ")?;
    push_names(alloc, response.must_be_determining(), lines)?;
    lines.push_str("\nmay be determining: ")?;
    push_names(alloc, response.may_be_determining(), lines)?;
    lines.push_str("\n")
}

// The names of the policies, with commas between them; `none` of no policies.
fn push_names(
    alloc: Global,
    policies: ReportedPolicies<'_>,
    output: &mut String,
) -> Result<(), AllocError> {
    let mut names = String::new(alloc);
    for policy in policies {
        push_one(alloc, &mut names, &policy?)?;
    }
    if names.is_empty() {
        names.push_str("none")?;
    }
    output.push_str(names.as_str())
}

fn push_one(alloc: Global, names: &mut String, policy: &Policy) -> Result<(), AllocError> {
    if !names.is_empty() {
        names.push_str(", ")?;
    }
    push_visible_name(alloc, policy, names)
}

// What is left of each policy, as Cedar's text behind its name.
fn push_residuals(
    alloc: Global,
    policies: ReportedPolicies<'_>,
    output: &mut String,
) -> Result<(), AllocError> {
    for policy in policies {
        push_residual(alloc, &policy?, output)?;
    }
    Ok(())
}

fn push_residual(alloc: Global, policy: &Policy, output: &mut String) -> Result<(), AllocError> {
    output.push_str("\nleft of ")?;
    push_visible_name(alloc, policy, output)?;
    output.push_str(":\n")?;
    let text = policy_to_cedar(alloc, policy)?;
    output.push_str(text.as_str())?;
    output.push_str("\n")
}

// The names of the unknowns that are left, and the entities that a store lacked, a line each if there are any.
fn push_unknowns(
    alloc: Global,
    response: &PartialResponse,
    output: &mut String,
) -> Result<(), AllocError> {
    let names = unknown_names(alloc, response)?;
    let pushed = push_unknown_names(alloc, &names, output);
    drop(names);
    pushed?;
    let entities = entities_left(alloc, response)?;
    let pushed = push_entities(alloc, &entities, output);
    drop(entities);
    pushed
}

fn push_unknown_names(
    alloc: Global,
    names: &[RcStr],
    output: &mut String,
) -> Result<(), AllocError> {
    if names.is_empty() {
        return Ok(());
    }
    output.push_str("\nunknown:")?;
    'names: for name in names {
        output.push_str(" ")?;
        push_visible(alloc, name.as_str(), output)?;
    }
    output.push_str("\n")
}

fn push_entities(
    alloc: Global,
    entities: &[EntityUID],
    output: &mut String,
) -> Result<(), AllocError> {
    if entities.is_empty() {
        return Ok(());
    }
    output.push_str("\nmissing entities:")?;
    'entities: for entity in entities {
        output.push_str(" ")?;
        push_visible(alloc, format!(in alloc; "{entity}")?.as_str(), output)?;
    }
    output.push_str("\n")
}

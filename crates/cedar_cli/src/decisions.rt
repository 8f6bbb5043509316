//! What policies decide.
ghost use Rattle.std.specs.Prelude.{◌≡◌, ◌++◌, ◌==◌, false, length, IfOk, OnOk, IfErr, codes, string_bytes};
ghost use Rattle.std.specs.Prelude.{option_map};
ghost use Rattle.cedar_decisions.specs.Decisions.{decision_view};
ghost use Rattle.json.specs.Print.{print};
ghost use Rattle.json.specs.Tree.{json_tokens};
ghost use Rattle.cedar_json_writer.specs.Trees.{json_view};
ghost use Rattle.cedar_extensions.specs.Extensions.{extensions_view, calls_of};
ghost use Rattle.cedar_layers.specs.Policies.{policy_view};
ghost use Rattle.cedar_layers.specs.PolicySets.{policies_view};
ghost use Rattle.cedar_authorizer.specs.responses.Responses.{has_id, response_view};
ghost use Rattle.cedar_cli.specs.Printing.{status, word, partial_status, partial_word};
ghost use Rattle.cedar_cli.specs.Authorized.{IsAuthorized, IsAnsweredBy, IsAnsweredOver, IsResponseTo};
ghost use Rattle.cedar_cli.specs.Reasons.{IsToldFor, IsUnauthorized, IsAskedUnread, IsRequestUnread};
ghost use Rattle.cedar_cli.specs.Authorized.{AreReasonsIf, AreReasonLines, IsWord, IsDocument, IsPrinted};
ghost use Rattle.cedar_cli.specs.Inputs.{AddsNameLine};
ghost use Rattle.cedar_cli.specs.Named.{policy_name, IsNameLine, AreNameLines};
ghost use Rattle.cedar_cli.specs.Visible.{IsVisible};

use crate::asked::{Asked, Source, Way};
use crate::documents::{holds_id, response_document};
use crate::limits::text_limit;
use crate::places::Places;
use crate::policies::{push_name, read_over};
use crate::reading::whole_request;
use crate::refusal::Refusal;
use crate::stores::known_store;
use crate::visible::push_visible;
use crate::warnings::{Deciding, push_errors, push_templates};
use cedar_policy_core::ast::{Policy, PolicyID, PolicySet, Request};
use cedar_policy_core::authorizer::{Authorizer, Decision, Response};
use cedar_policy_core::entities::Entities;
use cedar_policy_core::entities::json::JsonValue;
use cedar_policy_core::extensions::Extensions;
use cedar_policy_core::extensions::laws::functions_are_computed;
use cedar_policy_core::parser::ParsedPolicies;
use cedar_policy_core::parser::laws::known_calls_of_policies;
use std::alloc::{AllocError, Global};
use std::collections::HashSet;

/// What is printed, what is told on standard error beside it, and the exit status.
#[derive(Debug, Drop)]
pub struct Printed {
    pub output: String,
    pub warnings: String,
    pub status: u8,
}

/// The exit status of a decision: 0 where the request is allowed, 2 where it is denied.
pub fn status_of(decision: Decision) -> u8
    ensures { result ≡ status (decision_view decision) }
{
    match decision {
        Decision::Allow => 0,
        Decision::Deny => 2,
    }
}

// The decision in capitals.
fn word_of(decision: Decision) -> &'static str
    ensures { result.now ≡ word (decision_view decision) }
{
    match decision {
        Decision::Allow => "ALLOW",
        Decision::Deny => "DENY",
    }
}

// The exit status: 4 where the decision is not known, so that no script takes that for an answer.
fn partial_status_of(decision: Option<Decision>) -> u8
    ensures { result ≡ partial_status (option_map decision_view decision) }
{
    match decision {
        Some(decision) => status_of(decision),
        None => 4,
    }
}

/// The decision in capitals, or `UNKNOWN`.
pub(crate) fn partial_word_of(decision: Option<Decision>) -> &'static str
    ensures { result.now ≡ partial_word (option_map decision_view decision) }
{
    match decision {
        Some(decision) => word_of(decision),
        None => "UNKNOWN",
    }
}

/// The decision in capitals, or `UNKNOWN`, between the lines above it and those below it, with these warnings, and the
/// exit status: 0 where the request is allowed, 2 where it is denied, 4 where the decision is not known.
pub(crate) fn print_decision(
    alloc: Global,
    above: &str,
    decision: Option<Decision>,
    lines: &str,
    warnings: String,
) -> Result<Printed, AllocError>
    ensures status { IfOk result (λ p. p.status ≡ partial_status (option_map decision_view decision)) }
    ensures warnings { IfOk result (λ p. p.warnings ≡ warnings) }
    ensures output { IfOk result (λ p. string_bytes p.output
        ≡ above.now ++ (partial_word (option_map decision_view decision) ++ (codes "\n" ++ lines.now))) }
{
    let word = partial_word_of(decision);
    let status = partial_status_of(decision);
    let output = format!(in alloc; "{above}{word}\n{lines}")?;
    Ok(Printed {
        output,
        warnings,
        status,
    })
}

/// The JSON value as text, on a line of its own, with these warnings, and the exit status: 0 where the request is
/// allowed, 2 where it is denied, 4 where the decision is not known.
pub(crate) fn print_document(
    alloc: Global,
    decision: Option<Decision>,
    document: &JsonValue,
    warnings: String,
) -> Result<Printed, AllocError>
    ensures warnings { IfOk result (λ p. p.warnings ≡ warnings) }
    ensures status { IfOk result (λ p. p.status ≡ partial_status (option_map decision_view decision)) }
    ensures output { IfOk result (λ p. string_bytes p.output
        ≡ print (json_tokens (json_view document.now)) ++ codes "\n") }
{
    let status = partial_status_of(decision);
    let output = line_of(alloc, document)?;
    Ok(Printed {
        output,
        warnings,
        status,
    })
}

/// The JSON value as text, on a line of its own.
pub fn line_of(alloc: Global, document: &JsonValue) -> Result<String, AllocError>
    ensures { IfOk result (λ s. string_bytes s ≡ print (json_tokens (json_view document.now)) ++ codes "\n") }
{
    let mut line = document.to_text(alloc)?;
    line.push_str("\n")?;
    Ok(line)
}

/// What the policies decide for the request: `ALLOW` or `DENY` and, where that is asked for, the policies that
/// determined it; or all this as one JSON value. The errors of those that erred, and the templates, which decide
/// nothing, are told as warnings; as JSON the errors stand in the value.
pub fn authorize(
    alloc: Global,
    policies: Source<'_>,
    asked: &Asked<'_, '_>,
    way: Way,
) -> Result<Printed, Refusal>
    ensures answered { IfOk result (IsAuthorized policies.entry.text.now asked.now way) }
    ensures refused { IfErr result (IsToldFor (IsUnauthorized policies.entry.text.now asked.now)) }
{
    functions_are_computed();
    known_calls_of_policies();
    let extensions = Extensions::all_available();
    let parsed = read_over(alloc, policies, &extensions)?;
    let printed = authorize_parsed(alloc, policies, &parsed, asked, way, &extensions);
    drop(parsed);
    printed
}

fn authorize_parsed(
    alloc: Global,
    source: Source<'_>,
    parsed: &ParsedPolicies,
    asked: &Asked<'_, '_>,
    way: Way,
    extensions: &Extensions<'_>,
) -> Result<Printed, Refusal>
    ensures answered { IfOk result (IsAnsweredBy (extensions_view extensions.now) (calls_of extensions.now)
        source.entry.text.now parsed.now.policies asked.now way) }
    ensures refused { IfErr result (IsToldFor
        (IsAskedUnread (extensions_view extensions.now) (calls_of extensions.now) asked.now)) }
{
    let places = Places::of(alloc, source)?;
    let mut warnings = String::new(alloc);
    push_templates(alloc, &places, &parsed.templates, &mut warnings)?;
    let deciding = Deciding {
        places: &places,
        policies: &parsed.policies,
        way,
    };
    authorize_over_given_store(alloc, deciding, asked, extensions, warnings)
}

fn authorize_over_given_store(
    alloc: Global,
    deciding: Deciding<'_>,
    asked: &Asked<'_, '_>,
    extensions: &Extensions<'_>,
    mut warnings: String,
) -> Result<Printed, Refusal>
    ensures answered { IfOk result (IsAnsweredBy (extensions_view extensions.now) (calls_of extensions.now)
        deciding.entry.places.now.source.text.now deciding.entry.policies.now asked.now deciding.entry.way) }
    ensures refused { IfErr result (IsToldFor
        (IsAskedUnread (extensions_view extensions.now) (calls_of extensions.now) asked.now)) }
{
    let store = known_store(alloc, asked, extensions, &mut warnings)?;
    let printed = authorize_over_store(
        alloc,
        deciding,
        &store.entities,
        asked,
        extensions,
        warnings,
    );
    drop(store);
    printed
}

pub(crate) fn authorize_over_store(
    alloc: Global,
    deciding: Deciding<'_>,
    entities: &Entities,
    asked: &Asked<'_, '_>,
    extensions: &Extensions<'_>,
    warnings: String,
) -> Result<Printed, Refusal>
    ensures answered { IfOk result (IsAnsweredOver (extensions_view extensions.now) (calls_of extensions.now)
        deciding.entry.places.now.source.text.now deciding.entry.policies.now entities.now asked.now
        deciding.entry.way) }
    ensures refused { IfErr result (IsToldFor
        (IsRequestUnread (extensions_view extensions.now) (calls_of extensions.now) asked.now)) }
{
    let request = whole_request(alloc, asked, extensions)?;
    let response = decide_request(alloc, request, deciding, entities, extensions)?;
    let printed = print_response(alloc, deciding, &response, warnings);
    drop(response);
    Ok(printed?)
}

/// The response to the request. Nothing is unknown in what is decided here, so that no condition that was read meets the
/// limit of the text.
pub(crate) fn decide_request(
    alloc: Global,
    request: Request,
    deciding: Deciding<'_>,
    entities: &Entities,
    extensions: &Extensions<'_>,
) -> Result<Response, AllocError>
    ensures { IfOk result (λ r. IsResponseTo (extensions_view extensions.now) (calls_of extensions.now)
        deciding.entry.policies.now entities.now request deciding.entry.way (response_view r)) }
{
    let limit = deciding.way.limit.unwrap_or(text_limit());
    let authorizer = Authorizer::new(extensions, limit).with_error_handling(
        deciding.way.error_handling,
    );
    authorizer.is_authorized(alloc, request, deciding.policies, entities)
}

fn print_response(
    alloc: Global,
    deciding: Deciding<'_>,
    response: &Response,
    warnings: String,
) -> Result<Printed, AllocError>
    ensures { IfOk result (IsPrinted deciding.entry.places.now.source.text.now deciding.entry.policies.now
        deciding.entry.way response.now) }
{
    if deciding.way.is_json {
        response_as_json(alloc, deciding, response, warnings)
    } else {
        response_as_text(alloc, deciding, response, warnings)
    }
}

fn response_as_json(
    alloc: Global,
    deciding: Deciding<'_>,
    response: &Response,
    warnings: String,
) -> Result<Printed, AllocError>
    ensures { IfOk result (IsDocument deciding.entry.places.now.source.text.now
        (policies_view deciding.entry.policies.now) response.now) }
{
    let document = response_document(alloc, deciding, response)?;
    let printed = print_document(alloc, Some(response.decision), &document, warnings);
    drop(document);
    printed
}

fn response_as_text(
    alloc: Global,
    deciding: Deciding<'_>,
    response: &Response,
    mut warnings: String,
) -> Result<Printed, AllocError>
    ensures { IfOk result (IsWord deciding.entry.way.is_verbose (policies_view deciding.entry.policies.now)
        response.now) }
{
    push_errors(alloc, deciding, &response.diagnostics.errors, &mut warnings)?;
    let lines = reason_lines(alloc, deciding, response)?;
    let printed = print_decision(alloc, "", Some(response.decision), lines.as_str(), warnings);
    drop(lines);
    printed
}

/// The lines of the policies that determined the decision; none, where they are not asked for.
pub(crate) fn reason_lines(
    alloc: Global,
    deciding: Deciding<'_>,
    response: &Response,
) -> Result<String, AllocError>
    ensures { IfOk result (λ s. AreReasonsIf deciding.entry.way.is_verbose
        (policies_view deciding.entry.policies.now) response.now (string_bytes s)) }
{
    if deciding.way.is_verbose {
        all_reasons(alloc, deciding.policies, &response.diagnostics.reason)
    } else {
        Ok(String::new(alloc))
    }
}

// The policies that determined the decision, in the order of the text.
fn all_reasons(
    alloc: Global,
    policies: &PolicySet,
    reasons: &HashSet<PolicyID>,
) -> Result<String, AllocError>
    ensures { IfOk result (λ s. AreReasonLines (length reasons.now.keys == 0) (has_id reasons.now)
        (policies_view policies.now) (string_bytes s)) }
{
    if reasons.is_empty() {
        String::from_str(alloc, "\nnote: no policies applied to this request\n")
    } else {
        some_reasons(alloc, policies, reasons)
    }
}

fn some_reasons(
    alloc: Global,
    policies: &PolicySet,
    reasons: &HashSet<PolicyID>,
) -> Result<String, AllocError>
    ensures { IfOk result (λ s. AreReasonLines false (has_id reasons.now) (policies_view policies.now)
        (string_bytes s)) }
{
    let names = reason_names(alloc, policies, reasons)?;
    let mut lines = String::from_str(
        alloc,
        "\nnote: this decision was due to the following policies:\n",
    )?;
    lines.push_str(names.as_str())?;
    drop(names);
    Ok(lines)
}

// Their names, a line each.
fn reason_names(
    alloc: Global,
    policies: &PolicySet,
    reasons: &HashSet<PolicyID>,
) -> Result<String, AllocError>
    ensures { IfOk result (λ s. AreNameLines (has_id reasons.now) (policies_view policies.now) (string_bytes s)) }
{
    let mut lines = String::new(alloc);
    'policies: for policy in policies.policies() {
        push_reason(alloc, policy, reasons, &mut lines)?;
    }
    Ok(lines)
}

fn push_reason(
    alloc: Global,
    policy: &Policy,
    reasons: &HashSet<PolicyID>,
    lines: &mut String,
) -> Result<(), AllocError>
    ensures { OnOk result (AddsNameLine (has_id reasons.now) (policy_view policy.now) (string_bytes lines.old)
        (string_bytes lines.new)) }
{
    if holds_id(reasons, policy.id()) {
        push_name_line(alloc, policy, lines)
    } else {
        Ok(())
    }
}

fn push_name_line(alloc: Global, policy: &Policy, lines: &mut String) -> Result<(), AllocError>
    ensures { OnOk result ((line : _) × IsNameLine (policy_view policy.now) line
        × (string_bytes lines.new ≡ string_bytes lines.old ++ line)) }
{
    lines.push_str("  ")?;
    push_visible_name(alloc, policy, lines)?;
    lines.push_str("\n")?;
    Ok(())
}

/// Puts how the policy is called behind the rest, as it is told: what could be taken for another line is shown.
pub fn push_visible_name(
    alloc: Global,
    policy: &Policy,
    output: &mut String,
) -> Result<(), AllocError>
    ensures { OnOk result ((told : _) × IsVisible (policy_name (policy_view policy.now)) told
        × (string_bytes output.new ≡ string_bytes output.old ++ told)) }
{
    let mut name = String::new(alloc);
    push_name(alloc, policy, &mut name)?;
    push_visible(alloc, name.as_str(), output)
}

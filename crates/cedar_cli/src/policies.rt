//! Policies of a text.
ghost use Rattle.std.specs.Prelude.{◌≡◌, ◌++◌, IfOk, OnOk, IfErr, string_bytes, option_copied};
ghost use Rattle.cedar_layers.specs.Policies.{policy_view, policy_id_text};
ghost use Rattle.cedar_functions.specs.Functions.{knowledge, these, signatures_of};
ghost use Rattle.cedar_text_formatter.specs.Formatted.{IsFormatted};
ghost use Rattle.cedar_text_parser.specs.PolicyHeights.{with_scope, AreAllNoHigher};
ghost use Rattle.cedar_text_parser.specs.PolicyReading.{AreAllRead};
ghost use Rattle.cedar_cli.specs.Named.{annotated, policy_name};
ghost use Rattle.cedar_cli.specs.Questions.{levels, ArePoliciesOf, ArePoliciesFor};
ghost use Rattle.cedar_cli.specs.Reasons.{IsToldFor, IsOfPolicies, ArePoliciesUnread, AreUnread, AreUnreadFor};
ghost use Rattle.cedar_cli.specs.Reasons.{HasNoLayout, IsNotLaidOut};
ghost use Rattle.cedar_cli.specs.Standard.{standard_knowledge};

use crate::asked::Source;
use crate::limits::LEVELS;
use crate::places::Places;
use crate::refusal::{Refusal, refuse_with_line, unparsed_lines};
use crate::visible::push_visible;
use crate::warnings::{MOST, others};
use cedar_policy_core::ast::{
    Extension, ExtensionFunction, FirstRest, Name, Policy, PolicyID, PolicySet,
};
use cedar_policy_core::extensions::Extensions;
use cedar_policy_core::parser::{Functions, ParseError, ParsedPolicies, parse_policies};
use cedar_policy_core::writing::{FormatError, format_text, is_formatted};
use std::alloc::{AllocError, Global};
use std::rc::RcStr;

/// The policies that the text writes, which call no other functions than these.
pub(crate) fn read(
    alloc: Global,
    source: Source<'_>,
    functions: &Functions,
) -> Result<ParsedPolicies, Refusal>
    ensures read { IfOk result (AreAllRead (knowledge functions.now) source.entry.text.now levels) }
    ensures low { IfOk result (AreAllNoHigher (with_scope levels)) }
    ensures refused { IfErr result (IsToldFor (ArePoliciesUnread (knowledge functions.now) source.entry.text.now)) }
{
    match parse_policies(alloc, source.text, LEVELS, functions) {
        Ok(parsed) => Ok(parsed),
        Err(errors) => Err(refusal(alloc, source, &errors)),
    }
}

/// The policies that the text writes, which call functions of these extensions alone. Refused where it can't be read: the
/// first errors are told, each with its place, and how many more there are.
pub fn read_over(
    alloc: Global,
    source: Source<'_>,
    extensions: &Extensions<'_>,
) -> Result<ParsedPolicies, Refusal>
    ensures read { IfOk result (AreAllRead (these (signatures_of extensions.now)) source.entry.text.now levels) }
    ensures low { IfOk result (AreAllNoHigher (with_scope levels)) }
    ensures refused { IfErr result (IsToldFor
        (ArePoliciesUnread (these (signatures_of extensions.now)) source.entry.text.now)) }
{
    match Functions::of(alloc, extensions) {
        Ok(functions) => {
            let parsed = read(alloc, source, &functions);
            drop(functions);
            parsed
        }
        Err(AllocError) => Err(Refusal::Memory),
    }
}

// The refusal that tells these errors.
#[cold]
fn refusal(alloc: Global, source: Source<'_>, errors: &FirstRest<ParseError>) -> Refusal
    ensures { IsToldFor (IsOfPolicies errors.now.first) result }
{
    match all_lines(alloc, source, errors) {
        Ok(lines) => Refusal::Told(lines),
        Err(AllocError) => Refusal::Memory,
    }
}

fn all_lines(
    alloc: Global,
    source: Source<'_>,
    errors: &FirstRest<ParseError>,
) -> Result<String, AllocError>
    ensures { OnOk result (IsOfPolicies errors.now.first) }
{
    let places = Places::of(alloc, source)?;
    let mut lines = unparsed_lines(alloc, &places, &errors.first)?;
    push_rest(alloc, source, &places, errors.rest.as_slice(), &mut lines)?;
    Ok(lines)
}

// The errors behind the first.
fn push_rest(
    alloc: Global,
    source: Source<'_>,
    places: &Places<'_>,
    rest: &[ParseError],
    lines: &mut String,
) -> Result<(), AllocError> {
    let mut told: usize = 1;
    'errors: for error in rest {
        if told < MOST {
            push_lines(alloc, places, error, lines)?;
            told += 1;
        }
    }
    push_others(alloc, source, rest.len().saturating_add(1), lines)
}

fn push_lines(
    alloc: Global,
    places: &Places<'_>,
    error: &ParseError,
    lines: &mut String,
) -> Result<(), AllocError> {
    let more = unparsed_lines(alloc, places, error)?;
    lines.push_str(&more)
}

// Of more errors than are told one by one, how many there are besides.
fn push_others(
    alloc: Global,
    source: Source<'_>,
    count: usize,
    lines: &mut String,
) -> Result<(), AllocError> {
    match others(count) {
        Some(others) => {
            push_visible(alloc, source.name, lines)?;
            lines.push_str(format!(in alloc; ": and {others} more errors\n")?.as_str())
        }
        None => Ok(()),
    }
}

/// The policies that the text writes, which call standard functions and `unknown` alone.
pub(crate) fn read_with_unknown(
    alloc: Global,
    source: Source<'_>,
) -> Result<ParsedPolicies, Refusal>
    ensures read { IfOk result (ArePoliciesOf source.entry.text.now) }
    ensures refused { IfErr result (IsToldFor (AreUnread source.entry.text.now)) }
{
    let name = Name::new(RcStr::from_str(alloc, "partial_evaluation")?, None);
    let functions = vec![in alloc; ExtensionFunction::unknown(alloc)?]?;
    let all = vec![in alloc; Extension::new(name, functions, Vec::new(alloc))]?;
    match Extensions::with_standard(alloc, all.as_slice()) {
        Ok(extensions) => read_known(alloc, source, &extensions),
        Err(_) => Err(Refusal::Memory),
    }
}

fn read_known(
    alloc: Global,
    source: Source<'_>,
    extensions: &Extensions<'_>,
) -> Result<ParsedPolicies, Refusal>
    ensures read { IfOk result (ArePoliciesOf source.entry.text.now) }
    ensures refused { IfErr result (IsToldFor (AreUnread source.entry.text.now)) }
{
    read_over(alloc, source, extensions)
}

/// The policies that the text writes, which call standard functions alone; and `unknown`, where they may.
pub(crate) fn read_for(
    alloc: Global,
    source: Source<'_>,
    has_unknowns: bool,
) -> Result<ParsedPolicies, Refusal>
    ensures read { IfOk result (ArePoliciesFor has_unknowns source.entry.text.now) }
    ensures refused { IfErr result (IsToldFor (AreUnreadFor has_unknowns source.entry.text.now)) }
{
    if has_unknowns {
        read_with_unknown(alloc, source)
    } else {
        read_standard(alloc, source)
    }
}

// The policies that the text writes, which call standard functions alone.
fn read_standard(alloc: Global, source: Source<'_>) -> Result<ParsedPolicies, Refusal>
    ensures read { IfOk result (AreAllRead standard_knowledge source.entry.text.now levels) }
    ensures refused { IfErr result (IsToldFor (ArePoliciesUnread standard_knowledge source.entry.text.now)) }
{
    let extensions = Extensions::all_available();
    read_over(alloc, source, &extensions)
}

/// Whether the policies can be read, in which the standard functions may be called and, where they may have unknowns,
/// `unknown`: if not, the first errors are told, each with its place, and how many more there are.
pub fn check_policies(alloc: Global, source: Source<'_>, has_unknowns: bool) -> Result<(), Refusal>
    ensures passed { OnOk result ((parsed : _) × ArePoliciesFor has_unknowns source.entry.text.now parsed) }
    ensures refused { IfErr result (IsToldFor (AreUnreadFor has_unknowns source.entry.text.now)) }
{
    let parsed = read_for(alloc, source, has_unknowns)?;
    drop(parsed);
    Ok(())
}

/// The text of the policies in one layout, with its comments: its tokens and comments stay what they are, in their
/// order. Refused where the policies can't be read, in which the standard functions and `unknown` may be called.
pub fn format_policies(alloc: Global, source: Source<'_>) -> Result<String, Refusal>
    ensures formatted { IfOk result (λ formatted. IsFormatted source.entry.text.now (string_bytes formatted)) }
    ensures refused { IfErr result (IsToldFor (HasNoLayout source.entry.text.now)) }
{
    check_policies(alloc, source, true)?;
    match format_text(alloc, source.text) {
        Ok(formatted) => Ok(formatted),
        Err(FormatError::Memory) => Err(Refusal::Memory),
        Err(FormatError::Unreadable) => Err(is_unreadable(alloc, source)),
    }
}

/// Whether the text of the policies is in that layout already: if not, or if they can't be read, it is refused.
pub fn check_format(alloc: Global, source: Source<'_>) -> Result<(), Refusal>
    ensures passed { OnOk result (IsFormatted source.entry.text.now source.entry.text.now) }
    ensures refused { IfErr result (IsToldFor (IsNotLaidOut source.entry.text.now)) }
{
    check_policies(alloc, source, true)?;
    match is_formatted(alloc, source.text) {
        Ok(true) => Ok(()),
        Ok(false) => Err(would_change(alloc, source)),
        Err(FormatError::Memory) => Err(Refusal::Memory),
        Err(FormatError::Unreadable) => Err(is_unreadable(alloc, source)),
    }
}

#[cold]
fn would_change(alloc: Global, source: Source<'_>) -> Refusal {
    let name = source.name;
    refuse_with_line(alloc, format!(in alloc; "{name}: `format` would change it"))
}

// No text is refused so: one of which a token can't be read holds no policies.
#[cold]
fn is_unreadable(alloc: Global, source: Source<'_>) -> Refusal {
    let name = source.name;
    refuse_with_line(alloc, format!(in alloc; "{name}: a token can't be read"))
}

/// The policy of this id, if there is one.
pub fn with_id<'a>(policies: &'a PolicySet, id: &PolicyID) -> Option<&'a Policy> {
    for policy in policies.policies() {
        if policy.id() == id {
            return Some(policy);
        }
    }
    None
}

/// Writes how the policy is called behind the text: by its annotation `id` or, where it has none, by its id.
pub fn push_name(alloc: Global, policy: &Policy, out: &mut String) -> Result<(), AllocError>
    ensures { OnOk result
        (string_bytes out.new ≡ string_bytes out.old ++ policy_name (policy_view policy.now)) }
{
    match annotated_id(policy) {
        Some(name) => out.push_str(name),
        None => push_id(alloc, policy.id(), out),
    }
}

/// The policy's annotation `id`, if it has one.
pub(crate) fn annotated_id(policy: &Policy) -> Option<&str>
    ensures { option_copied result ≡ annotated (policy_view policy.now) }
{
    match policy.annotations_rc().0.get("id") {
        Some(name) => Some(name.as_str()),
        None => None,
    }
}

pub(crate) fn push_id(alloc: Global, id: &PolicyID, out: &mut String) -> Result<(), AllocError>
    ensures { OnOk result (string_bytes out.new ≡ string_bytes out.old ++ policy_id_text id.now) }
{
    out.push_str(id.to_string(alloc)?.as_str())
}

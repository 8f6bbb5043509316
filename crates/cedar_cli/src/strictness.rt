//! What is told of policies that can be read, but can't be meant.
ghost use Rattle.std.specs.Prelude.{◌≡◌, ◌++◌, true, [], IfOk, OnOk, IfErr, string_bytes, option_map, is_some};
ghost use Rattle.cedar_layers.specs.PolicySets.{stored_policies};
ghost use Rattle.cedar_cli.specs.Reasons.{IsToldFor, AreUnreadFor};
ghost use Rattle.cedar_cli.specs.Strict as specs;
ghost use Rattle.cedar_cli.specs.Strict.{finding_view, words_found, IsMeant, IsLineIf, IsLineWhen, IsFoundLine, Adds};
ghost use Rattle.cedar_cli.specs.Strict.{AreFindingLines, AreFindings, AreAllTold, IsStrict};

use crate::asked::Source;
use crate::decisions::Printed;
use crate::places::Places;
use crate::policies::{push_name, read_for};
use crate::refusal::Refusal;
use crate::repeated::push_alike;
use crate::warnings::push_warning;
use cedar_policy_core::ast::{Policy, PolicySet};
use cedar_policy_core::parser::{Loc, ParsedPolicies};
use cedar_unsatisfiable::{always_errs, is_unsatisfiable, late_test};
use std::alloc::{AllocError, Global};

/// What is found of a policy.
#[derive(Clone, Copy)]
pub(crate) enum Finding {
    /// It applies in no world.
    Never,
    /// It errs wherever its scope holds.
    Erring,
    /// It tests an attribute after it read it.
    Late,
}

/// Whether the policies can be read, as `check_policies` has it; beside that each policy and template is told of which
/// the text shows that it applies in no world, that it errs wherever its scope holds, that it tests an attribute after
/// it read it, or that one before says the same. The status is 1 if one is told and `is_denied` is set, and else 0.
pub fn check_strictly(
    alloc: Global,
    source: Source<'_>,
    has_unknowns: bool,
    is_denied: bool,
) -> Result<Printed, Refusal>
    ensures checked { IfOk result (IsStrict source.entry has_unknowns is_denied) }
    ensures refused { IfErr result (IsToldFor (AreUnreadFor has_unknowns source.entry.text.now)) }
{
    let parsed = read_for(alloc, source, has_unknowns)?;
    let told = all_warnings(alloc, source, &parsed);
    drop(parsed);
    let warnings: String = told?;
    let status = strict_status(is_denied, warnings.as_str());
    Ok(Printed {
        output: String::new(alloc),
        warnings,
        status,
    })
}

fn strict_status(is_denied: bool, warnings: &str) -> u8
    ensures { result ≡ specs.strict_status is_denied warnings.now }
{
    if is_denied && !warnings.is_empty() {
        1
    } else {
        0
    }
}

fn all_warnings(
    alloc: Global,
    source: Source<'_>,
    parsed: &ParsedPolicies,
) -> Result<String, AllocError>
    ensures { IfOk result (λ s. AreAllTold source.entry parsed.now (string_bytes s)) }
{
    let places = Places::of(alloc, source)?;
    let mut warnings = String::new(alloc);
    push_findings(alloc, &places, Finding::Never, parsed, &mut warnings)?;
    push_findings(alloc, &places, Finding::Erring, parsed, &mut warnings)?;
    push_findings(alloc, &places, Finding::Late, parsed, &mut warnings)?;
    push_alike(alloc, &places, parsed, &mut warnings)?;
    Ok(warnings)
}

fn push_findings(
    alloc: Global,
    places: &Places<'_>,
    finding: Finding,
    parsed: &ParsedPolicies,
    warnings: &mut String,
) -> Result<(), AllocError>
    ensures { OnOk result (Adds (AreFindings (finding_view finding) places.now.source parsed.now)
        (string_bytes warnings.old) (string_bytes warnings.new)) }
{
    push_of_policies(alloc, places, finding, &parsed.policies, warnings)?;
    push_of_templates(alloc, places, finding, &parsed.templates, warnings)?;
    Ok(())
}

fn push_of_policies(
    alloc: Global,
    places: &Places<'_>,
    finding: Finding,
    policies: &PolicySet,
    warnings: &mut String,
) -> Result<(), AllocError>
    ensures { OnOk result (Adds (AreFindingLines (finding_view finding) places.now.source (stored_policies policies.now))
        (string_bytes warnings.old) (string_bytes warnings.new)) }
{
    'policies: for policy in policies.policies() {
        push_if_found(alloc, places, finding, policy, warnings)?;
    }
    Ok(())
}

fn push_of_templates(
    alloc: Global,
    places: &Places<'_>,
    finding: Finding,
    templates: &[Policy],
    warnings: &mut String,
) -> Result<(), AllocError>
    ensures { OnOk result (Adds (AreFindingLines (finding_view finding) places.now.source templates.now)
        (string_bytes warnings.old) (string_bytes warnings.new)) }
{
    'templates: for template in templates {
        push_if_found(alloc, places, finding, template, warnings)?;
    }
    Ok(())
}

// Tells of the policy if its text shows it.
fn push_if_found(
    alloc: Global,
    places: &Places<'_>,
    finding: Finding,
    policy: &Policy,
    warnings: &mut String,
) -> Result<(), AllocError>
    ensures { OnOk result ((line : _) × IsLineIf (finding_view finding) places.now.source policy.now line
        × (string_bytes warnings.new ≡ string_bytes warnings.old ++ line)) }
{
    let words = words_of(alloc, finding, policy)?;
    push_line_when(alloc, places, policy, &words, warnings)?;
    drop(words);
    Ok(())
}

// The words that are told of the policy, if its text shows it.
fn words_of(alloc: Global, finding: Finding, policy: &Policy) -> Result<Option<String>, AllocError>
    ensures words { IfOk result
        (λ o. option_map string_bytes o ≡ words_found (finding_view finding) policy.now) }
    ensures meant { IfOk result
        (λ o. is_some (words_found (finding_view finding) policy.now) ≡ true
        → IsMeant (finding_view finding) policy.now) }
{
    match finding {
        Finding::Never => never_words(alloc, policy),
        Finding::Erring => erring_words(alloc, policy),
        Finding::Late => late_words(alloc, policy),
    }
}

fn never_words(alloc: Global, policy: &Policy) -> Result<Option<String>, AllocError>
    ensures words { IfOk result (λ o. option_map string_bytes o ≡ words_found specs.never policy.now) }
    ensures meant { IfOk result (λ o. is_some (words_found specs.never policy.now) ≡ true
        → IsMeant specs.never policy.now) }
{
    let is_never = is_unsatisfiable(alloc, policy)?;
    words_if(alloc, is_never, " applies in no world")
}

fn erring_words(alloc: Global, policy: &Policy) -> Result<Option<String>, AllocError>
    ensures words { IfOk result (λ o. option_map string_bytes o ≡ words_found specs.erring policy.now) }
    ensures meant { IfOk result (λ o. is_some (words_found specs.erring policy.now) ≡ true
        → IsMeant specs.erring policy.now) }
{
    let is_erring = always_errs(alloc, policy)?;
    words_if(alloc, is_erring, " errs wherever its scope holds")
}

fn words_if(alloc: Global, is: bool, words: &str) -> Result<Option<String>, AllocError>
    ensures { IfOk result (λ o. option_map string_bytes o ≡ specs.words_if is words.now) }
{
    if is {
        Ok(Some(String::from_str(alloc, words)?))
    } else {
        Ok(None)
    }
}

fn late_words(alloc: Global, policy: &Policy) -> Result<Option<String>, AllocError>
    ensures { IfOk result (λ o. option_map string_bytes o ≡ words_found specs.late policy.now) }
{
    match late_test(alloc, policy)? {
        Some(name) => {
            let name = name.as_str();
            Ok(Some(format!(in alloc; " tests the attribute `{name}` after it read it")?))
        }
        None => Ok(None),
    }
}

fn push_line_when(
    alloc: Global,
    places: &Places<'_>,
    policy: &Policy,
    words: &Option<String>,
    warnings: &mut String,
) -> Result<(), AllocError>
    ensures { OnOk result ((line : _) × IsLineWhen (option_map string_bytes words.now) places.now.source policy.now line
        × (string_bytes warnings.new ≡ string_bytes warnings.old ++ line)) }
{
    match words {
        Some(words) => push_found_line(alloc, places, policy, words.as_str(), warnings),
        None => Ok(()),
    }
}

/// Puts the warning behind the others that these words are so of the policy.
pub(crate) fn push_found_line(
    alloc: Global,
    places: &Places<'_>,
    policy: &Policy,
    words: &str,
    warnings: &mut String,
) -> Result<(), AllocError>
    ensures { OnOk result ((line : _) × IsFoundLine places.now.source policy.now words.now line
        × (string_bytes warnings.new ≡ string_bytes warnings.old ++ line)) }
{
    let line = found_line(alloc, places, policy, words)?;
    push_warning(alloc, line.as_str(), warnings)?;
    Ok(())
}

// `NAME: line L, column C: the policy `..` WORDS`
fn found_line(
    alloc: Global,
    places: &Places<'_>,
    policy: &Policy,
    words: &str,
) -> Result<String, AllocError>
    ensures { IfOk result (λ s. string_bytes s ≡ specs.found_text places.now.source policy.now words.now) }
{
    let mut line = String::from_str(alloc, places.name())?;
    push_noted(alloc, places, policy.loc(), &mut line)?;
    line.push_str(": the policy `")?;
    push_name(alloc, policy, &mut line)?;
    line.push_str("`")?;
    line.push_str(words)?;
    Ok(line)
}

// `: line L, column C`, if the place is known.
fn push_noted(
    alloc: Global,
    places: &Places<'_>,
    place: Option<Loc>,
    line: &mut String,
) -> Result<(), AllocError>
    ensures { OnOk result (string_bytes line.new
        ≡ string_bytes line.old ++ specs.noted_text places.now.source.text.now place) }
{
    match place {
        Some(loc) => {
            let (number, column) = places.place_of(loc);
            line.push_str(format!(in alloc; ": line {number}, column {column}")?.as_str())
        }
        None => Ok(()),
    }
}

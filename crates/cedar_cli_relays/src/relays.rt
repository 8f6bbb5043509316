//! Requests that are decided in stages, of which each hands a line on.
ghost use Rattle.std.specs.Prelude.{◌≡◌, [], IfOk, IfErr};
ghost use Rattle.cedar_extensions.specs.Extensions.{extensions_view, calls_of};
ghost use Rattle.cedar_functions.specs.Functions.{these, signatures_of};
ghost use Rattle.cedar_layers.specs.PolicySets.{policies_view};
ghost use Rattle.cedar_cli.specs.Reasons.{IsToldFor};
ghost use Rattle.cedar_cli.specs.Stopped.{AreNotTakenFrom, IsPartlyUnanswered, IsPartlyUnansweredBy};
ghost use Rattle.cedar_cli.specs.Stopped.{IsPartlyUnansweredOver};
ghost use Rattle.cedar_response_json.specs.Extensions.{names_of};
ghost use Rattle.cedar_cli_relays.specs.Saved.{configuration_as, ArePrintedAndSaved, IsSaved, IsSavedBy, IsSavedOver};
ghost use Rattle.cedar_cli_relays.specs.Saved.{IsResumed, IsTakenOn, IsTakenOnOver};
ghost use Rattle.cedar_cli_relays.specs.Unresumed.{IsNotResumed, IsNotTakenOn};

use crate::lines::{line_of_response, response_of_line};
use cedar_cli::{
    Asked, Printed, Refusal, Source, Stages, Step, Store, Way, all_stages, given_store,
    print_stages_of, read_over, stages_from, tell_templates,
};
use cedar_policy_core::ast::PolicySet;
use cedar_policy_core::authorizer::PartialResponse;
use cedar_policy_core::extensions::Extensions;
use cedar_policy_core::parser::ParsedPolicies;
use std::alloc::{AllocError, Global};

/// What is printed, and the line that takes the answer further on another machine.
#[derive(Debug, Drop)]
pub struct Saved {
    /// What is printed.
    pub printed: Printed,
    /// The last response, whole, as JSON on a line.
    pub line: String,
}

/// What `partially_authorize` of `cedar_cli` prints, and the line of the last response. Refused as that is.
pub fn partially_authorize_and_save(
    alloc: Global,
    extensions: &Extensions<'_>,
    policies: Source<'_>,
    asked: &Asked<'_, '_>,
    steps: &[Step<'_>],
    way: Way,
) -> Result<Saved, Refusal>
    ensures answered { IfOk result (IsSaved (extensions_view extensions.now) (calls_of extensions.now)
        (names_of extensions.now) (these (signatures_of extensions.now)) policies.entry.text.now asked.now steps.now
        way) }
    ensures refused { IfErr result (IsToldFor (IsPartlyUnanswered (these (signatures_of extensions.now))
        (extensions_view extensions.now) (calls_of extensions.now) policies.entry.text.now asked.now steps.now way)) }
{
    let parsed = read_over(alloc, policies, extensions)?;
    let saved = save_parsed(alloc, policies, &parsed, asked, steps, way, extensions);
    drop(parsed);
    saved
}

fn save_parsed(
    alloc: Global,
    source: Source<'_>,
    parsed: &ParsedPolicies,
    asked: &Asked<'_, '_>,
    steps: &[Step<'_>],
    way: Way,
    extensions: &Extensions<'_>,
) -> Result<Saved, Refusal>
    ensures answered { IfOk result (IsSavedBy (extensions_view extensions.now) (calls_of extensions.now)
        (names_of extensions.now) source.entry.text.now parsed.now.policies asked.now steps.now way) }
    ensures refused { IfErr result (IsToldFor (IsPartlyUnansweredBy (extensions_view extensions.now)
        (calls_of extensions.now) parsed.now.policies asked.now steps.now way)) }
{
    let mut warnings = String::new(alloc);
    tell_templates(alloc, source, &parsed.templates, &mut warnings)?;
    save_over_given_store(
        alloc,
        source,
        &parsed.policies,
        asked,
        steps,
        way,
        extensions,
        warnings,
    )
}

fn save_over_given_store(
    alloc: Global,
    source: Source<'_>,
    policies: &PolicySet,
    asked: &Asked<'_, '_>,
    steps: &[Step<'_>],
    way: Way,
    extensions: &Extensions<'_>,
    mut warnings: String,
) -> Result<Saved, Refusal>
    ensures answered { IfOk result (IsSavedBy (extensions_view extensions.now) (calls_of extensions.now)
        (names_of extensions.now) source.entry.text.now policies.now asked.now steps.now way) }
    ensures refused { IfErr result (IsToldFor (IsPartlyUnansweredBy (extensions_view extensions.now)
        (calls_of extensions.now) policies.now asked.now steps.now way)) }
{
    let store = given_store(alloc, asked, extensions, &mut warnings)?;
    let saved = save_over_store(
        alloc, source, policies, &store, asked, steps, way, extensions, warnings,
    );
    drop(store);
    saved
}

fn save_over_store(
    alloc: Global,
    source: Source<'_>,
    policies: &PolicySet,
    store: &Store,
    asked: &Asked<'_, '_>,
    steps: &[Step<'_>],
    way: Way,
    extensions: &Extensions<'_>,
    mut warnings: String,
) -> Result<Saved, Refusal>
    ensures answered { IfOk result (IsSavedOver (extensions_view extensions.now) (calls_of extensions.now)
        (names_of extensions.now) source.entry.text.now policies.now store.now.entities asked.now steps.now way) }
    ensures refused { IfErr result (IsToldFor (IsPartlyUnansweredOver (extensions_view extensions.now)
        (calls_of extensions.now) policies.now store.now.entities asked.now steps.now way)) }
{
    let stages = all_stages(
        alloc,
        policies,
        store,
        asked,
        steps,
        way,
        extensions,
        &mut warnings,
    )?;
    let saved = print_and_save(alloc, source, policies, way, &stages, extensions, warnings);
    drop(stages);
    Ok(saved?)
}

fn print_and_save(
    alloc: Global,
    source: Source<'_>,
    policies: &PolicySet,
    way: Way,
    stages: &Stages<'_>,
    extensions: &Extensions<'_>,
    warnings: String,
) -> Result<Saved, AllocError>
    ensures { IfOk result (ArePrintedAndSaved (names_of extensions.now) source.entry.text.now policies.now way.is_json
        stages.now.first stages.now.later.items) }
{
    let printed = print_stages_of(alloc, source, policies, way, stages, warnings)?;
    match line_of_response(alloc, stages.last(), extensions) {
        Ok(line) => Ok(Saved { printed, line }),
        Err(error) => {
            drop(printed);
            Err(error)
        }
    }
}

// ---- lines that are taken further

/// The response that the line says, taken further by these steps over the entities that are given, each step over its
/// own if it brings some: what is printed of it and of each step, and the line of the last response. The request and the
/// policies are those of the line, and errors are handled as it says. Refused where the line says no response, with the
/// path of the part at fault; where the entities can't be read; and where a step can't be taken, as past a recorded
/// limit of levels.
pub fn resume(
    alloc: Global,
    extensions: &Extensions<'_>,
    line: Source<'_>,
    asked: &Asked<'_, '_>,
    steps: &[Step<'_>],
    way: Way,
) -> Result<Saved, Refusal>
    ensures answered { IfOk result (IsResumed (extensions_view extensions.now) (calls_of extensions.now)
        (names_of extensions.now) (these (signatures_of extensions.now)) line.entry.text.now asked.now steps.now
        way) }
    ensures refused { IfErr result (IsToldFor (IsNotResumed (extensions_view extensions.now)
        (calls_of extensions.now) (names_of extensions.now) (these (signatures_of extensions.now))
        line.entry.text.now asked.now steps.now way)) }
{
    match response_of_line(alloc, line, extensions) {
        Ok(response) => {
            match resume_response(alloc, line, response, asked, steps, way, extensions) {
                Ok(saved) => Ok(saved),
                Err(refusal) => Err(refusal),
            }
        }
        Err(refusal) => Err(refusal),
    }
}

fn resume_response(
    alloc: Global,
    line: Source<'_>,
    response: PartialResponse,
    asked: &Asked<'_, '_>,
    steps: &[Step<'_>],
    way: Way,
    extensions: &Extensions<'_>,
) -> Result<Saved, Refusal>
    ensures answered { IfOk result (IsTakenOnOver (extensions_view extensions.now) (calls_of extensions.now)
        (names_of extensions.now) line.entry.text.now response asked.now steps.now way) }
    ensures refused { IfErr result (IsToldFor (IsNotTakenOn (extensions_view extensions.now)
        (calls_of extensions.now) (names_of extensions.now) response asked.now steps.now way)) }
{
    let mut warnings = String::new(alloc);
    match given_store(alloc, asked, extensions, &mut warnings) {
        Ok(store) => {
            let saved = resume_over(
                alloc, line, response, &store, steps, way, extensions, warnings,
            );
            drop(store);
            match saved {
                Ok(saved) => Ok(saved),
                Err(refusal) => Err(refusal),
            }
        }
        Err(refusal) => {
            drop(response);
            Err(refusal)
        }
    }
}

fn resume_over(
    alloc: Global,
    line: Source<'_>,
    response: PartialResponse,
    store: &Store,
    steps: &[Step<'_>],
    way: Way,
    extensions: &Extensions<'_>,
    mut warnings: String,
) -> Result<Saved, Refusal>
    ensures answered { IfOk result (IsTakenOn (extensions_view extensions.now) (calls_of extensions.now)
        (names_of extensions.now) line.entry.text.now response store.now.entities steps.now way) }
    ensures refused { IfErr result (IsToldFor (AreNotTakenFrom
        (configuration_as (extensions_view extensions.now) (calls_of extensions.now) response way)
        response store.now.entities steps.now)) }
{
    let way = Way {
        error_handling: response.error_handling(),
        ..way
    };
    match stages_from(
        alloc,
        response,
        store,
        steps,
        way,
        extensions,
        &mut warnings,
    ) {
        Ok(stages) => {
            let saved = print_without_policies(alloc, line, way, &stages, extensions, warnings);
            drop(stages);
            match saved {
                Ok(saved) => Ok(saved),
                Err(refusal) => Err(refusal),
            }
        }
        Err(refusal) => {
            drop(warnings);
            Err(refusal)
        }
    }
}

// The text of the policies is not there: they are called as the response calls them.
fn print_without_policies(
    alloc: Global,
    line: Source<'_>,
    way: Way,
    stages: &Stages<'_>,
    extensions: &Extensions<'_>,
    warnings: String,
) -> Result<Saved, Refusal>
    ensures saved { IfOk result (λ s. (ps : _) × (policies_view ps ≡ []) × ArePrintedAndSaved
        (names_of extensions.now) line.entry.text.now ps way.is_json stages.now.first stages.now.later.items s) }
    ensures memory { IfErr result (IsToldFor ⊥) }
{
    match PolicySet::try_from_iter(alloc, Vec::new(alloc)) {
        Ok(none) => {
            let saved = print_and_save(alloc, line, &none, way, stages, extensions, warnings);
            drop(none);
            match saved {
                Ok(saved) => Ok(saved),
                Err(AllocError) => Err(Refusal::Memory),
            }
        }
        Err(error) => {
            drop(error);
            drop(warnings);
            Err(Refusal::Memory)
        }
    }
}

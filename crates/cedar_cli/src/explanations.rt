//! What policies decide, and why each came to what it did.
ghost use Rattle.std.specs.Prelude.{◌≡◌, ◌++◌, map, IfOk, OnOk, IfErr, string_bytes};
ghost use Rattle.cedar_extensions.specs.Extensions.{extensions_view, calls_of};
ghost use Rattle.cedar_layers.specs.PolicySets.{policies_view};
ghost use Rattle.cedar_explain_printer.specs.Lines.{line_view};
ghost use Rattle.cedar_cli.specs.Reasons.{IsToldFor, IsUnauthorized, IsAskedUnread, IsRequestUnread};
ghost use Rattle.cedar_cli.specs.Explained as specs;
ghost use Rattle.cedar_cli.specs.Explained.{IsExplained, IsExplainedBy, IsExplainedOver, AreExplained, IsBelow};
ghost use Rattle.cedar_cli.specs.Explained.{AreToldLines, IsToldLine, IsWordAbove};

use crate::asked::{Asked, Source, Way};
use crate::decisions::{Printed, decide_request, print_decision, reason_lines};
use crate::limits::text_limit;
use crate::places::Places;
use crate::policies::read_over;
use crate::reading::whole_request;
use crate::refusal::Refusal;
use crate::stores::known_store;
use crate::visible::push_visible;
use crate::warnings::{Deciding, push_errors, push_templates};
use cedar_explain_printer::{Line, LineKind, Telling, explanation_lines};
use cedar_policy_core::ast::Request;
use cedar_policy_core::authorizer::Response;
use cedar_policy_core::entities::Entities;
use cedar_policy_core::extensions::Extensions;
use cedar_policy_core::extensions::laws::functions_are_computed;
use cedar_policy_core::parser::laws::known_calls_of_policies;
use cedar_policy_core::parser::{Loc, ParsedPolicies};
use std::alloc::{AllocError, Global};

// The policies that decide, and whether the values of their parts are told.
#[derive(Clone, Copy)]
struct Explaining<'p> {
    deciding: Deciding<'p>,
    has_values: bool,
}

/// What the policies decide for the request, as `authorize` prints it, and below that why: if no policy is a reason,
/// the parts of permits that alone keep them from applying; then what each policy came to, and the parts that decide
/// it, each with its place and with what it came to. Where values are left out, a value that is no boolean is not told.
pub fn authorize_and_explain(
    alloc: Global,
    policies: Source<'_>,
    asked: &Asked<'_, '_>,
    way: Way,
    has_values: bool,
) -> Result<Printed, Refusal>
    ensures answered { IfOk result (IsExplained policies.entry.text.now asked.now way has_values) }
    ensures refused { IfErr result (IsToldFor (IsUnauthorized policies.entry.text.now asked.now)) }
{
    functions_are_computed();
    known_calls_of_policies();
    let extensions = Extensions::all_available();
    let parsed = read_over(alloc, policies, &extensions)?;
    let printed = explain_parsed(
        alloc,
        policies,
        &parsed,
        asked,
        way,
        has_values,
        &extensions,
    );
    drop(parsed);
    printed
}

fn explain_parsed(
    alloc: Global,
    source: Source<'_>,
    parsed: &ParsedPolicies,
    asked: &Asked<'_, '_>,
    way: Way,
    has_values: bool,
    extensions: &Extensions<'_>,
) -> Result<Printed, Refusal>
    ensures answered { IfOk result (IsExplainedBy (extensions_view extensions.now) (calls_of extensions.now)
        source.entry.text.now parsed.now.policies asked.now way has_values) }
    ensures refused { IfErr result (IsToldFor
        (IsAskedUnread (extensions_view extensions.now) (calls_of extensions.now) asked.now)) }
{
    let places = Places::of(alloc, source)?;
    let mut warnings = String::new(alloc);
    push_templates(alloc, &places, &parsed.templates, &mut warnings)?;
    let deciding = Deciding {
        places: &places,
        policies: &parsed.policies,
        way,
    };
    let explaining = Explaining {
        deciding,
        has_values,
    };
    explain_over_given_store(alloc, explaining, asked, extensions, warnings)
}

fn explain_over_given_store(
    alloc: Global,
    explaining: Explaining<'_>,
    asked: &Asked<'_, '_>,
    extensions: &Extensions<'_>,
    mut warnings: String,
) -> Result<Printed, Refusal>
    ensures answered { IfOk result (IsExplainedBy (extensions_view extensions.now) (calls_of extensions.now)
        explaining.entry.deciding.places.now.source.text.now explaining.entry.deciding.policies.now asked.now
        explaining.entry.deciding.way explaining.entry.has_values) }
    ensures refused { IfErr result (IsToldFor
        (IsAskedUnread (extensions_view extensions.now) (calls_of extensions.now) asked.now)) }
{
    let store = known_store(alloc, asked, extensions, &mut warnings)?;
    let printed = explain_over_store(
        alloc,
        explaining,
        &store.entities,
        asked,
        extensions,
        warnings,
    );
    drop(store);
    printed
}

fn explain_over_store(
    alloc: Global,
    explaining: Explaining<'_>,
    entities: &Entities,
    asked: &Asked<'_, '_>,
    extensions: &Extensions<'_>,
    warnings: String,
) -> Result<Printed, Refusal>
    ensures answered { IfOk result (IsExplainedOver (extensions_view extensions.now) (calls_of extensions.now)
        explaining.entry.deciding.places.now.source.text.now explaining.entry.deciding.policies.now entities.now
        asked.now explaining.entry.deciding.way explaining.entry.has_values) }
    ensures refused { IfErr result (IsToldFor
        (IsRequestUnread (extensions_view extensions.now) (calls_of extensions.now) asked.now)) }
{
    let request = whole_request(alloc, asked, extensions)?;
    let below = explanation_of(alloc, explaining, &request, entities, extensions)?;
    let response = decide_request(alloc, request, explaining.deciding, entities, extensions)?;
    let printed = print_above(
        alloc,
        explaining.deciding,
        &response,
        below.as_str(),
        warnings,
    );
    drop(response);
    Ok(printed?)
}

// The lines of the explanation, as they are printed.
fn explanation_of(
    alloc: Global,
    explaining: Explaining<'_>,
    request: &Request,
    entities: &Entities,
    extensions: &Extensions<'_>,
) -> Result<String, AllocError>
    ensures { IfOk result (λ s. IsBelow (extensions_view extensions.now) (calls_of extensions.now)
        explaining.entry.deciding.places.now.source.text.now explaining.entry.deciding.policies.now entities.now
        request.now explaining.entry.deciding.way explaining.entry.has_values (string_bytes s)) }
{
    let lines = explain(alloc, explaining, request, entities, extensions)?;
    let told = told_lines(alloc, explaining.deciding.places, &lines);
    drop(lines);
    told
}

fn explain(
    alloc: Global,
    explaining: Explaining<'_>,
    request: &Request,
    entities: &Entities,
    extensions: &Extensions<'_>,
) -> Result<Vec<Line>, AllocError>
    ensures { IfOk result (λ v. AreExplained (extensions_view extensions.now) (calls_of extensions.now)
        explaining.entry.deciding.policies.now entities.now request.now explaining.entry.deciding.way
        explaining.entry.has_values (map line_view v.items)) }
{
    let copy: Request = request.clone()?;
    let telling = Telling {
        limit: explaining.deciding.way.limit.unwrap_or(text_limit()),
        error_handling: explaining.deciding.way.error_handling,
        has_values: explaining.has_values,
    };
    explanation_lines(
        alloc,
        copy,
        explaining.deciding.policies,
        entities,
        extensions,
        telling,
    )
}

// The decision's line and the policies that determined it, where they are asked for, stand above these lines.
fn print_above(
    alloc: Global,
    deciding: Deciding<'_>,
    response: &Response,
    below: &str,
    mut warnings: String,
) -> Result<Printed, AllocError>
    ensures { IfOk result (IsWordAbove deciding.entry.way.is_verbose (policies_view deciding.entry.policies.now)
        response.now below.now) }
{
    push_errors(alloc, deciding, &response.diagnostics.errors, &mut warnings)?;
    let mut lines = reason_lines(alloc, deciding, response)?;
    lines.push_str(below)?;
    let printed = print_decision(alloc, "", Some(response.decision), lines.as_str(), warnings);
    drop(lines);
    printed
}

// ---- lines

fn told_lines(alloc: Global, places: &Places<'_>, lines: &[Line]) -> Result<String, AllocError>
    ensures { IfOk result
        (λ s. AreToldLines places.now.source.text.now (map line_view lines.now) (string_bytes s)) }
{
    let mut told = String::new(alloc);
    'lines: for line in lines {
        push_told_line(alloc, places, line, &mut told)?;
    }
    Ok(told)
}

fn push_told_line(
    alloc: Global,
    places: &Places<'_>,
    line: &Line,
    output: &mut String,
) -> Result<(), AllocError>
    ensures { OnOk result ((told : _) × IsToldLine places.now.source.text.now (line_view line.now) told
        × (string_bytes output.new ≡ string_bytes output.old ++ told)) }
{
    output.push_str(start_of(line.kind))?;
    push_place_of(alloc, places, line.place, output)?;
    push_visible(alloc, line.text.as_str(), output)?;
    output.push_str("\n")?;
    Ok(())
}

// How the line begins.
fn start_of(kind: LineKind) -> &'static str
    ensures { result.now ≡ specs.start_of kind }
{
    match kind {
        LineKind::Heading => "\nnote: ",
        LineKind::Policy => "  ",
        LineKind::Part => "    ",
    }
}

// `line L, column C: `, if the place is known.
fn push_place_of(
    alloc: Global,
    places: &Places<'_>,
    place: Option<Loc>,
    output: &mut String,
) -> Result<(), AllocError>
    ensures { OnOk result (string_bytes output.new
        ≡ string_bytes output.old ++ specs.place_text places.now.source.text.now place) }
{
    match place {
        Some(loc) => {
            let (line, column) = places.place_of(loc);
            output.push_str(format!(in alloc; "line {line}, column {column}: ")?.as_str())
        }
        None => Ok(()),
    }
}

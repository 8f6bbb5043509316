//! What policies decide for many requests, a line each.
ghost use Rattle.std.specs.Prelude.{◌≡◌, ◌++◌, false, true, cond, map, IfOk, IfErr, OnOk, string_bytes};
ghost use Rattle.std.specs.Str.Lines.{lines};
ghost use Rattle.cedar_json_writer.specs.Trees.{json_view};
ghost use Rattle.cedar_extensions.specs.Extensions.{extensions_view, calls_of};
ghost use Rattle.cedar_cli.specs.Reasons.{IsToldFor, IsKnownStoreUnread};
ghost use Rattle.cedar_cli.specs.Batch.{asking, in_json, refusal_json, IsTold, IsRefusalLine, AreAuthorized};
ghost use Rattle.cedar_cli.specs.Batch.{AreUnauthorized, AreAnsweredBy, AreAnsweredOver, IsLineOver, line_of_answer};

use crate::asked::{Asked, Source, Way};
use crate::decisions::{Printed, authorize_over_store, line_of};
use crate::documents::{number, put_text};
use crate::places::Places;
use crate::policies::read_over;
use crate::refusal::Refusal;
use crate::stores::known_store;
use crate::warnings::{Deciding, push_templates};
use cedar_policy_core::entities::Entities;
use cedar_policy_core::entities::json::{JsonValue, put_member};
use cedar_policy_core::extensions::Extensions;
use cedar_policy_core::extensions::laws::functions_are_computed;
use cedar_policy_core::parser::ParsedPolicies;
use cedar_policy_core::parser::laws::known_calls_of_policies;
use cedar_progress::{end_progress, tell_progress};
use std::alloc::{AllocError, Global};
use std::io::Stderr;
use std::rc::RcStr;

// What a request is called whose line is refused.
const REQUEST_NAME: &str = "the request";

// The answer to a line, with its end, and whether it is a refusal.
#[derive(Drop)]
struct Answered {
    line: String,
    is_refused: bool,
}

/// What the policies decide for each request, of which each line of the text has one in JSON, over the same entities:
/// a line of JSON each, in their order, as `authorize` answers that request alone. A line that is refused has the
/// reason, and its number. The exit status is 1 where a line is refused, and else 0. How far a long run is, is told on the
/// terminal, if there is one.
pub fn authorize_each(
    alloc: Global,
    policies: Source<'_>,
    asked: &Asked<'_, '_>,
    requests: &str,
    way: Way,
    terminal: Option<Stderr>,
) -> Result<Printed, Refusal>
    ensures answered { IfOk result (AreAuthorized policies.entry.text.now asked.now requests.now way) }
    ensures refused { IfErr result (IsToldFor (AreUnauthorized policies.entry.text.now asked.now)) }
{
    functions_are_computed();
    known_calls_of_policies();
    let extensions = Extensions::all_available();
    let parsed = read_over(alloc, policies, &extensions)?;
    let printed = answer_parsed(
        alloc,
        policies,
        &parsed,
        asked,
        requests,
        way,
        terminal,
        &extensions,
    );
    drop(parsed);
    printed
}

fn answer_parsed(
    alloc: Global,
    source: Source<'_>,
    parsed: &ParsedPolicies,
    asked: &Asked<'_, '_>,
    requests: &str,
    way: Way,
    terminal: Option<Stderr>,
    extensions: &Extensions<'_>,
) -> Result<Printed, Refusal>
    ensures answered { IfOk result (AreAnsweredBy (extensions_view extensions.now) (calls_of extensions.now)
        source.entry.text.now parsed.now.policies asked.now requests.now (in_json way)) }
    ensures refused { IfErr result (IsToldFor
        (IsKnownStoreUnread (extensions_view extensions.now) (calls_of extensions.now) asked.now.entities
        asked.now.max_ancestors)) }
{
    let places = Places::of(alloc, source)?;
    let mut warnings = String::new(alloc);
    push_templates(alloc, &places, &parsed.templates, &mut warnings)?;
    let deciding = Deciding {
        places: &places,
        policies: &parsed.policies,
        way: as_json(way),
    };
    answer_over_given_store(
        alloc, deciding, asked, requests, terminal, extensions, warnings,
    )
}

fn as_json(way: Way) -> Way
    ensures { result ≡ in_json way }
{
    Way {
        error_handling: way.error_handling,
        limit: way.limit,
        is_verbose: way.is_verbose,
        is_json: true,
    }
}

fn answer_over_given_store(
    alloc: Global,
    deciding: Deciding<'_>,
    asked: &Asked<'_, '_>,
    requests: &str,
    terminal: Option<Stderr>,
    extensions: &Extensions<'_>,
    mut warnings: String,
) -> Result<Printed, Refusal>
    ensures answered { IfOk result (AreAnsweredBy (extensions_view extensions.now) (calls_of extensions.now)
        deciding.entry.places.now.source.text.now deciding.entry.policies.now asked.now requests.now
        deciding.entry.way) }
    ensures refused { IfErr result (IsToldFor
        (IsKnownStoreUnread (extensions_view extensions.now) (calls_of extensions.now) asked.now.entities
        asked.now.max_ancestors)) }
{
    let store = known_store(alloc, asked, extensions, &mut warnings)?;
    let batch = Batch {
        deciding,
        entities: &store.entities,
        asked,
        terminal,
    };
    let printed = answer_text(alloc, batch, requests, extensions, warnings);
    drop(store);
    Ok(printed?)
}

// What each request is asked over, and of whom, and where it is told how far that is, if anywhere.
#[derive(Clone, Copy)]
struct Batch<'p, 'm, 't> {
    deciding: Deciding<'p>,
    entities: &'p Entities,
    asked: &'p Asked<'m, 't>,
    terminal: Option<Stderr>,
}

fn answer_text(
    alloc: Global,
    batch: Batch<'_, '_, '_>,
    requests: &str,
    extensions: &Extensions<'_>,
    warnings: String,
) -> Result<Printed, AllocError>
    ensures { IfOk result (AreAnsweredOver (extensions_view extensions.now) (calls_of extensions.now)
        batch.entry.deciding.places.now.source.text.now batch.entry.deciding.policies.now batch.entry.entities.now
        batch.entry.asked.now batch.entry.deciding.way (lines requests.now)) }
{
    let lines = lines_of(alloc, requests)?;
    let printed = answer_lines(alloc, batch, &lines, extensions, warnings);
    end_progress(batch.terminal, lines.len());
    drop(lines);
    printed
}

// The lines of the text, without their ends: an empty one at its end is none.
fn lines_of<'t>(alloc: Global, text: &'t str) -> Result<Vec<&'t str>, AllocError>
    ensures { IfOk result (λ v. map (λ x. x.now) v.items ≡ lines text.now) }
{
    text.lines().collect(alloc)
}

fn answer_lines(
    alloc: Global,
    batch: Batch<'_, '_, '_>,
    lines: &[&str],
    extensions: &Extensions<'_>,
    warnings: String,
) -> Result<Printed, AllocError>
    ensures { IfOk result (AreAnsweredOver (extensions_view extensions.now) (calls_of extensions.now)
        batch.entry.deciding.places.now.source.text.now batch.entry.deciding.policies.now batch.entry.entities.now
        batch.entry.asked.now batch.entry.deciding.way (map (λ x. x.now) lines.now)) }
{
    let mut printed = Printed {
        output: String::new(alloc),
        warnings,
        status: 0,
    };
    'lines: for i in 0..lines.len() {
        let answered = answer_line(alloc, batch, lines[i], i + 1, extensions)?;
        put_answer(answered, &mut printed)?;
        tell_progress(batch.terminal, "requests", i + 1, lines.len());
    }
    Ok(printed)
}

// Puts the line behind the others: the status is 1 from the first refusal on.
fn put_answer(answered: Answered, printed: &mut Printed) -> Result<(), AllocError>
    ensures output { OnOk result (string_bytes printed.new.output
        ≡ string_bytes printed.old.output ++ string_bytes answered.line) }
    ensures status { OnOk result (printed.new.status ≡ cond answered.is_refused 1 printed.old.status) }
{
    if answered.is_refused {
        printed.status = 1;
    }
    printed.output.push_str(answered.line.as_str())
}

// What is answered to the request of the line, which has this number.
fn answer_line(
    alloc: Global,
    batch: Batch<'_, '_, '_>,
    line: &str,
    number: usize,
    extensions: &Extensions<'_>,
) -> Result<Answered, AllocError>
    ensures { IfOk result (λ a. IsLineOver (extensions_view extensions.now) (calls_of extensions.now)
        batch.entry.deciding.places.now.source.text.now batch.entry.deciding.policies.now batch.entry.entities.now
        batch.entry.asked.now batch.entry.deciding.way number line.now (line_of_answer a)) }
{
    let request = Source {
        name: REQUEST_NAME,
        text: line,
    };
    let asked = ask(batch.asked, request);
    let warnings = String::new(alloc);
    match authorize_over_store(
        alloc,
        batch.deciding,
        batch.entities,
        &asked,
        extensions,
        warnings,
    ) {
        Ok(printed) => Ok(decided(printed)),
        Err(refusal) => refused(alloc, refusal, number),
    }
}

// The same question of this request.
fn ask<'m, 't>(asked: &Asked<'m, 't>, request: Source<'t>) -> Asked<'m, 't>
    ensures { result ≡ asking asked.now request.entry }
{
    Asked {
        request: Some(request),
        ..*asked
    }
}

// What is printed of the request alone.
fn decided(printed: Printed) -> Answered
    ensures line { result.line ≡ printed.output }
    ensures decided { result.is_refused ≡ false }
{
    let Printed {
        output,
        warnings,
        status: _,
    } = printed;
    drop(warnings);
    Answered {
        line: output,
        is_refused: false,
    }
}

// Why there is no decision on this line.
fn refused(alloc: Global, refusal: Refusal, number: usize) -> Result<Answered, AllocError>
    ensures told { IfOk result (λ a. IsTold refusal) }
    ensures refused { IfOk result (λ a. a.is_refused ≡ true) }
    ensures line { IfOk result (λ a. IsRefusalLine number (string_bytes a.line)) }
{
    match refusal {
        Refusal::Told(lines) => refused_for(alloc, &lines, number),
        Refusal::Memory => Err(AllocError),
    }
}

fn refused_for(alloc: Global, lines: &str, number: usize) -> Result<Answered, AllocError>
    ensures refused { IfOk result (λ a. a.is_refused ≡ true) }
    ensures line { IfOk result (λ a. IsRefusalLine number (string_bytes a.line)) }
{
    let document = refusal_document(alloc, lines.trim_end(), number)?;
    let line = line_of(alloc, &document);
    drop(document);
    Ok(Answered {
        line: line?,
        is_refused: true,
    })
}

/// Why a line is refused, as JSON: the reason, at `error`, and the number of the line, at `line`.
#[tactic(auto, using(cedar_json_writer::proofs::Trees::trees))]
pub fn refusal_document(alloc: Global, why: &str, line: usize) -> Result<JsonValue, AllocError>
    ensures { IfOk result (λ d. json_view d ≡ refusal_json why.now line) }
{
    let mut members: Vec<(RcStr, JsonValue)> = Vec::new(alloc);
    put_text(alloc, "error", why, &mut members)?;
    put_member(alloc, "line", number(line), &mut members)?;
    Ok(JsonValue::Object(members))
}

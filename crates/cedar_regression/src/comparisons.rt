//! What two sets of policies answer differently.
ghost use Rattle.std.specs.Prelude.{◌≡◌, false, true, map, option_map, IfOk, IfErr, string_bytes};
ghost use Rattle.cedar_log.specs.Reading.{asked_of, IsAsked};
ghost use Rattle.std.specs.Str.Lines.{lines};
ghost use Rattle.cedar_extensions.specs.Extensions.{extensions_view, calls_of};
ghost use Rattle.cedar_expectations.specs.Answers.{answer_view};
ghost use Rattle.cedar_expectations.specs.Compared.{comparison_view, compared, status_of};
ghost use Rattle.cedar_cli.specs.Batch.{asking, IsTold, IsRefusalLine};
ghost use Rattle.cedar_cli.specs.Reasons.{IsToldFor, IsKnownStoreUnread};
ghost use Rattle.cedar_regression.specs.Compared.{AreCompared, AreUncompared, AreComparedBy, AreComparedOver};
ghost use Rattle.cedar_regression.specs.Compared.{asked_lines, AreLinesOver, IsLineOver};

use crate::answers::{Both, both_answers};
use cedar_cli::{
    Asked, Printed, Refusal, Source, Way, known_store, line_of, read_over, refusal_document,
    tell_templates,
};
use cedar_expectations::{Comparison, Comparisons, compare};
use cedar_log::logged_request;
use cedar_policy_core::ast::PolicySet;
use cedar_policy_core::entities::Entities;
use cedar_policy_core::extensions::Extensions;
use cedar_policy_core::extensions::laws::functions_are_computed;
use cedar_policy_core::parser::ParsedPolicies;
use cedar_policy_core::parser::laws::known_calls_of_policies;
use cedar_progress::{end_progress, tell_progress};
use std::alloc::{AllocError, Global};
use std::io::Stderr;

// What a request is called whose line is refused.
const REQUEST_NAME: &str = "the request";

/// What the old and the new policies answer differently to requests over the same entities, of which each line of the
/// text has one in JSON, or is a line of a log, whose request is asked: in their order a line of JSON for each request to
/// which the decisions differ, or a reason or an error of one answer is none of the other; and for each that is refused a
/// line with the reason, and its number. The exit status is 1 where a line is refused, else 2 where anything differs, and
/// else 0. How far a long run is, is told on the terminal, if there is one. Templates, which decide nothing, are told as
/// warnings. Refused where policies or entities can't be read.
pub fn compare_policies(
    alloc: Global,
    old: Source<'_>,
    new: Source<'_>,
    asked: &Asked<'_, '_>,
    requests: &str,
    way: Way,
    terminal: Option<Stderr>,
) -> Result<Printed, Refusal>
    ensures compared { IfOk result
        (AreCompared old.entry.text.now new.entry.text.now asked.now requests.now way) }
    ensures refused { IfErr result (IsToldFor
        (AreUncompared old.entry.text.now new.entry.text.now asked.now)) }
{
    functions_are_computed();
    known_calls_of_policies();
    let extensions = Extensions::all_available();
    let old_parsed = read_over(alloc, old, &extensions)?;
    let new_parsed = read_over(alloc, new, &extensions)?;
    let warnings = template_warnings(alloc, old, &old_parsed, new, &new_parsed);
    let printed = compare_read(
        alloc,
        &old_parsed.policies,
        &new_parsed.policies,
        asked,
        requests,
        way,
        terminal,
        &extensions,
        warnings,
    );
    drop((old_parsed, new_parsed));
    printed
}

// The templates of both texts are told.
fn template_warnings(
    alloc: Global,
    old: Source<'_>,
    old_parsed: &ParsedPolicies,
    new: Source<'_>,
    new_parsed: &ParsedPolicies,
) -> Result<String, AllocError> {
    let mut warnings = String::new(alloc);
    tell_templates(alloc, old, &old_parsed.templates, &mut warnings)?;
    tell_templates(alloc, new, &new_parsed.templates, &mut warnings)?;
    Ok(warnings)
}

fn compare_read(
    alloc: Global,
    old: &PolicySet,
    new: &PolicySet,
    asked: &Asked<'_, '_>,
    requests: &str,
    way: Way,
    terminal: Option<Stderr>,
    extensions: &Extensions<'_>,
    warnings: Result<String, AllocError>,
) -> Result<Printed, Refusal>
    ensures compared { IfOk result (AreComparedBy (extensions_view extensions.now) (calls_of extensions.now)
        old.now new.now asked.now requests.now way) }
    ensures refused { IfErr result (IsToldFor
        (IsKnownStoreUnread (extensions_view extensions.now) (calls_of extensions.now) asked.now.entities
        asked.now.max_ancestors)) }
{
    let mut warnings = warnings?;
    let store = known_store(alloc, asked, extensions, &mut warnings)?;
    let printed = compare_text(
        alloc,
        old,
        new,
        &store.entities,
        way,
        asked,
        requests,
        terminal,
        extensions,
        warnings,
    );
    drop(store);
    Ok(printed?)
}

fn compare_text(
    alloc: Global,
    old: &PolicySet,
    new: &PolicySet,
    entities: &Entities,
    way: Way,
    asked: &Asked<'_, '_>,
    requests: &str,
    terminal: Option<Stderr>,
    extensions: &Extensions<'_>,
    warnings: String,
) -> Result<Printed, AllocError>
    ensures { IfOk result (AreComparedOver (extensions_view extensions.now) (calls_of extensions.now)
        old.now new.now entities.now asked.now
        way (asked_lines requests.now)) }
{
    let lines = lines_of(alloc, requests)?;
    let compared = compare_lines(
        alloc, old, new, entities, way, asked, &lines, terminal, extensions,
    );
    end_progress(terminal, lines.len());
    drop(lines);
    let all = compared?;
    Ok(print_all(all, warnings))
}

// The lines of the text, without their ends: an empty one at its end is none.
fn lines_of<'t>(alloc: Global, text: &'t str) -> Result<Vec<&'t str>, AllocError>
    ensures { IfOk result (λ v. map (λ x. x.now) v.items ≡ lines text.now) }
{
    text.lines().collect(alloc)
}

fn print_all(all: Comparisons, warnings: String) -> Printed
    ensures output { result.output ≡ all.output }
    ensures status { result.status ≡ status_of all.is_any_refused all.is_any_different }
{
    let status = all.status();
    Printed {
        output: all.output,
        warnings,
        status,
    }
}

fn compare_lines(
    alloc: Global,
    old: &PolicySet,
    new: &PolicySet,
    entities: &Entities,
    way: Way,
    asked: &Asked<'_, '_>,
    lines: &[&str],
    terminal: Option<Stderr>,
    extensions: &Extensions<'_>,
) -> Result<Comparisons, AllocError>
    ensures { IfOk result (AreLinesOver (extensions_view extensions.now) (calls_of extensions.now)
        old.now new.now entities.now asked.now
        way (map (λ x. asked_of x.now) lines.now)) }
{
    let mut all = Comparisons::none(alloc);
    'lines: for i in 0..lines.len() {
        let one = compare_line(
            alloc,
            old,
            new,
            entities,
            way,
            asked,
            lines[i],
            i + 1,
            extensions,
        )?;
        all.put(one)?;
        tell_progress(terminal, "requests", i + 1, lines.len());
    }
    Ok(all)
}

// What is printed of the request of the line, which has this number.
fn compare_line(
    alloc: Global,
    old: &PolicySet,
    new: &PolicySet,
    entities: &Entities,
    way: Way,
    asked: &Asked<'_, '_>,
    line: &str,
    number: usize,
    extensions: &Extensions<'_>,
) -> Result<Comparison, AllocError>
    ensures { IfOk result (λ c. IsLineOver (extensions_view extensions.now) (calls_of extensions.now)
        old.now new.now entities.now asked.now
        way number (asked_of line.now) (comparison_view c)) }
{
    let logged = logged_request(alloc, line)?;
    let one = compare_request(
        alloc,
        old,
        new,
        entities,
        way,
        asked,
        text_or(&logged, line),
        number,
        extensions,
    );
    drop(logged);
    one
}

// What is asked: the request of the line of a log, or else the line itself.
fn text_or<'t>(logged: &'t Option<String>, line: &'t str) -> &'t str
    requires { IsAsked line.now (option_map string_bytes logged.now) }
    ensures { result.now ≡ asked_of line.now }
{
    match logged {
        Some(text) => text.as_str(),
        None => line,
    }
}

// What is printed of the request, whose line has this number.
fn compare_request(
    alloc: Global,
    old: &PolicySet,
    new: &PolicySet,
    entities: &Entities,
    way: Way,
    asked: &Asked<'_, '_>,
    request: &str,
    number: usize,
    extensions: &Extensions<'_>,
) -> Result<Comparison, AllocError>
    ensures { IfOk result (λ c. IsLineOver (extensions_view extensions.now) (calls_of extensions.now)
        old.now new.now entities.now asked.now
        way number request.now (comparison_view c)) }
{
    let request = Source {
        name: REQUEST_NAME,
        text: request,
    };
    let asked_of_line = ask(asked, request);
    match both_answers(alloc, old, new, entities, way, &asked_of_line, extensions) {
        Ok(both) => compare_both(alloc, both, number),
        Err(refusal) => refused(alloc, refusal, number),
    }
}

// The same question of this request.
fn ask<'m, 't>(asked: &Asked<'m, 't>, request: Source<'t>) -> Asked<'m, 't>
    ensures { result ≡ asking asked.now request.entry }
{
    Asked {
        request: Some(request),
        ..*asked
    }
}

// What differs between the answers.
fn compare_both(alloc: Global, both: Both, number: usize) -> Result<Comparison, AllocError>
    ensures { IfOk result
        (λ c. comparison_view c ≡ compared number (answer_view both.old) (answer_view both.new)) }
{
    let one = compare(alloc, number, &both.old, &both.new);
    drop(both);
    one
}

// Why there are no answers to the request of this line.
fn refused(alloc: Global, refusal: Refusal, number: usize) -> Result<Comparison, AllocError>
    ensures told { IfOk result (λ c. IsTold refusal) }
    ensures refused { IfOk result (λ c. c.is_refused ≡ true) }
    ensures same { IfOk result (λ c. c.is_different ≡ false) }
    ensures line { IfOk result (λ c. IsRefusalLine number (string_bytes c.line)) }
{
    match refusal {
        Refusal::Told(lines) => refused_for(alloc, &lines, number),
        Refusal::Memory => Err(AllocError),
    }
}

fn refused_for(alloc: Global, lines: &str, number: usize) -> Result<Comparison, AllocError>
    ensures refused { IfOk result (λ c. c.is_refused ≡ true) }
    ensures same { IfOk result (λ c. c.is_different ≡ false) }
    ensures line { IfOk result (λ c. IsRefusalLine number (string_bytes c.line)) }
{
    let document = refusal_document(alloc, lines.trim_end(), number)?;
    let line = line_of(alloc, &document);
    drop(document);
    Ok(Comparison {
        line: line?,
        is_refused: true,
        is_different: false,
    })
}

//! Runs a command.
use crate::commands::cedar;
use crate::files::Texts;
use crate::links::link;
use crate::relays::{is_relayed, relay};
use cedar_cli::{
    Asked, ErrorHandling, Printed, Refusal, Source, Step, Way, authorize, authorize_and_explain,
    authorize_each, check_format, check_policies, check_strictly, evaluate_expression,
    format_policies, partially_authorize, translate_to_json,
};
use cedar_cli_explain::authorize_and_explain_as_json;
use cedar_cli_sql::plan_as_sql;
use cedar_cli_tests::run_tests;
use cedar_policy_core::ast::{Extension, ExtensionFunction, Name};
use cedar_policy_core::extensions::Extensions;
use cedar_regression::compare_policies;
use clap::error::ErrorKind;
use clap::{ArgMatches, Error};
use std::alloc::Global;
use std::io::Stderr;
use std::rc::RcStr;
use std::rt::Files;

/// What a command comes to.
#[derive(Debug, Drop)]
pub enum Answer {
    /// This is to be printed, this to be told on standard error beside it, and the exit status is this.
    Printed(Printed),
    /// Nothing is to be printed but these lines, on standard error. The exit status is 1.
    Refused(String),
    /// Out of memory. The exit status is 3.
    OutOfMemory,
}

/// What the command comes to that these words write, the first of which is the program's name. How far a long run is, is told
/// on the terminal, if there is one.
pub fn answer_command<R: Files + Input + AllocGlobal>(
    rt: &R,
    words: &[String],
    terminal: Option<Stderr>,
) -> Answer {
    match parse_and_run(rt, words, terminal) {
        Ok(printed) => Answer::Printed(printed),
        Err(Refusal::Told(lines)) => Answer::Refused(lines),
        Err(Refusal::Memory) => Answer::OutOfMemory,
    }
}

fn parse_and_run<R: Files + Input + AllocGlobal>(
    rt: &R,
    words: &[String],
    terminal: Option<Stderr>,
) -> Result<Printed, Refusal> {
    let command = cedar(rt.alloc())?;
    match command.try_get_matches_from(words) {
        Ok(matches) => dispatch_command(rt, &matches, terminal),
        Err(error) => help_or_refusal(rt.alloc(), &error),
    }
}

// Help is printed; a mistake in the words is refused.
#[cold]
fn help_or_refusal(alloc: Global, error: &Error) -> Result<Printed, Refusal> {
    if error.kind() == ErrorKind::OutOfMemory {
        return Err(Refusal::Memory);
    }
    let text = format!(in alloc; "{error}")?;
    if error.use_stderr() {
        Err(Refusal::Told(text))
    } else {
        Ok(printed_alone(alloc, text))
    }
}

fn dispatch_command<R: Files + Input + AllocGlobal>(
    rt: &R,
    matches: &ArgMatches<'_>,
    terminal: Option<Stderr>,
) -> Result<Printed, Refusal> {
    match matches.subcommand() {
        Some((name, matches)) => run(rt, name, matches, terminal),
        None => Ok(nothing(rt.alloc())),
    }
}

// Nothing is printed.
fn nothing(alloc: Global) -> Printed {
    printed_alone(alloc, String::new(alloc))
}

// This is printed, and nothing told beside it.
fn printed_alone(alloc: Global, output: String) -> Printed {
    Printed {
        output,
        warnings: String::new(alloc),
        status: 0,
    }
}

fn run<R: Files + Input + AllocGlobal>(
    rt: &R,
    name: &str,
    matches: &ArgMatches<'_>,
    terminal: Option<Stderr>,
) -> Result<Printed, Refusal> {
    if name == "link" {
        return link(rt, matches);
    }
    if is_relayed(name, matches) {
        return relay(rt, matches);
    }
    let texts = Texts::read(rt, matches)?;
    let printed = run_with(rt.alloc(), name, matches, &texts, terminal);
    drop(texts);
    printed
}

fn run_with(
    alloc: Global,
    name: &str,
    matches: &ArgMatches<'_>,
    texts: &Texts,
    terminal: Option<Stderr>,
) -> Result<Printed, Refusal> {
    let policies = texts.policies();
    let asked = read_question(matches, texts);
    match name {
        "diff" => compare(alloc, &asked, matches, texts, terminal),
        "run-tests" => run_tests(
            alloc,
            policies,
            &asked,
            texts.tests(),
            way(matches),
            terminal,
        ),
        "authorize" => decide(alloc, &asked, matches, texts, terminal),
        "partially-authorize" => match texts.columns() {
            Some(columns) => plan_with_unknown(alloc, policies, &asked, columns, matches),
            None => partial(alloc, &asked, matches, texts),
        },
        "evaluate" => {
            let is_json = matches.get_flag("json");
            evaluate_expression(alloc, expression(matches), &asked, limit(matches), is_json)
        }
        "check-parse" => check(alloc, policies, matches),
        "translate-policy" => translate(alloc, policies, matches),
        _ => format(alloc, policies, matches.get_flag("check")),
    }
}

fn compare(
    alloc: Global,
    asked: &Asked<'_, '_>,
    matches: &ArgMatches<'_>,
    texts: &Texts,
    terminal: Option<Stderr>,
) -> Result<Printed, Refusal> {
    let requests = texts.requests().unwrap_or("");
    compare_policies(
        alloc,
        texts.policies(),
        texts.new_policies(),
        asked,
        requests,
        way(matches),
        terminal,
    )
}

// With `--requests` many, with `--explain` also why.
fn decide(
    alloc: Global,
    asked: &Asked<'_, '_>,
    matches: &ArgMatches<'_>,
    texts: &Texts,
    terminal: Option<Stderr>,
) -> Result<Printed, Refusal> {
    let policies = texts.policies();
    let way = way(matches);
    if let Some(requests) = texts.requests() {
        return authorize_each(alloc, policies, asked, requests, way, terminal);
    }
    if matches.get_flag("explain") {
        explain(alloc, policies, asked, way, !matches.get_flag("no-values"))
    } else {
        authorize(alloc, policies, asked, way)
    }
}

// With `--json` as one value.
fn explain(
    alloc: Global,
    policies: Source<'_>,
    asked: &Asked<'_, '_>,
    way: Way,
    has_values: bool,
) -> Result<Printed, Refusal> {
    if way.is_json {
        authorize_and_explain_as_json(alloc, policies, asked, way, has_values)
    } else {
        authorize_and_explain(alloc, policies, asked, way, has_values)
    }
}

// With `--strict` the policies are told that apply in no world.
fn check(
    alloc: Global,
    policies: Source<'_>,
    matches: &ArgMatches<'_>,
) -> Result<Printed, Refusal> {
    let has_unknowns = matches.get_flag("unknowns");
    if matches.get_flag("strict") {
        check_strictly(
            alloc,
            policies,
            has_unknowns,
            matches.get_flag("deny-warnings"),
        )
    } else {
        check_policies(alloc, policies, has_unknowns)?;
        Ok(nothing(alloc))
    }
}

// Of policies in JSON the text is there already.
fn translate(
    alloc: Global,
    policies: Source<'_>,
    matches: &ArgMatches<'_>,
) -> Result<Printed, Refusal> {
    if matches.get_str("direction") == Some("json-to-cedar") {
        check_policies(alloc, policies, true)?;
        Ok(printed_alone(alloc, String::from_str(alloc, policies.text)?))
    } else {
        Ok(printed_alone(alloc, translate_to_json(alloc, policies)?))
    }
}

// With `--check` nothing is printed.
fn format(alloc: Global, policies: Source<'_>, is_check: bool) -> Result<Printed, Refusal> {
    if is_check {
        check_format(alloc, policies)?;
        return Ok(nothing(alloc));
    }
    Ok(printed_alone(alloc, format_policies(alloc, policies)?))
}

fn partial(
    alloc: Global,
    asked: &Asked<'_, '_>,
    matches: &ArgMatches<'_>,
    texts: &Texts,
) -> Result<Printed, Refusal> {
    let steps = texts.steps(
        alloc,
        matches.get_flag("partial-step"),
        max_ancestors(matches),
    )?;
    let printed = with_unknown(alloc, texts.policies(), asked, &steps, way(matches));
    drop(steps);
    printed
}

// The functions are the standard ones and `unknown`.
fn with_unknown(
    alloc: Global,
    policies: Source<'_>,
    asked: &Asked<'_, '_>,
    steps: &[Step<'_>],
    way: Way,
) -> Result<Printed, Refusal> {
    let name = Name::new(RcStr::from_str(alloc, "partial_evaluation")?, None);
    let functions = vec![in alloc; ExtensionFunction::unknown(alloc)?]?;
    let all = vec![in alloc; Extension::new(name, functions, Vec::new(alloc))]?;
    match Extensions::with_standard(alloc, all.as_slice()) {
        Ok(extensions) => partially_authorize(alloc, &extensions, policies, asked, steps, way),
        Err(_) => Err(Refusal::Memory),
    }
}

fn plan_with_unknown(
    alloc: Global,
    policies: Source<'_>,
    asked: &Asked<'_, '_>,
    columns: Source<'_>,
    matches: &ArgMatches<'_>,
) -> Result<Printed, Refusal> {
    let (way, is_candidates) = (way(matches), matches.get_flag("candidates"));
    let name = Name::new(RcStr::from_str(alloc, "partial_evaluation")?, None);
    let functions = vec![in alloc; ExtensionFunction::unknown(alloc)?]?;
    let all = vec![in alloc; Extension::new(name, functions, Vec::new(alloc))]?;
    match Extensions::with_standard(alloc, all.as_slice()) {
        Ok(extensions) => plan_as_sql(
            alloc,
            &extensions,
            policies,
            asked,
            columns,
            way,
            is_candidates,
        ),
        Err(_) => Err(Refusal::Memory),
    }
}

/// What the arguments say of the request and of the entities.
pub(crate) fn read_question<'m, 't>(matches: &ArgMatches<'m>, texts: &'t Texts) -> Asked<'m, 't> {
    Asked {
        principal: matches.get_str("principal"),
        principal_type: matches.get_str("principal-type"),
        action: matches.get_str("action"),
        resource: matches.get_str("resource"),
        resource_type: matches.get_str("resource-type"),
        context: texts.context(),
        request: texts.request(),
        entities: texts.entities(),
        is_partial: matches.get_flag("partial"),
        max_ancestors: max_ancestors(matches),
    }
}

/// In which way it is answered.
pub(crate) fn way(matches: &ArgMatches<'_>) -> Way {
    Way {
        error_handling: error_handling(matches.get_str("error-handling")),
        limit: limit(matches),
        is_verbose: matches.get_flag("verbose"),
        is_json: matches.get_flag("json"),
    }
}

fn error_handling(word: Option<&str>) -> ErrorHandling {
    match word {
        Some("forbid") => ErrorHandling::ForbidOnError,
        _ => ErrorHandling::Skip,
    }
}

fn limit(matches: &ArgMatches<'_>) -> Option<usize> {
    matches.get_one::<usize>("limit")
}

/// How many ancestors the entities have in all at most.
pub(crate) fn max_ancestors(matches: &ArgMatches<'_>) -> Option<usize> {
    matches.get_one::<usize>("max-ancestors")
}

fn expression<'a>(matches: &ArgMatches<'a>) -> Source<'a> {
    Source {
        name: "the expression",
        text: matches.get_str("expression").unwrap_or(""),
    }
}

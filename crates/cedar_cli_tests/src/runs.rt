//! Tests of policies, one after another.
ghost use Rattle.std.specs.Prelude.{◌≡◌, None, map, IfOk, IfErr};
ghost use Rattle.json.specs.Tree.{HasNumbers};
ghost use Rattle.json.specs.Value.{value_view};
ghost use Rattle.cedar_extensions.specs.Extensions.{extensions_view, calls_of};
ghost use Rattle.cedar_policy_tests.specs.Said as specs;
ghost use Rattle.cedar_policy_tests.specs.Texts.{IsUnread};
ghost use Rattle.cedar_policy_tests.specs.Views.{test_view, tests_view};
ghost use Rattle.cedar_policy_tests.specs.Written.{AreWritable};
ghost use Rattle.cedar_cli.specs.Questions.{IsKnownStore};
ghost use Rattle.cedar_cli.specs.Reasons.{IsToldFor};
ghost use Rattle.cedar_cli_tests.specs.Tested.{IsTested, AreUntested, AreNoTests};
ghost use Rattle.cedar_cli_tests.specs.Results.{AreResults, AreTestedBy, AreReadTestedBy, IsTextTestedBy};
ghost use Rattle.cedar_cli_tests.specs.Results.{IsUntestedBy};

use crate::answers::Tested;
use crate::one::run_test;
use crate::results::Results;
use cedar_cli::{
    Asked, Printed, Refusal, Source, Way, known_store, read_over, refuse_with_line, tell_templates,
    unread_json,
};
use cedar_policy_core::ast::PolicySet;
use cedar_policy_core::entities::Entities;
use cedar_policy_core::entities::json::JsonError;
use cedar_policy_core::extensions::Extensions;
use cedar_policy_core::extensions::laws::functions_are_computed;
use cedar_policy_core::parser::ParsedPolicies;
use cedar_policy_core::parser::laws::known_calls_of_policies;
use cedar_policy_tests::{PolicyTest, TestsError, fault_in, parse_tests, tests_in};
use cedar_progress::{end_progress, tell_progress};
use json::{Scratch, Value};
use std::alloc::{AllocError, Global};
use std::io::Stderr;

/// The tests, an array in JSON, that the policies fail: in their order a line of JSON for each to which they answer
/// otherwise than it expects, with what differs, or that can't be asked, with the reason; and behind them one of how
/// many pass and fail. A test is asked over its own entities, or over those that are given. The exit status is 1 where a
/// test fails, and else 0. How far a long run is, is told on the terminal, if there is one. Templates, which decide
/// nothing, are told as warnings. Refused where policies or entities can't be read, and where the text is no array of
/// tests.
pub fn run_tests(
    alloc: Global,
    policies: Source<'_>,
    asked: &Asked<'_, '_>,
    tests: Source<'_>,
    way: Way,
    terminal: Option<Stderr>,
) -> Result<Printed, Refusal>
    ensures tested { IfOk result (IsTested policies.entry.text.now asked.now tests.entry.text.now way) }
    ensures refused { IfErr result (IsToldFor
        (AreUntested policies.entry.text.now asked.now tests.entry.text.now)) }
{
    functions_are_computed();
    known_calls_of_policies();
    let extensions = Extensions::all_available();
    let parsed = read_over(alloc, policies, &extensions)?;
    let warnings = template_warnings(alloc, policies, &parsed);
    let tested = Tested {
        policies: &parsed.policies,
        way,
        terminal,
    };
    let printed = run_read(alloc, tested, asked, tests, &extensions, warnings);
    drop(parsed);
    printed
}

fn template_warnings(
    alloc: Global,
    policies: Source<'_>,
    parsed: &ParsedPolicies,
) -> Result<String, AllocError> {
    let mut warnings = String::new(alloc);
    tell_templates(alloc, policies, &parsed.templates, &mut warnings)?;
    Ok(warnings)
}

fn run_read(
    alloc: Global,
    tested: Tested<'_>,
    asked: &Asked<'_, '_>,
    tests: Source<'_>,
    extensions: &Extensions<'_>,
    warnings: Result<String, AllocError>,
) -> Result<Printed, Refusal>
    ensures tested { IfOk result (IsTextTestedBy (extensions_view extensions.now) (calls_of extensions.now)
        tested.entry.policies.now tested.entry.way asked.now tests.entry.text.now) }
    ensures refused { IfErr result (IsToldFor (IsUntestedBy (extensions_view extensions.now)
        (calls_of extensions.now) asked.now tests.entry.text.now)) }
{
    let mut warnings = warnings?;
    let store = known_store(alloc, asked, extensions, &mut warnings)?;
    let printed = run_text(
        alloc,
        tested,
        &store.entities,
        asked,
        tests,
        extensions,
        warnings,
    );
    drop(store);
    printed
}

fn run_text(
    alloc: Global,
    tested: Tested<'_>,
    store: &Entities,
    asked: &Asked<'_, '_>,
    tests: Source<'_>,
    extensions: &Extensions<'_>,
    warnings: String,
) -> Result<Printed, Refusal>
    requires { IsKnownStore (extensions_view extensions.now) (calls_of extensions.now) asked.now store.now }
    ensures tested { IfOk result (IsTextTestedBy (extensions_view extensions.now) (calls_of extensions.now)
        tested.entry.policies.now tested.entry.way asked.now tests.entry.text.now) }
    ensures refused { IfErr result (IsToldFor (AreNoTests tests.entry.text.now)) }
{
    let mut scratch = Scratch::new(alloc);
    match parse_tests(alloc, tests.text, &mut scratch) {
        Ok(value) => run_value(
            alloc, tested, store, asked, tests, &value, extensions, warnings,
        ),
        Err(error) => Err(unread(alloc, tests, error)),
    }
}

#[cold]
fn unread(alloc: Global, tests: Source<'_>, error: TestsError) -> Refusal
    requires { IsUnread tests.text.now error }
    ensures { IsToldFor (AreNoTests tests.entry.text.now) result }
{
    match error {
        TestsError::Syntax => unread_json(alloc, tests, JsonError::Syntax),
        TestsError::DuplicateKey => unread_json(alloc, tests, JsonError::DuplicateKey),
        TestsError::Memory => Refusal::Memory,
    }
}

fn run_value(
    alloc: Global,
    tested: Tested<'_>,
    store: &Entities,
    asked: &Asked<'_, '_>,
    tests: Source<'_>,
    value: &Value<'_>,
    extensions: &Extensions<'_>,
    warnings: String,
) -> Result<Printed, Refusal>
    requires given { IsKnownStore (extensions_view extensions.now) (calls_of extensions.now) asked.now store.now }
    requires writable { HasNumbers (value_view value.now) }
    ensures tested { IfOk result (AreReadTestedBy (extensions_view extensions.now) (calls_of extensions.now)
        tested.entry.policies.now tested.entry.way asked.now (value_view value.now)) }
    ensures refused { IfErr result (IsToldFor (specs.tests_in (value_view value.now) ≡ None)) }
{
    let read = tests_in(alloc, value)?;
    match read {
        Some(all) => run_all(alloc, tested, store, asked, all, extensions, warnings),
        None => Err(no_tests(alloc, tests, value)),
    }
}

#[cold]
fn no_tests(alloc: Global, tests: Source<'_>, value: &Value<'_>) -> Refusal {
    refuse_with_line(alloc, fault_line(alloc, tests.name, value))
}

fn fault_line(alloc: Global, name: &str, value: &Value<'_>) -> Result<String, AllocError> {
    let fault = fault_in(alloc, value)?;
    let line = format!(in alloc; "{name}: {fault}");
    drop(fault);
    line
}

fn run_all(
    alloc: Global,
    tested: Tested<'_>,
    store: &Entities,
    asked: &Asked<'_, '_>,
    tests: Vec<PolicyTest<'_, '_>>,
    extensions: &Extensions<'_>,
    warnings: String,
) -> Result<Printed, Refusal>
    requires given { IsKnownStore (extensions_view extensions.now) (calls_of extensions.now) asked.now store.now }
    requires writable { AreWritable (tests_view tests) }
    ensures tested { IfOk result (AreTestedBy (extensions_view extensions.now) (calls_of extensions.now)
        tested.entry.policies.now tested.entry.way asked.now (tests_view tests.entry)) }
    ensures refused { IfErr result (IsToldFor ⊥) }
{
    let results = run_each(alloc, tested, store, asked, &tests, extensions);
    end_progress(tested.terminal, tests.len());
    drop(tests);
    let all = results?;
    let printed = all.print(alloc, warnings)?;
    Ok(printed)
}

fn run_each(
    alloc: Global,
    tested: Tested<'_>,
    store: &Entities,
    asked: &Asked<'_, '_>,
    tests: &[PolicyTest<'_, '_>],
    extensions: &Extensions<'_>,
) -> Result<Results, AllocError>
    requires given { IsKnownStore (extensions_view extensions.now) (calls_of extensions.now) asked.now store.now }
    requires writable { AreWritable (map test_view tests.now) }
    ensures { IfOk result (AreResults (extensions_view extensions.now) (calls_of extensions.now)
        tested.entry.policies.now tested.entry.way asked.now (map test_view tests.now)) }
{
    let mut results = Results::none(alloc);
    'tests: for i in 0..tests.len() {
        let one = run_test(alloc, tested, store, asked, tests[i], i + 1, extensions)?;
        results.put(one)?;
        tell_progress(tested.terminal, "tests", i + 1, tests.len());
    }
    Ok(results)
}

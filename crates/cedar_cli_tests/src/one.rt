//! One test.
ghost use Rattle.std.specs.Prelude.{◌≡◌, IfOk, option_map, string_bytes};
ghost use Rattle.cedar_extensions.specs.Extensions.{extensions_view, calls_of};
ghost use Rattle.cedar_expectations.specs.Answers.{answer_view};
ghost use Rattle.cedar_policy_tests.specs.Failures.{failure};
ghost use Rattle.cedar_policy_tests.specs.Views.{test_view};
ghost use Rattle.cedar_policy_tests.specs.Written.{IsWritable};
ghost use Rattle.cedar_cli.specs.Batch.{IsTold};
ghost use Rattle.cedar_cli.specs.Questions.{IsKnownStore};
ghost use Rattle.cedar_cli_tests.specs.Tested.{verdict_of};
ghost use Rattle.cedar_cli_tests.specs.Results.{verdict_view, IsVerdictBy, IsRefusalTold};
ghost use Rattle.cedar_cli_tests.specs.Texts.{AreTexts};

use crate::answers::{Tested, answer_to};
use crate::results::{Verdict, failed_with, verdict_of};
use crate::texts::{TestTexts, texts_of};
use cedar_cli::{Asked, Refusal, Source};
use cedar_expectations::Answer;
use cedar_policy_core::entities::Entities;
use cedar_policy_core::extensions::Extensions;
use cedar_policy_tests::{PolicyTest, failure_to_json, refusal_to_json};
use std::alloc::{AllocError, Global};

// What the requests and the entities of tests are called.
const REQUEST_NAME: &str = "the request";

const ENTITIES_NAME: &str = "the entities";

/// What is printed of the test, which has this number: it is asked over its own entities, or over the store that is given.
pub(crate) fn run_test(
    alloc: Global,
    tested: Tested<'_>,
    store: &Entities,
    asked: &Asked<'_, '_>,
    test: PolicyTest<'_, '_>,
    number: usize,
    extensions: &Extensions<'_>,
) -> Result<Verdict, AllocError>
    requires given { IsKnownStore (extensions_view extensions.now) (calls_of extensions.now) asked.now store.now }
    requires writable { IsWritable (test_view test) }
    ensures { IfOk result (λ v. IsVerdictBy (extensions_view extensions.now) (calls_of extensions.now)
        tested.entry.policies.now tested.entry.way asked.now number (test_view test.entry) (verdict_view v)) }
{
    let texts = texts_of(alloc, test)?;
    let verdict = run_texts(
        alloc, tested, store, asked, test, &texts, number, extensions,
    );
    drop(texts);
    verdict
}

fn run_texts(
    alloc: Global,
    tested: Tested<'_>,
    store: &Entities,
    asked: &Asked<'_, '_>,
    test: PolicyTest<'_, '_>,
    texts: &TestTexts,
    number: usize,
    extensions: &Extensions<'_>,
) -> Result<Verdict, AllocError>
    requires given { IsKnownStore (extensions_view extensions.now) (calls_of extensions.now) asked.now store.now }
    requires texts { AreTexts (test_view test) texts.now }
    ensures { IfOk result (λ v. IsVerdictBy (extensions_view extensions.now) (calls_of extensions.now)
        tested.entry.policies.now tested.entry.way asked.now number (test_view test.entry) (verdict_view v)) }
{
    let request = source_of(REQUEST_NAME, &texts.request);
    let entities = source_if(ENTITIES_NAME, &texts.entities);
    match answer_to(alloc, tested, store, asked, request, entities, extensions) {
        Ok(found) => judge(alloc, test, found, number),
        Err(refusal) => refuse(alloc, test, refusal, number),
    }
}

fn source_of<'t>(name: &'t str, text: &'t String) -> Source<'t>
    ensures { result.text.now ≡ string_bytes text.now }
{
    Source {
        name,
        text: text.as_str(),
    }
}

fn source_if<'t>(name: &'t str, text: &'t Option<String>) -> Option<Source<'t>>
    ensures { option_map (λ s. s.text.now) result ≡ option_map string_bytes text.now }
{
    match text {
        Some(text) => Some(source_of(name, text)),
        None => None,
    }
}

// What the test fails in, where this is found.
fn judge(
    alloc: Global,
    test: PolicyTest<'_, '_>,
    found: Answer,
    number: usize,
) -> Result<Verdict, AllocError>
    ensures { IfOk result
        (λ v. verdict_view v ≡ verdict_of (failure number (test_view test.entry) (answer_view found))) }
{
    let verdict = judge_found(alloc, test, &found, number);
    drop(found);
    verdict
}

fn judge_found(
    alloc: Global,
    test: PolicyTest<'_, '_>,
    found: &Answer,
    number: usize,
) -> Result<Verdict, AllocError>
    ensures { IfOk result
        (λ v. verdict_view v ≡ verdict_of (failure number (test_view test.entry) (answer_view found.now))) }
{
    let told = failure_to_json(alloc, number, test, found)?;
    let verdict = verdict_of(alloc, told)?;
    Ok(verdict)
}

// Why the test can't be asked.
fn refuse(
    alloc: Global,
    test: PolicyTest<'_, '_>,
    refusal: Refusal,
    number: usize,
) -> Result<Verdict, AllocError>
    ensures told { IfOk result (λ v. IsTold refusal) }
    ensures verdict { IfOk result (λ v. IsRefusalTold number (test_view test.entry).name (verdict_view v)) }
{
    match refusal {
        Refusal::Told(lines) => refuse_for(alloc, test.name, &lines, number),
        Refusal::Memory => Err(AllocError),
    }
}

fn refuse_for(alloc: Global, name: &str, lines: &str, number: usize) -> Result<Verdict, AllocError>
    ensures { IfOk result (λ v. IsRefusalTold number name.now (verdict_view v)) }
{
    let told = refusal_to_json(alloc, number, name, lines.trim_end())?;
    let verdict = failed_with(alloc, told)?;
    Ok(verdict)
}

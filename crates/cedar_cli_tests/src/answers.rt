//! What is answered to the request of a test.
ghost use Rattle.std.specs.Prelude.{◌≡◌, IfOk, IfErr};
ghost use Rattle.cedar_extensions.specs.Extensions.{extensions_view, calls_of};
ghost use Rattle.cedar_expectations.specs.Answers.{answer_view};
ghost use Rattle.cedar_cli.specs.Batch.{asking};
ghost use Rattle.cedar_cli.specs.Questions.{IsKnownStore};
ghost use Rattle.cedar_cli.specs.Reasons.{IsToldFor, IsAskedUnread, IsRequestUnread};
ghost use Rattle.cedar_regression.specs.Answered.{IsAnswerOver};
ghost use Rattle.cedar_cli_tests.specs.Tested.{over, question, IsUnread};
ghost use Rattle.cedar_cli_tests.specs.Results.{IsAnsweredBy};

use cedar_cli::{Asked, Refusal, Source, Way, known_store};
use cedar_expectations::Answer;
use cedar_policy_core::ast::PolicySet;
use cedar_policy_core::entities::Entities;
use cedar_policy_core::extensions::Extensions;
use cedar_regression::answer_of;
use std::alloc::Global;
use std::io::Stderr;

/// The policies that are tested, in which way they are asked, and where it is told how far that is, if anywhere.
#[derive(Clone, Copy)]
pub(crate) struct Tested<'p> {
    pub(crate) policies: &'p PolicySet,
    pub(crate) way: Way,
    pub(crate) terminal: Option<Stderr>,
}

/// What the policies answer to the request, over these entities or, where there are none, over the store that is given.
pub(crate) fn answer_to(
    alloc: Global,
    tested: Tested<'_>,
    store: &Entities,
    asked: &Asked<'_, '_>,
    request: Source<'_>,
    entities: Option<Source<'_>>,
    extensions: &Extensions<'_>,
) -> Result<Answer, Refusal>
    requires { IsKnownStore (extensions_view extensions.now) (calls_of extensions.now) asked.now store.now }
    ensures answered { IfOk result (λ a. IsAnsweredBy (extensions_view extensions.now) (calls_of extensions.now)
        tested.entry.policies.now tested.entry.way (question asked.now request.entry entities.entry) (answer_view a)) }
    ensures refused { IfErr result (IsToldFor (IsUnread (extensions_view extensions.now) (calls_of extensions.now)
        entities.entry (question asked.now request.entry entities.entry))) }
{
    match entities {
        Some(entities) => answer_over(alloc, tested, asked, request, entities, extensions),
        None => answer_given(alloc, tested, store, asked, request, extensions),
    }
}

fn answer_given(
    alloc: Global,
    tested: Tested<'_>,
    store: &Entities,
    asked: &Asked<'_, '_>,
    request: Source<'_>,
    extensions: &Extensions<'_>,
) -> Result<Answer, Refusal>
    requires { IsKnownStore (extensions_view extensions.now) (calls_of extensions.now) asked.now store.now }
    ensures answered { IfOk result (λ a. IsAnsweredBy (extensions_view extensions.now) (calls_of extensions.now)
        tested.entry.policies.now tested.entry.way (asking asked.now request.entry) (answer_view a)) }
    ensures refused { IfErr result (IsToldFor (IsRequestUnread (extensions_view extensions.now)
        (calls_of extensions.now) (asking asked.now request.entry))) }
{
    answer_request(alloc, tested, store, asked, request, extensions)
}

// The same over the entities that this text says.
fn answer_over(
    alloc: Global,
    tested: Tested<'_>,
    asked: &Asked<'_, '_>,
    request: Source<'_>,
    entities: Source<'_>,
    extensions: &Extensions<'_>,
) -> Result<Answer, Refusal>
    ensures answered { IfOk result (λ a. IsAnsweredBy (extensions_view extensions.now) (calls_of extensions.now)
        tested.entry.policies.now tested.entry.way (asking (over asked.now entities.entry) request.entry)
        (answer_view a)) }
    ensures refused { IfErr result (IsToldFor (IsAskedUnread (extensions_view extensions.now)
        (calls_of extensions.now) (asking (over asked.now entities.entry) request.entry))) }
{
    let asked = with_entities(asked, entities);
    answer_own(alloc, tested, &asked, request, extensions)
}

fn answer_own(
    alloc: Global,
    tested: Tested<'_>,
    asked: &Asked<'_, '_>,
    request: Source<'_>,
    extensions: &Extensions<'_>,
) -> Result<Answer, Refusal>
    ensures answered { IfOk result (λ a. IsAnsweredBy (extensions_view extensions.now) (calls_of extensions.now)
        tested.entry.policies.now tested.entry.way (asking asked.now request.entry) (answer_view a)) }
    ensures refused { IfErr result (IsToldFor (IsAskedUnread (extensions_view extensions.now)
        (calls_of extensions.now) (asking asked.now request.entry))) }
{
    let mut told = String::new(alloc);
    let store = known_store(alloc, asked, extensions, &mut told)?;
    let answer = answer_request(alloc, tested, &store.entities, asked, request, extensions);
    drop((store, told));
    answer
}

fn answer_request(
    alloc: Global,
    tested: Tested<'_>,
    store: &Entities,
    asked: &Asked<'_, '_>,
    request: Source<'_>,
    extensions: &Extensions<'_>,
) -> Result<Answer, Refusal>
    ensures answered { IfOk result (λ a. IsAnswerOver (extensions_view extensions.now) (calls_of extensions.now)
        tested.entry.policies.now store.now tested.entry.way (asking asked.now request.entry) (answer_view a)) }
    ensures refused { IfErr result (IsToldFor (IsRequestUnread (extensions_view extensions.now)
        (calls_of extensions.now) (asking asked.now request.entry))) }
{
    let asked = with_request(asked, request);
    answer_of(
        alloc,
        tested.policies,
        store,
        tested.way,
        &asked,
        extensions,
    )
}

// The same question of this request.
fn with_request<'m, 't>(asked: &Asked<'m, 't>, request: Source<'t>) -> Asked<'m, 't>
    ensures { result ≡ asking asked.now request.entry }
{
    Asked {
        request: Some(request),
        ..*asked
    }
}

// The same question over these entities.
fn with_entities<'m, 't>(asked: &Asked<'m, 't>, entities: Source<'t>) -> Asked<'m, 't>
    ensures { result ≡ over asked.now entities.entry }
{
    Asked {
        entities: Some(entities),
        ..*asked
    }
}

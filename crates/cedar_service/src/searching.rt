#![tactic(auto, using(crate::proofs::Bounded::bounded))]
//! What a search of an engine finds.
ghost use Rattle.std.specs.Prelude.{◌≡◌, ◌+◌, true, take, nat_lt, IfOk};
ghost use Rattle.std.specs.Option.{option_or};
ghost use Rattle.cedar_extensions.specs.Extensions.{extensions_view, calls_of};
ghost use Rattle.cedar_requests.specs.Requests.{request_view};
ghost use Rattle.cedar_search.specs.Pages.{IsPage, page_view, page_made};
ghost use Rattle.cedar_endpoints.specs.Asked.{evaluation_view, named_view};
ghost use Rattle.cedar_endpoints.specs.Searches.{search_view, parts_view};
ghost use Rattle.cedar_service.specs.Asked.{has_known_context};
ghost use Rattle.cedar_service.specs.Brought.{laid_or};
ghost use Rattle.cedar_service.specs.Engines.{candidates_of, candidate_count, entities_of};
ghost use Rattle.cedar_service.specs.Searched.{sample, sample_named, part_of, question_of, next_at};
ghost use Rattle.cedar_service.specs.Ways.{ways_view};
ghost use Rattle.cedar_service.specs.Searched.{IsFound, IsFoundWith, IsFoundOver, IsPageFor, IsListed, IsFindingOf, IsUnfound};

use crate::engine::Engine;
use crate::faults::{Refusal, refuse};
use crate::found::texts_of;
use crate::opened::opened;
use crate::properties::laid_over;
use crate::requests::{has_known_context, request_of};
use crate::responses::LIMIT;
use crate::ways::Ways;
use cedar_authorizer::authorizer::Authorizer;
use cedar_endpoints::{Evaluation, Finding, Named, Parts, Search};
use cedar_extensions::Extensions;
use cedar_layers::policies::Entities;
use cedar_names::EntityUID;
use cedar_requests::Request;
use cedar_search::{Page, Part};
use std::alloc::{AllocError, Global};

// Which part is searched for, and of which page: behind so many candidates, with at most so many.
#[derive(Clone, Copy)]
struct Pages {
    part: Part,
    after: usize,
    most: usize,
}

/// The page of what is found behind so many candidates, with at most so many, or why there is none.
pub(crate) fn search(
    engine: &Engine,
    alloc: Global,
    question: &Search<'_, '_>,
    ways: Ways<'_>,
    after: usize,
    most: usize,
) -> Result<Finding, AllocError>
    ensures { IfOk result (IsFound engine.now (ways_view ways.entry) (search_view question.now) after most) }
{
    let extensions = Extensions::all_available();
    search_with(engine, alloc, question, ways, after, most, &extensions)
}

fn search_with(
    engine: &Engine,
    alloc: Global,
    question: &Search<'_, '_>,
    ways: Ways<'_>,
    after: usize,
    most: usize,
    extensions: &Extensions<'_>,
) -> Result<Finding, AllocError>
    ensures { IfOk result (IsFoundWith (extensions_view extensions.now) (calls_of extensions.now) engine.now
        (ways_view ways.entry) (search_view question.now) after most) }
{
    let sample = sample_of(question);
    let pages = Pages {
        part: part_of(question.parts),
        after,
        most,
    };
    match request_of(alloc, &sample, ways.action_type, extensions) {
        Ok(request) => find_over(engine, alloc, &sample, ways, request, pages, extensions),
        Err(refusal) => unfound(refusal),
    }
}

// The same for this request.
fn find_over(
    engine: &Engine,
    alloc: Global,
    sample: &Evaluation<'_, '_>,
    ways: Ways<'_>,
    request: Request,
    pages: Pages,
    extensions: &Extensions<'_>,
) -> Result<Finding, AllocError>
    ensures { IfOk result (IsFoundOver (extensions_view extensions.now) (calls_of extensions.now) engine.now
        (ways_view ways.entry) (evaluation_view sample.now) pages.part request pages.after pages.most) }
{
    match laid_over(alloc, engine.entities(), sample, ways, extensions) {
        Ok(laid) => find_laid(
            engine,
            alloc,
            laid,
            request,
            pages,
            ways.bounds.candidates,
            extensions,
        ),
        Err(refusal) => {
            drop(request);
            unfound(refusal)
        }
    }
}

// Over what was laid over the engine's entities, if something was.
fn find_laid(
    engine: &Engine,
    alloc: Global,
    laid: Option<Entities>,
    request: Request,
    pages: Pages,
    bound: usize,
    extensions: &Extensions<'_>,
) -> Result<Finding, AllocError>
    ensures { IfOk result (IsPageFor bound (extensions_view extensions.now) (calls_of extensions.now) engine.now
        (laid_or (entities_of engine.now) laid) pages.part request pages.after pages.most) }
{
    match laid {
        Some(store) => {
            let finding = find(engine, alloc, &store, request, pages, bound, extensions);
            drop(store);
            finding
        }
        None => find(
            engine,
            alloc,
            engine.entities(),
            request,
            pages,
            bound,
            extensions,
        ),
    }
}

// The evaluation with an empty id or name in the part that is searched for.
fn sample_of<'v, 'a>(question: &Search<'v, 'a>) -> Evaluation<'v, 'a>
    ensures { evaluation_view result ≡ sample (search_view question.now) }
{
    let context = question.context;
    let properties = question.properties;
    match question.parts {
        Parts::Subject {
            type_name,
            action,
            resource,
        } => Evaluation {
            subject: sample_named(type_name),
            action,
            resource,
            context,
            properties,
        },
        Parts::Action { subject, resource } => Evaluation {
            subject,
            action: "",
            resource,
            context,
            properties,
        },
        Parts::Resource {
            subject,
            action,
            type_name,
        } => Evaluation {
            subject,
            action,
            resource: sample_named(type_name),
            context,
            properties,
        },
    }
}

/// The entity of this type with an empty id.
pub(crate) fn sample_named(type_name: &str) -> Named<'_>
    ensures { named_view result ≡ sample_named type_name.now }
{
    Named { type_name, id: "" }
}

fn part_of(parts: Parts<'_>) -> Part
    ensures { result ≡ part_of (parts_view parts.entry) }
{
    match parts {
        Parts::Subject { .. } => Part::Principal,
        Parts::Action { .. } => Part::Action,
        Parts::Resource { .. } => Part::Resource,
    }
}

fn find(
    engine: &Engine,
    alloc: Global,
    store: &Entities,
    request: Request,
    pages: Pages,
    bound: usize,
    extensions: &Extensions<'_>,
) -> Result<Finding, AllocError>
    ensures { IfOk result (IsPageFor bound (extensions_view extensions.now) (calls_of extensions.now) engine.now store.now
        pages.part request pages.after pages.most) }
{
    if has_known_context(&request) {
        find_known(engine, alloc, store, request, pages, bound, extensions)
    } else {
        drop(request);
        unfound(refuse(alloc, "$.context", "an unknown stands in it"))
    }
}

fn find_known(
    engine: &Engine,
    alloc: Global,
    store: &Entities,
    request: Request,
    pages: Pages,
    bound: usize,
    extensions: &Extensions<'_>,
) -> Result<Finding, AllocError>
    requires { has_known_context request ≡ true }
    ensures { IfOk result (IsPageFor bound (extensions_view extensions.now) (calls_of extensions.now) engine.now store.now
        pages.part request pages.after pages.most) }
{
    let open = opened(pages.part, request)?;
    let finding = listed(engine, alloc, store, &open, pages, bound, extensions);
    drop(open);
    finding
}

fn listed(
    engine: &Engine,
    alloc: Global,
    store: &Entities,
    request: &Request,
    pages: Pages,
    bound: usize,
    extensions: &Extensions<'_>,
) -> Result<Finding, AllocError>
    ensures { IfOk result (IsListed bound
        (question_of (extensions_view extensions.now) (calls_of extensions.now) engine.now store.now pages.part
        (request_view request.now)) (candidates_of engine.now) pages.after pages.most) }
{
    let page = page_of(engine, alloc, store, request, pages, bound, extensions)?;
    let next = next_of(page.next, pages.after, bound, candidate_count(engine));
    finding_of(alloc, pages.part, &page, next)
}

// The page of the candidates that are looked at.
fn page_of(
    engine: &Engine,
    alloc: Global,
    store: &Entities,
    request: &Request,
    pages: Pages,
    bound: usize,
    extensions: &Extensions<'_>,
) -> Result<Page, AllocError>
    ensures { IfOk result (λ p. IsPage
        (question_of (extensions_view extensions.now) (calls_of extensions.now) engine.now store.now pages.part
        (request_view request.now)) (take (pages.after + bound) (candidates_of engine.now)) pages.after pages.most
        (page_view p)) }
{
    let authorizer = Authorizer::new(extensions, LIMIT);
    let search = cedar_search::Search {
        part: pages.part,
        request,
        policies: &engine.policies.policies,
        entities: store,
        candidates: looked_at(engine.candidates.as_slice(), pages.after, bound),
    };
    search.page(alloc, &authorizer, pages.after, pages.most)
}

fn finding_of(
    alloc: Global,
    part: Part,
    page: &Page,
    next: Option<usize>,
) -> Result<Finding, AllocError>
    ensures { IfOk result (IsFindingOf part (page_made (page_view page.now).found next)) }
{
    let results = texts_of(alloc, part, page.found.as_slice())?;
    Ok(Finding::Found { results, next })
}

// ---- how many candidates are looked at

fn candidate_count(engine: &Engine) -> usize
    ensures { result ≡ candidate_count engine.now }
{
    engine.candidates.len()
}

// Those up to where a page stops that begins behind so many and looks at so many.
fn looked_at(candidates: &[EntityUID], after: usize, bound: usize) -> &[EntityUID]
    ensures { result.now ≡ take (after + bound) candidates.now }
{
    if stops_before(after, bound, candidates.len()) {
        let (front, _) = candidates.split_at(after + bound);
        front
    } else {
        candidates
    }
}

fn stops_before(after: usize, bound: usize, count: usize) -> bool
    ensures { result ≡ nat_lt (after + bound) count }
{
    after < count && bound < count - after
}

// Where the next page begins: where this one says, or else where it stops, if there is a candidate.
fn next_of(next: Option<usize>, after: usize, bound: usize, count: usize) -> Option<usize>
    ensures { result ≡ option_or next (next_at (after + bound) count) }
{
    match next {
        Some(place) => Some(place),
        None => next_at(after, bound, count),
    }
}

fn next_at(after: usize, bound: usize, count: usize) -> Option<usize>
    ensures { result ≡ next_at (after + bound) count }
{
    if stops_before(after, bound, count) {
        Some(after + bound)
    } else {
        None
    }
}

// Nothing is found, for what is told.
#[cold]
fn unfound(refusal: Refusal) -> Result<Finding, AllocError>
    ensures { IfOk result (IsUnfound refusal) }
{
    match refusal {
        Refusal::Told(error) => Ok(Finding::Refused { error }),
        Refusal::Memory => Err(AllocError),
    }
}

#![tactic(auto, using(crate::proofs::Texts::texts))]
//! Pages of what is found.
ghost use Rattle.std.specs.Prelude.{◌≡◌, Ok, Some, IfOk, map, string_bytes};
ghost use Rattle.json.specs.Value.{value_view};
ghost use Rattle.cedar_endpoints.specs.Asked.{told, fault_view};
ghost use Rattle.cedar_endpoints.specs.Replies.{Replies};
ghost use Rattle.cedar_endpoints.specs.Several.{joined};
ghost use Rattle.cedar_endpoints.specs.Tokens.{next_text};
ghost use Rattle.cedar_endpoints.specs.declared.answers.Status.TheVariants as statuses;
ghost use Rattle.cedar_endpoints.specs.Searches.{search_view, page_search_view};
ghost use Rattle.cedar_endpoints.specs.Found.{finder_of, no_token, results_text};
ghost use Rattle.cedar_endpoints.specs.Found.{IsListed, IsPageFrom, IsPageAt, IsFound, IsSearched, IsPageOf};

use crate::answers::Status;
use crate::asked::Fault;
use crate::decider::Decider;
use crate::evaluations::join_texts;
use crate::replies::{Finding, Reply, faulty, refused};
use crate::searches::{PageSearch, Search, Sought, read_search};
use crate::tokens::{next_text, place_of};
use json::Value;
use std::alloc::{AllocError, Global};

/// The page that the document asks for, with at most so many, or 400 for what is wrong. Refuses only if out of memory.
pub(crate) fn search_value<D: Decider>(
    alloc: Global,
    decider: &D,
    page: usize,
    sought: Sought,
    value: &Value<'_>,
) -> Result<Reply, AllocError>
    ensures { IfOk result (IsSearched
        (finder_of (D.finds decider.now) (D.version decider.now) (D.count decider.now) page) sought
        (value_view value.now)) }
{
    search_said(alloc, decider, page, read_search(sought, value))
}

fn search_said<D: Decider>(
    alloc: Global,
    decider: &D,
    page: usize,
    said: Result<PageSearch<'_, '_>, Fault>,
) -> Result<Reply, AllocError>
    ensures { IfOk result (IsFound
        (finder_of (D.finds decider.now) (D.version decider.now) (D.count decider.now) page)
        (told page_search_view said.entry)) }
{
    match said {
        Ok(asked) => search_page(alloc, decider, page, &asked),
        Err(fault) => faulty(alloc, Status::BadRequest, fault),
    }
}

fn search_page<D: Decider>(
    alloc: Global,
    decider: &D,
    page: usize,
    asked: &PageSearch<'_, '_>,
) -> Result<Reply, AllocError>
    ensures { IfOk result (IsFound
        (finder_of (D.finds decider.now) (D.version decider.now) (D.count decider.now) page)
        (Ok (page_search_view asked.now))) }
{
    match asked.token {
        Some(token) => search_at(alloc, decider, page, &asked.search, token),
        None => search_from(alloc, decider, page, &asked.search, 0),
    }
}

// The page of the token.
fn search_at<D: Decider>(
    alloc: Global,
    decider: &D,
    page: usize,
    search: &Search<'_, '_>,
    token: &str,
) -> Result<Reply, AllocError>
    ensures { IfOk result (IsPageOf
        (finder_of (D.finds decider.now) (D.version decider.now) (D.count decider.now) page) (search_view search.now)
        (Some token.now)) }
{
    let place = place_of(
        alloc,
        decider.version_text(),
        decider.candidate_count(),
        token,
    )?;
    search_behind(alloc, decider, page, search, place)
}

fn search_behind<D: Decider>(
    alloc: Global,
    decider: &D,
    page: usize,
    search: &Search<'_, '_>,
    place: Option<usize>,
) -> Result<Reply, AllocError>
    ensures { IfOk result (IsPageAt
        (finder_of (D.finds decider.now) (D.version decider.now) (D.count decider.now) page) (search_view search.now)
        place) }
{
    match place {
        Some(place) => search_from(alloc, decider, page, search, place),
        None => faulty(alloc, Status::BadRequest, no_token()),
    }
}

fn no_token() -> Fault
    ensures { fault_view result ≡ no_token }
{
    Fault {
        part: ".page",
        member: ".token",
        reason: "not a token of this version",
    }
}

fn search_from<D: Decider>(
    alloc: Global,
    decider: &D,
    page: usize,
    search: &Search<'_, '_>,
    after: usize,
) -> Result<Reply, AllocError>
    ensures { IfOk result (IsPageFrom
        (finder_of (D.finds decider.now) (D.version decider.now) (D.count decider.now) page) (search_view search.now)
        after) }
{
    let finding = decider.search(alloc, search, after, page)?;
    listed(alloc, decider.version_text(), &finding)
}

fn listed(alloc: Global, version: &str, finding: &Finding) -> Result<Reply, AllocError>
    ensures { IfOk result (IsListed version.now finding.now) }
{
    match finding {
        Finding::Found { results, next } => results_reply(
            alloc,
            version,
            results.as_slice(),
            *next,
        ),
        Finding::Refused { error } => refused(alloc, Status::BadRequest, error.as_str()),
    }
}

fn results_reply(
    alloc: Global,
    version: &str,
    results: &[String],
    next: Option<usize>,
) -> Result<Reply, AllocError>
    ensures { IfOk result (Replies statuses.Ok
        (results_text (joined (map string_bytes results.now)) (next_text version.now next))) }
{
    let items = join_texts(alloc, results)?;
    let token = next_text(alloc, version, next)?;
    let body = results_text(alloc, items.as_str(), token.as_str())?;
    Ok(Reply {
        status: Status::Ok,
        body,
    })
}

fn results_text(alloc: Global, items: &str, token: &str) -> Result<String, AllocError>
    ensures { IfOk result (λ s. string_bytes s ≡ results_text items.now token.now) }
{
    let open = "{\"results\":[";
    let between = "],\"page\":{\"next_token\":\"";
    let close = "\"}}";
    format!(in alloc; "{open}{items}{between}{token}{close}")
}

#![tactic(auto, using(crate::proofs::Untold::untold))]
//! Other policies and entities in place of these.
ghost use Rattle.std.specs.Prelude.{◌≡◌, true, false, None, IfOk, IfErr, string_bytes};
ghost use Rattle.cedar_endpoints.specs.Asked.{fault_view};
ghost use Rattle.cedar_endpoints.specs.Reloads.{taken_text, replaced_by, IsUntaken, IsUntakenAs, IsPutAlone};
ghost use Rattle.cedar_endpoints.specs.Reloads.{IsNothingHere, IsNotRemade, Reports};

use crate::answers::Status;
use crate::decider::Decider;
use crate::replies::{NotRemade, Reply, faulty, refused};
use crate::routes::{Replaced, Route};
use crate::service::whole;
use std::alloc::{AllocError, Global};

/// Why a text is not taken.
#[derive(Debug, Drop)]
pub(crate) enum Untaken {
    /// Out of memory.
    Memory,
    /// For what is wrong, as is replied.
    Replied(Reply),
}

/// Which of the two the route is to replace, where that is allowed.
pub(crate) fn replaced_by(allows: bool, route: Route) -> Option<Replaced>
    ensures { result ≡ replaced_by allows route }
{
    if allows { replaced(route) } else { None }
}

fn replaced(route: Route) -> Option<Replaced>
    ensures { result ≡ replaced_by true route }
{
    match route {
        Route::Reload(replaced) => Some(replaced),
        Route::Evaluation => None,
        Route::Evaluations => None,
        Route::Search(_) => None,
        Route::Authorize => None,
        Route::PartiallyAuthorize => None,
        Route::Health => None,
        Route::Metadata => None,
        Route::PostOnly => None,
        Route::GetOnly => None,
        Route::PutOnly => None,
        Route::Unknown => None,
    }
}

/// What takes the decider's place where the body is taken in place of its policies or its entities; or what is replied
/// since it is not.
pub(crate) fn remake<D: Decider>(
    alloc: Global,
    decider: &D,
    replaced: Replaced,
    body: &[u8],
) -> Result<D, Untaken>
    ensures remade { IfOk result (D.remakes decider.now replaced body.now) }
    ensures untaken { IfErr result (IsUntakenAs (IsUntaken (D.refuses decider.now) replaced body.now)) }
{
    match str::from_utf8(body) {
        Ok(text) => remake_text(alloc, decider, replaced, text),
        Err(_) => Err(replied_as(faulty(alloc, Status::BadRequest, whole("not UTF-8")))),
    }
}

fn remake_text<D: Decider>(
    alloc: Global,
    decider: &D,
    replaced: Replaced,
    text: &str,
) -> Result<D, Untaken>
    ensures remade { IfOk result (D.remakes decider.now replaced text.now) }
    ensures untaken { IfErr result (IsUntakenAs (IsUntaken (D.refuses decider.now) replaced text.now)) }
{
    match decider.remake(alloc, replaced, text) {
        Ok(made) => Ok(made),
        Err(reason) => Err(refused_for(alloc, reason)),
    }
}

#[cold]
fn refused_for(alloc: Global, reason: NotRemade) -> Untaken
    ensures { Reports reason result }
{
    match reason {
        NotRemade::Memory => Untaken::Memory,
        NotRemade::Told(error) => replied_as(refused(alloc, Status::BadRequest, error.as_str())),
    }
}

#[cold]
fn replied_as(reply: Result<Reply, AllocError>) -> Untaken
    ensures replied { IfOk reply (λ r. result ≡ Untaken.Replied r) }
    ensures memory { IfErr reply (λ _. result ≡ Untaken.Memory) }
{
    match reply {
        Ok(reply) => Untaken::Replied(reply),
        Err(AllocError) => Untaken::Memory,
    }
}

/// What is replied where there is `PUT` alone, if other texts are taken at all. Refuses only if out of memory.
pub(crate) fn put_alone(alloc: Global, allows: bool) -> Result<Reply, AllocError>
    ensures { IfOk result (IsPutAlone allows) }
{
    if allows {
        faulty(alloc, Status::PutOnly, whole("there is PUT alone"))
    } else {
        nothing_here(alloc)
    }
}

/// What is replied where no other texts are taken. Refuses only if out of memory.
pub(crate) fn unreplaced(
    alloc: Global,
    allows: bool,
    replaced: Replaced,
) -> Result<Reply, AllocError>
    requires { replaced_by allows (Route.Reload replaced) ≡ None }
    ensures nothing { IfOk result IsNothingHere }
    ensures off { allows ≡ false }
{
    if allows {
        unreachable!()
    } else {
        nothing_here(alloc)
    }
}

/// That nothing is here. Refuses only if out of memory.
pub(crate) fn nothing_here(alloc: Global) -> Result<Reply, AllocError>
    ensures { IfOk result IsNothingHere }
{
    faulty(alloc, Status::NotFound, whole("nothing is here"))
}

/// The version from then on. Refuses only if out of memory.
pub(crate) fn taken_text(alloc: Global, version: &str) -> Result<String, AllocError>
    ensures { IfOk result (λ s. string_bytes s ≡ taken_text version.now) }
{
    let open = "{\"version\":\"";
    let close = "\"}";
    format!(in alloc; "{open}{version}{close}")
}

#![tactic(auto, using(crate::proofs::Identified::identified))]
//! What Cedar's own request is answered.
ghost use Rattle.std.specs.Prelude.{IfOk};
ghost use Rattle.cedar_endpoints.specs.Served.{IsAuthorized, IsResponded, IsResponseTo};

use crate::answers::Status;
use crate::decider::Decider;
use crate::ids::{id_in, put_id};
use crate::replies::{Outcome, Reply, faulty, plain, refused};
use crate::service::whole;
use std::alloc::{AllocError, Global};

/// The response to Cedar's own request, which the body is, or what is wrong with it, and then no decision; the request's
/// `id` stands first in either, if it has one. Refuses only if out of memory.
pub fn authorize<D: Decider>(alloc: Global, decider: &D, body: &[u8]) -> Result<Reply, AllocError>
    ensures { IfOk result (IsAuthorized (D.authorizes decider.now) body.now) }
{
    match str::from_utf8(body) {
        Ok(text) => authorize_text(alloc, decider, text),
        Err(_) => faulty(alloc, Status::BadRequest, whole("not UTF-8")),
    }
}

fn authorize_text<D: Decider>(alloc: Global, decider: &D, text: &str) -> Result<Reply, AllocError>
    ensures { IfOk result (IsAuthorized (D.authorizes decider.now) text.now) }
{
    let id = id_in(alloc, text)?;
    let reply = response_to(alloc, decider, text)?;
    put_id(alloc, id, reply)
}

// The same without the id.
fn response_to<D: Decider>(alloc: Global, decider: &D, text: &str) -> Result<Reply, AllocError>
    ensures { IfOk result (IsResponseTo (D.authorizes decider.now) text.now) }
{
    let outcome = decider.authorize(alloc, text)?;
    respond_with(alloc, &outcome)
}

fn respond_with(alloc: Global, outcome: &Outcome) -> Result<Reply, AllocError>
    ensures { IfOk result (IsResponded outcome.now) }
{
    match outcome {
        Outcome::Decided {
            is_allowed: _,
            context,
        } => plain(alloc, context.as_str()),
        Outcome::Refused { error } => refused(alloc, Status::BadRequest, error.as_str()),
        Outcome::TooLarge { error } => refused(alloc, Status::TooLarge, error.as_str()),
    }
}

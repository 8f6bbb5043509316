//! What is replied: a status, and a JSON text.
ghost use Rattle.std.specs.Prelude.{◌≡◌, IfOk, string_bytes};
ghost use Rattle.cedar_endpoints.specs.Asked.{fault_view};
ghost use Rattle.cedar_endpoints.specs.Replies.{opening, decision_text, fault_json, error_text};
ghost use Rattle.cedar_endpoints.specs.Replies.{Replies, IsFault, IsOutcome};
ghost use Rattle.cedar_endpoints.specs.declared.answers.Status.TheVariants as statuses;

use crate::answers::Status;
use crate::asked::Fault;
use std::alloc::{AllocError, Global};

/// What is decided, or why nothing is.
#[derive(Debug, Drop)]
pub enum Outcome {
    /// Whether it is allowed, and what that is due to, as JSON.
    Decided { is_allowed: bool, context: String },
    /// Nothing is decided: the error, as JSON.
    Refused { error: String },
    /// Nothing is decided, for the request brings more than it may: the error, as JSON.
    TooLarge { error: String },
}

/// A page of what is found, or why nothing is.
#[derive(Debug, Drop)]
pub enum Finding {
    /// Each that is found, as JSON, in order, and behind how many candidates the next page begins: `None` where this page
    /// is the last.
    Found {
        results: Vec<String>,
        next: Option<usize>,
    },
    /// Nothing is found: the error, as JSON.
    Refused {
        error: String,
    },
}

/// What is left of policies, or why nothing is told.
#[derive(Debug, Drop)]
pub enum Remainder {
    /// What is left, as JSON.
    Told { response: String },
    /// Nothing is told: the error, as JSON.
    Refused { error: String },
    /// Nothing is told, for the request brings more than it may: the error, as JSON.
    TooLarge { error: String },
}

/// Why other policies or entities are not taken.
#[derive(Debug, Drop)]
pub enum NotRemade {
    /// Out of memory.
    Memory,
    /// For what is wrong with them: the error, as JSON.
    Told(String),
}

/// A status, and a JSON text.
#[derive(Debug, Drop)]
pub struct Reply {
    pub status: Status,
    pub body: String,
}

/// The decision with 200, or why there is none with 400 or 413. Refuses only if out of memory.
pub(crate) fn reply_of(alloc: Global, outcome: &Outcome) -> Result<Reply, AllocError>
    ensures { IfOk result (IsOutcome outcome.now) }
{
    match outcome {
        Outcome::Decided {
            is_allowed,
            context,
        } => decided(alloc, *is_allowed, context.as_str()),
        Outcome::Refused { error } => refused(alloc, Status::BadRequest, error.as_str()),
        Outcome::TooLarge { error } => refused(alloc, Status::TooLarge, error.as_str()),
    }
}

/// The error, which is JSON, with this status. Refuses only if out of memory.
pub(crate) fn refused(alloc: Global, status: Status, error: &str) -> Result<Reply, AllocError>
    ensures { IfOk result (Replies status (error_text error.now)) }
{
    let body = error_text(alloc, error)?;
    Ok(Reply { status, body })
}

/// That this is wrong, with this status. Refuses only if out of memory.
pub(crate) fn faulty(alloc: Global, status: Status, fault: Fault) -> Result<Reply, AllocError>
    ensures { IfOk result (IsFault status (fault_view fault)) }
{
    let error = fault_json(alloc, fault)?;
    refused(alloc, status, error.as_str())
}

/// This text with 200. Refuses only if out of memory.
pub(crate) fn plain(alloc: Global, text: &str) -> Result<Reply, AllocError>
    ensures { IfOk result (Replies statuses.Ok text.now) }
{
    let body = String::from_str(alloc, text)?;
    Ok(Reply {
        status: Status::Ok,
        body,
    })
}

fn decided(alloc: Global, is_allowed: bool, context: &str) -> Result<Reply, AllocError>
    ensures { IfOk result (Replies statuses.Ok (decision_text is_allowed context.now)) }
{
    let body = decision_text(alloc, is_allowed, context)?;
    Ok(Reply {
        status: Status::Ok,
        body,
    })
}

// ---- texts

/// The decision, and behind it what it is due to, which is JSON. Refuses only if out of memory.
pub(crate) fn decision_text(
    alloc: Global,
    is_allowed: bool,
    context: &str,
) -> Result<String, AllocError>
    ensures { IfOk result (λ s. string_bytes s ≡ decision_text is_allowed context.now) }
{
    let opening = opening(is_allowed);
    let close = "}";
    format!(in alloc; "{opening}{context}{close}")
}

fn opening(is_allowed: bool) -> &'static str
    ensures { result.now ≡ opening is_allowed }
{
    if is_allowed {
        "{\"decision\":true,\"context\":"
    } else {
        "{\"decision\":false,\"context\":"
    }
}

/// Where something is wrong, and why, as JSON. Refuses only if out of memory.
pub fn fault_json(alloc: Global, fault: Fault) -> Result<String, AllocError>
    ensures { IfOk result (λ s. string_bytes s ≡ fault_json (fault_view fault)) }
{
    let Fault {
        part,
        member,
        reason,
    } = fault;
    let open = "{\"path\":\"$";
    let between = "\",\"reason\":\"";
    let close = "\"}";
    format!(in alloc; "{open}{part}{member}{between}{reason}{close}")
}

pub(crate) fn error_text(alloc: Global, error: &str) -> Result<String, AllocError>
    ensures { IfOk result (λ s. string_bytes s ≡ error_text error.now) }
{
    let open = "{\"error\":";
    let close = "}";
    format!(in alloc; "{open}{error}{close}")
}

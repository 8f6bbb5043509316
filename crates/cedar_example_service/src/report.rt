//! What is printed.
use crate::names::{both, uid};
use crate::reading::{as_bool, as_entity, as_long, as_text, known};
use crate::requests::{Asked, Staged};
use crate::stages::decided_in_stages;
use crate::stop::Stop;
use cedar_policy_core::ast::{Entity, Policy, PolicyID, PolicySet};
use cedar_policy_core::authorizer::{
    AuthorizationError, Authorizer, Decision, PartialResponse, ReportedPolicies, Response,
};
use cedar_policy_core::entities::{Dereference, Entities};
use cedar_policy_core::extensions::Extensions;
use std::alloc::{AllocError, Global};
use std::collections::HashSet;
use std::io::Write;

/// How many levels deep conditions are evaluated.
const LIMIT: usize = 100;

/// Prints what the store says of the document.
pub fn print_document<W: Write>(
    alloc: Global,
    entities: &Entities,
    id: &str,
    out: &mut W,
) -> Result<(), Stop> {
    let uid = uid(alloc, "Document", id)?;
    let found = entities.entity(alloc, &uid);
    drop(uid);
    match found? {
        Dereference::Data(document) => print_parts(id, document, out),
        Dereference::Residual(unknown) => {
            drop(unknown);
            Ok(())
        }
        Dereference::NoSuchEntity => Ok(()),
    }
}

// `ID: "TITLE", PAGES pages, owned by OWNER`, and its marks
fn print_parts<W: Write>(id: &str, document: &Entity, out: &mut W) -> Result<(), Stop> {
    let title = known(document.get("title")).and_then(as_text).unwrap_or("");
    let pages = known(document.get("pages")).and_then(as_long).unwrap_or(0);
    write!(out, "{id}: \"{title}\", {pages} pages")?;
    if let Some(owner) = known(document.get("owner")).and_then(as_entity) {
        write!(out, ", owned by {owner}")?;
    }
    print_marks(document, out)
}

// Whether it is public or sealed
fn print_marks<W: Write>(document: &Entity, out: &mut W) -> Result<(), Stop> {
    if let Some(true) = known(document.get("public")).and_then(as_bool) {
        write!(out, ", public")?;
    }
    if let Some(seal) = known(document.get_tag("sealed")).and_then(as_text) {
        write!(out, ", sealed {seal}")?;
    }
    writeln!(out, "")?;
    Ok(())
}

/// Decides the request, and prints the decision with its reasons and errors; where the user is not known, what is known
/// of the decision and its reasons whoever asks.
pub fn print_request<W: Write>(
    alloc: Global,
    asked: &Asked,
    policies: &PolicySet,
    entities: &Entities,
    extensions: &Extensions<'_>,
    out: &mut W,
) -> Result<(), Stop> {
    let authorizer = Authorizer::new(extensions, LIMIT);
    match asked.user {
        Some(user) => {
            let response = decide(alloc, asked, policies, entities, &authorizer)?;
            let printed = print_response(alloc, user, asked, &response, out);
            drop(response);
            printed
        }
        None => {
            let response = partly_decide(alloc, asked, policies, entities, &authorizer)?;
            let printed = print_partial_response(alloc, asked, &response, out);
            drop(response);
            printed
        }
    }
}

/// Decides in two stages, the second of which says who asks, and prints the decision: the document is its owner's
/// alone.
pub fn print_in_stages<W: Write>(alloc: Global, asked: &Staged, out: &mut W) -> Result<(), Stop> {
    let decision = decide_in_stages(alloc, asked)?;
    write!(
        out,
        "{} {} {}, which is {}'s alone: ",
        asked.user, asked.action, asked.document, asked.owner
    )?;
    print_decision(decision, out)
}

fn decide_in_stages(alloc: Global, asked: &Staged) -> Result<Option<Decision>, Stop> {
    let ((owner, user), (action, document)) = both(
        both(
            uid(alloc, "User", asked.owner),
            uid(alloc, "User", asked.user),
        ),
        both(
            uid(alloc, "Action", asked.action),
            uid(alloc, "Document", asked.document),
        ),
    )?;
    decided_in_stages(alloc, &owner, &user, &action, &document)
}

fn decide(
    alloc: Global,
    asked: &Asked,
    policies: &PolicySet,
    entities: &Entities,
    authorizer: &Authorizer<'_>,
) -> Result<Response, AllocError> {
    authorizer.is_authorized(alloc, asked.request(alloc)?, policies, entities)
}

fn partly_decide(
    alloc: Global,
    asked: &Asked,
    policies: &PolicySet,
    entities: &Entities,
    authorizer: &Authorizer<'_>,
) -> Result<PartialResponse, AllocError> {
    authorizer.is_authorized_core(alloc, asked.request(alloc)?, policies, entities)
}

fn print_response<W: Write>(
    alloc: Global,
    user: &str,
    asked: &Asked,
    response: &Response,
    out: &mut W,
) -> Result<(), Stop> {
    print_asked(user, asked, out)?;
    print_decision(Some(response.decision), out)?;
    for id in sort_ids(alloc, &response.diagnostics.reason)? {
        writeln!(out, "  by {id}")?;
    }
    print_errors(&response.diagnostics.errors, out)
}

fn print_partial_response<W: Write>(
    alloc: Global,
    asked: &Asked,
    response: &PartialResponse,
    out: &mut W,
) -> Result<(), Stop> {
    print_asked("someone", asked, out)?;
    print_decision(response.decision(), out)?;
    let must = ids(alloc, response.must_be_determining())?;
    writeln!(out, "  must be determining: {must}")?;
    let may = ids(alloc, response.may_be_determining())?;
    writeln!(out, "  may be determining: {may}")?;
    print_errors(&response.errors, out)
}

// `USER ACTION DOCUMENT at HOUR from ADDRESS: `
fn print_asked<W: Write>(user: &str, asked: &Asked, out: &mut W) -> Result<(), Stop> {
    write!(
        out,
        "{user} {} {} at {} from {}: ",
        asked.action, asked.document, asked.hour, asked.address
    )?;
    Ok(())
}

// The decision, if it is known.
fn print_decision<W: Write>(decision: Option<Decision>, out: &mut W) -> Result<(), Stop> {
    match decision {
        Some(decision) => writeln!(out, "{decision}")?,
        None => writeln!(out, "not decided")?,
    }
    Ok(())
}

fn print_errors<W: Write>(errors: &[AuthorizationError], out: &mut W) -> Result<(), Stop> {
    for error in errors {
        print_error(error, out)?;
    }
    Ok(())
}

// `ID failed: ERROR`
fn print_error<W: Write>(error: &AuthorizationError, out: &mut W) -> Result<(), Stop> {
    match error {
        AuthorizationError::PolicyEvaluationError { id, error } => {
            writeln!(out, "  {id} failed: {error}")?;
        }
    }
    Ok(())
}

// The ids, sorted by their bytes.
fn sort_ids(alloc: Global, ids: &HashSet<PolicyID>) -> Result<Vec<PolicyID>, AllocError> {
    let mut all: Vec<PolicyID> = Vec::new(alloc);
    for id in ids.iter() {
        all.push(id.clone()?)?;
    }
    all.sort()?;
    Ok(all)
}

// The ids of the policies, in order, with commas between them; `none` of no policies.
fn ids(alloc: Global, policies: ReportedPolicies<'_>) -> Result<String, AllocError> {
    let mut all = String::new(alloc);
    for policy in policies {
        push_id(alloc, &mut all, &policy?)?;
    }
    if all.is_empty() {
        all.push_str("none")?;
    }
    Ok(all)
}

fn push_id(alloc: Global, all: &mut String, policy: &Policy) -> Result<(), AllocError> {
    if !all.is_empty() {
        all.push_str(", ")?;
    }
    all.push_str(format!(in alloc; "{}", policy.id())?.as_str())
}

//! A request, and a store, of which these facts alone are kept.
ghost use Rattle.std.specs.Prelude.{◌≡◌, false, option_copied, IfOk};
ghost use Rattle.cedar_layers.specs.Stores.{store_view};
ghost use Rattle.cedar_requests.specs.Requests.{request_view, entry_view, context_given};
ghost use Rattle.cedar_reasons.specs.Facts.{facts_view, lent, of_context, is_kept};
ghost use Rattle.cedar_reasons.specs.Reduced.{reduced_request, reduced_store, kept_entry, kept_context};

use crate::contexts::reduced_context;
use crate::entities::reduced_store;
use crate::facts::{Fact, is_kept};
use cedar_fallible::{all_four, beside};
use cedar_layers::policies::{Entities, Entity};
use cedar_requests::{Context, EntityUIDEntry, Request};
use std::alloc::{AllocError, Global};

/// The request, and the store of these entities, of which these facts alone are kept. A kept entry is as it was, and
/// one that is left out an unknown of its type; a context that is left out is absent, and one that is kept has its
/// names, with the values that are kept and unknowns for the others. The store has the entities that are kept, with
/// their ancestors, attributes and tags: a value that is kept is as it was, and in place of one that is left out stands
/// an unknown of its own (`names_are_apart`). It is concrete if each entity is kept and `NoOtherEntity`, and else
/// partial. Facts of an entity that is not kept, or that is not there, say nothing. Refuses only if out of memory.
pub fn reduced(
    alloc: Global,
    request: &Request,
    entities: &[&Entity],
    facts: &[Fact<'_>],
) -> Result<(Request, Entities), AllocError>
    ensures request { IfOk result (λ p. request_view p.0 ≡
        reduced_request (facts_view facts.now) (request_view request.now)) }
    ensures store { IfOk result (λ p. store_view p.1 ≡ reduced_store (facts_view facts.now) (lent entities.now)) }
{
    let request = reduced_request(alloc, request, facts)?;
    beside(request, reduced_store(alloc, entities, facts))
}

fn reduced_request(
    alloc: Global,
    request: &Request,
    facts: &[Fact<'_>],
) -> Result<Request, AllocError>
    ensures { IfOk result (λ r. request_view r ≡ reduced_request (facts_view facts.now) (request_view request.now)) }
{
    let (principal, action, resource, context) = all_four(
        kept_entry(request.principal(), is_kept(facts, Fact::Principal)),
        kept_entry(request.action(), is_kept(facts, Fact::Action)),
        kept_entry(request.resource(), is_kept(facts, Fact::Resource)),
        kept_context(alloc, request.context(), facts),
    )?;
    Ok(Request::new_with_unknowns(principal, action, resource, context))
}

// The entry, if it is kept, and else the unknown of its type.
fn kept_entry(entry: &EntityUIDEntry, is_kept: bool) -> Result<EntityUIDEntry, AllocError>
    ensures { IfOk result (λ e. entry_view e ≡ kept_entry is_kept (entry_view entry.now)) }
{
    if is_kept {
        Ok(entry.clone()?)
    } else {
        left_out(entry)
    }
}

fn left_out(entry: &EntityUIDEntry) -> Result<EntityUIDEntry, AllocError>
    ensures { IfOk result (λ e. entry_view e ≡ kept_entry false (entry_view entry.now)) }
{
    match entry.get_type() {
        Some(ty) => Ok(EntityUIDEntry::unknown_with_type(ty.clone()?, None)),
        None => Ok(EntityUIDEntry::unknown()),
    }
}

fn kept_context(
    alloc: Global,
    context: Option<&Context>,
    facts: &[Fact<'_>],
) -> Result<Option<Context>, AllocError>
    ensures { IfOk result (λ c. context_given c ≡ kept_context (is_kept (facts_view facts.now) of_context)
        (facts_view facts.now) (context_given (option_copied context.entry))) }
{
    match context {
        Some(context) => {
            if is_kept(facts, Fact::Context) {
                Ok(Some(reduced_context(alloc, context, facts)?))
            } else {
                Ok(None)
            }
        }
        None => Ok(None),
    }
}

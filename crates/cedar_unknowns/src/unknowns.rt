#![tactic(auto, using(crate::proofs::Noted::noting))]
//! The unknowns of an expression, of a request and of a partial response.
ghost use Rattle.std.specs.Prelude.{◌≡◌, ◌++◌, List, map, IfOk};
ghost use Rattle.cedar_expressions.specs.View.{view};
ghost use Rattle.cedar_names.specs.Names.{uid_name};
ghost use Rattle.cedar_requests.specs.Requests.{request_view};
ghost use Rattle.cedar_authorizer.specs.responses.Rows.{rows_view};
ghost use Rattle.cedar_unknowns.specs.Occurrences.{Asked, asked_each, each_once, occurrences};
ghost use Rattle.cedar_unknowns.specs.Occurrences.{request_occurrences, row_occurrences};
ghost use Rattle.cedar_unknowns.specs.Entities.{entities_asked, others_asked};
ghost use Rattle.cedar_unknowns.specs.Themselves.{entity_values, IsCompletedByThem};
ghost use Rattle.cedar_requests.specs.Substitutions.{values_for};

use crate::entities::{entities_of, others_of};
use crate::noting::note_unknowns;
use crate::requests::note_request;
use crate::responses::note_response;
use crate::values::values_of;
use cedar_authorizer::authorizer::PartialResponse;
use cedar_expressions::Expr;
use cedar_names::{EntityUID, Unknown};
use cedar_requests::Request;
use cedar_values::Value;
use indexmap::IndexSet;
use std::alloc::{AllocError, Global};
use std::collections::HashMap;
use std::rc::RcStr;

/// What unknowns stand in: an expression; a request, whose unknowns are those that its variables answer, principal,
/// action, resource and context in this order; a partial response, whose unknowns are those of its request and then
/// those of what is left of its policies, permits before forbids.
///
/// An unknown is a name with an annotation, the type that its value must have, or with none. One name that stands with
/// two annotations is listed with each: a value is given by the name alone, and it must have every type that the name
/// is annotated with.
pub trait Unknowns {
    /// The unknowns in the order in which they stand, each as often as it stands.
    ghost asks: { Self → List Asked };

    /// The unknowns, each once, in the order in which they stand first. Those that stand for an entity which a partial
    /// store lacked are not among them. Refuses only if out of memory.
    fn unknowns(&self, alloc: Global) -> Result<Vec<Unknown>, AllocError>
        ensures { IfOk result (λ us. asked_each us.items ≡ others_asked (each_once (asks self.now))) };

    /// The entities that unknowns stand for since a partial store lacked them, each once, in the order in which these
    /// unknowns stand first. An unknown stands for an entity where it is named by the entity's text, as
    /// `User::"alice"`, and annotated with the entity's type. Refuses only if out of memory.
    fn unknown_entities(&self, alloc: Global) -> Result<Vec<EntityUID>, AllocError>
        ensures { IfOk result (λ us. map uid_name us.items ≡ entities_asked (each_once (asks self.now))) };

    /// Each of these entities as the value of the unknown that stands for it: values for a step over a store that has
    /// them. Every completion agrees with them, since the unknown of an entity that a store did not know is that entity
    /// and nothing else (`laws::missing_entity_is_itself`). Refuses only if out of memory.
    fn entity_values(&self, alloc: Global) -> Result<HashMap<RcStr, Value>, AllocError>
        ensures values { IfOk result (λ m.
            values_for m.entries ≡ entity_values (entities_asked (each_once (asks self.now)))) }
        ensures completed { IfOk result (λ m.
            IsCompletedByThem (entities_asked (each_once (asks self.now))) (values_for m.entries)) };
}

impl Unknowns for Expr {
    ghost asks = { λ e. occurrences (view e) };

    fn unknowns(&self, alloc: Global) -> Result<Vec<Unknown>, AllocError> {
        let found = found_in_expr(alloc, self)?;
        others_of(alloc, &found)
    }

    fn unknown_entities(&self, alloc: Global) -> Result<Vec<EntityUID>, AllocError> {
        let found = found_in_expr(alloc, self)?;
        entities_of(alloc, &found)
    }

    fn entity_values(&self, alloc: Global) -> Result<HashMap<RcStr, Value>, AllocError> {
        let found = found_in_expr(alloc, self)?;
        values_of(alloc, &found)
    }
}

impl Unknowns for Request {
    ghost asks = { λ r. request_occurrences (request_view r) };

    fn unknowns(&self, alloc: Global) -> Result<Vec<Unknown>, AllocError> {
        let found = found_in_request(alloc, self)?;
        others_of(alloc, &found)
    }

    fn unknown_entities(&self, alloc: Global) -> Result<Vec<EntityUID>, AllocError> {
        let found = found_in_request(alloc, self)?;
        entities_of(alloc, &found)
    }

    fn entity_values(&self, alloc: Global) -> Result<HashMap<RcStr, Value>, AllocError> {
        let found = found_in_request(alloc, self)?;
        values_of(alloc, &found)
    }
}

impl Unknowns for PartialResponse {
    ghost asks = { λ r. request_occurrences (request_view r.request.value) ++ row_occurrences (rows_view r) };

    fn unknowns(&self, alloc: Global) -> Result<Vec<Unknown>, AllocError> {
        let found = found_in_response(alloc, self)?;
        others_of(alloc, &found)
    }

    fn unknown_entities(&self, alloc: Global) -> Result<Vec<EntityUID>, AllocError> {
        let found = found_in_response(alloc, self)?;
        entities_of(alloc, &found)
    }

    fn entity_values(&self, alloc: Global) -> Result<HashMap<RcStr, Value>, AllocError> {
        let found = found_in_response(alloc, self)?;
        values_of(alloc, &found)
    }
}

fn found_in_expr(alloc: Global, expr: &Expr) -> Result<IndexSet<Unknown>, AllocError>
    ensures { IfOk result (λ s. asked_each s.keys ≡ each_once (occurrences (view expr.now))) }
{
    let mut found: IndexSet<Unknown> = IndexSet::new(alloc);
    note_unknowns(expr, &mut found)?;
    Ok(found)
}

fn found_in_request(alloc: Global, request: &Request) -> Result<IndexSet<Unknown>, AllocError>
    ensures { IfOk result (λ s. asked_each s.keys ≡ each_once (request_occurrences (request_view request.now))) }
{
    let mut found: IndexSet<Unknown> = IndexSet::new(alloc);
    note_request(alloc, request, &mut found)?;
    Ok(found)
}

fn found_in_response(
    alloc: Global,
    response: &PartialResponse,
) -> Result<IndexSet<Unknown>, AllocError>
    ensures { IfOk result (λ s. asked_each s.keys ≡ each_once
        (request_occurrences (request_view response.now.request.value) ++ row_occurrences (rows_view response.now))) }
{
    let mut found: IndexSet<Unknown> = IndexSet::new(alloc);
    note_request(alloc, &response.request, &mut found)?;
    note_response(response, &mut found)?;
    Ok(found)
}

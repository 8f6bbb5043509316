//! Searches, and all that is permitted.
ghost use Rattle.std.specs.Prelude.{◌≡◌, ◌++◌, [], ◌∷◌, cond, IfOk, OnOk};
ghost use Rattle.std.specs.List.{IsDistinct};
ghost use Rattle.cedar_model.specs.Outcomes.{entity_eq};
ghost use Rattle.cedar_names.specs.Names.{uid_name};
ghost use Rattle.cedar_search.specs.Questions.{names_of, candidates_of, question};
ghost use Rattle.cedar_search.specs.Found.{AreThePermitted, AreThoseMeant, AreAdded};

use crate::asking::is_permitted;
use cedar_authorizer::authorizer::Authorizer;
use cedar_fallible::add_last;
use cedar_layers::policies::{Entities, PolicySet};
use cedar_names::EntityUID;
use cedar_requests::Request;
use std::alloc::{AllocError, Global};

/// Which part of a request is searched for.
#[derive(Clone, Copy, Debug, PartialEq, Eq)]
pub enum Part {
    /// Who asks.
    Principal,
    /// What is to be done.
    Action,
    /// What it is to be done with.
    Resource,
}

/// What is searched for, and where: a request in which one part is sought, and the candidates for it.
#[derive(Clone, Copy)]
pub struct Search<'s> {
    /// The part of the request that is sought.
    pub part: Part,
    /// The request. Its entry for the part says what that can be: an unknown of a type any entity of this type, one of
    /// no type any entity at all, and a known entity that one alone.
    pub request: &'s Request,
    /// The policies that decide.
    pub policies: &'s PolicySet,
    /// The store that they decide over.
    pub entities: &'s Entities,
    /// The entities that are asked for, in the order of the answer. They need not be in the store.
    pub candidates: &'s [EntityUID],
}

impl Search<'_> {
    /// All candidates that are permitted, in their order: those that the part can be, and with which the whole request
    /// is allowed. Each candidate is decided as `Authorizer::is_authorized` decides that request; a candidate that the
    /// part can't be is not asked. Where more of the request or the store is unknown, what that call says of it holds
    /// here too. Candidates that are distinct are found once each. Refuses only if out of memory.
    pub fn permitted(
        &self,
        alloc: Global,
        authorizer: &Authorizer<'_>,
    ) -> Result<Vec<EntityUID>, AllocError>
        ensures permitted { IfOk result (λ found. AreThePermitted (question authorizer.now self.now)
            (candidates_of self.now) (names_of found.items)) }
        ensures known { IfOk result (λ found. AreThoseMeant (question authorizer.now self.now)
            (candidates_of self.now) (names_of found.items)) }
        ensures once { IsDistinct entity_eq (candidates_of self.now)
            → IfOk result (λ found. IsDistinct entity_eq (names_of found.items)) }
    {
        let request = self.request.clone()?;
        let search = Search {
            request: &request,
            ..*self
        };
        all_permitted(alloc, authorizer, &search)
    }
}

// All candidates that are permitted. Copies of the request share its context.
fn all_permitted(
    alloc: Global,
    authorizer: &Authorizer<'_>,
    search: &Search<'_>,
) -> Result<Vec<EntityUID>, AllocError>
    ensures { IfOk result (λ found. AreThePermitted (question authorizer.now search.now)
        (candidates_of search.now) (names_of found.items)) }
{
    let mut found: Vec<EntityUID> = Vec::new(alloc);
    add_permitted(alloc, authorizer, search, &mut found)?;
    Ok(found)
}

// Adds the permitted ones of the candidates.
fn add_permitted(
    alloc: Global,
    authorizer: &Authorizer<'_>,
    search: &Search<'_>,
    found: &mut Vec<EntityUID>,
) -> Result<(), AllocError>
    ensures { OnOk result (AreAdded (question authorizer.now search.now) (candidates_of search.now)
        (names_of found.old.items) (names_of found.new.items)) }
{
    'candidates: for candidate in search.candidates {
        let permitted = is_permitted(alloc, authorizer, search, candidate)?;
        add_if(permitted, candidate, found)?;
    }
    Ok(())
}

// Adds a copy of the candidate, if it is permitted.
pub(crate) fn add_if(
    permitted: bool,
    candidate: &EntityUID,
    found: &mut Vec<EntityUID>,
) -> Result<(), AllocError>
    ensures { OnOk result
        (names_of found.new.items ≡ names_of found.old.items ++ cond permitted (uid_name candidate.now ∷ []) []) }
{
    if permitted {
        let copy = candidate.clone()?;
        add_last(found, copy)?;
    }
    Ok(())
}

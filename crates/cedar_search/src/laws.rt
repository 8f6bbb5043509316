//! What answers to searches say. Each function is a law, and does nothing.
ghost use Rattle.std.specs.Prelude.{ℕ, List, Some, drop};
ghost use Rattle.std.specs.List.{IsDistinct};
ghost use Rattle.cedar_model.specs.Terms.{EntityName};
ghost use Rattle.cedar_model.specs.Outcomes.{entity_eq};
ghost use Rattle.cedar_search.specs.Questions.{question};
ghost use Rattle.cedar_search.specs.Found.{AreThePermitted, AreThoseMeant};
ghost use Rattle.cedar_search.specs.Pages.{Page, ArePages, found_in};

use crate::searches::Search;
use cedar_authorizer::authorizer::Authorizer;

/// Where no other part of the request and nothing of the store is unknown, what is permitted are exactly the candidates
/// that the definition of a decision allows; and candidates that are distinct are found once each.
pub fn permitted_are_meant(authorizer: &Authorizer<'_>, search: &Search<'_>)
    ensures meant { (us found : List EntityName) → AreThePermitted (question authorizer.now search.now) us found →
        AreThoseMeant (question authorizer.now search.now) us found }
    ensures once { (us found : List EntityName) → AreThePermitted (question authorizer.now search.now) us found →
        IsDistinct entity_eq us → IsDistinct entity_eq found }
{}

/// Pages of one search, each of which begins where the one before it says and of which the last says that no candidate
/// is left, have together what is permitted of the candidates from the first one's begin on.
pub fn pages_are_the_list(authorizer: &Authorizer<'_>, search: &Search<'_>)
    ensures { (us : List EntityName) (after : ℕ) (pages : List Page) →
        ArePages (question authorizer.now search.now) us (Some after) pages →
        AreThePermitted (question authorizer.now search.now) (drop after us) (found_in pages) }
{}

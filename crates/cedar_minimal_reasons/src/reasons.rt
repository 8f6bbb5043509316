//! Reasons: facts which alone give a decision.
ghost use Rattle.std.specs.Prelude.{◌≡◌, true, None, IfNone, IfOk, IfSome};
ghost use Rattle.cedar_decisions.specs.Decisions.{decision_view};
ghost use Rattle.cedar_minimal_reasons.specs.Questions.{question, all_of, Answers, Decides};
ghost use Rattle.cedar_minimal_reasons.specs.Reasons.{IsGiven, IsMinimal, facts_of};

use crate::cases::Case;
use crate::growing::grown;
use crate::thinning::thinned;
use cedar_authorizer::authorizer::{Authorizer, Decision};
use cedar_reasons::Fact;
use std::alloc::{AllocError, Global};

/// What a decision rests on.
#[derive(Drop)]
pub struct Reason<'x> {
    /// The decision.
    pub decision: Decision,
    /// The facts by which alone it is given.
    pub facts: Vec<Fact<'x>>,
    /// Whether none of them can be left out. Else there were too few calls to find out.
    pub is_minimal: bool,
}

impl<'x> Case<'x> {
    /// Facts by which alone this authorizer gives a decision: in every completion of the request and the store of which
    /// these are known, and nothing else, the decision is this one. If `is_minimal`, it gives none by them without any
    /// one of them. `None` where it gives no decision by all facts together: something that decides is unknown, or a
    /// condition goes past the limit of levels. It begins with what the policies are found to ask for, and then leaves
    /// out what it can, one fact after another, with at most `calls` calls of the authorizer for that; past these it
    /// answers what is found so far. It takes one call more for each step from an entity to another that the policies
    /// make. Refuses only if out of memory.
    pub fn minimal_reason(
        &self,
        alloc: Global,
        authorizer: &Authorizer<'_>,
        calls: usize,
    ) -> Result<Option<Reason<'x>>, AllocError>
        ensures undecided { IfOk result (λ o. IfNone o
            (Answers (question authorizer.now self.now) (all_of (question authorizer.now self.now)) None)) }
        ensures given { IfOk result (λ o. IfSome o (IsGiven (question authorizer.now self.now))) }
        ensures decides { IfOk result (λ o. IfSome o (λ r.
            Decides (question authorizer.now self.now) (facts_of r) (decision_view r.decision))) }
        ensures minimal { IfOk result (λ o. IfSome o (λ r.
            r.is_minimal ≡ true → IsMinimal (question authorizer.now self.now) (facts_of r))) }
    {
        match grown(alloc, authorizer, self)? {
            Some((decision, facts)) => {
                Ok(Some(thinned(alloc, authorizer, self, decision, facts, calls)?))
            }
            None => Ok(None),
        }
    }
}

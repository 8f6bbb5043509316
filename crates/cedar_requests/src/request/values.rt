//! What the variables of a request answer.
ghost use Rattle.std.specs.Prelude.{◌≡◌, IfOk};
ghost use Rattle.cedar_model.specs.Terms.{principal, action, resource, context};
ghost use Rattle.cedar_model.specs.Settings.{variable_part};
ghost use Rattle.cedar_values.specs.Residuals.{partial_view};
ghost use Rattle.cedar_requests.specs.Requests.{request_view, answer_locs, variable_locs};
ghost use Rattle.cedar_requests.specs.Requests.{answer_annotations, variable_annotations};

use super::Request;
use crate::variables::context_part;
use cedar_fallible::all_four;
use cedar_names::Var;
use cedar_values::PartialValue;
use std::alloc::{AllocError, Global};

impl Request {
    /// What the variables `principal`, `action`, `resource` and `context` answer: the entities at the locations of
    /// their entries, and the record of the context at none, or their unknowns. What they hold is moved there, and
    /// shared by their copies. Refuses only if out of memory.
    #[tactic(auto, unfolding(cedar_model::specs::Settings::variable_part))]
    pub fn variable_values(
        self,
        alloc: Global,
    ) -> Result<(PartialValue, PartialValue, PartialValue, PartialValue), AllocError>
        ensures principal { IfOk result (λ p. partial_view p.0 ≡ variable_part (request_view self) principal) }
        ensures action { IfOk result (λ p. partial_view p.1 ≡ variable_part (request_view self) action) }
        ensures resource { IfOk result (λ p. partial_view p.2 ≡ variable_part (request_view self) resource) }
        ensures context { IfOk result (λ p. partial_view p.3 ≡ variable_part (request_view self) context) }
        ensures places { IfOk result (λ p. answer_locs p ≡ variable_locs self) }
        ensures annotations { IfOk result (λ p. answer_annotations p ≡ variable_annotations self) }
    {
        let (principal, action, resource, context) = self.into_parts();
        let (principal, action, resource, context) = all_four(
            principal.into_part(alloc, Var::Principal),
            action.into_part(alloc, Var::Action),
            resource.into_part(alloc, Var::Resource),
            context_part(alloc, context),
        )?;
        Ok((principal, action, resource, context))
    }
}

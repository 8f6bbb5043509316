//! What is read of a decision that is taken further.
ghost use Rattle.std.specs.Prelude.{◌≡◌, ◌++◌, map, IfOk, option_map};
ghost use Rattle.cedar_model.specs.Chains.{has_limit};
ghost use Rattle.cedar_model.specs.Reports.{given_decision};
ghost use Rattle.cedar_model.specs.Reports as reports;
ghost use Rattle.cedar_decisions.specs.Decisions.{decision_view};
ghost use Rattle.cedar_names.specs.Names.{uid_name};
ghost use Rattle.cedar_authorizer.specs.responses.Rows.{rows_view};
ghost use Rattle.cedar_authorizer.specs.responses.Readers.{policies_left};
ghost use Rattle.cedar_authorizer.specs.Running.{errors_of};
ghost use Rattle.cedar_unknowns.specs.Occurrences.{asked_each, each_once};
ghost use Rattle.cedar_unknowns.specs.Entities.{entities_asked, others_asked};

use crate::limits::has_limit;
use crate::resumed::Resumed;
use cedar_authorizer::authorizer::{Decision, PartialResponse, ReportedPolicies};
use cedar_names::{EntityUID, Unknown};
use cedar_unknowns::Unknowns;
use std::alloc::{AllocError, Global};

impl<'f, 's> Resumed<'f, 's> {
    ghost use Rattle.cedar_staged.specs.Resumptions.{first_of, response_of, KeepsWhatStood, unknowns_of};

    /// The response that it is taken further from.
    pub fn first(&self) -> &PartialResponse
        ensures { result.now ≡ first_of self.now }
    {
        self.first.as_ref()
    }

    /// The response of the last stage.
    pub fn response(&self) -> &PartialResponse
        ensures response { result.now ≡ response_of self.now }
        ensures stands { KeepsWhatStood self.now }
    {
        self.response.as_ref()
    }

    /// The decision, where it is known by now.
    pub fn decision(&self) -> Option<Decision>
        ensures given { option_map decision_view result ≡ given_decision (rows_view (response_of self.now)) }
        ensures stands { KeepsWhatStood self.now }
    {
        self.response.decision()
    }

    /// The policies that determine the decision whatever is still unknown.
    pub fn must_be_determining(&self) -> ReportedPolicies<'_>
        ensures policies { policies_left result ≡ reports.must_be_determining (rows_view (response_of self.now)) }
        ensures stands { KeepsWhatStood self.now }
    {
        self.response.must_be_determining()
    }

    /// The policies that may determine it: each that determines it in the end is one of them.
    pub fn may_be_determining(&self) -> ReportedPolicies<'_>
        ensures policies { policies_left result ≡ reports.may_be_determining (rows_view (response_of self.now)) }
        ensures stands { KeepsWhatStood self.now }
    {
        self.response.may_be_determining()
    }

    /// Whether the recursion limit is recorded, so that no further step is taken.
    pub fn has_recursion_limit(&self) -> bool
        ensures { result ≡ has_limit (errors_of (response_of self.now)) }
    {
        has_limit(&self.response.errors)
    }

    /// The unknowns that a step can be given values for, each with its type, once. Refuses only if out of memory.
    pub fn unknowns(&self, alloc: Global) -> Result<Vec<Unknown>, AllocError>
        ensures { IfOk result (λ us. asked_each us.items ≡ others_asked (each_once (unknowns_of self.now))) }
    {
        self.response.unknowns(alloc)
    }

    /// The entities that the stores so far lacked, each once. Refuses only if out of memory.
    pub fn missing_entities(&self, alloc: Global) -> Result<Vec<EntityUID>, AllocError>
        ensures { IfOk result (λ us. map uid_name us.items ≡ entities_asked (each_once (unknowns_of self.now))) }
    {
        self.response.unknown_entities(alloc)
    }
}

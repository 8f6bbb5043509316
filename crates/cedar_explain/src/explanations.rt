//! Explanations: what a policy came to, and the parts that decide it.
ghost use Rattle.std.specs.Prelude.{◌≡◌};
ghost use Rattle.cedar_explain.specs.Views.{policy_came, parts_told, explained_parts, named_parts, told_outcome};

use crate::outcomes::PolicyOutcome;
use crate::parts::Part;

/// What a policy came to on a request, and the parts of its condition that decide it, in the order of evaluation.
#[derive(Drop)]
pub struct Explanation {
    pub(crate) outcome: PolicyOutcome,
    pub(crate) parts: Vec<Part>,
}

impl Explanation {
    /// What the policy came to.
    pub fn outcome(&self) -> PolicyOutcome
        ensures { policy_came result ≡ told_outcome self.now }
    {
        self.outcome
    }

    /// The parts that decide it: all that are reached, of which each is needed. Where the policy errs, the last of them
    /// does, or is no boolean where one is wanted.
    pub fn parts(&self) -> &[Part]
        ensures told { parts_told result.now ≡ named_parts self.now }
        ensures whole { result.now ≡ explained_parts self.now }
    {
        &self.parts
    }
}

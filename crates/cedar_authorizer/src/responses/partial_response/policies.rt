//! The policies that a partial response names.
ghost use Rattle.std.specs.Prelude.{◌≡◌, [], cond, length};
ghost use Rattle.std.specs.Iterator.{at_most};
ghost use Rattle.cedar_model.specs.Chains.{all_residuals};
ghost use Rattle.cedar_model.specs.Reports as reports;
ghost use Rattle.cedar_layers.specs.Policies.{effect_view};
ghost use Rattle.cedar_authorizer.specs.responses.Rows.{located_view, rows_view, true_rows, false_rows, residual_rows};
ghost use Rattle.cedar_authorizer.specs.responses.Readers.{TakesPolicy, left, rows_left, policies_left, AreAmong};
ghost use Rattle.cedar_authorizer.specs.responses.Readers.{of_kinds};
ghost use Rattle.cedar_authorizer.specs.responses.Promises.{AreReasonsOf, HoldReasonsOf};

use super::made::{policy_of_residual, policy_of_truth};
use super::{ErrorState, PartialResponse};
use cedar_expressions::Expr;
use cedar_layers::policies::{Annotations, Effect, Policy, PolicyID};
use indexmap::IndexMap;
use indexmap::map::{Iter, Slice};
use std::alloc::{AllocError, Global};
use std::rc::Rc;

/// Policies of a partial response, permits first, and true ones before false ones before residual ones. A policy has
/// the effect, the id and the annotations that it was decided with, constraints that are all `true`, the clause `true`,
/// `false` or its residual, with the residual's own locations, and that clause's location. Where memory runs out for
/// one, an `Err` stands in its place, and the walk goes on.
#[derive(Drop)]
pub struct ReportedPolicies<'a> {
    alloc: Global,
    true_permits: Iter<'a, PolicyID, Rc<Annotations>>,
    false_permits: Iter<'a, PolicyID, (ErrorState, Rc<Annotations>)>,
    residual_permits: Iter<'a, PolicyID, (Rc<Expr>, Rc<Annotations>)>,
    true_forbids: Iter<'a, PolicyID, Rc<Annotations>>,
    false_forbids: Iter<'a, PolicyID, (ErrorState, Rc<Annotations>)>,
    residual_forbids: Iter<'a, PolicyID, (Rc<Expr>, Rc<Annotations>)>,
}

impl<'a> Iterator for ReportedPolicies<'a> {
    type Item = Result<Policy, AllocError>;

    ghost next_gives = { λ s r t. TakesPolicy (left s) r (left t) };

    ghost remaining = { λ s. at_most (length (left s)) };

    #[tactic(auto, using(crate::proofs::Walks::walks))]
    fn next(&mut self) -> Option<Result<Policy, AllocError>> {
        if let Some(policy) = next_true(self.alloc, Effect::Permit, &mut self.true_permits) {
            return Some(policy);
        }
        if let Some(policy) = next_false(self.alloc, Effect::Permit, &mut self.false_permits) {
            return Some(policy);
        }
        if let Some(policy) = next_residual(
            self.alloc,
            Effect::Permit,
            &mut self.residual_permits,
        ) {
            return Some(policy);
        }
        if let Some(policy) = next_true(self.alloc, Effect::Forbid, &mut self.true_forbids) {
            return Some(policy);
        }
        if let Some(policy) = next_false(self.alloc, Effect::Forbid, &mut self.false_forbids) {
            return Some(policy);
        }
        next_residual(self.alloc, Effect::Forbid, &mut self.residual_forbids)
    }
}

fn next_true(
    alloc: Global,
    effect: Effect,
    entries: &mut Iter<'_, PolicyID, Rc<Annotations>>,
) -> Option<Result<Policy, AllocError>>
    ensures { TakesPolicy (true_rows (effect_view effect) entries.old) result
        (true_rows (effect_view effect) entries.new) }
{
    let (id, annotations) = entries.next()?;
    Some(policy_of_truth(alloc, effect, true, id, annotations))
}

fn next_false(
    alloc: Global,
    effect: Effect,
    entries: &mut Iter<'_, PolicyID, (ErrorState, Rc<Annotations>)>,
) -> Option<Result<Policy, AllocError>>
    ensures { TakesPolicy (false_rows (effect_view effect) entries.old) result
        (false_rows (effect_view effect) entries.new) }
{
    let (id, entry) = entries.next()?;
    Some(policy_of_truth(alloc, effect, false, id, &entry.1))
}

fn next_residual(
    alloc: Global,
    effect: Effect,
    entries: &mut Iter<'_, PolicyID, (Rc<Expr>, Rc<Annotations>)>,
) -> Option<Result<Policy, AllocError>>
    ensures { TakesPolicy (residual_rows (effect_view effect) entries.old) result
        (residual_rows (effect_view effect) entries.new) }
{
    let (id, entry) = entries.next()?;
    Some(policy_of_residual(alloc, effect, &entry.0, id, &entry.1))
}

// Which of the six maps are walked.
#[derive(Clone, Copy)]
struct Kinds {
    true_permits: bool,
    false_permits: bool,
    residual_permits: bool,
    true_forbids: bool,
    false_forbids: bool,
    residual_forbids: bool,
}

const NONE: Kinds = Kinds {
    true_permits: false,
    false_permits: false,
    residual_permits: false,
    true_forbids: false,
    false_forbids: false,
    residual_forbids: false,
};

impl PartialResponse {
    /// Every policy, permits first: the satisfied ones, those that are not satisfied, and the residual ones.
    pub fn all_residuals(&self) -> ReportedPolicies<'_>
        ensures policies { policies_left result ≡ all_residuals (rows_view self.now) }
        ensures located { AreAmong (left result) (located_view self.now) }
    {
        self.choose_policies(Kinds {
            true_permits: true,
            false_permits: true,
            residual_permits: true,
            true_forbids: true,
            false_forbids: true,
            residual_forbids: true,
        })
    }

    /// The satisfied policies.
    pub fn definitely_satisfied(&self) -> ReportedPolicies<'_>
        ensures policies { policies_left result ≡ reports.definitely_satisfied (rows_view self.now) }
        ensures located { AreAmong (left result) (located_view self.now) }
    {
        self.choose_policies(Kinds {
            true_permits: true,
            true_forbids: true,
            ..NONE
        })
    }

    /// The policies of which a residual is left.
    pub fn nontrivial_residuals(&self) -> ReportedPolicies<'_>
        ensures policies { policies_left result ≡ reports.nontrivial_residuals (rows_view self.now) }
        ensures located { AreAmong (left result) (located_view self.now) }
    {
        self.choose_policies(Kinds {
            residual_permits: true,
            residual_forbids: true,
            ..NONE
        })
    }

    /// The forbids of which a residual is left.
    pub fn nontrivial_forbids(&self) -> ReportedPolicies<'_>
        ensures policies { policies_left result ≡ reports.nontrivial_forbids (rows_view self.now) }
        ensures located { AreAmong (left result) (located_view self.now) }
    {
        self.choose_policies(Kinds {
            residual_forbids: true,
            ..NONE
        })
    }

    /// The policies that determine the decision whatever the unknowns are: the satisfied permits where no forbid is
    /// satisfied or residual, else the satisfied forbids. In every world in which what is reported stands, each of them
    /// is a reason.
    pub fn must_be_determining(&self) -> ReportedPolicies<'_>
        ensures policies { policies_left result ≡ reports.must_be_determining (rows_view self.now) }
        ensures located { AreAmong (left result) (located_view self.now) }
        ensures reasons { AreReasonsOf (rows_view self.now) (rows_left result) }
    {
        if self.may_forbid() {
            self.choose_policies(Kinds {
                true_forbids: true,
                ..NONE
            })
        } else {
            self.choose_policies(Kinds {
                true_permits: true,
                ..NONE
            })
        }
    }

    /// The policies that may determine the decision: with a satisfied forbid, the satisfied and the residual forbids;
    /// else the satisfied and the residual permits and the residual forbids. In every world in which what is reported
    /// stands, each reason is one of them.
    pub fn may_be_determining(&self) -> ReportedPolicies<'_>
        ensures policies { policies_left result ≡ reports.may_be_determining (rows_view self.now) }
        ensures located { AreAmong (left result) (located_view self.now) }
        ensures reasons { HoldReasonsOf (rows_view self.now) (rows_left result) }
    {
        if self.has_true_forbid() {
            self.choose_policies(Kinds {
                true_forbids: true,
                residual_forbids: true,
                ..NONE
            })
        } else {
            self.choose_policies(Kinds {
                true_permits: true,
                residual_permits: true,
                residual_forbids: true,
                ..NONE
            })
        }
    }

    fn choose_policies(&self, kinds: Kinds) -> ReportedPolicies<'_>
        ensures rows { rows_left result ≡ of_kinds kinds (rows_view self.now) }
        ensures located { AreAmong (left result) (located_view self.now) }
    {
        ReportedPolicies {
            alloc: *self.satisfied_permits.allocator(),
            true_permits: entries_if(kinds.true_permits, &self.satisfied_permits),
            false_permits: entries_if(kinds.false_permits, &self.false_permits),
            residual_permits: entries_if(kinds.residual_permits, &self.residual_permits),
            true_forbids: entries_if(kinds.true_forbids, &self.satisfied_forbids),
            false_forbids: entries_if(kinds.false_forbids, &self.false_forbids),
            residual_forbids: entries_if(kinds.residual_forbids, &self.residual_forbids),
        }
    }
}

// The entries, or none.
fn entries_if<'a, V>(is_walked: bool, entries: &'a IndexMap<PolicyID, V>) -> Iter<'a, PolicyID, V>
    ensures { result ≡ cond is_walked entries.now.entries [] }
{
    if is_walked {
        entries.iter()
    } else {
        Slice::new().iter()
    }
}

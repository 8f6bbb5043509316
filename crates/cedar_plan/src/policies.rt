//! The policies of one effect, as a plan has them, and how they stand at a row.
ghost use Rattle.std.specs.Prelude.{◌≡◌, ◌||◌};
ghost use Rattle.cedar_layers.specs.Stores.{entity_name, entity_view};
ghost use Rattle.cedar_plan.specs.Planned.{row_policies_view, satisfied_in, residuals_in, some_of};
ghost use Rattle.cedar_plan.specs.Told.{is_counted, is_untold, some_counts, some_untold};

use crate::conditions::{RowCondition, counts_at};
use cedar_layers::policies::{Entity, PolicyID};

/// A residual policy, and what it asks of a row.
#[derive(Drop)]
pub struct RowPolicy {
    /// The policy.
    pub id: PolicyID,
    /// What it asks.
    pub condition: RowCondition,
}

/// The policies of one effect that are satisfied or may be, in the response's order.
#[derive(Drop)]
pub struct PlannedPolicies {
    satisfied: Vec<PolicyID>,
    residuals: Vec<RowPolicy>,
}

// Whether one of the policies counts as satisfied at a row, and whether of one the row does not tell that.
#[derive(Clone, Copy)]
pub(crate) struct Standing {
    pub(crate) counts: bool,
    pub(crate) is_open: bool,
}

impl PlannedPolicies {
    pub(crate) fn new(satisfied: Vec<PolicyID>, residuals: Vec<RowPolicy>) -> PlannedPolicies
        ensures satisfied { satisfied_in result ≡ satisfied.items }
        ensures residuals { residuals_in result ≡ residuals.items }
    {
        PlannedPolicies {
            satisfied,
            residuals,
        }
    }

    /// Those that are satisfied, whatever the row is.
    pub fn satisfied(&self) -> &[PolicyID]
        ensures { result.now ≡ satisfied_in self.now }
    {
        &self.satisfied
    }

    /// Those of which a residual is left, each with what it asks of a row.
    pub fn residuals(&self) -> &[RowPolicy]
        ensures { result.now ≡ residuals_in self.now }
    {
        &self.residuals
    }

    // Whether one is satisfied, whatever the row is.
    pub(crate) fn is_satisfied(&self) -> bool
        ensures { result ≡ some_of (satisfied_in self.now) }
    {
        is_some_of(&self.satisfied)
    }

    // Whether a residual is left of one.
    pub(crate) fn is_residual(&self) -> bool
        ensures { result ≡ some_of (residuals_in self.now) }
    {
        is_some_of(&self.residuals)
    }

    // How they stand at this row, where one that errs counts as satisfied or not.
    pub(crate) fn standing(&self, entity: &Entity, errs_count: bool) -> Standing
        ensures counts { result.counts ≡ (some_of (satisfied_in self.now)
            || some_counts errs_count (entity_name entity.now) (entity_view entity.now)
            (row_policies_view (residuals_in self.now))) }
        ensures untold { result.is_open ≡ some_untold errs_count (entity_name entity.now) (entity_view entity.now)
            (row_policies_view (residuals_in self.now)) }
    {
        let standing = standing_of(&self.residuals, entity, errs_count);
        Standing {
            counts: self.is_satisfied() || standing.counts,
            is_open: standing.is_open,
        }
    }
}

#[tactic(auto, unfolding(crate::specs::Planned::some_of))]
fn is_some_of<T>(items: &[T]) -> bool
    ensures { result ≡ some_of items.now }
{
    match items.first() {
        Some(_) => true,
        None => false,
    }
}

// How these policies stand at the row.
fn standing_of(policies: &[RowPolicy], entity: &Entity, errs_count: bool) -> Standing
    ensures counts { result.counts ≡ some_counts errs_count (entity_name entity.now) (entity_view entity.now)
        (row_policies_view policies.now) }
    ensures untold { result.is_open ≡ some_untold errs_count (entity_name entity.now) (entity_view entity.now)
        (row_policies_view policies.now) }
{
    let mut standing = Standing {
        counts: false,
        is_open: false,
    };
    'policies: for policy in policies {
        standing = joined(standing, counts_at(&policy.condition, entity, errs_count));
    }
    standing
}

// With one policy more.
fn joined(standing: Standing, counted: Option<bool>) -> Standing
    ensures counts { result.counts ≡ (is_counted counted || standing.counts) }
    ensures untold { result.is_open ≡ (is_untold counted || standing.is_open) }
{
    match counted {
        Some(counts) => Standing {
            counts: counts || standing.counts,
            is_open: standing.is_open,
        },
        None => Standing {
            counts: standing.counts,
            is_open: true,
        },
    }
}

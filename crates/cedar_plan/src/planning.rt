//! How a plan is made of a response, and why there is none.
ghost use Rattle.std.specs.Prelude.{◌≡◌, [], ◌∷◌, ◌++◌, IfOk, OnOk, option_map};
ghost use Rattle.std.specs.Rc.{rc_str_bytes};
ghost use Rattle.cedar_model.specs.Chains.{is_limit, has_limit};
ghost use Rattle.cedar_model.specs.Failures.{failure_kind};
ghost use Rattle.cedar_names.specs.Leaves.{type_view};
ghost use Rattle.cedar_expressions.specs.View.{view};
ghost use Rattle.cedar_layers.specs.Policies.{policy_id_text};
ghost use Rattle.cedar_authorizer.specs.responses.Responses.{error_view, errors_view};
ghost use Rattle.cedar_filter.specs.Filters.{row_term};
ghost use Rattle.cedar_plan.specs.Planned.{planned, row_policy_view, row_policies_view, ids_view, satisfied_in};
ghost use Rattle.cedar_plan.specs.Planned.{residuals_in};
ghost use Rattle.cedar_plan.specs.Entries.{true_ids, planned_entries};

use crate::conditions::condition_of;
use crate::policies::{PlannedPolicies, RowPolicy};
use cedar_authorizer::authorizer::AuthorizationError;
use cedar_expressions::Expr;
use cedar_fallible::{add_last, pair_of};
use cedar_layers::policies::{Annotations, PolicyID};
use cedar_names::Unknown;
use indexmap::IndexMap;
use std::alloc::{AllocError, Global};
use std::rc::Rc;

/// Why there is no plan.
#[derive(Clone, Copy, Debug, PartialEq, Eq)]
pub enum NoPlan {
    /// The recursion limit is among the response's errors: a policy that met it is not known to be false.
    RecursionLimit,
    /// Out of memory.
    Memory,
}

// The policies of an effect, of those that are satisfied and those of which a residual is left.
pub(crate) fn planned_policies(
    alloc: Global,
    satisfied: &IndexMap<PolicyID, Rc<Annotations>>,
    residuals: &IndexMap<PolicyID, (Rc<Expr>, Rc<Annotations>)>,
    row: &Unknown,
) -> Result<PlannedPolicies, AllocError>
    ensures satisfied { IfOk result (λ p. ids_view (satisfied_in p) ≡ true_ids satisfied.now.entries) }
    ensures residuals { IfOk result (λ p. row_policies_view (residuals_in p)
        ≡ planned_entries (rc_str_bytes row.now.name) (option_map type_view row.now.type_annotation)
        residuals.now.entries) }
{
    let ids = ids_of(alloc, satisfied);
    let (ids, policies) = pair_of(ids, row_policies(alloc, residuals, row))?;
    Ok(PlannedPolicies::new(ids, policies))
}

fn ids_of(
    alloc: Global,
    entries: &IndexMap<PolicyID, Rc<Annotations>>,
) -> Result<Vec<PolicyID>, AllocError>
    ensures { IfOk result (λ v. ids_view v.items ≡ true_ids entries.now.entries) }
{
    let mut ids = Vec::new(alloc);
    add_ids(&mut ids, entries)?;
    Ok(ids)
}

fn add_ids(
    ids: &mut Vec<PolicyID>,
    entries: &IndexMap<PolicyID, Rc<Annotations>>,
) -> Result<(), AllocError>
    ensures { OnOk result (ids_view ids.new.items ≡ ids_view ids.old.items ++ true_ids entries.now.entries) }
{
    'entries: for (id, _) in entries {
        add_id(ids, id)?;
    }
    Ok(())
}

fn add_id(ids: &mut Vec<PolicyID>, id: &PolicyID) -> Result<(), AllocError>
    ensures { OnOk result (ids_view ids.new.items ≡ ids_view ids.old.items ++ (policy_id_text id.now ∷ [])) }
{
    let id = id.clone()?;
    add_last(ids, id)
}

fn row_policies(
    alloc: Global,
    entries: &IndexMap<PolicyID, (Rc<Expr>, Rc<Annotations>)>,
    row: &Unknown,
) -> Result<Vec<RowPolicy>, AllocError>
    ensures { IfOk result (λ v. row_policies_view v.items
        ≡ planned_entries (rc_str_bytes row.now.name) (option_map type_view row.now.type_annotation)
        entries.now.entries) }
{
    let mut policies = Vec::new(alloc);
    add_policies(alloc, &mut policies, entries, row)?;
    Ok(policies)
}

fn add_policies(
    alloc: Global,
    policies: &mut Vec<RowPolicy>,
    entries: &IndexMap<PolicyID, (Rc<Expr>, Rc<Annotations>)>,
    row: &Unknown,
) -> Result<(), AllocError>
    ensures { OnOk result (row_policies_view policies.new.items ≡ row_policies_view policies.old.items
        ++ planned_entries (rc_str_bytes row.now.name) (option_map type_view row.now.type_annotation)
        entries.now.entries) }
{
    'entries: for (id, entry) in entries {
        add_policy(alloc, policies, id, &entry.0, row)?;
    }
    Ok(())
}

fn add_policy(
    alloc: Global,
    policies: &mut Vec<RowPolicy>,
    id: &PolicyID,
    residual: &Expr,
    row: &Unknown,
) -> Result<(), AllocError>
    ensures { OnOk result (row_policies_view policies.new.items ≡ row_policies_view policies.old.items
        ++ ((
          policy_id_text id.now,
          planned (rc_str_bytes row.now.name)
              (option_map type_view row.now.type_annotation) (view residual.now),
        ) ∷ [])) }
{
    let policy = row_policy(alloc, id, residual, row)?;
    add_last(policies, policy)
}

fn row_policy(
    alloc: Global,
    id: &PolicyID,
    residual: &Expr,
    row: &Unknown,
) -> Result<RowPolicy, AllocError>
    ensures { IfOk result (λ p. row_policy_view p ≡ (
      policy_id_text id.now,
      planned (rc_str_bytes row.now.name)
          (option_map type_view row.now.type_annotation) (view residual.now),
    )) }
{
    let (id, condition) = pair_of(id.clone(), condition_of(alloc, residual, row))?;
    Ok(RowPolicy { id, condition })
}

pub(crate) fn copied_row(row: &Unknown) -> Result<Unknown, AllocError>
    ensures { IfOk result (λ u. row_term u ≡ row_term row.now) }
{
    Ok(row.clone()?)
}

pub(crate) fn copied_errors(
    errors: &Vec<AuthorizationError>,
) -> Result<Vec<AuthorizationError>, AllocError>
    ensures { IfOk result (λ es. errors_view es.items ≡ errors_view errors.now.items) }
{
    errors.clone()
}

// Whether the recursion limit is among these errors.
pub(crate) fn has_limit(errors: &[AuthorizationError]) -> bool
    ensures { result ≡ has_limit (errors_view errors.now) }
{
    'errors: for error in errors {
        if is_recursion_limit(error) {
            return true;
        }
    }
    false
}

fn is_recursion_limit(error: &AuthorizationError) -> bool
    ensures { result ≡ is_limit (failure_kind (error_view error.now).1) }
{
    let AuthorizationError::PolicyEvaluationError { id: _, error } = error;
    error.is_recursion_limit()
}

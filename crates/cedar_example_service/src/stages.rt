//! A decision in two stages: what is to be done with what is known at first, and who asks only then.
ghost use Rattle.std.specs.Prelude.{◌≡◌, ◌↔◌, [], ◌∷◌, Some, IfOk, IfSome};
ghost use Rattle.std.specs.Rc.{rc_str_bytes};
ghost use Rattle.cedar_policy_core.specs.Model.Terms.{entity_literal};
ghost use Rattle.cedar_policy_core.specs.Model.Policies.{allow};
ghost use Rattle.cedar_policy_core.specs.Model.Responses.{truth};
ghost use Rattle.cedar_policy_core.specs.Model.Reports.{given_decision};
ghost use Rattle.cedar_policy_core.specs.Authorizer.Decisions.{decision_view};
ghost use Rattle.cedar_policy_core.specs.Ast.Leaves.{literal_view};
ghost use Rattle.cedar_policy_core.specs.Ast.Names.{uid_name};
ghost use Rattle.cedar_policy_core.specs.Ast.View.{view};
ghost use Rattle.cedar_policy_core.specs.Ast.Policies.{policy_view};
ghost use Rattle.cedar_policy_core.specs.Ast.PolicySets.{policies_view};
ghost use Rattle.cedar_policy_core.specs.Ast.Requests.{request_view};
ghost use Rattle.cedar_policy_core.specs.Ast.Substitutions.{values_for};
ghost use Rattle.cedar_policy_core.specs.Authorizer.Rows.{rows_view};
ghost use Rattle.cedar_policy_core.specs.Authorizer.Configured.{configuration, resolution_of, asked};
ghost use Rattle.cedar_policy_core.specs.Authorizer.Headline.{steps_view};
ghost use Rattle.cedar_policy_core.specs.Authorizer.Responding.{considered};
ghost use Rattle.cedar_policy_core.specs.Authorizer.Running.{errors_of};
ghost use Rattle.cedar_example_service.specs.Stages.{principal_is, owner_may, from_someone, one_value, values_of};
ghost use Rattle.cedar_example_service.specs.Stages.{IsDecidedIn, IsDecidedFor, IsForOwner};

use crate::stop::Stop;
use cedar_policy_core::ast::{
    Annotations, BinaryOp, Context, Effect, EntityUID, EntityUIDEntry, Expr, Literal, Policy,
    PolicyID, PolicySet, Request, SlotEnv, Value, Var,
};
use cedar_policy_core::authorizer::laws::nothing_is_owed_of_functions;
use cedar_policy_core::authorizer::{Authorizer, Decision, PartialResponse};
use cedar_policy_core::entities::Entities;
use cedar_policy_core::extensions::Extensions;
use std::alloc::{AllocError, Global};
use std::collections::HashMap;
use std::rc::{Rc, RcStr};

/// How many levels deep the condition is evaluated.
const LIMIT: usize = 100;

/// What is decided by a policy that permits the owner alone, for a request of someone, once it is known that this user
/// asks. A decision that is given allows exactly the owner; none is given where an error was recorded, or where none is
/// known. Refuses where the response is not taken further, or if out of memory.
pub fn decided_in_stages(
    alloc: Global,
    owner: &EntityUID,
    user: &EntityUID,
    action: &EntityUID,
    resource: &EntityUID,
) -> Result<Option<Decision>, Stop>
    ensures { IfOk result (λ o. IfSome o (λ d. (decision_view d ≡ allow) ↔ (uid_name user.now ≡ uid_name owner.now))) }
{
    let policies = owner_alone(alloc, owner)?;
    let decision = decided_for(alloc, &policies, user, action, resource);
    drop(policies);
    decision
}

// The set of the owner's policy.
fn owner_alone(alloc: Global, owner: &EntityUID) -> Result<PolicySet, Stop>
    ensures { IfOk result (λ s. policies_view s ≡ owner_may (uid_name owner.now) ∷ []) }
{
    let policies = vec![in alloc; owner_may(alloc, owner)?]?;
    Ok(PolicySet::try_from_iter(alloc, policies)?)
}

// permit(principal == OWNER, action, resource);
fn owner_may(alloc: Global, owner: &EntityUID) -> Result<Policy, AllocError>
    ensures { IfOk result (λ p. policy_view p ≡ owner_may (uid_name owner.now)) }
{
    let id = PolicyID::from_string(RcStr::from_str(alloc, "owner")?);
    let principal = principal_is(alloc, owner)?;
    let slots = SlotEnv::new(alloc);
    Policy::new(
        alloc,
        Effect::Permit,
        id,
        Annotations::new(alloc),
        principal,
        any(),
        any(),
        any(),
        slots,
    )
}

// principal == UID
fn principal_is(alloc: Global, uid: &EntityUID) -> Result<Expr, AllocError>
    ensures { IfOk result (λ e. view e ≡ principal_is (uid_name uid.now)) }
{
    let entity = Expr::val(entity(alloc, uid)?);
    Expr::binary_app(alloc, BinaryOp::Eq, Expr::var(Var::Principal), entity)
}

// true
fn any() -> Expr
    ensures { view result ≡ truth }
{
    Expr::val(Literal::Bool(true))
}

// The entity, as a literal.
fn entity(alloc: Global, uid: &EntityUID) -> Result<Literal, AllocError>
    ensures { IfOk result (λ l. literal_view l ≡ entity_literal (uid_name uid.now)) }
{
    Ok(Literal::EntityUID(Rc::new(alloc, uid.clone()?)?))
}

// What these policies decide once it is known that this user asks.
fn decided_for(
    alloc: Global,
    policies: &PolicySet,
    user: &EntityUID,
    action: &EntityUID,
    resource: &EntityUID,
) -> Result<Option<Decision>, Stop>
    ensures { IfOk result (λ o. IfSome o (λ d.
        IsForOwner (policies_view policies.now) (uid_name user.now) (decision_view d))) }
{
    let values = values_of(alloc, user)?;
    let decision = decided_with(alloc, policies, &values, action, resource);
    drop(values);
    decision
}

// The values for unknowns by which the principal is this user.
fn values_of(alloc: Global, user: &EntityUID) -> Result<HashMap<RcStr, Value>, AllocError>
    ensures { IfOk result (λ m. values_for m.entries ≡ values_of (uid_name user.now)) }
{
    let name = RcStr::from_str(alloc, "principal")?;
    let value = Value::from(entity(alloc, user)?);
    one_value(alloc, name, value)
}

// The one value for the unknown of this name.
fn one_value(alloc: Global, name: RcStr, value: Value) -> Result<HashMap<RcStr, Value>, AllocError>
    ensures { IfOk result (λ m. values_for m.entries ≡ one_value (rc_str_bytes name) value.what) }
{
    let mut values: HashMap<RcStr, Value> = HashMap::new(alloc);
    values.insert(name, value)?;
    Ok(values)
}

// What these policies decide, after the step by these values, for the request of someone, with no entities and the
// standard functions.
fn decided_with(
    alloc: Global,
    policies: &PolicySet,
    values: &HashMap<RcStr, Value>,
    action: &EntityUID,
    resource: &EntityUID,
) -> Result<Option<Decision>, Stop>
    ensures { IfOk result (λ o. IfSome o (λ d.
        IsDecidedFor (policies_view policies.now) (values_for values.now.entries) (decision_view d))) }
{
    let request = from_someone(alloc, action, resource)?;
    let extensions = Extensions::all_available();
    nothing_is_owed_of_functions(&extensions);
    let authorizer = Authorizer::new(&extensions, LIMIT);
    let none = Entities::new(alloc);
    let decision = decided_after(
        alloc,
        &authorizer,
        request,
        policies,
        &none,
        &[(values, &none)],
    );
    drop(none);
    decision
}

// Someone asks to do this with that, in a context with no attribute.
fn from_someone(
    alloc: Global,
    action: &EntityUID,
    resource: &EntityUID,
) -> Result<Request, AllocError>
    ensures { IfOk result (λ r. request_view r ≡ from_someone (uid_name action.now) (uid_name resource.now)) }
{
    let action = EntityUIDEntry::known(action.clone()?, None);
    let resource = EntityUIDEntry::known(resource.clone()?, None);
    let someone = EntityUIDEntry::unknown();
    Ok(Request::new_with_unknowns(someone, action, resource, Some(Context::empty(alloc))))
}

// The decision after these steps, where it is known and no error was recorded: that of the policies in every
// completion.
fn decided_after(
    alloc: Global,
    authorizer: &Authorizer<'_>,
    request: Request,
    policies: &PolicySet,
    entities: &Entities,
    steps: &[(&HashMap<RcStr, Value>, &Entities)],
) -> Result<Option<Decision>, Stop>
    ensures { IfOk result (λ o. IfSome o (λ d. IsDecidedIn (configuration authorizer.now)
        (asked authorizer.now request entities.now) (considered policies.now)
        (steps_view (resolution_of authorizer.now) steps.now) (decision_view d))) }
{
    match authorizer.authorize_in_steps(alloc, request, policies, entities, steps) {
        Ok(response) => {
            let decision = without_errors(&response);
            drop(response);
            Ok(decision)
        }
        Err(error) => Err(Stop::from(error)),
    }
}

// The decision, where it is known and no error is recorded.
fn without_errors(response: &PartialResponse) -> Option<Decision>
    ensures errors { IfSome result (λ d. errors_of response.now ≡ []) }
    ensures given { IfSome result (λ d. given_decision (rows_view response.now) ≡ Some (decision_view d)) }
{
    if response.errors.is_empty() {
        response.decision()
    } else {
        None
    }
}

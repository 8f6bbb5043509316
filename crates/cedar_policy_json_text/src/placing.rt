#![tactic(auto, using(cedar_expressions::proofs::Levels::levels))]
//! Linked policies with their entities in place of slots.
ghost use Rattle.std.specs.Prelude.{◌≡◌, option_map, IfOk};
ghost use Rattle.cedar_names.specs.Leaves.{slot_view};
ghost use Rattle.cedar_names.specs.Names.{uid_name};
ghost use Rattle.cedar_expressions.specs.View.{view};
ghost use Rattle.cedar_layers.specs.Policies.{policy_view, slots_view, annotations_view};
ghost use Rattle.cedar_policy_json_text.specs.Placed as placing;

use cedar_expressions::{Expr, ExprKind};
use cedar_layers::policies::{Annotations, Policy, PolicyID};
use cedar_names::{EntityUID, Literal, SlotEnv, SlotId};
use std::alloc::{AllocError, Global};
use std::rc::Rc;

/// The policy without slots and annotations: with the entities of its slots in their places.
pub(crate) fn placed_policy(alloc: Global, policy: &Policy) -> Result<Policy, AllocError>
    ensures { IfOk result (λ p. policy_view p ≡ placing.placed_view (policy_view policy.now)) }
{
    placed_with(alloc, policy, Annotations::new(alloc))
}

/// The same with these annotations.
pub(crate) fn placed_with(
    alloc: Global,
    policy: &Policy,
    annotations: Annotations,
) -> Result<Policy, AllocError>
    ensures { IfOk result (λ p. policy_view p
        ≡ placing.placed_with (annotations_view annotations) (policy_view policy.now)) }
{
    let id: PolicyID = policy.id().clone()?;
    let (principal, resource) = placed_pair(alloc, policy)?;
    let (action, when) = copied_pair(policy)?;
    let effect = policy.effect();
    let env = SlotEnv::new(alloc);
    Policy::new(
        alloc,
        effect,
        id,
        annotations,
        principal,
        action,
        resource,
        when,
        env,
    )
}

// The constraints in which slots may stand.
fn placed_pair(alloc: Global, policy: &Policy) -> Result<(Expr, Expr), AllocError>
    ensures principal { IfOk result (λ p. view p.0
        ≡ placing.placed (policy_view policy.now).slots (policy_view policy.now).principal_constraint) }
    ensures resource { IfOk result (λ p. view p.1
        ≡ placing.placed (policy_view policy.now).slots (policy_view policy.now).resource_constraint) }
{
    let principal = placed(alloc, policy.env(), policy.principal_constraint())?;
    let resource = placed(alloc, policy.env(), policy.resource_constraint())?;
    Ok((principal, resource))
}

// The other two parts of the condition.
fn copied_pair(policy: &Policy) -> Result<(Expr, Expr), AllocError>
    ensures action { IfOk result (λ p. view p.0 ≡ (policy_view policy.now).action_constraint) }
    ensures when { IfOk result (λ p. view p.1 ≡ (policy_view policy.now).when_clause) }
{
    let action = copied(policy.action_constraint())?;
    let when = copied(policy.when_clause())?;
    Ok((action, when))
}

fn copied(expr: &Expr) -> Result<Expr, AllocError>
    ensures { IfOk result (λ e. view e ≡ view expr.now) }
{
    Ok(expr.clone()?)
}

// The constraint with the entities in place of its slots.
fn placed(alloc: Global, slots: &SlotEnv, constraint: &Expr) -> Result<Expr, AllocError>
    ensures { IfOk result (λ e. view e ≡ placing.placed (slots_view slots.now) (view constraint.now)) }
{
    match constraint.expr_kind() {
        ExprKind::Slot(slot) => placed_slot(alloc, *slot, slots.get(slot)),
        ExprKind::And { left, right } => {
            let right = placed(alloc, slots, right)?;
            let left = copied(left)?;
            Expr::and(alloc, left, right)
        }
        ExprKind::BinaryApp { op, arg1, arg2 } => {
            let right = placed(alloc, slots, arg2)?;
            let left = copied(arg1)?;
            Expr::binary_app(alloc, *op, left, right)
        }
        ExprKind::Lit(_) => copied(constraint),
        ExprKind::Var(_) => copied(constraint),
        ExprKind::Unknown(_) => copied(constraint),
        ExprKind::If { .. } => copied(constraint),
        ExprKind::Or { .. } => copied(constraint),
        ExprKind::UnaryApp { .. } => copied(constraint),
        ExprKind::ExtensionFunctionApp { .. } => copied(constraint),
        ExprKind::GetAttr { .. } => copied(constraint),
        ExprKind::HasAttr { .. } => copied(constraint),
        ExprKind::ExtHasAttr { .. } => copied(constraint),
        ExprKind::Like { .. } => copied(constraint),
        ExprKind::Is { .. } => copied(constraint),
        ExprKind::Set(_) => copied(constraint),
        ExprKind::Record(_) => copied(constraint),
    }
}

fn placed_slot(alloc: Global, slot: SlotId, entity: Option<&EntityUID>) -> Result<Expr, AllocError>
    ensures { IfOk result
        (λ e. view e ≡ placing.placed_slot (slot_view slot) (option_map (λ u. uid_name u.now) entity.entry)) }
{
    match entity {
        Some(uid) => {
            let uid: EntityUID = uid.clone()?;
            let uid = Rc::new(alloc, uid)?;
            Ok(Expr::val(Literal::EntityUID(uid)))
        }
        None => Ok(Expr::slot(slot)),
    }
}

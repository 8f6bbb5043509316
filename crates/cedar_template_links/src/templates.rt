#![tactic(auto, using(cedar_expressions::proofs::Levels::levels))]
//! Which slots a template has, which template has an id, and which ids are taken.
ghost use Rattle.std.specs.Prelude.{◌≡◌, ◌||◌, map, option_map, Some, None};
ghost use Rattle.cedar_names.specs.Leaves.{slot_view};
ghost use Rattle.cedar_expressions.specs.View.{view};
ghost use Rattle.cedar_layers.specs.Policies.{policy_view, policy_id_text};
ghost use Rattle.cedar_template_links.specs.Linking as linking;

use cedar_expressions::{Expr, ExprKind};
use cedar_layers::policies::{Policy, PolicyID};
use cedar_names::SlotId;

/// Whether the template has `?principal` in its scope.
pub(crate) fn has_principal_slot(template: &Policy) -> bool
    ensures { result ≡ linking.has_principal_slot (policy_view template.now) }
{
    has_slot(SlotId::Principal, template.principal_constraint())
}

/// Whether the template has `?resource` in its scope.
pub(crate) fn has_resource_slot(template: &Policy) -> bool
    ensures { result ≡ linking.has_resource_slot (policy_view template.now) }
{
    has_slot(SlotId::Resource, template.resource_constraint())
}

fn has_slot(slot: SlotId, constraint: &Expr) -> bool
    ensures { result ≡ linking.has_slot (slot_view slot) (view constraint.now) }
{
    match constraint.expr_kind() {
        ExprKind::Slot(other) => is_slot(slot, *other),
        ExprKind::And { left: _, right } => has_slot(slot, right),
        ExprKind::BinaryApp {
            op: _,
            arg1: _,
            arg2,
        } => has_slot(slot, arg2),
        ExprKind::Lit(_) => false,
        ExprKind::Var(_) => false,
        ExprKind::Unknown(_) => false,
        ExprKind::If { .. } => false,
        ExprKind::Or { .. } => false,
        ExprKind::UnaryApp { .. } => false,
        ExprKind::ExtensionFunctionApp { .. } => false,
        ExprKind::GetAttr { .. } => false,
        ExprKind::HasAttr { .. } => false,
        ExprKind::ExtHasAttr { .. } => false,
        ExprKind::Like { .. } => false,
        ExprKind::Is { .. } => false,
        ExprKind::Set(_) => false,
        ExprKind::Record(_) => false,
    }
}

fn is_slot(first: SlotId, second: SlotId) -> bool
    ensures { result ≡ linking.same_slot (slot_view first) (slot_view second) }
{
    match first {
        SlotId::Principal => match second {
            SlotId::Principal => true,
            SlotId::Resource => false,
        },
        SlotId::Resource => match second {
            SlotId::Principal => false,
            SlotId::Resource => true,
        },
    }
}

/// The first template of this id.
pub(crate) fn find_template<'a>(id: &PolicyID, templates: &'a [Policy]) -> Option<&'a Policy>
    ensures { option_map (λ t. policy_view t.now) result
        ≡ linking.find_template (policy_id_text id.now) (map policy_view templates.now) }
{
    'templates: for template in templates {
        if id == template.id() {
            return Some(template);
        }
    }
    None
}

/// Whether one of the policies, of the templates, or of the others has the id.
pub(crate) fn is_taken(
    id: &PolicyID,
    policies: &[Policy],
    templates: &[Policy],
    others: &[Policy],
) -> bool
    ensures { result ≡ (linking.has_id (policy_id_text id.now) (map policy_view policies.now)
        || (linking.has_id (policy_id_text id.now) (map policy_view templates.now)
        || linking.has_id (policy_id_text id.now) (map policy_view others.now))) }
{
    has_id(policies, id) || (has_id(templates, id) || has_id(others, id))
}

/// Whether one of the policies has the id.
pub fn has_id(policies: &[Policy], id: &PolicyID) -> bool
    ensures { result ≡ linking.has_id (policy_id_text id.now) (map policy_view policies.now) }
{
    'policies: for policy in policies {
        if id == policy.id() {
            return true;
        }
    }
    false
}

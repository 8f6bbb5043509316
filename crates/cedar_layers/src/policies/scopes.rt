#![tactic(auto, using(cedar_expressions::proofs::Levels::levels))]
//! What the scope of a policy asks for: entities, one of which principal, action or resource must be or be in, or a type
//! that one of the three must be of.
ghost use Rattle.std.specs.Prelude.{◌≡◌, ◌||◌, ◌&&◌, true, cond, None, Some, IfOk, MatchOption, option_map};
ghost use Rattle.cedar_model.specs.Terms.{Term, variable, literal};
ghost use Rattle.cedar_names.specs.Leaves.{binary_view, variable_view, literal_view};
ghost use Rattle.cedar_names.specs.Names.{type_text, uid_name};
ghost use Rattle.cedar_expressions.specs.View.{view, terms_view};
ghost use Rattle.cedar_layers.specs.Policies.{policy_view, slots_view};
ghost use Rattle.cedar_layers.specs.Scopes.{is_entity_variable, literal_entity, is_truth, is_type_test, asked_type};
ghost use Rattle.cedar_layers.specs.Scopes.{named_entity, listed_entities, place_entities, sought_entities};
ghost use Rattle.cedar_layers.specs.Scopes.{compared_entities, asked_entities, IsBoundTo, names_at, names_found, only};
ghost use Rattle.cedar_layers.specs.Scopes.{resource_or_action, asks_for_no_entity, asks_for_no_type, IsBoundToType};
ghost use Rattle.cedar_layers.specs.Scopes.{type_found, first_type};

use super::kinds::{as_and, as_binary, as_is, as_set, as_slot};
use super::policy::Policy;
use cedar_expressions::Expr;
use cedar_names::{BinaryOp, EntityType, EntityUID, Literal, SlotEnv, Var};
use std::alloc::{AllocError, Global};

impl Policy {
    /// The actions that the scope names, in its order: the one of `action == a` or of `action in a`, and each of
    /// `action in [a, b]`. None where it asks for no action. Refuses only if out of memory.
    pub fn named_actions(&self, alloc: Global) -> Result<Option<Vec<&EntityUID>>, AllocError>
        ensures { IfOk result (λ o.
            names_found o ≡ asked_entities (policy_view self.now).slots (policy_view self.now).action_constraint) }
    {
        asked_entities(alloc, self.env(), self.action_constraint())
    }
}

// The entities, one of which the policy's scope asks for: as the principal, or else as the resource, or else as the
// action. None, where it asks for none. Refuses only if out of memory.
pub(super) fn bound_to(
    alloc: Global,
    policy: &Policy,
) -> Result<Option<Vec<&EntityUID>>, AllocError>
    ensures { IfOk result (λ o. MatchOption o (asks_for_no_entity (policy_view policy.now) ≡ true)
        (λ v. IsBoundTo (policy_view policy.now) (names_at v.items))) }
{
    let principal = asked_entities(alloc, policy.env(), policy.principal_constraint())?;
    match principal {
        Some(uids) => Ok(Some(uids)),
        None => {
            if is_boolean(policy.principal_constraint()) {
                bound_for_any_principal(alloc, policy)
            } else {
                Ok(None)
            }
        }
    }
}

// The same where the constraint on the principal is a boolean and asks for no entity.
fn bound_for_any_principal(
    alloc: Global,
    policy: &Policy,
) -> Result<Option<Vec<&EntityUID>>, AllocError>
    requires none { asked_entities (policy_view policy.now).slots (policy_view policy.now).principal_constraint ≡ None }
    requires told { (is_truth (policy_view policy.now).principal_constraint
        || is_type_test (policy_view policy.now).principal_constraint) ≡ true }
    ensures { IfOk result (λ o. MatchOption o (asks_for_no_entity (policy_view policy.now) ≡ true)
        (λ v. IsBoundTo (policy_view policy.now) (names_at v.items))) }
{
    let action = asked_entities(alloc, policy.env(), policy.action_constraint())?;
    let resource = asked_entities(alloc, policy.env(), policy.resource_constraint())?;
    let told = is_boolean(policy.action_constraint());
    Ok(resource_or_action(resource, action, told))
}

// The entities of the resource, or else of the action; none of the resource, where the action's constraint asks for
// none and is no boolean.
fn resource_or_action<'a>(
    resource: Option<Vec<&'a EntityUID>>,
    action: Option<Vec<&'a EntityUID>>,
    is_told: bool,
) -> Option<Vec<&'a EntityUID>>
    ensures { names_found result ≡ resource_or_action (names_found resource.entry) (names_found action.entry) is_told }
{
    match action {
        Some(of_action) => match resource {
            Some(uids) => Some(uids),
            None => Some(of_action),
        },
        None => { if is_told { resource } else { None } }
    }
}

// The type that the policy's scope asks for, where it asks for no entity: of the resource, or else of the principal, or
// else of the action. None, where it asks for none.
pub(super) fn bound_type(policy: &Policy) -> Option<&EntityType>
    requires none { asks_for_no_entity (policy_view policy.now) ≡ true }
    ensures { MatchOption result (asks_for_no_type (policy_view policy.now) ≡ true)
        (λ t. IsBoundToType (policy_view policy.now) (type_text t.now)) }
{
    let of_principal = asked_type(policy.principal_constraint());
    if are_booleans(policy.principal_constraint(), policy.action_constraint()) {
        let of_action = asked_type(policy.action_constraint());
        first_type(
            asked_type(policy.resource_constraint()),
            first_type(of_principal, of_action),
        )
    } else {
        of_principal
    }
}

// The first type, or else the second.
fn first_type<'a>(
    first: Option<&'a EntityType>,
    second: Option<&'a EntityType>,
) -> Option<&'a EntityType>
    ensures { type_found result ≡ first_type (type_found first.entry) (type_found second.entry) }
{
    match first {
        Some(ty) => Some(ty),
        None => second,
    }
}

// The type T of `x is T`, where x is principal, action or resource.
fn asked_type(e: &Expr) -> Option<&EntityType>
    ensures { type_found result ≡ asked_type (view e.now) }
{
    match as_is(e) {
        Some((tested, ty)) => type_of_test(tested, ty),
        None => None,
    }
}

// The type, where principal, action or resource is tested for it.
fn type_of_test<'a>(tested: &Expr, ty: &'a EntityType) -> Option<&'a EntityType>
    ensures { type_found result ≡ cond (is_entity_variable (view tested.now)) (Some (type_text ty.now)) None }
{
    if is_entity_variable(tested) {
        Some(ty)
    } else {
        None
    }
}

// The entities that a constraint asks for one of: alone, or after a test of the type. None, where it asks for none.
fn asked_entities<'a>(
    alloc: Global,
    slots: &'a SlotEnv,
    e: &'a Expr,
) -> Result<Option<Vec<&'a EntityUID>>, AllocError>
    ensures { IfOk result (λ o. names_found o ≡ asked_entities (slots_view slots.now) (view e.now)) }
{
    match as_and(e) {
        Some((left, right)) => asked_after_test(alloc, slots, left, right),
        None => compared_entities(alloc, slots, e),
    }
}

// The same of `left && right`.
fn asked_after_test<'a>(
    alloc: Global,
    slots: &'a SlotEnv,
    left: &Expr,
    right: &'a Expr,
) -> Result<Option<Vec<&'a EntityUID>>, AllocError>
    ensures { IfOk result (λ o. names_found o
        ≡ cond (is_type_test (view left.now)) (compared_entities (slots_view slots.now) (view right.now)) None) }
{
    if is_type_test(left) {
        compared_entities(alloc, slots, right)
    } else {
        Ok(None)
    }
}

// The same of `x == e` and `x in e`, where x is principal, action or resource.
fn compared_entities<'a>(
    alloc: Global,
    slots: &'a SlotEnv,
    e: &'a Expr,
) -> Result<Option<Vec<&'a EntityUID>>, AllocError>
    ensures { IfOk result (λ o. names_found o ≡ compared_entities (slots_view slots.now) (view e.now)) }
{
    match as_binary(e) {
        Some((op, left, right)) => compared_with(alloc, slots, op, left, right),
        None => Ok(None),
    }
}

// The same of an operator of two.
fn compared_with<'a>(
    alloc: Global,
    slots: &'a SlotEnv,
    op: BinaryOp,
    left: &Expr,
    right: &'a Expr,
) -> Result<Option<Vec<&'a EntityUID>>, AllocError>
    ensures { IfOk result (λ o. names_found o ≡ cond (is_entity_variable (view left.now))
        (sought_entities (slots_view slots.now) (binary_view op) (view right.now)) None) }
{
    if is_entity_variable(left) {
        sought_entities(alloc, slots, op, right)
    } else {
        Ok(None)
    }
}

// The entities to the right of `==` and of `in`.
#[tactic(auto, unfolding(crate::specs::Scopes::sought_entities))]
fn sought_entities<'a>(
    alloc: Global,
    slots: &'a SlotEnv,
    op: BinaryOp,
    e: &'a Expr,
) -> Result<Option<Vec<&'a EntityUID>>, AllocError>
    ensures { IfOk result (λ o. names_found o ≡ sought_entities (slots_view slots.now) (binary_view op) (view e.now)) }
{
    match op {
        BinaryOp::Eq => only(alloc, named_entity(slots, e)),
        BinaryOp::In => place_entities(alloc, slots, e),
        BinaryOp::Less => Ok(None),
        BinaryOp::LessEq => Ok(None),
        BinaryOp::Add => Ok(None),
        BinaryOp::Sub => Ok(None),
        BinaryOp::Mul => Ok(None),
        BinaryOp::Contains => Ok(None),
        BinaryOp::ContainsAll => Ok(None),
        BinaryOp::ContainsAny => Ok(None),
        BinaryOp::GetTag => Ok(None),
        BinaryOp::HasTag => Ok(None),
    }
}

// The entities to the right of `in`: one, or those of a set.
fn place_entities<'a>(
    alloc: Global,
    slots: &'a SlotEnv,
    e: &'a Expr,
) -> Result<Option<Vec<&'a EntityUID>>, AllocError>
    ensures { IfOk result (λ o. names_found o ≡ place_entities (slots_view slots.now) (view e.now)) }
{
    match as_set(e) {
        Some(parts) => listed_entities(alloc, parts),
        None => only(alloc, named_entity(slots, e)),
    }
}

// The entities that are listed. None, where anything else is listed.
fn listed_entities(alloc: Global, parts: &[Expr]) -> Result<Option<Vec<&EntityUID>>, AllocError>
    ensures { IfOk result (λ o. names_found o ≡ listed_entities (terms_view parts.now)) }
{
    let mut uids: Vec<&EntityUID> = Vec::new(alloc);
    'parts: for part in parts {
        match literal_entity(part) {
            Some(uid) => uids.push(uid)?,
            None => return Ok(None),
        }
    }
    Ok(Some(uids))
}

// That entity alone, if there is one.
fn only(alloc: Global, found: Option<&EntityUID>) -> Result<Option<Vec<&EntityUID>>, AllocError>
    ensures { IfOk result (λ o. names_found o ≡ only (option_map (λ u. uid_name u.now) found.entry)) }
{
    match found {
        Some(uid) => {
            let mut uids: Vec<&EntityUID> = Vec::new(alloc);
            uids.push(uid)?;
            Ok(Some(uids))
        }
        None => Ok(None),
    }
}

// The entity that a literal is, or that a slot holds.
fn named_entity<'a>(slots: &'a SlotEnv, e: &'a Expr) -> Option<&'a EntityUID>
    ensures { option_map (λ u. uid_name u.now) result ≡ named_entity (slots_view slots.now) (view e.now) }
{
    match as_slot(e) {
        Some(slot) => slots.get(&slot),
        None => literal_entity(e),
    }
}

// Whether it is a boolean, whatever principal, action and resource are: `true`, or a test of the type of one of them.
fn is_boolean(e: &Expr) -> bool
    ensures { result ≡ (is_truth (view e.now) || is_type_test (view e.now)) }
{
    is_truth(e) || is_type_test(e)
}

// Whether both are.
fn are_booleans(left: &Expr, right: &Expr) -> bool
    ensures { result ≡ ((is_truth (view left.now) || is_type_test (view left.now))
        && (is_truth (view right.now) || is_type_test (view right.now))) }
{
    is_boolean(left) && is_boolean(right)
}

// Whether it is `x is T`, where x is principal, action or resource.
fn is_type_test(e: &Expr) -> bool
    ensures { result ≡ is_type_test (view e.now) }
{
    match as_is(e) {
        Some((tested, _)) => is_entity_variable(tested),
        None => false,
    }
}

// Whether it is `principal`, `action` or `resource`.
fn is_entity_variable(e: &Expr) -> bool
    ensures { result ≡ is_entity_variable (view e.now) }
{
    match e.as_variable() {
        Some(var) => stands_for_entity(var),
        None => false,
    }
}

// Whether the variable stands for an entity.
#[tactic(auto, unfolding(crate::specs::Scopes::is_entity_variable))]
fn stands_for_entity(var: Var) -> bool
    ensures { result ≡ is_entity_variable (variable (variable_view var)) }
{
    match var {
        Var::Principal => true,
        Var::Action => true,
        Var::Resource => true,
        Var::Context => false,
    }
}

// The entity that the literal is.
fn literal_entity(e: &Expr) -> Option<&EntityUID>
    ensures { option_map (λ u. uid_name u.now) result ≡ literal_entity (view e.now) }
{
    match e.as_literal() {
        Some(value) => entity_of_literal(value),
        None => None,
    }
}

#[tactic(auto, unfolding(crate::specs::Scopes::literal_entity))]
fn entity_of_literal(value: &Literal) -> Option<&EntityUID>
    ensures { option_map (λ u. uid_name u.now) result ≡ literal_entity (literal (literal_view value.now)) }
{
    match value {
        Literal::EntityUID(uid) => Some(uid),
        Literal::Bool(_) => None,
        Literal::Long(_) => None,
        Literal::String(_) => None,
    }
}

// Whether it is `true`.
fn is_truth(e: &Expr) -> bool
    ensures { result ≡ is_truth (view e.now) }
{
    match e.as_literal() {
        Some(value) => is_true(value),
        None => false,
    }
}

#[tactic(auto, unfolding(crate::specs::Scopes::is_truth))]
fn is_true(value: &Literal) -> bool
    ensures { result ≡ is_truth (literal (literal_view value.now)) }
{
    match value {
        Literal::Bool(b) => *b,
        Literal::EntityUID(_) => false,
        Literal::Long(_) => false,
        Literal::String(_) => false,
    }
}

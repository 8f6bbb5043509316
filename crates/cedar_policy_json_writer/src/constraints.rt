#![tactic(auto, using(cedar_expressions::proofs::Levels::levels))]
//! Which constraint on a variable a scope has.
ghost use Rattle.std.specs.Prelude.{◌≡◌, option_map};
ghost use Rattle.cedar_names.specs.Names.{type_text, uid_name};
ghost use Rattle.cedar_names.specs.Leaves.{literal_view, slot_view, variable_view, binary_view};
ghost use Rattle.cedar_expressions.specs.View.{view, terms_view};
ghost use Rattle.cedar_layers.specs.Policies.{slots_view};
ghost use Rattle.cedar_policy_json_writer.specs.Scopes as scopes;
ghost use Rattle.cedar_policy_json_writer.specs.Views.{place_view, scope_view};

use crate::scope::{Place, Scope};
use cedar_expressions::{Expr, ExprKind};
use cedar_names::shared::same_variable;
use cedar_names::{BinaryOp, EntityType, EntityUID, Literal, SlotEnv, SlotId, Var};

/// What a scope says of the variable where it has this constraint; none, where no scope has it.
pub(crate) fn scope_of<'a>(slots: &'a SlotEnv, var: Var, constraint: &'a Expr) -> Option<Scope<'a>>
    ensures { option_map scope_view result
        ≡ scopes.scope_of (slots_view slots.now) (variable_view var) (view constraint.now) }
{
    match constraint.expr_kind() {
        ExprKind::Lit(literal) => any_scope(literal),
        ExprKind::And { left, right } => {
            typed_scope(type_asked(var, left), place_inside(slots, var, right))
        }
        ExprKind::BinaryApp { op, arg1, arg2 } => compared_scope(slots, var, *op, arg1, arg2),
        ExprKind::Is { expr, entity_type } => type_scope(tested_type(var, expr, entity_type)),
        ExprKind::Var(_) => None,
        ExprKind::Slot(_) => None,
        ExprKind::Unknown(_) => None,
        ExprKind::If { .. } => None,
        ExprKind::Or { .. } => None,
        ExprKind::UnaryApp { .. } => None,
        ExprKind::ExtensionFunctionApp { .. } => None,
        ExprKind::GetAttr { .. } => None,
        ExprKind::HasAttr { .. } => None,
        ExprKind::ExtHasAttr { .. } => None,
        ExprKind::Like { .. } => None,
        ExprKind::Set(_) => None,
        ExprKind::Record(_) => None,
    }
}

// `true` asks nothing.
fn any_scope(literal: &Literal) -> Option<Scope<'_>>
    ensures { option_map scope_view result ≡ scopes.any_scope (literal_view literal.now) }
{
    if is_true(literal) {
        Some(Scope::Any)
    } else {
        None
    }
}

fn is_true(literal: &Literal) -> bool
    ensures { result ≡ scopes.is_true_literal (literal_view literal.now) }
{
    match literal {
        Literal::Bool(flag) => *flag,
        Literal::Long(_) => false,
        Literal::String(_) => false,
        Literal::EntityUID(_) => false,
    }
}

/// Whether the expression is `true`.
pub(crate) fn is_truth(expr: &Expr) -> bool
    ensures { result ≡ scopes.is_truth (view expr.now) }
{
    match expr.expr_kind() {
        ExprKind::Lit(literal) => is_true(literal),
        ExprKind::Var(_) => false,
        ExprKind::Slot(_) => false,
        ExprKind::Unknown(_) => false,
        ExprKind::If { .. } => false,
        ExprKind::And { .. } => false,
        ExprKind::Or { .. } => false,
        ExprKind::UnaryApp { .. } => false,
        ExprKind::BinaryApp { .. } => false,
        ExprKind::ExtensionFunctionApp { .. } => false,
        ExprKind::GetAttr { .. } => false,
        ExprKind::HasAttr { .. } => false,
        ExprKind::ExtHasAttr { .. } => false,
        ExprKind::Like { .. } => false,
        ExprKind::Is { .. } => false,
        ExprKind::Set(_) => false,
        ExprKind::Record(_) => false,
    }
}

fn type_scope(ty: Option<&EntityType>) -> Option<Scope<'_>>
    ensures { option_map scope_view result
        ≡ option_map scopes.of_type (option_map (λ t. type_text t.now) ty.entry) }
{
    match ty {
        Some(ty) => Some(Scope::Is(ty)),
        None => None,
    }
}

fn typed_scope<'a>(ty: Option<&'a EntityType>, place: Option<Place<'a>>) -> Option<Scope<'a>>
    ensures { option_map scope_view result ≡ scopes.typed_scope (option_map (λ t. type_text t.now) ty.entry)
        (option_map place_view place.entry) }
{
    match ty {
        Some(ty) => match place {
            Some(place) => Some(Scope::IsIn(ty, place)),
            None => None,
        },
        None => None,
    }
}

// ---- the two sides of `&&`, of `v is T && v in E`

fn type_asked(var: Var, expr: &Expr) -> Option<&EntityType>
    ensures { option_map (λ t. type_text t.now) result ≡ scopes.type_asked (variable_view var) (view expr.now) }
{
    match expr.expr_kind() {
        ExprKind::Is { expr, entity_type } => tested_type(var, expr, entity_type),
        ExprKind::Lit(_) => None,
        ExprKind::Var(_) => None,
        ExprKind::Slot(_) => None,
        ExprKind::Unknown(_) => None,
        ExprKind::If { .. } => None,
        ExprKind::And { .. } => None,
        ExprKind::Or { .. } => None,
        ExprKind::UnaryApp { .. } => None,
        ExprKind::BinaryApp { .. } => None,
        ExprKind::ExtensionFunctionApp { .. } => None,
        ExprKind::GetAttr { .. } => None,
        ExprKind::HasAttr { .. } => None,
        ExprKind::ExtHasAttr { .. } => None,
        ExprKind::Like { .. } => None,
        ExprKind::Set(_) => None,
        ExprKind::Record(_) => None,
    }
}

// The type, where what is tested is the variable, and one that a scope tests for a type.
fn tested_type<'a>(var: Var, tested: &Expr, ty: &'a EntityType) -> Option<&'a EntityType>
    ensures { option_map (λ t. type_text t.now) result
        ≡ scopes.tested_type (variable_view var) (view tested.now) (type_text ty.now) }
{
    if takes_type(var) && is_variable(var, tested) {
        Some(ty)
    } else {
        None
    }
}

fn place_inside<'a>(slots: &'a SlotEnv, var: Var, expr: &'a Expr) -> Option<Place<'a>>
    ensures { option_map place_view result
        ≡ scopes.place_inside (slots_view slots.now) (variable_view var) (view expr.now) }
{
    match expr.expr_kind() {
        ExprKind::BinaryApp { op, arg1, arg2 } => place_asked(slots, var, *op, arg1, arg2),
        ExprKind::Lit(_) => None,
        ExprKind::Var(_) => None,
        ExprKind::Slot(_) => None,
        ExprKind::Unknown(_) => None,
        ExprKind::If { .. } => None,
        ExprKind::And { .. } => None,
        ExprKind::Or { .. } => None,
        ExprKind::UnaryApp { .. } => None,
        ExprKind::ExtensionFunctionApp { .. } => None,
        ExprKind::GetAttr { .. } => None,
        ExprKind::HasAttr { .. } => None,
        ExprKind::ExtHasAttr { .. } => None,
        ExprKind::Like { .. } => None,
        ExprKind::Is { .. } => None,
        ExprKind::Set(_) => None,
        ExprKind::Record(_) => None,
    }
}

// What stands behind `in`, where that is the operator and the variable stands before it.
fn place_asked<'a>(
    slots: &'a SlotEnv,
    var: Var,
    op: BinaryOp,
    left: &Expr,
    right: &'a Expr,
) -> Option<Place<'a>>
    ensures { option_map place_view result ≡ scopes.place_asked (slots_view slots.now) (variable_view var)
        (binary_view op) (view left.now) (view right.now) }
{
    if is_in(op) && is_variable(var, left) {
        place_of(slots, var, right)
    } else {
        None
    }
}

// ---- comparisons

fn compared_scope<'a>(
    slots: &'a SlotEnv,
    var: Var,
    op: BinaryOp,
    left: &Expr,
    right: &'a Expr,
) -> Option<Scope<'a>>
    ensures { option_map scope_view result ≡ scopes.compared_scope (slots_view slots.now) (variable_view var)
        (binary_view op) (view left.now) (view right.now) }
{
    if is_variable(var, left) {
        operand_scope(slots, var, op, right)
    } else {
        None
    }
}

fn operand_scope<'a>(
    slots: &'a SlotEnv,
    var: Var,
    op: BinaryOp,
    operand: &'a Expr,
) -> Option<Scope<'a>>
    ensures { option_map scope_view result ≡ scopes.operand_scope (slots_view slots.now) (variable_view var)
        (binary_view op) (view operand.now) }
{
    match op {
        BinaryOp::Eq => equal_scope(place_of(slots, var, operand)),
        BinaryOp::In => inside_scope(slots, var, operand),
        BinaryOp::Less => None,
        BinaryOp::LessEq => None,
        BinaryOp::Add => None,
        BinaryOp::Sub => None,
        BinaryOp::Mul => None,
        BinaryOp::Contains => None,
        BinaryOp::ContainsAll => None,
        BinaryOp::ContainsAny => None,
        BinaryOp::GetTag => None,
        BinaryOp::HasTag => None,
    }
}

fn equal_scope(place: Option<Place<'_>>) -> Option<Scope<'_>>
    ensures { option_map scope_view result ≡ option_map scopes.equal_to (option_map place_view place.entry) }
{
    match place {
        Some(place) => Some(Scope::Equal(place)),
        None => None,
    }
}

fn in_scope(place: Option<Place<'_>>) -> Option<Scope<'_>>
    ensures { option_map scope_view result ≡ option_map scopes.inside (option_map place_view place.entry) }
{
    match place {
        Some(place) => Some(Scope::In(place)),
        None => None,
    }
}

// What stands behind `in`: a place, or a set of entities.
fn inside_scope<'a>(slots: &'a SlotEnv, var: Var, operand: &'a Expr) -> Option<Scope<'a>>
    ensures { option_map scope_view result
        ≡ scopes.inside_scope (slots_view slots.now) (variable_view var) (view operand.now) }
{
    match operand.expr_kind() {
        ExprKind::Set(parts) => listed_scope(var, parts),
        ExprKind::Lit(literal) => in_scope(literal_place(literal)),
        ExprKind::Slot(slot) => in_scope(linked_place(slots, var, *slot)),
        ExprKind::Var(_) => None,
        ExprKind::Unknown(_) => None,
        ExprKind::If { .. } => None,
        ExprKind::And { .. } => None,
        ExprKind::Or { .. } => None,
        ExprKind::UnaryApp { .. } => None,
        ExprKind::BinaryApp { .. } => None,
        ExprKind::ExtensionFunctionApp { .. } => None,
        ExprKind::GetAttr { .. } => None,
        ExprKind::HasAttr { .. } => None,
        ExprKind::ExtHasAttr { .. } => None,
        ExprKind::Like { .. } => None,
        ExprKind::Is { .. } => None,
        ExprKind::Record(_) => None,
    }
}

fn listed_scope(var: Var, parts: &[Expr]) -> Option<Scope<'_>>
    ensures { option_map scope_view result ≡ scopes.listed_scope (variable_view var) (terms_view parts.now) }
{
    if takes_set(var) && are_entities(parts) {
        Some(Scope::InAny(parts))
    } else {
        None
    }
}

// ---- entities and slots

// An entity, a slot that is linked to one, or the variable's own slot.
fn place_of<'a>(slots: &'a SlotEnv, var: Var, expr: &'a Expr) -> Option<Place<'a>>
    ensures { option_map place_view result
        ≡ scopes.place_of (slots_view slots.now) (variable_view var) (view expr.now) }
{
    match expr.expr_kind() {
        ExprKind::Lit(literal) => literal_place(literal),
        ExprKind::Slot(slot) => linked_place(slots, var, *slot),
        ExprKind::Var(_) => None,
        ExprKind::Unknown(_) => None,
        ExprKind::If { .. } => None,
        ExprKind::And { .. } => None,
        ExprKind::Or { .. } => None,
        ExprKind::UnaryApp { .. } => None,
        ExprKind::BinaryApp { .. } => None,
        ExprKind::ExtensionFunctionApp { .. } => None,
        ExprKind::GetAttr { .. } => None,
        ExprKind::HasAttr { .. } => None,
        ExprKind::ExtHasAttr { .. } => None,
        ExprKind::Like { .. } => None,
        ExprKind::Is { .. } => None,
        ExprKind::Set(_) => None,
        ExprKind::Record(_) => None,
    }
}

fn literal_place(literal: &Literal) -> Option<Place<'_>>
    ensures { option_map place_view result ≡ scopes.literal_place (literal_view literal.now) }
{
    match literal {
        Literal::EntityUID(uid) => Some(Place::Entity(uid)),
        Literal::Bool(_) => None,
        Literal::Long(_) => None,
        Literal::String(_) => None,
    }
}

fn linked_place(slots: &SlotEnv, var: Var, slot: SlotId) -> Option<Place<'_>>
    ensures { option_map place_view result ≡ scopes.linked_place (variable_view var) (slot_view slot)
        (slots_view slots.now (slot_view slot)) }
{
    match slots.get(&slot) {
        Some(uid) => Some(Place::Entity(uid)),
        None => own_slot(var, slot),
    }
}

fn own_slot<'a>(var: Var, slot: SlotId) -> Option<Place<'a>>
    ensures { option_map place_view result ≡ scopes.own_slot (variable_view var) (slot_view slot) }
{
    if is_own_slot(var, slot) {
        Some(Place::Slot(slot))
    } else {
        None
    }
}

// Whether all of them are entities.
fn are_entities(parts: &[Expr]) -> bool
    ensures { result ≡ scopes.are_entities (terms_view parts.now) }
{
    'parts: for part in parts {
        if entity_in(part).is_none() {
            return false;
        }
    }
    true
}

/// The entity that a literal is.
pub(crate) fn entity_in(expr: &Expr) -> Option<&EntityUID>
    ensures { option_map (λ u. uid_name u.now) result ≡ scopes.entity_in (view expr.now) }
{
    match expr.expr_kind() {
        ExprKind::Lit(literal) => literal_entity(literal),
        ExprKind::Var(_) => None,
        ExprKind::Slot(_) => None,
        ExprKind::Unknown(_) => None,
        ExprKind::If { .. } => None,
        ExprKind::And { .. } => None,
        ExprKind::Or { .. } => None,
        ExprKind::UnaryApp { .. } => None,
        ExprKind::BinaryApp { .. } => None,
        ExprKind::ExtensionFunctionApp { .. } => None,
        ExprKind::GetAttr { .. } => None,
        ExprKind::HasAttr { .. } => None,
        ExprKind::ExtHasAttr { .. } => None,
        ExprKind::Like { .. } => None,
        ExprKind::Is { .. } => None,
        ExprKind::Set(_) => None,
        ExprKind::Record(_) => None,
    }
}

fn literal_entity(literal: &Literal) -> Option<&EntityUID>
    ensures { option_map (λ u. uid_name u.now) result ≡ scopes.literal_entity (literal_view literal.now) }
{
    match literal {
        Literal::EntityUID(uid) => Some(uid),
        Literal::Bool(_) => None,
        Literal::Long(_) => None,
        Literal::String(_) => None,
    }
}

// ---- variables and slots

fn is_variable(var: Var, expr: &Expr) -> bool
    ensures { result ≡ scopes.is_variable (variable_view var) (view expr.now) }
{
    match expr.expr_kind() {
        ExprKind::Var(other) => same_variable(var, *other),
        ExprKind::Lit(_) => false,
        ExprKind::Slot(_) => false,
        ExprKind::Unknown(_) => false,
        ExprKind::If { .. } => false,
        ExprKind::And { .. } => false,
        ExprKind::Or { .. } => false,
        ExprKind::UnaryApp { .. } => false,
        ExprKind::BinaryApp { .. } => false,
        ExprKind::ExtensionFunctionApp { .. } => false,
        ExprKind::GetAttr { .. } => false,
        ExprKind::HasAttr { .. } => false,
        ExprKind::ExtHasAttr { .. } => false,
        ExprKind::Like { .. } => false,
        ExprKind::Is { .. } => false,
        ExprKind::Set(_) => false,
        ExprKind::Record(_) => false,
    }
}

fn takes_set(var: Var) -> bool
    ensures { result ≡ scopes.takes_set (variable_view var) }
{
    match var {
        Var::Principal => false,
        Var::Action => true,
        Var::Resource => false,
        Var::Context => false,
    }
}

fn takes_type(var: Var) -> bool
    ensures { result ≡ scopes.takes_type (variable_view var) }
{
    match var {
        Var::Principal => true,
        Var::Action => false,
        Var::Resource => true,
        Var::Context => false,
    }
}

fn is_in(op: BinaryOp) -> bool
    ensures { result ≡ scopes.is_in (binary_view op) }
{
    match op {
        BinaryOp::In => true,
        BinaryOp::Eq => false,
        BinaryOp::Less => false,
        BinaryOp::LessEq => false,
        BinaryOp::Add => false,
        BinaryOp::Sub => false,
        BinaryOp::Mul => false,
        BinaryOp::Contains => false,
        BinaryOp::ContainsAll => false,
        BinaryOp::ContainsAny => false,
        BinaryOp::GetTag => false,
        BinaryOp::HasTag => false,
    }
}

fn is_own_slot(var: Var, slot: SlotId) -> bool
    ensures { result ≡ scopes.is_own_slot (variable_view var) (slot_view slot) }
{
    match var {
        Var::Principal => match slot {
            SlotId::Principal => true,
            SlotId::Resource => false,
        },
        Var::Resource => match slot {
            SlotId::Principal => false,
            SlotId::Resource => true,
        },
        Var::Action => false,
        Var::Context => false,
    }
}

#![tactic(auto, using(cedar_expressions::proofs::Levels::levels))]
//! Kinds of values: of which kind what an expression means can only be, and which kinds an operator takes.
ghost use Rattle.std.specs.Prelude.{◌≡◌, option_map};
ghost use Rattle.cedar_names.specs.Leaves.{literal_view, variable_view, unary_view, binary_view};
ghost use Rattle.cedar_expressions.specs.View.{view};
ghost use Rattle.cedar_unsatisfiable.specs.Kinds as specs;
ghost use Rattle.cedar_unsatisfiable.specs.Kinds.{kind_view, is_wrong};

use cedar_expressions::{Expr, ExprKind};
use cedar_names::{BinaryOp, Literal, UnaryOp, Var};

// The kinds of values, but for those of extensions.
#[derive(Clone, Copy)]
pub(crate) enum Kind {
    Truth,
    Number,
    Text,
    Entity,
    Set,
    Record,
}

// The kind of all values that the expression can mean, if its text shows it.
pub(crate) fn kind_shown(expr: &Expr) -> Option<Kind>
    ensures { option_map kind_view result ≡ specs.kind_shown (view expr.now) }
{
    match expr.expr_kind() {
        ExprKind::Lit(literal) => Some(literal_kind(literal)),
        ExprKind::Var(variable) => Some(variable_kind(*variable)),
        ExprKind::Slot(_) => Some(Kind::Entity),
        ExprKind::Unknown(_) => None,
        ExprKind::If { .. } => None,
        ExprKind::And { .. } => Some(Kind::Truth),
        ExprKind::Or { .. } => Some(Kind::Truth),
        ExprKind::UnaryApp { op, arg: _ } => Some(unary_kind(*op)),
        ExprKind::BinaryApp { op, .. } => binary_kind(*op),
        ExprKind::ExtensionFunctionApp { .. } => None,
        ExprKind::GetAttr { .. } => None,
        ExprKind::HasAttr { .. } => Some(Kind::Truth),
        ExprKind::ExtHasAttr { .. } => Some(Kind::Truth),
        ExprKind::Like { .. } => Some(Kind::Truth),
        ExprKind::Is { .. } => Some(Kind::Truth),
        ExprKind::Set(_) => Some(Kind::Set),
        ExprKind::Record(_) => Some(Kind::Record),
    }
}

fn literal_kind(literal: &Literal) -> Kind
    ensures { kind_view result ≡ specs.literal_kind (literal_view literal.now) }
{
    match literal {
        Literal::Bool(_) => Kind::Truth,
        Literal::Long(_) => Kind::Number,
        Literal::String(_) => Kind::Text,
        Literal::EntityUID(_) => Kind::Entity,
    }
}

fn variable_kind(variable: Var) -> Kind
    ensures { kind_view result ≡ specs.variable_kind (variable_view variable) }
{
    match variable {
        Var::Principal => Kind::Entity,
        Var::Action => Kind::Entity,
        Var::Resource => Kind::Entity,
        Var::Context => Kind::Record,
    }
}

fn unary_kind(op: UnaryOp) -> Kind
    ensures { kind_view result ≡ specs.unary_kind (unary_view op) }
{
    match op {
        UnaryOp::Not => Kind::Truth,
        UnaryOp::Neg => Kind::Number,
        UnaryOp::IsEmpty => Kind::Truth,
    }
}

fn binary_kind(op: BinaryOp) -> Option<Kind>
    ensures { option_map kind_view result ≡ specs.binary_kind (binary_view op) }
{
    match op {
        BinaryOp::Eq => Some(Kind::Truth),
        BinaryOp::Less => Some(Kind::Truth),
        BinaryOp::LessEq => Some(Kind::Truth),
        BinaryOp::Add => Some(Kind::Number),
        BinaryOp::Sub => Some(Kind::Number),
        BinaryOp::Mul => Some(Kind::Number),
        BinaryOp::In => Some(Kind::Truth),
        BinaryOp::Contains => Some(Kind::Truth),
        BinaryOp::ContainsAll => Some(Kind::Truth),
        BinaryOp::ContainsAny => Some(Kind::Truth),
        BinaryOp::GetTag => None,
        BinaryOp::HasTag => Some(Kind::Truth),
    }
}

// ---- the kinds that an operator takes

pub(crate) fn is_truth(kind: Kind) -> bool
    ensures { result ≡ specs.is_truth (kind_view kind) }
{
    match kind {
        Kind::Truth => true,
        Kind::Number => false,
        Kind::Text => false,
        Kind::Entity => false,
        Kind::Set => false,
        Kind::Record => false,
    }
}

fn is_number(kind: Kind) -> bool
    ensures { result ≡ specs.is_number (kind_view kind) }
{
    match kind {
        Kind::Truth => false,
        Kind::Number => true,
        Kind::Text => false,
        Kind::Entity => false,
        Kind::Set => false,
        Kind::Record => false,
    }
}

pub(crate) fn is_text(kind: Kind) -> bool
    ensures { result ≡ specs.is_text (kind_view kind) }
{
    match kind {
        Kind::Truth => false,
        Kind::Number => false,
        Kind::Text => true,
        Kind::Entity => false,
        Kind::Set => false,
        Kind::Record => false,
    }
}

pub(crate) fn is_entity(kind: Kind) -> bool
    ensures { result ≡ specs.is_entity (kind_view kind) }
{
    match kind {
        Kind::Truth => false,
        Kind::Number => false,
        Kind::Text => false,
        Kind::Entity => true,
        Kind::Set => false,
        Kind::Record => false,
    }
}

fn is_set(kind: Kind) -> bool
    ensures { result ≡ specs.is_set (kind_view kind) }
{
    match kind {
        Kind::Truth => false,
        Kind::Number => false,
        Kind::Text => false,
        Kind::Entity => false,
        Kind::Set => true,
        Kind::Record => false,
    }
}

pub(crate) fn has_attributes(kind: Kind) -> bool
    ensures { result ≡ specs.has_attributes (kind_view kind) }
{
    match kind {
        Kind::Truth => false,
        Kind::Number => false,
        Kind::Text => false,
        Kind::Entity => true,
        Kind::Set => false,
        Kind::Record => true,
    }
}

fn takes(op: UnaryOp, kind: Kind) -> bool
    ensures { result ≡ specs.takes (unary_view op) (kind_view kind) }
{
    match op {
        UnaryOp::Not => is_truth(kind),
        UnaryOp::Neg => is_number(kind),
        UnaryOp::IsEmpty => is_set(kind),
    }
}

fn takes_first(op: BinaryOp, kind: Kind) -> bool
    ensures { result ≡ specs.takes_first (binary_view op) (kind_view kind) }
{
    match op {
        BinaryOp::Eq => true,
        BinaryOp::Less => is_number(kind),
        BinaryOp::LessEq => is_number(kind),
        BinaryOp::Add => is_number(kind),
        BinaryOp::Sub => is_number(kind),
        BinaryOp::Mul => is_number(kind),
        BinaryOp::In => is_entity(kind),
        BinaryOp::Contains => is_set(kind),
        BinaryOp::ContainsAll => is_set(kind),
        BinaryOp::ContainsAny => is_set(kind),
        BinaryOp::GetTag => is_entity(kind),
        BinaryOp::HasTag => is_entity(kind),
    }
}

fn takes_second(op: BinaryOp, kind: Kind) -> bool
    ensures { result ≡ specs.takes_second (binary_view op) (kind_view kind) }
{
    match op {
        BinaryOp::Eq => true,
        BinaryOp::Less => is_number(kind),
        BinaryOp::LessEq => is_number(kind),
        BinaryOp::Add => is_number(kind),
        BinaryOp::Sub => is_number(kind),
        BinaryOp::Mul => is_number(kind),
        BinaryOp::In => is_entity(kind) || is_set(kind),
        BinaryOp::Contains => true,
        BinaryOp::ContainsAll => is_set(kind),
        BinaryOp::ContainsAny => is_set(kind),
        BinaryOp::GetTag => is_text(kind),
        BinaryOp::HasTag => is_text(kind),
    }
}

// ---- whether a kind is shown, and is not taken

// Whether it shows that it is no boolean but of another kind.
pub(crate) fn is_other_than_truth(expr: &Expr) -> bool
    ensures { result ≡ is_wrong specs.is_truth (specs.kind_shown (view expr.now)) }
{
    match kind_shown(expr) {
        Some(kind) => !is_truth(kind),
        None => false,
    }
}

pub(crate) fn is_other_than_text(expr: &Expr) -> bool
    ensures { result ≡ is_wrong specs.is_text (specs.kind_shown (view expr.now)) }
{
    match kind_shown(expr) {
        Some(kind) => !is_text(kind),
        None => false,
    }
}

pub(crate) fn is_other_than_entity(expr: &Expr) -> bool
    ensures { result ≡ is_wrong specs.is_entity (specs.kind_shown (view expr.now)) }
{
    match kind_shown(expr) {
        Some(kind) => !is_entity(kind),
        None => false,
    }
}

pub(crate) fn is_without_attributes(expr: &Expr) -> bool
    ensures { result ≡ is_wrong specs.has_attributes (specs.kind_shown (view expr.now)) }
{
    match kind_shown(expr) {
        Some(kind) => !has_attributes(kind),
        None => false,
    }
}

pub(crate) fn is_not_taken(op: UnaryOp, expr: &Expr) -> bool
    ensures { result ≡ is_wrong (specs.takes (unary_view op)) (specs.kind_shown (view expr.now)) }
{
    match kind_shown(expr) {
        Some(kind) => !takes(op, kind),
        None => false,
    }
}

pub(crate) fn is_not_taken_first(op: BinaryOp, expr: &Expr) -> bool
    ensures { result ≡ is_wrong (specs.takes_first (binary_view op)) (specs.kind_shown (view expr.now)) }
{
    match kind_shown(expr) {
        Some(kind) => !takes_first(op, kind),
        None => false,
    }
}

pub(crate) fn is_not_taken_second(op: BinaryOp, expr: &Expr) -> bool
    ensures { result ≡ is_wrong (specs.takes_second (binary_view op)) (specs.kind_shown (view expr.now)) }
{
    match kind_shown(expr) {
        Some(kind) => !takes_second(op, kind),
        None => false,
    }
}

#![tactic(auto, using(cedar_expressions::proofs::Levels::levels))]
//! What a conjunct says of a value, and when two of them contradict each other.
ghost use Rattle.std.specs.Prelude.{◌≡◌, option_map, option_copied};
ghost use Rattle.cedar_model.specs.Terms.{binary};
ghost use Rattle.cedar_names.specs.Names.{type_text};
ghost use Rattle.cedar_names.specs.Leaves.{literal_view, binary_view};
ghost use Rattle.cedar_expressions.specs.View.{view};
ghost use Rattle.cedar_unsatisfiable.specs.Claims.{known_literal, equality_claim, claim_of, is_of, contradict};
ghost use Rattle.cedar_unsatisfiable.specs.Claims.{contradict_of_one};
ghost use Rattle.cedar_unsatisfiable.specs.Views.{claim_view, claimed_view};

use cedar_expressions::{Expr, ExprKind};
use cedar_names::shared::{same_literal, same_type};
use cedar_names::{BinaryOp, EntityType, Literal};

// What a conjunct that is true says of a value.
#[derive(Clone, Copy)]
pub(crate) enum Claim<'e> {
    OfType(&'e EntityType),
    EqualTo(&'e Literal),
}

// The same, and of which expression.
#[derive(Clone, Copy)]
pub(crate) struct Claimed<'e> {
    pub(crate) subject: &'e Expr,
    pub(crate) claim: Claim<'e>,
}

// Whether the two conjuncts say of one expression what no value is.
pub(crate) fn contradict_each_other(first: &Expr, second: &Expr) -> bool
    ensures { result ≡ contradict_of_one (claim_of (view first.now)) (claim_of (view second.now)) }
{
    match claimed_in(first) {
        None => false,
        Some(first) => match claimed_in(second) {
            None => false,
            Some(second) => contradicts(first, second),
        },
    }
}

fn contradicts(first: Claimed<'_>, second: Claimed<'_>) -> bool
    ensures { result
        ≡ contradict_of_one (Some (claimed_view first.entry)) (Some (claimed_view second.entry)) }
{
    first.subject == second.subject && contradict(first.claim, second.claim)
}

fn contradict(first: Claim<'_>, second: Claim<'_>) -> bool
    ensures { result ≡ contradict (claim_view first.entry) (claim_view second.entry) }
{
    match first {
        Claim::OfType(ty) => match second {
            Claim::OfType(other) => !same_type(ty, other),
            Claim::EqualTo(literal) => !is_of(ty, literal),
        },
        Claim::EqualTo(literal) => match second {
            Claim::OfType(ty) => !is_of(ty, literal),
            Claim::EqualTo(other) => !same_literal(literal, other),
        },
    }
}

fn is_of(ty: &EntityType, literal: &Literal) -> bool
    ensures { result ≡ is_of (type_text ty.now) (literal_view literal.now) }
{
    match literal {
        Literal::Bool(_) => false,
        Literal::Long(_) => false,
        Literal::String(_) => false,
        Literal::EntityUID(uid) => same_type(uid.entity_type(), ty),
    }
}

// What the conjunct says, if it is `x is T` or `x == 1`.
fn claimed_in(conjunct: &Expr) -> Option<Claimed<'_>>
    ensures { option_map claimed_view result ≡ claim_of (view conjunct.now) }
{
    match conjunct.expr_kind() {
        ExprKind::Lit(_) => None,
        ExprKind::Var(_) => None,
        ExprKind::Slot(_) => None,
        ExprKind::Unknown(_) => None,
        ExprKind::If { .. } => None,
        ExprKind::And { .. } => None,
        ExprKind::Or { .. } => None,
        ExprKind::UnaryApp { .. } => None,
        ExprKind::BinaryApp { op, arg1, arg2 } => equality_in(*op, arg1, arg2),
        ExprKind::ExtensionFunctionApp { .. } => None,
        ExprKind::GetAttr { .. } => None,
        ExprKind::HasAttr { .. } => None,
        ExprKind::ExtHasAttr { .. } => None,
        ExprKind::Like { .. } => None,
        ExprKind::Is { expr, entity_type } => Some(Claimed {
            subject: expr,
            claim: Claim::OfType(entity_type),
        }),
        ExprKind::Set(_) => None,
        ExprKind::Record(_) => None,
    }
}

fn equality_in<'e>(op: BinaryOp, first: &'e Expr, second: &'e Expr) -> Option<Claimed<'e>>
    ensures { option_map claimed_view result
        ≡ claim_of (binary (binary_view op) (view first.now) (view second.now)) }
{
    match op {
        BinaryOp::Eq => equality_of(first, second),
        BinaryOp::Less => None,
        BinaryOp::LessEq => None,
        BinaryOp::Add => None,
        BinaryOp::Sub => None,
        BinaryOp::Mul => None,
        BinaryOp::In => None,
        BinaryOp::Contains => None,
        BinaryOp::ContainsAll => None,
        BinaryOp::ContainsAny => None,
        BinaryOp::GetTag => None,
        BinaryOp::HasTag => None,
    }
}

fn equality_of<'e>(first: &'e Expr, second: &'e Expr) -> Option<Claimed<'e>>
    ensures { option_map claimed_view result ≡ equality_claim (view first.now) (view second.now)
        (known_literal (view first.now)) (known_literal (view second.now)) }
{
    match literal_in(second) {
        Some(literal) => Some(Claimed {
            subject: first,
            claim: Claim::EqualTo(literal),
        }),
        None => match literal_in(first) {
            Some(literal) => Some(Claimed {
                subject: second,
                claim: Claim::EqualTo(literal),
            }),
            None => None,
        },
    }
}

fn literal_in(expr: &Expr) -> Option<&Literal>
    ensures { option_map literal_view (option_copied result) ≡ known_literal (view expr.now) }
{
    match expr.expr_kind() {
        ExprKind::Lit(literal) => Some(literal),
        ExprKind::Var(_) => None,
        ExprKind::Slot(_) => None,
        ExprKind::Unknown(_) => None,
        ExprKind::If { .. } => None,
        ExprKind::And { .. } => None,
        ExprKind::Or { .. } => None,
        ExprKind::UnaryApp { .. } => None,
        ExprKind::BinaryApp { .. } => None,
        ExprKind::ExtensionFunctionApp { .. } => None,
        ExprKind::GetAttr { .. } => None,
        ExprKind::HasAttr { .. } => None,
        ExprKind::ExtHasAttr { .. } => None,
        ExprKind::Like { .. } => None,
        ExprKind::Is { .. } => None,
        ExprKind::Set(_) => None,
        ExprKind::Record(_) => None,
    }
}

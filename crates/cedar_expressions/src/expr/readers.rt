#![tactic(auto, using(crate::proofs::Levels::levels))]
//! What an expression is, where it is one of four kinds: a literal, a variable, an unknown or a record.
ghost use Rattle.std.specs.Prelude.{◌≡◌, MatchOption, option_map};
ghost use Rattle.cedar_model.specs.Terms as Terms;
ghost use Rattle.cedar_model.specs.Rules.{fields_of_record};
ghost use Rattle.cedar_names.specs.Leaves.{literal_view, variable_view};
ghost use Rattle.cedar_expressions.specs.View.{view, fields_view};
ghost use Rattle.cedar_expressions.specs.Readers.{unknown_term, IsNoLiteral, IsNoVariable, IsNoUnknown};

use super::{Expr, ExprKind};
use cedar_names::{Literal, Unknown, Var};
use std::collections::BTreeMap;
use std::rc::{Rc, RcStr};

impl Expr {
    /// The literal that the expression is, if it is one.
    pub fn as_literal(&self) -> Option<&Literal>
        ensures { MatchOption result (IsNoLiteral (view self.now))
            (λ l. view self.now ≡ Terms.literal (literal_view l.now)) }
    {
        match self.expr_kind() {
            ExprKind::Lit(literal) => Some(literal),
            ExprKind::Var(_) => None,
            ExprKind::Slot(_) => None,
            ExprKind::Unknown(_) => None,
            ExprKind::If { .. } => None,
            ExprKind::And { .. } => None,
            ExprKind::Or { .. } => None,
            ExprKind::UnaryApp { .. } => None,
            ExprKind::BinaryApp { .. } => None,
            ExprKind::ExtensionFunctionApp { .. } => None,
            ExprKind::GetAttr { .. } => None,
            ExprKind::HasAttr { .. } => None,
            ExprKind::ExtHasAttr { .. } => None,
            ExprKind::Like { .. } => None,
            ExprKind::Is { .. } => None,
            ExprKind::Set(_) => None,
            ExprKind::Record(_) => None,
        }
    }

    /// The variable that the expression is, if it is one.
    pub fn as_variable(&self) -> Option<Var>
        ensures { MatchOption result (IsNoVariable (view self.now))
            (λ v. view self.now ≡ Terms.variable (variable_view v)) }
    {
        match self.expr_kind() {
            ExprKind::Var(variable) => Some(*variable),
            ExprKind::Lit(_) => None,
            ExprKind::Slot(_) => None,
            ExprKind::Unknown(_) => None,
            ExprKind::If { .. } => None,
            ExprKind::And { .. } => None,
            ExprKind::Or { .. } => None,
            ExprKind::UnaryApp { .. } => None,
            ExprKind::BinaryApp { .. } => None,
            ExprKind::ExtensionFunctionApp { .. } => None,
            ExprKind::GetAttr { .. } => None,
            ExprKind::HasAttr { .. } => None,
            ExprKind::ExtHasAttr { .. } => None,
            ExprKind::Like { .. } => None,
            ExprKind::Is { .. } => None,
            ExprKind::Set(_) => None,
            ExprKind::Record(_) => None,
        }
    }

    /// The unknown that the expression is, if it is one.
    pub fn as_unknown(&self) -> Option<&Unknown>
        ensures { MatchOption result (IsNoUnknown (view self.now)) (λ u. view self.now ≡ unknown_term u.now) }
    {
        match self.expr_kind() {
            ExprKind::Unknown(unknown) => Some(unknown),
            ExprKind::Lit(_) => None,
            ExprKind::Var(_) => None,
            ExprKind::Slot(_) => None,
            ExprKind::If { .. } => None,
            ExprKind::And { .. } => None,
            ExprKind::Or { .. } => None,
            ExprKind::UnaryApp { .. } => None,
            ExprKind::BinaryApp { .. } => None,
            ExprKind::ExtensionFunctionApp { .. } => None,
            ExprKind::GetAttr { .. } => None,
            ExprKind::HasAttr { .. } => None,
            ExprKind::ExtHasAttr { .. } => None,
            ExprKind::Like { .. } => None,
            ExprKind::Is { .. } => None,
            ExprKind::Set(_) => None,
            ExprKind::Record(_) => None,
        }
    }

    /// The parts of the record that the expression is, under their keys, if it is one.
    #[tactic(auto, using(crate::proofs::Levels::levels), unfolding(cedar_model::specs::Rules::fields_of_record))]
    pub fn as_record(&self) -> Option<&Rc<BTreeMap<RcStr, Expr>>>
        ensures { option_map (λ m. fields_view m.now.value.entries) result ≡ fields_of_record (view self.now) }
    {
        match self.expr_kind() {
            ExprKind::Record(pairs) => Some(pairs),
            ExprKind::Lit(_) => None,
            ExprKind::Var(_) => None,
            ExprKind::Slot(_) => None,
            ExprKind::Unknown(_) => None,
            ExprKind::If { .. } => None,
            ExprKind::And { .. } => None,
            ExprKind::Or { .. } => None,
            ExprKind::UnaryApp { .. } => None,
            ExprKind::BinaryApp { .. } => None,
            ExprKind::ExtensionFunctionApp { .. } => None,
            ExprKind::GetAttr { .. } => None,
            ExprKind::HasAttr { .. } => None,
            ExprKind::ExtHasAttr { .. } => None,
            ExprKind::Like { .. } => None,
            ExprKind::Is { .. } => None,
            ExprKind::Set(_) => None,
        }
    }
}

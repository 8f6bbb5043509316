//! Policies made of what is reported.
ghost use Rattle.std.specs.Prelude.{◌≡◌, None, IfOk};
ghost use Rattle.cedar_model.specs.Terms.{literal, bool_literal};
ghost use Rattle.cedar_expressions.specs.View.{view, expr_loc};
ghost use Rattle.cedar_layers.specs.Policies.{effect_view, policy_id_text, annotations_view, policy_parts};
ghost use Rattle.cedar_authorizer.specs.responses.Readers.{made_view, made};

use cedar_expressions::Expr;
use cedar_fallible::{in_rc, pair_of};
use cedar_layers::policies::{Annotations, Effect, Policy, PolicyID};
use cedar_names::Literal;
use std::alloc::{AllocError, Global};
use std::rc::Rc;

// The policy whose clause is this truth.
pub(super) fn policy_of_truth(
    alloc: Global,
    effect: Effect,
    is_true: bool,
    id: &PolicyID,
    annotations: &Rc<Annotations>,
) -> Result<Policy, AllocError>
    ensures policy { IfOk result (λ p. made_view p ≡ made (effect_view effect) (policy_id_text id.now)
        (annotations_view annotations.now.value) (literal (bool_literal is_true)) None) }
    ensures clause { IfOk result (λ p. expr_loc (policy_parts p).when ≡ None) }
{
    let clause = in_rc(alloc, Expr::val(Literal::Bool(is_true)));
    let named = pair_of(id.clone(), annotations.clone());
    let (clause, (id, annotations)) = pair_of(clause, named)?;
    Policy::from_when_clause_annos(alloc, effect, clause, id, None, annotations)
}

// The policy whose clause is this residual.
pub(super) fn policy_of_residual(
    alloc: Global,
    effect: Effect,
    residual: &Rc<Expr>,
    id: &PolicyID,
    annotations: &Rc<Annotations>,
) -> Result<Policy, AllocError>
    ensures policy { IfOk result (λ p. made_view p ≡ made (effect_view effect) (policy_id_text id.now)
        (annotations_view annotations.now.value) (view residual.now.value) (expr_loc residual.now.value)) }
    ensures clause { IfOk result (λ p. (policy_parts p).when ≡ residual.now.value) }
{
    let loc = residual.source_loc().copied();
    let named = pair_of(id.clone(), annotations.clone());
    let (clause, (id, annotations)) = pair_of(residual.clone(), named)?;
    Policy::from_when_clause_annos(alloc, effect, clause, id, loc, annotations)
}

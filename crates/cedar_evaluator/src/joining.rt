//! Conditions whose scope is not decided at once: the parts are evaluated one by one, and joined.
ghost use Rattle.std.specs.Prelude.{◌≡◌, ◌≤◌, ℕ, suc, true, IfOk};
ghost use Rattle.cedar_model.specs.Terms.{Term, both};
ghost use Rattle.cedar_model.specs.Failures.{answers_value, answers_residual};
ghost use Rattle.cedar_model.specs.Shapes.{has_unknown};
ghost use Rattle.cedar_expressions.specs.View.{view, expr_loc};
ghost use Rattle.cedar_values.specs.Residuals.{partial_loc, residual_term};
ghost use Rattle.cedar_errors.specs.Answers.{partial_answer};
ghost use Rattle.cedar_layers.specs.Policies.{slots_view, policy_view, policy_location, condition_term};
ghost use Rattle.cedar_evaluator.specs.Decisions.{PartlyDecidesBy, IfLeaves};
ghost use Rattle.cedar_evaluator.specs.Evaluations.{IsPromisedOf};
ghost use Rattle.cedar_evaluator.specs.Direct.{RunsWith};

use crate::conditions::{answer_at, joined_to_true};
use crate::evaluator::{Evaluator, decided_by};
use cedar_errors::evaluator::err::EvaluationError;
use cedar_interpreter::Evaluation;
use cedar_layers::expressions::{Expr, Loc, PartialValue, ResidualExpr, SlotEnv, Type, Value};
use cedar_layers::policies::Policy;
use cedar_operators::failures::type_error;
use cedar_operators::partial::connectives::{Connective, best, residual_connective};
use cedar_operators::typed::{bool_in, bool_part};
use either::Either;
use std::alloc::Global;

impl<'e, 'f> Evaluator<'e, 'f> {
    // What the policy's condition decides, by its parts one after another.
    pub(crate) fn decide_by_parts(
        &self,
        alloc: Global,
        policy: &Policy,
    ) -> Result<Either<bool, Expr>, EvaluationError>
        requires { 6 ≤ self.now.limit }
        ensures decides { PartlyDecidesBy (IsPromisedOf self.now policy.now) result }
        ensures place { IfLeaves result (λ e. expr_loc e ≡ policy_location policy.now) }
        ensures unknown { IfLeaves result (λ e. has_unknown (view e) ≡ true) }
    {
        decided_by(alloc, self.joined_parts(alloc, policy))
    }

    // The value of the policy's condition, or what is left of it.
    fn joined_parts(&self, alloc: Global, policy: &Policy) -> Result<PartialValue, EvaluationError>
        requires { 6 ≤ self.now.limit }
        ensures answer { RunsWith self.now (policy_view policy.now).slots self.now.limit (condition_term
            (policy_view policy.now)) (partial_answer result) }
        ensures place { IfOk result (λ p. partial_loc p ≡ policy_location policy.now) }
    {
        let slots = policy.env();
        let loc = policy.loc();
        let levels = self.limit - 3;
        let principal = self.part(alloc, policy.principal_constraint(), slots, levels);
        let pair = self.beside(
            alloc,
            principal,
            policy.action_constraint(),
            slots,
            levels,
            loc,
        );
        let scope = self.beside(
            alloc,
            pair,
            policy.resource_constraint(),
            slots,
            levels + 1,
            loc,
        );
        self.beside(alloc, scope, policy.when_clause(), slots, levels + 2, loc)
    }

    // The value of a part, where it stands, or what is left of it.
    fn part(
        &self,
        alloc: Global,
        e: &Expr,
        slots: &SlotEnv,
        levels: usize,
    ) -> Result<PartialValue, EvaluationError>
        requires { 3 ≤ levels }
        ensures { RunsWith self.now (slots_view slots.now) levels (view e.now) (partial_answer result) }
    {
        match self.direct_part(e, slots) {
            Some(b) => answer_at(Ok(bool_part(b)), e.source_loc().copied()),
            None => {
                let evaluation = Evaluation {
                    given: &self.given,
                    slots,
                };
                evaluation.interpret(alloc, e, levels)
            }
        }
    }

    // `left && right`, of what the left side answered with so many levels, at this location.
    fn beside(
        &self,
        alloc: Global,
        left: Result<PartialValue, EvaluationError>,
        right: &Expr,
        slots: &SlotEnv,
        levels: usize,
        loc: Option<Loc>,
    ) -> Result<PartialValue, EvaluationError>
        requires { 3 ≤ levels }
        ensures answer { (t : Term) → RunsWith self.now (slots_view slots.now) levels t (partial_answer left) →
            RunsWith self.now (slots_view slots.now) (suc levels) (both t (view right.now)) (partial_answer result) }
        ensures place { IfOk result (λ p. partial_loc p ≡ loc) }
    {
        match left {
            Ok(PartialValue::Value(value)) => {
                self.beside_value(alloc, &value, right, slots, levels, loc)
            }
            Ok(PartialValue::Residual(residual)) => {
                self.beside_residual(alloc, residual, right, slots, levels, loc)
            }
            Err(error) => Err(error.with_enclosing_loc(loc)),
        }
    }

    // The same beside a value.
    fn beside_value(
        &self,
        alloc: Global,
        left: &Value,
        right: &Expr,
        slots: &SlotEnv,
        levels: usize,
        loc: Option<Loc>,
    ) -> Result<PartialValue, EvaluationError>
        requires { 3 ≤ levels }
        ensures answer { (t : Term) → RunsWith self.now (slots_view slots.now) levels t (answers_value left.now.what) →
            RunsWith self.now (slots_view slots.now) (suc levels) (both t (view right.now)) (partial_answer result) }
        ensures place { IfOk result (λ p. partial_loc p ≡ loc) }
    {
        match bool_in(left) {
            Some(true) => joined_to_true(alloc, self.part(alloc, right, slots, levels), loc),
            Some(false) => answer_at(Ok(bool_part(false)), loc),
            None => Err(type_error(alloc, Type::Bool, left).with_enclosing_loc(loc)),
        }
    }

    // The same beside a residual: what is kept of the right side stands beside it.
    fn beside_residual(
        &self,
        alloc: Global,
        left: ResidualExpr,
        right: &Expr,
        slots: &SlotEnv,
        levels: usize,
        loc: Option<Loc>,
    ) -> Result<PartialValue, EvaluationError>
        requires { 3 ≤ levels }
        ensures answer { (t : Term) → RunsWith self.now (slots_view slots.now) levels t (answers_residual
            (residual_term left)) → RunsWith self.now (slots_view slots.now) (suc levels) (both t (view right.now))
            (partial_answer result) }
        ensures place { IfOk result (λ p. partial_loc p ≡ loc) }
    {
        match best(alloc, self.part(alloc, right, slots, levels), right) {
            Ok(kept) => answer_at(residual_connective(alloc, Connective::And, left, kept), loc),
            Err(error) => {
                drop(left);
                Err(error.with_enclosing_loc(loc))
            }
        }
    }
}

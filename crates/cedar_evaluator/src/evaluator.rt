//! The evaluator: what an expression is, and what a policy decides, for one request over one store.
ghost use Rattle.std.specs.Prelude.{◌≡◌, ◌≢◌, ℕ, Option, None, true, Err, IfOk};
ghost use Rattle.cedar_model.specs.Failures.{fails, out_of_memory};
ghost use Rattle.cedar_model.specs.laws.Restricted.{HoldsUnknown};
ghost use Rattle.cedar_model.specs.Responses.{errs_with, decided, result_of};
ghost use Rattle.cedar_model.specs.Settings.{shallow};
ghost use Rattle.cedar_model.specs.Shapes.{has_unknown};
ghost use Rattle.cedar_names.specs.declared.names.Loc.{Loc};
ghost use Rattle.cedar_expressions.specs.declared.expr.Expr as expressions;
ghost use Rattle.cedar_expressions.specs.View.{view, expr_loc};
ghost use Rattle.cedar_values.specs.Residuals.{partial_view, partial_loc, IfValue};
ghost use Rattle.cedar_layers.specs.Parts.{is_restricted_part};
ghost use Rattle.cedar_errors.specs.Answers.{partial_answer, value_answer};
ghost use Rattle.cedar_restricted.specs.Evaluations.{only_values};
ghost use Rattle.cedar_restricted.specs.Elements.{ElementsStand};
ghost use Rattle.cedar_interpreter.specs.Settings.{given_for};
ghost use Rattle.cedar_evaluator.specs.Decisions.{decision_of, partly_decided, IfLeaves};
ghost use Rattle.cedar_evaluator.specs.Variables.{are_of_request};
ghost use Rattle.cedar_layers.specs.Stores.{store_view};
ghost use mathlib.Core.Bool.{Bool-set};

use crate::request::Request;
pub use cedar_errors::evaluator::err::{EvaluationError, evaluation_errors};
use cedar_extensions::Extensions;
pub use cedar_interpreter::Resolution;
use cedar_interpreter::{Evaluation, Given, KnownEntities, Mapper};
use cedar_layers::expressions::{Expr, PartialValue, SlotEnv, Value};
use cedar_layers::policies::{Entities, Policy};
use cedar_operators::failures::non_value;
pub use cedar_operators::operators::{binary_arith, binary_relation, unary_app};
use cedar_operators::typed::get_as_bool;
pub use cedar_restricted::RestrictedEvaluator;
use either::{Either, Left, Right};
use std::alloc::{AllocError, Global};
use std::collections::HashMap;
use std::rc::RcStr;

/// An evaluator: a request, a store of entities, extensions, values for unknowns, and how many levels deep it goes.
#[derive(Drop)]
pub struct Evaluator<'e, 'f> {
    pub(crate) given: Given<'e, 'f>,
    pub(crate) limit: usize,
    ghost of_request: { are_of_request (λ v. partial_view (given_for given v)) ≡ true } by { Bool-set _ _ },
    ghost context_restricted: { is_restricted_part (partial_view given.context) ≡ true } by { Bool-set _ _ },
}

impl<'e, 'f> Evaluator<'e, 'f> {
    ghost use Rattle.cedar_layers.specs.Policies.{slots_view, policy_location};
    ghost use Rattle.cedar_extensions.specs.Extensions.{extensions_view};
    ghost use Rattle.cedar_requests.specs.Requests.{request_view};
    ghost use Rattle.cedar_requests.specs.Substitutions.{values_for};
    ghost use Rattle.cedar_interpreter.specs.Settings.{resolution_view};
    ghost use Rattle.cedar_evaluator.specs.Evaluations.{setting_for, setting_of, setting_with_values, resolving};
    ghost use Rattle.cedar_evaluator.specs.Evaluations.{extensions_given, limit_of};
    ghost use Rattle.cedar_evaluator.specs.Evaluations.{RunsByRules, MeetsLimitByNeed, IsAllowedByRules, MeansWhereKnown};
    ghost use Rattle.cedar_evaluator.specs.Evaluations.{StandsInCompletions, StaysBelowLimit, AnswersValue};
    ghost use Rattle.cedar_evaluator.specs.Evaluations.{IsPromisedOf, DecidesWhereKnown};
    ghost use Rattle.cedar_evaluator.specs.Decisions.{DecidesBy, PartlyDecidesBy};

    /// The evaluator of this request over this store, with these extensions, where no unknown has a value and stored
    /// residuals are answered as they are stored. Evaluation goes at most `limit` levels deep: an expression is one
    /// level, its parts one more. Refuses only if out of memory.
    pub fn new(
        alloc: Global,
        request: Request,
        entities: &'e Entities,
        extensions: &'e Extensions<'f>,
        limit: usize,
    ) -> Result<Evaluator<'e, 'f>, AllocError>
        ensures setting { IfOk result (λ v. (slots : _) → setting_of v slots ≡ setting_for (request_view request)
            (store_view entities.now) (extensions_view extensions.now) (λ n. None) shallow slots) }
        ensures extensions { IfOk result (λ v. extensions_given v ≡ extensions.now) }
        ensures limit { IfOk result (λ v. limit_of v ≡ limit) }
    {
        let (principal, action, resource, context) = request.variable_values(alloc)?;
        let known = KnownEntities::of(alloc, entities, &principal, &action, &resource)?;
        Ok(Evaluator {
            given: Given {
                principal,
                action,
                resource,
                context,
                entities,
                extensions,
                mapper: Mapper::Empty,
                resolution: Resolution::Shallow,
                known,
            },
            limit,
        })
    }

    /// The same evaluator, where the unknowns that the map names have these values.
    pub fn with_unknowns_mapper(self, mapper: &'e HashMap<RcStr, Value>) -> Evaluator<'e, 'f>
        ensures setting { (slots : _) → setting_of result slots
            ≡ setting_with_values (setting_of self.entry slots) (values_for mapper.now.entries) }
        ensures extensions { extensions_given result ≡ extensions_given self.entry }
        ensures limit { limit_of result ≡ limit_of self.entry }
    {
        let Evaluator { given, limit } = self;
        let Given {
            principal,
            action,
            resource,
            context,
            entities,
            extensions,
            mapper: _,
            resolution,
            known,
        } = given;
        Evaluator {
            given: Given {
                principal,
                action,
                resource,
                context,
                entities,
                extensions,
                mapper: Mapper::Values(mapper),
                resolution,
                known,
            },
            limit,
        }
    }

    /// The same evaluator, which answers so what reads a stored residual. It takes no memory.
    pub fn with_resolution(self, resolution: Resolution) -> Evaluator<'e, 'f>
        ensures setting { (slots : _) → setting_of result slots
            ≡ resolving (resolution_view resolution) (setting_of self.entry slots) }
        ensures extensions { extensions_given result ≡ extensions_given self.entry }
        ensures limit { limit_of result ≡ limit_of self.entry }
    {
        let Evaluator { given, limit } = self;
        let Given {
            principal,
            action,
            resource,
            context,
            entities,
            extensions,
            mapper,
            resolution: _,
            known,
        } = given;
        Evaluator {
            given: Given {
                principal,
                action,
                resource,
                context,
                entities,
                extensions,
                mapper,
                resolution,
                known,
            },
            limit,
        }
    }

    /// What reading a stored residual answers.
    pub fn resolution(&self) -> Resolution
        ensures { (slots : _) → resolution_view result ≡ (setting_of self.now slots).resolution }
    {
        self.given.resolution
    }

    /// The value of the expression under these slots, or what is left of it where its value rests on what is unknown,
    /// at the expression's location. Fails with the first error in the order of evaluation, beside an unknown only
    /// where that error is the expression's whatever the unknown stands for; and with `RecursionLimit` exactly where
    /// the evaluation goes more levels deep than the limit. Where the expression is a set, each element of its value
    /// stands where the part does of which it is the value: of equal ones the first stays, with its location; and so do
    /// the elements of a set in it.
    pub fn partial_interpret(
        &self,
        alloc: Global,
        e: &Expr,
        slots: &SlotEnv,
    ) -> Result<PartialValue, EvaluationError>
        ensures rules { RunsByRules self.now (slots_view slots.now) (view e.now) (partial_answer result) }
        ensures limit { MeetsLimitByNeed self.now (slots_view slots.now) (view e.now) (partial_answer result) }
        ensures allowed { IsAllowedByRules self.now (slots_view slots.now) (view e.now) (partial_answer result) }
        ensures known { MeansWhereKnown self.now (slots_view slots.now) (view e.now) (partial_answer result) }
        ensures sound { StandsInCompletions self.now (slots_view slots.now) (view e.now) (partial_answer result) }
        ensures deep_enough { StaysBelowLimit self.now (slots_view slots.now) (view e.now) (partial_answer result) }
        ensures place { IfOk result (λ p. partial_loc p ≡ expr_loc e.now) }
        ensures unknown { IfOk result (λ p. HoldsUnknown (partial_view p)) }
        ensures elements { (n : ℕ) → IfOk result (λ p. IfValue p (ElementsStand n e.now)) }
    {
        let evaluation = Evaluation {
            given: &self.given,
            slots,
        };
        evaluation.interpret(alloc, e, self.limit)
    }

    /// The value of the expression under these slots, at the expression's location. Fails as `partial_interpret` does,
    /// and with `NonValue` and what is left exactly where that leaves something.
    pub fn interpret(
        &self,
        alloc: Global,
        e: &Expr,
        slots: &SlotEnv,
    ) -> Result<Value, EvaluationError>
        ensures answer { AnswersValue self.now (slots_view slots.now) (view e.now) (value_answer result) }
        ensures place { IfOk result (λ v. v.loc ≡ expr_loc e.now) }
        ensures elements { (n : ℕ) → IfOk result (ElementsStand n e.now) }
        ensures known { MeansWhereKnown self.now (slots_view slots.now) (view e.now) (value_answer result) }
    {
        only_value(self.partial_interpret(alloc, e, slots))
    }

    /// Whether the policy's condition is true, or what is left of it. A condition of another value than a boolean is a
    /// `TypeError` that expects `Bool`; an error of the condition is that error. What is left is at the policy's
    /// location, as the condition is, and holds an unknown.
    pub fn partial_evaluate(
        &self,
        alloc: Global,
        policy: &Policy,
    ) -> Result<Either<bool, Expr>, EvaluationError>
        ensures decides { PartlyDecidesBy (IsPromisedOf self.now policy.now) result }
        ensures place { IfLeaves result (λ e. expr_loc e ≡ policy_location policy.now) }
        ensures unknown { IfLeaves result (λ e. has_unknown (view e) ≡ true) }
    {
        self.decide_condition(alloc, policy)
    }

    /// Whether the policy's condition is true. A condition of another value than a boolean is a `TypeError` that
    /// expects `Bool`; an error of the condition is that error, and what is left of it a `NonValue`.
    pub fn evaluate(&self, alloc: Global, policy: &Policy) -> Result<bool, EvaluationError>
        ensures decides { DecidesBy (IsPromisedOf self.now policy.now) result }
        ensures known { DecidesWhereKnown self.now policy.now (decision_of result) }
    {
        wholly_decided(self.partial_evaluate(alloc, policy))
    }
}

// The value, or that something is left.
#[tactic(auto, unfolding(cedar_restricted::specs::Evaluations::only_values))]
fn only_value(answer: Result<PartialValue, EvaluationError>) -> Result<Value, EvaluationError>
    ensures answer { value_answer result ≢ fails out_of_memory → value_answer result ≡ only_values
        (partial_answer answer) }
    ensures place { (l : Option Loc) → IfOk answer (λ p. partial_loc p ≡ l) → IfOk result (λ v. v.loc ≡ l) }
    ensures elements { (n : ℕ) (e : expressions.Expr) → IfOk answer (λ p. IfValue p (ElementsStand n e)) → IfOk result
        (ElementsStand n e) }
{
    match answer {
        Ok(PartialValue::Value(value)) => Ok(value),
        Ok(PartialValue::Residual(residual)) => Err(non_value(residual.as_expr())),
        Err(error) => Err(error),
    }
}

// What this answer of a condition decides.
#[tactic(auto, unfolding(cedar_model::specs::Responses::decided, cedar_model::specs::Responses::decided_bool))]
pub(crate) fn decided_by(
    alloc: Global,
    answer: Result<PartialValue, EvaluationError>,
) -> Result<Either<bool, Expr>, EvaluationError>
    ensures decides { partly_decided result ≢ errs_with out_of_memory → partly_decided result ≡ decided
        (partial_answer answer) }
    ensures place { (l : Option Loc) → IfOk answer (λ p. partial_loc p ≡ l) → IfLeaves result (λ e. expr_loc e ≡ l) }
    ensures unknown { IfLeaves result (λ e. has_unknown (view e) ≡ true) }
{
    match answer {
        Ok(PartialValue::Value(value)) => Ok(Left(get_as_bool(alloc, &value)?)),
        Ok(PartialValue::Residual(residual)) => Ok(Right(residual.into_expr())),
        Err(error) => Err(error),
    }
}

// What is decided, or that something is left.
#[tactic(auto, unfolding(cedar_model::specs::Responses::result_of))]
fn wholly_decided(
    decided: Result<Either<bool, Expr>, EvaluationError>,
) -> Result<bool, EvaluationError>
    ensures { decision_of result ≢ Err out_of_memory → decision_of result ≡ result_of (partly_decided decided) }
{
    match decided {
        Ok(Left(is_true)) => Ok(is_true),
        Ok(Right(expr)) => Err(non_value(&expr)),
        Err(error) => Err(error),
    }
}

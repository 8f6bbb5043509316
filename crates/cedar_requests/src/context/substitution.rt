//! Values for the unknowns of a context.
ghost use Rattle.std.specs.Prelude.{◌≡◌, ◌≢◌, ◌≤◌, ◌++◌, ◌∷◌, [], suc, true, length, Ok, IfOk, IfErr, IfSome};
ghost use Rattle.std.specs.List.Sorted.{IsStrictlySortedBy};
ghost use Rattle.cedar_model.specs.Terms.{record_of};
ghost use Rattle.cedar_model.specs.Failures.{recursion_limit};
ghost use Rattle.cedar_model.specs.Settings.{Setting};
ghost use Rattle.cedar_model.specs.Shapes.{is_restricted, are_restricted, are_restricted_at};
ghost use Rattle.cedar_model.specs.Rules.{Meets, Runs};
ghost use Rattle.cedar_model.specs.Chains.{substituted_at};
ghost use Rattle.cedar_model.specs.Depth.{substituted_height};
ghost use Rattle.cedar_expressions.specs.View.{view, terms_view, fields_view, expr_loc};
ghost use Rattle.cedar_expressions.specs.Nodes.{key_order};
ghost use Rattle.cedar_extensions.specs.Extensions.{extensions_view, calls_of};
ghost use Rattle.cedar_errors.specs.Failures.{failure_of};
ghost use Rattle.cedar_restricted.specs.Keys.{texts_of, fields_named};
ghost use Rattle.cedar_restricted.specs.Parts.{HasKeys, answered_locs};
ghost use Rattle.cedar_restricted.specs.declared.whole.Whole.TheVariants.{Record};
ghost use Rattle.cedar_restricted.specs.Evaluations.{IsBare};
ghost use Rattle.cedar_restricted.specs.Evaluators.{extensions_read, calls_in, limit_of};
ghost use Rattle.cedar_requests.specs.Contexts.{context_view, context_values, context_part_value, context_locs};
ghost use Rattle.cedar_requests.specs.Contexts.{residual_locs, entry_locs, expr_locs};
ghost use Rattle.cedar_requests.specs.Substitutions.{values_for, IsStepOfContext, IsEvaluatedAgain};
ghost use Rattle.cedar_requests.specs.Substitutions.{KeepsCompletions, context_answer, record_with};
ghost use Rattle.cedar_requests.specs.Substitutions.{AreAnswered, IsAnsweredNext};

use super::Context;
use super::creation::of_answers;
use super::pairs::{ContextPairs, ResidualPairs};
use cedar_errors::evaluator::err::{EvaluationError, evaluation_errors};
use cedar_expressions::Expr;
use cedar_extensions::Extensions;
use cedar_restricted::{Answers, BorrowedRestrictedExpr, RestrictedEvaluator};
use cedar_values::Value;
use evaluation_errors::RecursionLimitError;
use std::alloc::{AllocError, Global};
use std::collections::{BTreeMap, HashMap};
use std::rc::RcStr;

impl Context {
    /// The context with the map's values for the unknowns that it names, at any depth and whatever their annotations.
    /// A context of values stays as it is, and is never refused. The record of a residual is evaluated again, with
    /// these extensions, so that the answer is a context of values, or what is left where an unknown still stands in
    /// it. Fails with the first error in the order of evaluation, or with `RecursionLimit` exactly where that
    /// evaluation goes more than `limit` levels deep, which it never does for a record that is no higher with the
    /// values in it; or if out of memory. Each attribute stands where it did, so a value for an unknown that was the
    /// whole attribute has the unknown's location. A world that completes the context, and the map with it, completes
    /// the answer.
    pub fn substitute(
        self,
        alloc: Global,
        map: &HashMap<RcStr, Value>,
        extensions: &Extensions<'_>,
        limit: usize,
    ) -> Result<Context, EvaluationError>
        ensures substituted { IsStepOfContext (extensions_view extensions.now) (calls_of extensions.now) limit
            (values_for map.now.entries) (context_view self) result }
        ensures answer { IsEvaluatedAgain (extensions_view extensions.now) (calls_of extensions.now) limit
            (values_for map.now.entries) (context_view self) result }
        ensures values { IfSome (context_values self) (λ m. result ≡ Ok self) }
        ensures low { substituted_height (values_for map.now.entries) (context_part_value self) ≤ limit →
            IfErr result (λ e. failure_of e ≢ recursion_limit) }
        ensures completions { KeepsCompletions (extensions_view extensions.now) (calls_of extensions.now)
            (values_for map.now.entries) (context_view self) result }
        ensures places { IfOk result (λ c. context_locs c ≡ context_locs self) }
    {
        match self.pairs {
            ContextPairs::Values(_) => Ok(self),
            ContextPairs::Residual(residual) => evaluated_again(
                alloc, residual, map, extensions, limit,
            ),
        }
    }
}

// The context that the record of these expressions is evaluated to, with the map's values in it: the record is one
// level, and its parts have one less.
fn evaluated_again(
    alloc: Global,
    residual: ResidualPairs,
    map: &HashMap<RcStr, Value>,
    extensions: &Extensions<'_>,
    limit: usize,
) -> Result<Context, EvaluationError>
    ensures answer { (s : Setting) → IsBare (extensions_view extensions.now) s →
        Meets (Runs s (calls_of extensions.now) limit (record_with (values_for map.now.entries) residual))
        (context_answer result) }
    ensures places { IfOk result (λ c. context_locs c ≡ residual_locs residual) }
{
    if limit == 0 {
        drop(residual);
        Err(limit_error())
    } else {
        let evaluator = RestrictedEvaluator::new(extensions, limit - 1);
        part_by_part(alloc, residual, map, &evaluator)
    }
}

// The error that the evaluation goes deeper than its limit.
#[cold]
fn limit_error() -> EvaluationError
    ensures { failure_of result ≡ recursion_limit }
{
    EvaluationError::RecursionLimit(RecursionLimitError { source_loc: None })
}

// The same, part by part: each part of the context stands where the expression does of which it is made.
fn part_by_part(
    alloc: Global,
    residual: ResidualPairs,
    map: &HashMap<RcStr, Value>,
    evaluator: &RestrictedEvaluator<'_, '_>,
) -> Result<Context, EvaluationError>
    ensures answer { (s : Setting) → IsBare (extensions_read evaluator.now) s →
        Meets (Runs s (calls_in evaluator.now) (suc (limit_of evaluator.now))
        (record_with (values_for map.now.entries) residual)) (context_answer result) }
    ensures places { IfOk result (λ c. context_locs c ≡ residual_locs residual) }
{
    let parts = parts_with(alloc, residual.as_map(), map);
    drop(residual);
    match parts {
        Ok((keys, parts)) => record_of_parts(alloc, keys, parts, evaluator),
        Err(error) => Err(EvaluationError::Memory(error)),
    }
}

// The keys of a record, and its parts with the map's values for the unknowns that they name, both in the order of the
// keys.
fn parts_with(
    alloc: Global,
    pairs: &BTreeMap<RcStr, Expr>,
    map: &HashMap<RcStr, Value>,
) -> Result<(Vec<RcStr>, Vec<Expr>), AllocError>
    ensures fields { IfOk result (λ p. fields_named (texts_of p.0.items) (terms_view p.1.items)
        ≡ substituted_at (values_for map.now.entries) (fields_view pairs.now.entries)) }
    ensures keys { IfOk result
        (λ p. (length p.0.items ≡ length p.1.items) × IsStrictlySortedBy key_order p.0.items) }
    ensures places { IfOk result (λ p. expr_locs p.1.items ≡ entry_locs pairs.now.entries) }
{
    let mut keys: Vec<RcStr> = Vec::with_capacity(alloc, pairs.len())?;
    let mut parts: Vec<Expr> = Vec::with_capacity(alloc, pairs.len())?;
    'fields: for (key, part) in pairs.iter() {
        keys.push(key.clone()?)?;
        parts.push(part.substitute(alloc, map)?)?;
    }
    Ok((keys, parts))
}

// The context that the record of these parts under the keys is evaluated to.
fn record_of_parts(
    alloc: Global,
    keys: Vec<RcStr>,
    parts: Vec<Expr>,
    evaluator: &RestrictedEvaluator<'_, '_>,
) -> Result<Context, EvaluationError>
    requires keys { HasKeys (Record keys) (length parts.items) }
    requires restricted { are_restricted_at (fields_named (texts_of keys.items) (terms_view parts.items)) ≡ true }
    ensures answer { (s : Setting) → IsBare (extensions_read evaluator.now) s →
        Meets (Runs s (calls_in evaluator.now) (suc (limit_of evaluator.now))
        (record_of (fields_named (texts_of keys.items) (terms_view parts.items)))) (context_answer result) }
    ensures places { IfOk result (λ c. context_locs c ≡ expr_locs parts.items) }
{
    let answers = answers_of(alloc, parts.as_slice(), evaluator);
    drop(parts);
    match answers {
        Ok(answers) => match of_answers(alloc, keys, answers) {
            Ok(context) => Ok(context),
            Err(error) => Err(EvaluationError::Memory(error)),
        },
        Err(error) => {
            drop(keys);
            Err(error)
        }
    }
}

// What these parts are answered, in order, or the first error.
fn answers_of(
    alloc: Global,
    parts: &[Expr],
    evaluator: &RestrictedEvaluator<'_, '_>,
) -> Result<Answers, EvaluationError>
    requires { are_restricted (terms_view parts.now) ≡ true }
    ensures answers { (s : Setting) → IsBare (extensions_read evaluator.now) s →
        AreAnswered (Runs s (calls_in evaluator.now) (limit_of evaluator.now)) (terms_view parts.now) result }
    ensures places { IfOk result (λ a. answered_locs a ≡ expr_locs parts.now) }
{
    let mut answers = Answers::Values(Vec::new(alloc));
    'parts: for part in parts {
        match with_answer(alloc, answers, part, evaluator) {
            Ok(more) => answers = more,
            Err(error) => return Err(error),
        }
    }
    Ok(answers)
}

// These answers, and the part's behind them.
fn with_answer(
    alloc: Global,
    answers: Answers,
    part: &Expr,
    evaluator: &RestrictedEvaluator<'_, '_>,
) -> Result<Answers, EvaluationError>
    requires { is_restricted (view part.now) ≡ true }
    ensures answer { (s : Setting) → IsBare (extensions_read evaluator.now) s →
        IsAnsweredNext (Runs s (calls_in evaluator.now) (limit_of evaluator.now)) (view part.now) answers result }
    ensures places { IfOk result (λ a. answered_locs a ≡ answered_locs answers ++ expr_loc part.now ∷ []) }
{
    match evaluator.partial_interpret(alloc, BorrowedRestrictedExpr::new_unchecked(part)) {
        Ok(answer) => match answers.with(alloc, answer) {
            Ok(answers) => Ok(answers),
            Err(error) => Err(EvaluationError::Memory(error)),
        },
        Err(error) => {
            drop(answers);
            Err(error)
        }
    }
}

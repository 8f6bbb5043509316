//! How contexts are made of restricted expressions.
ghost use Rattle.std.specs.Prelude.{◌≡◌, ◌≢◌, ◌≤◌, true, false, Some, IfOk, IfErr};
ghost use Rattle.cedar_model.specs.Terms.{record_of};
ghost use Rattle.cedar_model.specs.Values.{record_represented};
ghost use Rattle.cedar_model.specs.Shapes.{is_restricted, are_restricted_at, have_unknown_at};
ghost use Rattle.cedar_model.specs.Failures.{value};
ghost use Rattle.cedar_model.specs.Failures as model;
ghost use Rattle.cedar_model.specs.Settings.{Setting, known_context, residual_context};
ghost use Rattle.cedar_model.specs.Rules.{Meets};
ghost use Rattle.cedar_model.specs.Agreement.{height};
ghost use Rattle.cedar_model.specs.Restricted.{IsSoundPart};
ghost use Rattle.cedar_expressions.specs.View.{view, fields_view};
ghost use Rattle.cedar_values.specs.Sound.{whats_at};
ghost use Rattle.cedar_values.specs.Residuals.{partial_view, residual_term};
ghost use Rattle.cedar_extensions.specs.Extensions.{extensions_view, calls_of};
ghost use Rattle.cedar_restricted.specs.Evaluations.{IsBare, IsAnswerWithin};
ghost use Rattle.cedar_restricted.specs.Views.{borrowed_term, borrowed_loc, pairs_in};
ghost use Rattle.cedar_restricted.specs.Parts.{HasKeys, count, answered_locs};
ghost use Rattle.cedar_restricted.specs.declared.whole.Whole.TheVariants.{Record};
ghost use Rattle.cedar_requests.specs.Contexts.{context_view, context_part_value, context_pairs, context_locs};
ghost use Rattle.cedar_requests.specs.Contexts.{context_values};
ghost use Rattle.cedar_requests.specs.Contexts.{residual_fields, value_locs};
ghost use Rattle.cedar_requests.specs.Substitutions.{context_answer, IsRecordOf, IsRestrictedRecord};
ghost use Rattle.cedar_requests.specs.declared.context.pairs.ContextPairs.TheVariants.{Residual};
ghost use Rattle.cedar_requests.specs.Errors.{NamesAt};
ghost use Rattle.cedar_requests.specs.Creations.{is_record, record_of_pairs, IsRecordPart, IsNoRecord, IsOfRecord};
ghost use Rattle.cedar_requests.specs.Creations.{IsCreated, IsCreatedOfPairs, IsCreatedWithinLimit};

use super::Context;
use super::pairs::{ContextPairs, ResidualPairs};
use super::values::ContextValues;
use crate::errors::{ContextCreationError, context_creation_errors};
use cedar_errors::evaluator::err::EvaluationError;
use cedar_expressions::Expr;
use cedar_extensions::Extensions;
use cedar_restricted::{
    Answers, BorrowedRestrictedExpr, RestrictedEvaluator, RestrictedExpr, map_under,
};
use cedar_values::{PartialValue, ResidualExpr, Value, ValueKind};
use std::alloc::{AllocError, Global};
use std::collections::BTreeMap;
use std::rc::{Rc, RcStr};

impl Context {
    /// The context that the record is evaluated to, with these extensions: of values, or of what is left where an
    /// unknown stands in it. Refuses what is no record with `NotARecord`, before anything is evaluated. Where the
    /// evaluation fails, `Evaluation` holds its error: the first in the order of evaluation, or `RecursionLimit`
    /// exactly where the evaluation goes more than `limit` levels deep (the record is one level, its parts one more),
    /// which it never does for a record that is no higher. `Memory` is out of memory.
    pub fn from_expr(
        alloc: Global,
        expr: BorrowedRestrictedExpr<'_>,
        extensions: &Extensions<'_>,
        limit: usize,
    ) -> Result<Context, ContextCreationError>
        ensures created { IsCreated (extensions_view extensions.now) (calls_of extensions.now) limit
            (borrowed_term expr.entry) result }
        ensures place { IfErr result (NamesAt (borrowed_loc expr.entry)) }
        ensures low { IsCreatedWithinLimit limit (borrowed_term expr.entry) result }
    {
        if is_record(expr.as_ref()) {
            of_record(alloc, expr, extensions, limit)
        } else {
            Err(not_a_record(expr))
        }
    }

    /// The context that the record of these pairs is evaluated to, as `from_expr` does. Refuses the
    /// first duplicate key with `ExpressionConstruction`, which holds a `DuplicateKey` in the context `in context`,
    /// before anything is evaluated.
    pub fn from_pairs(
        alloc: Global,
        pairs: Vec<(RcStr, RestrictedExpr)>,
        extensions: &Extensions<'_>,
        limit: usize,
    ) -> Result<Context, ContextCreationError>
        ensures created { IsCreatedOfPairs (extensions_view extensions.now) (calls_of extensions.now) limit
            (pairs_in pairs.items) result }
        ensures low { IsCreatedWithinLimit limit (record_of_pairs (pairs_in pairs.items)) result }
    {
        match RestrictedExpr::record(alloc, pairs) {
            Ok(record) => {
                let context = of_record(alloc, record.as_borrowed(), extensions, limit);
                drop(record);
                context
            }
            Err(error) => Err(ContextCreationError::from(error.with_context("in context"))),
        }
    }

    /// The context of these attributes with their values, which whoever else holds them and its copies share. It takes
    /// no memory: `alloc` is for the expressions that the context is walked as.
    pub fn from_shared_values(alloc: Global, values: Rc<BTreeMap<RcStr, Value>>) -> Context
        ensures view { context_view result ≡ known_context (whats_at values.value.entries) }
        ensures map { context_values result ≡ Some values.value }
        ensures places { context_locs result ≡ value_locs values.value }
    {
        Context {
            pairs: ContextPairs::Values(ContextValues::of_shared(values)),
            alloc,
        }
    }

    /// The context of these expressions under their names, of which one or more hold an unknown. They are restricted:
    /// literals, unknowns, sets, records and calls of extension functions alone. It takes no memory: `alloc` is for the
    /// record that the context is walked as.
    pub fn from_residual(alloc: Global, pairs: BTreeMap<RcStr, Expr>) -> Context
        requires restricted { are_restricted_at (fields_view pairs.entries) ≡ true }
        requires unknown { have_unknown_at (fields_view pairs.entries) ≡ true }
        ensures { context_view result ≡ residual_context (fields_view pairs.entries) }
    {
        let residual = ResidualPairs::new(pairs);
        Context::of_residual(alloc, residual)
    }

    // The context of these pairs, of which one or more hold an unknown.
    fn of_residual(alloc: Global, residual: ResidualPairs) -> Context
        ensures { context_pairs result ≡ Residual residual }
    {
        Context {
            pairs: ContextPairs::Residual(residual),
            alloc,
        }
    }
}

// The context that the record is evaluated to.
fn of_record(
    alloc: Global,
    expr: BorrowedRestrictedExpr<'_>,
    extensions: &Extensions<'_>,
    limit: usize,
) -> Result<Context, ContextCreationError>
    requires { is_record (borrowed_term expr) ≡ true }
    ensures created { (s : Setting) → IsBare (extensions_view extensions.now) s →
        IsOfRecord s (calls_of extensions.now) limit (borrowed_term expr.entry) result }
    ensures low { IsCreatedWithinLimit limit (borrowed_term expr.entry) result }
{
    match evaluate_record(alloc, expr, extensions, limit) {
        Ok(context) => Ok(context),
        Err(error) => Err(ContextCreationError::from(error)),
    }
}

// The context that the record is evaluated to, or the error of its evaluation.
fn evaluate_record(
    alloc: Global,
    expr: BorrowedRestrictedExpr<'_>,
    extensions: &Extensions<'_>,
    limit: usize,
) -> Result<Context, EvaluationError>
    requires { is_record (borrowed_term expr) ≡ true }
    ensures answer { (s : Setting) → IsBare (extensions_view extensions.now) s →
        Meets (IsAnswerWithin s (calls_of extensions.now) limit (borrowed_term expr.entry)) (context_answer result) }
    ensures low { height (borrowed_term expr.entry) ≤ limit → context_answer result ≢ model.limit }
{
    let evaluator = RestrictedEvaluator::new(extensions, limit);
    match evaluator.partial_interpret(alloc, expr) {
        Ok(part) => match of_part(alloc, part) {
            Ok(context) => Ok(context),
            Err(error) => Err(EvaluationError::Memory(error)),
        },
        Err(error) => Err(error),
    }
}

// The error that the expression is no record.
#[cold]
fn not_a_record(expr: BorrowedRestrictedExpr<'_>) -> ContextCreationError
    requires { is_record (borrowed_term expr) ≡ false }
    ensures created { IsNoRecord (borrowed_term expr.entry) result }
    ensures place { NamesAt (borrowed_loc expr.entry) result }
{
    match expr.to_owned() {
        Ok(owned) => ContextCreationError::NotARecord(context_creation_errors::NotARecord {
            expr: Expr::from(owned),
        }),
        Err(error) => ContextCreationError::Memory(error),
    }
}

// The context of a record of values, or of a residual that is a record.
#[tactic(auto, unfolding(cedar_model::specs::Settings::context_value))]
fn of_part(alloc: Global, part: PartialValue) -> Result<Context, AllocError>
    requires record { IsRecordPart (partial_view part) }
    requires restricted { IsSoundPart (partial_view part) }
    ensures { IfOk result (λ c. context_part_value c ≡ partial_view part) }
{
    match part {
        PartialValue::Value(value) => Ok(Context::from_shared_values(alloc, values_in(value)?)),
        PartialValue::Residual(residual) => Ok(Context::of_residual(alloc, pairs_of(residual)?)),
    }
}

// The context of these answers under the keys, in turn.
#[tactic(auto, unfolding(cedar_model::specs::Settings::context_value))]
pub(super) fn of_answers(
    alloc: Global,
    keys: Vec<RcStr>,
    answers: Answers,
) -> Result<Context, AllocError>
    requires keys { HasKeys (Record keys) (count answers) }
    requires restricted { IsRestrictedRecord keys answers }
    ensures view { IfOk result (IsRecordOf keys answers) }
    ensures places { IfOk result (λ c. context_locs c ≡ answered_locs answers) }
{
    match answers {
        Answers::Values(values) => {
            let values = map_under(alloc, keys, values)?;
            Ok(Context::from_shared_values(alloc, Rc::new(alloc, values)?))
        }
        Answers::Mixed(mixed) => {
            let pairs = map_under(alloc, keys, mixed.into_exprs())?;
            Ok(Context::of_residual(alloc, ResidualPairs::new(pairs)))
        }
    }
}

// The values of the record, shared.
fn values_in(whole: Value) -> Result<Rc<BTreeMap<RcStr, Value>>, AllocError>
    requires { IsRecordPart (value whole.what) }
    ensures { IfOk result (λ m. record_represented (whats_at m.value.entries) ≡ whole.what) }
{
    let shared = shared_values(&whole);
    drop(whole);
    Ok(shared?)
}

// The same of a value that is lent.
fn shared_values(whole: &Value) -> Result<Rc<BTreeMap<RcStr, Value>>, AllocError>
    requires { IsRecordPart (value whole.now.what) }
    ensures { IfOk result (λ m. record_represented (whats_at m.value.entries) ≡ whole.now.what) }
{
    match whole.value_kind() {
        ValueKind::Record(pairs) => Ok(pairs.clone()?),
        ValueKind::Lit(_) => unreachable!(),
        ValueKind::Set(_) => unreachable!(),
        ValueKind::ExtensionValue(_) => unreachable!(),
    }
}

// The expressions of the residual, which is a record.
fn pairs_of(residual: ResidualExpr) -> Result<ResidualPairs, AllocError>
    requires record { is_record (residual_term residual) ≡ true }
    requires restricted { is_restricted (residual_term residual) ≡ true }
    ensures { IfOk result (λ r. record_of (residual_fields r) ≡ residual_term residual) }
{
    let expr = residual.into_expr();
    let shared = shared_pairs(&expr);
    drop(expr);
    let shared = shared?;
    Ok(ResidualPairs::new(Rc::unwrap_or_clone(shared)?))
}

// The parts of the record, shared.
fn shared_pairs(expr: &Expr) -> Result<Rc<BTreeMap<RcStr, Expr>>, AllocError>
    requires { is_record (view expr.now) ≡ true }
    ensures { IfOk result (λ m. record_of (fields_view m.value.entries) ≡ view expr.now) }
{
    match expr.as_record() {
        Some(pairs) => Ok(pairs.clone()?),
        None => unreachable!(),
    }
}

// Whether the expression is a record.
fn is_record(expr: &Expr) -> bool
    ensures { result ≡ is_record (view expr.now) }
{
    expr.as_record().is_some()
}

//! What the answers of parts make: a set, a record or a call.
ghost use Rattle.std.specs.Prelude.{◌≡◌, None, true, length, IfOk};
ghost use Rattle.std.specs.List.{zip};
ghost use Rattle.std.specs.List.Sorted.{IsStrictlySortedBy};
ghost use Rattle.std.specs.BTreeMap.{IsFromIterResult};
ghost use Rattle.cedar_model.specs.Terms as Terms;
ghost use Rattle.cedar_model.specs.Values.{record_represented};
ghost use Rattle.cedar_model.specs.Sets.{represented_fields_of};
ghost use Rattle.cedar_model.specs.Rules.{LooksUp, Meets};
ghost use Rattle.cedar_model.specs.Shapes.{has_unknown};
ghost use Rattle.cedar_names.specs.Names.{name_text};
ghost use Rattle.cedar_expressions.specs.View.{view, terms_view};
ghost use Rattle.cedar_values.specs.Sound.{whats, inside_each};
ghost use Rattle.cedar_values.specs.Residuals.{IfValue};
ghost use Rattle.cedar_extensions.specs.Extensions.{extensions_view, calls_of};
ghost use Rattle.cedar_restricted.specs.Evaluations.{AnswersWith, partial_answer};
ghost use Rattle.cedar_restricted.specs.declared.whole.Whole.TheVariants as wholes;
ghost use Rattle.cedar_restricted.specs.Parts.{HasKeys, count, set_made, record_made, CallMakes, Makes};
ghost use Rattle.cedar_restricted.specs.Elements.{IsMadeOf};
ghost use Rattle.cedar_expressions.specs.Nodes.{key_order};
ghost use Rattle.cedar_restricted.specs.Keys.{texts_of, fields_named, each_under};

use crate::answers::{Answers, Mixed};
use crate::whole::Whole;
use cedar_errors::evaluator::err::EvaluationError;
use cedar_expressions::Expr;
use cedar_extensions::Extensions;
use cedar_names::Name;
use cedar_values::{PartialValue, ResidualExpr, Value};
use std::alloc::{AllocError, Global};
use std::collections::BTreeMap;
use std::rc::RcStr;

// What the answers make, with these extensions.
pub(crate) fn whole_of(
    alloc: Global,
    extensions: &Extensions<'_>,
    whole: Whole,
    answers: Answers,
) -> Result<PartialValue, EvaluationError>
    requires { HasKeys whole (count answers) }
    ensures answer { Meets (Makes (extensions_view extensions.now) (calls_of extensions.now) whole answers)
        (partial_answer result) }
    ensures elements { whole ≡ wholes.Set → IfOk result (λ p. IfValue p (IsMadeOf answers)) }
{
    match whole {
        Whole::Set => set_of(alloc, answers),
        Whole::Record(keys) => record_of(alloc, keys, answers),
        Whole::Call(fn_name) => call_of(alloc, extensions, fn_name, answers),
    }
}

fn set_of(alloc: Global, answers: Answers) -> Result<PartialValue, EvaluationError>
    ensures answer { AnswersWith result (set_made answers) }
    ensures elements { IfOk result (λ p. IfValue p (IsMadeOf answers)) }
{
    match answers {
        Answers::Values(values) => Ok(PartialValue::Value(Value::set(alloc, values, None)?)),
        Answers::Mixed(mixed) => {
            let expr = Expr::set(alloc, mixed.into_exprs())?;
            Ok(PartialValue::Residual(ResidualExpr::new(expr)))
        }
    }
}

fn record_of(
    alloc: Global,
    keys: Vec<RcStr>,
    answers: Answers,
) -> Result<PartialValue, EvaluationError>
    requires { HasKeys (wholes.Record keys) (count answers) }
    ensures { AnswersWith result (record_made keys answers) }
{
    match answers {
        Answers::Values(values) => Ok(PartialValue::Value(record_value(alloc, keys, values)?)),
        Answers::Mixed(mixed) => {
            let expr = record_expr(alloc, keys, mixed)?;
            Ok(PartialValue::Residual(ResidualExpr::new(expr)))
        }
    }
}

// Only of values a function is looked up and called.
fn call_of(
    alloc: Global,
    extensions: &Extensions<'_>,
    fn_name: Name,
    answers: Answers,
) -> Result<PartialValue, EvaluationError>
    ensures { Meets (CallMakes (extensions_view extensions.now) (calls_of extensions.now) fn_name answers)
        (partial_answer result) }
{
    match answers {
        Answers::Values(values) => call_function(alloc, extensions, &fn_name, values.as_slice()),
        Answers::Mixed(mixed) => {
            let expr = Expr::call_extension_fn(alloc, fn_name, mixed.into_exprs())?;
            Ok(PartialValue::Residual(ResidualExpr::new(expr)))
        }
    }
}

// What the function of this name answers to these values.
fn call_function(
    alloc: Global,
    extensions: &Extensions<'_>,
    fn_name: &Name,
    args: &[Value],
) -> Result<PartialValue, EvaluationError>
    ensures { Meets (LooksUp (calls_of extensions.now) ((extensions_view extensions.now).arity (name_text fn_name.now))
        (name_text fn_name.now) (whats args.now)) (partial_answer result) }
{
    match extensions.call(alloc, fn_name, args) {
        Ok(part) => Ok(part),
        Err(error) => Err(error),
    }
}

/// The record of these values under these keys, in turn, with no location of its own. Refuses only if out of memory.
///
/// It asks for as many values as keys, and that each key comes after the one before it, by their bytes, as the keys of
/// a record stand. Else it would not be the record of all of them: a key that comes twice has one value, the last, and
/// what is left over of keys or values goes.
pub fn record_value(
    alloc: Global,
    keys: Vec<RcStr>,
    values: Vec<Value>,
) -> Result<Value, AllocError>
    requires { (length keys.items ≡ length values.items) × IsStrictlySortedBy key_order keys.items }
    ensures what { IfOk result (λ v. v.what ≡ record_represented
        (represented_fields_of (each_under (texts_of keys.items) (whats values.items)))) }
    ensures inside { IfOk result (λ v. v.inside ≡ inside_each values.items) }
    ensures loc { IfOk result (λ v. v.loc ≡ None) }
{
    let fields = map_under(alloc, keys, values)?;
    Ok(Value::record(alloc, fields, None)?)
}

// The record of these expressions under these keys.
fn record_expr(alloc: Global, keys: Vec<RcStr>, mixed: Mixed) -> Result<Expr, AllocError>
    requires { (length keys.items ≡ length mixed.exprs.items) × IsStrictlySortedBy key_order keys.items }
    ensures view { IfOk result
        (λ e. view e ≡ Terms.record_of (fields_named (texts_of keys.items) (terms_view mixed.exprs.items))) }
    ensures unknown { IfOk result (λ e. has_unknown (view e) ≡ true) }
{
    let fields = map_under(alloc, keys, mixed.into_exprs())?;
    Ok(Expr::record_map(alloc, fields)?)
}

/// The map of these values under these keys, in turn: of a key that comes twice the last value, and what is left over of
/// keys or values goes. Refuses only if out of memory.
pub fn map_under<V: Drop>(
    alloc: Global,
    keys: Vec<RcStr>,
    values: Vec<V>,
) -> Result<BTreeMap<RcStr, V>, AllocError>
    ensures { IfOk result (λ m. IsFromIterResult key_order (zip keys.items values.items) m) }
{
    keys.into_iter().zip(values).collect(alloc)
}

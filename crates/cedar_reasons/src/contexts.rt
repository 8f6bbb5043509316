//! Contexts of which these facts alone are kept.
ghost use Rattle.std.specs.Prelude.{◌≡◌, ◌++◌, true, length, map, IfOk, OnOk};
ghost use Rattle.std.specs.List.Sorted.{IsStrictlySortedBy};
ghost use Rattle.std.specs.Rc.{rc_str_bytes};
ghost use Rattle.cedar_model.specs.Shapes.{are_restricted_at};
ghost use Rattle.cedar_model.specs.Values.{expression_of, expressions_at};
ghost use Rattle.cedar_expressions.specs.View.{view, terms_view, fields_view};
ghost use Rattle.cedar_expressions.specs.Nodes.{key_order};
ghost use Rattle.cedar_values.specs.Sound.{whats_at};
ghost use Rattle.cedar_restricted.specs.Keys.{texts_of, fields_named};
ghost use Rattle.cedar_restricted.proofs.Collected.{names_under};
ghost use Rattle.cedar_requests.specs.Contexts.{context_view, context_keys};
ghost use Rattle.cedar_reasons.specs.Facts.{facts_view, of_context_value, context_facts};
ghost use Rattle.cedar_reasons.specs.Reduced.{context_terms, reduced_term, reduced_fields, keeps_names, reduced_context};
ghost use Rattle.cedar_reasons.specs.Held.{held_view};

use crate::facts::{Fact, is_kept};
use crate::names::unknown_context_value;
use cedar_fallible::add_last;
use cedar_layers::expressions::{Expr, Value};
use cedar_requests::Context;
use cedar_restricted::map_under;
use std::alloc::{AllocError, Global};
use std::collections::BTreeMap;
use std::rc::RcStr;

// The values of a context, or its expressions.
#[derive(Clone, Copy)]
enum Held<'x> {
    Values(&'x BTreeMap<RcStr, Value>),
    Residual(&'x BTreeMap<RcStr, Expr>),
}

fn pairs_of(context: &Context) -> Held<'_>
    ensures view { held_view result ≡ context_view context.now }
    ensures restricted { are_restricted_at (context_terms (held_view result)) ≡ true }
{
    match context.as_value() {
        Some(values) => Held::Values(values),
        None => match context.as_residual() {
            Some(pairs) => Held::Residual(pairs),
            None => unreachable!(),
        },
    }
}

/// Puts those of the context behind the others.
pub(crate) fn add_context<'x>(
    facts: &mut Vec<Fact<'x>>,
    context: &'x Context,
) -> Result<(), AllocError>
    ensures { OnOk result (facts_view facts.new.items ≡ facts_view facts.old.items
        ++ context_facts (context_view context.now)) }
{
    add_last(facts, Fact::Context)?;
    match pairs_of(context) {
        Held::Values(values) => {
            add_names(facts, values)?;
            Ok(())
        }
        Held::Residual(pairs) => {
            add_names(facts, pairs)?;
            Ok(())
        }
    }
}

fn add_names<'x, V: Drop>(
    facts: &mut Vec<Fact<'x>>,
    pairs: &'x BTreeMap<RcStr, V>,
) -> Result<(), AllocError>
    ensures { OnOk result (facts_view facts.new.items ≡ facts_view facts.old.items
        ++ map of_context_value (names_under pairs.now.entries)) }
{
    'names: for (name, _) in pairs.iter() {
        add_last(facts, Fact::ContextValue(name))?;
    }
    Ok(())
}

// The context with the values that are kept, and in place of each other its unknown.
pub(crate) fn reduced_context(
    alloc: Global,
    context: &Context,
    facts: &[Fact<'_>],
) -> Result<Context, AllocError>
    ensures { IfOk result (λ c. context_view c ≡
        reduced_context (facts_view facts.now) (context_view context.now)) }
{
    let lent = pairs_of(context);
    if keeps_values(lent, facts) {
        Ok(context.clone()?)
    } else {
        Ok(Context::from_residual(alloc, reduced_pairs(alloc, lent, facts)?))
    }
}

// Whether each value is kept.
fn keeps_values(lent: Held<'_>, facts: &[Fact<'_>]) -> bool
    ensures { result ≡ keeps_names (facts_view facts.now) (context_keys (held_view lent.entry)) }
{
    match lent {
        Held::Values(values) => keeps_names(values, facts),
        Held::Residual(pairs) => keeps_names(pairs, facts),
    }
}

fn keeps_names<V: Drop>(pairs: &BTreeMap<RcStr, V>, facts: &[Fact<'_>]) -> bool
    ensures { result ≡ keeps_names (facts_view facts.now) (names_under pairs.now.entries) }
{
    'names: for (name, _) in pairs.iter() {
        if !is_kept(facts, Fact::ContextValue(name)) {
            return false;
        }
    }
    true
}

// The expressions of the values that are kept, and the unknowns of the others.
fn reduced_pairs(
    alloc: Global,
    lent: Held<'_>,
    facts: &[Fact<'_>],
) -> Result<BTreeMap<RcStr, Expr>, AllocError>
    ensures { IfOk result (λ m. fields_view m.entries ≡
        reduced_fields (facts_view facts.now) (context_terms (held_view lent.entry))) }
{
    match lent {
        Held::Values(values) => reduced_values(alloc, values, facts),
        Held::Residual(pairs) => reduced_exprs(alloc, pairs, facts),
    }
}

fn reduced_values(
    alloc: Global,
    values: &BTreeMap<RcStr, Value>,
    facts: &[Fact<'_>],
) -> Result<BTreeMap<RcStr, Expr>, AllocError>
    ensures { IfOk result (λ m. fields_view m.entries ≡
        reduced_fields (facts_view facts.now) (expressions_at (whats_at values.now.entries))) }
{
    let (keys, parts) = value_parts(alloc, values, facts)?;
    Ok(map_under(alloc, keys, parts)?)
}

// The names, and what stands under them, both in the order of names.
fn value_parts(
    alloc: Global,
    values: &BTreeMap<RcStr, Value>,
    facts: &[Fact<'_>],
) -> Result<(Vec<RcStr>, Vec<Expr>), AllocError>
    ensures fields { IfOk result (λ p. fields_named (texts_of p.0.items) (terms_view p.1.items) ≡
        reduced_fields (facts_view facts.now) (expressions_at (whats_at values.now.entries))) }
    ensures keys { IfOk result
        (λ p. (length p.0.items ≡ length p.1.items) × IsStrictlySortedBy key_order p.0.items) }
{
    let mut keys: Vec<RcStr> = Vec::with_capacity(alloc, values.len())?;
    let mut parts: Vec<Expr> = Vec::with_capacity(alloc, values.len())?;
    'values: for (key, value) in values.iter() {
        keys.push(key.clone()?)?;
        parts.push(reduced_value(alloc, key, value, facts)?)?;
    }
    Ok((keys, parts))
}

// The expression of the value, if it is kept, and else its unknown.
fn reduced_value(
    alloc: Global,
    name: &RcStr,
    value: &Value,
    facts: &[Fact<'_>],
) -> Result<Expr, AllocError>
    ensures { IfOk result (λ e. view e ≡
        reduced_term (facts_view facts.now) (rc_str_bytes name.now) (expression_of value.now.what)) }
{
    if is_kept(facts, Fact::ContextValue(name)) {
        value.to_expr(alloc)
    } else {
        unknown_context_value(alloc, name)
    }
}

fn reduced_exprs(
    alloc: Global,
    pairs: &BTreeMap<RcStr, Expr>,
    facts: &[Fact<'_>],
) -> Result<BTreeMap<RcStr, Expr>, AllocError>
    ensures { IfOk result (λ m. fields_view m.entries ≡
        reduced_fields (facts_view facts.now) (fields_view pairs.now.entries)) }
{
    let (keys, parts) = expr_parts(alloc, pairs, facts)?;
    Ok(map_under(alloc, keys, parts)?)
}

fn expr_parts(
    alloc: Global,
    pairs: &BTreeMap<RcStr, Expr>,
    facts: &[Fact<'_>],
) -> Result<(Vec<RcStr>, Vec<Expr>), AllocError>
    ensures fields { IfOk result (λ p. fields_named (texts_of p.0.items) (terms_view p.1.items) ≡
        reduced_fields (facts_view facts.now) (fields_view pairs.now.entries)) }
    ensures keys { IfOk result
        (λ p. (length p.0.items ≡ length p.1.items) × IsStrictlySortedBy key_order p.0.items) }
{
    let mut keys: Vec<RcStr> = Vec::with_capacity(alloc, pairs.len())?;
    let mut parts: Vec<Expr> = Vec::with_capacity(alloc, pairs.len())?;
    'exprs: for (key, expr) in pairs.iter() {
        keys.push(key.clone()?)?;
        parts.push(reduced_expr(alloc, key, expr, facts)?)?;
    }
    Ok((keys, parts))
}

// The expression, if it is kept, and else its unknown.
fn reduced_expr(
    alloc: Global,
    name: &RcStr,
    expr: &Expr,
    facts: &[Fact<'_>],
) -> Result<Expr, AllocError>
    ensures { IfOk result (λ e. view e ≡
        reduced_term (facts_view facts.now) (rc_str_bytes name.now) (view expr.now)) }
{
    if is_kept(facts, Fact::ContextValue(name)) {
        Ok(expr.clone()?)
    } else {
        unknown_context_value(alloc, name)
    }
}

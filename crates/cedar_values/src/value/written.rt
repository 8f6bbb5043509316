//! The expression of a value.
ghost use Rattle.std.specs.Prelude.{◌≡◌, IfOk};
ghost use Rattle.cedar_model.specs.Values.{expression_of, expressions_of, expressions_at};
ghost use Rattle.cedar_model.specs.Sets.{represented_values_of};
ghost use Rattle.cedar_expressions.specs.View.{view, expr_loc, terms_view, fields_view};
ghost use Rattle.cedar_values.specs.Sound.{whats, whats_at};
ghost use Rattle.cedar_values.specs.Kinds.{kind_what};
ghost use Rattle.cedar_values.specs.Representations.{extension_what};

use super::{Set, Value, ValueKind};
use crate::extension_value::ExtensionValue;
use cedar_expressions::{AsExpression, Expr};
use std::alloc::{AllocError, Global};
use std::collections::BTreeMap;
use std::rc::RcStr;

impl Value {
    /// The expression of the value, with its location: a literal, a set or a record of the parts' expressions, or the
    /// call that an extension value is written as. Refuses only if out of memory.
    pub fn to_expr(&self, alloc: Global) -> Result<Expr, AllocError>
        ensures view { IfOk result (λ e. view e ≡ expression_of self.now.what) }
        ensures loc { IfOk result (λ e. expr_loc e ≡ self.now.loc) }
    {
        expr_of(alloc, self)
    }
}

impl AsExpression for Value {
    ghost represents = { λ v. v.what };

    fn as_expression(&self, alloc: Global) -> Result<Expr, AllocError> {
        Ok(self.to_expr(alloc)?)
    }
}

#[cycle(written)]
fn expr_of(alloc: Global, value: &Value) -> Result<Expr, AllocError>
    ensures view { IfOk result (λ e. view e ≡ expression_of value.now.what) }
    ensures loc { IfOk result (λ e. expr_loc e ≡ value.now.loc) }
{
    let expr = expr_of_kind(alloc, &value.value)?;
    Ok(expr.with_maybe_source_loc(value.loc))
}

#[cycle(written)]
fn expr_of_kind(alloc: Global, kind: &ValueKind) -> Result<Expr, AllocError>
    ensures { IfOk result (λ e. view e ≡ expression_of (kind_what kind.now)) }
{
    match kind {
        ValueKind::Lit(literal) => Ok(Expr::val(literal.clone()?)),
        ValueKind::Set(set) => {
            let parts = exprs_of_set(alloc, set)?;
            Ok(Expr::set(alloc, parts)?)
        }
        ValueKind::Record(pairs) => {
            let parts = exprs_of_entries(alloc, pairs)?;
            Ok(Expr::record_map(alloc, parts)?)
        }
        ValueKind::ExtensionValue(value) => Ok(expr_of_extension(value)?),
    }
}

#[cycle(written)]
fn exprs_of_set(alloc: Global, set: &Set) -> Result<Vec<Expr>, AllocError>
    ensures { IfOk result (λ v. terms_view v.items ≡ expressions_of set.now.all) }
{
    Ok(exprs_of(alloc, set.elements.as_slice())?)
}

#[cycle(written)]
fn exprs_of(alloc: Global, elements: &[Value]) -> Result<Vec<Expr>, AllocError>
    ensures { IfOk result
        (λ v. terms_view v.items ≡ expressions_of (represented_values_of (whats elements.now))) }
{
    let mut exprs = Vec::with_capacity(alloc, elements.len())?;
    'elements: for element in elements {
        exprs.push(expr_of(alloc, element)?)?;
    }
    Ok(exprs)
}

#[cycle(written)]
fn exprs_of_entries(
    alloc: Global,
    pairs: &BTreeMap<RcStr, Value>,
) -> Result<BTreeMap<RcStr, Expr>, AllocError>
    ensures { IfOk result (λ m. fields_view m.entries ≡ expressions_at (whats_at pairs.now.entries)) }
{
    let mut exprs = BTreeMap::new(alloc);
    'entries: for (key, value) in pairs.iter() {
        let name = key.clone()?;
        drop(exprs.insert(name, expr_of(alloc, value)?)?);
    }
    Ok(exprs)
}

fn expr_of_extension(value: &ExtensionValue) -> Result<Expr, AllocError>
    ensures { IfOk result (λ e. view e ≡ expression_of (extension_what value.now)) }
{
    let fn_name = value.representation.fn_name().clone()?;
    let args = value.representation.args().clone()?;
    Ok(Expr::call_shared(fn_name, args))
}

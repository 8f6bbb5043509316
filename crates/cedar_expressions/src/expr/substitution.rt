#![tactic(auto, using(crate::proofs::Levels::levels, crate::proofs::Substitution::levels))]
//! Expressions with the values of a map in place of their unknowns.
ghost use Rattle.std.specs.Prelude.{◌≡◌, IfOk, option_map};
ghost use Rattle.std.specs.Rc.{rc_str_bytes};
ghost use Rattle.cedar_model.specs.Terms.{unknown, if_then_else, both, either, unary, binary, call};
ghost use Rattle.cedar_model.specs.Terms.{get_attribute, has_attribute, like, is_of_type};
ghost use Rattle.cedar_model.specs.Values.{Represented, expression_of};
ghost use Rattle.cedar_model.specs.Chains.{value_for, substituted_each, substituted_at};
ghost use Rattle.cedar_names.specs.Names.{name_text, type_text};
ghost use Rattle.cedar_names.specs.Leaves.{unary_view, binary_view, pattern_view, type_view};
ghost use Rattle.cedar_expressions.specs.Mappings.{mapping_of, with_values};
ghost use Rattle.cedar_expressions.specs.View.{view, kind_view, expr_loc, terms_view, fields_view, extended_has_of};

use super::{Expr, ExprKind};
use cedar_names::{BinaryOp, EntityType, FirstRest, Name, Pattern, UnaryOp, Unknown};
use std::alloc::{AllocError, Global};
use std::collections::{BTreeMap, HashMap};
use std::rc::{Rc, RcStr};

/// What can stand for an unknown: a value, by its expression.
pub trait AsExpression {
    ghost represents: { Self → Represented };

    /// The expression of the value. Refuses only if out of memory.
    fn as_expression(&self, alloc: Global) -> Result<Expr, AllocError>
        ensures { IfOk result (λ e. view e ≡ expression_of (represents self.now)) };
}

impl Expr {
    /// The expression with the map's values for the unknowns that it names, at any depth. An annotation is not looked
    /// at, and the rest is unchanged. The result has the location of the expression, so a value for an unknown has the
    /// location of that unknown; the locations of parts are not promised. Refuses only if out of memory.
    #[cycle(substitute)]
    pub fn substitute<V: AsExpression>(
        &self,
        alloc: Global,
        map: &HashMap<RcStr, V>,
    ) -> Result<Expr, AllocError>
        ensures view { IfOk result (λ e. view e ≡ with_values V.represents map.now.entries (view self.now)) }
        ensures loc { IfOk result (λ e. expr_loc e ≡ expr_loc self.now) }
    {
        let expr = self.expr_kind.substitute(alloc, map)?;
        Ok(expr.with_maybe_source_loc(self.source_loc))
    }

    // The same, to be a part of another expression.
    #[cycle(substitute)]
    fn substitute_shared<V: AsExpression>(
        &self,
        alloc: Global,
        map: &HashMap<RcStr, V>,
    ) -> Result<Rc<Expr>, AllocError>
        ensures { IfOk result (λ e. view e.value ≡ with_values V.represents map.now.entries (view self.now)) }
    {
        let expr = self.substitute(alloc, map)?;
        Ok(Rc::new(alloc, expr)?)
    }

    #[cycle(substitute)]
    fn substitute_each<V: AsExpression>(
        alloc: Global,
        parts: &Vec<Expr>,
        map: &HashMap<RcStr, V>,
    ) -> Result<Vec<Expr>, AllocError>
        ensures { IfOk result (λ v. terms_view v.items
            ≡ substituted_each (mapping_of V.represents map.now.entries) (terms_view parts.now.items)) }
    {
        let mut new_parts = Vec::with_capacity(alloc, parts.len())?;
        'parts: for part in parts {
            new_parts.push(part.substitute(alloc, map)?)?;
        }
        Ok(new_parts)
    }

    #[cycle(substitute)]
    fn substitute_at<V: AsExpression>(
        alloc: Global,
        pairs: &BTreeMap<RcStr, Expr>,
        map: &HashMap<RcStr, V>,
    ) -> Result<BTreeMap<RcStr, Expr>, AllocError>
        ensures { IfOk result (λ m. fields_view m.entries
            ≡ substituted_at (mapping_of V.represents map.now.entries) (fields_view pairs.now.entries)) }
    {
        let mut new_pairs = BTreeMap::new(alloc);
        'pairs: for (key, part) in pairs.iter() {
            let name = key.clone()?;
            drop(new_pairs.insert(name, part.substitute(alloc, map)?)?);
        }
        Ok(new_pairs)
    }
}

impl ExprKind {
    #[cycle(substitute)]
    fn substitute<V: AsExpression>(
        &self,
        alloc: Global,
        map: &HashMap<RcStr, V>,
    ) -> Result<Expr, AllocError>
        ensures { IfOk result (λ e. view e ≡ with_values V.represents map.now.entries (kind_view self.now)) }
    {
        match self {
            ExprKind::Lit(value) => Ok(Expr::val(value.clone()?)),
            ExprKind::Var(var) => Ok(Expr::var(*var)),
            ExprKind::Slot(slot) => Ok(Expr::slot(*slot)),
            ExprKind::Unknown(unknown) => value_or_unknown(alloc, unknown, map),
            ExprKind::If {
                test_expr,
                then_expr,
                else_expr,
            } => substitute_if(alloc, test_expr, then_expr, else_expr, map),
            ExprKind::And { left, right } => substitute_and(alloc, left, right, map),
            ExprKind::Or { left, right } => substitute_or(alloc, left, right, map),
            ExprKind::UnaryApp { op, arg } => substitute_unary(alloc, *op, arg, map),
            ExprKind::BinaryApp { op, arg1, arg2 } => substitute_binary(
                alloc, *op, arg1, arg2, map,
            ),
            ExprKind::ExtensionFunctionApp { fn_name, args } => substitute_call(
                alloc, fn_name, args, map,
            ),
            ExprKind::GetAttr { expr, attr } => substitute_attribute(alloc, expr, attr, map),
            ExprKind::HasAttr { expr, attr } => substitute_has(alloc, expr, attr, map),
            ExprKind::ExtHasAttr { expr, attrs } => substitute_extended_has(
                alloc, expr, attrs, map,
            ),
            ExprKind::Like { expr, pattern } => substitute_like(alloc, expr, pattern, map),
            ExprKind::Is { expr, entity_type } => substitute_is(alloc, expr, entity_type, map),
            ExprKind::Set(parts) => Expr::set(alloc, Expr::substitute_each(alloc, parts, map)?),
            ExprKind::Record(pairs) => {
                Expr::record_map(alloc, Expr::substitute_at(alloc, pairs, map)?)
            }
        }
    }
}

#[cycle(substitute)]
fn substitute_if<V: AsExpression>(
    alloc: Global,
    test_expr: &Expr,
    then_expr: &Expr,
    else_expr: &Expr,
    map: &HashMap<RcStr, V>,
) -> Result<Expr, AllocError>
    ensures { IfOk result (λ e. view e
        ≡ with_values V.represents map.now.entries
        (if_then_else (view test_expr.now) (view then_expr.now) (view else_expr.now))) }
{
    let test_expr = test_expr.substitute_shared(alloc, map)?;
    let then_expr = then_expr.substitute_shared(alloc, map)?;
    let else_expr = else_expr.substitute_shared(alloc, map)?;
    Ok(Expr::of_kind(ExprKind::If {
        test_expr,
        then_expr,
        else_expr,
    }))
}

#[cycle(substitute)]
fn substitute_and<V: AsExpression>(
    alloc: Global,
    left: &Expr,
    right: &Expr,
    map: &HashMap<RcStr, V>,
) -> Result<Expr, AllocError>
    ensures { IfOk result (λ e. view e
        ≡ with_values V.represents map.now.entries (both (view left.now) (view right.now))) }
{
    let left = left.substitute_shared(alloc, map)?;
    let right = right.substitute_shared(alloc, map)?;
    Ok(Expr::of_kind(ExprKind::And { left, right }))
}

#[cycle(substitute)]
fn substitute_or<V: AsExpression>(
    alloc: Global,
    left: &Expr,
    right: &Expr,
    map: &HashMap<RcStr, V>,
) -> Result<Expr, AllocError>
    ensures { IfOk result (λ e. view e
        ≡ with_values V.represents map.now.entries (either (view left.now) (view right.now))) }
{
    let left = left.substitute_shared(alloc, map)?;
    let right = right.substitute_shared(alloc, map)?;
    Ok(Expr::of_kind(ExprKind::Or { left, right }))
}

#[cycle(substitute)]
fn substitute_unary<V: AsExpression>(
    alloc: Global,
    op: UnaryOp,
    arg: &Expr,
    map: &HashMap<RcStr, V>,
) -> Result<Expr, AllocError>
    ensures { IfOk result (λ e. view e
        ≡ with_values V.represents map.now.entries (unary (unary_view op) (view arg.now))) }
{
    let arg = arg.substitute_shared(alloc, map)?;
    Ok(Expr::of_kind(ExprKind::UnaryApp { op, arg }))
}

#[cycle(substitute)]
fn substitute_binary<V: AsExpression>(
    alloc: Global,
    op: BinaryOp,
    arg1: &Expr,
    arg2: &Expr,
    map: &HashMap<RcStr, V>,
) -> Result<Expr, AllocError>
    ensures { IfOk result (λ e. view e
        ≡ with_values V.represents map.now.entries (binary (binary_view op) (view arg1.now) (view arg2.now))) }
{
    let arg1 = arg1.substitute_shared(alloc, map)?;
    let arg2 = arg2.substitute_shared(alloc, map)?;
    Ok(Expr::of_kind(ExprKind::BinaryApp { op, arg1, arg2 }))
}

#[cycle(substitute)]
fn substitute_call<V: AsExpression>(
    alloc: Global,
    fn_name: &Name,
    args: &Vec<Expr>,
    map: &HashMap<RcStr, V>,
) -> Result<Expr, AllocError>
    ensures { IfOk result (λ e. view e
        ≡ with_values V.represents map.now.entries (call (name_text fn_name.now) (terms_view args.now.items))) }
{
    let fn_name = fn_name.clone()?;
    let args = Expr::substitute_each(alloc, args, map)?;
    Expr::call_extension_fn(alloc, fn_name, args)
}

#[cycle(substitute)]
fn substitute_attribute<V: AsExpression>(
    alloc: Global,
    expr: &Expr,
    attr: &RcStr,
    map: &HashMap<RcStr, V>,
) -> Result<Expr, AllocError>
    ensures { IfOk result (λ e. view e
        ≡ with_values V.represents map.now.entries (get_attribute (view expr.now) (rc_str_bytes attr.now))) }
{
    let attr = attr.clone()?;
    let expr = expr.substitute_shared(alloc, map)?;
    Ok(Expr::of_kind(ExprKind::GetAttr { expr, attr }))
}

#[cycle(substitute)]
fn substitute_has<V: AsExpression>(
    alloc: Global,
    expr: &Expr,
    attr: &RcStr,
    map: &HashMap<RcStr, V>,
) -> Result<Expr, AllocError>
    ensures { IfOk result (λ e. view e
        ≡ with_values V.represents map.now.entries (has_attribute (view expr.now) (rc_str_bytes attr.now))) }
{
    let attr = attr.clone()?;
    let expr = expr.substitute_shared(alloc, map)?;
    Ok(Expr::of_kind(ExprKind::HasAttr { expr, attr }))
}

#[cycle(substitute)]
fn substitute_extended_has<V: AsExpression>(
    alloc: Global,
    expr: &Expr,
    attrs: &Rc<FirstRest<RcStr>>,
    map: &HashMap<RcStr, V>,
) -> Result<Expr, AllocError>
    ensures { IfOk result (λ e. view e
        ≡ with_values V.represents map.now.entries (extended_has_of (view expr.now) attrs.now.value)) }
{
    let attrs = attrs.clone()?;
    let expr = expr.substitute_shared(alloc, map)?;
    Ok(Expr::of_kind(ExprKind::ExtHasAttr { expr, attrs }))
}

#[cycle(substitute)]
fn substitute_like<V: AsExpression>(
    alloc: Global,
    expr: &Expr,
    pattern: &Pattern,
    map: &HashMap<RcStr, V>,
) -> Result<Expr, AllocError>
    ensures { IfOk result (λ e. view e
        ≡ with_values V.represents map.now.entries (like (view expr.now) (pattern_view pattern.now))) }
{
    let pattern = pattern.clone()?;
    let expr = expr.substitute_shared(alloc, map)?;
    Ok(Expr::of_kind(ExprKind::Like { expr, pattern }))
}

#[cycle(substitute)]
fn substitute_is<V: AsExpression>(
    alloc: Global,
    expr: &Expr,
    entity_type: &EntityType,
    map: &HashMap<RcStr, V>,
) -> Result<Expr, AllocError>
    ensures { IfOk result (λ e. view e
        ≡ with_values V.represents map.now.entries (is_of_type (view expr.now) (type_text entity_type.now))) }
{
    let entity_type = entity_type.clone()?;
    let expr = expr.substitute_shared(alloc, map)?;
    Ok(Expr::of_kind(ExprKind::Is { expr, entity_type }))
}

// The expression of the value that the map has for the unknown, or the unknown.
fn value_or_unknown<V: AsExpression>(
    alloc: Global,
    asked: &Unknown,
    map: &HashMap<RcStr, V>,
) -> Result<Expr, AllocError>
    ensures { IfOk result (λ e. view e
        ≡ value_for (mapping_of V.represents map.now.entries (rc_str_bytes asked.now.name))
        (unknown (rc_str_bytes asked.now.name) (option_map type_view asked.now.type_annotation))) }
{
    match map.get(&asked.name) {
        Some(value) => Ok(value.as_expression(alloc)?),
        None => Ok(Expr::unknown(asked.clone()?)),
    }
}

//! Direct evaluators: the values of low expressions, without a turn of the loop.
ghost use Rattle.std.specs.Prelude.{◌≡◌, ◌≤◌, ℕ, suc, Ok, IfSome};
ghost use Rattle.std.specs.Rc.{rc_str_bytes};
ghost use Rattle.cedar_model.specs.Terms as Terms;
ghost use Rattle.cedar_model.specs.Failures.{answers_value};
ghost use Rattle.cedar_model.specs.Settings.{Setting};
ghost use Rattle.cedar_model.specs.Operators.{binary_answer};
ghost use Rattle.cedar_names.specs.Names.{type_text};
ghost use Rattle.cedar_names.specs.Leaves.{unary_view, binary_view, pattern_view, variable_view};
ghost use Rattle.cedar_expressions.specs.View.{view, expr_loc, terms_view, fields_view, extended_has_of};
ghost use Rattle.cedar_layers.specs.Stores.{store_view};
ghost use Rattle.cedar_extensions.specs.Extensions.{extensions_view};
ghost use Rattle.cedar_operators.specs.Operands.{given};
ghost use Rattle.cedar_operators.specs.Connectives.{joined_terms};
ghost use Rattle.cedar_interpreter.specs.Direct.{IsValueOf, HasDirectValue, HasDirectBool, HasDirectValueAbove};
ghost use Rattle.cedar_interpreter.specs.DirectEvaluators.{HasDirectParts, HasDirectPairs, some_above};

use crate::direct::{answered_value, boolean_of, literal_value};
use crate::evaluation::Evaluation;
use cedar_expressions::{Expr, ExprKind};
use cedar_names::{BinaryOp, EntityType, FirstRest, Literal, Pattern, UnaryOp, Var};
use cedar_operators::attributes::attribute_of;
use cedar_operators::binary::binary_app;
use cedar_operators::operators::of_longs;
use cedar_operators::partial::attributes::{extended_has_of_part, has_of_part};
use cedar_operators::partial::connectives::Connective;
use cedar_operators::partial::unary::{is_of_part, like_of_part, unary_of_part};
use cedar_restricted::record_value;
use cedar_values::{PartialValue, Value, ValueKind};
use std::alloc::{AllocError, Global};
use std::collections::BTreeMap;
use std::rc::RcStr;

/// What evaluates directly expressions that are no higher than so many levels.
pub(crate) trait DirectEvaluator {
    /// How high they are.
    ghost height: { ℕ };

    /// Whether the expression is worth a try: it is no higher, and has neither calls nor slots nor unknowns. No promise
    /// rests on it.
    fn suits(&self, e: &Expr) -> bool;

    /// The value of the expression, if there is one.
    fn evaluate(&self, within: &Evaluation<'_, '_, '_>, alloc: Global, e: &Expr) -> Option<Value>
        ensures { HasDirectValue within.now height (view e.now) result };

    /// They are at least one level high.
    ghost some: { 1 ≤ height };
}

/// That of literals, and of variables that are known.
#[derive(Drop)]
pub(crate) struct LeafEvaluator;

/// That of expressions whose parts the one below evaluates.
#[derive(Drop)]
pub(crate) struct EvaluatorAbove<T> {
    pub(crate) below: T,
}

impl DirectEvaluator for LeafEvaluator {
    ghost height = { 1 };

    fn suits(&self, e: &Expr) -> bool {
        match e.expr_kind() {
            ExprKind::Lit(_) => true,
            ExprKind::Var(_) => true,
            _ => false,
        }
    }

    #[tactic(auto, using(cedar_expressions::proofs::Levels::levels))]
    fn evaluate(&self, within: &Evaluation<'_, '_, '_>, alloc: Global, e: &Expr) -> Option<Value> {
        match e.expr_kind() {
            ExprKind::Lit(value) => literal_value(value),
            ExprKind::Var(var) => within.value_of_variable(*var),
            _ => None,
        }
    }

    ghost some = { some_above 0 };
}

impl<T: DirectEvaluator> DirectEvaluator for EvaluatorAbove<T> {
    ghost height = { suc T.height };

    fn suits(&self, e: &Expr) -> bool {
        match e.expr_kind() {
            ExprKind::Lit(_) => true,
            ExprKind::Var(_) => true,
            ExprKind::UnaryApp { op: _, arg } => self.below.suits(arg),
            ExprKind::And { left, right } => self.below.suits(left) && self.below.suits(right),
            ExprKind::Or { left, right } => self.below.suits(left) && self.below.suits(right),
            ExprKind::If {
                test_expr,
                then_expr,
                else_expr,
            } => {
                self.below.suits(test_expr)
                    && self.below.suits(then_expr)
                    && self.below.suits(else_expr)
            }
            ExprKind::BinaryApp { op: _, arg1, arg2 } => {
                self.below.suits(arg1) && self.below.suits(arg2)
            }
            ExprKind::GetAttr { expr, attr: _ } => self.below.suits(expr),
            ExprKind::HasAttr { expr, attr: _ } => self.below.suits(expr),
            ExprKind::ExtHasAttr { expr, attrs: _ } => self.below.suits(expr),
            ExprKind::Like { expr, pattern: _ } => self.below.suits(expr),
            ExprKind::Is {
                expr,
                entity_type: _,
            } => self.below.suits(expr),
            ExprKind::Set(parts) => self.suits_parts(parts.as_slice()),
            ExprKind::Record(pairs) => self.suits_pairs(pairs),
            _ => false,
        }
    }

    #[tactic(auto, using(cedar_expressions::proofs::Levels::levels))]
    fn evaluate(&self, within: &Evaluation<'_, '_, '_>, alloc: Global, e: &Expr) -> Option<Value> {
        match e.expr_kind() {
            ExprKind::Lit(value) => literal_value(value),
            ExprKind::Var(var) => within.value_of_variable(*var),
            ExprKind::If {
                test_expr,
                then_expr,
                else_expr,
            } => self.evaluate_if(within, alloc, test_expr, then_expr, else_expr),
            ExprKind::And { left, right } => {
                self.evaluate_and_or(within, alloc, Connective::And, left, right)
            }
            ExprKind::Or { left, right } => self.evaluate_and_or(
                within,
                alloc,
                Connective::Or,
                left,
                right,
            ),
            ExprKind::UnaryApp { op, arg } => self.evaluate_unary(within, alloc, *op, arg),
            ExprKind::BinaryApp { op, arg1, arg2 } => self.evaluate_binary(
                within, alloc, *op, arg1, arg2,
            ),
            ExprKind::GetAttr { expr, attr } => self.evaluate_attribute(within, alloc, expr, attr),
            ExprKind::HasAttr { expr, attr } => self.evaluate_has(within, alloc, expr, attr),
            ExprKind::ExtHasAttr { expr, attrs } => self.evaluate_extended_has(
                within, alloc, expr, attrs,
            ),
            ExprKind::Like { expr, pattern } => self.evaluate_like(within, alloc, expr, pattern),
            ExprKind::Is { expr, entity_type } => self.evaluate_is(
                within,
                alloc,
                expr,
                entity_type,
            ),
            ExprKind::Set(parts) => self.evaluate_set(within, alloc, parts.as_slice()),
            ExprKind::Record(pairs) => self.evaluate_record(within, alloc, pairs),
            _ => None,
        }
    }

    ghost some = { some_above T.height };
}

impl<T: DirectEvaluator> EvaluatorAbove<T> {
    fn suits_parts(&self, parts: &[Expr]) -> bool {
        for part in parts {
            if !self.below.suits(part) {
                return false;
            }
        }
        true
    }

    fn suits_pairs(&self, pairs: &BTreeMap<RcStr, Expr>) -> bool {
        for (_, part) in pairs.iter() {
            if !self.below.suits(part) {
                return false;
            }
        }
        true
    }

    // `if` of what has values.
    fn evaluate_if(
        &self,
        within: &Evaluation<'_, '_, '_>,
        alloc: Global,
        test_expr: &Expr,
        then_expr: &Expr,
        else_expr: &Expr,
    ) -> Option<Value>
        ensures { HasDirectValueAbove within.now T.height
            (Terms.if_then_else (view test_expr.now) (view then_expr.now) (view else_expr.now)) result }
    {
        match self.evaluate_boolean(within, alloc, test_expr) {
            Some(true) => self.below.evaluate(within, alloc, then_expr),
            Some(false) => self.below.evaluate(within, alloc, else_expr),
            None => None,
        }
    }

    // `&&` or `||` of what has values.
    fn evaluate_and_or(
        &self,
        within: &Evaluation<'_, '_, '_>,
        alloc: Global,
        connective: Connective,
        left: &Expr,
        right: &Expr,
    ) -> Option<Value>
        ensures { HasDirectValueAbove within.now T.height
            (joined_terms connective (view left.now) (view right.now)) result }
    {
        match self.evaluate_boolean(within, alloc, left) {
            Some(b) => {
                if connective.is_decided_by(b) {
                    boolean_as_value(Some(b))
                } else {
                    boolean_as_value(self.evaluate_boolean(within, alloc, right))
                }
            }
            None => None,
        }
    }

    // The boolean that an expression is, if it has a value and that is one.
    fn evaluate_boolean(
        &self,
        within: &Evaluation<'_, '_, '_>,
        alloc: Global,
        e: &Expr,
    ) -> Option<bool>
        ensures { HasDirectBool within.now T.height (view e.now) result }
    {
        boolean_of(self.below.evaluate(within, alloc, e))
    }

    // An operator on one operand that has a value.
    fn evaluate_unary(
        &self,
        within: &Evaluation<'_, '_, '_>,
        alloc: Global,
        op: UnaryOp,
        arg: &Expr,
    ) -> Option<Value>
        ensures { HasDirectValueAbove within.now T.height (Terms.unary (unary_view op) (view arg.now)) result }
    {
        match self.below.evaluate(within, alloc, arg) {
            Some(value) => answered_value(unary_of_part(
                alloc,
                op,
                PartialValue::Value(value),
                None,
            )),
            None => None,
        }
    }

    // An operator on two operands that have values.
    fn evaluate_binary(
        &self,
        within: &Evaluation<'_, '_, '_>,
        alloc: Global,
        op: BinaryOp,
        left: &Expr,
        right: &Expr,
    ) -> Option<Value>
        ensures { HasDirectValueAbove within.now T.height
            (Terms.binary (binary_view op) (view left.now) (view right.now)) result }
    {
        match self.below.evaluate(within, alloc, left) {
            Some(left) => match self.below.evaluate(within, alloc, right) {
                Some(right) => operator_on_values(within, alloc, op, left, right),
                None => None,
            },
            None => None,
        }
    }

    // An attribute of what has a value.
    fn evaluate_attribute(
        &self,
        within: &Evaluation<'_, '_, '_>,
        alloc: Global,
        expr: &Expr,
        attr: &RcStr,
    ) -> Option<Value>
        ensures { HasDirectValueAbove within.now T.height
            (Terms.get_attribute (view expr.now) (rc_str_bytes attr.now)) result }
    {
        match variable_in(expr) {
            Some(var) => within.attribute_of_variable(alloc, var, attr),
            None => self.evaluate_attribute_of_other(within, alloc, expr, attr),
        }
    }

    // The same of what is no variable.
    fn evaluate_attribute_of_other(
        &self,
        within: &Evaluation<'_, '_, '_>,
        alloc: Global,
        expr: &Expr,
        attr: &RcStr,
    ) -> Option<Value>
        ensures { HasDirectValueAbove within.now T.height
            (Terms.get_attribute (view expr.now) (rc_str_bytes attr.now)) result }
    {
        match self.below.evaluate(within, alloc, expr) {
            Some(value) => {
                answered_value(attribute_of(alloc, within.given.entities, &value, attr, None))
            }
            None => None,
        }
    }

    // Whether what has a value has an attribute.
    fn evaluate_has(
        &self,
        within: &Evaluation<'_, '_, '_>,
        alloc: Global,
        expr: &Expr,
        attr: &RcStr,
    ) -> Option<Value>
        ensures { HasDirectValueAbove within.now T.height
            (Terms.has_attribute (view expr.now) (rc_str_bytes attr.now)) result }
    {
        match variable_in(expr) {
            Some(var) => within.variable_has(alloc, var, attr),
            None => self.evaluate_has_of_other(within, alloc, expr, attr),
        }
    }

    // The same of what is no variable.
    fn evaluate_has_of_other(
        &self,
        within: &Evaluation<'_, '_, '_>,
        alloc: Global,
        expr: &Expr,
        attr: &RcStr,
    ) -> Option<Value>
        ensures { HasDirectValueAbove within.now T.height
            (Terms.has_attribute (view expr.now) (rc_str_bytes attr.now)) result }
    {
        match self.below.evaluate(within, alloc, expr) {
            Some(value) => {
                let part = PartialValue::Value(value);
                answered_value(has_of_part(alloc, within.given.entities, part, attr))
            }
            None => None,
        }
    }

    // Whether what has a value has attributes, one in the other.
    fn evaluate_extended_has(
        &self,
        within: &Evaluation<'_, '_, '_>,
        alloc: Global,
        expr: &Expr,
        attrs: &FirstRest<RcStr>,
    ) -> Option<Value>
        ensures { HasDirectValueAbove within.now T.height (extended_has_of (view expr.now) attrs.now) result }
    {
        match self.below.evaluate(within, alloc, expr) {
            Some(value) => {
                let part = PartialValue::Value(value);
                answered_value(extended_has_of_part(alloc, within.given.entities, part, attrs))
            }
            None => None,
        }
    }

    // Whether what has a value matches a pattern.
    fn evaluate_like(
        &self,
        within: &Evaluation<'_, '_, '_>,
        alloc: Global,
        expr: &Expr,
        pattern: &Pattern,
    ) -> Option<Value>
        ensures { HasDirectValueAbove within.now T.height
            (Terms.like (view expr.now) (pattern_view pattern.now)) result }
    {
        match self.below.evaluate(within, alloc, expr) {
            Some(value) => answered_value(like_of_part(alloc, PartialValue::Value(value), pattern)),
            None => None,
        }
    }

    // Whether what has a value is of an entity type.
    fn evaluate_is(
        &self,
        within: &Evaluation<'_, '_, '_>,
        alloc: Global,
        expr: &Expr,
        entity_type: &EntityType,
    ) -> Option<Value>
        ensures { HasDirectValueAbove within.now T.height
            (Terms.is_of_type (view expr.now) (type_text entity_type.now)) result }
    {
        match self.below.evaluate(within, alloc, expr) {
            Some(value) => answered_value(is_of_part(
                alloc,
                PartialValue::Value(value),
                entity_type,
            )),
            None => None,
        }
    }

    // A set of what has values.
    fn evaluate_set(
        &self,
        within: &Evaluation<'_, '_, '_>,
        alloc: Global,
        parts: &[Expr],
    ) -> Option<Value>
        ensures { HasDirectValueAbove within.now T.height (Terms.set_of (terms_view parts.now)) result }
    {
        match self.values(within, alloc, parts) {
            Ok(Some(values)) => value_or_none(Value::set(alloc, values, None)),
            Ok(None) => None,
            Err(_) => None,
        }
    }

    // The values of all parts, if all have one.
    fn values(
        &self,
        within: &Evaluation<'_, '_, '_>,
        alloc: Global,
        parts: &[Expr],
    ) -> Result<Option<Vec<Value>>, AllocError>
        ensures { HasDirectParts within.now T.height parts.now result }
    {
        let mut values: Vec<Value> = Vec::with_capacity(alloc, parts.len())?;
        'parts: for part in parts {
            match self.below.evaluate(within, alloc, part) {
                Some(value) => values.push(standing_at(value, part))?,
                None => return Ok(None),
            }
        }
        Ok(Some(values))
    }

    // A record of what has values.
    fn evaluate_record(
        &self,
        within: &Evaluation<'_, '_, '_>,
        alloc: Global,
        pairs: &BTreeMap<RcStr, Expr>,
    ) -> Option<Value>
        ensures { HasDirectValueAbove within.now T.height (Terms.record_of (fields_view pairs.now.entries)) result }
    {
        match self.pairs(within, alloc, pairs) {
            Ok(Some((keys, values))) => value_or_none(record_value(alloc, keys, values)),
            Ok(None) => None,
            Err(_) => None,
        }
    }

    // The keys and the values of all pairs, if all have one.
    fn pairs(
        &self,
        within: &Evaluation<'_, '_, '_>,
        alloc: Global,
        pairs: &BTreeMap<RcStr, Expr>,
    ) -> Result<Option<(Vec<RcStr>, Vec<Value>)>, AllocError>
        ensures { HasDirectPairs within.now T.height pairs.now.entries result }
    {
        let mut keys: Vec<RcStr> = Vec::with_capacity(alloc, pairs.len())?;
        let mut values: Vec<Value> = Vec::with_capacity(alloc, pairs.len())?;
        'pairs: for (key, part) in pairs.iter() {
            match self.below.evaluate(within, alloc, part) {
                Some(value) => {
                    values.push(standing_at(value, part))?;
                    keys.push(key.clone()?)?;
                }
                None => return Ok(None),
            }
        }
        Ok(Some((keys, values)))
    }
}

// The variable that the expression is, if it is one.
#[tactic(auto, using(cedar_expressions::proofs::Levels::levels))]
fn variable_in(e: &Expr) -> Option<Var>
    ensures { IfSome result (λ v. view e.now ≡ Terms.variable (variable_view v)) }
{
    match e.expr_kind() {
        ExprKind::Var(var) => Some(*var),
        _ => None,
    }
}

// What an operator makes of two values: of two longs at once.
fn operator_on_values(
    within: &Evaluation<'_, '_, '_>,
    alloc: Global,
    op: BinaryOp,
    left: Value,
    right: Value,
) -> Option<Value>
    ensures { (s : Setting) → IfSome result (λ v. answers_value v.what ≡ binary_answer (given s
        (store_view within.now.given.now.entities.now) (extensions_view within.now.given.now.extensions.now))
        (binary_view op) left.what right.what) }
{
    match of_longs(op, &left, &right) {
        Some(value) => {
            drop((left, right));
            Some(value)
        }
        None => {
            let entities = within.given.entities;
            let extensions = within.given.extensions;
            answered_value(binary_app(alloc, entities, extensions, op, left, right, None))
        }
    }
}

// The boolean as a value.
fn boolean_as_value(b: Option<bool>) -> Option<Value>
    ensures { IsValueOf b result }
{
    match b {
        Some(b) => Some(Value::new(ValueKind::Lit(Literal::Bool(b)), None)),
        None => None,
    }
}

// The value, where the expression stands.
fn standing_at(mut value: Value, e: &Expr) -> Value
    ensures what { result.what ≡ value.what }
    ensures place { result.loc ≡ expr_loc e.now }
{
    value.loc = e.source_loc().copied();
    value
}

// What was made, unless out of memory.
fn value_or_none(value: Result<Value, AllocError>) -> Option<Value>
    ensures { IfSome result (λ v. value ≡ Ok v) }
{
    match value {
        Ok(value) => Some(value),
        Err(_) => None,
    }
}

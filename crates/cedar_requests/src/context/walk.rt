//! The walk over the attributes of a context, in the order of their names.
ghost use Rattle.std.specs.Prelude.{◌≡◌, ◌≤◌, true, map, length, IfOk};
ghost use Rattle.cedar_model.specs.Shapes.{are_restricted_at};
ghost use Rattle.cedar_expressions.specs.View.{fields_view};
ghost use Rattle.cedar_requests.specs.Contexts.{residual_map};
ghost use mathlib.Core.Bool.{Bool-set};

use super::Context;
use super::pairs::{ContextPairs, ResidualPairs};
use super::values::ContextValues;
use cedar_expressions::Expr;
use cedar_restricted::RestrictedExpr;
use cedar_values::Value;
use std::alloc::{AllocError, Global};
use std::collections::{BTreeMap, btree_map};
use std::rc::{Rc, RcStr};

/// The attributes of a context with their expressions, in the order of their names: a value is written as its
/// expression. Where memory runs out for that, an `Err` stands in the attribute's place, and the walk goes on; so
/// it does instead of each attribute where other contexts share the values and memory runs out for a copy.
#[derive(Drop)]
pub struct IntoIter {
    pairs: PairsIter,
    alloc: Global,
}

#[derive(Drop)]
enum PairsIter {
    Values(btree_map::IntoIter<RcStr, Value>),
    Lacking(LackingIter),
    Residual(ResidualIter),
}

// Values that others share, of which there was no memory for a copy: so many are left.
#[derive(Drop)]
struct LackingIter {
    values: Rc<BTreeMap<RcStr, Value>>,
    left: usize,
    ghost within: { left ≤ length values.value.entries },
}

// Restricted expressions under their names.
#[derive(Drop)]
struct ResidualIter {
    pairs: btree_map::IntoIter<RcStr, Expr>,
    ghost restricted: { are_restricted_at (fields_view pairs) ≡ true } by { Bool-set _ _ },
}

impl IntoIterator for Context {
    ghost use Rattle.std.specs.Cmp.Lexicographic.{slice_cmp};
    ghost use Rattle.std.specs.List.Sorted.{IsStrictlySortedBy};
    ghost use Rattle.std.specs.Ordering.{nat_cmp};
    ghost use Rattle.cedar_requests.specs.Walks.{attribute_names, attributes_left, context_attributes};

    type Item = Result<(RcStr, RestrictedExpr), AllocError>;

    type IntoIter = IntoIter;

    ghost into_iter_gives = { λ c r. (attributes_left r ≡ context_attributes c)
        × IsStrictlySortedBy (slice_cmp nat_cmp) (attribute_names (attributes_left r)) };

    fn into_iter(self) -> IntoIter {
        let alloc = self.alloc;
        match self.pairs {
            ContextPairs::Values(values) => IntoIter {
                pairs: PairsIter::of_values(values),
                alloc,
            },
            ContextPairs::Residual(residual) => IntoIter {
                pairs: PairsIter::Residual(ResidualIter::new(residual)),
                alloc,
            },
        }
    }
}

impl Iterator for IntoIter {
    ghost use Rattle.std.specs.Iterator.{at_most};
    ghost use Rattle.cedar_requests.specs.Walks.{attributes_left, GivesAttribute};

    type Item = Result<(RcStr, RestrictedExpr), AllocError>;

    ghost next_gives = { λ s r t. GivesAttribute (attributes_left s) r (attributes_left t) };

    ghost remaining = { λ s. at_most (length (attributes_left s)) };

    fn next(&mut self) -> Option<Result<(RcStr, RestrictedExpr), AllocError>> {
        match &mut self.pairs {
            PairsIter::Values(pairs) => match pairs.next() {
                Some((name, value)) => Some(IntoIter::write_named(self.alloc, name, value)),
                None => None,
            },
            PairsIter::Lacking(values) => match values.next() {
                Some(error) => Some(Err(error)),
                None => None,
            },
            PairsIter::Residual(residual) => match residual.next() {
                Some(attribute) => Some(Ok(attribute)),
                None => None,
            },
        }
    }
}

impl PairsIter {
    ghost use Rattle.std.specs.Cmp.Lexicographic.{slice_cmp};
    ghost use Rattle.std.specs.List.Sorted.{IsStrictlySortedBy};
    ghost use Rattle.std.specs.Ordering.{nat_cmp};
    ghost use Rattle.cedar_requests.specs.Walks.{attribute_names, value_attribute, pairs_left};

    // The walk over these values.
    fn of_values(values: ContextValues) -> PairsIter
        ensures attributes { pairs_left result ≡ map value_attribute values.entries }
        ensures in_order { IsStrictlySortedBy (slice_cmp nat_cmp) (attribute_names (pairs_left result)) }
    {
        match values.into_map() {
            Ok(values) => PairsIter::Values(values.into_iter()),
            Err(shared) => PairsIter::Lacking(LackingIter::new(shared)),
        }
    }
}

impl LackingIter {
    ghost use Rattle.std.specs.Cmp.Lexicographic.{slice_cmp};
    ghost use Rattle.std.specs.List.Sorted.{IsStrictlySortedBy};
    ghost use Rattle.std.specs.Ordering.{nat_cmp};
    ghost use Rattle.cedar_requests.specs.Walks.{attribute_names, value_attribute, lacking_left, PassesOne};

    fn new(values: Rc<BTreeMap<RcStr, Value>>) -> LackingIter
        ensures attributes { lacking_left result ≡ map value_attribute values.value.entries }
        ensures in_order { IsStrictlySortedBy (slice_cmp nat_cmp) (attribute_names (lacking_left result)) }
    {
        let left = values.as_ref().len();
        LackingIter { values, left }
    }

    // Passes an attribute, and answers out of memory.
    fn next(&mut self) -> Option<AllocError>
        ensures { PassesOne (lacking_left self.old) result (lacking_left self.new) }
    {
        if self.left == 0 {
            return None;
        }
        self.left -= 1;
        Some(AllocError)
    }
}

impl ResidualIter {
    ghost use Rattle.std.specs.Iterator.{YieldsFirstBy};
    ghost use Rattle.std.specs.Cmp.Lexicographic.{slice_cmp};
    ghost use Rattle.std.specs.List.Sorted.{IsStrictlySortedBy};
    ghost use Rattle.std.specs.Ordering.{nat_cmp};
    ghost use Rattle.cedar_requests.specs.Walks.{attribute_given, attribute_names, expr_attribute, exprs_left};

    fn new(residual: ResidualPairs) -> ResidualIter
        ensures attributes { exprs_left result ≡ map expr_attribute (residual_map residual).entries }
        ensures in_order { IsStrictlySortedBy (slice_cmp nat_cmp) (attribute_names (exprs_left result)) }
    {
        ResidualIter {
            pairs: residual.into_map().into_iter(),
        }
    }

    fn next(&mut self) -> Option<(RcStr, RestrictedExpr)>
        ensures { YieldsFirstBy attribute_given exprs_left self.old result self.new }
    {
        match self.pairs.next() {
            Some((name, expr)) => Some((name, RestrictedExpr::new_unchecked(expr))),
            None => None,
        }
    }
}

impl IntoIter {
    ghost use Rattle.cedar_requests.specs.Walks.{attribute_given, value_attribute};

    // The value as an expression, under its name.
    fn write_named(
        alloc: Global,
        name: RcStr,
        value: Value,
    ) -> Result<(RcStr, RestrictedExpr), AllocError>
        ensures { IfOk result (λ a. attribute_given a ≡ value_attribute (name, value)) }
    {
        Ok((name, RestrictedExpr::try_from_value(alloc, value)?))
    }
}

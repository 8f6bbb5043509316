//! The pairs of a context: values, or expressions of which one or more hold an unknown.
ghost use Rattle.std.specs.Prelude.{◌≡◌, true, length};
ghost use Rattle.cedar_model.specs.Shapes.{are_restricted_at, have_unknown_at};
ghost use Rattle.cedar_expressions.specs.View.{fields_view};
ghost use mathlib.Core.Bool.{Bool-set};

use super::values::ContextValues;
use cedar_expressions::Expr;
use std::collections::BTreeMap;
use std::marker::Model;
use std::rc::RcStr;

/// The attributes of a context.
#[derive(Debug, Drop)]
pub enum ContextPairs {
    /// Values.
    Values(ContextValues),
    /// Restricted expressions of which one or more hold an unknown.
    Residual(ResidualPairs),
}

/// Restricted expressions under their names, of which one or more hold an unknown.
#[derive(Debug, Drop)]
pub struct ResidualPairs {
    pairs: BTreeMap<RcStr, Expr>,
    ghost restricted: { are_restricted_at (fields_view pairs.entries) ≡ true } by { Bool-set _ _ },
    ghost unknown: { have_unknown_at (fields_view pairs.entries) ≡ true } by { Bool-set _ _ },
}

impl Model for ResidualPairs {
    ghost use base.Stored.{coded_via};
    ghost use Rattle.std.specs.Coded.{codes};
    ghost use Rattle.std_collections.specs.Layout.BTreeMap.{btree_map_code};
    ghost use Rattle.cedar_expressions.specs.contracts.expr.Expr as expressions;
    ghost use Rattle.cedar_requests.specs.LeftPairs.{LeftPairs, same_left_pairs};

    ghost Value = { LeftPairs };

    ghost coded = { coded_via (Prim.hlevel (codes, btree_map_code, expressions.the_row.coded))
        (λ r. r.pairs) same_left_pairs };

    ghost view = { λ a. record { pairs = a.pairs; restricted = a.restricted; unknown = a.unknown } };
}

impl ContextPairs {
    ghost use Rattle.cedar_requests.specs.Contexts.{context_pairs_view, context_keys};

    // How many there are.
    pub(crate) fn len(&self) -> usize
        ensures { result ≡ length (context_keys (context_pairs_view self.now)) }
    {
        match self {
            ContextPairs::Values(values) => values.as_map().len(),
            ContextPairs::Residual(residual) => residual.pairs.len(),
        }
    }
}

impl ResidualPairs {
    ghost use Rattle.cedar_requests.specs.Contexts.{residual_map};

    /// These expressions under their names.
    pub(crate) fn new(pairs: BTreeMap<RcStr, Expr>) -> ResidualPairs
        requires restricted { are_restricted_at (fields_view pairs.entries) ≡ true }
        requires unknown { have_unknown_at (fields_view pairs.entries) ≡ true }
        ensures { residual_map result ≡ pairs }
    {
        ResidualPairs { pairs }
    }

    /// The expressions under their names.
    pub fn as_map(&self) -> &BTreeMap<RcStr, Expr>
        ensures map { result.now ≡ residual_map self.now }
        ensures restricted { are_restricted_at (fields_view result.now.entries) ≡ true }
        ensures unknown { have_unknown_at (fields_view result.now.entries) ≡ true }
    {
        &self.pairs
    }

    /// The expressions under their names.
    pub fn into_map(self) -> BTreeMap<RcStr, Expr>
        ensures map { result ≡ residual_map self }
        ensures restricted { are_restricted_at (fields_view result.entries) ≡ true }
        ensures unknown { have_unknown_at (fields_view result.entries) ≡ true }
    {
        self.pairs
    }
}

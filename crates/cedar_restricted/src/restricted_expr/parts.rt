//! The iterators over the parts of restricted expressions.
ghost use Rattle.std.specs.Prelude.{◌≡◌, true};
ghost use Rattle.cedar_model.specs.Shapes.{are_restricted, are_restricted_at};
ghost use Rattle.cedar_expressions.specs.View.{terms_view, fields_view};
ghost use mathlib.Core.Bool.{Bool-set};

use super::BorrowedRestrictedExpr;
use cedar_expressions::Expr;
use std::collections::BTreeMap;
use std::collections::btree_map::Iter;
use std::rc::RcStr;

/// The elements of a set, in literal order.
#[derive(Drop)]
pub struct SetElements<'a> {
    elements: &'a [Expr],
    ghost restricted: { are_restricted (terms_view elements.now) ≡ true } by { Bool-set _ _ },
}

/// The pairs of a key and a part of a record, in byte order of the keys.
#[derive(Drop)]
pub struct RecordPairs<'a> {
    pairs: Iter<'a, RcStr, Expr>,
    ghost restricted: { are_restricted_at (fields_view pairs) ≡ true } by { Bool-set _ _ },
}

/// The arguments of a call, in order.
#[derive(Drop)]
pub struct CallArguments<'a> {
    arguments: &'a [Expr],
    ghost restricted: { are_restricted (terms_view arguments.now) ≡ true } by { Bool-set _ _ },
}

impl<'a> SetElements<'a> {
    ghost use Rattle.cedar_restricted.specs.Iterators.{elements_left};

    pub(crate) fn new(elements: &'a [Expr]) -> SetElements<'a>
        requires { are_restricted (terms_view elements.now) ≡ true }
        ensures { elements_left result ≡ elements.now }
    {
        SetElements { elements }
    }
}

impl<'a> RecordPairs<'a> {
    ghost use Rattle.cedar_restricted.specs.Iterators.{pairs_left};

    pub(crate) fn new(pairs: &'a BTreeMap<RcStr, Expr>) -> RecordPairs<'a>
        requires { are_restricted_at (fields_view pairs.now.entries) ≡ true }
        ensures { pairs_left result ≡ pairs.now.entries }
    {
        RecordPairs {
            pairs: pairs.iter(),
        }
    }
}

impl<'a> CallArguments<'a> {
    ghost use Rattle.cedar_restricted.specs.Iterators.{arguments_left};

    pub(crate) fn new(arguments: &'a [Expr]) -> CallArguments<'a>
        requires { are_restricted (terms_view arguments.now) ≡ true }
        ensures { arguments_left result ≡ arguments.now }
    {
        CallArguments { arguments }
    }
}

impl<'a> Iterator for SetElements<'a> {
    ghost use Rattle.std.specs.Iterator.{YieldsFirstBy, item_count};
    ghost use Rattle.cedar_restricted.specs.Views.{borrowed_expr};
    ghost use Rattle.cedar_restricted.specs.Iterators.{elements_left};

    type Item = BorrowedRestrictedExpr<'a>;

    ghost next_gives = { YieldsFirstBy borrowed_expr elements_left };

    ghost remaining = { item_count elements_left };

    fn next(&mut self) -> Option<BorrowedRestrictedExpr<'a>> {
        let (first, others) = self.elements.split_first()?;
        self.elements = others;
        Some(BorrowedRestrictedExpr { expr: first })
    }
}

impl<'a> Iterator for RecordPairs<'a> {
    ghost use Rattle.std.specs.Iterator.{YieldsFirstBy, item_count};
    ghost use Rattle.cedar_restricted.specs.Iterators.{pairs_left, pair_given};

    type Item = (&'a RcStr, BorrowedRestrictedExpr<'a>);

    ghost next_gives = { YieldsFirstBy pair_given pairs_left };

    ghost remaining = { item_count pairs_left };

    fn next(&mut self) -> Option<(&'a RcStr, BorrowedRestrictedExpr<'a>)> {
        let (key, expr) = self.pairs.next()?;
        Some((key, BorrowedRestrictedExpr { expr }))
    }
}

impl<'a> Iterator for CallArguments<'a> {
    ghost use Rattle.std.specs.Iterator.{YieldsFirstBy, item_count};
    ghost use Rattle.cedar_restricted.specs.Views.{borrowed_expr};
    ghost use Rattle.cedar_restricted.specs.Iterators.{arguments_left};

    type Item = BorrowedRestrictedExpr<'a>;

    ghost next_gives = { YieldsFirstBy borrowed_expr arguments_left };

    ghost remaining = { item_count arguments_left };

    fn next(&mut self) -> Option<BorrowedRestrictedExpr<'a>> {
        let (first, others) = self.arguments.split_first()?;
        self.arguments = others;
        Some(BorrowedRestrictedExpr { expr: first })
    }
}

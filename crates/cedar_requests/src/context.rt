//! Contexts of requests.
ghost use Rattle.std.specs.Prelude.{◌≡◌, Some, None, option_copied, IfOk, IfSome, true, length};

mod conversions;
mod copies;
mod creation;
mod equality;
mod named;
pub(crate) mod pairs;
mod substitution;
mod texts;
pub(crate) mod values;
mod walk;

use cedar_expressions::Expr;
use cedar_values::Value;
use pairs::ContextPairs;
use std::alloc::{AllocError, Global};
use std::collections::BTreeMap;
use std::marker::Model;
use std::rc::{Rc, RcStr};
use values::ContextValues;
pub use walk::IntoIter;

/// The context of a request: a record of values, or a record of restricted expressions of which one or more hold an
/// unknown.
#[derive(Debug, Drop)]
pub struct Context {
    pairs: ContextPairs,
    alloc: Global,
}

impl Model for Context {
    ghost use Rattle.std.specs.Coded.{codes};
    ghost use Rattle.std_collections.specs.Layout.BTreeMap.{btree_map_code};
    ghost use Rattle.cedar_values.specs.Sound.{placed_code};
    ghost use Rattle.cedar_requests.specs.contracts.context.pairs.ResidualPairs as residuals;
    ghost use Rattle.cedar_requests.specs.ContextFields.{ContextFields};

    ghost Value = { ContextFields };

    ghost coded = { Prim.hlevel (codes, btree_map_code, placed_code, residuals.the_row.coded) };

    ghost view = { λ a. record { pairs = a.pairs; alloc = a.alloc } };

    ghost inverse = { λ a. record { pairs = a.pairs; alloc = a.alloc } };
}

impl Context {
    ghost use Rattle.cedar_model.specs.Values.{no_represented_at};
    ghost use Rattle.cedar_model.specs.Settings.{known_context};
    ghost use Rattle.cedar_model.specs.Shapes.{are_restricted_at, have_unknown_at};
    ghost use Rattle.cedar_expressions.specs.View.{fields_view};
    ghost use Rattle.cedar_values.specs.Sound.{whats_at};
    ghost use Rattle.cedar_requests.specs.Contexts.{context_view, context_keys, context_values, context_residual};

    /// The context with no attribute. It takes no memory.
    pub fn empty(alloc: Global) -> Context
        ensures { context_view result ≡ known_context no_represented_at }
    {
        Context {
            pairs: ContextPairs::Values(ContextValues::new(BTreeMap::new(alloc))),
            alloc,
        }
    }

    /// The context of these attributes with their values, which its copies share. Out of memory is an `AllocError`.
    pub fn from_values(alloc: Global, pairs: BTreeMap<RcStr, Value>) -> Result<Context, AllocError>
        ensures view { IfOk result (λ c. context_view c ≡ known_context (whats_at pairs.entries)) }
        ensures map { IfOk result (λ c. context_values c ≡ Some pairs) }
    {
        Ok(Context::from_shared_values(alloc, Rc::new(alloc, pairs)?))
    }

    /// How many attributes the context has.
    pub fn num_keys(&self) -> usize
        ensures { result ≡ length (context_keys (context_view self.now)) }
    {
        self.pairs.len()
    }

    /// The attributes with their values, where all values are known: `None` of a residual.
    pub fn as_value(&self) -> Option<&BTreeMap<RcStr, Value>>
        ensures { option_copied result ≡ context_values self.now }
    {
        match &self.pairs {
            ContextPairs::Values(values) => Some(values.as_map()),
            ContextPairs::Residual(_) => None,
        }
    }

    /// The attributes with their expressions, where one or more hold an unknown: `None` of a context of values.
    pub fn as_residual(&self) -> Option<&BTreeMap<RcStr, Expr>>
        ensures map { option_copied result ≡ context_residual self.now }
        ensures restricted { IfSome result (λ m. are_restricted_at (fields_view m.now.entries) ≡ true) }
        ensures unknown { IfSome result (λ m. have_unknown_at (fields_view m.now.entries) ≡ true) }
    {
        match &self.pairs {
            ContextPairs::Values(_) => None,
            ContextPairs::Residual(residual) => Some(residual.as_map()),
        }
    }
}

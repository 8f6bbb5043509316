#![tactic(auto, using(crate::proofs::Capping::capping))]
//! How high values are.
ghost use Rattle.std.specs.Prelude.{◌≡◌};
ghost use Rattle.cedar_model.specs.Agreement.{height, greatest_height, greatest_height_at};
ghost use Rattle.cedar_model.specs.Sets.{represented_values_of};
ghost use Rattle.cedar_model.specs.Terms.{record_of};
ghost use Rattle.cedar_model.specs.Values.{expression_of, expressions_of, expressions_at};
ghost use Rattle.cedar_values.specs.Kinds.{kind_what};
ghost use Rattle.cedar_values.specs.Representations.{extension_what};
ghost use Rattle.cedar_values.specs.Sound.{whats, whats_at};
ghost use Rattle.cedar_heights.specs.Capped.{capped};
ghost use Rattle.cedar_heights.specs.Heights.{greatest_value};

use crate::expressions::highest;
use crate::numbers::above;
use cedar_values::{ExtensionValue, Value, ValueKind};
use std::collections::{BTreeMap, HashMap};
use std::rc::RcStr;

/// How many levels the value has: those of the expression that it is written as, an extension value of the call. It is
/// told as `usize::MAX` where it is greater.
#[cycle(height)]
pub fn value_height(value: &Value) -> usize
    ensures { result ≡ capped (height (expression_of value.now.what)) }
{
    kind_height(value.value_kind())
}

#[cycle(height)]
fn kind_height(kind: &ValueKind) -> usize
    ensures { result ≡ capped (height (expression_of (kind_what kind.now))) }
{
    match kind {
        ValueKind::Lit(_) => 1,
        ValueKind::Set(set) => above(highest_value(set.as_slice())),
        ValueKind::Record(pairs) => above(highest_value_at(pairs)),
        ValueKind::ExtensionValue(value) => extension_height(value),
    }
}

fn extension_height(value: &ExtensionValue) -> usize
    ensures { result ≡ capped (height (expression_of (extension_what value.now))) }
{
    above(highest(value.representation.args()))
}

// The height of the highest.
#[cycle(height)]
fn highest_value(values: &[Value]) -> usize
    ensures { result ≡ capped (greatest_height (expressions_of (represented_values_of (whats values.now)))) }
{
    let mut found = 0;
    'values: for value in values {
        found = value_height(value).max(found);
    }
    found
}

// The same of what stands under the keys of a record.
#[cycle(height)]
fn highest_value_at(pairs: &BTreeMap<RcStr, Value>) -> usize
    ensures { result ≡ capped (greatest_height_at (expressions_at (whats_at pairs.now.entries))) }
{
    let mut found = 0;
    'pairs: for (_, value) in pairs {
        found = value_height(value).max(found);
    }
    found
}

/// How many levels the record of these values has: one more than the highest of them.
pub fn record_height(pairs: &BTreeMap<RcStr, Value>) -> usize
    ensures { result ≡ capped (height (record_of (expressions_at (whats_at pairs.now.entries)))) }
{
    above(highest_value_at(pairs))
}

/// How many levels the highest of the map's values has; 0 where there is none.
pub fn mapped_height(map: &HashMap<RcStr, Value>) -> usize
    ensures { result ≡ capped (greatest_value map.now.entries) }
{
    let mut found = 0;
    'pairs: for (_, value) in map {
        found = value_height(value).max(found);
    }
    found
}

#![tactic(auto, using(crate::proofs::Views::views, crate::proofs::Counted::counts))]
//! How much a request may ask and bring.
ghost use Rattle.std.specs.Prelude.{◌≡◌, ◌<◌, nat_lt, Some, option_map, codes};
ghost use Rattle.json.specs.Find.{as_array, get};
ghost use Rattle.json.specs.Value.{value_view, items_view};
ghost use Rattle.cedar_endpoints.specs.Bounds.{is_empty_array, brings, count_in, count_at, parent_count, parents_in};
ghost use Rattle.cedar_endpoints.specs.Bounds.{excess_among, excess_in, excess_of};
ghost use Rattle.cedar_endpoints.specs.Several.{item_count};

use crate::several::array;
use json::Value;

/// How much one request may ask and bring, and how much is looked at for it.
#[derive(Clone, Copy)]
pub struct Bounds {
    /// How many entities a request may bring.
    pub entities: usize,
    /// How many parents these may name, all together.
    pub ancestors: usize,
    /// How many evaluations a document may ask.
    pub evaluations: usize,
    /// How many candidates one page of a search looks at.
    pub candidates: usize,
}

/// Of what a request brings too much.
#[derive(Clone, Copy, Debug, PartialEq, Eq)]
pub enum Excess {
    /// Of entities.
    Entities,
    /// Of parents that they name.
    Parents,
}

/// Whether a request brings entities: it has a member `entities`, which is no empty array.
pub fn brings_entities(value: &Value<'_>) -> bool
    ensures { result ≡ brings (get (codes "entities") (value_view value.now)) }
{
    match value.get("entities") {
        Some(entities) => !is_empty_array(array(entities)),
        None => false,
    }
}

fn is_empty_array(items: Option<&Vec<Value<'_>>>) -> bool
    ensures { result ≡ is_empty_array (option_map (λ v. items_view v.now.items) items.entry) }
{
    match items {
        Some(items) => has_none(items),
        None => false,
    }
}

fn has_none(items: &Vec<Value<'_>>) -> bool
    ensures { result ≡ is_empty_array (Some (items_view items.now.items)) }
{
    items.len() == 0
}

/// Of what a request brings more than it may, if of something: the first of entities, and of parents that these name, in
/// their arrays `parents`. What is no array has none.
pub fn excess_of(bounds: Bounds, value: &Value<'_>) -> Option<Excess>
    ensures { result ≡ excess_of bounds (get (codes "entities") (value_view value.now)) }
{
    match value.get("entities") {
        Some(entities) => excess_in(bounds, array(entities)),
        None => None,
    }
}

fn excess_in(bounds: Bounds, entities: Option<&Vec<Value<'_>>>) -> Option<Excess>
    ensures { result ≡ excess_in bounds (option_map (λ v. items_view v.now.items) entities.entry) }
{
    match entities {
        Some(entities) => excess_among(bounds, entities),
        None => None,
    }
}

fn excess_among(bounds: Bounds, entities: &Vec<Value<'_>>) -> Option<Excess>
    ensures { result ≡ excess_among bounds (items_view entities.now.items) }
{
    if are_more(entities, bounds.entities) {
        Some(Excess::Entities)
    } else if name_more(entities, bounds.ancestors) {
        Some(Excess::Parents)
    } else {
        None
    }
}

/// Whether there are more items than so many.
pub(crate) fn are_more(items: &Vec<Value<'_>>, most: usize) -> bool
    ensures { result ≡ nat_lt most (item_count (items_view items.now.items)) }
{
    most < items.len()
}

// ---- parents

// Whether the entities name more parents than so many. It stops at the first that is one too many.
fn name_more(entities: &Vec<Value<'_>>, most: usize) -> bool
    ensures { result ≡ nat_lt most (parents_in (items_view entities.now.items)) }
{
    let mut left = most;
    'entities: for entity in entities {
        let count = parent_count(entity);
        if left < count {
            return true;
        }
        left = left - count;
    }
    false
}

fn parent_count(entity: &Value<'_>) -> usize
    ensures { result ≡ parent_count (value_view entity.now) }
{
    count_at(entity.get("parents"))
}

fn count_at(value: Option<&Value<'_>>) -> usize
    ensures { result ≡ count_at (option_map (λ v. value_view v.now) value.entry) }
{
    match value {
        Some(value) => count_in(array(value)),
        None => 0,
    }
}

fn count_in(items: Option<&Vec<Value<'_>>>) -> usize
    ensures { result ≡ count_in (option_map (λ v. items_view v.now.items) items.entry) }
{
    match items {
        Some(items) => count(items),
        None => 0,
    }
}

fn count(items: &Vec<Value<'_>>) -> usize
    ensures { result ≡ item_count (items_view items.now.items) }
{
    items.len()
}

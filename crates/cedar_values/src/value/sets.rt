//! Sets of values: made in canonical order, and what is asked of them.
ghost use Rattle.std.specs.Prelude.{◌≡◌, ◌^◌, ◌<◌, IfOk, not, length};
ghost use Rattle.std.specs.Slice.Iter.{iter_rest};
ghost use Rattle.std.specs.Iterator.Adapters.{IterYieldsInOrder};
ghost use Rattle.cedar_model.specs.Values.{abstract_value, abstract_values};
ghost use Rattle.cedar_model.specs.Sets.{represented_values_of, canonical_set, has_value};
ghost use Rattle.cedar_values.specs.Sound.{Placed, whats, firsts};
ghost use Rattle.cedar_model.specs.Meaning.{is_empty, has_each, has_some};
ghost use Rattle.cedar_values.specs.Members.{values_count, WalksOver};

use super::{Set, Value};
use std::alloc::{AllocError, Global};
use std::rc::Rc;
use std::slice::Iter;

impl Set {
    /// The set of these values, in the order of values, each once: where two are equal, the first stays, with its
    /// representation and its location. Refuses only if out of memory.
    pub fn new(alloc: Global, mut elements: Vec<Value>) -> Result<Set, AllocError>
        ensures all { IfOk result (λ s. s.all ≡ canonical_set (whats elements.items)) }
        ensures members { IfOk result (λ s. s.members ≡ firsts elements.items) }
    {
        elements.sort()?;
        elements.dedup();
        Ok(Set {
            elements: Rc::new(alloc, elements)?,
        })
    }

    /// The elements in the order of values, each once.
    pub fn as_slice(&self) -> &[Value]
        ensures all { represented_values_of (whats result.now) ≡ self.now.all }
        ensures members { result.now ≡ self.now.members }
    {
        self.elements.as_slice()
    }

    /// How many elements the set has.
    pub fn len(&self) -> usize
        ensures { result ≡ values_count self.now.all }
    {
        self.as_slice().len()
    }

    /// Whether the set has no element.
    pub fn is_empty(&self) -> bool
        ensures { result ≡ is_empty (abstract_values self.now.all) }
    {
        self.as_slice().is_empty()
    }

    /// Whether the set has an element that equals the value.
    pub fn contains(&self, value: &Value) -> bool
        ensures { result ≡ has_value (abstract_value value.now.what) (abstract_values self.now.all) }
    {
        self.as_slice().binary_search(value).is_ok()
    }

    /// Whether each element is one of the other set's. It is false at once where this set has more elements than the
    /// other.
    pub fn is_subset(&self, other: &Set) -> bool
        ensures { result ≡ has_each (abstract_values self.now.all) (abstract_values other.now.all) }
    {
        if self.len() > other.len() {
            false
        } else {
            self.each_is_in(other)
        }
    }

    /// Whether no element is one of the other set's. The set that has fewer elements is walked over.
    pub fn is_disjoint(&self, other: &Set) -> bool
        ensures { result ≡ not (has_some (abstract_values self.now.all) (abstract_values other.now.all)) }
    {
        if self.len() > other.len() {
            other.none_is_in(self)
        } else {
            self.none_is_in(other)
        }
    }

    // Whether each element is one of the other set's: each is looked up there.
    #[tactic(auto, using(crate::proofs::SetMembers::members))]
    fn each_is_in(&self, other: &Set) -> bool
        ensures { result ≡ has_each (abstract_values self.now.all) (abstract_values other.now.all) }
    {
        'elements: for element in self.as_slice() {
            if !other.contains(element) {
                return false;
            }
        }
        true
    }

    // Whether no element is one of the other set's: each is looked up there.
    #[tactic(auto, using(crate::proofs::SetMembers::members))]
    fn none_is_in(&self, other: &Set) -> bool
        ensures { result ≡ not (has_some (abstract_values self.now.all) (abstract_values other.now.all)) }
    {
        'elements: for element in self.as_slice() {
            if other.contains(element) {
                return false;
            }
        }
        true
    }

    /// The elements one by one, in the order of values, each once.
    pub fn iter(&self) -> Iter<'_, Value>
        ensures all { represented_values_of (whats (iter_rest result)) ≡ self.now.all }
        ensures members { iter_rest result ≡ self.now.members }
        ensures bound { length (iter_rest result) < 2 ^ 64 }
        ensures runs { IterYieldsInOrder Placed }
    {
        self.as_slice().iter()
    }
}

impl<'a> IntoIterator for &'a Set {
    type Item = &'a Value;

    type IntoIter = Iter<'a, Value>;

    ghost into_iter_gives = { λ s it. WalksOver s.now it };

    fn into_iter(self) -> Iter<'a, Value> {
        self.iter()
    }
}

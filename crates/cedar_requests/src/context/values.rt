//! The values of a context: its own, as they were handed in, or shared by its copies.
ghost use Rattle.std.specs.Prelude.{◌≡◌, map, IfOk, IfErr};
ghost use Rattle.cedar_values.specs.Sound.{whats_at};
ghost use Rattle.cedar_requests.specs.Walks.{value_attribute};

use cedar_values::Value;
use std::alloc::{AllocError, Global};
use std::collections::BTreeMap;
use std::fmt;
use std::marker::Model;
use std::rc::{Rc, RcStr};

/// The values of a context under their names.
#[derive(Drop)]
pub struct ContextValues {
    held: HeldValues,
}

// Values that nothing else holds, or that other contexts and values may hold too.
#[derive(Drop)]
enum HeldValues {
    Own(BTreeMap<RcStr, Value>),
    Shared(Rc<BTreeMap<RcStr, Value>>),
}

impl Model for ContextValues {
    ghost use Rattle.std.specs.Coded.{codes};
    ghost use Rattle.std_collections.specs.Layout.BTreeMap.{btree_map_code};
    ghost use Rattle.cedar_values.specs.Sound.{placed_code};
    ghost use Rattle.cedar_requests.specs.ContextValues.{ValueMap, held_values};

    ghost Value = { ValueMap };

    ghost coded = { Prim.hlevel (codes, btree_map_code, placed_code) };

    ghost view = { λ a. held_values a.held };
}

impl ContextValues {
    ghost use Rattle.cedar_requests.specs.ContextValues.{value_locs};

    // These values.
    pub(super) fn new(values: BTreeMap<RcStr, Value>) -> ContextValues
        ensures { result ≡ values }
    {
        ContextValues {
            held: HeldValues::Own(values),
        }
    }

    // These values, which its copies share.
    pub(super) fn of_shared(values: Rc<BTreeMap<RcStr, Value>>) -> ContextValues
        ensures { result ≡ values.value }
    {
        ContextValues {
            held: HeldValues::Shared(values),
        }
    }

    // A map of them.
    pub(super) fn as_map(&self) -> &BTreeMap<RcStr, Value>
        ensures { result.now ≡ self.now }
    {
        match &self.held {
            HeldValues::Own(values) => values,
            HeldValues::Shared(values) => values.as_ref(),
        }
    }

    // The same values, which copies of this share from then on.
    pub(super) fn into_shared(self, alloc: Global) -> Result<Rc<BTreeMap<RcStr, Value>>, AllocError>
        ensures { IfOk result (λ m. m.value ≡ self) }
    {
        match self.held {
            HeldValues::Own(values) => Ok(Rc::new(alloc, values)?),
            HeldValues::Shared(values) => Ok(values),
        }
    }

    // The same values, which are shared from then on. Values that nothing else held are copied once.
    pub(super) fn copied(&self, alloc: Global) -> Result<ContextValues, AllocError>
        ensures values { IfOk result (λ v. whats_at v.entries ≡ whats_at self.now.entries) }
        ensures locs { IfOk result (λ v. value_locs v ≡ value_locs self.now) }
    {
        match &self.held {
            HeldValues::Own(values) => {
                let copy = values.clone()?;
                Ok(ContextValues::of_shared(Rc::new(alloc, copy)?))
            }
            HeldValues::Shared(values) => Ok(ContextValues::of_shared(values.clone()?)),
        }
    }

    // The values, copied where they are shared; or the shared ones, where memory ran out for a copy.
    pub(super) fn into_map(self) -> Result<BTreeMap<RcStr, Value>, Rc<BTreeMap<RcStr, Value>>>
        ensures values { IfOk result (λ m. map value_attribute m.entries ≡ map value_attribute self.entries) }
        ensures shared { IfErr result (λ m. m.value ≡ self) }
    {
        match self.held {
            HeldValues::Own(values) => Ok(values),
            HeldValues::Shared(values) => unshare_values(values),
        }
    }
}

// The values, which are moved or copied; or as they are, where memory ran out for a copy.
fn unshare_values(
    values: Rc<BTreeMap<RcStr, Value>>,
) -> Result<BTreeMap<RcStr, Value>, Rc<BTreeMap<RcStr, Value>>>
    ensures values { IfOk result (λ m. map value_attribute m.entries ≡ map value_attribute values.value.entries) }
    ensures shared { IfErr result (λ m. m.value ≡ values.value) }
{
    match Rc::try_unwrap(values) {
        Ok(values) => Ok(values),
        Err(shared) => match shared.as_ref().clone() {
            Ok(copy) => {
                drop(shared);
                Ok(copy)
            }
            Err(_) => Err(shared),
        },
    }
}

/// As the map of the values prints.
impl fmt::Debug for ContextValues {
    fn fmt<W: fmt::Write>(&self, f: &mut fmt::Formatter<W>) -> fmt::Result {
        fmt::Debug::fmt(self.as_map(), f)
    }
}

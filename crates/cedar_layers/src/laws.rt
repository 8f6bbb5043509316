//! What holds of any store and of any map of values, since the types keep it. Each function is a law, and does nothing.
ghost use Rattle.cedar_model.specs.Agreement.{EachStored};
ghost use Rattle.cedar_model.specs.Restricted.{IsSoundPart};
ghost use Rattle.cedar_expressions.specs.Mappings.{mapping_of};
ghost use Rattle.cedar_values.specs.Sound.{Placed};
ghost use Rattle.cedar_layers.specs.Mapped.{IsSoundMapping};
ghost use Rattle.cedar_layers.specs.Stores.{store_view};

use crate::policies::Entities;
use cedar_values::Value;
use std::collections::HashMap;
use std::rc::RcStr;

/// Each attribute and each tag of a store is sound: a value whose sets are in canonical order and whose extension
/// values are written without unknowns, or a residual that is a restricted expression.
pub fn stores_are_sound(entities: &Entities)
    ensures { EachStored IsSoundPart (store_view entities.now) }
{}

/// Each value that a map has for an unknown is sound: its sets are in canonical order, and its extension values are
/// written without unknowns.
pub fn mapped_values_are_sound(map: &HashMap<RcStr, Value>)
    ensures { IsSoundMapping (mapping_of (λ (v : Placed). v.what) map.now.entries) }
{}

//! Chains over stores that grow. Each function is a set of examples, and does nothing.
ghost use Rattle.cedar_partial_stores.specs.PartialStores.{PartialStoreIsCompleted, LargerStoreIsCompleted};
ghost use Rattle.cedar_partial_stores.specs.PartialStores.{OrphanIsRefuted};

/// Examples: a partial store that a world completes, and a step from it to a larger store that the same world
/// completes. A store that records an entity without all its ancestors agrees with no world that agrees with the larger
/// one.
pub fn stores_grow()
    ensures partial_completed { PartialStoreIsCompleted }
    ensures larger_completed { LargerStoreIsCompleted }
    ensures orphan_refuted { OrphanIsRefuted }
{}

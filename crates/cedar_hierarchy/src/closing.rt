//! Stores whose ancestors are closed under "parent of".
ghost use Rattle.std.specs.Prelude.{◌≡◌, ◌↔◌, true, false, IfOk, OnOk, IfErr};
ghost use Rattle.std.specs.List.{AllZip};
ghost use Rattle.cedar_model.specs.Terms.{EntityName};
ghost use Rattle.cedar_model.specs.Settings.{is_among};
ghost use Rattle.cedar_layers.specs.Stores.{last_of_each_name, stored_entity, store_view};
ghost use Rattle.cedar_hierarchy.specs.Ancestry.{recorded, parents_of, AreAlike, NamesACycle, IsClosed};
ghost use Rattle.cedar_hierarchy.specs.Paths.{Leads};
ghost use Rattle.cedar_hierarchy.specs.Listed.{listed_parents, KnowsAncestors};

use crate::ancestry::{AncestorMap, all_ancestors, take_ancestors};
use crate::error::ClosureError;
use crate::parents::{ParentMap, copy_uid, recorded_parents};
use cedar_fallible::add_last;
use cedar_layers::policies::{Entities, Entity};
use std::alloc::Global;

/// The concrete store of these entities, which are all that there are. Their recorded ancestors are taken to be their
/// parents: in the store, each records all that parents lead to in one step or more. Apart from its ancestors each
/// entity is the one that was handed in, its uid, attributes and tags whole; of those of one uid the last counts, as in
/// `Entities::with`. A parent that is not among them has no parents: where there may be more entities than these, that
/// is wrong, and `close_hierarchy_partially` is the call. Refuses with `Cycle` where an entity's parents lead back to
/// it, and names one such entity, before any ancestors are computed; else only if out of memory. Ancestors are computed
/// of parents first: those of an entity begin as those of one of its parents, and of each other one the parents are
/// looked at once.
pub fn close_hierarchy(alloc: Global, entities: Vec<Entity>) -> Result<Entities, ClosureError>
    ensures entities { IfOk result (λ s. (n : EntityName) →
        AreAlike (last_of_each_name entities.items n) (stored_entity s n)) }
    ensures ancestors { IfOk result (λ s. (n m : EntityName) →
        (is_among m (recorded (stored_entity s n)) ≡ true) ↔ Leads (parents_of entities.items) n m) }
    ensures partial { IfOk result (λ s. (store_view s).is_partial ≡ false) }
    ensures acyclic { OnOk result ((n : EntityName) → ¬ Leads (parents_of entities.items) n n) }
    ensures cycle { IfErr result (NamesACycle (parents_of entities.items)) }
{
    let each = close_entities(alloc, entities)?;
    Ok(Entities::with(alloc, each, false)?)
}

/// These entities in their order, each as `close_hierarchy` has it: its recorded ancestors, which are taken to be its
/// parents, with all that parents lead to. For a store that has more beside them, as one over another. Refuses as
/// `close_hierarchy` does.
pub fn close_entities(alloc: Global, entities: Vec<Entity>) -> Result<Vec<Entity>, ClosureError>
    ensures each { IfOk result (λ v. AllZip (IsClosed (parents_of entities.items)) entities.items v.items) }
    ensures cycle { IfErr result (NamesACycle (parents_of entities.items)) }
{
    let parents = recorded_parents(alloc, &entities)?;
    close_each(alloc, &parents, entities)
}

/// Each of these entities with all its ancestors.
pub(crate) fn close_each(
    alloc: Global,
    parents: &ParentMap,
    entities: Vec<Entity>,
) -> Result<Vec<Entity>, ClosureError>
    ensures ok { IfOk result (λ v. AllZip (IsClosed (listed_parents parents.now.entries)) entities.items v.items) }
    ensures cycle { IfErr result (NamesACycle (listed_parents parents.now.entries)) }
{
    let mut known = all_ancestors(alloc, parents)?;
    let mut each: Vec<Entity> = Vec::new(alloc);
    'entities: for entity in entities {
        let closed = close_entity(alloc, parents, &mut known, entity)?;
        add_last(&mut each, closed)?;
    }
    Ok(each)
}

// The entity with all its ancestors, which are taken out of those that are known.
fn close_entity(
    alloc: Global,
    parents: &ParentMap,
    known: &mut AncestorMap,
    entity: Entity,
) -> Result<Entity, ClosureError>
    requires { KnowsAncestors (listed_parents parents.now.entries) known.old.entries }
    ensures ok { IfOk result (IsClosed (listed_parents parents.now.entries) entity) }
    ensures known { KnowsAncestors (listed_parents parents.now.entries) known.new.entries }
    ensures cycle { IfErr result (NamesACycle (listed_parents parents.now.entries)) }
{
    let ancestors = take_ancestors(alloc, parents, known, entity.uid())?;
    if ancestors.contains(entity.uid()) {
        return Err(ClosureError::Cycle(copy_uid(entity.uid())?));
    }
    Ok(entity.with_ancestors(ancestors))
}

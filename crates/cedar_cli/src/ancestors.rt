#![tactic(auto, using(crate::proofs::Counting::counting))]
//! How many ancestors entities have in all.
ghost use Rattle.std.specs.Prelude.{◌≡◌, length};
ghost use Rattle.cedar_heights.specs.Capped.{capped};
ghost use Rattle.cedar_layers.specs.Stores.{entity_ancestors};
ghost use Rattle.cedar_cli.specs.Questions.{at_most_ancestors, parents_in};

use cedar_policy_core::ast::{Entity, EntityUID};
use std::alloc::{AllocError, Global};
use std::collections::BTreeMap;

/// How many ancestors in all a store is laid out with, where nothing else is said: it takes some 140 bytes for each.
pub(crate) const ANCESTORS: usize = 5_000_000;

// The parents of each entity, by number: entities in their order, and behind them the parents that are not among them.
#[derive(Drop)]
struct Graph {
    parents: Vec<Vec<usize>>,
    size: usize,
}

// A walk from one entity: what was found, in order, and for each number the last walk that found it.
#[derive(Drop)]
struct Walk {
    found: Vec<usize>,
    marks: Vec<usize>,
}

/// How many ancestors the entities have in all at most, as many as if each had every parent that stands in them.
pub(crate) fn most_ancestors(entities: &[Entity]) -> usize
    ensures { result ≡ capped (at_most_ancestors entities.now) }
{
    entities.len().saturating_mul(count_parents(entities))
}

fn count_parents(entities: &[Entity]) -> usize
    ensures { result ≡ capped (parents_in entities.now) }
{
    let mut count: usize = 0;
    'entities: for entity in entities {
        count = own_parents(entity).saturating_add(count);
    }
    count
}

fn own_parents(entity: &Entity) -> usize
    ensures { result ≡ length (entity_ancestors entity.now) }
{
    entity.ancestors().len()
}

/// Whether the entities have more ancestors in all than so many, where parents lead to them in one step or more. Where
/// parents lead back to an entity, that may be said or not.
pub(crate) fn has_more_ancestors(
    alloc: Global,
    entities: &Vec<Entity>,
    most: usize,
) -> Result<bool, AllocError> {
    let graph = graph_of(alloc, entities)?;
    if entities.len().saturating_mul(graph.size) <= most {
        return Ok(false);
    }
    let mut walk = Walk {
        found: Vec::new(alloc),
        marks: Vec::new(alloc),
    };
    for _ in 0..graph.size {
        push(&mut walk.marks, 0)?;
    }
    let mut left = most;
    for start in 0..graph.parents.len() {
        walk.from(&graph, start)?;
        if walk.found.len() > left {
            return Ok(true);
        }
        left = left.saturating_sub(walk.found.len());
    }
    Ok(false)
}

impl Walk {
    // Finds all that parents lead to from this entity.
    fn from(&mut self, graph: &Graph, start: usize) -> Result<(), AllocError> {
        let mark = start.saturating_add(1);
        self.found.clear();
        self.find_parents(graph, start, mark)?;
        for next in 0..graph.size {
            match self.found.get(next).copied() {
                Some(number) => self.find_parents(graph, number, mark)?,
                None => return Ok(()),
            }
        }
        Ok(())
    }

    fn find_parents(
        &mut self,
        graph: &Graph,
        number: usize,
        mark: usize,
    ) -> Result<(), AllocError> {
        if let Some(own) = graph.parents.get(number) {
            'parents: for parent in own {
                self.find(*parent, mark)?;
            }
        }
        Ok(())
    }

    fn find(&mut self, number: usize, mark: usize) -> Result<(), AllocError> {
        if let Some(last) = self.marks.get_mut(number) {
            if *last != mark {
                *last = mark;
                return push(&mut self.found, number);
            }
        }
        Ok(())
    }
}

fn graph_of(alloc: Global, entities: &Vec<Entity>) -> Result<Graph, AllocError> {
    let mut numbers: BTreeMap<EntityUID, usize> = BTreeMap::new(alloc);
    let mut size: usize = 0;
    'entities: for entity in entities {
        number(&mut numbers, entity.uid(), size)?;
        size = size.saturating_add(1);
    }
    let mut parents: Vec<Vec<usize>> = Vec::new(alloc);
    'lists: for entity in entities {
        let mut own: Vec<usize> = Vec::new(alloc);
        'parents: for uid in entity.ancestors() {
            match numbers.get(uid).copied() {
                Some(parent) => push(&mut own, parent)?,
                None => {
                    number(&mut numbers, uid, size)?;
                    push(&mut own, size)?;
                    size = size.saturating_add(1);
                }
            }
        }
        push(&mut parents, own)?;
    }
    Ok(Graph { parents, size })
}

fn number(
    numbers: &mut BTreeMap<EntityUID, usize>,
    uid: &EntityUID,
    next: usize,
) -> Result<(), AllocError> {
    let uid: EntityUID = uid.clone()?;
    match numbers.insert(uid, next) {
        Ok(_) => Ok(()),
        Err(_) => Err(AllocError),
    }
}

fn push<T: Drop>(items: &mut Vec<T>, item: T) -> Result<(), AllocError> {
    match items.push(item) {
        Ok(()) => Ok(()),
        Err(_) => Err(AllocError),
    }
}

//! Stores with what a request brings beside them: `STORED ~ BROUGHT ~ BROUGHT`, each a list of entities in JSON.
use crate::answer::{Answer, Unanswered};
use crate::json::put_evaluated;
use cedar_extensions::Extensions;
use cedar_hierarchy::close_hierarchy;
use cedar_json_reader::{JsonError, entities_from_json_str};
use cedar_layers::policies::{Entities, Entity};
use cedar_names::EntityUID;
use cedar_overlay::{AttributesError, Base, EntitiesError, with_attributes};
use cedar_values::{PartialValue, Value};
use std::alloc::{AllocError, Global};
use std::collections::BTreeMap;
use std::rc::RcStr;

// More levels of evaluation than any text of a row asks for.
const LEVELS: usize = 1000;

// The attributes that are brought, under the uids of the entities.
type Attributes = BTreeMap<EntityUID, BTreeMap<RcStr, Value>>;

/// Answers the store of these entities with those that are brought, or why there is none.
pub fn ask_added(answer: &mut Answer, text: &str) {
    match stored_and_brought(answer.alloc, text) {
        Ok((stored, brought)) => put_added(answer, stored, brought),
        Err(why) => answer.fail(why),
    }
}

fn put_added(answer: &mut Answer, stored: Entities, brought: Vec<Entity>) {
    match Base::of(answer.alloc, stored) {
        Ok(base) => {
            put_added_to(answer, &base, brought);
            drop(base);
        }
        Err(_) => {
            drop(brought);
            answer.lack_memory();
        }
    }
}

fn put_added_to(answer: &mut Answer, base: &Base, brought: Vec<Entity>) {
    match base.with_entities(answer.alloc, brought) {
        Ok(entities) => {
            put_all(answer, &entities);
            drop(entities);
        }
        Err(EntitiesError::Memory(_)) => answer.lack_memory(),
        Err(error) => {
            answer.show(&error);
            drop(error);
        }
    }
}

/// Answers the store of these entities with the attributes that are brought of them, or why there is none.
pub fn ask_overlaid(answer: &mut Answer, text: &str, request_wins: bool) {
    match stored_and_brought(answer.alloc, text) {
        Ok((stored, brought)) => {
            put_overlaid(answer, &stored, brought.as_slice(), request_wins);
            drop((stored, brought));
        }
        Err(why) => answer.fail(why),
    }
}

fn put_overlaid(answer: &mut Answer, stored: &Entities, brought: &[Entity], request_wins: bool) {
    match attributes_of(answer.alloc, brought) {
        Ok(brought) => match with_attributes(answer.alloc, stored, brought, request_wins) {
            Ok(entities) => {
                put_all(answer, &entities);
                drop(entities);
            }
            Err(AttributesError::Memory(_)) => answer.lack_memory(),
            Err(error) => {
                answer.show(&error);
                drop(error);
            }
        },
        Err(why) => answer.fail(why),
    }
}

fn attributes_of(alloc: Global, brought: &[Entity]) -> Result<Attributes, Unanswered> {
    let mut all: Attributes = BTreeMap::new(alloc);
    for entity in brought {
        let uid: EntityUID = entity.uid().clone()?;
        let values = values_of(alloc, entity)?;
        drop(all.insert(uid, values)?);
    }
    Ok(all)
}

fn values_of(alloc: Global, entity: &Entity) -> Result<BTreeMap<RcStr, Value>, Unanswered> {
    let mut values: BTreeMap<RcStr, Value> = BTreeMap::new(alloc);
    for key in entity.keys() {
        let value = value_at(entity, key.as_str())?;
        let key: RcStr = key.clone()?;
        drop(values.insert(key, value)?);
    }
    Ok(values)
}

fn value_at(entity: &Entity, key: &str) -> Result<Value, Unanswered> {
    match entity.get(key) {
        Some(PartialValue::Value(value)) => {
            let copy: Result<Value, AllocError> = value.clone();
            Ok(copy?)
        }
        Some(PartialValue::Residual(_)) => Err(Unanswered::Unreadable("an attribute is unknown")),
        None => Err(Unanswered::Unreadable("a key leads to nothing")),
    }
}

// The store of the first list, each entity with its ancestors, and the entities of the other lists.
fn stored_and_brought(alloc: Global, text: &str) -> Result<(Entities, Vec<Entity>), Unanswered> {
    let mut lists = text.split(" ~ ");
    let first = lists.next().unwrap_or("");
    let mut brought: Vec<Entity> = Vec::new(alloc);
    for list in lists {
        let mut more = read(alloc, list)?;
        brought.append(&mut more)?;
    }
    let stored = read(alloc, first)?;
    match close_hierarchy(alloc, stored) {
        Ok(entities) => Ok((entities, brought)),
        Err(error) => {
            drop((error, brought));
            Err(Unanswered::Unreadable("no store"))
        }
    }
}

fn read(alloc: Global, text: &str) -> Result<Vec<Entity>, Unanswered> {
    match entities_from_json_str(alloc, text, &Extensions::none(), LEVELS) {
        Ok(entities) => Ok(entities),
        Err(JsonError::Memory(_)) => Err(Unanswered::Memory),
        Err(error) => {
            drop(error);
            Err(Unanswered::Unreadable("no entities"))
        }
    }
}

// The entities with their attributes, tags and ancestors, in the order of their names.
fn put_all(answer: &mut Answer, entities: &Entities) {
    match entities.by_uid(answer.alloc) {
        Ok(listed) => {
            'entities: for (_uid, entity) in &listed {
                answer.next();
                put_whole(answer, entity);
            }
            drop(listed);
        }
        Err(_) => answer.lack_memory(),
    }
    answer.put_if_none("none");
}

fn put_whole(answer: &mut Answer, entity: &Entity) {
    put_evaluated(answer, entity);
    answer.put(" in [");
    let mut is_first = true;
    'ancestors: for ancestor in entity.ancestors() {
        if !is_first {
            answer.put(", ");
        }
        answer.show(ancestor);
        is_first = false;
    }
    answer.put("]");
}

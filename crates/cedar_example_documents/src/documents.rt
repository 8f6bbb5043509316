//! The documents: how they are made, and as entities.
use crate::dice::Dice;
use crate::names::{both, entity, put};
use cedar_policy_core::ast::{Entity, EntityUID, Value};
use std::alloc::{AllocError, Global};
use std::collections::{BTreeMap, BTreeSet};
use std::rc::RcStr;

/// How many documents there are.
pub const COUNT: usize = 200;

const USERS: [&str; 4] = ["alice", "bob", "carol", "o'hara"];

const TITLES: [&str; 5] = ["plan", "it's", "say \"hi\"", "draft *1", "draft ''2"];

const FOLDERS: [&str; 3] = ["archive", "inbox", "desk"];

const STATES: [&str; 4] = ["open", "closed", "it's late", "secret"];

const REGIONS: [&str; 3] = ["eu", "us", "côte d'azur"];

/// A document. What it does not have is `None`.
#[derive(Clone, Copy)]
pub struct Document {
    /// Its number, from 1.
    pub number: usize,
    /// The id of the user whose it is.
    pub owner: &'static str,
    /// Its title.
    pub title: &'static str,
    /// The id of the folder that it is in.
    pub folder: &'static str,
    /// Whether it is public.
    pub public: Option<bool>,
    /// Its size, in pages.
    pub size: Option<i64>,
    /// Its state.
    pub status: Option<&'static str>,
    /// The id of a user who reviews it.
    pub reviewer: Option<&'static str>,
    /// What is known about it.
    pub about: Option<About>,
}

/// What is known about a document.
#[derive(Clone, Copy)]
pub struct About {
    /// The region that it is kept in.
    pub region: Option<&'static str>,
    /// How secret it is.
    pub level: Option<i64>,
}

/// The documents, the same in each run.
pub fn documents(alloc: Global) -> Result<Vec<Document>, AllocError> {
    let mut dice = Dice::new(2026);
    let mut documents: Vec<Document> = Vec::new(alloc);
    for number in 1..COUNT + 1 {
        documents.push(next_document(number, &mut dice))?;
    }
    Ok(documents)
}

fn next_document(number: usize, dice: &mut Dice) -> Document {
    Document {
        number,
        owner: dice.text(&USERS).unwrap_or("alice"),
        title: dice.text(&TITLES).unwrap_or("plan"),
        folder: dice.text(&FOLDERS).unwrap_or("desk"),
        public: dice.truth_or_none(),
        size: dice.long_or_none(1000),
        status: dice.text_or_none(&STATES),
        reviewer: dice.text_or_none(&USERS),
        about: next_about(dice),
    }
}

fn next_about(dice: &mut Dice) -> Option<About> {
    let region = dice.text_or_none(&REGIONS);
    let level = dice.long_or_none(10);
    if dice.roll(5) == 0 {
        None
    } else {
        Some(About { region, level })
    }
}

impl Document {
    /// Its id. In that of each tenth is a quote.
    pub fn id(&self, alloc: Global) -> Result<String, AllocError> {
        let number = self.number;
        if number % 10 == 0 {
            format!(in alloc; "d'{number}")
        } else {
            format!(in alloc; "d{number}")
        }
    }

    /// The entity that it is.
    pub fn uid(&self, alloc: Global) -> Result<EntityUID, AllocError> {
        let id = self.id(alloc)?;
        EntityUID::of(alloc, "Document", id.as_str())
    }

    /// The entity with its attributes, in its folder.
    pub fn entity(&self, alloc: Global) -> Result<Entity, AllocError> {
        let parts = both(self.attributes(alloc), folders(alloc, self.folder));
        let (uid, (attributes, folders)) = both(self.uid(alloc), parts)?;
        Entity::from_values(alloc, uid, attributes, folders, BTreeMap::new(alloc))
    }

    fn attributes(&self, alloc: Global) -> Result<BTreeMap<RcStr, Value>, AllocError> {
        let mut map: BTreeMap<RcStr, Value> = BTreeMap::new(alloc);
        put(alloc, &mut map, "owner", entity(alloc, "User", self.owner))?;
        put(alloc, &mut map, "title", Value::text(alloc, self.title))?;
        put_truth(alloc, &mut map, "public", self.public)?;
        put_long(alloc, &mut map, "size", self.size)?;
        put_text(alloc, &mut map, "status", self.status)?;
        put_reviewers(alloc, &mut map, self.reviewer)?;
        put_about(alloc, &mut map, self.about)?;
        Ok(map)
    }
}

/// The entities of these documents.
pub fn entities(alloc: Global, documents: &[Document]) -> Result<Vec<Entity>, AllocError> {
    let mut entities: Vec<Entity> = Vec::new(alloc);
    add_entities(alloc, documents, &mut entities)?;
    Ok(entities)
}

/// Adds the entities of these documents.
pub fn add_entities(
    alloc: Global,
    documents: &[Document],
    entities: &mut Vec<Entity>,
) -> Result<(), AllocError> {
    for document in documents {
        add(entities, document.entity(alloc))?;
    }
    Ok(())
}

/// Adds the entity.
pub fn add(
    entities: &mut Vec<Entity>,
    entity: Result<Entity, AllocError>,
) -> Result<(), AllocError> {
    let entity = entity?;
    entities.push(entity)?;
    Ok(())
}

fn folders(alloc: Global, id: &str) -> Result<BTreeSet<EntityUID>, AllocError> {
    let mut folders: BTreeSet<EntityUID> = BTreeSet::new(alloc);
    folders.insert(EntityUID::of(alloc, "Folder", id)?)?;
    Ok(folders)
}

// ---- attributes

fn put_truth(
    alloc: Global,
    map: &mut BTreeMap<RcStr, Value>,
    name: &str,
    holds: Option<bool>,
) -> Result<(), AllocError> {
    match holds {
        Some(holds) => put(alloc, map, name, Ok(Value::from(holds))),
        None => Ok(()),
    }
}

fn put_long(
    alloc: Global,
    map: &mut BTreeMap<RcStr, Value>,
    name: &str,
    number: Option<i64>,
) -> Result<(), AllocError> {
    match number {
        Some(number) => put(alloc, map, name, Ok(Value::from(number))),
        None => Ok(()),
    }
}

fn put_text(
    alloc: Global,
    map: &mut BTreeMap<RcStr, Value>,
    name: &str,
    text: Option<&str>,
) -> Result<(), AllocError> {
    match text {
        Some(text) => put(alloc, map, name, Value::text(alloc, text)),
        None => Ok(()),
    }
}

// The set of the one who reviews the document, if there is one.
fn put_reviewers(
    alloc: Global,
    map: &mut BTreeMap<RcStr, Value>,
    reviewer: Option<&str>,
) -> Result<(), AllocError> {
    match reviewer {
        Some(id) => put(alloc, map, "reviewers", set_of(alloc, id)),
        None => Ok(()),
    }
}

fn set_of(alloc: Global, id: &str) -> Result<Value, AllocError> {
    let users = vec![in alloc; entity(alloc, "User", id)?]?;
    Value::set(alloc, users, None)
}

fn put_about(
    alloc: Global,
    map: &mut BTreeMap<RcStr, Value>,
    about: Option<About>,
) -> Result<(), AllocError> {
    match about {
        Some(about) => put(alloc, map, "about", record_of(alloc, about)),
        None => Ok(()),
    }
}

fn record_of(alloc: Global, about: About) -> Result<Value, AllocError> {
    let mut pairs: BTreeMap<RcStr, Value> = BTreeMap::new(alloc);
    put_text(alloc, &mut pairs, "region", about.region)?;
    put_long(alloc, &mut pairs, "level", about.level)?;
    Value::record(alloc, pairs, None)
}

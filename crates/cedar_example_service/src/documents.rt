//! The store: the users with their roles, and the documents.
use crate::names::{entity, put, text_value, uid};
use cedar_policy_core::ast::{Entity, EntityUID, Value};
use cedar_policy_core::entities::Entities;
use std::alloc::{AllocError, Global};
use std::collections::{BTreeMap, BTreeSet};
use std::rc::RcStr;

/// The ids of the documents.
pub const DOCUMENTS: [&str; 3] = ["plan", "handbook", "deed"];

/// All users and documents.
pub fn store_documents(alloc: Global) -> Result<Entities, AllocError> {
    let mut entities: Vec<Entity> = Vec::new(alloc);
    entities.push(user(alloc, "alice", "editor")?)?;
    entities.push(user(alloc, "bob", "reader")?)?;
    entities.push(plan(alloc)?)?;
    entities.push(handbook(alloc)?)?;
    entities.push(deed(alloc)?)?;
    Entities::with(alloc, entities, false)
}

// A user in this role.
fn user(alloc: Global, id: &str, role: &str) -> Result<Entity, AllocError> {
    let mut roles: BTreeSet<EntityUID> = BTreeSet::new(alloc);
    roles.insert(uid(alloc, "Role", role)?)?;
    let none = BTreeMap::new(alloc);
    Entity::from_values(
        alloc,
        uid(alloc, "User", id)?,
        none,
        roles,
        BTreeMap::new(alloc),
    )
}

// Bob's plan.
fn plan(alloc: Global) -> Result<Entity, AllocError> {
    let attributes = describe_document(alloc, "The plan", 12, "bob")?;
    document(alloc, "plan", attributes, BTreeMap::new(alloc))
}

// The public handbook.
fn handbook(alloc: Global) -> Result<Entity, AllocError> {
    let mut attributes = describe_document(alloc, "The handbook", 80, "alice")?;
    put(alloc, &mut attributes, "public", Ok(Value::from(true)))?;
    document(alloc, "handbook", attributes, BTreeMap::new(alloc))
}

// Bob's deed, which is sealed.
fn deed(alloc: Global) -> Result<Entity, AllocError> {
    let attributes = describe_document(alloc, "The deed", 2, "bob")?;
    let mut tags = BTreeMap::new(alloc);
    put(alloc, &mut tags, "sealed", text_value(alloc, "by court"))?;
    document(alloc, "deed", attributes, tags)
}

// A document, in the archive.
fn document(
    alloc: Global,
    id: &str,
    attributes: BTreeMap<RcStr, Value>,
    tags: BTreeMap<RcStr, Value>,
) -> Result<Entity, AllocError> {
    let mut folders: BTreeSet<EntityUID> = BTreeSet::new(alloc);
    folders.insert(uid(alloc, "Folder", "archive")?)?;
    Entity::from_values(
        alloc,
        uid(alloc, "Document", id)?,
        attributes,
        folders,
        tags,
    )
}

// The attributes that each document has.
fn describe_document(
    alloc: Global,
    title: &str,
    pages: i64,
    owner: &str,
) -> Result<BTreeMap<RcStr, Value>, AllocError> {
    let mut attributes: BTreeMap<RcStr, Value> = BTreeMap::new(alloc);
    put(alloc, &mut attributes, "title", text_value(alloc, title))?;
    put(alloc, &mut attributes, "pages", Ok(Value::from(pages)))?;
    let owner = Value::from(entity(alloc, "User", owner)?);
    put(alloc, &mut attributes, "owner", Ok(owner))?;
    Ok(attributes)
}

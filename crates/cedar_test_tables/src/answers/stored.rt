//! What a request and a store hold.
use crate::answers::evaluated::place_of;
use crate::answers::unknowns::{put_unknown, put_unknowns};
use crate::notation::answer::Answer;
use crate::notation::leaves::{name, place, uid};
use crate::notation::settings::value_named;
use crate::notation::unanswered::Unanswered;
use crate::notation::{Parts, both, map_of_pairs, or_memory, split_first_word};
use cedar_errors::extensions::ExtensionFunctionLookupError;
use cedar_extensions::Extensions;
use cedar_layers::expressions::{EntityUID, Loc, Name, PartialValue, Type, Value, Var};
use cedar_layers::policies::{Dereference, Entities, Entity};
use cedar_requests::{Context, EntityUIDEntry, Request, RequestType};
use std::alloc::{AllocError, Global};
use std::collections::{BTreeMap, BTreeSet};
use std::rc::RcStr;

/// The part of the request of this name.
pub fn ask_request(answer: &mut Answer, request: &Request, name: &str) {
    match name {
        "principal" => put_entry(answer, request.principal(), Var::Principal),
        "action" => put_entry(answer, request.action(), Var::Action),
        "resource" => put_entry(answer, request.resource(), Var::Resource),
        "text" => answer.show(request),
        "type" => put_types(answer, request),
        "unknowns" => put_unknowns(answer, request),
        _ => match request.context() {
            Some(context) => put_context(answer, context),
            None => answer.put("no context"),
        },
    }
}

// The entity, or its type if that is known, what the variable answers, and where that stands.
fn put_entry(answer: &mut Answer, entry: &EntityUIDEntry, var: Var) {
    match entry.evaluate(answer.alloc, var) {
        Ok(part) => {
            put_entry_part(answer, entry, &part);
            drop(part);
        }
        Err(_) => answer.lack_memory(),
    }
}

fn put_entry_part(answer: &mut Answer, entry: &EntityUIDEntry, part: &PartialValue) {
    match entry.uid() {
        Some(uid) => answer.show(uid),
        None => match entry.get_type() {
            Some(ty) => {
                answer.put("of type ");
                answer.show(ty);
            }
            None => answer.put("not known"),
        },
    }
    answer.put(", ");
    answer.show(part);
    answer.put(" ");
    answer.show(&place_of(part));
}

// The types of a request that is known, and its action.
fn put_types(answer: &mut Answer, request: &Request) {
    match request.to_request_type() {
        Ok(Some(types)) => {
            put_names(answer, &types);
            drop(types);
        }
        Ok(None) => answer.put("no type"),
        Err(_) => answer.lack_memory(),
    }
}

fn put_names(answer: &mut Answer, types: &RequestType) {
    answer.show(&types.principal);
    answer.put(" ");
    answer.show(&types.action);
    answer.put(" ");
    answer.show(&types.resource);
}

// How many attributes a copy of the context has, whether they are known, and whether it is equal.
fn put_context(answer: &mut Answer, context: &Context) {
    match context.clone() {
        Ok(copy) => {
            put_copied(answer, context, &copy);
            drop(copy);
        }
        Err(_) => answer.lack_memory(),
    }
}

fn put_copied(answer: &mut Answer, context: &Context, copy: &Context) {
    let (count, is_known, is_same) = (
        copy.num_keys(),
        copy.as_value().is_some(),
        *copy == *context,
    );
    answer.show(&count);
    answer.put(" attributes, known ");
    answer.show(&is_known);
    answer.put(", the same ");
    answer.show(&is_same);
}

/// What the store has of the entity of this name.
pub fn ask_entity(answer: &mut Answer, entities: &Entities, name: &str) {
    match uid(answer.alloc, name) {
        Ok(uid) => {
            put_found(answer, entities, &uid);
            drop(uid);
        }
        Err(why) => answer.fail(why),
    }
}

/// The types for which the extensions overload `<`.
pub fn ask_extensions(answer: &mut Answer, extensions: &Extensions<'_>) {
    answer.put("overloading");
    match extensions.overloaded_types(answer.alloc) {
        Ok(types) => put_overloaded(answer, &types),
        Err(_) => answer.lack_memory(),
    }
}

/// The function of this name, with the number of its arguments, or that there is none.
pub fn ask_function(answer: &mut Answer, extensions: &Extensions<'_>, text: &str) {
    match name(answer.alloc, text) {
        Ok(name) => {
            put_function(answer, extensions, &name);
            drop(name);
        }
        Err(why) => answer.fail(why),
    }
}

fn put_function(answer: &mut Answer, extensions: &Extensions<'_>, name: &Name) {
    match extensions.func(name) {
        Ok(function) => {
            answer.show(function.name());
            answer.put(" takes ");
            answer.show(&function.arg_types().len());
        }
        Err(ExtensionFunctionLookupError::Memory(_)) => answer.lack_memory(),
        Err(error) => {
            answer.show(&error);
            drop(error);
        }
    }
}

fn put_overloaded(answer: &mut Answer, types: &[Type]) {
    for one in types {
        answer.show_next(one);
    }
}

/// What an entity has that is made of values: `E::"e" / a = 1; b = "x" / t = 2` has two attributes and a tag, and
/// `none` is none.
pub fn ask_made_entity(answer: &mut Answer, words: &str) {
    let (name, parts) = split(words);
    let (attributes, tags) = split(parts);
    let alloc = answer.alloc;
    match both(
        uid(alloc, name),
        both(values_named(alloc, attributes), values_named(alloc, tags)),
    ) {
        Ok((uid, (attributes, tags))) => {
            let none: BTreeSet<EntityUID> = BTreeSet::new(alloc);
            put_made(
                answer,
                Entity::from_values(alloc, uid, attributes, none, tags),
            );
        }
        Err(why) => answer.fail(why),
    }
}

/// What a request has that is made of three entities, each with its place if it is written, and of the context of this
/// one: `User::"a" 1-2 / Action::"view" / Photo::"p"`.
pub fn ask_made_request(answer: &mut Answer, setting: &Request, words: &str) {
    match setting.context() {
        Some(context) => match context.clone() {
            Ok(copy) => put_request_in(answer, copy, words),
            Err(_) => answer.lack_memory(),
        },
        None => answer.refuse("no context"),
    }
}

fn put_request_in(answer: &mut Answer, context: Context, words: &str) {
    let (principal, others) = split(words);
    let (action, resource) = split(others);
    let alloc = answer.alloc;
    match both(
        placed_uid(alloc, principal),
        both(placed_uid(alloc, action), placed_uid(alloc, resource)),
    ) {
        Ok((principal, (action, resource))) => {
            let request = Request::of(principal, action, resource, context);
            put_request(answer, &request);
            drop(request);
        }
        Err(why) => {
            drop(context);
            answer.fail(why);
        }
    }
}

// The entity, named at the place that is written behind it, if one is.
fn placed_uid(alloc: Global, written: &str) -> Result<EntityUID, Unanswered> {
    let (name, ends) = split_first_word(written);
    let place = place(ends)?;
    let named = uid(alloc, name)?;
    let placed = placed_as(&named, place);
    drop(named);
    Ok(placed?)
}

fn placed_as(uid: &EntityUID, place: Option<Loc>) -> Result<EntityUID, AllocError> {
    let ty = uid.entity_type().clone()?;
    let id: RcStr = uid.eid().clone()?;
    Ok(EntityUID::new(ty, id, place))
}

// The three entities of the request with their places, and its text.
fn put_request(answer: &mut Answer, request: &Request) {
    put_entry(answer, request.principal(), Var::Principal);
    answer.put("; ");
    put_entry(answer, request.action(), Var::Action);
    answer.put("; ");
    put_entry(answer, request.resource(), Var::Resource);
    answer.put("; ");
    answer.show(request);
}

fn split(words: &str) -> (&str, &str) {
    match words.split_once(" / ") {
        Some(both) => both,
        None => (words, "none"),
    }
}

fn values_named(alloc: Global, written: &str) -> Result<BTreeMap<RcStr, Value>, Unanswered> {
    let mut parts: Parts<(RcStr, Value)> = Parts::new(alloc);
    for value in written.split("; ") {
        if value != "none" {
            parts.push_read(value_named(alloc, value));
        }
    }
    match parts.all() {
        Ok(pairs) => or_memory(map_of_pairs(alloc, pairs)),
        Err(why) => Err(why),
    }
}

fn put_made(answer: &mut Answer, made: Result<Entity, AllocError>) {
    match made {
        Ok(entity) => {
            put_entity(answer, &entity);
            drop(entity);
        }
        Err(_) => answer.lack_memory(),
    }
}

fn put_found(answer: &mut Answer, entities: &Entities, uid: &EntityUID) {
    match entities.entity(answer.alloc, uid) {
        Ok(Dereference::NoSuchEntity) => answer.put("no such entity"),
        Ok(Dereference::Residual(unknown)) => {
            answer.put("unknown ");
            put_unknown(answer, &unknown);
            drop(unknown);
        }
        Ok(Dereference::Data(entity)) => put_entity(answer, entity),
        Err(_) => answer.lack_memory(),
    }
}

fn put_entity(answer: &mut Answer, entity: &Entity) {
    let (attrs, tag_count) = (entity.attrs_len(), entity.tags_len());
    answer.show(&attrs);
    answer.put(" attributes");
    for key in entity.keys() {
        put_part(answer, key, entity.get(key.as_str()));
    }
    answer.put(", ");
    answer.show(&tag_count);
    answer.put(" tags");
    for key in entity.tag_keys() {
        put_part(answer, key, entity.get_tag(key.as_str()));
    }
}

fn put_part(answer: &mut Answer, key: &RcStr, part: Option<&PartialValue>) {
    match part {
        Some(part) => {
            answer.put(", ");
            answer.show(key);
            answer.put(" ");
            answer.show(part);
        }
        None => answer.put(", no part"),
    }
}

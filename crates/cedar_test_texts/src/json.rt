//! What is asked of texts in JSON, behind the word `json`. Where nothing is read, the answer is the way to the part at
//! fault and why it is, as `$[3].attrs.age: null is no value`.
//!
//! - `value`: the expression that the text says, as it prints, a text by itself with the escapes of the language;
//! - `written`: the same expression in JSON, on one line;
//! - `context` and `request`: the context and the request that it says, evaluated, as they print;
//! - `entities`: the entities as it says them: `UID {"KEY": EXPRESSION, ..} in [UID, ..]`, and ` tags {..}` where there
//!   are any;
//! - `evaluated`: the same entities evaluated, without what they are in: `UID {"KEY": VALUE, ..}`, and ` tags {..}`;
//! - `store`: which of the entities each of them is in, where parents are followed: `UID in [UID, ..]`;
//! - `partial`: the same where there may be more entities: `UID in [UID, ..]`, or `UID is left out`;
//! - `added`, `overlaid` and `overlaid winning`: stores with what a request brings (`overlaid`).
use crate::answer::Answer;
use crate::overlaid::{ask_added, ask_overlaid};
use cedar_extensions::Extensions;
use cedar_hierarchy::{ClosureError, PartialClosure, close_hierarchy, close_hierarchy_partially};
use cedar_json_reader::{
    JsonError, StatedEntity, context_from_json_str, entities_from_json_str, request_from_json_str,
    restricted_expr_from_json_str, stated_entities_from_json_str,
};
use cedar_json_writer::expr_to_json;
use cedar_layers::policies::Entity;
use cedar_names::EntityUID;
use cedar_restricted::RestrictedExpr;
use cedar_values::PartialValue;
use std::alloc::{AllocError, Global};
use std::collections::BTreeSet;
use std::fmt;
use std::rc::RcStr;

/// More levels of evaluation than any text of a row asks for.
const LEVELS: usize = 1000;

/// Answers the question on the JSON text.
pub fn ask_json(answer: &mut Answer, question: &str, text: &str) {
    match question {
        "value" => ask_value(answer, text),
        "written" => ask_written(answer, text),
        "context" => ask_context(answer, text),
        "request" => ask_request(answer, text),
        "entities" => ask_entities(answer, text),
        "evaluated" => ask_evaluated(answer, text),
        "store" => ask_store(answer, text),
        "partial" => ask_partial_store(answer, text),
        "added" => ask_added(answer, text),
        "overlaid" => ask_overlaid(answer, text, false),
        "overlaid winning" => ask_overlaid(answer, text, true),
        _ => answer.refuse("no such question"),
    }
}

fn ask_value(answer: &mut Answer, text: &str) {
    match restricted_expr_from_json_str(answer.alloc, text) {
        Ok(expr) => {
            put_value(answer, &expr);
            drop(expr);
        }
        Err(error) => put_refusal(answer, error),
    }
}

fn put_value(answer: &mut Answer, expr: &RestrictedExpr) {
    match expr.as_string() {
        Some(text) => answer.put_quoted(text.as_str()),
        None => answer.show(expr),
    }
}

fn ask_written(answer: &mut Answer, text: &str) {
    match restricted_expr_from_json_str(answer.alloc, text) {
        Ok(expr) => {
            put_json(answer, &expr);
            drop(expr);
        }
        Err(error) => put_refusal(answer, error),
    }
}

fn put_json(answer: &mut Answer, expr: &RestrictedExpr) {
    match json_text(answer.alloc, expr) {
        Ok(text) => answer.put(text.as_str()),
        Err(_) => answer.lack_memory(),
    }
}

fn json_text(alloc: Global, expr: &RestrictedExpr) -> Result<String, AllocError> {
    let document = expr_to_json(alloc, expr.as_ref())?;
    let text = document.to_text(alloc);
    drop(document);
    text
}

fn ask_context(answer: &mut Answer, text: &str) {
    match context_from_json_str(answer.alloc, text, &Extensions::none(), LEVELS) {
        Ok(context) => {
            answer.show(&context);
            drop(context);
        }
        Err(error) => put_refusal(answer, error),
    }
}

fn ask_request(answer: &mut Answer, text: &str) {
    match request_from_json_str(answer.alloc, text, &Extensions::none(), LEVELS) {
        Ok(request) => {
            answer.show(&request);
            drop(request);
        }
        Err(error) => put_refusal(answer, error),
    }
}

// Writes where and why. Running out of memory is no answer.
fn put_refusal(answer: &mut Answer, error: JsonError) {
    match &error {
        JsonError::Memory(_) => answer.lack_memory(),
        JsonError::Syntax => answer.show(&error),
        JsonError::DuplicateKey => answer.show(&error),
        JsonError::Refused { .. } => answer.show(&error),
        JsonError::Evaluation { .. } => answer.show(&error),
    }
    drop(error);
}

fn ask_entities(answer: &mut Answer, text: &str) {
    match stated_entities_from_json_str(answer.alloc, text) {
        Ok(entities) => {
            put_all_stated(answer, entities.as_slice());
            drop(entities);
        }
        Err(error) => put_refusal(answer, error),
    }
}

fn put_all_stated(answer: &mut Answer, entities: &[StatedEntity]) {
    'entities: for entity in entities {
        answer.next();
        put_stated(answer, entity);
    }
    answer.put_if_none("none");
}

fn put_stated(answer: &mut Answer, entity: &StatedEntity) {
    answer.show(&entity.uid);
    put_pairs(answer, " {", entity.attrs.as_slice());
    put_parents(answer, entity.parents.as_slice());
    if !entity.tags.is_empty() {
        put_pairs(answer, " tags {", entity.tags.as_slice());
    }
}

fn put_pairs(answer: &mut Answer, before: &str, pairs: &[(RcStr, RestrictedExpr)]) {
    answer.put(before);
    let mut between = "";
    'pairs: for pair in pairs {
        answer.put(between);
        put_pair(answer, pair.0.as_str(), &pair.1);
        between = ", ";
    }
    answer.put("}");
}

fn put_pair<T: fmt::Display>(answer: &mut Answer, key: &str, value: &T) {
    answer.put_quoted(key);
    answer.put(": ");
    answer.show(value);
}

fn put_parents(answer: &mut Answer, parents: &[EntityUID]) {
    answer.put(" in [");
    let mut between = "";
    'parents: for parent in parents {
        answer.put(between);
        answer.show(parent);
        between = ", ";
    }
    answer.put("]");
}

fn ask_evaluated(answer: &mut Answer, text: &str) {
    match entities_from_json_str(answer.alloc, text, &Extensions::none(), LEVELS) {
        Ok(entities) => {
            put_all_evaluated(answer, entities.as_slice());
            drop(entities);
        }
        Err(error) => put_refusal(answer, error),
    }
}

fn put_all_evaluated(answer: &mut Answer, entities: &[Entity]) {
    'entities: for entity in entities {
        answer.next();
        put_evaluated(answer, entity);
    }
    answer.put_if_none("none");
}

/// Writes the entity with its attributes and tags.
pub fn put_evaluated(answer: &mut Answer, entity: &Entity) {
    answer.show(entity.uid());
    put_attributes(answer, entity);
    if entity.tags_len() > 0 {
        put_tags(answer, entity);
    }
}

fn put_attributes(answer: &mut Answer, entity: &Entity) {
    answer.put(" {");
    let mut is_first = true;
    'keys: for key in entity.keys() {
        if !is_first {
            answer.put(", ");
        }
        put_part(answer, key.as_str(), entity.get(key.as_str()));
        is_first = false;
    }
    answer.put("}");
}

fn put_tags(answer: &mut Answer, entity: &Entity) {
    answer.put(" tags {");
    let mut is_first = true;
    'keys: for key in entity.tag_keys() {
        if !is_first {
            answer.put(", ");
        }
        put_part(answer, key.as_str(), entity.get_tag(key.as_str()));
        is_first = false;
    }
    answer.put("}");
}

fn put_part(answer: &mut Answer, key: &str, part: Option<&PartialValue>) {
    match part {
        Some(part) => put_pair(answer, key, part),
        None => answer.refuse("a key leads to nothing"),
    }
}

fn ask_store(answer: &mut Answer, text: &str) {
    match entities_from_json_str(answer.alloc, text, &Extensions::none(), LEVELS) {
        Ok(entities) => put_closed(answer, text, entities),
        Err(error) => put_refusal(answer, error),
    }
}

fn put_closed(answer: &mut Answer, text: &str, entities: Vec<Entity>) {
    match close_hierarchy(answer.alloc, entities) {
        Ok(entities) => {
            let left_out: BTreeSet<EntityUID> = BTreeSet::new(answer.alloc);
            put_closure(answer, text, PartialClosure { entities, left_out });
        }
        Err(error) => put_unclosed(answer, error),
    }
}

fn ask_partial_store(answer: &mut Answer, text: &str) {
    match entities_from_json_str(answer.alloc, text, &Extensions::none(), LEVELS) {
        Ok(entities) => put_closed_partially(answer, text, entities),
        Err(error) => put_refusal(answer, error),
    }
}

fn put_closed_partially(answer: &mut Answer, text: &str, entities: Vec<Entity>) {
    match close_hierarchy_partially(answer.alloc, entities) {
        Ok(closure) => put_closure(answer, text, closure),
        Err(error) => put_unclosed(answer, error),
    }
}

fn put_closure(answer: &mut Answer, text: &str, closure: PartialClosure) {
    put_store(answer, text, &closure);
    drop(closure);
}

fn put_unclosed(answer: &mut Answer, error: ClosureError) {
    match &error {
        ClosureError::Memory(_) => answer.lack_memory(),
        ClosureError::Cycle(_) => answer.show(&error),
    }
    drop(error);
}

fn put_store(answer: &mut Answer, text: &str, closure: &PartialClosure) {
    match stated_entities_from_json_str(answer.alloc, text) {
        Ok(stated) => {
            put_all_stored(answer, stated.as_slice(), closure);
            drop(stated);
        }
        Err(error) => put_refusal(answer, error),
    }
}

fn put_all_stored(answer: &mut Answer, stated: &[StatedEntity], closure: &PartialClosure) {
    'entities: for entity in stated {
        answer.next();
        put_stored(answer, &entity.uid, stated, closure);
    }
    answer.put_if_none("none");
}

fn put_stored(
    answer: &mut Answer,
    uid: &EntityUID,
    stated: &[StatedEntity],
    closure: &PartialClosure,
) {
    answer.show(uid);
    match closure.entities.get(uid) {
        Some(entity) => put_ancestors(answer, entity, stated),
        None => put_left_out(answer, uid, &closure.left_out),
    }
}

fn put_left_out(answer: &mut Answer, uid: &EntityUID, left_out: &BTreeSet<EntityUID>) {
    if left_out.contains(uid) {
        answer.put(" is left out");
    } else {
        answer.refuse("an entity is not stored");
    }
}

fn put_ancestors(answer: &mut Answer, entity: &Entity, stated: &[StatedEntity]) {
    answer.put(" in [");
    let mut between = "";
    'others: for other in stated {
        if entity.is_descendant_of(&other.uid) {
            answer.put(between);
            answer.show(&other.uid);
            between = ", ";
        }
    }
    answer.put("]");
}

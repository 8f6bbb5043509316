//! Which unknowns are left.
use crate::notation::answer::Answer;
use crate::notation::expressions::expression;
use cedar_layers::expressions::{EntityUID, Unknown};
use cedar_unknowns::Unknowns;

/// The unknowns that stand in the expression, and the entities that unknowns stand for.
pub fn ask(answer: &mut Answer, text: &str) {
    match expression(answer.alloc, text) {
        Ok(expr) => {
            put_unknowns(answer, &expr);
            drop(expr);
        }
        Err(why) => answer.fail(why),
    }
}

/// `unknowns [x, y of type long]; entities [User::"a"]`: the unknowns, each with the type that it is annotated with,
/// and the entities that unknowns stand for.
pub fn put_unknowns<T: Unknowns>(answer: &mut Answer, asked: &T) {
    let alloc = answer.alloc;
    answer.put("unknowns [");
    match asked.unknowns(alloc) {
        Ok(unknowns) => put_each(answer, &unknowns),
        Err(_) => answer.lack_memory(),
    }
    answer.put("]; entities [");
    match asked.unknown_entities(alloc) {
        Ok(entities) => put_entities(answer, &entities),
        Err(_) => answer.lack_memory(),
    }
    answer.put("]");
}

fn put_each(answer: &mut Answer, unknowns: &[Unknown]) {
    answer.begin();
    'unknowns: for unknown in unknowns {
        answer.next(", ");
        put_unknown(answer, unknown);
    }
}

/// The name of the unknown, and the type that it is annotated with.
pub fn put_unknown(answer: &mut Answer, unknown: &Unknown) {
    answer.show(&unknown.name);
    if let Some(ty) = &unknown.type_annotation {
        answer.put(" of type ");
        answer.show(ty);
    }
}

fn put_entities(answer: &mut Answer, entities: &[EntityUID]) {
    answer.begin();
    'entities: for entity in entities {
        answer.next(", ");
        answer.show(entity);
    }
}

//! Reads the setting of a table. Each line states a fact; a line that states none says nothing.
//!
//! - `principal User::"a"`, `action Action::"view"` and `resource Photo::"p" 1-2` are the request's entities, each with
//!   its place if it has one; `principal unknown` and `principal unknown User` are not known, the second of that type.
//! - `context {n: 1}` is the context that this restricted expression is evaluated to; `context none` is not known;
//!   without either it is empty.
//! - `slot resource Photo::"p"` links a slot.
//! - `store partial`: an entity that the store lacks is not known.
//! - `entity User::"a"` is an entity of the store; with `entity User::"a" second` the facts on it name it `second`.
//! - `attribute User::"a" age = 30` and `tag User::"a" age = 30` have a value, or, where it has an unknown, a
//!   restricted expression.
//! - `ancestor User::"a" Group::"g"`.
//! - `map x = 1` is the value of an unknown.
//! - `errors skip` and `errors forbid` say how errors are handled: a policy that errs is skipped, as where neither
//!   stands; or a forbid that errs forbids.
//! - `resolution shallow` and `resolution deep` say what reading a stored residual answers: what is stored, as where
//!   neither stands; or what that is evaluated to.
//! - `functions` and `overloads` say which functions are stored, and for which types `<` is overloaded; `policies`
//!   reads the facts on policies.
ghost use Rattle.std.specs.Prelude.{◌≡◌, true};
ghost use Rattle.cedar_layers.specs.Parts.{parts_view, are_restricted_parts};
ghost use mathlib.Core.Bool.{Bool-set};

use crate::notation::expressions::{expression, read_restricted, restricted_of};
use crate::notation::leaves::{entity_type, slot, uid};
use crate::notation::unanswered::{Noted, Unanswered};
use crate::notation::values::{value, value_of};
use crate::notation::{add, both, fact, first_fact, or_memory, put, split_first_word, split_name};
use cedar_authorizer::authorizer::{ErrorHandling, Resolution};
use cedar_extensions::Extensions;
use cedar_layers::expressions::{EntityUID, Expr, PartialValue, ResidualExpr, SlotEnv, Value};
use cedar_layers::policies::{Entities, Entity};
use cedar_requests::{Context, ContextCreationError, EntityUIDEntry, Request};
use cedar_restricted::RestrictedExpr;
use std::alloc::{AllocError, Global};
use std::collections::{BTreeMap, BTreeSet, HashMap};
use std::rc::RcStr;

/// As many levels as any expression of a setting takes.
const LIMIT: usize = 1000;

/// Values and residuals under their names, as an entity has them.
#[derive(Drop)]
struct StoredParts {
    parts: BTreeMap<RcStr, PartialValue>,
    ghost restricted: { are_restricted_parts (parts_view parts.entries) ≡ true } by { Bool-set _ _ },
}

impl StoredParts {
    fn new(alloc: Global) -> StoredParts {
        StoredParts {
            parts: BTreeMap::new(alloc),
        }
    }

    // The parts, and this value under its name.
    #[tactic(auto, using(cedar_layers::proofs::Parts::restricted_insert))]
    fn with(self, name: RcStr, value: Value) -> Result<StoredParts, AllocError> {
        let mut parts = self.parts;
        let replaced = parts.insert(name, PartialValue::Value(value))?;
        drop(replaced);
        Ok(StoredParts { parts })
    }

    // The parts, and this residual under its name.
    #[tactic(auto, using(cedar_layers::proofs::Parts::restricted_insert))]
    fn with_residual(
        self,
        name: RcStr,
        residual: RestrictedExpr,
    ) -> Result<StoredParts, Unanswered> {
        let expr = Expr::from(residual);
        if !expr.has_unknown() {
            drop(expr);
            return Err(Unanswered::Unreadable("a residual without an unknown"));
        }
        let mut parts = self.parts;
        let replaced = parts.insert(name, PartialValue::Residual(ResidualExpr::new(expr)))?;
        drop(replaced);
        Ok(StoredParts { parts })
    }
}

/// What rows are answered in.
#[derive(Drop)]
pub struct Setting<'e, 'f> {
    pub request: Request,
    pub slots: SlotEnv,
    pub entities: Entities,
    pub map: HashMap<RcStr, Value>,
    pub error_handling: ErrorHandling,
    pub resolution: Resolution,
    pub extensions: &'e Extensions<'f>,
}

/// The setting of these facts, with these extensions; why it can't be read is noted.
pub fn setting_of<'e, 'f>(
    alloc: Global,
    facts: &str,
    extensions: &'e Extensions<'f>,
    noted: &mut Noted,
) -> Setting<'e, 'f> {
    Setting {
        request: request(alloc, facts, extensions, noted),
        slots: slots(alloc, facts, noted),
        entities: read_store(alloc, facts, noted),
        map: mapped_values(alloc, facts, noted),
        error_handling: error_handling(facts, noted),
        resolution: resolution(facts, noted),
        extensions,
    }
}

fn request(alloc: Global, facts: &str, extensions: &Extensions<'_>, noted: &mut Noted) -> Request {
    let principal = entry(alloc, facts, "principal", noted);
    let action = entry(alloc, facts, "action", noted);
    let resource = entry(alloc, facts, "resource", noted);
    let context = context(alloc, facts, extensions, noted);
    Request::new_with_unknowns(principal, action, resource, context)
}

// The entity that stands for this variable, if it is known, and its place or its type.
fn entry(alloc: Global, facts: &str, variable: &str, noted: &mut Noted) -> EntityUIDEntry {
    match first_fact(facts, variable) {
        Some(written) => {
            let (name, rest) = split_first_word(written);
            if name != "unknown" {
                known_entry(alloc, name, rest, noted)
            } else if rest.is_empty() {
                EntityUIDEntry::unknown()
            } else {
                unknown_entry(alloc, rest, noted)
            }
        }
        None => {
            noted.refuse("no such entity");
            EntityUIDEntry::unknown()
        }
    }
}

fn known_entry(alloc: Global, name: &str, ends: &str, noted: &mut Noted) -> EntityUIDEntry {
    let place = noted.place(ends);
    match uid(alloc, name) {
        Ok(uid) => EntityUIDEntry::known(uid, place),
        Err(why) => {
            noted.fail(why);
            EntityUIDEntry::unknown()
        }
    }
}

fn unknown_entry(alloc: Global, ty: &str, noted: &mut Noted) -> EntityUIDEntry {
    match entity_type(alloc, ty) {
        Ok(ty) => EntityUIDEntry::unknown_with_type(ty, None),
        Err(why) => {
            noted.fail(why);
            EntityUIDEntry::unknown()
        }
    }
}

// The context, if it is known.
fn context(
    alloc: Global,
    facts: &str,
    extensions: &Extensions<'_>,
    noted: &mut Noted,
) -> Option<Context> {
    match first_fact(facts, "context") {
        None => Some(Context::empty(alloc)),
        Some(text) => if text == "none" {
            None
        } else {
            context_of(alloc, text, extensions, noted)
        },
    }
}

fn context_of(
    alloc: Global,
    text: &str,
    extensions: &Extensions<'_>,
    noted: &mut Noted,
) -> Option<Context> {
    match read_restricted(alloc, text) {
        Ok(expr) => {
            let made = Context::from_expr(alloc, expr.as_borrowed(), extensions, LIMIT);
            drop(expr);
            made_context(made, noted)
        }
        Err(why) => {
            noted.fail(why);
            None
        }
    }
}

fn made_context(made: Result<Context, ContextCreationError>, noted: &mut Noted) -> Option<Context> {
    match made {
        Ok(context) => Some(context),
        Err(error) => {
            noted.fail(reason(&error));
            drop(error);
            None
        }
    }
}

fn reason(error: &ContextCreationError) -> Unanswered {
    match error {
        ContextCreationError::Memory(_) => Unanswered::Memory,
        ContextCreationError::Evaluation(_) => Unanswered::Unreadable("a context that errs"),
        ContextCreationError::NotARecord(_) => {
            Unanswered::Unreadable("a context that is no record")
        }
        ContextCreationError::ExpressionConstruction(_) => {
            Unanswered::Unreadable("a context that repeats a name")
        }
    }
}

/// How errors are handled by these facts.
pub fn error_handling(facts: &str, noted: &mut Noted) -> ErrorHandling {
    match first_fact(facts, "errors") {
        Some("skip") => ErrorHandling::Skip,
        Some("forbid") => ErrorHandling::ForbidOnError,
        Some(_) => {
            noted.refuse("no such mode");
            ErrorHandling::default()
        }
        None => ErrorHandling::default(),
    }
}

/// What reading a stored residual answers by these facts.
pub fn resolution(facts: &str, noted: &mut Noted) -> Resolution {
    match first_fact(facts, "resolution") {
        Some("shallow") => Resolution::Shallow,
        Some("deep") => Resolution::Deep,
        Some(_) => {
            noted.refuse("no such resolution");
            Resolution::default()
        }
        None => Resolution::default(),
    }
}

fn mapped_values(alloc: Global, facts: &str, noted: &mut Noted) -> HashMap<RcStr, Value> {
    let mut map: HashMap<RcStr, Value> = HashMap::new(alloc);
    for line in facts.lines() {
        if let Some(written) = fact(line, "map") {
            put_value(alloc, &mut map, written, noted);
        }
    }
    map
}

/// Puts the value of `NAME = VALUE` into the map, under the name.
pub fn put_value(alloc: Global, map: &mut HashMap<RcStr, Value>, written: &str, noted: &mut Noted) {
    match value_named(alloc, written) {
        Ok((name, value)) => noted.note(put(map, name, value)),
        Err(why) => noted.fail(why),
    }
}

/// The name and the value, of `NAME = VALUE`.
pub fn value_named(alloc: Global, written: &str) -> Result<(RcStr, Value), Unanswered> {
    let (name, text) = split_name(written)?;
    both(or_memory(RcStr::from_str(alloc, name)), value(alloc, text))
}

/// The entities of the slots that are linked.
pub fn slots(alloc: Global, facts: &str, noted: &mut Noted) -> SlotEnv {
    let mut slots = SlotEnv::new(alloc);
    for line in facts.lines() {
        if let Some(linked) = fact(line, "slot") {
            link(alloc, &mut slots, linked, noted);
        }
    }
    slots
}

fn link(alloc: Global, slots: &mut SlotEnv, linked: &str, noted: &mut Noted) {
    let (name, entity) = split_first_word(linked);
    match both(slot(name), uid(alloc, entity)) {
        Ok((slot, uid)) => if slots.insert(slot, uid).is_err() {
            noted.lack_memory();
        },
        Err(why) => noted.fail(why),
    }
}

/// The store of the entities that the facts declare.
pub fn read_store(alloc: Global, facts: &str, noted: &mut Noted) -> Entities {
    let is_partial = first_fact(facts, "store") == Some("partial");
    let entities = entities(alloc, facts, noted);
    match Entities::with(alloc, entities, is_partial) {
        Ok(entities) => entities,
        Err(_) => {
            noted.lack_memory();
            Entities::new(alloc)
        }
    }
}

fn entities(alloc: Global, facts: &str, noted: &mut Noted) -> Vec<Entity> {
    let mut entities: Vec<Entity> = Vec::new(alloc);
    for line in facts.lines() {
        if let Some(declared) = fact(line, "entity") {
            put_entity(alloc, facts, declared, &mut entities, noted);
        }
    }
    entities
}

// Puts the entity that is declared so behind the others.
fn put_entity(
    alloc: Global,
    facts: &str,
    declared: &str,
    entities: &mut Vec<Entity>,
    noted: &mut Noted,
) {
    let (name, called) = split_first_word(declared);
    let called = if called.is_empty() { name } else { called };
    match uid(alloc, name) {
        Ok(uid) => {
            let entity = entity(alloc, facts, uid, called, noted);
            noted.note(add(entities, entity));
        }
        Err(why) => noted.fail(why),
    }
}

fn entity(alloc: Global, facts: &str, uid: EntityUID, called: &str, noted: &mut Noted) -> Entity {
    let ancestors = ancestors(alloc, facts, called, noted);
    let attributes = parts_of(alloc, facts, "attribute", called, noted);
    let tags = parts_of(alloc, facts, "tag", called, noted);
    Entity::new(uid, attributes.parts, ancestors, tags.parts)
}

fn ancestors(alloc: Global, facts: &str, called: &str, noted: &mut Noted) -> BTreeSet<EntityUID> {
    let mut ancestors: BTreeSet<EntityUID> = BTreeSet::new(alloc);
    for line in facts.lines() {
        if let Some(above) = fact_of(line, "ancestor", called) {
            put_ancestor(alloc, &mut ancestors, above, noted);
        }
    }
    ancestors
}

fn put_ancestor(
    alloc: Global,
    ancestors: &mut BTreeSet<EntityUID>,
    above: &str,
    noted: &mut Noted,
) {
    match uid(alloc, above) {
        Ok(uid) => if ancestors.insert(uid).is_err() {
            noted.lack_memory();
        },
        Err(why) => noted.fail(why),
    }
}

// The attributes, or the tags, of the entity.
fn parts_of(
    alloc: Global,
    facts: &str,
    keyword: &str,
    called: &str,
    noted: &mut Noted,
) -> StoredParts {
    let mut parts = StoredParts::new(alloc);
    for line in facts.lines() {
        if let Some(written) = fact_of(line, keyword, called) {
            parts = with_part(alloc, parts, written, noted);
        }
    }
    parts
}

// The parts, and the one that is written so. Where that can't be read, what is left of them is no matter.
fn with_part(alloc: Global, parts: StoredParts, written: &str, noted: &mut Noted) -> StoredParts {
    match read_part(alloc, parts, written) {
        Ok(parts) => parts,
        Err(why) => {
            noted.fail(why);
            StoredParts::new(alloc)
        }
    }
}

fn read_part(alloc: Global, parts: StoredParts, written: &str) -> Result<StoredParts, Unanswered> {
    let (name, text) = split_name(written)?;
    let (parts, (name, part)) = both(
        Ok(parts),
        both(or_memory(RcStr::from_str(alloc, name)), part(alloc, text)),
    )?;
    match part {
        PartRead::Value(value) => Ok(parts.with(name, value)?),
        PartRead::Residual(residual) => parts.with_residual(name, residual),
    }
}

/// What an attribute or a tag has.
#[derive(Drop)]
enum PartRead {
    Value(Value),
    Residual(RestrictedExpr),
}

// The value that the text writes, or, where it has an unknown, the restricted expression.
fn part(alloc: Global, text: &str) -> Result<PartRead, Unanswered> {
    match expression(alloc, text) {
        Ok(expr) => if expr.has_unknown() {
            residual(expr)
        } else {
            let value = value_of(alloc, &expr);
            drop(expr);
            know_value(value)
        },
        Err(why) => Err(why),
    }
}

fn residual(expr: Expr) -> Result<PartRead, Unanswered> {
    match restricted_of(expr) {
        Ok(residual) => Ok(PartRead::Residual(residual)),
        Err(why) => Err(why),
    }
}

fn know_value(value: Result<Value, Unanswered>) -> Result<PartRead, Unanswered> {
    match value {
        Ok(value) => Ok(PartRead::Value(value)),
        Err(why) => Err(why),
    }
}

/// What the line states of this keyword on what is called so, if it states that.
pub fn fact_of<'a>(line: &'a str, keyword: &str, called: &str) -> Option<&'a str> {
    match fact(line, keyword) {
        Some(rest) => fact(rest, called),
        None => None,
    }
}

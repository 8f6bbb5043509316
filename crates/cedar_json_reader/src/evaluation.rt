#![tactic(auto, using(crate::proofs::Failed::failed))]
//! Entities whose attributes and tags are evaluated.
ghost use Rattle.std.specs.Prelude.{◌≡◌, ◌∷◌, true, [], length, OnOk, IfOk, IfErr};
ghost use Rattle.std.specs.BTreeMap.{insert_entry};
ghost use Rattle.std.specs.Rc.{rc_str_bytes};
ghost use Rattle.cedar_expressions.specs.Nodes.{key_order};
ghost use Rattle.cedar_expressions.specs.Records.{fields_in_order};
ghost use Rattle.cedar_names.specs.Names.{uid_name};
ghost use Rattle.cedar_extensions.specs.Extensions.{extensions_view, calls_of};
ghost use Rattle.cedar_restricted.specs.Evaluators.{extensions_read, calls_in, limit_of};
ghost use Rattle.cedar_restricted.specs.Views.{restricted_term};
ghost use Rattle.cedar_json_reader.specs.Lists.{pairs_said};
ghost use Rattle.cedar_json_reader.specs.StatedEntities.{names_of, stated_view, stated_views};
ghost use Rattle.cedar_json_reader.specs.Evaluated.{IsAnswerOf, AreAnswered, AreAmong, IsEvaluated, AreEvaluated};
ghost use Rattle.cedar_json_reader.specs.Evaluated.{AddsPart, AddsEntity, PutsName};
ghost use Rattle.cedar_json_reader.specs.FailedEntities.{Below, IsAnswered, AreAllAnswered, IsAllAnswered, IsEvaluationError};
ghost use Rattle.cedar_json_reader.specs.FailedEntities.{IsFailedPart, AreFailedParts, IsFailedEntity, AreFailedEntities};
ghost use Rattle.cedar_json_reader.specs.FailedEntities.{IsToldAt};
ghost use Rattle.cedar_json_reader.specs.Paths.{at_key, at_index};
ghost use Rattle.cedar_json_reader.specs.Refusals.{IsMemory};
ghost use Rattle.cedar_values.specs.Residuals.{partial_view};
ghost use Rattle.cedar_layers.specs.Parts.{parts_view, are_restricted_parts, is_restricted_part};
ghost use mathlib.Core.Bool.{Bool-set};

use crate::entities::StatedEntity;
use crate::errors::JsonError;
use cedar_errors::evaluator::err::EvaluationError;
use cedar_extensions::Extensions;
use cedar_layers::policies::Entity;
use cedar_names::EntityUID;
use cedar_restricted::{RestrictedEvaluator, RestrictedExpr};
use cedar_values::PartialValue;
use std::alloc::{AllocError, Global};
use std::collections::{BTreeMap, BTreeSet};
use std::rc::RcStr;

// Values and residuals under their names, as an entity has them.
#[derive(Drop)]
struct StoredParts {
    map: BTreeMap<RcStr, PartialValue>,
    ghost restricted: { are_restricted_parts (parts_view map.entries) ≡ true } by { Bool-set _ _ },
}

impl StoredParts {
    fn new(alloc: Global) -> StoredParts
        ensures { result.map.entries ≡ [] }
    {
        StoredParts {
            map: BTreeMap::new(alloc),
        }
    }

    // The parts, and this one under its name.
    #[tactic(auto, using(cedar_layers::proofs::Parts::restricted_insert))]
    fn with(self, name: RcStr, part: PartialValue) -> Result<StoredParts, AllocError>
        requires { is_restricted_part (partial_view part) ≡ true }
        ensures { IfOk result (λ r. r.map.entries ≡ insert_entry key_order self.map.entries name part) }
    {
        let mut map = self.map;
        let replaced = map.insert(name, part)?;
        drop(replaced);
        Ok(StoredParts { map })
    }
}

/// The entities, with their attributes and tags evaluated with these extensions at most `limit` levels deep: a value,
/// or what is left where an unknown stands in one. The ancestors of each are its parents alone. `Evaluation` holds the
/// first error, and where that stands, as `$[3].attrs.age`: entities are evaluated in order, the attributes of each in
/// order, then its tags in order. `Memory` is out of memory.
pub fn evaluated_entities(
    alloc: Global,
    stated: Vec<StatedEntity>,
    extensions: &Extensions<'_>,
    limit: usize,
) -> Result<Vec<Entity>, JsonError>
    ensures evaluated { IfOk result
        (λ r. AreEvaluated (extensions_view extensions.now) (calls_of extensions.now) limit
        (stated_views stated.items) r.items) }
    ensures failed { IfErr result (IsEvaluationError (AreFailedEntities (extensions_view extensions.now)
        (calls_of extensions.now) limit (stated_views stated.items))) }
{
    let evaluator = RestrictedEvaluator::new(extensions, limit);
    let mut entities: Vec<Entity> = Vec::new(alloc);
    match evaluate_all(alloc, stated, &evaluator, &mut entities) {
        Ok(()) => Ok(entities),
        Err(error) => {
            drop(entities);
            Err(error)
        }
    }
}

fn evaluate_all(
    alloc: Global,
    stated: Vec<StatedEntity>,
    evaluator: &RestrictedEvaluator<'_, '_>,
    entities: &mut Vec<Entity>,
) -> Result<(), JsonError>
    requires { entities.old.items ≡ [] }
    ensures evaluated { OnOk result (AreEvaluated (extensions_read evaluator.now) (calls_in evaluator.now)
        (limit_of evaluator.now) (stated_views stated.items) entities.new.items) }
    ensures failed { IfErr result (IsEvaluationError (AreFailedEntities (extensions_read evaluator.now)
        (calls_in evaluator.now) (limit_of evaluator.now) (stated_views stated.items))) }
{
    'stated: for entity in stated {
        put_evaluated(alloc, entity, evaluator, entities)?;
    }
    Ok(())
}

// Puts the entity, whose index is how many are there, behind them.
fn put_evaluated(
    alloc: Global,
    stated: StatedEntity,
    evaluator: &RestrictedEvaluator<'_, '_>,
    entities: &mut Vec<Entity>,
) -> Result<(), JsonError>
    ensures adds { OnOk result (AddsEntity (extensions_read evaluator.now) (calls_in evaluator.now)
        (limit_of evaluator.now) (stated_view stated) entities.old.items entities.new.items) }
    ensures answered { OnOk result (IsAllAnswered (extensions_read evaluator.now) (calls_in evaluator.now)
        (limit_of evaluator.now) (stated_view stated)) }
    ensures failed { IfErr result (IsEvaluationError (Below (at_index (length entities.old.items))
        (IsFailedEntity (extensions_read evaluator.now) (calls_in evaluator.now) (limit_of evaluator.now)
        (stated_view stated)))) }
{
    let index = entities.len();
    match evaluate(alloc, stated, evaluator) {
        Ok(entity) => match entities.push(entity) {
            Ok(()) => Ok(()),
            Err(failed) => Err(JsonError::from(failed)),
        },
        Err(error) => Err(error.under_index(index)),
    }
}

fn evaluate(
    alloc: Global,
    stated: StatedEntity,
    evaluator: &RestrictedEvaluator<'_, '_>,
) -> Result<Entity, JsonError>
    ensures evaluated { IfOk result (IsEvaluated (extensions_read evaluator.now) (calls_in evaluator.now)
        (limit_of evaluator.now) (stated_view stated)) }
    ensures answered { OnOk result (IsAllAnswered (extensions_read evaluator.now) (calls_in evaluator.now)
        (limit_of evaluator.now) (stated_view stated)) }
    ensures failed { IfErr result (IsEvaluationError (IsFailedEntity (extensions_read evaluator.now)
        (calls_in evaluator.now) (limit_of evaluator.now) (stated_view stated))) }
{
    let StatedEntity {
        uid,
        attrs,
        parents,
        tags,
    } = stated;
    let attrs = parts_at(alloc, attrs, evaluator, "attrs")?;
    let tags = parts_at(alloc, tags, evaluator, "tags")?;
    let parents = set_of(alloc, parents)?;
    Ok(Entity::new(uid, attrs.map, parents, tags.map))
}

// The set of these.
fn set_of(alloc: Global, uids: Vec<EntityUID>) -> Result<BTreeSet<EntityUID>, JsonError>
    ensures among { IfOk result (λ s. AreAmong (names_of s.keys) (names_of uids.items)) }
    ensures memory { IfErr result IsMemory }
{
    let mut set: BTreeSet<EntityUID> = BTreeSet::new(alloc);
    'uids: for uid in uids {
        put_uid(uid, &mut set)?;
    }
    Ok(set)
}

fn put_uid(uid: EntityUID, set: &mut BTreeSet<EntityUID>) -> Result<(), JsonError>
    ensures puts { OnOk result (PutsName (names_of set.old.keys) (uid_name uid) (names_of set.new.keys)) }
    ensures memory { IfErr result IsMemory }
{
    match set.insert(uid) {
        Ok(_) => Ok(()),
        Err(failed) => Err(JsonError::from(failed)),
    }
}

fn parts_at(
    alloc: Global,
    pairs: Vec<(RcStr, RestrictedExpr)>,
    evaluator: &RestrictedEvaluator<'_, '_>,
    key: &str,
) -> Result<StoredParts, JsonError>
    ensures answered { IfOk result (λ r. AreAnswered (extensions_read evaluator.now) (calls_in evaluator.now)
        (limit_of evaluator.now) (fields_in_order (pairs_said pairs.items)) (parts_view r.map.entries)) }
    ensures all { OnOk result (AreAllAnswered (extensions_read evaluator.now) (calls_in evaluator.now)
        (limit_of evaluator.now) (pairs_said pairs.items)) }
    ensures failed { IfErr result (IsEvaluationError (Below (at_key key.now)
        (AreFailedParts (extensions_read evaluator.now) (calls_in evaluator.now) (limit_of evaluator.now)
        (pairs_said pairs.items)))) }
{
    match parts(alloc, pairs, evaluator) {
        Ok(parts) => Ok(parts),
        Err(error) => Err(error.under_key(alloc, key)),
    }
}

fn parts(
    alloc: Global,
    pairs: Vec<(RcStr, RestrictedExpr)>,
    evaluator: &RestrictedEvaluator<'_, '_>,
) -> Result<StoredParts, JsonError>
    ensures answered { IfOk result (λ r. AreAnswered (extensions_read evaluator.now) (calls_in evaluator.now)
        (limit_of evaluator.now) (fields_in_order (pairs_said pairs.items)) (parts_view r.map.entries)) }
    ensures all { OnOk result (AreAllAnswered (extensions_read evaluator.now) (calls_in evaluator.now)
        (limit_of evaluator.now) (pairs_said pairs.items)) }
    ensures failed { IfErr result (IsEvaluationError (AreFailedParts (extensions_read evaluator.now)
        (calls_in evaluator.now) (limit_of evaluator.now) (pairs_said pairs.items))) }
{
    let mut parts = StoredParts::new(alloc);
    'pairs: for (key, expr) in pairs {
        parts = with_part(alloc, parts, key, expr, evaluator)?;
    }
    Ok(parts)
}

// The parts, and what the expression is evaluated to under this key.
fn with_part(
    alloc: Global,
    parts: StoredParts,
    key: RcStr,
    expr: RestrictedExpr,
    evaluator: &RestrictedEvaluator<'_, '_>,
) -> Result<StoredParts, JsonError>
    ensures adds { IfOk result (λ r. AddsPart (extensions_read evaluator.now) (calls_in evaluator.now)
        (limit_of evaluator.now) (rc_str_bytes key) (restricted_term expr) parts.map.entries r.map.entries) }
    ensures answered { OnOk result (IsAnswered (extensions_read evaluator.now) (calls_in evaluator.now)
        (limit_of evaluator.now) (restricted_term expr)) }
    ensures failed { IfErr result (IsEvaluationError (IsFailedPart (extensions_read evaluator.now)
        (calls_in evaluator.now) (limit_of evaluator.now) (rc_str_bytes key) (restricted_term expr))) }
{
    let part = part(alloc, &key, &expr, evaluator);
    drop(expr);
    match part {
        Ok(part) => match parts.with(key, part) {
            Ok(parts) => Ok(parts),
            Err(error) => Err(JsonError::Memory(error)),
        },
        Err(error) => {
            drop((parts, key));
            Err(error)
        }
    }
}

// What the expression is evaluated to, at this key.
#[tactic(auto, using(crate::proofs::Stored::sound_part, crate::proofs::Failed::failed))]
fn part(
    alloc: Global,
    key: &RcStr,
    expr: &RestrictedExpr,
    evaluator: &RestrictedEvaluator<'_, '_>,
) -> Result<PartialValue, JsonError>
    ensures answer { IfOk result (λ p. IsAnswerOf (extensions_read evaluator.now) (calls_in evaluator.now)
        (limit_of evaluator.now) (restricted_term expr.now) (partial_view p)) }
    ensures restricted { IfOk result (λ p. is_restricted_part (partial_view p) ≡ true) }
    ensures failed { IfErr result (IsEvaluationError (IsFailedPart (extensions_read evaluator.now)
        (calls_in evaluator.now) (limit_of evaluator.now) (rc_str_bytes key.now) (restricted_term expr.now))) }
{
    match evaluator.partial_interpret(alloc, expr.as_borrowed()) {
        Ok(part) => Ok(part),
        Err(error) => Err(refuse_evaluation(alloc, error, key.as_str())),
    }
}

// The error of an evaluation, of the part at this key.
#[cold]
fn refuse_evaluation(alloc: Global, error: EvaluationError, key: &str) -> JsonError
    ensures { IsToldAt (at_key key.now ∷ []) error result }
{
    match error {
        EvaluationError::Memory(error) => JsonError::Memory(error),
        other => JsonError::evaluation(alloc, other).under_key(alloc, key),
    }
}

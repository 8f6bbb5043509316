//! Entities that a request brings beside those that are stored.
ghost use Rattle.std.specs.Prelude.{◌≡◌, ◌==◌, false, length, IfOk, IfErr, Some, option_map, codes};
ghost use Rattle.json.specs.Find.{get};
ghost use Rattle.json.specs.Value.{value_view};
ghost use Rattle.cedar_extensions.specs.Extensions.{extensions_view, calls_of};
ghost use Rattle.cedar_layers.specs.Stores.{stored_entity};
ghost use Rattle.cedar_json_reader.specs.NothingUnknown.{IsKnownEntitiesError};
ghost use Rattle.cedar_json_reader.specs.JsonTexts.{IsTextError};
ghost use Rattle.cedar_json_reader.specs.SaidEntities.{entities_said};
ghost use Rattle.cedar_overlay.specs.Bases.{base_entities};
ghost use Rattle.cedar_service.specs.Asked.{levels};
ghost use Rattle.cedar_service.specs.Brought.{laid_or, IsBroughtOver, IsBroughtBy, IsUnbrought, IsUnbroughtBy, IsOver};
ghost use Rattle.cedar_service.specs.Brought.{IsBroughtAs, IsUnbroughtAs, IsNotOver, IsOfEntities};
ghost use Rattle.cedar_service.specs.Brought.{IsBroughtFor, IsUnbroughtFor, IsExcess, IsExcessBy, IsUnbroughtSo};
ghost use Rattle.cedar_service.specs.Brought.{IsTooMuch, IsNoneBrought, IsNotTaken};
ghost use Rattle.cedar_service.specs.Documents.{IsWritable};
ghost use Rattle.cedar_service.specs.Faults.{IsToldAs, IsFault, IsFaultBelow};
ghost use Rattle.cedar_service.specs.Ways.{ways_view};
ghost use Rattle.cedar_service.specs.declared.ways.RequestEntities.TheVariants as claims;

use crate::contexts::LEVELS;
use crate::documents::{parse_json, text_of};
use crate::faults::{Refusal, fault_text, refuse, refuse_at_index, refuse_below, refuse_json};
use crate::ways::{RequestEntities, Ways};
use cedar_endpoints::{Bounds, Excess, brings_entities, excess_of};
use cedar_extensions::Extensions;
use cedar_json_reader::{
    JsonError, StatedEntity, known_entities_from_json_str, stated_entities_from_json_str,
};
use cedar_layers::policies::{Entities, Entity};
use cedar_names::EntityUID;
use cedar_overlay::{Base, EntitiesError};
use json::{Scratch, Value};
use std::alloc::{AllocError, Global};

// Where they stand.
const ENTITIES: &str = "$.entities";

/// Why no entities are brought.
#[derive(Debug, Drop)]
pub(crate) enum Unbrought {
    /// They are refused.
    Refused(Refusal),
    /// There are more than there may be: where, and of what, as JSON.
    TooLarge(String),
}

/// The store with the entities that the text brings, if it brings some: a request, at its member `entities`. Refuses
/// entities where it may bring none, and more of them, or of their parents, than it may bring; then what says no
/// entities, entities in which an unknown stands, and entities that may not be added.
pub(crate) fn brought_by(
    alloc: Global,
    base: &Base,
    text: &str,
    ways: Ways<'_>,
    extensions: &Extensions<'_>,
) -> Result<Option<Entities>, Unbrought>
    ensures brought { IfOk result (λ o. IsBroughtBy (extensions_view extensions.now) (calls_of extensions.now)
        (ways_view ways.entry) (base_entities base.now) text.now (laid_or (base_entities base.now) o)) }
    ensures refused { IfErr result (IsUnbroughtSo
        (IsUnbroughtBy (extensions_view extensions.now) (calls_of extensions.now) (ways_view ways.entry)
        (base_entities base.now) text.now)
        (IsExcessBy (ways_view ways.entry) text.now)) }
{
    let mut scratch = Scratch::new(alloc);
    match parse_json(alloc, text, &mut scratch) {
        Ok(value) => brought_for(alloc, base, &value, ways, extensions),
        Err(error) => {
            let refusal = refuse_json(alloc, "$", &error);
            drop(error);
            Err(Unbrought::Refused(refusal))
        }
    }
}

/// The same of the JSON of a request.
pub(crate) fn brought_for(
    alloc: Global,
    base: &Base,
    value: &Value<'_>,
    ways: Ways<'_>,
    extensions: &Extensions<'_>,
) -> Result<Option<Entities>, Unbrought>
    requires { IsWritable (value_view value.now) }
    ensures brought { IfOk result (λ o. IsBroughtFor ways.entry.entities ways.entry.bounds
        (extensions_view extensions.now) (calls_of extensions.now) (base_entities base.now)
        (get (codes "entities") (value_view value.now)) (laid_or (base_entities base.now) o)) }
    ensures refused { IfErr result (IsUnbroughtSo
        (IsUnbroughtFor ways.entry.entities ways.entry.bounds (extensions_view extensions.now)
        (calls_of extensions.now) (base_entities base.now) (get (codes "entities") (value_view value.now)))
        (IsExcess ways.entry.entities ways.entry.bounds (get (codes "entities") (value_view value.now)))) }
{
    match ways.entities {
        RequestEntities::None => none_for(alloc, value),
        RequestEntities::Allowed => some_for(alloc, base, value, ways.bounds, extensions),
    }
}

// Where a request may bring none: no store beside the one that stands.
fn none_for(alloc: Global, value: &Value<'_>) -> Result<Option<Entities>, Unbrought>
    ensures none { IfOk result (λ o. IsNoneBrought (get (codes "entities") (value_view value.now)) o) }
    ensures refused { IfErr result (IsUnbroughtSo (IsNotTaken (get (codes "entities") (value_view value.now)))
        (λ _. ⊥)) }
{
    if brings_entities(value) {
        Err(Unbrought::Refused(refuse(alloc, ENTITIES, "not taken (--request-entities)")))
    } else {
        Ok(None)
    }
}

// Where it may bring so many.
fn some_for(
    alloc: Global,
    base: &Base,
    value: &Value<'_>,
    bounds: Bounds,
    extensions: &Extensions<'_>,
) -> Result<Option<Entities>, Unbrought>
    requires { IsWritable (value_view value.now) }
    ensures brought { IfOk result (λ o. IsBroughtFor claims.Allowed bounds
        (extensions_view extensions.now) (calls_of extensions.now) (base_entities base.now)
        (get (codes "entities") (value_view value.now)) (laid_or (base_entities base.now) o)) }
    ensures refused { IfErr result (IsUnbroughtSo
        (IsUnbroughtFor claims.Allowed bounds (extensions_view extensions.now)
        (calls_of extensions.now) (base_entities base.now) (get (codes "entities") (value_view value.now)))
        (IsExcess claims.Allowed bounds (get (codes "entities") (value_view value.now)))) }
{
    match excess_of(bounds, value) {
        Some(excess) => Err(refuse_excess(alloc, excess)),
        None => fit_over(alloc, base, value, extensions),
    }
}

// Where there is not too much.
fn fit_over(
    alloc: Global,
    base: &Base,
    value: &Value<'_>,
    extensions: &Extensions<'_>,
) -> Result<Option<Entities>, Unbrought>
    requires { IsWritable (value_view value.now) }
    ensures brought { IfOk result (λ o. IsBroughtOver (extensions_view extensions.now) (calls_of extensions.now)
        (base_entities base.now) (get (codes "entities") (value_view value.now)) (laid_or (base_entities base.now) o)) }
    ensures refused { IfErr result (IsUnbroughtSo (IsUnbrought (extensions_view extensions.now)
        (calls_of extensions.now) (base_entities base.now) (get (codes "entities") (value_view value.now))) (λ _. ⊥)) }
{
    match brought_over(alloc, base, value, extensions) {
        Ok(brought) => Ok(brought),
        Err(refusal) => Err(Unbrought::Refused(refusal)),
    }
}

// The refusal of what there is too much of.
#[cold]
fn refuse_excess(alloc: Global, excess: Excess) -> Unbrought
    ensures { IsUnbroughtSo (λ _. ⊥) (IsTooMuch excess) result }
{
    match excess {
        Excess::Entities => too_large(alloc, "too many (--max-request-entities)"),
        Excess::Parents => too_large(alloc, "too many parents (--max-request-ancestors)"),
    }
}

#[cold]
fn too_large(alloc: Global, reason: &str) -> Unbrought
    ensures { IsUnbroughtSo (λ _. ⊥) (IsFault (codes "$.entities") reason.now) result }
{
    match fault_text(alloc, ENTITIES, reason) {
        Ok(error) => Unbrought::TooLarge(error),
        Err(AllocError) => Unbrought::Refused(Refusal::Memory),
    }
}

// The store with the entities of the JSON of a request, however many.
fn brought_over(
    alloc: Global,
    base: &Base,
    value: &Value<'_>,
    extensions: &Extensions<'_>,
) -> Result<Option<Entities>, Refusal>
    requires { IsWritable (value_view value.now) }
    ensures brought { IfOk result (λ o. IsBroughtOver (extensions_view extensions.now) (calls_of extensions.now)
        (base_entities base.now) (get (codes "entities") (value_view value.now)) (laid_or (base_entities base.now) o)) }
    ensures refused { IfErr result (IsToldAs (IsUnbrought (extensions_view extensions.now) (calls_of extensions.now)
        (base_entities base.now) (get (codes "entities") (value_view value.now)))) }
{
    match value.get("entities") {
        Some(entities) => over_json(alloc, base, entities, extensions),
        None => Ok(None),
    }
}

// The same of the JSON of entities.
fn over_json(
    alloc: Global,
    base: &Base,
    entities: &Value<'_>,
    extensions: &Extensions<'_>,
) -> Result<Option<Entities>, Refusal>
    requires { IsWritable (value_view entities.now) }
    ensures brought { IfOk result (λ o. IsBroughtOver (extensions_view extensions.now) (calls_of extensions.now)
        (base_entities base.now) (Some (value_view entities.now)) (laid_or (base_entities base.now) o)) }
    ensures refused { IfErr result (IsToldAs (IsUnbrought (extensions_view extensions.now) (calls_of extensions.now)
        (base_entities base.now) (Some (value_view entities.now)))) }
{
    match text_of(alloc, entities) {
        Ok(text) => {
            let laid = over_text(alloc, base, text.as_str(), extensions);
            drop(text);
            laid
        }
        Err(AllocError) => Err(Refusal::Memory),
    }
}

// The same of a text of entities.
fn over_text(
    alloc: Global,
    base: &Base,
    text: &str,
    extensions: &Extensions<'_>,
) -> Result<Option<Entities>, Refusal>
    ensures brought { IfOk result (λ o. IsBroughtAs (extensions_view extensions.now) (calls_of extensions.now)
        (base_entities base.now) text.now (laid_or (base_entities base.now) o)) }
    ensures refused { IfErr result (IsToldAs (IsUnbroughtAs (extensions_view extensions.now) (calls_of extensions.now)
        (base_entities base.now) text.now)) }
{
    match known_entities_from_json_str(alloc, text, extensions, LEVELS) {
        Ok(entities) => over_entities(alloc, base, text, entities),
        Err(error) => {
            let refusal = refuse_json(alloc, ENTITIES, &error);
            drop(error);
            Err(refusal)
        }
    }
}

// The store with these entities, if there are some. The text is the one that says them.
fn over_entities(
    alloc: Global,
    base: &Base,
    text: &str,
    entities: Vec<Entity>,
) -> Result<Option<Entities>, Refusal>
    ensures over { IfOk result (λ o. IsOver (base_entities base.now) entities.items
        (laid_or (base_entities base.now) o)) }
    ensures refused { IfErr result (IsToldAs (IsNotOver (base_entities base.now) entities.items)) }
{
    if entities.as_slice().is_empty() {
        drop(entities);
        Ok(None)
    } else {
        add_entities(alloc, base, text, entities)
    }
}

fn add_entities(
    alloc: Global,
    base: &Base,
    text: &str,
    entities: Vec<Entity>,
) -> Result<Option<Entities>, Refusal>
    requires { (length entities.items == 0) ≡ false }
    ensures over { IfOk result (λ o. IsOver (base_entities base.now) entities.items
        (laid_or (base_entities base.now) o)) }
    ensures refused { IfErr result (IsToldAs (IsNotOver (base_entities base.now) entities.items)) }
{
    match base.with_entities(alloc, entities) {
        Ok(store) => Ok(Some(store)),
        Err(error) => {
            let refusal = refuse_entities(alloc, text, &error);
            drop(error);
            Err(refusal)
        }
    }
}

// ---- what is told

// Why these entities, which the text says, were not added: at the one that the error names.
#[cold]
fn refuse_entities(alloc: Global, text: &str, error: &EntitiesError) -> Refusal
    ensures reason { IsToldAs (λ _. IsOfEntities error.now) result }
    ensures fault { IsToldAs (IsFaultBelow (codes "$.entities")) result }
{
    match error {
        EntitiesError::Memory(_) => Refusal::Memory,
        EntitiesError::AlreadyStored(uid) => refuse_entity(alloc, text, uid, error),
        EntitiesError::Repeated(uid) => refuse_entity(alloc, text, uid, error),
        EntitiesError::NoParent(uid, _) => refuse_entity(alloc, text, uid, error),
        EntitiesError::IsAnAncestor(uid, _) => refuse_entity(alloc, text, uid, error),
        EntitiesError::Cycle(uid) => refuse_entity(alloc, text, uid, error),
    }
}

fn refuse_entity(alloc: Global, text: &str, uid: &EntityUID, error: &EntitiesError) -> Refusal
    ensures { IsToldAs (IsFaultBelow (codes "$.entities")) result }
{
    match reason_of(alloc, error) {
        Ok(reason) => refuse_at(alloc, place_of(alloc, text, uid), reason.as_str()),
        Err(AllocError) => Refusal::Memory,
    }
}

fn reason_of(alloc: Global, error: &EntitiesError) -> Result<String, AllocError> {
    format!(in alloc; "{error}")
}

fn refuse_at(alloc: Global, place: Option<usize>, reason: &str) -> Refusal
    ensures { IsToldAs (IsFaultBelow (codes "$.entities")) result }
{
    match place {
        Some(index) => refuse_at_index(alloc, ENTITIES, index, reason),
        None => refuse_below(alloc, ENTITIES, reason),
    }
}

// The index of the entity of this uid among those that the text says.
fn place_of(alloc: Global, text: &str, uid: &EntityUID) -> Option<usize> {
    match stated_entities_from_json_str(alloc, text) {
        Ok(stated) => {
            let place = place_among(stated.as_slice(), uid);
            drop(stated);
            place
        }
        Err(error) => {
            drop(error);
            None
        }
    }
}

fn place_among(stated: &[StatedEntity], uid: &EntityUID) -> Option<usize> {
    let mut index: usize = 0;
    'stated: for entity in stated {
        if entity.uid == *uid {
            return Some(index);
        }
        index = index.saturating_add(1);
    }
    None
}

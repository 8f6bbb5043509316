//! Stores of entities.
ghost use Rattle.std.specs.Prelude.{◌≡◌, false, IfOk, IfErr};
ghost use Rattle.cedar_model.specs.Agreement.{IsValue, EachStored};
ghost use Rattle.cedar_layers.specs.Stores.{no_entities, store_view};
ghost use Rattle.cedar_extensions.specs.Extensions.{extensions_view, calls_of};
ghost use Rattle.cedar_cli.specs.Questions.{IsGivenStore, IsStoreSaid, IsClosedAs, IsClosedStore, IsPartialStore};
ghost use Rattle.cedar_cli.specs.Reasons.{IsToldFor, IsStoreUnread, AreEntitiesUnread, IsCyclic, NamesOne};
ghost use Rattle.cedar_cli.specs.Questions.{IsKnownStore};
ghost use Rattle.cedar_cli.specs.Reasons.{AreNotClosed, CanHaveMore, IsKnownStoreUnread, AreKnownEntitiesUnread};

use crate::ancestors::{ANCESTORS, has_more_ancestors, most_ancestors};
use crate::asked::{Asked, Source};
use crate::limits::LEVELS;
use crate::refusal::{Refusal, refuse_with_line, unread_json};
use crate::warnings::push_left_out;
use cedar_policy_core::ast::Entity;
use cedar_policy_core::authorizer::heights::entities_height;
use cedar_policy_core::entities::json::{entities_from_json_str, known_entities_from_json_str};
use cedar_policy_core::entities::{
    ClosureError, Entities, PartialClosure, close_hierarchy, close_hierarchy_partially,
};
use cedar_policy_core::extensions::Extensions;
use std::alloc::{AllocError, Global};

/// The text of entities, whether there may be more than those, and how many ancestors they have in all at most.
#[derive(Clone, Copy)]
pub(crate) struct Given<'a> {
    pub(crate) source: Source<'a>,
    pub(crate) is_partial: bool,
    pub(crate) max_ancestors: Option<usize>,
}

/// A store, and how many levels the highest attribute or tag in it has.
#[derive(Drop)]
pub struct Store {
    pub entities: Entities,
    pub height: usize,
}

/// The store of the entities that are given, each with all its ancestors; where none are given, that without any. Refused
/// where the entities can't be read, where parents lead back to an entity, and where they have more ancestors in all than
/// they may. Those that are left out of entities of which there may be more are told as warnings.
pub fn given_store(
    alloc: Global,
    asked: &Asked<'_, '_>,
    extensions: &Extensions<'_>,
    warnings: &mut String,
) -> Result<Store, Refusal>
    ensures given { IfOk result (λ s.
        IsGivenStore (extensions_view extensions.now) (calls_of extensions.now) asked.now s.entities) }
    ensures refused { IfErr result (IsToldFor
        (IsStoreUnread (extensions_view extensions.now) (calls_of extensions.now) asked.now.entities
        asked.now.max_ancestors)) }
{
    match asked.entities {
        Some(source) => {
            let given = Given {
                source,
                is_partial: asked.is_partial,
                max_ancestors: asked.max_ancestors,
            };
            store_of(alloc, given, extensions, warnings)
        }
        None => no_entities(alloc, asked.is_partial),
    }
}

/// The store of the entities that are given and of no others, each with all its ancestors, in which nothing may be
/// unknown; where none are given, that without any. Refused as `given_store` does, and where an unknown stands in an
/// attribute or a tag. Whether there may be more entities is not looked at.
pub fn known_store(
    alloc: Global,
    asked: &Asked<'_, '_>,
    extensions: &Extensions<'_>,
    warnings: &mut String,
) -> Result<Store, Refusal>
    ensures given { IfOk result (λ s.
        IsKnownStore (extensions_view extensions.now) (calls_of extensions.now) asked.now s.entities) }
    ensures refused { IfErr result (IsToldFor
        (IsKnownStoreUnread (extensions_view extensions.now) (calls_of extensions.now) asked.now.entities
        asked.now.max_ancestors)) }
{
    match asked.entities {
        Some(source) => {
            let given = Given {
                source,
                is_partial: false,
                max_ancestors: asked.max_ancestors,
            };
            known_store_of(alloc, given, extensions, warnings)
        }
        None => no_entities(alloc, false),
    }
}

fn no_entities(alloc: Global, is_partial: bool) -> Result<Store, Refusal>
    ensures given { IfOk result (λ s. store_view s.entities
        ≡ record { entity = no_entities; is_partial = is_partial }) }
    ensures refused { IfErr result (IsToldFor ⊥) }
{
    match Entities::with(alloc, Vec::new(alloc), is_partial) {
        Ok(entities) => Ok(Store {
            entities,
            height: 0,
        }),
        Err(AllocError) => Err(Refusal::Memory),
    }
}

/// The store of the entities that this text writes, each with all its ancestors. Where there may be more entities,
/// those are left out whose parents lead to one that is not there, and that is told. Refused before they are closed,
/// where they have more ancestors in all than they may.
pub(crate) fn store_of(
    alloc: Global,
    given: Given<'_>,
    extensions: &Extensions<'_>,
    warnings: &mut String,
) -> Result<Store, Refusal>
    ensures said { IfOk result (λ s. IsStoreSaid (extensions_view extensions.now) (calls_of extensions.now)
        given.entry.source.text.now given.entry.is_partial s.entities) }
    ensures refused { IfErr result (IsToldFor
        (AreEntitiesUnread (extensions_view extensions.now) (calls_of extensions.now) given.entry.source.text.now
        given.entry.max_ancestors)) }
{
    let source = given.source;
    match entities_from_json_str(alloc, source.text, extensions, LEVELS) {
        Ok(entities) => {
            let height = entities_height(&entities);
            match closed_store(alloc, given, entities, warnings) {
                Ok(entities) => Ok(Store { entities, height }),
                Err(refusal) => Err(refusal),
            }
        }
        Err(error) => Err(unread_json(alloc, source, error)),
    }
}

// The store of the entities that this text writes, in which nothing may be unknown.
fn known_store_of(
    alloc: Global,
    given: Given<'_>,
    extensions: &Extensions<'_>,
    warnings: &mut String,
) -> Result<Store, Refusal>
    requires { given.is_partial ≡ false }
    ensures said { IfOk result (λ s. IsStoreSaid (extensions_view extensions.now) (calls_of extensions.now)
        given.entry.source.text.now false s.entities) }
    ensures known { IfOk result (λ s. EachStored IsValue (store_view s.entities)) }
    ensures refused { IfErr result (IsToldFor
        (AreKnownEntitiesUnread (extensions_view extensions.now) (calls_of extensions.now)
        given.entry.source.text.now given.entry.max_ancestors)) }
{
    let source = given.source;
    match known_entities_from_json_str(alloc, source.text, extensions, LEVELS) {
        Ok(entities) => {
            let height = entities_height(&entities);
            match closed_store(alloc, given, entities, warnings) {
                Ok(entities) => Ok(Store { entities, height }),
                Err(refusal) => Err(refusal),
            }
        }
        Err(error) => Err(unread_json(alloc, source, error)),
    }
}

// The store of these entities, each with all its ancestors.
fn closed_store(
    alloc: Global,
    given: Given<'_>,
    entities: Vec<Entity>,
    warnings: &mut String,
) -> Result<Entities, Refusal>
    ensures closed { IfOk result (IsClosedAs given.entry.is_partial entities.items) }
    ensures refused { IfErr result (IsToldFor (AreNotClosed entities.items given.entry.max_ancestors)) }
{
    match refuse_many_ancestors(alloc, given, &entities) {
        Ok(()) => close_as(alloc, given, entities, warnings),
        Err(refusal) => {
            drop(entities);
            Err(refusal)
        }
    }
}

fn close_as(
    alloc: Global,
    given: Given<'_>,
    entities: Vec<Entity>,
    warnings: &mut String,
) -> Result<Entities, Refusal>
    ensures closed { IfOk result (IsClosedAs given.entry.is_partial entities.items) }
    ensures cycle { IfErr result (IsToldFor (IsCyclic entities.items)) }
{
    if given.is_partial {
        partial_store(alloc, given.source, entities, warnings)
    } else {
        whole_store(alloc, given.source, entities)
    }
}

// Refuses entities that have more ancestors in all than are laid out.
fn refuse_many_ancestors(
    alloc: Global,
    given: Given<'_>,
    entities: &Vec<Entity>,
) -> Result<(), Refusal>
    ensures { IfErr result (IsToldFor (CanHaveMore entities.now.items given.entry.max_ancestors)) }
{
    let most = given.max_ancestors.unwrap_or(ANCESTORS);
    if most_ancestors(entities) <= most {
        return Ok(());
    }
    match has_more_ancestors(alloc, entities, most) {
        Ok(true) => Err(refuse_with_line(alloc, many_line(alloc, given.source, most))),
        Ok(false) => Ok(()),
        Err(AllocError) => Err(Refusal::Memory),
    }
}

fn many_line(alloc: Global, source: Source<'_>, most: usize) -> Result<String, AllocError> {
    let name = source.name;
    format!(in alloc;
        "{name}: the entities have more than {most} ancestors in all (--max-ancestors)"
    )
}

fn whole_store(
    alloc: Global,
    source: Source<'_>,
    entities: Vec<Entity>,
) -> Result<Entities, Refusal>
    ensures closed { IfOk result (IsClosedStore entities.items) }
    ensures cycle { IfErr result (IsToldFor (IsCyclic entities.items)) }
{
    match close_hierarchy(alloc, entities) {
        Ok(store) => Ok(store),
        Err(error) => Err(refuse_unclosed(alloc, source, error)),
    }
}

fn partial_store(
    alloc: Global,
    source: Source<'_>,
    entities: Vec<Entity>,
    warnings: &mut String,
) -> Result<Entities, Refusal>
    ensures closed { IfOk result (IsPartialStore entities.items) }
    ensures cycle { IfErr result (IsToldFor (IsCyclic entities.items)) }
{
    match close_hierarchy_partially(alloc, entities) {
        Ok(closure) => tell_left_out(alloc, source, closure, warnings),
        Err(error) => Err(refuse_unclosed(alloc, source, error)),
    }
}

fn tell_left_out(
    alloc: Global,
    source: Source<'_>,
    closure: PartialClosure,
    warnings: &mut String,
) -> Result<Entities, Refusal>
    ensures same { IfOk result (λ s. s ≡ closure.entities) }
    ensures memory { IfErr result (IsToldFor ⊥) }
{
    let PartialClosure { entities, left_out } = closure;
    let pushed = push_left_out(alloc, source, &left_out, warnings);
    drop(left_out);
    match pushed {
        Ok(()) => Ok(entities),
        Err(AllocError) => {
            drop(entities);
            Err(Refusal::Memory)
        }
    }
}

#[cold]
fn refuse_unclosed(alloc: Global, source: Source<'_>, error: ClosureError) -> Refusal
    ensures { IsToldFor (NamesOne error) result }
{
    match error {
        ClosureError::Memory(_) => Refusal::Memory,
        ClosureError::Cycle(uid) => {
            let name = source.name;
            let line = format!(in alloc;
                "{name}: the parents of the entity `{uid}` lead back to it"
            );
            drop(uid);
            refuse_with_line(alloc, line)
        }
    }
}

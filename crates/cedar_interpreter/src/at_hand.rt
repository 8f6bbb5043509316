//! What the store has of the entities that a request's variables stand for, looked up once.
ghost use Rattle.std.specs.Prelude.{◌≡◌, IfOk, IfSome};
ghost use Rattle.cedar_model.specs.Terms.{entity_literal};
ghost use Rattle.cedar_model.specs.Values.{plain_represented};
ghost use Rattle.cedar_model.specs.Failures as Failures;
ghost use Rattle.cedar_model.specs.Settings.{look_up};
ghost use Rattle.cedar_names.specs.Names.{uid_name};
ghost use Rattle.cedar_names.specs.Leaves.{variable_view};
ghost use Rattle.cedar_values.specs.Residuals.{partial_view};
ghost use Rattle.cedar_layers.specs.Stores.{store_view, found_view};
ghost use Rattle.cedar_interpreter.specs.Known.{known_for, known_view, within, IsKnownOf};

use cedar_layers::policies::{Dereference, Entities, Entity};
use cedar_names::{EntityUID, Var};
use cedar_values::{PartialValue, entity_in};
use std::alloc::{AllocError, Global};

/// What is known of an entity.
#[derive(Clone, Copy)]
pub enum Known<'g> {
    /// The store has it.
    Stored(&'g Entity),
    /// The store lacks it, and is concrete.
    Lacking,
    /// Nothing: the store lacks it, and is partial, or there is no entity, or nobody looked it up.
    Nothing,
}

/// What is known of the entities that the variables of a request stand for.
#[derive(Clone, Copy)]
pub struct KnownEntities<'g> {
    /// Of the principal.
    pub principal: Known<'g>,
    /// Of the action.
    pub action: Known<'g>,
    /// Of the resource.
    pub resource: Known<'g>,
}

impl<'g> KnownEntities<'g> {
    /// What the store has of the entities that these three are. Refuses only if out of memory.
    pub fn of(
        alloc: Global,
        entities: &'g Entities,
        principal: &PartialValue,
        action: &PartialValue,
        resource: &PartialValue,
    ) -> Result<KnownEntities<'g>, AllocError>
        ensures principal { IfOk result
            (λ k. IsKnownOf (store_view entities.now) (partial_view principal.now) k.principal) }
        ensures action { IfOk result (λ k. IsKnownOf (store_view entities.now) (partial_view action.now) k.action) }
        ensures resource { IfOk result
            (λ k. IsKnownOf (store_view entities.now) (partial_view resource.now) k.resource) }
    {
        let of_principal = known_in(alloc, entities, principal)?;
        let of_action = known_in(alloc, entities, action)?;
        let of_resource = known_in(alloc, entities, resource)?;
        Ok(KnownEntities {
            principal: of_principal,
            action: of_action,
            resource: of_resource,
        })
    }

    /// What is known of the entity that the variable stands for.
    pub fn known_for(&self, var: Var) -> Known<'g>
        ensures { known_view result ≡ known_view (known_for self.now (variable_view var)) }
    {
        match var {
            Var::Principal => self.principal,
            Var::Action => self.action,
            Var::Resource => self.resource,
            Var::Context => Known::Nothing,
        }
    }

    /// Whether the entity that the variable stands for, which is the first, is the second or in it, if that is known.
    pub fn is_in(&self, var: Var, uid: &EntityUID, other: &EntityUID) -> Option<bool>
        ensures { result
            ≡ within (known_view (known_for self.now (variable_view var))) (uid_name uid.now) (uid_name other.now) }
    {
        match var {
            Var::Principal => is_in(self.principal, uid, other),
            Var::Action => is_in(self.action, uid, other),
            Var::Resource => is_in(self.resource, uid, other),
            Var::Context => None,
        }
    }
}

// Whether the entity, of which this is known, is the other or in it, if that is known.
fn is_in(known: Known<'_>, uid: &EntityUID, other: &EntityUID) -> Option<bool>
    ensures { result ≡ within (known_view known.entry) (uid_name uid.now) (uid_name other.now) }
{
    match known {
        Known::Stored(entity) => Some(uid == other || entity.is_descendant_of(other)),
        Known::Lacking => Some(uid == other),
        Known::Nothing => None,
    }
}

// What the store has of the entity that this is.
fn known_in<'g>(
    alloc: Global,
    entities: &'g Entities,
    part: &PartialValue,
) -> Result<Known<'g>, AllocError>
    ensures { IfOk result (IsKnownOf (store_view entities.now) (partial_view part.now)) }
{
    match entity_at_hand(part) {
        Some(uid) => looked_up(alloc, entities, uid),
        None => Ok(Known::Nothing),
    }
}

// What the store has of this entity.
fn looked_up<'g>(
    alloc: Global,
    entities: &'g Entities,
    uid: &EntityUID,
) -> Result<Known<'g>, AllocError>
    ensures { IfOk result (λ k. known_view k ≡ look_up (store_view entities.now) (uid_name uid.now)) }
{
    let answer = entities.entity(alloc, uid)?;
    Ok(known_by(answer))
}

// What is known by this answer of a store.
fn known_by<'g>(answer: Dereference<'g>) -> Known<'g>
    ensures { known_view result ≡ found_view answer.entry }
{
    match answer {
        Dereference::NoSuchEntity => Known::Lacking,
        Dereference::Residual(_) => Known::Nothing,
        Dereference::Data(entity) => Known::Stored(entity),
    }
}

/// The entity that this is, if it is one that is known.
pub fn entity_at_hand(part: &PartialValue) -> Option<&EntityUID>
    ensures { IfSome result (λ u. partial_view part.now ≡ Failures.value (plain_represented (entity_literal (uid_name
        u.now)))) }
{
    match part {
        PartialValue::Value(value) => match entity_in(value) {
            Some(uid) => Some(uid),
            None => None,
        },
        PartialValue::Residual(_) => None,
    }
}

//! Which policies of a set can apply where principal, action and resource are known: by the entities that scopes name and
//! the types that they test for.
ghost use Rattle.std.specs.Prelude.{◌≡◌, ◌∷◌, ◌++◌, true, false, [], map, IfOk, OnOk};
ghost use Rattle.cedar_model.specs.Outcomes.{text_eq, entity_eq};
ghost use Rattle.cedar_model.specs.Terms.{Text, EntityName};
ghost use Rattle.cedar_names.specs.Names.{type_text, uid_name};
ghost use Rattle.cedar_layers.specs.Policies.{policy_view};
ghost use Rattle.cedar_layers.specs.Scopes.{is_mostly_rest, standing_under, standing_under_type, names_at, is_last_type};
ghost use Rattle.cedar_layers.specs.Scopes.{asks_for_no_entity, under_entity, under_type, under_other_type, AddsEach};
ghost use Rattle.cedar_layers.specs.Scopes.{Places, Extends, ExtendsType, AreLookedUp};

use super::policy::Policy;
use super::scopes::{bound_to, bound_type};
use cedar_names::{EntityType, EntityUID};
use std::alloc::{AllocError, Global};
use std::collections::BTreeMap;

// The positions of policies: of those whose scopes ask for an entity under that entity, of those that ask for a type
// alone under that type, and the rest. All is kept in order, so that no choice of names makes a look-up slow.
#[derive(Debug, Drop)]
pub(super) struct ScopeIndex {
    groups: BTreeMap<EntityUID, Vec<usize>>,
    types: BTreeMap<EntityType, Vec<usize>>,
    rest: Vec<usize>,
}

impl ScopeIndex {
    // The index of no policies. It takes no memory.
    pub(super) fn new(alloc: Global) -> ScopeIndex
        ensures rest { result.rest.items ≡ [] }
        ensures groups { result.groups.entries ≡ [] }
        ensures types { result.types.entries ≡ [] }
    {
        ScopeIndex {
            groups: BTreeMap::new(alloc),
            types: BTreeMap::new(alloc),
            rest: Vec::new(alloc),
        }
    }

    // Places one more policy, at this position.
    pub(super) fn place(
        &mut self,
        alloc: Global,
        policy: &Policy,
        at: usize,
    ) -> Result<(), AllocError>
        ensures { OnOk result (Places self.old self.new at (policy_view policy.now)) }
    {
        let found = bound_to(alloc, policy)?;
        match found {
            Some(uids) => put_under_each(alloc, &mut self.groups, &uids, at),
            None => self.place_by_type(alloc, policy, at),
        }
    }

    // The same of a policy whose scope asks for no entity.
    fn place_by_type(&mut self, alloc: Global, policy: &Policy, at: usize) -> Result<(), AllocError>
        requires none { asks_for_no_entity (policy_view policy.now) ≡ true }
        ensures { OnOk result (Places self.old self.new at (policy_view policy.now)) }
    {
        match bound_type(policy) {
            Some(ty) => put_under_type(alloc, &mut self.types, ty, at),
            None => {
                self.rest.push(at)?;
                Ok(())
            }
        }
    }

    // Whether more than half of so many policies are in the rest, so that an index tells little.
    pub(super) fn is_mostly_rest(&self, count: usize) -> bool
        ensures { result ≡ is_mostly_rest self.now count }
    {
        self.rest.len() > count / 2
    }

    // The positions of all policies that are not bound elsewhere than to these entities, in order: those in the rest,
    // those under these entities, and those under their types.
    pub(super) fn positions(
        &self,
        alloc: Global,
        uids: &[&EntityUID],
    ) -> Result<Vec<usize>, AllocError>
        ensures { IfOk result (λ v. AreLookedUp self.now (names_at uids.now) v.items) }
    {
        let mut positions: Vec<usize> = Vec::new(alloc);
        positions.extend_from_slice(&self.rest)?;
        self.add_groups(&mut positions, uids)?;
        self.add_types(&mut positions, uids)?;
        positions.sort()?;
        Ok(positions)
    }

    // Adds the positions that stand under the uids.
    fn add_groups(&self, positions: &mut Vec<usize>, uids: &[&EntityUID]) -> Result<(), AllocError>
        ensures { OnOk result (AddsEach (under_entity self.now) (names_at uids.now) positions.old.items
            positions.new.items) }
    {
        'uids: for uid in uids {
            self.add_group(positions, uid)?;
        }
        Ok(())
    }

    // Adds the positions that stand under the uid.
    fn add_group(&self, positions: &mut Vec<usize>, uid: &EntityUID) -> Result<(), AllocError>
        ensures { OnOk result (positions.new.items
            ≡ positions.old.items ++ standing_under self.now.groups.entries (uid_name uid.now)) }
    {
        match self.groups.get(uid) {
            Some(group) => positions.extend_from_slice(group),
            None => Ok(()),
        }
    }

    // Adds the positions that stand under the types of the uids. A type that follows on itself is looked up once: the
    // ancestors of an entity come in order of their types.
    fn add_types(&self, positions: &mut Vec<usize>, uids: &[&EntityUID]) -> Result<(), AllocError>
        ensures { OnOk result (AddsEach (λ e. under_type self.now e.type_name) (names_at uids.now) positions.old.items
            positions.new.items) }
    {
        let mut last: Option<&EntityType> = None;
        'uids: for uid in uids {
            let ty = uid.entity_type();
            self.add_other_type(positions, last, ty)?;
            last = Some(ty);
        }
        Ok(())
    }

    // The same of a type, unless it was looked up last.
    fn add_other_type(
        &self,
        positions: &mut Vec<usize>,
        last: Option<&EntityType>,
        ty: &EntityType,
    ) -> Result<(), AllocError>
        ensures { OnOk result (positions.new.items
            ≡ positions.old.items ++ under_other_type self.now last.entry (type_text ty.now)) }
    {
        if is_last_type(last, ty) {
            Ok(())
        } else {
            self.add_type(positions, ty)
        }
    }

    // Adds the positions that stand under the type.
    fn add_type(&self, positions: &mut Vec<usize>, ty: &EntityType) -> Result<(), AllocError>
        ensures { OnOk result (positions.new.items
            ≡ positions.old.items ++ standing_under_type self.now.types.entries (type_text ty.now)) }
    {
        match self.types.get(ty) {
            Some(group) => positions.extend_from_slice(group),
            None => Ok(()),
        }
    }
}

// Whether the type is the one that was looked up last.
fn is_last_type(last: Option<&EntityType>, ty: &EntityType) -> bool
    ensures { result ≡ is_last_type (type_text ty.now) last.entry }
{
    match last {
        Some(before) => ty == before,
        None => false,
    }
}

// Puts the position under each of the uids.
fn put_under_each(
    alloc: Global,
    groups: &mut BTreeMap<EntityUID, Vec<usize>>,
    uids: &[&EntityUID],
    at: usize,
) -> Result<(), AllocError>
    ensures { OnOk result (Extends groups.old.entries groups.new.entries (names_at uids.now) at) }
{
    'uids: for uid in uids {
        put(alloc, groups, uid, at)?;
    }
    Ok(())
}

// Puts the position under the uid.
fn put(
    alloc: Global,
    groups: &mut BTreeMap<EntityUID, Vec<usize>>,
    uid: &EntityUID,
    at: usize,
) -> Result<(), AllocError>
    ensures { OnOk result (Extends groups.old.entries groups.new.entries (uid_name uid.now ∷ []) at) }
{
    let mut group = taken_out(alloc, groups, uid);
    group.push(at)?;
    groups.insert(uid.clone()?, group)?;
    Ok(())
}

// What stands under the uid, which is taken out.
fn taken_out(
    alloc: Global,
    groups: &mut BTreeMap<EntityUID, Vec<usize>>,
    uid: &EntityUID,
) -> Vec<usize>
    ensures items { result.items ≡ standing_under groups.old.entries (uid_name uid.now) }
    ensures others { (n : EntityName) → entity_eq n (uid_name uid.now) ≡ false →
        standing_under groups.new.entries n ≡ standing_under groups.old.entries n }
{
    match groups.remove(uid) {
        Some(group) => group,
        None => Vec::new(alloc),
    }
}

// Puts the position under the type.
fn put_under_type(
    alloc: Global,
    types: &mut BTreeMap<EntityType, Vec<usize>>,
    ty: &EntityType,
    at: usize,
) -> Result<(), AllocError>
    ensures { OnOk result (ExtendsType types.old.entries types.new.entries (type_text ty.now) at) }
{
    let mut group = type_taken_out(alloc, types, ty);
    group.push(at)?;
    types.insert(ty.clone()?, group)?;
    Ok(())
}

// What stands under the type, which is taken out.
fn type_taken_out(
    alloc: Global,
    types: &mut BTreeMap<EntityType, Vec<usize>>,
    ty: &EntityType,
) -> Vec<usize>
    ensures items { result.items ≡ standing_under_type types.old.entries (type_text ty.now) }
    ensures others { (t : Text) → text_eq t (type_text ty.now) ≡ false →
        standing_under_type types.new.entries t ≡ standing_under_type types.old.entries t }
{
    match types.remove(ty) {
        Some(group) => group,
        None => Vec::new(alloc),
    }
}

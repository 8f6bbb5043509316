//! The store of entities.
ghost use Rattle.std.specs.Prelude.{◌≡◌, true, IfOk};
ghost use Rattle.cedar_layers.specs.Parts.{parts_view, values_as_parts, are_restricted_parts};
ghost use mathlib.Core.Bool.{Bool-set};

use cedar_fallible::in_rc;
use cedar_names::{EntityUID, Type, Unknown};
use cedar_values::{PartialValue, Value};
use std::alloc::{AllocError, Global};
use std::collections::btree_map::Keys;
use std::collections::{BTreeMap, BTreeSet};
use std::rc::{Rc, RcStr};

/// An entity: its uid, its attributes and tags under their names, and the entities that it is in. A residual among the
/// attributes and tags is a restricted expression.
#[derive(Debug)]
pub struct Entity {
    uid: EntityUID,
    attrs: BTreeMap<RcStr, PartialValue>,
    ancestors: BTreeSet<EntityUID>,
    tags: BTreeMap<RcStr, PartialValue>,
    ghost attrs_restricted: { are_restricted_parts (parts_view attrs.entries) ≡ true } by { Bool-set _ _ },
    ghost tags_restricted: { are_restricted_parts (parts_view tags.entries) ≡ true } by { Bool-set _ _ },
}

impl Drop for Entity {
    fn drop(self) {
        let Entity {
            uid: _,
            attrs: _,
            ancestors: _,
            tags: _,
        } = self;
    }
}

impl Entity {
    ghost use Rattle.std.specs.Prelude.{IfSome, map, length, option_copied};
    ghost use Rattle.std.specs.Cmp.Lexicographic.{slice_cmp};
    ghost use Rattle.std.specs.List.Sorted.{IsStrictlySortedBy};
    ghost use Rattle.std.specs.Ordering.{nat_cmp};
    ghost use Rattle.std.specs.Rc.{rc_str_bytes};
    ghost use Rattle.cedar_model.specs.Settings.{part_at, is_among, names_of};
    ghost use Rattle.cedar_names.specs.Names.{uid_name};
    ghost use Rattle.cedar_values.specs.Residuals.{partial_view};
    ghost use Rattle.cedar_layers.specs.Parts.{found_part, is_restricted_part, part_under};
    ghost use Rattle.cedar_layers.specs.Stores.{entity_uid, entity_attributes, entity_tags, entity_ancestors};
    ghost use Rattle.cedar_layers.specs.Stores.{entity_name, entity_view, facts_of, facts_of_values};

    /// The entity of this uid with these attributes, ancestors and tags, taken as they are. The caller owes two facts,
    /// one of `attrs` and one of `tags`: each residual there is a restricted expression, that is, made of literals,
    /// unknowns, sets, records and calls of extension functions alone. Values may stand there freely; `from_values`
    /// takes nothing else, and asks nothing. `ancestors` are all the entities that this one is in, not its parents
    /// alone: none is added.
    pub fn new(
        uid: EntityUID,
        attrs: BTreeMap<RcStr, PartialValue>,
        ancestors: BTreeSet<EntityUID>,
        tags: BTreeMap<RcStr, PartialValue>,
    ) -> Entity
        requires attrs { are_restricted_parts (parts_view attrs.entries) ≡ true }
        requires tags { are_restricted_parts (parts_view tags.entries) ≡ true }
        ensures name { entity_name result ≡ uid_name uid }
        ensures view { entity_view result ≡ facts_of attrs.entries ancestors.keys tags.entries }
        ensures uid { entity_uid result ≡ uid }
        ensures attributes { entity_attributes result ≡ attrs.entries }
        ensures tags { entity_tags result ≡ tags.entries }
        ensures ancestors { entity_ancestors result ≡ ancestors.keys }
    {
        Entity {
            uid,
            attrs,
            ancestors,
            tags,
        }
    }

    /// The entity of this uid whose attributes and tags are these values, with these ancestors: all of them, as in
    /// `new`. Refuses only if out of memory.
    pub fn from_values(
        alloc: Global,
        uid: EntityUID,
        attrs: BTreeMap<RcStr, Value>,
        ancestors: BTreeSet<EntityUID>,
        tags: BTreeMap<RcStr, Value>,
    ) -> Result<Entity, AllocError>
        ensures name { IfOk result (λ e. entity_name e ≡ uid_name uid) }
        ensures view { IfOk result (λ e. entity_view e ≡ facts_of_values attrs.entries ancestors.keys tags.entries) }
        ensures uid { IfOk result (λ e. entity_uid e ≡ uid) }
        ensures attributes { IfOk result (λ e. entity_attributes e ≡ values_as_parts attrs.entries) }
        ensures tags { IfOk result (λ e. entity_tags e ≡ values_as_parts tags.entries) }
        ensures ancestors { IfOk result (λ e. entity_ancestors e ≡ ancestors.keys) }
    {
        let attributes = parts_of_values(alloc, attrs)?;
        let tag_parts = parts_of_values(alloc, tags)?;
        Ok(Entity::new(uid, attributes, ancestors, tag_parts))
    }

    /// The uid.
    pub fn uid(&self) -> &EntityUID
        ensures uid { result.now ≡ entity_uid self.now }
        ensures name { uid_name result.now ≡ entity_name self.now }
    {
        &self.uid
    }

    /// The attribute of this name, if there is one.
    pub fn get(&self, attr: &str) -> Option<&PartialValue>
        ensures value { found_part (option_copied result) ≡ part_at attr.now (entity_view self.now).attributes }
        ensures whole { option_copied result ≡ part_under attr.now (entity_attributes self.now) }
        ensures restricted { IfSome result (λ p. is_restricted_part (partial_view p.now) ≡ true) }
    {
        self.attrs.get(attr)
    }

    /// The tag of this name, if there is one.
    pub fn get_tag(&self, tag: &str) -> Option<&PartialValue>
        ensures value { found_part (option_copied result) ≡ part_at tag.now (entity_view self.now).tags }
        ensures whole { option_copied result ≡ part_under tag.now (entity_tags self.now) }
        ensures restricted { IfSome result (λ p. is_restricted_part (partial_view p.now) ≡ true) }
    {
        self.tags.get(tag)
    }

    /// The names of the attributes, in the order of their bytes.
    pub fn keys(&self) -> Keys<'_, RcStr, PartialValue>
        ensures names { map rc_str_bytes result ≡ names_of (entity_view self.now).attributes }
        ensures in_order { IsStrictlySortedBy (slice_cmp nat_cmp) (names_of (entity_view self.now).attributes) }
    {
        self.attrs.keys()
    }

    /// The names of the tags, in the order of their bytes.
    pub fn tag_keys(&self) -> Keys<'_, RcStr, PartialValue>
        ensures names { map rc_str_bytes result ≡ names_of (entity_view self.now).tags }
        ensures in_order { IsStrictlySortedBy (slice_cmp nat_cmp) (names_of (entity_view self.now).tags) }
    {
        self.tags.keys()
    }

    /// How many attributes there are.
    pub fn attrs_len(&self) -> usize
        ensures { result ≡ length (entity_view self.now).attributes }
    {
        self.attrs.len()
    }

    /// How many tags there are.
    pub fn tags_len(&self) -> usize
        ensures { result ≡ length (entity_view self.now).tags }
    {
        self.tags.len()
    }

    /// The recorded ancestors.
    pub fn ancestors(&self) -> &BTreeSet<EntityUID>
        ensures whole { result.now.keys ≡ entity_ancestors self.now }
    {
        &self.ancestors
    }

    /// This entity with these ancestors in place of those that are recorded, taken as they are, as in `new`.
    pub fn with_ancestors(self, ancestors: BTreeSet<EntityUID>) -> Entity
        ensures view { entity_view result ≡ facts_of (entity_attributes self) ancestors.keys (entity_tags self) }
        ensures uid { entity_uid result ≡ entity_uid self }
        ensures attributes { entity_attributes result ≡ entity_attributes self }
        ensures tags { entity_tags result ≡ entity_tags self }
        ensures ancestors { entity_ancestors result ≡ ancestors.keys }
    {
        let Entity {
            uid,
            attrs,
            ancestors: _,
            tags,
        } = self;
        Entity {
            uid,
            attrs,
            ancestors,
            tags,
        }
    }

    /// Whether the entity of this uid is among the recorded ancestors.
    pub fn is_descendant_of(&self, uid: &EntityUID) -> bool
        ensures { result ≡ is_among (uid_name uid.now) (entity_view self.now).ancestors }
    {
        self.ancestors.contains(uid)
    }
}

// The values as the parts of an entity.
fn parts_of_values(
    alloc: Global,
    values: BTreeMap<RcStr, Value>,
) -> Result<BTreeMap<RcStr, PartialValue>, AllocError>
    ensures entries { IfOk result (λ m. m.entries ≡ values_as_parts values.entries) }
    ensures restricted { IfOk result (λ m. are_restricted_parts (parts_view m.entries) ≡ true) }
{
    let mut parts: BTreeMap<RcStr, PartialValue> = BTreeMap::new(alloc);
    'values: for (name, value) in values {
        drop(parts.insert(name, PartialValue::Value(value))?);
    }
    Ok(parts)
}

/// What a store answers of an entity.
#[derive(Debug, Drop)]
pub enum Dereference<'a> {
    /// There is no such entity.
    NoSuchEntity,
    /// The entity is not known: this unknown stands for it.
    Residual(Unknown),
    /// The entity.
    Data(&'a Entity),
}

// Entities under their uids.
type Layer = BTreeMap<EntityUID, Entity>;

/// A store of entities. A concrete store has every entity; of a partial one a missing entity is not known. It is kept
/// in the order of the entities' names, so that no choice of names makes a look-up slow. A store that is made over
/// another shares the entities of that one.
#[derive(Debug)]
pub struct Entities {
    layers: Vec<Rc<Layer>>,
    partial: bool,
}

impl Drop for Entities {
    fn drop(self) {
        let Entities {
            layers: _,
            partial: _,
        } = self;
    }
}

impl Entities {
    ghost use Rattle.std.specs.Prelude.{false, map, OnOk, option_map, option_copied};
    ghost use Rattle.std.specs.Rc.{rc_str_bytes};
    ghost use Rattle.cedar_model.specs.Terms.{unknown};
    ghost use Rattle.cedar_model.specs.Settings.{look_up, missing_entity};
    ghost use Rattle.cedar_names.specs.Names.{uid_name};
    ghost use Rattle.cedar_names.specs.Leaves.{type_view};
    ghost use Rattle.cedar_layers.specs.Stores.{no_entities, store_of, standing, standing_with, last_of_each_name};
    ghost use Rattle.cedar_layers.specs.Stores.{standing_with_each, with_entities, shown, or_below, with_below};
    ghost use Rattle.cedar_layers.specs.Stores.{store_view, entity_view, stored_entity, found_view, answered_entity};
    ghost use Rattle.cedar_layers.specs.Stores.{AsksFor};

    /// The concrete store without entities. It takes no memory.
    pub fn new(alloc: Global) -> Entities
        ensures { store_view result ≡ record { entity = no_entities; is_partial = false } }
    {
        Entities {
            layers: Vec::new(alloc),
            partial: false,
        }
    }

    /// The store of these entities, of which those of one uid are one entity, the last. `partial` says what it means
    /// that an entity is not among them: if false, that there is none; if true, that it is not known, and an unknown
    /// stands for it. Ancestors are taken as they are: each entity must have been made with all of its ancestors, not
    /// its parents alone. `in` is false of an ancestor that was left out, so a permit that asks for it does not apply
    /// (a wrong Deny), nor does a forbid (a wrong Allow). Refuses only if out of memory.
    pub fn with(alloc: Global, entities: Vec<Entity>, partial: bool) -> Result<Entities, AllocError>
        ensures view { IfOk result (λ s. store_view s ≡ store_of entities.items partial) }
        ensures whole { IfOk result (λ s. stored_entity s ≡ last_of_each_name entities.items) }
    {
        let layer = Entities::layer_of(alloc, entities)?;
        let mut layers: Vec<Rc<Layer>> = Vec::new(alloc);
        layers.push(layer)?;
        Ok(Entities { layers, partial })
    }

    /// The store that has these entities, of those of one uid the last, and else what this one has. It is partial if
    /// this one is. This one stays as it is, and its entities are shared, not copied: what it costs, and how much memory
    /// it takes, goes by how many entities are handed in. Ancestors are taken as they are, as in `with`: those of the
    /// entities of this store stay as they were recorded. A look-up asks each store that this one is made over in turn,
    /// the one made last first. Refuses only if out of memory.
    pub fn over(&self, alloc: Global, entities: Vec<Entity>) -> Result<Entities, AllocError>
        ensures held { IfOk result (λ s.
            (store_view s).entity ≡ with_entities (store_view self.now).entity entities.items) }
        ensures partial { IfOk result (λ s. (store_view s).is_partial ≡ (store_view self.now).is_partial) }
        ensures whole { IfOk result (λ s. stored_entity s ≡ standing_with_each (stored_entity self.now) entities.items) }
    {
        let layer = Entities::layer_of(alloc, entities)?;
        let mut layers: Vec<Rc<Layer>> = self.layers.clone()?;
        layers.insert(0, layer)?;
        Ok(Entities {
            layers,
            partial: self.partial,
        })
    }

    // The entities under their uids, of those of one uid the last.
    fn layer_of(alloc: Global, entities: Vec<Entity>) -> Result<Rc<Layer>, AllocError>
        ensures { IfOk result (λ r. standing r.value.entries ≡ last_of_each_name entities.items) }
    {
        let mut held: Layer = BTreeMap::new(alloc);
        'put: for entity in entities {
            Entities::put(&mut held, entity)?;
        }
        let layer = in_rc(alloc, held)?;
        Ok(layer)
    }

    // Puts the entity into the map, instead of one of the same uid.
    fn put(map: &mut Layer, entity: Entity) -> Result<(), AllocError>
        ensures { OnOk result (standing map.new.entries ≡ standing_with (standing map.old.entries) entity) }
    {
        let uid = entity.uid.clone()?;
        map.insert(uid, entity)?;
        Ok(())
    }

    /// The entities that the store has, each once, under their uids: so `iter` of what is answered goes over them in the
    /// order of their names, and `len` says how many there are. Refuses only if out of memory.
    pub fn by_uid(&self, alloc: Global) -> Result<BTreeMap<EntityUID, &Entity>, AllocError>
        ensures { IfOk result (λ m. shown m.entries ≡ stored_entity self.now) }
    {
        let mut listed: BTreeMap<EntityUID, &Entity> = BTreeMap::new(alloc);
        'layers: for layer in &self.layers {
            Entities::list_each(&mut listed, layer)?;
        }
        Ok(listed)
    }

    // Lists each entity whose uid is not listed yet.
    fn list_each<'a>(
        listed: &mut BTreeMap<EntityUID, &'a Entity>,
        layer: &'a Layer,
    ) -> Result<(), AllocError>
        ensures { OnOk result (shown listed.new.entries ≡
            or_below (shown listed.old.entries) (standing layer.now.entries)) }
    {
        'entries: for (uid, entity) in layer.iter() {
            Entities::list(listed, uid, entity)?;
        }
        Ok(())
    }

    // Lists the entity, unless one is listed under the uid.
    fn list<'a>(
        listed: &mut BTreeMap<EntityUID, &'a Entity>,
        uid: &EntityUID,
        entity: &'a Entity,
    ) -> Result<(), AllocError>
        ensures { OnOk result (shown listed.new.entries ≡
            with_below (shown listed.old.entries) (uid_name uid.now) entity.now) }
    {
        if !listed.contains_key(uid) {
            let key = uid.clone()?;
            listed.insert(key, entity)?;
        }
        Ok(())
    }

    /// The entity of this uid; for one that the store lacks `NoSuchEntity` or, in a partial store, the unknown that is
    /// named by the uid's text and annotated with its type. Refuses only if out of memory.
    pub fn entity(&self, alloc: Global, uid: &EntityUID) -> Result<Dereference<'_>, AllocError>
        ensures found { IfOk result (λ d. found_view d ≡ look_up (store_view self.now) (uid_name uid.now)) }
        ensures whole { IfOk result (λ d. answered_entity d ≡ stored_entity self.now (uid_name uid.now)) }
        ensures unknown { IfOk result (AsksFor (uid_name uid.now)) }
    {
        match self.get(uid) {
            Some(entity) => Ok(Dereference::Data(entity)),
            None => {
                if self.partial {
                    Ok(Dereference::Residual(Entities::missing(alloc, uid)?))
                } else {
                    Ok(Dereference::NoSuchEntity)
                }
            }
        }
    }

    /// The entity of this uid, if the store has it.
    pub fn get(&self, uid: &EntityUID) -> Option<&Entity>
        ensures view { option_map entity_view (option_copied result) ≡ (store_view self.now).entity (uid_name uid.now) }
        ensures whole { option_copied result ≡ stored_entity self.now (uid_name uid.now) }
    {
        'layers: for layer in &self.layers {
            match layer.get(uid) {
                Some(entity) => return Some(entity),
                None => {}
            }
        }
        None
    }

    // The unknown that stands for the entity of this uid.
    fn missing(alloc: Global, uid: &EntityUID) -> Result<Unknown, AllocError>
        ensures { IfOk result (λ u. unknown (rc_str_bytes u.name) (option_map type_view u.type_annotation) ≡
            missing_entity (uid_name uid.now)) }
    {
        let name = RcStr::from_string(uid.to_string(alloc)?)?;
        let ty = Type::Entity {
            ty: uid.entity_type().clone()?,
        };
        Ok(Unknown::new_with_type(name, ty))
    }
}

//! Names: of entity types, of entities, of functions, of slots and of the request's variables.
ghost use Rattle.std.specs.Prelude.{◌≡◌, None, IfOk, option_copied};
ghost use Rattle.std.specs.Rc.{rc_str_bytes};
ghost use Rattle.cedar_names.specs.Names.{name_text, name_loc, type_text, type_name_of};
ghost use Rattle.cedar_names.specs.Names.{type_loc, uid_name, uid_type, uid_loc};

mod parts;
pub(crate) mod texts;

use std::alloc::{AllocError, Global};
use std::collections::HashMap;
use std::marker::Model;
use std::rc::RcStr;

/// A location in a source text: from the byte `start` up to, but not including, the byte `end`.
#[derive(Clone, Copy, Debug, PartialEq, Eq, Hash)]
pub struct Loc {
    /// The first byte.
    pub start: usize,
    /// The byte behind the last.
    pub end: usize,
}

/// A name: of a function, of an extension type or of an entity type. Equality, order and hash ignore its location.
#[derive(Clone, Debug)]
#[derive_where(PartialEq, Eq, PartialOrd, Ord, Hash)]
pub struct Name {
    text: RcStr,
    #[derive_where(skip(EqHashOrd))]
    loc: Option<Loc>,
}

impl Drop for Name {
    fn drop(self) {
        let Name { text: _, loc: _ } = self;
    }
}

impl Model for Name {
    ghost use Rattle.cedar_names.specs.NameFields.{NameFields};

    ghost Value = { NameFields };

    ghost view = { λ a. record { text = a.text; loc = a.loc } };

    ghost inverse = { λ a. record { text = a.text; loc = a.loc } };
}

impl Name {
    /// The name of this text, unchecked, with this location or none.
    pub fn new(text: RcStr, loc: Option<Loc>) -> Name
        ensures text { name_text result ≡ rc_str_bytes text }
        ensures loc { name_loc result ≡ loc }
    {
        Name { text, loc }
    }

    /// Where the name stands in its source, if that is known.
    pub fn loc(&self) -> Option<&Loc>
        ensures { option_copied result ≡ name_loc self.now }
    {
        self.loc.as_ref()
    }
}

/// The name of an entity type.
#[derive(Clone, Debug, PartialEq, Eq, PartialOrd, Ord, Hash)]
pub struct EntityType(Name);

impl Drop for EntityType {
    fn drop(self) {
        let EntityType(_) = self;
    }
}

impl EntityType {
    /// The entity type of this name.
    pub fn new(name: Name) -> EntityType
        ensures text { type_text result ≡ name_text name }
        ensures whole { type_name_of result ≡ name }
    {
        EntityType(name)
    }
}

/// The name of an entity: its type and its id. Equality, order and hash ignore its location; the order is that of the
/// types' texts, and of one type that of the ids, byte by byte.
#[derive(Clone, Debug)]
#[derive_where(PartialEq, Eq, PartialOrd, Ord, Hash)]
pub struct EntityUID {
    ty: EntityType,
    eid: RcStr,
    #[derive_where(skip(EqHashOrd))]
    loc: Option<Loc>,
}

impl Drop for EntityUID {
    fn drop(self) {
        let EntityUID {
            ty: _,
            eid: _,
            loc: _,
        } = self;
    }
}

impl Model for EntityUID {
    ghost use Rattle.cedar_names.specs.EntityFields.{EntityFields};

    ghost Value = { EntityFields };

    ghost view = { λ a. record { ty = a.ty; eid = a.eid; loc = a.loc } };

    ghost inverse = { λ a. record { ty = a.ty; eid = a.eid; loc = a.loc } };
}

impl EntityUID {
    /// The entity of this type with this id, named at this location or at none that is known.
    pub fn new(ty: EntityType, eid: RcStr, loc: Option<Loc>) -> EntityUID
        ensures name { uid_name result ≡ record { type_name = type_text ty; id = rc_str_bytes eid } }
        ensures whole { uid_type result ≡ ty }
        ensures loc { uid_loc result ≡ loc }
    {
        EntityUID { ty, eid, loc }
    }

    /// The entity of the type of this name with this id, both at no location. The name is taken as it stands,
    /// unchecked: a path is one text, as `App::User`. Refuses only if out of memory.
    pub fn of(alloc: Global, ty: &str, id: &str) -> Result<EntityUID, AllocError>
        ensures name { IfOk result (λ u. uid_name u ≡ record { type_name = ty.now; id = id.now }) }
        ensures type_loc { IfOk result (λ u. type_loc (uid_type u) ≡ None) }
        ensures loc { IfOk result (λ u. uid_loc u ≡ None) }
    {
        let name = Name::new(RcStr::from_str(alloc, ty)?, None);
        let eid = RcStr::from_str(alloc, id)?;
        Ok(EntityUID::new(EntityType::new(name), eid, None))
    }

    /// The type of the entity, with its location.
    pub fn entity_type(&self) -> &EntityType
        ensures text { type_text result.now ≡ (uid_name self.now).type_name }
        ensures whole { result.now ≡ uid_type self.now }
    {
        &self.ty
    }

    /// Where the entity is named in its source, if that is known.
    pub fn loc(&self) -> Option<&Loc>
        ensures { option_copied result ≡ uid_loc self.now }
    {
        self.loc.as_ref()
    }
}

/// A slot of a template.
#[derive(Clone, Copy, Debug, PartialEq, Eq, Hash)]
pub enum SlotId {
    /// `?principal`
    Principal,
    /// `?resource`
    Resource,
}

/// The entities that fill the slots of a linked policy.
pub type SlotEnv = HashMap<SlotId, EntityUID>;

/// A variable of the request.
#[derive(Clone, Copy, Debug, PartialEq, Eq, Hash)]
pub enum Var {
    /// Who asks: `principal`.
    Principal,
    /// What is to be done: `action`.
    Action,
    /// To what it is to be done: `resource`.
    Resource,
    /// What else is known of the request: `context`.
    Context,
}

/// How a function is written at a call: `f(x)` or `x.f()`.
#[derive(Clone, Copy, Debug, PartialEq, Eq, Hash)]
pub enum CallStyle {
    /// `f(x)`
    FunctionStyle,
    /// `x.f()`
    MethodStyle,
}

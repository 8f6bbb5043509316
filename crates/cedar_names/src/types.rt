//! The types of values, literals and unknowns.
ghost use Rattle.std.specs.Prelude.{◌≡◌, None, Some};

use crate::names::{EntityType, EntityUID, Name};
use std::marker::Model;
use std::rc::{Rc, RcStr};

/// The type of a value.
#[derive(Clone, Debug, PartialEq, Eq, Hash, Drop)]
pub enum Type {
    /// A boolean.
    Bool,
    /// A whole number of 64 bits.
    Long,
    /// A text.
    String,
    /// A set of values of any types.
    Set,
    /// A record.
    Record,
    /// An entity of this type.
    Entity { ty: EntityType },
    /// A value of the extension type of this name.
    Extension { name: Name },
}

/// A literal of the language.
#[derive(Clone, Debug, PartialEq, Eq, Hash, Drop)]
pub enum Literal {
    /// `true` or `false`.
    Bool(bool),
    /// A whole number of 64 bits.
    Long(i64),
    /// A text.
    String(RcStr),
    /// The name of an entity.
    EntityUID(Rc<EntityUID>),
}

impl From<Rc<EntityUID>> for Literal {
    ghost use Rattle.cedar_model.specs.Terms.{entity_literal};
    ghost use Rattle.cedar_names.specs.Names.{uid_name};
    ghost use Rattle.cedar_names.specs.Leaves.{literal_view};
    ghost use Rattle.cedar_names.specs.declared.types.Literal.TheVariants as literals;

    ghost from_gives = { λ u l. (literal_view l ≡ entity_literal (uid_name u.value)) × (l ≡ literals.EntityUID u) };

    /// The name of this entity, which the literal shares. It takes no memory.
    fn from(uid: Rc<EntityUID>) -> Literal {
        Literal::EntityUID(uid)
    }
}

/// A value that is not known yet: its name, and its type where that is known.
#[derive(Clone, Debug, PartialEq, Eq, Hash, Drop)]
pub struct Unknown {
    /// The name by which its value can be given later.
    pub name: RcStr,
    /// The type that its value must have, if that is known.
    pub type_annotation: Option<Type>,
}

impl Model for Unknown {
    ghost use Rattle.cedar_names.specs.UnknownFields.{UnknownFields};

    ghost Value = { UnknownFields };

    ghost view = { λ a. record { name = a.name; type_annotation = a.type_annotation } };

    ghost inverse = { λ a. record { name = a.name; type_annotation = a.type_annotation } };
}

impl Unknown {
    /// The unknown of this name, of any type.
    pub fn new_untyped(name: RcStr) -> Unknown
        ensures name { result.name ≡ name }
        ensures annotation { result.type_annotation ≡ None }
    {
        Unknown {
            name,
            type_annotation: None,
        }
    }

    /// The unknown of this name, which stands for values of this type alone.
    pub fn new_with_type(name: RcStr, ty: Type) -> Unknown
        ensures name { result.name ≡ name }
        ensures annotation { result.type_annotation ≡ Some ty }
    {
        Unknown {
            name,
            type_annotation: Some(ty),
        }
    }
}

/// A list that is not empty: its first element and the others.
#[derive(Clone, Debug, PartialEq, Eq, Hash, Drop)]
pub struct FirstRest<T> {
    /// The first element.
    pub first: T,
    /// The others, in order.
    pub rest: Vec<T>,
}

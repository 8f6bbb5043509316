//! When names and leaves are equal. Each function is a law, and does nothing.
ghost use Rattle.std.specs.Prelude.{◌≡◌};
ghost use Rattle.std.specs.Bool.{Decides};
ghost use Rattle.std.specs.Cmp.{IsTotalOrder};
ghost use Rattle.std.specs.Cmp.Lexicographic.{slice_cmp};
ghost use Rattle.std.specs.Ordering.{is_eq, nat_cmp, ordering_then};
ghost use Rattle.cedar_names.specs.declared.names.Name.{Name};
ghost use Rattle.cedar_names.specs.declared.names.EntityType.{EntityType};
ghost use Rattle.cedar_names.specs.declared.names.EntityUID.{EntityUID};
ghost use Rattle.cedar_names.specs.declared.types.«Type».{«Type» as RType};
ghost use Rattle.cedar_names.specs.declared.types.Literal.{Literal};
ghost use Rattle.cedar_names.specs.declared.types.Unknown as unknowns;
ghost use Rattle.cedar_names.specs.declared.pattern.Pattern.{Pattern};
ghost use Rattle.cedar_names.specs.Names.{name_text, type_text, uid_name};
ghost use Rattle.cedar_names.specs.Leaves.{literal_view, type_view, pattern_view, AreOneUnknown};

use crate::names::{EntityType, EntityUID, Name};
use crate::pattern::Pattern;
use crate::types::{Literal, Type, Unknown};

/// Names and entity types are equal exactly where their texts are, and names of entities where their types and ids are:
/// locations change nothing.
pub fn names_are_equal_by_text()
    ensures names { (a b : Name) → Decides (⟦<Name as PartialEq>⟧.eq a b) (name_text a ≡ name_text b) }
    ensures types { (a b : EntityType) → Decides (⟦<EntityType as PartialEq>⟧.eq a b) (type_text a ≡ type_text b) }
    ensures entities { (a b : EntityUID) → Decides (⟦<EntityUID as PartialEq>⟧.eq a b) (uid_name a ≡ uid_name b) }
{}

/// Names of entities have a total order: that of the texts of their types and, of one type, that of their ids. It tells
/// two apart exactly where `==` does: locations change nothing.
pub fn entities_are_in_order()
    ensures total { IsTotalOrder ⟦<EntityUID as Ord>⟧.cmp }
    ensures by_text { (a b : EntityUID) → ⟦<EntityUID as Ord>⟧.cmp a b ≡
        ordering_then (slice_cmp nat_cmp (uid_name a).type_name (uid_name b).type_name)
        (slice_cmp nat_cmp (uid_name a).id (uid_name b).id) }
    ensures ties { (a b : EntityUID) → is_eq (⟦<EntityUID as Ord>⟧.cmp a b) ≡ ⟦<EntityUID as PartialEq>⟧.eq a b }
{}

/// Literals, types, unknowns and patterns are equal exactly where they stand for the same.
pub fn leaves_are_equal_by_view()
    ensures literals { (a b : Literal) → Decides (⟦<Literal as PartialEq>⟧.eq a b) (literal_view a ≡ literal_view b) }
    ensures types { (a b : RType) → Decides (⟦<Type as PartialEq>⟧.eq a b) (type_view a ≡ type_view b) }
    ensures unknowns { (a b : unknowns.Unknown) → Decides (⟦<Unknown as PartialEq>⟧.eq a b) (AreOneUnknown a b) }
    ensures patterns { (a b : Pattern) → Decides (⟦<Pattern as PartialEq>⟧.eq a b) (pattern_view a ≡ pattern_view b) }
{}

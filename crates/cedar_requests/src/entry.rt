//! The entity that stands for a variable of the request.
ghost use Rattle.std.specs.Prelude.{◌≡◌, None, Some, option_copied, option_map, IfOk};

use crate::variables::{known_part, unknown_part};
use cedar_names::{EntityType, EntityUID, Loc, Var};
use cedar_values::PartialValue;
use std::alloc::{AllocError, Global};

/// The entity that stands for a variable of the request: a known one, or one that is not known yet.
#[derive(Debug, Clone, Drop)]
pub enum EntityUIDEntry {
    /// A known entity, and where it is named, if that is known.
    Known {
        euid: EntityUID,
        loc: Option<Loc>,
    },
    /// An entity that is not known yet: its type, if that is known, and where it is named, if that is known.
    Unknown {
        ty: Option<EntityType>,
        loc: Option<Loc>,
    },
}

impl EntityUIDEntry {
    ghost use Rattle.cedar_model.specs.Settings.{entry_part};
    ghost use Rattle.cedar_names.specs.Names.{type_text, uid_name};
    ghost use Rattle.cedar_names.specs.Leaves.{variable_view};
    ghost use Rattle.cedar_names.specs.Texts.{variable_text};
    ghost use Rattle.cedar_values.specs.Residuals.{partial_view, partial_loc};
    ghost use Rattle.cedar_requests.specs.declared.entry.EntityUIDEntry.TheVariants.{Known, Unknown};
    ghost use Rattle.cedar_requests.specs.Requests.{entry_view, entry_uid, entry_entity_type, entry_loc};
    ghost use Rattle.cedar_requests.specs.Requests.{entry_name, entry_type, entry_annotation, partial_annotation};
    ghost use Rattle.cedar_requests.specs.Types.{placed_type};

    /// A known entity, named at this location.
    pub fn known(euid: EntityUID, loc: Option<Loc>) -> EntityUIDEntry
        ensures { result ≡ Known euid loc }
    {
        EntityUIDEntry::Known { euid, loc }
    }

    /// An entity of which nothing is known, at no location.
    pub fn unknown() -> EntityUIDEntry
        ensures { result ≡ Unknown None None }
    {
        EntityUIDEntry::Unknown {
            ty: None,
            loc: None,
        }
    }

    /// An entity of which the type alone is known, named at this location.
    pub fn unknown_with_type(ty: EntityType, loc: Option<Loc>) -> EntityUIDEntry
        ensures { result ≡ Unknown (Some ty) loc }
    {
        EntityUIDEntry::Unknown { ty: Some(ty), loc }
    }

    /// The entity, where it is known.
    pub fn uid(&self) -> Option<&EntityUID>
        ensures uid { option_copied result ≡ entry_uid self.now }
        ensures name { option_map uid_name (option_copied result) ≡ entry_name (entry_view self.now) }
    {
        match self {
            EntityUIDEntry::Known { euid, loc: _ } => Some(euid),
            EntityUIDEntry::Unknown { ty: _, loc: _ } => None,
        }
    }

    /// The type of the entity, with its location, where it is known: of a known entity, or the type that an unknown one
    /// has.
    pub fn get_type(&self) -> Option<&EntityType>
        ensures text { option_map type_text (option_copied result) ≡ entry_type (entry_view self.now) }
        ensures whole { option_copied result ≡ entry_entity_type self.now }
    {
        match self {
            EntityUIDEntry::Known { euid, loc: _ } => Some(euid.entity_type()),
            EntityUIDEntry::Unknown { ty, loc: _ } => ty.as_ref(),
        }
    }

    /// What the variable answers that the entry stands for, at the entry's location: the entity, or the unknown of the
    /// variable's name, which is annotated with the entity's type, with its location, where that is known. Refuses only
    /// if out of memory.
    pub fn evaluate(&self, alloc: Global, var: Var) -> Result<PartialValue, AllocError>
        ensures view { IfOk result (λ p. partial_view p
            ≡ entry_part (entry_view self.now) (variable_text (variable_view var))) }
        ensures place { IfOk result (λ p. partial_loc p ≡ entry_loc self.now) }
        ensures annotation { IfOk result (λ p. option_map placed_type (partial_annotation p)
            ≡ option_map placed_type (entry_annotation self.now)) }
    {
        let entry = self.clone()?;
        entry.into_part(alloc, var)
    }

    /// What `evaluate` answers; the entity is moved there.
    #[tactic(auto, unfolding(cedar_model::specs::Settings::entry_part))]
    pub(crate) fn into_part(self, alloc: Global, var: Var) -> Result<PartialValue, AllocError>
        ensures view { IfOk result (λ p. partial_view p
            ≡ entry_part (entry_view self) (variable_text (variable_view var))) }
        ensures place { IfOk result (λ p. partial_loc p ≡ entry_loc self) }
        ensures annotation { IfOk result (λ p. partial_annotation p ≡ entry_annotation self) }
    {
        match self {
            EntityUIDEntry::Known { euid, loc } => known_part(alloc, euid, loc),
            EntityUIDEntry::Unknown { ty, loc } => unknown_part(alloc, var, ty, loc),
        }
    }
}

impl From<EntityUID> for EntityUIDEntry {
    ghost use Rattle.cedar_names.specs.Names.{uid_loc};
    ghost use Rattle.cedar_requests.specs.declared.entry.EntityUIDEntry.TheVariants.{Known};

    ghost from_gives = { λ u e. e ≡ Known u (uid_loc u) };

    /// The entity, named where its uid is.
    fn from(euid: EntityUID) -> EntityUIDEntry {
        let loc = euid.loc().copied();
        EntityUIDEntry::known(euid, loc)
    }
}

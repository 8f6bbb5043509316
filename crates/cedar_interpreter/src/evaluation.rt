//! What an evaluation is given: variables, store, slots, extensions, values for unknowns, and the resolution.
ghost use Rattle.std.specs.Prelude.{◌≡◌};
ghost use Rattle.cedar_values.specs.Residuals.{partial_view};
ghost use Rattle.cedar_layers.specs.Stores.{store_view};
ghost use Rattle.cedar_interpreter.specs.Known.{IsKnownOf, IsKnownOf-prop};
ghost use Rattle.cedar_interpreter.specs.declared.evaluation.Resolution.TheVariants as resolutions;

use crate::at_hand::KnownEntities;
use cedar_extensions::Extensions;
use cedar_layers::expressions::SlotEnv;
use cedar_layers::policies::Entities;
use cedar_names::Var;
use cedar_values::{PartialValue, Value};
use std::collections::HashMap;
use std::rc::RcStr;

/// The values of unknowns under their names.
#[derive(Drop)]
pub enum Mapper<'g> {
    /// No unknown has a value.
    Empty,
    /// Those that the map names.
    Values(&'g HashMap<RcStr, Value>),
}

/// What an attribute, a tag, or an extended `has` before its last attribute answers where it reads a stored part that
/// is a residual.
#[derive(Debug, Clone, Copy, PartialEq, Eq)]
pub enum Resolution {
    /// The residual as it is stored; an attribute that is itself an unknown goes through the values of unknowns.
    Shallow,
    /// What the residual is evaluated to, with the values of unknowns, one level below what reads it. Extended `has`
    /// walks on from a value, and a residual keeps the attributes after it.
    Deep,
}

/// `Shallow`.
impl Default for Resolution {
    fn default() -> Resolution
        ensures { result ≡ resolutions.Shallow }
    {
        Resolution::Shallow
    }
}

/// What all evaluations for a request are given: what its variables stand for, a store, extensions, and values for
/// unknowns.
#[derive(Drop)]
pub struct Given<'g, 'f> {
    /// What `principal` stands for.
    pub principal: PartialValue,
    /// What `action` stands for.
    pub action: PartialValue,
    /// What `resource` stands for.
    pub resource: PartialValue,
    /// What `context` stands for.
    pub context: PartialValue,
    /// The store.
    pub entities: &'g Entities,
    /// The extensions.
    pub extensions: &'g Extensions<'f>,
    /// The values of unknowns.
    pub mapper: Mapper<'g>,
    /// What reading a stored residual answers.
    pub resolution: Resolution,
    /// What the store has of the entities that principal, action and resource stand for; `Known::Nothing` of one that
    /// nobody looked up.
    pub known: KnownEntities<'g>,
    ghost principal_known: { IsKnownOf (store_view entities.now) (partial_view principal)
        known.principal } by { IsKnownOf-prop _ _ _ },
    ghost action_known: { IsKnownOf (store_view entities.now) (partial_view action)
        known.action } by { IsKnownOf-prop _ _ _ },
    ghost resource_known: { IsKnownOf (store_view entities.now) (partial_view resource)
        known.resource } by { IsKnownOf-prop _ _ _ },
}

impl<'g, 'f> Given<'g, 'f> {
    ghost use Rattle.cedar_names.specs.Leaves.{variable_view};
    ghost use Rattle.cedar_interpreter.specs.Settings.{given_for};

    /// What is given for the variable.
    pub fn given_for(&self, var: Var) -> &PartialValue
        ensures { result.now ≡ given_for self.now (variable_view var) }
    {
        match var {
            Var::Principal => &self.principal,
            Var::Action => &self.action,
            Var::Resource => &self.resource,
            Var::Context => &self.context,
        }
    }
}

/// An evaluation of an expression: what it is given, and the entities of slots.
#[derive(Drop)]
pub struct Evaluation<'e, 'g, 'f> {
    /// What it is given.
    pub given: &'e Given<'g, 'f>,
    /// The entities of slots.
    pub slots: &'e SlotEnv,
}

//! Variables that are known, and what is read of the entities that they stand for, without a turn of the loop.
ghost use Rattle.std.specs.Prelude.{◌≡◌, Some, is_some, IfSome};
ghost use Rattle.std.specs.Rc.{rc_str_bytes};
ghost use Rattle.cedar_model.specs.Terms as Terms;
ghost use Rattle.cedar_model.specs.Failures.{value};
ghost use Rattle.cedar_model.specs.Settings.{part_at};
ghost use Rattle.cedar_names.specs.Leaves.{variable_view};
ghost use Rattle.cedar_values.specs.Residuals.{partial_view};
ghost use Rattle.cedar_layers.specs.Stores.{entity_view};
ghost use Rattle.cedar_interpreter.specs.Direct.{HasDirectValue};

use crate::at_hand::Known;
use crate::direct::answered_value;
use crate::evaluation::Evaluation;
use cedar_layers::policies::Entity;
use cedar_names::Var;
use cedar_operators::attributes::{attribute_of, has_attribute};
use cedar_operators::typed::bool_value;
use cedar_values::{PartialValue, Value};
use std::alloc::Global;
use std::rc::RcStr;

impl<'e, 'g, 'f> Evaluation<'e, 'g, 'f> {
    // The value of the variable, if it is known.
    pub(crate) fn value_of_variable(&self, var: Var) -> Option<Value>
        ensures { HasDirectValue self.now 1 (Terms.variable (variable_view var)) result }
    {
        value_of_part(self.given.given_for(var))
    }

    // The value of an attribute of a variable, if the variable is known and has it: that of a known entity is read at
    // once.
    pub(crate) fn attribute_of_variable(
        &self,
        alloc: Global,
        var: Var,
        attr: &RcStr,
    ) -> Option<Value>
        ensures { HasDirectValue self.now 2
            (Terms.get_attribute (Terms.variable (variable_view var)) (rc_str_bytes attr.now)) result }
    {
        match self.given.known.known_for(var) {
            Known::Stored(entity) => stored_value(entity, attr),
            Known::Lacking => None,
            Known::Nothing => self.attribute_looked_up(alloc, var, attr),
        }
    }

    // The same of what is no known entity.
    fn attribute_looked_up(&self, alloc: Global, var: Var, attr: &RcStr) -> Option<Value>
        ensures { HasDirectValue self.now 2
            (Terms.get_attribute (Terms.variable (variable_view var)) (rc_str_bytes attr.now)) result }
    {
        match self.given.given_for(var) {
            PartialValue::Value(value) => {
                answered_value(attribute_of(alloc, self.given.entities, value, attr, None))
            }
            PartialValue::Residual(_) => None,
        }
    }

    // Whether a variable has an attribute, if the variable is known: of a known entity that is read at once.
    pub(crate) fn variable_has(&self, alloc: Global, var: Var, attr: &RcStr) -> Option<Value>
        ensures { HasDirectValue self.now 2
            (Terms.has_attribute (Terms.variable (variable_view var)) (rc_str_bytes attr.now)) result }
    {
        match self.given.known.known_for(var) {
            Known::Stored(entity) => Some(bool_value(is_stored(entity, attr))),
            Known::Lacking => Some(bool_value(false)),
            Known::Nothing => self.has_looked_up(alloc, var, attr),
        }
    }

    // The same of what is no known entity.
    fn has_looked_up(&self, alloc: Global, var: Var, attr: &RcStr) -> Option<Value>
        ensures { HasDirectValue self.now 2
            (Terms.has_attribute (Terms.variable (variable_view var)) (rc_str_bytes attr.now)) result }
    {
        match self.given.given_for(var) {
            PartialValue::Value(value) => {
                answered_value(has_attribute(alloc, self.given.entities, value, attr))
            }
            PartialValue::Residual(_) => None,
        }
    }
}

// The value that the attribute is stored as, if it is one.
fn stored_value(entity: &Entity, attr: &RcStr) -> Option<Value>
    ensures { IfSome result (λ v. part_at (rc_str_bytes attr.now) (entity_view entity.now).attributes
        ≡ Some (value v.what)) }
{
    match entity.get(attr) {
        Some(part) => value_of_part(part),
        None => None,
    }
}

// Whether the attribute is stored.
fn is_stored(entity: &Entity, attr: &RcStr) -> bool
    ensures { result ≡ is_some (part_at (rc_str_bytes attr.now) (entity_view entity.now).attributes) }
{
    entity.get(attr).is_some()
}

// The value that the part is, if it is one, unless out of memory.
fn value_of_part(part: &PartialValue) -> Option<Value>
    ensures { IfSome result (λ v. partial_view part.now ≡ value v.what) }
{
    match part {
        PartialValue::Value(value) => match value.clone() {
            Ok(value) => Some(value),
            Err(_) => None,
        },
        PartialValue::Residual(_) => None,
    }
}

//! The stored residual that an operator reads, if it reads one: an attribute, a tag, or an attribute of an extended
//! `has` that is not its last. With deep resolution it is evaluated, and its answer takes the place of what is
//! stored.
ghost use Rattle.std.specs.Prelude.{◌≡◌, option_map, option_copied, IfOk};
ghost use Rattle.std.specs.Rc.{rc_str_bytes};
ghost use Rattle.cedar_model.specs.Settings.{look_up};
ghost use Rattle.cedar_model.specs.Values.{abstract_value};
ghost use Rattle.cedar_model.specs.Outcomes.{entity_of, text_of};
ghost use Rattle.cedar_model.specs.Operators.{attribute_residual, attribute_residual_found, binary_residual};
ghost use Rattle.cedar_model.specs.Operators.{tag_residual_found, tag_residual_of, residual_in, container_of};
ghost use Rattle.cedar_names.specs.Names.{uid_name};
ghost use Rattle.cedar_names.specs.Leaves.{binary_view, texts_view};
ghost use Rattle.cedar_values.specs.Residuals.{residual_term};
ghost use Rattle.cedar_values.specs.Sound.{Placed};
ghost use Rattle.cedar_layers.specs.Parts.{found_part};
ghost use Rattle.cedar_layers.specs.Stores.{store_view};
ghost use Rattle.cedar_operators.specs.StoredResiduals.{residual_of, on_path_of, path_residual_of, path_residual};
ghost use Rattle.cedar_operators.specs.StoredResiduals.{next_in, next_found, value_in};

use crate::attributes::{Container, container_in};
use crate::residuals::path;
use cedar_layers::expressions::{
    BinaryOp, EntityUID, Expr, FirstRest, PartialValue, ResidualExpr, Value,
};
use cedar_layers::policies::Entities;
use cedar_values::{entity_in, text_in};
use std::alloc::{AllocError, Global};
use std::rc::{Rc, RcStr};

/// A stored residual that an extended `has` reads, and the attributes after it.
pub type OnPath = (Rc<Expr>, Rc<FirstRest<RcStr>>);

/// The residual that `value.attr` reads: the attribute of an entity that is there, where it is stored as a residual.
#[tactic(auto, unfolding(cedar_model::specs::Operators::attribute_residual_of))]
pub fn attribute_residual<'s>(
    entities: &'s Entities,
    value: &Value,
    attr: &RcStr,
) -> Option<&'s ResidualExpr>
    ensures { residual_of result ≡ attribute_residual (store_view entities.now) value.now.what (rc_str_bytes attr.now) }
{
    match entity_in(value) {
        Some(uid) => attribute_of_entity(entities, uid, attr),
        None => None,
    }
}

// The attribute of the entity, where it is stored as a residual.
fn attribute_of_entity<'s>(
    entities: &'s Entities,
    uid: &EntityUID,
    attr: &RcStr,
) -> Option<&'s ResidualExpr>
    ensures { residual_of result
        ≡ attribute_residual_found (look_up (store_view entities.now) (uid_name uid.now)) (rc_str_bytes attr.now) }
{
    match entities.get(uid) {
        Some(entity) => residual_in(entity.get(attr)),
        None => None,
    }
}

/// The residual that an operator on two values reads: `a.getTag(b)` of an entity that is there, where the tag is stored
/// as a residual. No other operator reads one.
#[tactic(auto, unfolding(cedar_model::specs::Operators::binary_residual))]
pub fn binary_residual<'s>(
    entities: &'s Entities,
    op: BinaryOp,
    first: &Value,
    second: &Value,
) -> Option<&'s ResidualExpr>
    ensures { residual_of result
        ≡ binary_residual (store_view entities.now) (binary_view op) first.now.what second.now.what }
{
    match op {
        BinaryOp::GetTag => tag_residual(entities, first, second),
        BinaryOp::Eq => None,
        BinaryOp::Less => None,
        BinaryOp::LessEq => None,
        BinaryOp::Add => None,
        BinaryOp::Sub => None,
        BinaryOp::Mul => None,
        BinaryOp::In => None,
        BinaryOp::Contains => None,
        BinaryOp::ContainsAll => None,
        BinaryOp::ContainsAny => None,
        BinaryOp::HasTag => None,
    }
}

// The tag that the second value names of the entity that the first is, where it is stored as a residual.
#[tactic(auto, unfolding(cedar_model::specs::Operators::tag_residual_of))]
fn tag_residual<'s>(
    entities: &'s Entities,
    first: &Value,
    second: &Value,
) -> Option<&'s ResidualExpr>
    ensures { residual_of result ≡ tag_residual_of (store_view entities.now) (entity_of (abstract_value first.now.what))
        (text_of (abstract_value second.now.what)) }
{
    match entity_in(first) {
        Some(uid) => match text_in(second) {
            Some(tag) => tag_of_entity(entities, uid, tag),
            None => None,
        },
        None => None,
    }
}

// The tag of the entity, where it is stored as a residual.
fn tag_of_entity<'s>(
    entities: &'s Entities,
    uid: &EntityUID,
    tag: &RcStr,
) -> Option<&'s ResidualExpr>
    ensures { residual_of result
        ≡ tag_residual_found (look_up (store_view entities.now) (uid_name uid.now)) (rc_str_bytes tag.now) }
{
    match entities.get(uid) {
        Some(entity) => residual_in(entity.get_tag(tag)),
        None => None,
    }
}

// The residual that a stored part is, if it is there and is one.
#[tactic(auto, unfolding(cedar_model::specs::Operators::residual_in))]
fn residual_in(part: Option<&PartialValue>) -> Option<&ResidualExpr>
    ensures { residual_of result ≡ residual_in (found_part (option_copied part.entry)) }
{
    match part {
        Some(stored) => match stored {
            PartialValue::Value(_) => None,
            PartialValue::Residual(residual) => Some(residual),
        },
        None => None,
    }
}

/// The first residual that `value has a.b..` reads, with the attributes after it: an attribute on the way, the last
/// aside, that is stored as a residual. Refuses only if out of memory.
pub fn path_residual(
    alloc: Global,
    entities: &Entities,
    value: &Value,
    attrs: &FirstRest<RcStr>,
) -> Result<Option<OnPath>, AllocError>
    ensures { IfOk result (λ o. path_residual_of o ≡ path_residual (store_view entities.now) value.now.what
        (rc_str_bytes attrs.now.first) (texts_view attrs.now.rest.items)) }
{
    let mut here: &Value = value;
    let mut first: &RcStr = &attrs.first;
    let mut others: &[RcStr] = attrs.rest.as_slice();
    'steps: while let Some((second, rest)) = others.split_first() {
        match attribute_residual(entities, here, first) {
            Some(residual) => return Ok(Some(on_path(alloc, residual, second, rest)?)),
            None => match next_value(entities, here, first) {
                Some(next) => {
                    here = next;
                    first = second;
                    others = rest;
                }
                None => return Ok(None),
            },
        }
    }
    Ok(None)
}

// The residual, and the attributes after it.
fn on_path(
    alloc: Global,
    residual: &ResidualExpr,
    first: &RcStr,
    others: &[RcStr],
) -> Result<OnPath, AllocError>
    ensures { IfOk result (λ p. on_path_of p
        ≡ (residual_term residual.now, rc_str_bytes first.now, texts_view others.now)) }
{
    let part = Rc::new(alloc, residual.as_expr().clone()?)?;
    let attrs = Rc::new(alloc, path(alloc, first, others)?)?;
    Ok((part, attrs))
}

// The value that the attribute leads to, if it leads to one.
#[tactic(auto, unfolding(crate::specs::StoredResiduals::next_in))]
fn next_value<'v>(entities: &'v Entities, value: &'v Value, attr: &RcStr) -> Option<&'v Value>
    ensures { option_map (λ (v : Placed). v.what) (option_copied result)
        ≡ next_in (store_view entities.now) (container_of value.now.what) (rc_str_bytes attr.now) }
{
    match container_in(value) {
        Container::Record(pairs) => pairs.get(attr),
        Container::Entity(uid) => next_of_entity(entities, uid, attr),
        Container::Neither => None,
    }
}

// The value that the attribute of the entity is, if it is there and is one.
fn next_of_entity<'v>(entities: &'v Entities, uid: &EntityUID, attr: &RcStr) -> Option<&'v Value>
    ensures { option_map (λ (v : Placed). v.what) (option_copied result)
        ≡ next_found (look_up (store_view entities.now) (uid_name uid.now)) (rc_str_bytes attr.now) }
{
    match entities.get(uid) {
        Some(entity) => value_in(entity.get(attr)),
        None => None,
    }
}

// The value that a stored part is, if it is there and is one.
#[tactic(auto, unfolding(crate::specs::StoredResiduals::value_in))]
fn value_in(part: Option<&PartialValue>) -> Option<&Value>
    ensures { option_map (λ (v : Placed). v.what) (option_copied result)
        ≡ value_in (found_part (option_copied part.entry)) }
{
    match part {
        Some(stored) => match stored {
            PartialValue::Value(value) => Some(value),
            PartialValue::Residual(_) => None,
        },
        None => None,
    }
}

//! Operators that ask the store: `in`, `getTag` and `hasTag`. Where a partial store lacks the entity, the answer is the
//! operator around the unknown that stands for it; a stored residual is answered as it is stored.
ghost use Rattle.std.specs.Prelude.{◌≡◌, option_map, option_copied};
ghost use Rattle.std.specs.Rc.{rc_str_bytes};
ghost use Rattle.cedar_model.specs.Terms.{binary, literal, text_literal};
ghost use Rattle.cedar_model.specs.Terms.{in_operator, get_tag_operator, has_tag_operator};
ghost use Rattle.cedar_model.specs.Values.{abstract_values, set_value, expression_of};
ghost use Rattle.cedar_model.specs.Failures.{answers_residual, entity_is_missing};
ghost use Rattle.cedar_model.specs.Settings.{Setting, look_up, found};
ghost use Rattle.cedar_model.specs.Operators.{binary_answer, in_answer, in_found, tag_found, has_tag_found};
ghost use Rattle.cedar_names.specs.Names.{uid_name};
ghost use Rattle.cedar_names.specs.Leaves.{binary_view};
ghost use Rattle.cedar_expressions.specs.Readers.{unknown_term};
ghost use Rattle.cedar_layers.specs.Stores.{store_view, entity_view};
ghost use Rattle.cedar_errors.specs.Answers.{Answers, AnswersWith, FailsWith};
ghost use Rattle.cedar_operators.specs.Operands.{over, is_within, element_answer, right_answer, right_expected};

use crate::failures::or_entity_expected;
use crate::missing::no_such_tag;
use crate::residuals::binary_of_unknown;
use crate::typed::{as_part, bool_part, bool_value, get_as_entity, get_as_string};
use cedar_errors::evaluator::err::{EvaluationError, evaluation_errors};
use cedar_layers::expressions::{
    BinaryOp, EntityUID, Expr, Literal, Loc, PartialValue, Set, Type, Unknown, Value, ValueKind,
};
use cedar_layers::policies::{Dereference, Entities, Entity};
use evaluation_errors::EntityDoesNotExistError;
use std::alloc::Global;
use std::rc::{Rc, RcStr};

/// `a in b`: whether the entity equals an entity on the right, or has it among its ancestors in the store; where a
/// partial store lacks it, `u in b` of the unknown `u` that stands for it, whatever stands right. A `TypeError`, at the
/// value's location, where the left is no entity, where the right is neither an entity nor a set, or for the first
/// element of the set that is no entity. The result is at no location.
#[tactic(auto, unfolding(cedar_model::specs::Operators::expecting))]
pub fn is_in(
    alloc: Global,
    entities: &Entities,
    a: &Value,
    b: &Value,
) -> Result<PartialValue, EvaluationError>
    ensures { AnswersWith result (in_answer (store_view entities.now) a.now.what b.now.what) }
{
    let uid = get_as_entity(alloc, a)?;
    is_in_any(alloc, entities, uid, b)
}

// Whether the entity is in the entity or the set on the right.
#[tactic(auto, unfolding(cedar_model::specs::Operators::in_found))]
fn is_in_any(
    alloc: Global,
    entities: &Entities,
    uid: &EntityUID,
    b: &Value,
) -> Result<PartialValue, EvaluationError>
    ensures { AnswersWith result (in_found (look_up (store_view entities.now) (uid_name uid.now))
        (uid_name uid.now) b.now.what) }
{
    match entities.entity(alloc, uid)? {
        Dereference::NoSuchEntity => as_part(in_right(alloc, uid, None, b)),
        Dereference::Residual(unknown) => missing_in(alloc, unknown, b),
        Dereference::Data(entity) => as_part(in_right(alloc, uid, Some(entity), b)),
    }
}

// `unknown in b`
fn missing_in(alloc: Global, value: Unknown, b: &Value) -> Result<PartialValue, EvaluationError>
    ensures { AnswersWith result (answers_residual (binary in_operator (unknown_term value)
        (expression_of b.now.what))) }
{
    let set = b.to_expr(alloc)?;
    binary_of_unknown(alloc, BinaryOp::In, value, set)
}

// Whether the entity, of which these facts are known, is in the entity or the set on the right.
#[tactic(auto, unfolding(cedar_model::specs::Operators::expecting, cedar_model::specs::Operators::entities_failure, cedar_model::specs::Meaning::entities_of, cedar_model::specs::Meaning::some_entity, cedar_model::specs::Outcomes::elements_of))]
fn in_right(
    alloc: Global,
    uid: &EntityUID,
    entity: Option<&Entity>,
    b: &Value,
) -> Result<Value, EvaluationError>
    ensures { Answers result (right_answer (is_within (uid_name uid.now) (option_map entity_view (option_copied
        entity.entry))) b.now.what) }
{
    match b.value_kind() {
        ValueKind::Lit(literal) => match literal {
            Literal::Bool(_) => Err(or_entity_expected(alloc, Type::Set, b)),
            Literal::Long(_) => Err(or_entity_expected(alloc, Type::Set, b)),
            Literal::String(_) => Err(or_entity_expected(alloc, Type::Set, b)),
            Literal::EntityUID(other) => Ok(bool_value(is_in_one(uid, entity, other))),
        },
        ValueKind::Set(set) => in_set(alloc, uid, entity, set),
        ValueKind::Record(_) => Err(or_entity_expected(alloc, Type::Set, b)),
        ValueKind::ExtensionValue(_) => Err(or_entity_expected(alloc, Type::Set, b)),
    }
}

// Whether the entity is in one of the set's elements, which are entities.
fn in_set(
    alloc: Global,
    uid: &EntityUID,
    entity: Option<&Entity>,
    set: &Set,
) -> Result<Value, EvaluationError>
    ensures { Answers result (element_answer (is_within (uid_name uid.now) (option_map entity_view (option_copied
        entity.entry))) (right_expected (set_value (abstract_values set.now.all))) (abstract_values set.now.all)) }
{
    let mut is_found = false;
    'elements: for element in set.as_slice() {
        match get_as_entity(alloc, element) {
            Ok(other) => {
                is_found = is_found || is_in_one(uid, entity, other);
            }
            Err(error) => return Err(error),
        }
    }
    Ok(bool_value(is_found))
}

// Whether the entity, of which these facts are known, is the other or has it among its ancestors.
fn is_in_one(uid: &EntityUID, entity: Option<&Entity>, other: &EntityUID) -> bool
    ensures { result ≡ is_within (uid_name uid.now) (option_map entity_view (option_copied entity.entry))
        (uid_name other.now) }
{
    match entity {
        Some(entity) => uid == other || entity.is_descendant_of(other),
        None => uid == other,
    }
}

/// `a.getTag(b)`: the entity's tag, as it is stored, at its own location; where a partial store lacks the entity,
/// `u.getTag(b)`, at no location, of the unknown `u` that stands for it. A `TypeError`, at the value's location, where
/// the left is no entity or then the right no text; `EntityDoesNotExist`, at the location of the entity, where a
/// concrete store lacks it; `EntityAttrDoesNotExist`, at the location handed in, where the entity lacks the tag.
#[tactic(auto, unfolding(cedar_model::specs::Operators::binary_answer, cedar_model::specs::Operators::expecting))]
pub fn tag_of(
    alloc: Global,
    entities: &Entities,
    a: &Value,
    b: &Value,
    loc: Option<&Loc>,
) -> Result<PartialValue, EvaluationError>
    ensures { (s : Setting) → AnswersWith result (binary_answer (over s (store_view entities.now)) get_tag_operator
        a.now.what b.now.what) }
{
    let uid = get_as_entity(alloc, a)?;
    let tag = get_as_string(alloc, b)?;
    tag_of_entity(alloc, entities, (uid, a.source_loc()), tag, loc)
}

// The tag of the entity, which is named at a location.
#[tactic(auto, unfolding(cedar_model::specs::Operators::tag_found))]
fn tag_of_entity(
    alloc: Global,
    entities: &Entities,
    named: (&Rc<EntityUID>, Option<&Loc>),
    tag: &RcStr,
    loc: Option<&Loc>,
) -> Result<PartialValue, EvaluationError>
    ensures { AnswersWith result (tag_found (look_up (store_view entities.now) (uid_name named.entry.0.now.value))
        (uid_name named.entry.0.now.value) (rc_str_bytes tag.now)) }
{
    match entities.entity(alloc, named.0)? {
        Dereference::NoSuchEntity => Err(no_such_entity(named.0, named.1)),
        Dereference::Residual(unknown) => missing_tag_operator(
            alloc,
            BinaryOp::GetTag,
            unknown,
            tag,
        ),
        Dereference::Data(entity) => stored_tag(alloc, entity, named.0, tag, loc),
    }
}

// The operator on the unknown and the tag.
fn missing_tag_operator(
    alloc: Global,
    op: BinaryOp,
    value: Unknown,
    tag: &RcStr,
) -> Result<PartialValue, EvaluationError>
    ensures { AnswersWith result (answers_residual (binary (binary_view op) (unknown_term value) (literal (text_literal
        (rc_str_bytes tag.now))))) }
{
    let tag = Expr::val(Literal::String(tag.clone()?));
    binary_of_unknown(alloc, op, value, tag)
}

// The tag as it is stored.
#[tactic(auto, unfolding(cedar_model::specs::Operators::tag_found, cedar_model::specs::Operators::stored_tag))]
fn stored_tag(
    alloc: Global,
    entity: &Entity,
    uid: &Rc<EntityUID>,
    tag: &RcStr,
    loc: Option<&Loc>,
) -> Result<PartialValue, EvaluationError>
    ensures { AnswersWith result (tag_found (found (entity_view entity.now)) (uid_name uid.now.value)
        (rc_str_bytes tag.now)) }
{
    match entity.get_tag(tag) {
        Some(part) => Ok(part.clone()?),
        None => Err(no_such_tag(alloc, entity, uid, tag, loc)),
    }
}

/// `a.hasTag(b)`: whether the entity has the tag; one that a concrete store lacks has none, and where a partial store
/// lacks it the answer is `u.hasTag(b)` of the unknown `u` that stands for it. A `TypeError`, at the value's location,
/// where the left is no entity or then the right no text. The result is at no location.
#[tactic(auto, unfolding(cedar_model::specs::Operators::binary_answer, cedar_model::specs::Operators::expecting))]
pub fn has_tag(
    alloc: Global,
    entities: &Entities,
    a: &Value,
    b: &Value,
) -> Result<PartialValue, EvaluationError>
    ensures { (s : Setting) → AnswersWith result (binary_answer (over s (store_view entities.now)) has_tag_operator
        a.now.what b.now.what) }
{
    let uid = get_as_entity(alloc, a)?;
    let tag = get_as_string(alloc, b)?;
    entity_has_tag(alloc, entities, uid, tag)
}

// Whether the entity has the tag.
#[tactic(auto, unfolding(cedar_model::specs::Operators::has_tag_found))]
fn entity_has_tag(
    alloc: Global,
    entities: &Entities,
    uid: &EntityUID,
    tag: &RcStr,
) -> Result<PartialValue, EvaluationError>
    ensures { AnswersWith result (has_tag_found (look_up (store_view entities.now) (uid_name uid.now))
        (uid_name uid.now) (rc_str_bytes tag.now)) }
{
    match entities.entity(alloc, uid)? {
        Dereference::NoSuchEntity => Ok(bool_part(false)),
        Dereference::Residual(unknown) => missing_tag_operator(
            alloc,
            BinaryOp::HasTag,
            unknown,
            tag,
        ),
        Dereference::Data(entity) => Ok(bool_part(entity.get_tag(tag).is_some())),
    }
}

// The error that there is no such entity, at this location.
#[cold]
#[inline(never)]
pub(crate) fn no_such_entity(uid: &Rc<EntityUID>, loc: Option<&Loc>) -> EvaluationError
    ensures { FailsWith result (entity_is_missing (uid_name uid.now.value)) }
{
    match uid.clone() {
        Ok(uid) => EvaluationError::EntityDoesNotExist(EntityDoesNotExistError {
            uid,
            source_loc: loc.copied(),
        }),
        Err(error) => EvaluationError::Memory(error),
    }
}

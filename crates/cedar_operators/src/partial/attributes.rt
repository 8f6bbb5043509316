//! Attributes of parts: reading one, whether there is one, and extended `has`.
ghost use Rattle.std.specs.Prelude.{◌≡◌, is_some};
ghost use Rattle.std.specs.Rc.{rc_str_bytes};
ghost use Rattle.cedar_model.specs.Terms.{extended_has};
ghost use Rattle.cedar_model.specs.Failures.{answers, answers_residual};
ghost use Rattle.cedar_model.specs.Settings.{Setting};
ghost use Rattle.cedar_model.specs.Shapes.{is_projectable};
ghost use Rattle.cedar_model.specs.Operators.{path_answer, term_at};
ghost use Rattle.cedar_model.specs.Rules.{on_part, has_part, has_in_fields, fields_of_record};
ghost use Rattle.cedar_names.specs.Leaves.{texts_view};
ghost use Rattle.cedar_expressions.specs.View.{view, fields_view};
ghost use Rattle.cedar_values.specs.Residuals.{partial_view, residual_term};
ghost use Rattle.cedar_layers.specs.Stores.{store_view};
ghost use Rattle.cedar_errors.specs.Answers.{AnswersWith};
ghost use Rattle.cedar_operators.specs.Operands.{over};
ghost use Rattle.cedar_operators.specs.Parts.{ProjectsTo, projection, projection_at, interpreted_again};

use super::shapes::fields_in;
use crate::attributes::{attribute_of, has_attribute, has_path};
use crate::missing::no_such_key;
use crate::residuals::{path, residual_attribute, residual_has, residual_path};
use crate::typed::bool_part;
use cedar_errors::evaluator::err::EvaluationError;
use cedar_layers::expressions::{Expr, FirstRest, Loc, PartialValue, ResidualExpr};
use cedar_layers::policies::Entities;
use std::alloc::Global;
use std::collections::BTreeMap;
use std::rc::RcStr;

/// What an attribute of a part comes to.
#[derive(Drop)]
pub enum Projected {
    /// An answer.
    Answer(Result<PartialValue, EvaluationError>),
    /// A part of a record, which is to be interpreted again.
    Attribute(Expr),
}

/// `part.attr`: of a value as `attribute_of` answers. Of a residual that is a projectable record the part at this
/// key, which is to be interpreted again; of a residual that is another record, or none, `.attr` around it, at no
/// location. A record that lacks the key is a `RecordAttrDoesNotExist` at the location handed in.
#[tactic(auto, unfolding(crate::specs::Parts::projection))]
pub fn attribute_of_part(
    alloc: Global,
    entities: &Entities,
    part: PartialValue,
    attr: &RcStr,
    loc: Option<&Loc>,
) -> Projected
    ensures { (s : Setting) → ProjectsTo result (projection (over s (store_view entities.now)) (partial_view part)
        (rc_str_bytes attr.now)) }
{
    match part {
        PartialValue::Value(value) => {
            let answer = attribute_of(alloc, entities, &value, attr, loc);
            drop(value);
            Projected::Answer(answer)
        }
        PartialValue::Residual(residual) => attribute_of_residual(alloc, residual, attr, loc),
    }
}

// `residual.attr`
#[tactic(auto, unfolding(crate::specs::Parts::projection_at, crate::specs::Parts::projected))]
fn attribute_of_residual(
    alloc: Global,
    residual: ResidualExpr,
    attr: &RcStr,
    loc: Option<&Loc>,
) -> Projected
    ensures { ProjectsTo result (projection_at (fields_of_record (residual_term residual)) (residual_term residual)
        (rc_str_bytes attr.now)) }
{
    match fields_in(residual.as_expr()) {
        Some(pairs) => match pairs.get(attr) {
            Some(part) => {
                if residual.as_expr().is_projectable() {
                    let projected = again(part);
                    drop(residual);
                    projected
                } else {
                    Projected::Answer(residual_attribute(alloc, residual, attr))
                }
            }
            None => {
                let error = no_such_key(alloc, pairs, attr, loc);
                drop(residual);
                Projected::Answer(Err(error))
            }
        },
        None => Projected::Answer(residual_attribute(alloc, residual, attr)),
    }
}

// The part of a record, to be interpreted again.
fn again(part: &Expr) -> Projected
    ensures { ProjectsTo result (interpreted_again (view part.now)) }
{
    match part.clone() {
        Ok(part) => Projected::Attribute(part),
        Err(error) => Projected::Answer(Err(EvaluationError::Memory(error))),
    }
}

/// `part has attr`: of a value as `has_attribute` answers; of a residual that is a projectable record whether it has
/// the key; of another residual `has` around it. A result that is made here is at no location.
#[tactic(auto, unfolding(cedar_model::specs::Rules::has_part))]
pub fn has_of_part(
    alloc: Global,
    entities: &Entities,
    part: PartialValue,
    attr: &RcStr,
) -> Result<PartialValue, EvaluationError>
    ensures { (s : Setting) → AnswersWith result (has_part (over s (store_view entities.now)) (rc_str_bytes attr.now)
        (answers (partial_view part))) }
{
    match part {
        PartialValue::Value(value) => {
            let answer = has_attribute(alloc, entities, &value, attr);
            drop(value);
            answer
        }
        PartialValue::Residual(residual) => has_of_residual(alloc, residual, attr),
    }
}

// `residual has attr`
#[tactic(auto, unfolding(cedar_model::specs::Rules::has_in_fields))]
fn has_of_residual(
    alloc: Global,
    residual: ResidualExpr,
    attr: &RcStr,
) -> Result<PartialValue, EvaluationError>
    ensures { AnswersWith result (has_in_fields (fields_of_record (residual_term residual)) (is_projectable
        (residual_term residual)) (residual_term residual) (rc_str_bytes attr.now)) }
{
    match fields_in(residual.as_expr()) {
        Some(pairs) => {
            if residual.as_expr().is_projectable() {
                let has = has_field(pairs, attr);
                drop(residual);
                Ok(bool_part(has))
            } else {
                residual_has(alloc, residual, attr)
            }
        }
        None => residual_has(alloc, residual, attr),
    }
}

// Whether the key is there.
fn has_field(pairs: &BTreeMap<RcStr, Expr>, attr: &RcStr) -> bool
    ensures { result ≡ is_some (term_at (rc_str_bytes attr.now) (fields_view pairs.now.entries)) }
{
    pairs.get(attr).is_some()
}

/// `part has a.b..`: of a value as `has_path` answers; of a residual the same `has` around it, at no location.
#[tactic(auto, unfolding(cedar_model::specs::Rules::on_part))]
pub fn extended_has_of_part(
    alloc: Global,
    entities: &Entities,
    part: PartialValue,
    attrs: &FirstRest<RcStr>,
) -> Result<PartialValue, EvaluationError>
    ensures { AnswersWith result (on_part (λ v. path_answer (store_view entities.now) v
        (rc_str_bytes attrs.now.first) (texts_view attrs.now.rest.items)) (λ r. extended_has r
        (rc_str_bytes attrs.now.first) (texts_view attrs.now.rest.items)) (answers (partial_view part))) }
{
    match part {
        PartialValue::Value(value) => {
            let answer = has_path(alloc, entities, &value, attrs);
            drop(value);
            answer
        }
        PartialValue::Residual(residual) => path_of_residual(alloc, residual, attrs),
    }
}

// `residual has a.b..`
fn path_of_residual(
    alloc: Global,
    residual: ResidualExpr,
    attrs: &FirstRest<RcStr>,
) -> Result<PartialValue, EvaluationError>
    ensures { AnswersWith result (answers_residual (extended_has (residual_term residual)
        (rc_str_bytes attrs.now.first) (texts_view attrs.now.rest.items))) }
{
    match path(alloc, &attrs.first, attrs.rest.as_slice()) {
        Ok(attrs) => residual_path(alloc, residual, attrs),
        Err(error) => {
            drop(residual);
            Err(EvaluationError::Memory(error))
        }
    }
}

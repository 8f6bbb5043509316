//! Operators on two values.
ghost use Rattle.std.specs.Prelude.{◌≡◌, false};
ghost use Rattle.cedar_model.specs.Settings.{Setting};
ghost use Rattle.cedar_model.specs.Operators.{binary_answer};
ghost use Rattle.cedar_names.specs.Leaves.{binary_view};
ghost use Rattle.cedar_layers.specs.Stores.{store_view};
ghost use Rattle.cedar_errors.specs.Answers.{AnswersWith};
ghost use Rattle.cedar_extensions.specs.Extensions.{extensions_view};
ghost use Rattle.cedar_operators.specs.Operands.{given, is_arithmetic};

use crate::operators::{binary_arith, binary_relation};
use crate::sets::{contains, contains_all, contains_any};
use crate::store::{has_tag, is_in, tag_of};
use crate::typed::as_part;
use cedar_errors::evaluator::err::EvaluationError;
use cedar_extensions::Extensions;
use cedar_layers::expressions::{BinaryOp, Loc, PartialValue, Value};
use cedar_layers::policies::Entities;
use std::alloc::Global;

/// An operator on two values, over this store and with these extensions: what `binary_relation`, `binary_arith`,
/// `contains`, `contains_all`, `contains_any`, `is_in`, `tag_of` or `has_tag` answers.
#[tactic(auto, unfolding(cedar_model::specs::Operators::binary_answer))]
pub fn binary_app(
    alloc: Global,
    entities: &Entities,
    extensions: &Extensions<'_>,
    op: BinaryOp,
    first: Value,
    second: Value,
    loc: Option<&Loc>,
) -> Result<PartialValue, EvaluationError>
    ensures { (s : Setting) → AnswersWith result (binary_answer (given s (store_view entities.now)
        (extensions_view extensions.now)) (binary_view op) first.what second.what) }
{
    match op {
        BinaryOp::Add => as_part(binary_arith(alloc, op, first, second, loc)),
        BinaryOp::Sub => as_part(binary_arith(alloc, op, first, second, loc)),
        BinaryOp::Mul => as_part(binary_arith(alloc, op, first, second, loc)),
        BinaryOp::Eq
        | BinaryOp::Less
        | BinaryOp::LessEq
        | BinaryOp::In
        | BinaryOp::Contains
        | BinaryOp::ContainsAll
        | BinaryOp::ContainsAny
        | BinaryOp::GetTag
        | BinaryOp::HasTag => {
            let answer = other_binary_app(alloc, entities, extensions, op, &first, &second, loc);
            drop((first, second));
            answer
        }
    }
}

// The same of an operator that is no arithmetic, of values that are lent.
#[tactic(auto, unfolding(cedar_model::specs::Operators::binary_answer))]
fn other_binary_app(
    alloc: Global,
    entities: &Entities,
    extensions: &Extensions<'_>,
    op: BinaryOp,
    first: &Value,
    second: &Value,
    loc: Option<&Loc>,
) -> Result<PartialValue, EvaluationError>
    requires { is_arithmetic (binary_view op) ≡ false }
    ensures { (s : Setting) → AnswersWith result (binary_answer (given s (store_view entities.now)
        (extensions_view extensions.now)) (binary_view op) first.now.what second.now.what) }
{
    match op {
        BinaryOp::Eq => as_part(binary_relation(alloc, op, first, second, extensions)),
        BinaryOp::Less => as_part(binary_relation(alloc, op, first, second, extensions)),
        BinaryOp::LessEq => as_part(binary_relation(alloc, op, first, second, extensions)),
        BinaryOp::In => is_in(alloc, entities, first, second),
        BinaryOp::Contains => as_part(contains(alloc, first, second)),
        BinaryOp::ContainsAll => as_part(contains_all(alloc, first, second)),
        BinaryOp::ContainsAny => as_part(contains_any(alloc, first, second)),
        BinaryOp::GetTag => tag_of(alloc, entities, first, second, loc),
        BinaryOp::HasTag => has_tag(alloc, entities, first, second),
        BinaryOp::Add => unreachable!(),
        BinaryOp::Sub => unreachable!(),
        BinaryOp::Mul => unreachable!(),
    }
}

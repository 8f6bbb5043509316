//! Operators on one value, and the relations and the arithmetic of two.
ghost use Rattle.std.specs.Prelude.{◌≡◌, true, IfSome};
ghost use Rattle.cedar_model.specs.Terms.{not_operator, is_empty_operator};
ghost use Rattle.cedar_model.specs.Failures.{answers_value};
ghost use Rattle.cedar_model.specs.Settings.{Setting};
ghost use Rattle.cedar_model.specs.Operators.{unary_answer, binary_answer, like_answer, is_answer};
ghost use Rattle.cedar_names.specs.Names.{type_text};
ghost use Rattle.cedar_names.specs.Leaves.{unary_view, binary_view, pattern_view};
ghost use Rattle.cedar_errors.specs.Answers.{Answers};
ghost use Rattle.cedar_extensions.specs.Extensions.{extensions_view};
ghost use Rattle.cedar_operators.specs.Operands.{with_extensions, is_relation, is_arithmetic};

use crate::numbers::{arithmetic, negate_long, of_two_longs};
use crate::order::order;
use crate::typed::{bool_value, get_as_bool, get_as_entity, get_as_set, get_as_string, long_in};
use cedar_errors::evaluator::err::EvaluationError;
use cedar_extensions::Extensions;
use cedar_layers::expressions::{BinaryOp, EntityType, Loc, Pattern, UnaryOp, Value};
use std::alloc::Global;

/// An operator on one value: `!` of a boolean, `-` of a long, `isEmpty` of a set. A value of another type is a
/// `TypeError` at the value's location; a negated long that needs more than 64 bits is an `IntegerOverflow` with its
/// operand, at the location handed in. The result is at no known location.
pub fn unary_app(
    alloc: Global,
    op: UnaryOp,
    arg: Value,
    loc: Option<&Loc>,
) -> Result<Value, EvaluationError>
    ensures { Answers result (unary_answer (unary_view op) arg.what) }
{
    match op {
        UnaryOp::Not => negation(alloc, &arg),
        UnaryOp::Neg => negate_long(alloc, arg, loc),
        UnaryOp::IsEmpty => emptiness(alloc, &arg),
    }
}

/// A relation of two values, as its caller hands `Eq`, `Less` or `LessEq`: `==` of any two, `<` and `<=` of two longs,
/// or of two extension values of one type that the extensions overload, by their keys. Others are a `TypeError`: where
/// one side is a long, of the other side, which is expected to be a long; else where one, the left first, is of an
/// overloaded type, of the other side, which is expected to be of that type; else of the left, which is expected to be
/// a long or of one of the overloaded types, in their order. The result is at no known location.
#[tactic(auto, unfolding(cedar_model::specs::Operators::binary_answer, cedar_model::specs::Operators::expecting))]
pub fn binary_relation(
    alloc: Global,
    op: BinaryOp,
    a: &Value,
    b: &Value,
    extensions: &Extensions<'_>,
) -> Result<Value, EvaluationError>
    requires { is_relation (binary_view op) ≡ true }
    ensures { (s : Setting) → Answers result (binary_answer (with_extensions s (extensions_view extensions.now))
        (binary_view op) a.now.what b.now.what) }
{
    match op {
        BinaryOp::Eq => Ok(bool_value(a == b)),
        BinaryOp::Less => Ok(bool_value(order(alloc, a, b, extensions)?.is_lt())),
        BinaryOp::LessEq => Ok(bool_value(order(alloc, a, b, extensions)?.is_le())),
        BinaryOp::Add => unreachable!(),
        BinaryOp::Sub => unreachable!(),
        BinaryOp::Mul => unreachable!(),
        BinaryOp::In => unreachable!(),
        BinaryOp::Contains => unreachable!(),
        BinaryOp::ContainsAll => unreachable!(),
        BinaryOp::ContainsAny => unreachable!(),
        BinaryOp::GetTag => unreachable!(),
        BinaryOp::HasTag => unreachable!(),
    }
}

/// Arithmetic of two values, as its caller hands `Add`, `Sub` or `Mul`. An operand, the left first, that is no long is
/// a `TypeError` at the operand's location; a result that needs more than 64 bits is an `IntegerOverflow` with both
/// operands, at the location handed in. The result is at no known location.
#[tactic(auto, using(crate::proofs::Longs::arithmetic_is_operation))]
pub fn binary_arith(
    alloc: Global,
    op: BinaryOp,
    a: Value,
    b: Value,
    loc: Option<&Loc>,
) -> Result<Value, EvaluationError>
    requires { is_arithmetic (binary_view op) ≡ true }
    ensures { (s : Setting) → Answers result (binary_answer s (binary_view op) a.what b.what) }
{
    arithmetic(alloc, op, a, b, loc)
}

/// What `==`, `<`, `<=`, `+`, `-` or `*` of two longs answers, at no known location, without a look at their types'
/// other rules. There is none for another operator, where a value is no long, and where the result needs more than 64
/// bits.
pub fn of_longs(op: BinaryOp, a: &Value, b: &Value) -> Option<Value>
    ensures { (s : Setting) → IfSome result (λ v. answers_value v.what ≡ binary_answer s (binary_view op) a.now.what
        b.now.what) }
{
    match long_in(a) {
        Some(m) => match long_in(b) {
            Some(n) => of_two_longs(op, m, n),
            None => None,
        },
        None => None,
    }
}

/// `value like pattern`: whether the text is one of the pattern's. A type error where it is no text.
#[tactic(auto, unfolding(cedar_model::specs::Operators::expecting))]
pub fn likeness(alloc: Global, value: &Value, pattern: &Pattern) -> Result<Value, EvaluationError>
    ensures { Answers result (like_answer (pattern_view pattern.now) value.now.what) }
{
    let text = get_as_string(alloc, value)?;
    Ok(bool_value(pattern.wildcard_match(text)))
}

/// `value is entity_type`: whether the entity is of the type. A type error where it is no entity.
#[tactic(auto, unfolding(cedar_model::specs::Operators::expecting))]
pub fn is_of_type(
    alloc: Global,
    value: &Value,
    entity_type: &EntityType,
) -> Result<Value, EvaluationError>
    ensures { Answers result (is_answer (type_text entity_type.now) value.now.what) }
{
    let uid = get_as_entity(alloc, value)?;
    Ok(bool_value(uid.entity_type() == entity_type))
}

// `!arg`
#[tactic(auto, unfolding(cedar_model::specs::Operators::unary_answer, cedar_model::specs::Operators::expecting))]
fn negation(alloc: Global, arg: &Value) -> Result<Value, EvaluationError>
    ensures { Answers result (unary_answer not_operator arg.now.what) }
{
    let b = get_as_bool(alloc, arg)?;
    Ok(bool_value(!b))
}

// `arg.isEmpty()`
#[tactic(auto, unfolding(cedar_model::specs::Operators::unary_answer, cedar_model::specs::Operators::expecting))]
fn emptiness(alloc: Global, arg: &Value) -> Result<Value, EvaluationError>
    ensures { Answers result (unary_answer is_empty_operator arg.now.what) }
{
    let set = get_as_set(alloc, arg)?;
    Ok(bool_value(set.is_empty()))
}

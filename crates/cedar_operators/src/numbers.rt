//! Longs: arithmetic within 64 bits.
ghost use Rattle.std.specs.Prelude.{◌≡◌, true, Some, IfSome, FitsSigned};
ghost use Rattle.std.specs.Int.{w64};
ghost use Rattle.std.specs.Option.{SomeIff};
ghost use Rattle.cedar_model.specs.Terms.{neg_operator};
ghost use Rattle.cedar_model.specs.Values.{Represented, abstract_value};
ghost use Rattle.cedar_model.specs.Outcomes.{long_of};
ghost use Rattle.cedar_model.specs.Failures as Failures;
ghost use Rattle.cedar_model.specs.Settings.{Setting};
ghost use Rattle.cedar_model.specs.Operators.{arithmetic_answer, unary_answer, binary_answer};
ghost use Rattle.cedar_names.specs.Leaves.{binary_view};
ghost use Rattle.cedar_errors.specs.Failures.{failure_of};
ghost use Rattle.cedar_errors.specs.Answers.{Answers};
ghost use Rattle.cedar_operators.specs.Operands.{is_arithmetic, arithmetic_of};

use crate::typed::{bool_value, get_as_long, long_value};
use cedar_errors::evaluator::err::{EvaluationError, evaluation_errors};
use cedar_layers::expressions::{BinaryOp, Loc, UnaryOp, Value};
use evaluation_errors::{BinaryOpOverflowError, IntegerOverflowError, UnaryOpOverflowError};
use std::alloc::Global;

// `-arg`: a type error where it is no long, an overflow at this location where the result needs more than 64 bits.
#[tactic(auto, unfolding(cedar_model::specs::Operators::unary_answer, cedar_model::specs::Operators::expecting))]
pub(crate) fn negate_long(
    alloc: Global,
    arg: Value,
    loc: Option<&Loc>,
) -> Result<Value, EvaluationError>
    ensures { Answers result (unary_answer neg_operator arg.what) }
{
    match get_as_long(alloc, &arg) {
        Ok(n) => match n.checked_neg() {
            Some(m) => {
                drop(arg);
                Ok(long_value(m))
            }
            None => Err(unary_overflow(arg, loc)),
        },
        Err(error) => {
            drop(arg);
            Err(error)
        }
    }
}

// `a + b`, `a - b` or `a * b`: a type error where one, the left first, is no long, an overflow at this location where
// the result needs more than 64 bits.
#[tactic(auto, unfolding(cedar_model::specs::Operators::expecting))]
pub(crate) fn arithmetic(
    alloc: Global,
    op: BinaryOp,
    a: Value,
    b: Value,
    loc: Option<&Loc>,
) -> Result<Value, EvaluationError>
    requires { is_arithmetic (binary_view op) ≡ true }
    ensures { Answers result (arithmetic_answer (binary_view op) (arithmetic_of (binary_view op)) a.what b.what) }
{
    match get_as_long(alloc, &a) {
        Ok(m) => match get_as_long(alloc, &b) {
            Ok(n) => match compute_checked(op, m, n) {
                Some(k) => {
                    drop((a, b));
                    Ok(long_value(k))
                }
                None => Err(overflow(op, a, b, loc)),
            },
            Err(error) => {
                drop((a, b));
                Err(error)
            }
        },
        Err(error) => {
            drop((a, b));
            Err(error)
        }
    }
}

// A relation or arithmetic of two longs: nothing of another operator, and where the result needs more than 64 bits.
pub(crate) fn of_two_longs(op: BinaryOp, m: i64, n: i64) -> Option<Value>
    ensures { (s : Setting) (v w : Represented)
        → long_of (abstract_value v) ≡ Some m → long_of (abstract_value w) ≡ Some n →
        IfSome result (λ x. Failures.answers_value x.what ≡ binary_answer s (binary_view op) v w) }
{
    match op {
        BinaryOp::Eq => Some(bool_value(m.cmp(&n).is_eq())),
        BinaryOp::Less => Some(bool_value(m.cmp(&n).is_lt())),
        BinaryOp::LessEq => Some(bool_value(m.cmp(&n).is_le())),
        BinaryOp::Add => compute_longs(op, m, n),
        BinaryOp::Sub => compute_longs(op, m, n),
        BinaryOp::Mul => compute_longs(op, m, n),
        BinaryOp::In => None,
        BinaryOp::Contains => None,
        BinaryOp::ContainsAll => None,
        BinaryOp::ContainsAny => None,
        BinaryOp::GetTag => None,
        BinaryOp::HasTag => None,
    }
}

// Arithmetic of two longs, where the result fits 64 bits.
fn compute_longs(op: BinaryOp, m: i64, n: i64) -> Option<Value>
    requires { is_arithmetic (binary_view op) ≡ true }
    ensures { (s : Setting) (v w : Represented)
        → long_of (abstract_value v) ≡ Some m → long_of (abstract_value w) ≡ Some n →
        IfSome result (λ x. Failures.answers_value x.what ≡ binary_answer s (binary_view op) v w) }
{
    match compute_checked(op, m, n) {
        Some(k) => Some(long_value(k)),
        None => None,
    }
}

// The sum, the difference or the product, where it fits 64 bits.
fn compute_checked(op: BinaryOp, m: i64, n: i64) -> Option<i64>
    requires { is_arithmetic (binary_view op) ≡ true }
    ensures { SomeIff result (FitsSigned w64 (arithmetic_of (binary_view op) m n))
        (arithmetic_of (binary_view op) m n) }
{
    match op {
        BinaryOp::Add => m.checked_add(n),
        BinaryOp::Sub => m.checked_sub(n),
        BinaryOp::Mul => m.checked_mul(n),
        BinaryOp::Eq => unreachable!(),
        BinaryOp::Less => unreachable!(),
        BinaryOp::LessEq => unreachable!(),
        BinaryOp::In => unreachable!(),
        BinaryOp::Contains => unreachable!(),
        BinaryOp::ContainsAll => unreachable!(),
        BinaryOp::ContainsAny => unreachable!(),
        BinaryOp::GetTag => unreachable!(),
        BinaryOp::HasTag => unreachable!(),
    }
}

#[cold]
#[inline(never)]
fn unary_overflow(arg: Value, loc: Option<&Loc>) -> EvaluationError
    ensures { failure_of result ≡ Failures.unary_overflow neg_operator arg.what }
{
    EvaluationError::IntegerOverflow(IntegerOverflowError::UnaryOp(UnaryOpOverflowError {
        op: UnaryOp::Neg,
        arg,
        source_loc: loc.copied(),
    }))
}

#[cold]
#[inline(never)]
fn overflow(op: BinaryOp, arg1: Value, arg2: Value, loc: Option<&Loc>) -> EvaluationError
    ensures { failure_of result ≡ Failures.binary_overflow (binary_view op) arg1.what arg2.what }
{
    EvaluationError::IntegerOverflow(IntegerOverflowError::BinaryOp(BinaryOpOverflowError {
        op,
        arg1,
        arg2,
        source_loc: loc.copied(),
    }))
}

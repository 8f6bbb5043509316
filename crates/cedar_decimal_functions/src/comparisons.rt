//! The comparisons of decimals.
ghost use Rattle.std.specs.Prelude.{◌≡◌, None, IfOk, IfErr};
ghost use Rattle.std.specs.Ordering.{nat_cmp};
ghost use Rattle.std.specs.Cmp.Lexicographic.{slice_cmp};
ghost use Rattle.cedar_errors.specs.Answers.{Answers};
ghost use Rattle.cedar_errors.specs.Errors.{error_loc};
ghost use Rattle.cedar_extension_values.specs.Answered.{abstracts};
ghost use Rattle.cedar_decimal_functions.specs.Comparisons.{compared, less_than_answer, less_than_or_equal_answer};
ghost use Rattle.cedar_decimal_functions.specs.Comparisons.{greater_than_answer, greater_than_or_equal_answer};
ghost use Rattle.cedar_decimal_functions.specs.Compared.{such};

use cedar_errors::evaluator::err::EvaluationError;
use cedar_extension_values::{first_key, second_key};
use cedar_values::Value;
use std::alloc::Global;

// How two decimals are compared.
#[derive(Clone, Copy)]
enum Comparison {
    Less,
    AtMost,
    Greater,
    AtLeast,
}

/// `lessThan`: whether the first decimal is less than the second. A `TypeError` that expects a decimal where an
/// argument is none, the first one first; else the only error is `Memory`. Values and errors are at no place.
pub fn less_than(alloc: Global, args: &[Value]) -> Result<Value, EvaluationError>
    ensures answers { Answers result (less_than_answer (abstracts args.now)) }
    ensures value_place { IfOk result (λ v. v.loc ≡ None) }
    ensures error_place { IfErr result (λ e. error_loc e ≡ None) }
{
    compare(alloc, args, Comparison::Less)
}

/// `lessThanOrEqual`: whether the first decimal is at most the second; errors as of `lessThan`.
pub fn less_than_or_equal(alloc: Global, args: &[Value]) -> Result<Value, EvaluationError>
    ensures answers { Answers result (less_than_or_equal_answer (abstracts args.now)) }
    ensures value_place { IfOk result (λ v. v.loc ≡ None) }
    ensures error_place { IfErr result (λ e. error_loc e ≡ None) }
{
    compare(alloc, args, Comparison::AtMost)
}

/// `greaterThan`: whether the first decimal is greater than the second; errors as of `lessThan`.
pub fn greater_than(alloc: Global, args: &[Value]) -> Result<Value, EvaluationError>
    ensures answers { Answers result (greater_than_answer (abstracts args.now)) }
    ensures value_place { IfOk result (λ v. v.loc ≡ None) }
    ensures error_place { IfErr result (λ e. error_loc e ≡ None) }
{
    compare(alloc, args, Comparison::Greater)
}

/// `greaterThanOrEqual`: whether the first decimal is at least the second; errors as of `lessThan`.
pub fn greater_than_or_equal(alloc: Global, args: &[Value]) -> Result<Value, EvaluationError>
    ensures answers { Answers result (greater_than_or_equal_answer (abstracts args.now)) }
    ensures value_place { IfOk result (λ v. v.loc ≡ None) }
    ensures error_place { IfErr result (λ e. error_loc e ≡ None) }
{
    compare(alloc, args, Comparison::AtLeast)
}

#[tactic(auto, unfolding(cedar_model::specs::Operators::expecting))]
fn compare(alloc: Global, args: &[Value], comparison: Comparison) -> Result<Value, EvaluationError>
    ensures answers { Answers result (compared (such comparison) (abstracts args.now)) }
    ensures value_place { IfOk result (λ v. v.loc ≡ None) }
    ensures error_place { IfErr result (λ e. error_loc e ≡ None) }
{
    match first_key(alloc, args, "decimal") {
        Ok(left) => match second_key(alloc, args, "decimal") {
            Ok(right) => Ok(Value::from(comparison.holds(left, right))),
            Err(error) => Err(error),
        },
        Err(error) => Err(error),
    }
}

impl Comparison {
    fn holds(self, left: &[u8], right: &[u8]) -> bool
        ensures { result ≡ such self (slice_cmp nat_cmp left.now right.now) }
    {
        match self {
            Comparison::Less => cedar_decimal::less_than(left, right),
            Comparison::AtMost => cedar_decimal::less_than_or_equal(left, right),
            Comparison::Greater => cedar_decimal::greater_than(left, right),
            Comparison::AtLeast => cedar_decimal::greater_than_or_equal(left, right),
        }
    }
}

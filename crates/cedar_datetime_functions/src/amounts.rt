//! The units of a duration, counted.
ghost use Rattle.std.specs.Prelude.{◌≡◌, None, IfOk, IfErr};
ghost use Rattle.cedar_errors.specs.Answers.{Answers};
ghost use Rattle.cedar_errors.specs.Errors.{error_loc};
ghost use Rattle.cedar_extension_values.specs.Answered.{abstracts};
ghost use Rattle.cedar_datetime_functions.specs.Amounts.{answers_long, amount, to_milliseconds_answer};
ghost use Rattle.cedar_datetime_functions.specs.Amounts.{to_seconds_answer, to_minutes_answer, to_hours_answer};
ghost use Rattle.cedar_datetime_functions.specs.Amounts.{to_days_answer};
ghost use Rattle.cedar_datetime_functions.specs.Counted.{units_in};
ghost use Rattle.cedar_datetime_functions.specs.Numbers.{of_number};

use crate::numbers::number_of;
use cedar_datetime::operations;
use cedar_errors::evaluator::err::EvaluationError;
use cedar_extension_values::first_key;
use cedar_values::Value;
use std::alloc::Global;

// What of a duration is counted.
#[derive(Clone, Copy)]
enum TimeUnit {
    Milliseconds,
    Seconds,
    Minutes,
    Hours,
    Days,
}

/// `toMilliseconds`: the milliseconds of the duration, a long. A `TypeError` that expects a duration where the
/// argument is none, and `FailedExtensionFunctionExecution` of `datetime` where a caller made the argument by a key
/// that is not eight bytes; else the only error is `Memory`. Values and errors are at no place.
pub fn to_milliseconds(alloc: Global, args: &[Value]) -> Result<Value, EvaluationError>
    ensures answers { Answers result (to_milliseconds_answer (abstracts args.now)) }
    ensures value_place { IfOk result (λ v. v.loc ≡ None) }
    ensures error_place { IfErr result (λ e. error_loc e ≡ None) }
{
    count(alloc, args, TimeUnit::Milliseconds)
}

/// `toSeconds`: the whole seconds of the duration, cut towards zero; errors as of `toMilliseconds`.
pub fn to_seconds(alloc: Global, args: &[Value]) -> Result<Value, EvaluationError>
    ensures answers { Answers result (to_seconds_answer (abstracts args.now)) }
    ensures value_place { IfOk result (λ v. v.loc ≡ None) }
    ensures error_place { IfErr result (λ e. error_loc e ≡ None) }
{
    count(alloc, args, TimeUnit::Seconds)
}

/// `toMinutes`: the whole minutes of the duration, cut towards zero; errors as of `toMilliseconds`.
pub fn to_minutes(alloc: Global, args: &[Value]) -> Result<Value, EvaluationError>
    ensures answers { Answers result (to_minutes_answer (abstracts args.now)) }
    ensures value_place { IfOk result (λ v. v.loc ≡ None) }
    ensures error_place { IfErr result (λ e. error_loc e ≡ None) }
{
    count(alloc, args, TimeUnit::Minutes)
}

/// `toHours`: the whole hours of the duration, cut towards zero; errors as of `toMilliseconds`.
pub fn to_hours(alloc: Global, args: &[Value]) -> Result<Value, EvaluationError>
    ensures answers { Answers result (to_hours_answer (abstracts args.now)) }
    ensures value_place { IfOk result (λ v. v.loc ≡ None) }
    ensures error_place { IfErr result (λ e. error_loc e ≡ None) }
{
    count(alloc, args, TimeUnit::Hours)
}

/// `toDays`: the whole days of the duration, cut towards zero; errors as of `toMilliseconds`.
pub fn to_days(alloc: Global, args: &[Value]) -> Result<Value, EvaluationError>
    ensures answers { Answers result (to_days_answer (abstracts args.now)) }
    ensures value_place { IfOk result (λ v. v.loc ≡ None) }
    ensures error_place { IfErr result (λ e. error_loc e ≡ None) }
{
    count(alloc, args, TimeUnit::Days)
}

#[tactic(auto, unfolding(cedar_model::specs::Operators::expecting))]
fn count(alloc: Global, args: &[Value], unit: TimeUnit) -> Result<Value, EvaluationError>
    ensures answers { Answers result (amount (units_in unit) (abstracts args.now)) }
    ensures value_place { IfOk result (λ v. v.loc ≡ None) }
    ensures error_place { IfErr result (λ e. error_loc e ≡ None) }
{
    match first_key(alloc, args, "duration") {
        Ok(duration) => unit.count_of(alloc, duration),
        Err(error) => Err(error),
    }
}

impl TimeUnit {
    #[tactic(auto, unfolding(cedar_model::specs::Operators::expecting))]
    fn count_of(self, alloc: Global, duration: &[u8]) -> Result<Value, EvaluationError>
        ensures answers { Answers result (of_number (λ z. answers_long (units_in self z)) duration.now) }
        ensures value_place { IfOk result (λ v. v.loc ≡ None) }
        ensures error_place { IfErr result (λ e. error_loc e ≡ None) }
    {
        match number_of(alloc, duration) {
            Ok(duration) => Ok(Value::from(self.units_in(duration))),
            Err(error) => Err(error),
        }
    }

    fn units_in(self, duration: i64) -> i64
        ensures { result ≡ units_in self duration }
    {
        match self {
            TimeUnit::Milliseconds => operations::to_milliseconds(duration),
            TimeUnit::Seconds => operations::to_seconds(duration),
            TimeUnit::Minutes => operations::to_minutes(duration),
            TimeUnit::Hours => operations::to_hours(duration),
            TimeUnit::Days => operations::to_days(duration),
        }
    }
}

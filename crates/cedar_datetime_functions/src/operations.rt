//! Datetimes and durations that are made of others.
ghost use Rattle.std.specs.Prelude.{◌≡◌, None, IfOk, IfErr, ◌+ℤ◌, ◌-ℤ◌};
ghost use Rattle.cedar_model.specs.Failures.{answers_value};
ghost use Rattle.cedar_errors.specs.Answers.{Answers};
ghost use Rattle.cedar_errors.specs.Errors.{error_loc};
ghost use Rattle.cedar_datetime.specs.Operations.{in_64_bits, last_midnight, since_midnight};
ghost use Rattle.cedar_extension_values.specs.Answered.{abstracts};
ghost use Rattle.cedar_datetime_functions.specs.Numbers.{of_number, of_numbers, datetime_value, duration_value};
ghost use Rattle.cedar_datetime_functions.specs.Numbers.{if_within};
ghost use Rattle.cedar_datetime_functions.specs.Operations.{offset_answer, duration_since_answer, to_date_answer};
ghost use Rattle.cedar_datetime_functions.specs.Operations.{to_time_answer};

use crate::numbers::{datetime_if_within, duration_if_within, duration_of, number_of};
use cedar_errors::evaluator::err::EvaluationError;
use cedar_extension_values::{first_key, second_key};
use cedar_values::Value;
use std::alloc::Global;

/// `offset`: the datetime that is the duration later, or earlier where the duration is negative, written
/// `datetime("1970-01-01").offset(duration("Nms"))`. A `TypeError` that expects a datetime where the first argument is
/// none, and one that expects a duration where the second is none. `FailedExtensionFunctionExecution` of `datetime`
/// where the answer is not within 64 bits of milliseconds, and where a caller made an argument by a key that is not
/// eight bytes. Else the only error is `Memory`. Values and errors are at no place.
#[tactic(auto, unfolding(cedar_model::specs::Operators::expecting))]
pub fn offset(alloc: Global, args: &[Value]) -> Result<Value, EvaluationError>
    ensures answers { Answers result (offset_answer (abstracts args.now)) }
    ensures value_place { IfOk result (λ v. v.loc ≡ None) }
    ensures error_place { IfErr result (λ e. error_loc e ≡ None) }
{
    match first_key(alloc, args, "datetime") {
        Ok(datetime) => match second_key(alloc, args, "duration") {
            Ok(duration) => later(alloc, datetime, duration),
            Err(error) => Err(error),
        },
        Err(error) => Err(error),
    }
}

#[tactic(auto, unfolding(cedar_model::specs::Operators::expecting))]
fn later(alloc: Global, datetime: &[u8], duration: &[u8]) -> Result<Value, EvaluationError>
    ensures answers { Answers result
        (of_numbers (λ z d. if_within datetime_value (in_64_bits (z +ℤ d))) datetime.now duration.now) }
    ensures value_place { IfOk result (λ v. v.loc ≡ None) }
    ensures error_place { IfErr result (λ e. error_loc e ≡ None) }
{
    match number_of(alloc, datetime) {
        Ok(datetime) => match number_of(alloc, duration) {
            Ok(duration) => {
                datetime_if_within(
                    alloc,
                    cedar_datetime::operations::offset(datetime, duration),
                )
            }
            Err(error) => Err(error),
        },
        Err(error) => Err(error),
    }
}

/// `durationSince`: the duration from the second datetime to the first, negative where the second is the later one,
/// written `duration("Nms")`. A `TypeError` that expects a datetime where an argument is none, the first one first;
/// else errors as of `offset`.
#[tactic(auto, unfolding(cedar_model::specs::Operators::expecting))]
pub fn duration_since(alloc: Global, args: &[Value]) -> Result<Value, EvaluationError>
    ensures answers { Answers result (duration_since_answer (abstracts args.now)) }
    ensures value_place { IfOk result (λ v. v.loc ≡ None) }
    ensures error_place { IfErr result (λ e. error_loc e ≡ None) }
{
    match first_key(alloc, args, "datetime") {
        Ok(datetime) => match second_key(alloc, args, "datetime") {
            Ok(earlier) => since(alloc, datetime, earlier),
            Err(error) => Err(error),
        },
        Err(error) => Err(error),
    }
}

#[tactic(auto, unfolding(cedar_model::specs::Operators::expecting))]
fn since(alloc: Global, datetime: &[u8], earlier: &[u8]) -> Result<Value, EvaluationError>
    ensures answers { Answers result
        (of_numbers (λ z e. if_within duration_value (in_64_bits (z -ℤ e))) datetime.now earlier.now) }
    ensures value_place { IfOk result (λ v. v.loc ≡ None) }
    ensures error_place { IfErr result (λ e. error_loc e ≡ None) }
{
    match number_of(alloc, datetime) {
        Ok(datetime) => match number_of(alloc, earlier) {
            Ok(earlier) => {
                let duration = cedar_datetime::operations::duration_since(datetime, earlier);
                duration_if_within(alloc, duration)
            }
            Err(error) => Err(error),
        },
        Err(error) => Err(error),
    }
}

/// `toDate`: the last midnight, in UTC, that is not after the datetime, written as of `offset`. A `TypeError` that
/// expects a datetime where the argument is none; else errors as of `offset`.
#[tactic(auto, unfolding(cedar_model::specs::Operators::expecting))]
pub fn to_date(alloc: Global, args: &[Value]) -> Result<Value, EvaluationError>
    ensures answers { Answers result (to_date_answer (abstracts args.now)) }
    ensures value_place { IfOk result (λ v. v.loc ≡ None) }
    ensures error_place { IfErr result (λ e. error_loc e ≡ None) }
{
    match first_key(alloc, args, "datetime") {
        Ok(datetime) => date_of(alloc, datetime),
        Err(error) => Err(error),
    }
}

#[tactic(auto, unfolding(cedar_model::specs::Operators::expecting))]
fn date_of(alloc: Global, datetime: &[u8]) -> Result<Value, EvaluationError>
    ensures answers { Answers result
        (of_number (λ z. if_within datetime_value (last_midnight z)) datetime.now) }
    ensures value_place { IfOk result (λ v. v.loc ≡ None) }
    ensures error_place { IfErr result (λ e. error_loc e ≡ None) }
{
    match number_of(alloc, datetime) {
        Ok(datetime) => datetime_if_within(alloc, cedar_datetime::operations::to_date(datetime)),
        Err(error) => Err(error),
    }
}

/// `toTime`: the duration since that midnight, never negative and below a day, written `duration("Nms")`. A
/// `TypeError` that expects a datetime where the argument is none, and `FailedExtensionFunctionExecution` of
/// `datetime` where a caller made the argument by a key that is not eight bytes; else the only error is `Memory`.
/// Values and errors are at no place.
#[tactic(auto, unfolding(cedar_model::specs::Operators::expecting))]
pub fn to_time(alloc: Global, args: &[Value]) -> Result<Value, EvaluationError>
    ensures answers { Answers result (to_time_answer (abstracts args.now)) }
    ensures value_place { IfOk result (λ v. v.loc ≡ None) }
    ensures error_place { IfErr result (λ e. error_loc e ≡ None) }
{
    match first_key(alloc, args, "datetime") {
        Ok(datetime) => time_of(alloc, datetime),
        Err(error) => Err(error),
    }
}

#[tactic(auto, unfolding(cedar_model::specs::Operators::expecting))]
fn time_of(alloc: Global, datetime: &[u8]) -> Result<Value, EvaluationError>
    ensures answers { Answers result
        (of_number (λ z. answers_value (duration_value (since_midnight z))) datetime.now) }
    ensures value_place { IfOk result (λ v. v.loc ≡ None) }
    ensures error_place { IfErr result (λ e. error_loc e ≡ None) }
{
    match number_of(alloc, datetime) {
        Ok(datetime) => duration_of(alloc, cedar_datetime::operations::to_time(datetime)),
        Err(error) => Err(error),
    }
}

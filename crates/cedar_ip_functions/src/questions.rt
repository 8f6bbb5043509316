//! What ranges of IP addresses are asked.
ghost use Rattle.std.specs.Prelude.{◌≡◌, None, IfOk, IfErr};
ghost use Rattle.cedar_errors.specs.Answers.{Answers};
ghost use Rattle.cedar_errors.specs.Errors.{error_loc};
ghost use Rattle.cedar_extension_values.specs.Answered.{abstracts};
ghost use Rattle.cedar_ip_functions.specs.Asked.{such};
ghost use Rattle.cedar_ip_functions.specs.Questions.{asked, is_ipv4_answer, is_ipv6_answer, is_loopback_answer};
ghost use Rattle.cedar_ip_functions.specs.Questions.{is_multicast_answer, is_in_range_answer};

use cedar_errors::evaluator::err::EvaluationError;
use cedar_extension_values::{first_key, second_key};
use cedar_values::Value;
use std::alloc::Global;

// What one range is asked.
#[derive(Clone, Copy)]
enum Question {
    IsIpv4,
    IsIpv6,
    IsLoopback,
    IsMulticast,
}

/// `isIpv4`: whether the range is of IPv4 addresses. A `TypeError` that expects an `ipaddr` where the argument is
/// none; else the only error is `Memory`. Values and errors are at no place.
pub fn is_ipv4(alloc: Global, args: &[Value]) -> Result<Value, EvaluationError>
    ensures answers { Answers result (is_ipv4_answer (abstracts args.now)) }
    ensures value_place { IfOk result (λ v. v.loc ≡ None) }
    ensures error_place { IfErr result (λ e. error_loc e ≡ None) }
{
    ask(alloc, args, Question::IsIpv4)
}

/// `isIpv6`: whether the range is of IPv6 addresses; errors as of `isIpv4`.
pub fn is_ipv6(alloc: Global, args: &[Value]) -> Result<Value, EvaluationError>
    ensures answers { Answers result (is_ipv6_answer (abstracts args.now)) }
    ensures value_place { IfOk result (λ v. v.loc ≡ None) }
    ensures error_place { IfErr result (λ e. error_loc e ≡ None) }
{
    ask(alloc, args, Question::IsIpv6)
}

/// `isLoopback`: whether each address of the range is a loopback address; errors as of `isIpv4`.
pub fn is_loopback(alloc: Global, args: &[Value]) -> Result<Value, EvaluationError>
    ensures answers { Answers result (is_loopback_answer (abstracts args.now)) }
    ensures value_place { IfOk result (λ v. v.loc ≡ None) }
    ensures error_place { IfErr result (λ e. error_loc e ≡ None) }
{
    ask(alloc, args, Question::IsLoopback)
}

/// `isMulticast`: whether each address of the range is a multicast address; errors as of `isIpv4`.
pub fn is_multicast(alloc: Global, args: &[Value]) -> Result<Value, EvaluationError>
    ensures answers { Answers result (is_multicast_answer (abstracts args.now)) }
    ensures value_place { IfOk result (λ v. v.loc ≡ None) }
    ensures error_place { IfErr result (λ e. error_loc e ≡ None) }
{
    ask(alloc, args, Question::IsMulticast)
}

#[tactic(auto, unfolding(cedar_model::specs::Operators::expecting))]
fn ask(alloc: Global, args: &[Value], question: Question) -> Result<Value, EvaluationError>
    ensures answers { Answers result (asked (such question) (abstracts args.now)) }
    ensures value_place { IfOk result (λ v. v.loc ≡ None) }
    ensures error_place { IfErr result (λ e. error_loc e ≡ None) }
{
    match first_key(alloc, args, "ipaddr") {
        Ok(key) => Ok(Value::from(question.holds(key))),
        Err(error) => Err(error),
    }
}

impl Question {
    fn holds(self, key: &[u8]) -> bool
        ensures { result ≡ such self key.now }
    {
        match self {
            Question::IsIpv4 => cedar_ip::is_ipv4(key),
            Question::IsIpv6 => cedar_ip::is_ipv6(key),
            Question::IsLoopback => cedar_ip::is_loopback(key),
            Question::IsMulticast => cedar_ip::is_multicast(key),
        }
    }
}

/// `isInRange`: whether each address of the first range is one of the second. A `TypeError` that expects an `ipaddr`
/// where an argument is none, the first one first; else the only error is `Memory`. Values and errors are at no place.
#[tactic(auto, unfolding(cedar_model::specs::Operators::expecting))]
pub fn is_in_range(alloc: Global, args: &[Value]) -> Result<Value, EvaluationError>
    ensures answers { Answers result (is_in_range_answer (abstracts args.now)) }
    ensures value_place { IfOk result (λ v. v.loc ≡ None) }
    ensures error_place { IfErr result (λ e. error_loc e ≡ None) }
{
    match first_key(alloc, args, "ipaddr") {
        Ok(key) => match second_key(alloc, args, "ipaddr") {
            Ok(other) => Ok(Value::from(cedar_ip::is_in_range(key, other))),
            Err(error) => Err(error),
        },
        Err(error) => Err(error),
    }
}

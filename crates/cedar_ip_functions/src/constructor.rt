//! The constructor of ranges of IP addresses.
ghost use Rattle.std.specs.Prelude.{◌≡◌, None, IfOk, IfErr};
ghost use Rattle.cedar_errors.specs.Answers.{Answers};
ghost use Rattle.cedar_errors.specs.Errors.{error_loc};
ghost use Rattle.cedar_extension_values.specs.Answered.{abstracts};
ghost use Rattle.cedar_ip_functions.specs.Ranges.{ip_answer};

use cedar_errors::evaluator::err::EvaluationError;
use cedar_extension_values::{construct_value, fail_with_message, first_text};
use cedar_ip::key;
use cedar_values::Value;
use std::alloc::Global;

const NOT_A_RANGE: &str = "not an IPv4 or IPv6 address, alone or with the length of a prefix";

/// `ip`: the range of addresses that the text writes, which is the first argument, written as the call on that text. A
/// `TypeError` that expects a text where it is no text, and `FailedExtensionFunctionExecution` of `ipaddr` where the
/// text writes no range; else the only error is `Memory`. Values and errors are at no place.
#[tactic(auto, unfolding(cedar_model::specs::Operators::expecting, cedar_extension_values::specs::Functions::written_or_failed,),)]
pub fn ip(alloc: Global, args: &[Value]) -> Result<Value, EvaluationError>
    ensures answers { Answers result (ip_answer (abstracts args.now)) }
    ensures value_place { IfOk result (λ v. v.loc ≡ None) }
    ensures error_place { IfErr result (λ e. error_loc e ≡ None) }
{
    match first_text(alloc, args) {
        Ok(text) => match key(text.as_str()) {
            Some(key) => match construct_value(alloc, "ipaddr", key.as_bytes(), "ip", text) {
                Ok(value) => Ok(value),
                Err(error) => Err(EvaluationError::Memory(error)),
            },
            None => Err(fail_with_message(alloc, "ipaddr", NOT_A_RANGE)),
        },
        Err(error) => Err(error),
    }
}

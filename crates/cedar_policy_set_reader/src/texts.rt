#![tactic(auto, using(cedar_policy_json_reader::proofs::TextLemmas::text_lemmas))]
//! JSON texts.
ghost use Rattle.std.specs.Prelude.{IfOk, IfErr};
ghost use Rattle.cedar_functions.specs.Functions.{knowledge};
ghost use Rattle.cedar_policy_json_reader.specs.JsonTexts.{depth_for, Says, IsTextRefusal};
ghost use Rattle.cedar_policy_set_reader.specs.PolicySets.{policy_set_said, set_view};

use crate::policy_sets::{ReadPolicies, policy_set_from_json};
use cedar_functions::Functions;
use cedar_policy_json_reader::{PolicyJsonError, json_depth, parse_deep_json};
use json::Scratch;
use std::alloc::Global;

/// The set of policies that the text says, as `policy_set_from_json` reads it. `Syntax` where the text is no JSON or
/// nests deeper than `json_depth` of the limit; `Refused` where an object of it has a key twice, with the way to the first
/// such key, and as `policy_set_from_json` answers.
pub fn policy_set_from_json_str(
    alloc: Global,
    text: &str,
    functions: &Functions,
    limit: usize,
) -> Result<ReadPolicies, PolicyJsonError>
    ensures said { IfOk result
        (λ r. Says (depth_for limit) text.now (policy_set_said (knowledge functions.now) limit) (set_view r)) }
    ensures refused { IfErr result
        (IsTextRefusal (depth_for limit) text.now (policy_set_said (knowledge functions.now) limit)) }
{
    let mut scratch = Scratch::new(alloc);
    match parse_deep_json(alloc, text, &mut scratch, json_depth(limit)) {
        Ok(value) => policy_set_from_json(alloc, &value, functions, limit),
        Err(error) => Err(error),
    }
}

#![tactic(auto, using(cedar_policy_json_reader::proofs::Refused::refusals))]
//! Ids, no two of which are one.
ghost use Rattle.std.specs.Prelude.{◌≡◌, ◌||◌, [], ◌∷◌, ◌++◌, Ok, map, option_map, IfOk, IfErr};
ghost use Rattle.cedar_layers.specs.Policies.{policy_view, policy_id_text};
ghost use Rattle.cedar_policy_json_reader.specs.Refusals.{IsRefusal, IsMemory};
ghost use Rattle.cedar_policy_set_reader.specs.PolicySets as sets;
ghost use Rattle.cedar_template_links.specs.Linking as links;

use cedar_layers::policies::{Policy, PolicyID};
use cedar_policy_json_reader::{PolicyJsonError, RefusalReason};
use cedar_template_links::has_id;
use std::alloc::Global;
use std::rc::RcStr;

/// The id of this text, which none of these policies has.
pub(crate) fn new_id(
    alloc: Global,
    text: &str,
    policies: &[Policy],
    others: &[Policy],
) -> Result<PolicyID, PolicyJsonError>
    ensures said { IfOk result (λ i. sets.new_id (map policy_view policies.now) (map policy_view others.now)
        text.now ≡ Ok (policy_id_text i)) }
    ensures refused { IfErr result
        (IsRefusal (sets.new_id (map policy_view policies.now) (map policy_view others.now) text.now)) }
{
    match id_of(alloc, text) {
        Ok(id) => if is_taken(&id, policies, others) {
            drop(id);
            Err(PolicyJsonError::refusal(alloc, RefusalReason::RepeatedKey))
        } else {
            Ok(id)
        },
        Err(error) => Err(error),
    }
}

fn is_taken(id: &PolicyID, policies: &[Policy], others: &[Policy]) -> bool
    ensures { result ≡ (links.has_id (policy_id_text id.now) (map policy_view policies.now)
        || links.has_id (policy_id_text id.now) (map policy_view others.now)) }
{
    has_id(policies, id) || has_id(others, id)
}

fn id_of(alloc: Global, text: &str) -> Result<PolicyID, PolicyJsonError>
    ensures said { IfOk result (λ i. policy_id_text i ≡ text.now) }
    ensures memory { IfErr result IsMemory }
{
    match RcStr::from_str(alloc, text) {
        Ok(text) => Ok(PolicyID::from_string(text)),
        Err(error) => Err(PolicyJsonError::Memory(error)),
    }
}

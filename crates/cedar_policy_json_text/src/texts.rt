#![tactic(auto, using(crate::proofs::Backs::backs))]
//! Texts of JSON texts.
ghost use Rattle.std.specs.Prelude.{◌≡◌, None, OnOk, IfOk, IfErr, string_bytes};
ghost use Rattle.cedar_functions.specs.Functions.{knowledge};
ghost use Rattle.cedar_policy_set_reader.specs.PolicySets.{set_view};
ghost use Rattle.cedar_policy_json_text.specs.Kept.{IsTextOf, IsDecidingTextOf, IsUntold, ReadsBack, IsOwn, IsOfText};
ghost use Rattle.cedar_policy_json_text.specs.Names.{IsShared, first_shared};
ghost use Rattle.cedar_policy_json_text.specs.Placed.{without_linked};

use crate::errors::PolicyTextError;
use crate::linked::without_linked_templates;
use crate::names::check_names;
use crate::reading_back::{no_text, read_back};
use crate::writing::text_of;
use cedar_functions::Functions;
use cedar_policy_json_reader::PolicyJsonError;
use cedar_policy_set_reader::{ReadPolicies, policy_set_from_json_str};
use std::alloc::{AllocError, Global};

/// The policies that the JSON text says, as Cedar's text: it is read as these policies and templates, in their order,
/// with calls of these functions and at most so many levels. The policies of links stand behind the static ones, with
/// their entities in place of slots. A policy is called by its id there, and one whose id is its place, as `policy0`, by
/// its annotation `id` if it has one. Refuses where the JSON can't be read (`Unread`); where the annotation `id` of a
/// policy or template is the id or the name of another (`SharedName`), or is not its id, which is not its place either
/// (`AnotherName`); where a policy has no such text (`NoText`); or out of memory.
pub fn policies_to_text(
    alloc: Global,
    json: &str,
    functions: &Functions,
    limit: usize,
) -> Result<String, PolicyTextError>
    ensures text { IfOk result (λ t. IsTextOf (knowledge functions.now) limit json.now (string_bytes t)) }
    ensures refused { IfErr result (IsUntold (knowledge functions.now) limit json.now) }
{
    match policy_set_from_json_str(alloc, json, functions, limit) {
        Ok(set) => match set_to_text(alloc, &set, functions, limit) {
            Ok(text) => {
                drop(set);
                Ok(text)
            }
            Err(error) => {
                drop(set);
                Err(error)
            }
        },
        Err(PolicyJsonError::Memory(error)) => Err(PolicyTextError::Memory(error)),
        Err(error) => Err(PolicyTextError::Unread(error)),
    }
}

/// The same without the templates that have links: of these the policies of the links decide. Refuses as
/// `policies_to_text` does.
pub fn deciding_policies_to_text(
    alloc: Global,
    json: &str,
    functions: &Functions,
    limit: usize,
) -> Result<String, PolicyTextError>
    ensures text { IfOk result (λ t. IsDecidingTextOf (knowledge functions.now) limit json.now (string_bytes t)) }
    ensures refused { IfErr result (IsUntold (knowledge functions.now) limit json.now) }
{
    match policy_set_from_json_str(alloc, json, functions, limit) {
        Ok(set) => deciding_set_to_text(alloc, set, functions, limit),
        Err(PolicyJsonError::Memory(error)) => Err(PolicyTextError::Memory(error)),
        Err(error) => Err(PolicyTextError::Unread(error)),
    }
}

/// The set without the templates that have links, as `set_to_text` writes it. Refuses as that does.
pub fn deciding_set_to_text(
    alloc: Global,
    set: ReadPolicies,
    functions: &Functions,
    limit: usize,
) -> Result<String, PolicyTextError>
    ensures apart { OnOk result (first_shared (set_view set) ≡ None) }
    ensures back { IfOk result (λ t. ReadsBack (knowledge functions.now) limit (without_linked (set_view set))
        (string_bytes t)) }
    ensures shared { IfErr result (IsShared (set_view set)) }
    ensures own { IfErr result IsOwn }
{
    match check_names(alloc, &set) {
        Ok(()) => deciding_text(alloc, set, functions, limit),
        Err(error) => {
            drop(set);
            Err(error)
        }
    }
}

fn deciding_text(
    alloc: Global,
    set: ReadPolicies,
    functions: &Functions,
    limit: usize,
) -> Result<String, PolicyTextError>
    ensures back { IfOk result (λ t. ReadsBack (knowledge functions.now) limit (without_linked (set_view set))
        (string_bytes t)) }
    ensures no_name { IfErr result IsOfText }
{
    match without_linked_templates(alloc, set) {
        Ok(set) => {
            let text = text_of_set(alloc, &set, functions, limit);
            drop(set);
            text
        }
        Err(AllocError) => Err(PolicyTextError::Memory(AllocError)),
    }
}

/// The policies and the templates of the set as Cedar's text, which is read as these, as `policies_to_text` says. Refuses
/// where the annotation `id` of a policy or template is the id or the name of another (`SharedName`), or is not its id,
/// which is not its place either (`AnotherName`); where a policy has no such text (`NoText`); or out of memory.
pub fn set_to_text(
    alloc: Global,
    set: &ReadPolicies,
    functions: &Functions,
    limit: usize,
) -> Result<String, PolicyTextError>
    ensures apart { OnOk result (first_shared (set_view set.now) ≡ None) }
    ensures back { IfOk result (λ t. ReadsBack (knowledge functions.now) limit (set_view set.now) (string_bytes t)) }
    ensures shared { IfErr result (IsShared (set_view set.now)) }
    ensures own { IfErr result IsOwn }
{
    match check_names(alloc, set) {
        Ok(()) => text_of_set(alloc, set, functions, limit),
        Err(error) => Err(error),
    }
}

fn text_of_set(
    alloc: Global,
    set: &ReadPolicies,
    functions: &Functions,
    limit: usize,
) -> Result<String, PolicyTextError>
    ensures back { IfOk result (λ t. ReadsBack (knowledge functions.now) limit (set_view set.now) (string_bytes t)) }
    ensures no_name { IfErr result IsOfText }
{
    match text_of(alloc, set) {
        Ok(text) => checked(alloc, set, text, functions, limit),
        Err(error) => Err(error),
    }
}

// The text, where it is read as these policies.
fn checked(
    alloc: Global,
    set: &ReadPolicies,
    text: String,
    functions: &Functions,
    limit: usize,
) -> Result<String, PolicyTextError>
    ensures back { IfOk result (λ t. ReadsBack (knowledge functions.now) limit (set_view set.now) (string_bytes t)) }
    ensures no_name { IfErr result IsOfText }
{
    match read_back(alloc, set, &text, functions, limit) {
        Ok(true) => Ok(text),
        Ok(false) => {
            drop(text);
            Err(no_text(alloc, set, functions, limit))
        }
        Err(AllocError) => {
            drop(text);
            Err(PolicyTextError::Memory(AllocError))
        }
    }
}

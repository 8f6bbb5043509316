#![tactic(auto, using(crate::proofs::Backs::backs))]
//! Texts that are read again.
ghost use Rattle.std.specs.Prelude.{◌≡◌, map, IfOk};
ghost use Rattle.cedar_functions.specs.Functions.{knowledge};
ghost use Rattle.cedar_layers.specs.Policies.{policy_view};
ghost use Rattle.cedar_layers.specs.PolicySets.{policies_view};
ghost use Rattle.cedar_policy_set_reader.specs.PolicySets.{set_view};
ghost use Rattle.cedar_policy_json_text.specs.Kept.{ReadsBackIf, IsOfText, are_kept, are_all_kept, parsed_view};

use crate::errors::PolicyTextError;
use crate::kept::{are_kept, each_of, is_kept, policies_of};
use crate::writing::policy_text;
use cedar_functions::Functions;
use cedar_layers::policies::{Policy, PolicyID, PolicySet};
use cedar_policy_set_reader::ReadPolicies;
use cedar_text_parser::{ParseError, ParsedPolicies, parse_policies, parse_policy};
use std::alloc::{AllocError, Global};

/// Whether the text is read as these policies.
pub(crate) fn read_back(
    alloc: Global,
    set: &ReadPolicies,
    text: &str,
    functions: &Functions,
    limit: usize,
) -> Result<bool, AllocError>
    ensures { IfOk result (ReadsBackIf (knowledge functions.now) limit (set_view set.now) text.now) }
{
    match parse_policies(alloc, text, limit, functions) {
        Ok(parsed) => match is_same(alloc, set, &parsed) {
            Ok(same) => {
                drop(parsed);
                Ok(same)
            }
            Err(error) => {
                drop(parsed);
                Err(error)
            }
        },
        Err(errors) => {
            drop(errors);
            Ok(false)
        }
    }
}

fn is_same(alloc: Global, set: &ReadPolicies, parsed: &ParsedPolicies) -> Result<bool, AllocError>
    ensures { IfOk result (λ b. b ≡ are_all_kept (set_view set.now) (parsed_view parsed.now)) }
{
    if are_policies_kept(alloc, &set.policies, &parsed.policies)? {
        are_templates_kept(alloc, &set.templates, &parsed.templates)
    } else {
        Ok(false)
    }
}

fn are_policies_kept(
    alloc: Global,
    policies: &PolicySet,
    read: &PolicySet,
) -> Result<bool, AllocError>
    ensures { IfOk result (λ b. b ≡ are_kept (policies_view policies.now) (policies_view read.now)) }
{
    let policies: Vec<&Policy> = policies_of(alloc, policies)?;
    let read: Vec<&Policy> = policies_of(alloc, read)?;
    are_kept(alloc, &policies, &read)
}

fn are_templates_kept(
    alloc: Global,
    templates: &[Policy],
    read: &[Policy],
) -> Result<bool, AllocError>
    ensures { IfOk result (λ b. b ≡ are_kept (map policy_view templates.now) (map policy_view read.now)) }
{
    let templates: Vec<&Policy> = each_of(alloc, templates)?;
    let read: Vec<&Policy> = each_of(alloc, read)?;
    are_kept(alloc, &templates, &read)
}

// ---- which policy has no text

/// The refusal of the first of the policies that alone has no text which is read as it.
#[cold]
pub(crate) fn no_text(
    alloc: Global,
    set: &ReadPolicies,
    functions: &Functions,
    limit: usize,
) -> PolicyTextError
    ensures { IsOfText result }
{
    match lost_id(alloc, set, functions, limit) {
        Ok(id) => PolicyTextError::NoText { id },
        Err(AllocError) => PolicyTextError::Memory(AllocError),
    }
}

fn lost_id(
    alloc: Global,
    set: &ReadPolicies,
    functions: &Functions,
    limit: usize,
) -> Result<PolicyID, AllocError> {
    let mut number: usize = 0;
    'policies: for policy in set.policies.policies() {
        if is_lost(alloc, "staticPolicies", policy, number, functions, limit)? {
            return policy.id().clone();
        }
        number = number.saturating_add(1);
    }
    'templates: for template in set.templates.as_slice() {
        if is_lost(alloc, "templates", template, number, functions, limit)? {
            return template.id().clone();
        }
        number = number.saturating_add(1);
    }
    Err(AllocError)
}

fn is_lost(
    alloc: Global,
    part: &str,
    policy: &Policy,
    number: usize,
    functions: &Functions,
    limit: usize,
) -> Result<bool, AllocError> {
    match policy_text(alloc, part, policy, number) {
        Ok(text) => is_text_lost(alloc, policy, &text, functions, limit),
        Err(error) => {
            drop(error);
            Ok(true)
        }
    }
}

fn is_text_lost(
    alloc: Global,
    policy: &Policy,
    text: &str,
    functions: &Functions,
    limit: usize,
) -> Result<bool, AllocError> {
    let id: PolicyID = policy.id().clone()?;
    match parse_policy(alloc, id, text, limit, functions) {
        Ok(read) => {
            let kept = is_kept(alloc, policy, &read);
            drop(read);
            Ok(!kept?)
        }
        Err(error) => {
            drop(error);
            Ok(true)
        }
    }
}

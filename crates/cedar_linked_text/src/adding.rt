#![tactic(auto, using(crate::proofs::Added::adding))]
//! A link that is added behind those of a file.
ghost use Rattle.std.specs.Prelude.{◌≡◌, ◌∷◌, [], map, IfOk, IfErr, string_bytes};
ghost use Rattle.cedar_functions.specs.Functions.{knowledge};
ghost use Rattle.cedar_layers.specs.Policies.{policy_view};
ghost use Rattle.cedar_policy_json_text.specs.Kept.{ReadsBack};
ghost use Rattle.cedar_policy_set_reader.specs.PolicySets.{set_view};
ghost use Rattle.cedar_template_links.specs.Links.{link_view};
ghost use Rattle.cedar_linked_text.specs.LinkedTexts as texts;

use crate::errors::LinkedTextError;
use crate::linking::{Named, all_named};
use crate::written::list_text;
use cedar_functions::Functions;
use cedar_layers::policies::{Policy, PolicySet, PolicySetError};
use cedar_policy_json_reader::{PolicyJsonError, parse_json};
use cedar_policy_json_text::set_to_text;
use cedar_policy_set_reader::ReadPolicies;
use cedar_template_links::{Link, LinkForm, link_from_arguments, link_one};
use cedar_text_parser::{ParsedPolicies, parse_policies};
use json::Scratch;
use std::alloc::{AllocError, Global};

/// A link that is asked for.
#[derive(Clone, Copy)]
pub struct NewLink<'a> {
    /// The name of the template.
    pub template_id: &'a str,
    /// The name of the policy.
    pub new_id: &'a str,
    /// The entities of its slots, in JSON: `{"?principal": "User::\"alice\"", ..}`.
    pub arguments: &'a str,
}

/// A link that was added.
#[derive(Debug, Drop)]
pub struct AddedLink {
    /// The policy, in Cedar's text.
    pub policy: String,
    /// The file of links, with the new one as its last.
    pub list: String,
}

/// The policy that the link makes of a template of this text, behind the links that the other text lists, and the list
/// with that link. Refuses as `linked_to_text` does, and where the link that is asked for can't be read or makes no policy
/// (`NewLink`, with the way from its arguments, or from the link, on).
pub fn add_link(
    alloc: Global,
    text: &str,
    links: &str,
    new: NewLink<'_>,
    functions: &Functions,
    limit: usize,
) -> Result<AddedLink, LinkedTextError>
    ensures policy { IfOk result (λ a. texts.IsAdded (knowledge functions.now) limit text.now links.now
        (texts.asked_view new.entry) (string_bytes a.policy)) }
    ensures refused { IfErr result
        (texts.IsNotAdded (knowledge functions.now) limit text.now links.now (texts.asked_view new.entry)) }
{
    match parse_policies(alloc, text, limit, functions) {
        Ok(parsed) => {
            let added = add_to_parsed(alloc, &parsed, links, new, functions, limit);
            drop(parsed);
            added
        }
        Err(errors) => Err(LinkedTextError::Unread(errors)),
    }
}

fn add_to_parsed(
    alloc: Global,
    parsed: &ParsedPolicies,
    links: &str,
    new: NewLink<'_>,
    functions: &Functions,
    limit: usize,
) -> Result<AddedLink, LinkedTextError>
    ensures policy { IfOk result (λ a. texts.IsAddedTo (knowledge functions.now) limit parsed.now links.now
        (texts.asked_view new.entry) (string_bytes a.policy)) }
    ensures refused { IfErr result (texts.IsRefusedByParsed parsed.now links.now (texts.asked_view new.entry)) }
{
    match all_named(alloc, parsed, links) {
        Ok(named) => {
            let added = add_to_named(alloc, &named, new, functions, limit);
            drop(named);
            added
        }
        Err(error) => Err(error),
    }
}

fn add_to_named(
    alloc: Global,
    named: &Named,
    new: NewLink<'_>,
    functions: &Functions,
    limit: usize,
) -> Result<AddedLink, LinkedTextError>
    ensures policy { IfOk result (λ a. texts.IsAddedToSet (knowledge functions.now) limit
        (texts.named_set named.now) (texts.asked_view new.entry) (string_bytes a.policy)) }
    ensures refused { IfErr result
        (texts.IsRefusedBySet (texts.named_set named.now) (texts.asked_view new.entry)) }
{
    match read_new(alloc, new) {
        Ok(link) => {
            let added = with_link(alloc, named, &link, functions, limit);
            drop(link);
            added
        }
        Err(error) => Err(LinkedTextError::NewLink(error)),
    }
}

fn with_link(
    alloc: Global,
    named: &Named,
    link: &Link,
    functions: &Functions,
    limit: usize,
) -> Result<AddedLink, LinkedTextError>
    ensures policy { IfOk result (λ a. texts.IsWithLink (knowledge functions.now) limit
        (texts.named_set named.now) (link_view link.now) (string_bytes a.policy)) }
    ensures refused { IfErr result
        (texts.IsRefusedWithLink (texts.named_set named.now) (link_view link.now)) }
{
    let none: Vec<Policy> = Vec::new(alloc);
    match link_one(
        alloc,
        LinkForm::File,
        &named.policies,
        &named.templates,
        &none,
        link,
    ) {
        Ok(policy) => match lone_text(alloc, policy, functions, limit) {
            Ok(policy) => with_list(alloc, policy, named, link),
            Err(error) => Err(error),
        },
        Err(error) => Err(LinkedTextError::NewLink(error)),
    }
}

fn with_list(
    alloc: Global,
    policy: String,
    named: &Named,
    link: &Link,
) -> Result<AddedLink, LinkedTextError>
    ensures policy { IfOk result (λ a. a.policy ≡ policy) }
    ensures memory { IfErr result texts.IsMemory }
{
    match list_text(alloc, &named.links, link) {
        Ok(list) => Ok(AddedLink { policy, list }),
        Err(error) => {
            drop(policy);
            Err(LinkedTextError::Memory(error))
        }
    }
}

// The text of the policy alone.
fn lone_text(
    alloc: Global,
    policy: Policy,
    functions: &Functions,
    limit: usize,
) -> Result<String, LinkedTextError>
    ensures back { IfOk result (λ t. ReadsBack (knowledge functions.now) limit
        (texts.lone (policy_view policy)) (string_bytes t)) }
    ensures own { IfErr result texts.IsOwnText }
{
    match lone_set(alloc, policy) {
        Ok(set) => {
            let text = set_to_text(alloc, &set, functions, limit);
            drop(set);
            match text {
                Ok(text) => Ok(text),
                Err(error) => Err(LinkedTextError::Text(error)),
            }
        }
        Err(error) => Err(LinkedTextError::Memory(error)),
    }
}

fn lone_set(alloc: Global, policy: Policy) -> Result<ReadPolicies, AllocError>
    ensures view { IfOk result (λ r. set_view r ≡ texts.lone (policy_view policy)) }
{
    let policies: Vec<Policy> = vec![in alloc; policy]?;
    match PolicySet::try_from_iter(alloc, policies) {
        Ok(policies) => Ok(ReadPolicies {
            policies,
            templates: Vec::new(alloc),
            links: Vec::new(alloc),
        }),
        Err(PolicySetError::Occupied { id: _ }) => Err(AllocError),
        Err(PolicySetError::Memory(error)) => Err(error),
    }
}

// The link that is asked for.
fn read_new(alloc: Global, new: NewLink<'_>) -> Result<Link, PolicyJsonError>
    ensures asked { IfOk result (λ l. texts.IsLinkOf (texts.asked_view new.entry) (link_view l)) }
    ensures refused { IfErr result (texts.IsNoArgument (texts.asked_view new.entry)) }
{
    let mut scratch = Scratch::new(alloc);
    match parse_json(alloc, new.arguments, &mut scratch) {
        Ok(value) => link_from_arguments(alloc, new.template_id, new.new_id, &value),
        Err(error) => Err(error),
    }
}

#![tactic(auto, using(crate::proofs::Linked::linked_texts, cedar_template_links::proofs::Making::joins, cedar_policy_json_reader::proofs::Lists::lists))]
//! The policies of a text under their names, and behind them those of links.
ghost use Rattle.std.specs.Prelude.{◌≡◌, ◌++◌, ◌∷◌, [], None, Ok, Some, map, option_map, OnOk, IfOk, IfErr};
ghost use Rattle.cedar_layers.specs.Policies.{policy_view, policy_id_text, policy_ids, first_repeated};
ghost use Rattle.cedar_layers.specs.PolicySets.{policies_view};
ghost use Rattle.cedar_template_links.specs.Links.{link_view};
ghost use Rattle.cedar_linked_text.specs.LinkedTexts as texts;

use crate::errors::LinkedTextError;
use crate::lists::read_list;
use crate::named::{named_policies, named_templates};
use cedar_layers::policies::{Policy, PolicyID, PolicySet, PolicySetError};
use cedar_template_links::{Link, LinkForm, link_all};
use cedar_text_parser::ParsedPolicies;
use std::alloc::{AllocError, Global};

/// Policies under their names, those of links last; templates under theirs; and the links.
#[derive(Drop)]
pub(crate) struct Named {
    pub(crate) policies: Vec<Policy>,
    pub(crate) templates: Vec<Policy>,
    pub(crate) links: Vec<Link>,
}

/// What was parsed, with the policies of these links.
pub(crate) fn all_named(
    alloc: Global,
    parsed: &ParsedPolicies,
    links: &str,
) -> Result<Named, LinkedTextError>
    ensures named { IfOk result (texts.IsParsedNamed parsed.now links.now) }
    ensures refused { IfErr result (texts.IsParsedRefusal parsed.now links.now) }
{
    let (policies, templates) = names_of(alloc, parsed)?;
    match read_list(alloc, links) {
        Ok(links) => link_named(alloc, policies, templates, links),
        Err(error) => {
            drop((policies, templates));
            Err(LinkedTextError::Link(error))
        }
    }
}

fn names_of(
    alloc: Global,
    parsed: &ParsedPolicies,
) -> Result<(Vec<Policy>, Vec<Policy>), AllocError>
    ensures policies { IfOk result (λ p. map policy_view p.0.items ≡ texts.named_policies parsed.now) }
    ensures templates { IfOk result (λ p. map policy_view p.1.items ≡ texts.named_templates parsed.now) }
{
    let policies = named_policies(alloc, &parsed.policies)?;
    let templates = named_templates(alloc, &parsed.templates)?;
    Ok((policies, templates))
}

fn link_named(
    alloc: Global,
    policies: Vec<Policy>,
    templates: Vec<Policy>,
    links: Vec<Link>,
) -> Result<Named, LinkedTextError>
    ensures named { IfOk result (texts.IsNamed (map policy_view policies.items)
        (map policy_view templates.items) (map link_view links.items)) }
    ensures refused { IfErr result (texts.IsNamedRefusal (map policy_view policies.items)
        (map policy_view templates.items) (map link_view links.items)) }
{
    match shared_name(alloc, &policies, &templates) {
        Ok(Some(id)) => {
            drop((policies, (templates, links)));
            Err(LinkedTextError::Shared(id))
        }
        Ok(None) => link_apart(alloc, policies, templates, links),
        Err(error) => {
            drop((policies, (templates, links)));
            Err(LinkedTextError::Memory(error))
        }
    }
}

// The same of policies and templates with names of their own.
fn link_apart(
    alloc: Global,
    policies: Vec<Policy>,
    templates: Vec<Policy>,
    links: Vec<Link>,
) -> Result<Named, LinkedTextError>
    requires { texts.first_shared (map policy_view policies.items) (map policy_view templates.items) ≡ None }
    ensures named { IfOk result (texts.IsNamed (map policy_view policies.items)
        (map policy_view templates.items) (map link_view links.items)) }
    ensures refused { IfErr result (texts.IsNamedRefusal (map policy_view policies.items)
        (map policy_view templates.items) (map link_view links.items)) }
{
    match link_all(alloc, LinkForm::File, &policies, &templates, &links) {
        Ok(linked) => match joined(policies, linked) {
            Ok(policies) => Ok(Named {
                policies,
                templates,
                links,
            }),
            Err(error) => {
                drop((templates, links));
                Err(LinkedTextError::Memory(error))
            }
        },
        Err(error) => {
            drop((policies, (templates, links)));
            Err(LinkedTextError::Link(error))
        }
    }
}

fn joined(mut policies: Vec<Policy>, mut linked: Vec<Policy>) -> Result<Vec<Policy>, AllocError>
    ensures { IfOk result
        (λ ps. map policy_view ps.items ≡ map policy_view policies.items ++ map policy_view linked.items) }
{
    policies.append(&mut linked)?;
    Ok(policies)
}

// The first name that is a second policy's or template's.
fn shared_name(
    alloc: Global,
    policies: &[Policy],
    templates: &[Policy],
) -> Result<Option<PolicyID>, AllocError>
    ensures { IfOk result (λ o. option_map policy_id_text o
        ≡ texts.first_shared (map policy_view policies.now) (map policy_view templates.now)) }
{
    let mut all: Vec<Policy> = Vec::new(alloc);
    put_copies(policies, &mut all)?;
    put_copies(templates, &mut all)?;
    match PolicySet::try_from_iter(alloc, all) {
        Ok(set) => Ok(no_name(set)),
        Err(PolicySetError::Occupied { id }) => Ok(Some(id)),
        Err(PolicySetError::Memory(error)) => Err(error),
    }
}

// No two policies of a set have one id.
fn no_name(set: PolicySet) -> Option<PolicyID>
    ensures { option_map policy_id_text result ≡ first_repeated (policy_ids (policies_view set)) }
{
    drop(set.policies());
    drop(set);
    None
}

fn put_copies(policies: &[Policy], all: &mut Vec<Policy>) -> Result<(), AllocError>
    ensures { OnOk result
        (map policy_view all.new.items ≡ map policy_view all.old.items ++ map policy_view policies.now) }
{
    'policies: for policy in policies {
        put_copy(policy, all)?;
    }
    Ok(())
}

fn put_copy(policy: &Policy, all: &mut Vec<Policy>) -> Result<(), AllocError>
    ensures { OnOk result
        (map policy_view all.new.items ≡ map policy_view all.old.items ++ policy_view policy.now ∷ []) }
{
    let copy: Policy = policy.clone()?;
    all.push(copy)?;
    Ok(())
}

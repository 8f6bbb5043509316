#![tactic(auto, using(cedar_policy_json_reader::proofs::Refused::refusals, cedar_policy_json_reader::proofs::Lists::lists, cedar_template_links::proofs::Making::joins))]
//! Sets of policies, with templates.
ghost use Rattle.std.specs.Prelude.{◌≡◌, ◌≤◌, ◌+◌, [], ◌∷◌, ◌++◌, Ok, None, map, OnOk, IfOk, IfErr};
ghost use Rattle.json.specs.Find.{get};
ghost use Rattle.json.specs.Value.{value_view, members_view};
ghost use Rattle.cedar_functions.specs.Functions.{knowledge};
ghost use Rattle.cedar_layers.specs.Policies.{policy_view, policy_id_text};
ghost use Rattle.cedar_layers.specs.PolicySets.{policies_view};
ghost use Rattle.cedar_policy_json_reader.specs.Expressions.{expression_said};
ghost use Rattle.cedar_policy_json_reader.specs.Lists.{IsOneMore};
ghost use Rattle.cedar_policy_json_reader.specs.Paths.{at_key};
ghost use Rattle.cedar_policy_json_reader.specs.Policies.{policy_by};
ghost use Rattle.cedar_policy_json_reader.specs.Refusals.{IsRefusal, IsMemory, under};
ghost use Rattle.cedar_policy_set_reader.specs.PolicySets as sets;
ghost use Rattle.cedar_template_links.specs.Links.{link_view};

use crate::ids::new_id;
use cedar_functions::Functions;
use cedar_layers::policies::{Policy, PolicyID, PolicySet, PolicySetError};
use cedar_policy_json_reader::{
    PolicyJsonError, RefusalReason, member_count, object, policy_from_json, template_from_json,
};
use cedar_template_links::{Link, LinkForm, link_all, links_from_json};
use json::Value;
use std::alloc::{AllocError, Global};

/// The policies of a set, its templates and its links.
#[derive(Drop)]
pub struct ReadPolicies {
    /// The static policies, in the order of the JSON, and behind them the policies of the links.
    pub policies: PolicySet,
    /// The templates, in the order of the JSON.
    pub templates: Vec<Policy>,
    /// The links, in the order of the JSON.
    pub links: Vec<Link>,
}

/// The set of policies that the JSON value says: an object of `staticPolicies` and `templates`, each an object with ids
/// for its keys, and of `templateLinks`, an array of links of these templates. Each of the three may be left out. No id
/// comes twice. The levels of a condition are at most `limit`, and its functions are of these. Refuses with `Refused`,
/// which holds the path of the part that is refused first, and the reason: static policies are read first, then
/// templates, then links, and last the policies of the links are made; `Memory` is out of memory. The time that it takes
/// grows with the square of the number of policies.
pub fn policy_set_from_json(
    alloc: Global,
    json: &Value<'_>,
    functions: &Functions,
    limit: usize,
) -> Result<ReadPolicies, PolicyJsonError>
    ensures said { IfOk result (λ r. sets.policy_set_said (knowledge functions.now) limit (value_view json.now)
        ≡ Ok (sets.set_view r)) }
    ensures refused { IfErr result
        (IsRefusal (sets.policy_set_said (knowledge functions.now) limit (value_view json.now))) }
{
    match member_count(json) {
        Some(count) => if count == section_count(json) {
            read_sections(alloc, json, functions, limit)
        } else {
            Err(PolicyJsonError::refusal(alloc, RefusalReason::UnexpectedMember))
        },
        None => Err(PolicyJsonError::refusal(alloc, RefusalReason::NotAnObject)),
    }
}

// How many of its members the set has.
fn section_count(json: &Value<'_>) -> usize
    ensures { result ≡ sets.section_count (value_view json.now) }
{
    one_if_there(json, "staticPolicies")
        + one_if_there(json, "templates")
        + one_if_there(json, "templateLinks")
}

fn one_if_there(json: &Value<'_>, key: &str) -> usize
    ensures counted { result ≡ sets.one_if_there (get key.now (value_view json.now)) }
    ensures small { result ≤ 1 }
{
    match json.get(key) {
        Some(_) => 1,
        None => 0,
    }
}

fn read_sections(
    alloc: Global,
    json: &Value<'_>,
    functions: &Functions,
    limit: usize,
) -> Result<ReadPolicies, PolicyJsonError>
    ensures said { IfOk result (λ r. sets.sections_said (expression_said (knowledge functions.now) limit)
        (value_view json.now) ≡ Ok (sets.set_view r)) }
    ensures refused { IfErr result
        (IsRefusal (sets.sections_said (expression_said (knowledge functions.now) limit) (value_view json.now))) }
{
    let none: Vec<Policy> = Vec::new(alloc);
    match policies_at(
        alloc,
        false,
        "staticPolicies",
        json,
        &none,
        functions,
        limit,
    ) {
        Ok(policies) => with_templates(alloc, json, policies, functions, limit),
        Err(error) => Err(error),
    }
}

fn with_templates(
    alloc: Global,
    json: &Value<'_>,
    policies: Vec<Policy>,
    functions: &Functions,
    limit: usize,
) -> Result<ReadPolicies, PolicyJsonError>
    ensures said { IfOk result (λ r. sets.with_templates (expression_said (knowledge functions.now) limit)
        (value_view json.now) (map policy_view policies.items) ≡ Ok (sets.set_view r)) }
    ensures refused { IfErr result (IsRefusal (sets.with_templates
        (expression_said (knowledge functions.now) limit) (value_view json.now) (map policy_view policies.items))) }
{
    match policies_at(alloc, true, "templates", json, &policies, functions, limit) {
        Ok(templates) => with_links(alloc, json, policies, templates),
        Err(error) => {
            drop(policies);
            Err(error)
        }
    }
}

fn with_links(
    alloc: Global,
    json: &Value<'_>,
    policies: Vec<Policy>,
    templates: Vec<Policy>,
) -> Result<ReadPolicies, PolicyJsonError>
    ensures said { IfOk result (λ r. sets.with_links (value_view json.now) (map policy_view policies.items)
        (map policy_view templates.items) ≡ Ok (sets.set_view r)) }
    ensures refused { IfErr result (IsRefusal (sets.with_links (value_view json.now)
        (map policy_view policies.items) (map policy_view templates.items))) }
{
    match links_at(alloc, json) {
        Ok(links) => with_linked(alloc, policies, templates, links),
        Err(error) => {
            drop((policies, templates));
            Err(error)
        }
    }
}

// The links; none, where there is no such member.
fn links_at(alloc: Global, json: &Value<'_>) -> Result<Vec<Link>, PolicyJsonError>
    ensures said { IfOk result (λ ls. sets.links_at (value_view json.now) ≡ Ok (map link_view ls.items)) }
    ensures refused { IfErr result (IsRefusal (sets.links_at (value_view json.now))) }
{
    match json.get("templateLinks") {
        Some(links) => match links_from_json(alloc, links) {
            Ok(links) => Ok(links),
            Err(error) => Err(error.under_key(alloc, "templateLinks")),
        },
        None => Ok(Vec::new(alloc)),
    }
}

// The set with the policies of the links.
fn with_linked(
    alloc: Global,
    policies: Vec<Policy>,
    templates: Vec<Policy>,
    links: Vec<Link>,
) -> Result<ReadPolicies, PolicyJsonError>
    ensures said { IfOk result (λ r. sets.with_linked (map policy_view policies.items)
        (map policy_view templates.items) (map link_view links.items) ≡ Ok (sets.set_view r)) }
    ensures refused { IfErr result (IsRefusal (sets.with_linked (map policy_view policies.items)
        (map policy_view templates.items) (map link_view links.items))) }
{
    match linked_policies(alloc, &policies, &templates, &links) {
        Ok(linked) => set_of_all(alloc, policies, linked, templates, links),
        Err(error) => {
            drop((policies, (templates, links)));
            Err(error)
        }
    }
}

fn linked_policies(
    alloc: Global,
    policies: &Vec<Policy>,
    templates: &Vec<Policy>,
    links: &Vec<Link>,
) -> Result<Vec<Policy>, PolicyJsonError>
    ensures said { IfOk result (λ ps. sets.linked_policies (map policy_view policies.now.items)
        (map policy_view templates.now.items) (map link_view links.now.items) ≡ Ok (map policy_view ps.items)) }
    ensures refused { IfErr result (IsRefusal (sets.linked_policies (map policy_view policies.now.items)
        (map policy_view templates.now.items) (map link_view links.now.items))) }
{
    match link_all(alloc, LinkForm::Set, policies, templates, links) {
        Ok(linked) => Ok(linked),
        Err(refused) => Err(refused.under_key(alloc, "templateLinks")),
    }
}

fn set_of_all(
    alloc: Global,
    policies: Vec<Policy>,
    linked: Vec<Policy>,
    templates: Vec<Policy>,
    links: Vec<Link>,
) -> Result<ReadPolicies, PolicyJsonError>
    ensures said { IfOk result (λ r. sets.set_of_all (map policy_view policies.items) (map policy_view templates.items)
        (map link_view links.items) (map policy_view linked.items) ≡ Ok (sets.set_view r)) }
    ensures refused { IfErr result (IsRefusal (sets.set_of_all (map policy_view policies.items)
        (map policy_view templates.items) (map link_view links.items) (map policy_view linked.items))) }
{
    match joined(policies, linked) {
        Ok(policies) => set_of(alloc, policies, templates, links),
        Err(error) => {
            drop((templates, links));
            Err(PolicyJsonError::Memory(error))
        }
    }
}

fn joined(mut policies: Vec<Policy>, mut linked: Vec<Policy>) -> Result<Vec<Policy>, AllocError>
    ensures { IfOk result
        (λ ps. map policy_view ps.items ≡ map policy_view policies.items ++ map policy_view linked.items) }
{
    policies.append(&mut linked)?;
    Ok(policies)
}

fn set_of(
    alloc: Global,
    policies: Vec<Policy>,
    templates: Vec<Policy>,
    links: Vec<Link>,
) -> Result<ReadPolicies, PolicyJsonError>
    ensures said { IfOk result (λ r. sets.set_of (map policy_view templates.items) (map link_view links.items)
        (map policy_view policies.items) ≡ Ok (sets.set_view r)) }
    ensures refused { IfErr result (IsRefusal (sets.set_of (map policy_view templates.items)
        (map link_view links.items) (map policy_view policies.items))) }
{
    match PolicySet::try_from_iter(alloc, policies) {
        Ok(set) => Ok(set_with(set, templates, links)),
        Err(PolicySetError::Occupied { id: _ }) => {
            drop((templates, links));
            Err(PolicyJsonError::refusal(alloc, RefusalReason::RepeatedKey))
        }
        Err(PolicySetError::Memory(error)) => {
            drop((templates, links));
            Err(PolicyJsonError::Memory(error))
        }
    }
}

fn set_with(policies: PolicySet, templates: Vec<Policy>, links: Vec<Link>) -> ReadPolicies
    ensures said { sets.set_of (map policy_view templates.items) (map link_view links.items) (policies_view policies)
        ≡ Ok (sets.set_view result) }
{
    drop(policies.policies());
    ReadPolicies {
        policies,
        templates,
        links,
    }
}

// ---- policies, and templates, under their ids

// The policies at this key, or where it is open the templates, none of which has an id of the others.
fn policies_at(
    alloc: Global,
    is_open: bool,
    key: &str,
    json: &Value<'_>,
    others: &Vec<Policy>,
    functions: &Functions,
    limit: usize,
) -> Result<Vec<Policy>, PolicyJsonError>
    ensures said { IfOk result (λ ps. sets.section_in key.now [] (sets.members_said is_open
        (expression_said (knowledge functions.now) limit) (map policy_view others.now.items))
        (get key.now (value_view json.now)) ≡ Ok (map policy_view ps.items)) }
    ensures refused { IfErr result (IsRefusal (sets.section_in key.now [] (sets.members_said is_open
        (expression_said (knowledge functions.now) limit) (map policy_view others.now.items))
        (get key.now (value_view json.now)))) }
{
    match json.get(key) {
        Some(members) => match read_members(alloc, is_open, members, others, functions, limit) {
            Ok(policies) => Ok(policies),
            Err(error) => Err(error.under_key(alloc, key)),
        },
        None => Ok(Vec::new(alloc)),
    }
}

fn read_members(
    alloc: Global,
    is_open: bool,
    json: &Value<'_>,
    others: &Vec<Policy>,
    functions: &Functions,
    limit: usize,
) -> Result<Vec<Policy>, PolicyJsonError>
    ensures said { IfOk result (λ ps. sets.members_said is_open (expression_said (knowledge functions.now) limit)
        (map policy_view others.now.items) (value_view json.now) ≡ Ok (map policy_view ps.items)) }
    ensures refused { IfErr result (IsRefusal (sets.members_said is_open
        (expression_said (knowledge functions.now) limit) (map policy_view others.now.items) (value_view json.now))) }
{
    match object(json) {
        Some(members) => read_each(alloc, is_open, members, others, functions, limit),
        None => Err(PolicyJsonError::refusal(alloc, RefusalReason::NotAnObject)),
    }
}

fn read_each<'a>(
    alloc: Global,
    is_open: bool,
    members: &Vec<(&'a str, Value<'a>)>,
    others: &Vec<Policy>,
    functions: &Functions,
    limit: usize,
) -> Result<Vec<Policy>, PolicyJsonError>
    ensures said { IfOk result (λ ps. sets.members_from is_open (expression_said (knowledge functions.now) limit)
        (map policy_view others.now.items) [] (members_view members.now.items) ≡ Ok (map policy_view ps.items)) }
    ensures refused { IfErr result (IsRefusal (sets.members_from is_open
        (expression_said (knowledge functions.now) limit) (map policy_view others.now.items) []
        (members_view members.now.items))) }
{
    let mut policies: Vec<Policy> = Vec::new(alloc);
    match put_members(
        alloc,
        is_open,
        members,
        others,
        &mut policies,
        functions,
        limit,
    ) {
        Ok(()) => Ok(policies),
        Err(error) => {
            drop(policies);
            Err(error)
        }
    }
}

fn put_members<'a>(
    alloc: Global,
    is_open: bool,
    members: &Vec<(&'a str, Value<'a>)>,
    others: &Vec<Policy>,
    policies: &mut Vec<Policy>,
    functions: &Functions,
    limit: usize,
) -> Result<(), PolicyJsonError>
    requires { policies.old.items ≡ [] }
    ensures said { OnOk result (sets.members_from is_open (expression_said (knowledge functions.now) limit)
        (map policy_view others.now.items) [] (members_view members.now.items)
        ≡ Ok (map policy_view policies.new.items)) }
    ensures refused { IfErr result (IsRefusal (sets.members_from is_open
        (expression_said (knowledge functions.now) limit) (map policy_view others.now.items) []
        (members_view members.now.items))) }
{
    'members: for member in members {
        put_member(
            alloc, is_open, member.0, &member.1, others, policies, functions, limit,
        )?;
    }
    Ok(())
}

fn put_member(
    alloc: Global,
    is_open: bool,
    key: &str,
    value: &Value<'_>,
    others: &Vec<Policy>,
    policies: &mut Vec<Policy>,
    functions: &Functions,
    limit: usize,
) -> Result<(), PolicyJsonError>
    ensures said { OnOk result (IsOneMore (map policy_view policies.old.items) (under (at_key key.now)
        (sets.member_said is_open (expression_said (knowledge functions.now) limit)
        (map policy_view policies.old.items) (map policy_view others.now.items) key.now (value_view value.now)))
        (map policy_view policies.new.items)) }
    ensures refused { IfErr result (IsRefusal (under (at_key key.now)
        (sets.member_said is_open (expression_said (knowledge functions.now) limit)
        (map policy_view policies.old.items) (map policy_view others.now.items) key.now (value_view value.now)))) }
{
    match read_member(
        alloc, is_open, key, value, others, policies, functions, limit,
    ) {
        Ok(policy) => put_policy(policy, policies),
        Err(error) => Err(error.under_key(alloc, key)),
    }
}

fn read_member(
    alloc: Global,
    is_open: bool,
    key: &str,
    value: &Value<'_>,
    others: &Vec<Policy>,
    policies: &Vec<Policy>,
    functions: &Functions,
    limit: usize,
) -> Result<Policy, PolicyJsonError>
    ensures said { IfOk result (λ p. sets.member_said is_open (expression_said (knowledge functions.now) limit)
        (map policy_view policies.now.items) (map policy_view others.now.items) key.now (value_view value.now)
        ≡ Ok (policy_view p)) }
    ensures refused { IfErr result (IsRefusal (sets.member_said is_open
        (expression_said (knowledge functions.now) limit) (map policy_view policies.now.items)
        (map policy_view others.now.items) key.now (value_view value.now))) }
{
    match new_id(alloc, key, policies, others) {
        Ok(id) => read_policy(alloc, is_open, value, id, functions, limit),
        Err(error) => Err(error),
    }
}

// A policy or, where it is open, a template.
fn read_policy(
    alloc: Global,
    is_open: bool,
    value: &Value<'_>,
    id: PolicyID,
    functions: &Functions,
    limit: usize,
) -> Result<Policy, PolicyJsonError>
    ensures said { IfOk result (λ p. policy_by is_open (expression_said (knowledge functions.now) limit)
        (policy_id_text id) (value_view value.now) ≡ Ok (policy_view p)) }
    ensures refused { IfErr result (IsRefusal (policy_by is_open (expression_said (knowledge functions.now) limit)
        (policy_id_text id) (value_view value.now))) }
{
    if is_open {
        template_from_json(alloc, value, id, functions, limit)
    } else {
        policy_from_json(alloc, value, id, functions, limit)
    }
}

fn put_policy(policy: Policy, policies: &mut Vec<Policy>) -> Result<(), PolicyJsonError>
    ensures said { OnOk result
        (map policy_view policies.new.items ≡ map policy_view policies.old.items ++ policy_view policy ∷ []) }
    ensures memory { IfErr result IsMemory }
{
    match policies.push(policy) {
        Ok(()) => Ok(()),
        Err(failed) => Err(PolicyJsonError::from(failed)),
    }
}

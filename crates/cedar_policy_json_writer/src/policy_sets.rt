#![tactic(auto, using(cedar_json_writer::proofs::Trees::trees))]
//! Sets of policies, with templates and links.
ghost use Rattle.std.specs.Prelude.{◌≡◌, [], ◌∷◌, ◌++◌, map, IfOk, OnOk};
ghost use Rattle.cedar_layers.specs.Policies.{policy_view, policy_id_text, slots_view};
ghost use Rattle.cedar_layers.specs.PolicySets.{policies_view};
ghost use Rattle.cedar_names.specs.Leaves.{slot_view};
ghost use Rattle.cedar_json_writer.specs.Trees.{json_view, members_seen};
ghost use Rattle.cedar_policy_json_writer.specs.PolicySets as sets;
ghost use Rattle.cedar_policy_json_writer.specs.Links.{link_view};

use crate::leaves::uid_to_json;
use crate::links::TemplateLink;
use crate::names::slot_name;
use crate::objects::object_of_three;
use crate::policies::{policy_to_json, template_to_json};
use cedar_json_writer::{JsonValue, put_item, put_member, text_to_json};
use cedar_layers::policies::{Policy, PolicyID, PolicySet};
use cedar_names::{SlotEnv, SlotId};
use std::alloc::{AllocError, Global};
use std::rc::RcStr;

/// The set of these policies, templates and links in Cedar's JSON of policies: `staticPolicies` and `templates`, each
/// under its id, and `templateLinks`. A policy that is linked is a static one here, with the entities that its slots
/// are linked to: hand it in as a link, and not among the policies, if it is to stay one. No id is looked at: the
/// caller keeps those of templates and links apart from each other and from those of the policies. Refuses only if out
/// of memory.
pub fn policy_set_to_json(
    alloc: Global,
    policies: &PolicySet,
    templates: &[Policy],
    links: &[TemplateLink],
) -> Result<JsonValue, AllocError>
    ensures { IfOk result (λ j. json_view j ≡ sets.policy_set_json (policies_view policies.now)
        (map policy_view templates.now) (map link_view links.now)) }
{
    let policies = policies_to_json(alloc, policies)?;
    let templates = templates_to_json(alloc, templates)?;
    let links = links_to_json(alloc, links)?;
    object_of_three(
        alloc,
        "staticPolicies",
        policies,
        "templates",
        templates,
        "templateLinks",
        links,
    )
}

// ---- policies and templates, each under its id

fn policies_to_json(alloc: Global, policies: &PolicySet) -> Result<JsonValue, AllocError>
    ensures { IfOk result (λ j. json_view j ≡ sets.policies_json (policies_view policies.now)) }
{
    let mut members: Vec<(RcStr, JsonValue)> = Vec::new(alloc);
    'policies: for policy in policies.policies() {
        put_policy(alloc, policy, &mut members)?;
    }
    Ok(JsonValue::Object(members))
}

fn put_policy(
    alloc: Global,
    policy: &Policy,
    members: &mut Vec<(RcStr, JsonValue)>,
) -> Result<(), AllocError>
    ensures { OnOk result (members_seen members.new.items
        ≡ members_seen members.old.items ++ sets.policy_member (policy_view policy.now) ∷ []) }
{
    let json = policy_to_json(alloc, policy)?;
    put_under_id(alloc, policy.id(), json, members)
}

fn templates_to_json(alloc: Global, templates: &[Policy]) -> Result<JsonValue, AllocError>
    ensures { IfOk result (λ j. json_view j ≡ sets.templates_json (map policy_view templates.now)) }
{
    let mut members: Vec<(RcStr, JsonValue)> = Vec::new(alloc);
    'templates: for template in templates {
        put_template(alloc, template, &mut members)?;
    }
    Ok(JsonValue::Object(members))
}

fn put_template(
    alloc: Global,
    template: &Policy,
    members: &mut Vec<(RcStr, JsonValue)>,
) -> Result<(), AllocError>
    ensures { OnOk result (members_seen members.new.items
        ≡ members_seen members.old.items ++ sets.template_member (policy_view template.now) ∷ []) }
{
    let json = template_to_json(alloc, template)?;
    put_under_id(alloc, template.id(), json, members)
}

fn put_under_id(
    alloc: Global,
    id: &PolicyID,
    json: JsonValue,
    members: &mut Vec<(RcStr, JsonValue)>,
) -> Result<(), AllocError>
    ensures { OnOk result (members_seen members.new.items
        ≡ members_seen members.old.items ++ (policy_id_text id.now, json_view json) ∷ []) }
{
    let id = id.to_string(alloc)?;
    put_member(alloc, id.as_str(), json, members)?;
    Ok(())
}

// ---- links

fn links_to_json(alloc: Global, links: &[TemplateLink]) -> Result<JsonValue, AllocError>
    ensures { IfOk result (λ j. json_view j ≡ sets.links_json (map link_view links.now)) }
{
    let mut items: Vec<JsonValue> = Vec::new(alloc);
    'links: for link in links {
        put_link(alloc, link, &mut items)?;
    }
    Ok(JsonValue::Array(items))
}

fn put_link(
    alloc: Global,
    link: &TemplateLink,
    items: &mut Vec<JsonValue>,
) -> Result<(), AllocError>
    ensures { OnOk result (map json_view items.new.items
        ≡ map json_view items.old.items ++ sets.link_json (link_view link.now) ∷ []) }
{
    let json = link_to_json(alloc, link)?;
    put_item(json, items)?;
    Ok(())
}

fn link_to_json(alloc: Global, link: &TemplateLink) -> Result<JsonValue, AllocError>
    ensures { IfOk result (λ j. json_view j ≡ sets.link_json (link_view link.now)) }
{
    let template = id_to_json(alloc, &link.template_id)?;
    let new = id_to_json(alloc, &link.new_id)?;
    let values = values_to_json(alloc, &link.values)?;
    object_of_three(
        alloc,
        "templateId",
        template,
        "newId",
        new,
        "values",
        values,
    )
}

fn id_to_json(alloc: Global, id: &PolicyID) -> Result<JsonValue, AllocError>
    ensures { IfOk result (λ j. json_view j ≡ sets.id_json (policy_id_text id.now)) }
{
    let text = id.to_string(alloc)?;
    text_to_json(alloc, text.as_str())
}

// The entities of the slots.
fn values_to_json(alloc: Global, slots: &SlotEnv) -> Result<JsonValue, AllocError>
    ensures { IfOk result (λ j. json_view j ≡ sets.values_json (slots_view slots.now)) }
{
    let mut members: Vec<(RcStr, JsonValue)> = Vec::new(alloc);
    put_value(alloc, slots, SlotId::Principal, &mut members)?;
    put_value(alloc, slots, SlotId::Resource, &mut members)?;
    Ok(JsonValue::Object(members))
}

// Puts the entity of the slot behind the members that are there, where it has one.
fn put_value(
    alloc: Global,
    slots: &SlotEnv,
    slot: SlotId,
    members: &mut Vec<(RcStr, JsonValue)>,
) -> Result<(), AllocError>
    ensures { OnOk result (members_seen members.new.items ≡ members_seen members.old.items
        ++ sets.value_members (slot_view slot) (slots_view slots.now (slot_view slot))) }
{
    match slots.get(&slot) {
        Some(uid) => {
            let uid = uid_to_json(alloc, uid)?;
            put_member(alloc, slot_name(slot), uid, members)
        }
        None => Ok(()),
    }
}

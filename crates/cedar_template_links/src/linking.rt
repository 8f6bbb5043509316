#![tactic(auto, using(cedar_policy_json_reader::proofs::Refused::refusals, cedar_policy_json_reader::proofs::Lists::lists, crate::proofs::Filling::filling))]
//! The policies that links make of templates.
ghost use Rattle.std.specs.Prelude.{◌≡◌, [], ◌∷◌, ◌++◌, Ok, map, length, option_map, OnOk, IfOk, IfErr};
ghost use Rattle.cedar_names.specs.Leaves.{slot_view};
ghost use Rattle.cedar_names.specs.Names.{uid_name};
ghost use Rattle.cedar_layers.specs.Policies.{policy_view, policy_id_text, slots_view, linked};
ghost use Rattle.cedar_policy_json_reader.specs.Lists.{IsOneMore};
ghost use Rattle.cedar_policy_json_reader.specs.Paths.{at_index};
ghost use Rattle.cedar_policy_json_reader.specs.Refusals.{IsRefusal, IsMemory, under};
ghost use Rattle.cedar_template_links.specs.Linking as linking;
ghost use Rattle.cedar_template_links.specs.Links.{link_view, name_of};

use crate::forms::{LinkForm, no_template, taken_id, under_values};
use crate::links::Link;
use crate::templates::{find_template, has_principal_slot, has_resource_slot, is_taken};
use cedar_layers::policies::{Policy, PolicyID};
use cedar_names::{EntityUID, SlotEnv, SlotId};
use cedar_policy_json_reader::{PolicyJsonError, RefusalReason};
use std::alloc::{AllocError, Global};

/// The policies that the links make of these templates, one a link, in their order: each template under the new id, with
/// the entities in its slots. The form says only where the parts of a refused link stand. Refuses with `Refused`, which
/// holds the path of the part that is refused first, from the array of links on, and the reason: link by link a template
/// that is not there (`NoSuchTemplate`); a new id that one of these policies, a template or a link before has (`TakenId`);
/// a slot of the template without an entity (`MissingMember`); an entity for a slot that the template does not have
/// (`NoSuchSlot`). `Memory` is out of memory. The time that it takes grows with links times policies.
pub fn link_all(
    alloc: Global,
    form: LinkForm,
    policies: &[Policy],
    templates: &[Policy],
    links: &[Link],
) -> Result<Vec<Policy>, PolicyJsonError>
    ensures made { IfOk result (λ ps. linking.links_made form (map policy_view policies.now)
        (map policy_view templates.now) (map link_view links.now) ≡ Ok (map policy_view ps.items)) }
    ensures refused { IfErr result (IsRefusal (linking.links_made form (map policy_view policies.now)
        (map policy_view templates.now) (map link_view links.now))) }
{
    let mut made: Vec<Policy> = Vec::new(alloc);
    match put_all(alloc, form, policies, templates, links, &mut made) {
        Ok(()) => Ok(made),
        Err(error) => {
            drop(made);
            Err(error)
        }
    }
}

fn put_all(
    alloc: Global,
    form: LinkForm,
    policies: &[Policy],
    templates: &[Policy],
    links: &[Link],
    made: &mut Vec<Policy>,
) -> Result<(), PolicyJsonError>
    requires { made.old.items ≡ [] }
    ensures made { OnOk result (linking.made_from form (map policy_view policies.now)
        (map policy_view templates.now) [] (map link_view links.now) ≡ Ok (map policy_view made.new.items)) }
    ensures refused { IfErr result (IsRefusal (linking.made_from form (map policy_view policies.now)
        (map policy_view templates.now) [] (map link_view links.now))) }
{
    'links: for link in links {
        put_linked(alloc, form, policies, templates, link, made)?;
    }
    Ok(())
}

fn put_linked(
    alloc: Global,
    form: LinkForm,
    policies: &[Policy],
    templates: &[Policy],
    link: &Link,
    made: &mut Vec<Policy>,
) -> Result<(), PolicyJsonError>
    ensures made { OnOk result (IsOneMore (map policy_view made.old.items)
        (under (at_index (length (map policy_view made.old.items))) (linking.link_made form
        (map policy_view policies.now) (map policy_view templates.now) (map policy_view made.old.items)
        (link_view link.now))) (map policy_view made.new.items)) }
    ensures refused { IfErr result (IsRefusal (under (at_index (length (map policy_view made.old.items)))
        (linking.link_made form (map policy_view policies.now) (map policy_view templates.now)
        (map policy_view made.old.items) (link_view link.now)))) }
{
    match link_one(alloc, form, policies, templates, made, link) {
        Ok(policy) => put(policy, made),
        Err(error) => Err(error.under_index(made.len())),
    }
}

fn put(policy: Policy, policies: &mut Vec<Policy>) -> Result<(), PolicyJsonError>
    ensures made { OnOk result
        (map policy_view policies.new.items ≡ map policy_view policies.old.items ++ policy_view policy ∷ []) }
    ensures memory { IfErr result IsMemory }
{
    match policies.push(policy) {
        Ok(()) => Ok(()),
        Err(failed) => Err(PolicyJsonError::from(failed)),
    }
}

/// The policy that the link makes of its template, beside these policies and those that other links made. Refuses as
/// `link_all` does, with the path from the link on.
pub fn link_one(
    alloc: Global,
    form: LinkForm,
    policies: &[Policy],
    templates: &[Policy],
    made: &[Policy],
    link: &Link,
) -> Result<Policy, PolicyJsonError>
    ensures made { IfOk result (λ p. linking.link_made form (map policy_view policies.now)
        (map policy_view templates.now) (map policy_view made.now) (link_view link.now) ≡ Ok (policy_view p)) }
    ensures refused { IfErr result (IsRefusal (linking.link_made form (map policy_view policies.now)
        (map policy_view templates.now) (map policy_view made.now) (link_view link.now))) }
{
    match find_template(&link.template_id, templates) {
        Some(template) => {
            if is_taken(&link.new_id, policies, templates, made) {
                Err(taken_id(alloc, form))
            } else {
                fill(alloc, form, template, link)
            }
        }
        None => Err(no_template(alloc, form)),
    }
}

// The template under the new id, with the entities in its slots.
fn fill(
    alloc: Global,
    form: LinkForm,
    template: &Policy,
    link: &Link,
) -> Result<Policy, PolicyJsonError>
    ensures made { IfOk result (λ p. linking.linked_under form (link_view link.now) (policy_view template.now)
        (policy_id_text link.now.new_id) ≡ Ok (policy_view p)) }
    ensures refused { IfErr result (IsRefusal (linking.linked_under form (link_view link.now)
        (policy_view template.now) (policy_id_text link.now.new_id))) }
{
    match values(alloc, template, link) {
        Ok((principal, resource)) => {
            match linked_policy(alloc, template, &link.new_id, principal, resource) {
                Ok(policy) => Ok(policy),
                Err(error) => Err(PolicyJsonError::Memory(error)),
            }
        }
        Err(error) => Err(under_values(alloc, form, error)),
    }
}

// The entities of the slots.
fn values<'a>(
    alloc: Global,
    template: &Policy,
    link: &'a Link,
) -> Result<(Option<&'a EntityUID>, Option<&'a EntityUID>), PolicyJsonError>
    ensures said { IfOk result (λ p. linking.entities_said (policy_view template.now) (link_view link.now)
        ≡ Ok (option_map (λ u. uid_name u.now) p.0, option_map (λ u. uid_name u.now) p.1)) }
    ensures refused { IfErr result
        (IsRefusal (linking.entities_said (policy_view template.now) (link_view link.now))) }
{
    match value(
        alloc,
        "?principal",
        has_principal_slot(template),
        &link.principal,
    ) {
        Ok(principal) => {
            match value(
                alloc,
                "?resource",
                has_resource_slot(template),
                &link.resource,
            ) {
                Ok(resource) => Ok((principal, resource)),
                Err(error) => Err(error),
            }
        }
        Err(error) => Err(error),
    }
}

// The entity, exactly where the template has the slot.
fn value<'a>(
    alloc: Global,
    key: &str,
    has_slot: bool,
    entity: &'a Option<EntityUID>,
) -> Result<Option<&'a EntityUID>, PolicyJsonError>
    ensures said { IfOk result (λ u. linking.entity_said key.now has_slot (name_of entity.now)
        ≡ Ok (option_map (λ v. uid_name v.now) u)) }
    ensures refused { IfErr result (IsRefusal (linking.entity_said key.now has_slot (name_of entity.now))) }
{
    match entity {
        Some(uid) => if has_slot {
            Ok(Some(uid))
        } else {
            Err(PolicyJsonError::refusal_at(alloc, key, RefusalReason::NoSuchSlot))
        },
        None => if has_slot {
            Err(PolicyJsonError::refusal_at(alloc, key, RefusalReason::MissingMember))
        } else {
            Ok(None)
        },
    }
}

fn linked_policy(
    alloc: Global,
    template: &Policy,
    id: &PolicyID,
    principal: Option<&EntityUID>,
    resource: Option<&EntityUID>,
) -> Result<Policy, AllocError>
    ensures { IfOk result (λ p. policy_view p ≡ linked (policy_view template.now) (policy_id_text id.now)
        (linking.slots_with (
          option_map (λ u. uid_name u.now) principal.entry,
          option_map (λ u. uid_name u.now) resource.entry,
        ))) }
{
    let env = slot_env(alloc, principal, resource)?;
    let id: PolicyID = id.clone()?;
    let policy = template.link(alloc, id, env)?;
    Ok(policy)
}

// These entities in their slots.
fn slot_env(
    alloc: Global,
    principal: Option<&EntityUID>,
    resource: Option<&EntityUID>,
) -> Result<SlotEnv, AllocError>
    ensures { IfOk result (λ e. slots_view e ≡ linking.slots_with
        (option_map (λ u. uid_name u.now) principal.entry, option_map (λ u. uid_name u.now) resource.entry)) }
{
    let mut env = SlotEnv::new(alloc);
    fill_slot(SlotId::Principal, principal, &mut env)?;
    fill_slot(SlotId::Resource, resource, &mut env)?;
    Ok(env)
}

// Puts the entity into the slot, where there is one.
fn fill_slot(slot: SlotId, uid: Option<&EntityUID>, env: &mut SlotEnv) -> Result<(), AllocError>
    ensures { OnOk result (slots_view env.new
        ≡ linking.with_value (slot_view slot) (option_map (λ u. uid_name u.now) uid.entry) (slots_view env.old)) }
{
    match uid {
        Some(uid) => {
            let uid: EntityUID = uid.clone()?;
            env.insert(slot, uid)?;
            Ok(())
        }
        None => Ok(()),
    }
}

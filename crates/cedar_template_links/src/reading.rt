#![tactic(auto, using(cedar_policy_json_reader::proofs::Views::views, cedar_policy_json_reader::proofs::Refused::refusals, cedar_policy_json_reader::proofs::Lists::lists, crate::proofs::Making::made))]
//! Links of a set's JSON.
ghost use Rattle.std.specs.Prelude.{◌≡◌, [], ◌∷◌, ◌++◌, None, Ok, map, option_map, OnOk, IfOk, IfErr};
ghost use Rattle.json.specs.Value.{value_view, items_view};
ghost use Rattle.cedar_layers.specs.Policies.{policy_id_text};
ghost use Rattle.cedar_policy_json_reader.specs.Lists.{IsOneMore};
ghost use Rattle.cedar_policy_json_reader.specs.Paths.{at_index};
ghost use Rattle.cedar_policy_json_reader.specs.Refusals.{IsRefusal, IsMemory, under};
ghost use Rattle.cedar_policy_json_reader.specs.Scopes.{plain_uid_said};
ghost use Rattle.cedar_template_links.specs.Links as links;

use crate::forms::LinkForm;
use crate::links::Link;
use crate::parts::{Parts, read_parts, read_slots};
use cedar_layers::policies::PolicyID;
use cedar_names::EntityUID;
use cedar_policy_json_reader::{PolicyJsonError, RefusalReason, array, plain_uid};
use json::Value;
use std::alloc::{AllocError, Global};
use std::rc::RcStr;

/// The links that the JSON value says, as a set has them: an array of objects of `templateId`, `newId` and `values`, which
/// has an entity at `?principal`, at `?resource`, or at both. Refuses with `Refused`, which holds the path of the part that
/// is refused first, and the reason; `Memory` is out of memory.
pub fn links_from_json(alloc: Global, json: &Value<'_>) -> Result<Vec<Link>, PolicyJsonError>
    ensures said { IfOk result
        (λ ls. links.links_said (value_view json.now) ≡ Ok (map links.link_view ls.items)) }
    ensures refused { IfErr result (IsRefusal (links.links_said (value_view json.now))) }
{
    match array(json) {
        Some(items) => read_links(alloc, items),
        None => Err(PolicyJsonError::refusal(alloc, RefusalReason::NotAnArray)),
    }
}

fn read_links(alloc: Global, items: &Vec<Value<'_>>) -> Result<Vec<Link>, PolicyJsonError>
    ensures said { IfOk result
        (λ ls. links.links_from 0 (items_view items.now.items) ≡ Ok (map links.link_view ls.items)) }
    ensures refused { IfErr result (IsRefusal (links.links_from 0 (items_view items.now.items))) }
{
    let mut all: Vec<Link> = Vec::new(alloc);
    match put_links(alloc, items, &mut all) {
        Ok(()) => Ok(all),
        Err(error) => {
            drop(all);
            Err(error)
        }
    }
}

fn put_links(
    alloc: Global,
    items: &Vec<Value<'_>>,
    all: &mut Vec<Link>,
) -> Result<(), PolicyJsonError>
    requires { all.old.items ≡ [] }
    ensures said { OnOk result
        (links.links_from 0 (items_view items.now.items) ≡ Ok (map links.link_view all.new.items)) }
    ensures refused { IfErr result (IsRefusal (links.links_from 0 (items_view items.now.items))) }
{
    let mut index: usize = 0;
    'items: for item in items {
        put_link(alloc, index, item, all)?;
        index += 1;
    }
    Ok(())
}

fn put_link(
    alloc: Global,
    index: usize,
    item: &Value<'_>,
    all: &mut Vec<Link>,
) -> Result<(), PolicyJsonError>
    ensures said { OnOk result (IsOneMore (map links.link_view all.old.items)
        (under (at_index index) (links.link_said (value_view item.now))) (map links.link_view all.new.items)) }
    ensures refused { IfErr result (IsRefusal (under (at_index index) (links.link_said (value_view item.now)))) }
{
    match read_link(alloc, item) {
        Ok(link) => put(link, all),
        Err(error) => Err(error.under_index(index)),
    }
}

/// Puts the link behind the others.
pub(crate) fn put(link: Link, all: &mut Vec<Link>) -> Result<(), PolicyJsonError>
    ensures said { OnOk result
        (map links.link_view all.new.items ≡ map links.link_view all.old.items ++ links.link_view link ∷ []) }
    ensures memory { IfErr result IsMemory }
{
    match all.push(link) {
        Ok(()) => Ok(()),
        Err(failed) => Err(PolicyJsonError::from(failed)),
    }
}

fn read_link(alloc: Global, item: &Value<'_>) -> Result<Link, PolicyJsonError>
    ensures said { IfOk result (λ l. links.link_said (value_view item.now) ≡ Ok (links.link_view l)) }
    ensures refused { IfErr result (IsRefusal (links.link_said (value_view item.now))) }
{
    match read_parts(alloc, LinkForm::Set, item) {
        Ok(parts) => with_values(alloc, parts),
        Err(error) => Err(error),
    }
}

fn with_values(alloc: Global, parts: Parts<'_, '_>) -> Result<Link, PolicyJsonError>
    ensures said { IfOk result (λ l. links.link_with (links.parts_of (value_view parts.entry.values.now)
        (parts.entry.template_id.now, parts.entry.new_id.now)) ≡ Ok (links.link_view l)) }
    ensures refused { IfErr result (IsRefusal (links.link_with (links.parts_of (value_view parts.entry.values.now)
        (parts.entry.template_id.now, parts.entry.new_id.now)))) }
{
    match read_values(alloc, parts.values) {
        Ok((principal, resource)) => {
            link_of(alloc, parts.template_id, parts.new_id, principal, resource)
        }
        Err(error) => Err(error.under_key(alloc, "values")),
    }
}

/// The link of these ids and entities.
pub(crate) fn link_of(
    alloc: Global,
    template_id: &str,
    new_id: &str,
    principal: Option<EntityUID>,
    resource: Option<EntityUID>,
) -> Result<Link, PolicyJsonError>
    ensures made { IfOk result (λ l. links.link_view l
        ≡ links.link_as template_id.now new_id.now (links.name_of principal) (links.name_of resource)) }
    ensures memory { IfErr result IsMemory }
{
    match two_ids(alloc, template_id, new_id) {
        Ok((template_id, new_id)) => Ok(Link {
            template_id,
            new_id,
            principal,
            resource,
        }),
        Err(AllocError) => {
            drop((principal, resource));
            Err(PolicyJsonError::Memory(AllocError))
        }
    }
}

fn two_ids(alloc: Global, first: &str, second: &str) -> Result<(PolicyID, PolicyID), AllocError>
    ensures first { IfOk result (λ p. policy_id_text p.0 ≡ first.now) }
    ensures second { IfOk result (λ p. policy_id_text p.1 ≡ second.now) }
{
    let first = PolicyID::from_string(RcStr::from_str(alloc, first)?);
    let second = PolicyID::from_string(RcStr::from_str(alloc, second)?);
    Ok((first, second))
}

fn read_values(
    alloc: Global,
    values: &Value<'_>,
) -> Result<(Option<EntityUID>, Option<EntityUID>), PolicyJsonError>
    ensures said { IfOk result (λ p. links.values_said plain_uid_said (value_view values.now)
        ≡ Ok (links.name_of p.0, links.name_of p.1)) }
    ensures refused { IfErr result (IsRefusal (links.values_said plain_uid_said (value_view values.now))) }
{
    match read_slots(alloc, values) {
        Ok((principal, resource)) => two_entities(alloc, principal, resource),
        Err(error) => Err(error),
    }
}

fn two_entities(
    alloc: Global,
    principal: Option<&Value<'_>>,
    resource: Option<&Value<'_>>,
) -> Result<(Option<EntityUID>, Option<EntityUID>), PolicyJsonError>
    ensures said { IfOk result (λ p. links.two_values plain_uid_said
        (option_map (λ v. value_view v.now) principal.entry, option_map (λ v. value_view v.now) resource.entry)
        ≡ Ok (links.name_of p.0, links.name_of p.1)) }
    ensures refused { IfErr result (IsRefusal (links.two_values plain_uid_said
        (option_map (λ v. value_view v.now) principal.entry, option_map (λ v. value_view v.now) resource.entry))) }
{
    match entity_at(alloc, "?principal", principal) {
        Ok(principal) => match entity_at(alloc, "?resource", resource) {
            Ok(resource) => Ok((principal, resource)),
            Err(error) => {
                drop(principal);
                Err(error)
            }
        },
        Err(error) => Err(error),
    }
}

fn entity_at(
    alloc: Global,
    key: &str,
    value: Option<&Value<'_>>,
) -> Result<Option<EntityUID>, PolicyJsonError>
    ensures said { IfOk result (λ u. links.value_said plain_uid_said key.now
        (option_map (λ v. value_view v.now) value.entry) ≡ Ok (links.name_of u)) }
    ensures refused { IfErr result (IsRefusal (links.value_said plain_uid_said key.now
        (option_map (λ v. value_view v.now) value.entry))) }
{
    match value {
        Some(value) => match plain_uid(alloc, value) {
            Ok(uid) => Ok(Some(uid)),
            Err(error) => Err(error.under_key(alloc, key)),
        },
        None => Ok(None),
    }
}

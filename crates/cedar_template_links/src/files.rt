#![tactic(auto, using(cedar_policy_json_reader::proofs::Views::views, cedar_policy_json_reader::proofs::Refused::refusals, cedar_policy_json_reader::proofs::Lists::lists, crate::proofs::FileTexts::told))]
//! Links of a file, in which an entity is Cedar's text of it.
ghost use Rattle.std.specs.Prelude.{◌≡◌, [], ◌∷◌, ◌++◌, None, Ok, map, option_map, OnOk, IfOk, IfErr};
ghost use Rattle.json.specs.Value.{value_view, items_view};
ghost use Rattle.cedar_names.specs.Names.{uid_name};
ghost use Rattle.cedar_policy_json_reader.specs.Lists.{IsOneMore};
ghost use Rattle.cedar_policy_json_reader.specs.Paths.{at_index};
ghost use Rattle.cedar_policy_json_reader.specs.Refusals.{IsRefusal, IsMemory, under};
ghost use Rattle.cedar_policy_json_reader.specs.Shapes.{text_said};
ghost use Rattle.cedar_template_links.specs.Links as links;
ghost use Rattle.cedar_template_links.specs.LinkFiles as written;

use crate::forms::LinkForm;
use crate::links::Link;
use crate::parts::{Parts, read_parts, read_slots};
use crate::reading::{link_of, put};
use cedar_names::EntityUID;
use cedar_policy_json_reader::{PolicyJsonError, RefusalReason, array, text_at};
use cedar_text_lexer::errors::ReadError;
use cedar_text_parser::parse_entity_uid;
use json::Value;
use std::alloc::{AllocError, Global};

/// A link as a file has it: with the texts of its entities.
#[derive(Drop)]
pub(crate) struct WrittenLink<'a> {
    template_id: &'a str,
    new_id: &'a str,
    principal: Option<&'a str>,
    resource: Option<&'a str>,
}

/// The links that the JSON value says, as a file of links has them: an array of objects of `template_id`, `link_id` and
/// `args`, which has Cedar's text of an entity at `?principal`, at `?resource`, or at both. Refuses with `Refused`, which
/// holds a path and a reason: first for what the JSON is, and then for the first text that is no entity's
/// (`NotAnEntity`); `Memory` is out of memory.
pub fn links_from_file_json(alloc: Global, json: &Value<'_>) -> Result<Vec<Link>, PolicyJsonError>
    ensures said { IfOk result (λ ls. written.IsSaidBy (value_view json.now) (map links.link_view ls.items)) }
    ensures refused { IfErr result (written.IsUnsaid (value_view json.now)) }
{
    match read_file(alloc, json) {
        Ok(all) => parse_all(alloc, &all),
        Err(error) => Err(error),
    }
}

fn read_file<'a>(alloc: Global, json: &Value<'a>) -> Result<Vec<WrittenLink<'a>>, PolicyJsonError>
    ensures said { IfOk result
        (λ ws. written.all_written (value_view json.now) ≡ Ok (map written.written_view ws.items)) }
    ensures refused { IfErr result (IsRefusal (written.all_written (value_view json.now))) }
{
    match array(json) {
        Some(items) => read_written(alloc, items),
        None => Err(PolicyJsonError::refusal(alloc, RefusalReason::NotAnArray)),
    }
}

/// The link of these ids and of the entities that the JSON value says, as the `args` of a file's link have them. Refuses as
/// `links_from_file_json` does, with the path from this value on.
pub fn link_from_arguments(
    alloc: Global,
    template_id: &str,
    new_id: &str,
    arguments: &Value<'_>,
) -> Result<Link, PolicyJsonError>
    ensures said { IfOk result (λ l. written.IsAskedBy template_id.now new_id.now (value_view arguments.now)
        (links.link_view l)) }
    ensures refused { IfErr result (written.IsUnasked (value_view arguments.now)) }
{
    match read_texts(alloc, arguments) {
        Ok((principal, resource)) => {
            let link = WrittenLink {
                template_id,
                new_id,
                principal,
                resource,
            };
            parse_one(alloc, &link)
        }
        Err(error) => Err(error),
    }
}

fn read_written<'a>(
    alloc: Global,
    items: &Vec<Value<'a>>,
) -> Result<Vec<WrittenLink<'a>>, PolicyJsonError>
    ensures said { IfOk result
        (λ ws. written.written_from 0 (items_view items.now.items) ≡ Ok (map written.written_view ws.items)) }
    ensures refused { IfErr result (IsRefusal (written.written_from 0 (items_view items.now.items))) }
{
    let mut all: Vec<WrittenLink<'a>> = Vec::new(alloc);
    match put_written(alloc, items, &mut all) {
        Ok(()) => Ok(all),
        Err(error) => {
            drop(all);
            Err(error)
        }
    }
}

fn put_written<'a>(
    alloc: Global,
    items: &Vec<Value<'a>>,
    all: &mut Vec<WrittenLink<'a>>,
) -> Result<(), PolicyJsonError>
    requires { all.old.items ≡ [] }
    ensures said { OnOk result
        (written.written_from 0 (items_view items.now.items) ≡ Ok (map written.written_view all.new.items)) }
    ensures refused { IfErr result (IsRefusal (written.written_from 0 (items_view items.now.items))) }
{
    let mut index: usize = 0;
    'items: for item in items {
        put_one_written(alloc, index, item, all)?;
        index += 1;
    }
    Ok(())
}

fn put_one_written<'a>(
    alloc: Global,
    index: usize,
    item: &Value<'a>,
    all: &mut Vec<WrittenLink<'a>>,
) -> Result<(), PolicyJsonError>
    ensures said { OnOk result (IsOneMore (map written.written_view all.old.items)
        (under (at_index index) (written.written_said (value_view item.now)))
        (map written.written_view all.new.items)) }
    ensures refused { IfErr result
        (IsRefusal (under (at_index index) (written.written_said (value_view item.now)))) }
{
    match read_one(alloc, item) {
        Ok(link) => put_read(link, all),
        Err(error) => Err(error.under_index(index)),
    }
}

fn put_read<'a>(
    link: WrittenLink<'a>,
    all: &mut Vec<WrittenLink<'a>>,
) -> Result<(), PolicyJsonError>
    ensures said { OnOk result (map written.written_view all.new.items
        ≡ map written.written_view all.old.items ++ written.written_view link.entry ∷ []) }
    ensures memory { IfErr result IsMemory }
{
    match all.push(link) {
        Ok(()) => Ok(()),
        Err(failed) => Err(PolicyJsonError::from(failed)),
    }
}

fn read_one<'a>(alloc: Global, item: &Value<'a>) -> Result<WrittenLink<'a>, PolicyJsonError>
    ensures said { IfOk result (λ w. written.written_said (value_view item.now) ≡ Ok (written.written_view w)) }
    ensures refused { IfErr result (IsRefusal (written.written_said (value_view item.now))) }
{
    match read_parts(alloc, LinkForm::File, item) {
        Ok(parts) => with_values(alloc, parts),
        Err(error) => Err(error),
    }
}

fn with_values<'a>(alloc: Global, parts: Parts<'_, 'a>) -> Result<WrittenLink<'a>, PolicyJsonError>
    ensures said { IfOk result (λ w. written.written_with (links.parts_of (value_view parts.entry.values.now)
        (parts.entry.template_id.now, parts.entry.new_id.now)) ≡ Ok (written.written_view w)) }
    ensures refused { IfErr result (IsRefusal (written.written_with (links.parts_of
        (value_view parts.entry.values.now) (parts.entry.template_id.now, parts.entry.new_id.now)))) }
{
    match read_texts(alloc, parts.values) {
        Ok((principal, resource)) => Ok(WrittenLink {
            template_id: parts.template_id,
            new_id: parts.new_id,
            principal,
            resource,
        }),
        Err(error) => Err(error.under_key(alloc, "args")),
    }
}

fn read_texts<'a>(
    alloc: Global,
    values: &Value<'a>,
) -> Result<(Option<&'a str>, Option<&'a str>), PolicyJsonError>
    ensures said { IfOk result (λ p. links.values_said text_said (value_view values.now)
        ≡ Ok (option_map (λ t. t.now) p.0, option_map (λ t. t.now) p.1)) }
    ensures refused { IfErr result (IsRefusal (links.values_said text_said (value_view values.now))) }
{
    match read_slots(alloc, values) {
        Ok((principal, resource)) => two_texts(alloc, principal, resource),
        Err(error) => Err(error),
    }
}

fn two_texts<'a>(
    alloc: Global,
    principal: Option<&Value<'a>>,
    resource: Option<&Value<'a>>,
) -> Result<(Option<&'a str>, Option<&'a str>), PolicyJsonError>
    ensures said { IfOk result (λ p. links.two_values text_said
        (option_map (λ v. value_view v.now) principal.entry, option_map (λ v. value_view v.now) resource.entry)
        ≡ Ok (option_map (λ t. t.now) p.0, option_map (λ t. t.now) p.1)) }
    ensures refused { IfErr result (IsRefusal (links.two_values text_said
        (option_map (λ v. value_view v.now) principal.entry, option_map (λ v. value_view v.now) resource.entry))) }
{
    match text_in(alloc, "?principal", principal) {
        Ok(principal) => match text_in(alloc, "?resource", resource) {
            Ok(resource) => Ok((principal, resource)),
            Err(error) => Err(error),
        },
        Err(error) => Err(error),
    }
}

fn text_in<'a>(
    alloc: Global,
    key: &str,
    value: Option<&Value<'a>>,
) -> Result<Option<&'a str>, PolicyJsonError>
    ensures said { IfOk result (λ t. links.value_said text_said key.now
        (option_map (λ v. value_view v.now) value.entry) ≡ Ok (option_map (λ t. t.now) t)) }
    ensures refused { IfErr result (IsRefusal (links.value_said text_said key.now
        (option_map (λ v. value_view v.now) value.entry))) }
{
    match value {
        Some(value) => match text_at(alloc, key, value) {
            Ok(text) => Ok(Some(text)),
            Err(error) => Err(error),
        },
        None => Ok(None),
    }
}

// ---- entities

fn parse_all(alloc: Global, all: &[WrittenLink<'_>]) -> Result<Vec<Link>, PolicyJsonError>
    ensures read { IfOk result
        (λ ls. written.AreReadAs (map written.written_view all.now) (map links.link_view ls.items)) }
    ensures refused { IfErr result (written.AreUnread (map written.written_view all.now)) }
{
    let mut links: Vec<Link> = Vec::new(alloc);
    match put_parsed(alloc, all, &mut links) {
        Ok(()) => Ok(links),
        Err(error) => {
            drop(links);
            Err(error)
        }
    }
}

fn put_parsed(
    alloc: Global,
    all: &[WrittenLink<'_>],
    read: &mut Vec<Link>,
) -> Result<(), PolicyJsonError>
    requires { read.old.items ≡ [] }
    ensures read { OnOk result
        (written.AreReadAs (map written.written_view all.now) (map links.link_view read.new.items)) }
    ensures refused { IfErr result (written.AreUnread (map written.written_view all.now)) }
{
    let mut index: usize = 0;
    'links: for link in all {
        put_one_parsed(alloc, index, link, read)?;
        index += 1;
    }
    Ok(())
}

fn put_one_parsed(
    alloc: Global,
    index: usize,
    link: &WrittenLink<'_>,
    read: &mut Vec<Link>,
) -> Result<(), PolicyJsonError>
    ensures read { OnOk result (written.IsOneMoreRead (written.written_view link.now)
        (map links.link_view read.old.items) (map links.link_view read.new.items)) }
    ensures refused { IfErr result (written.IsUnread (written.written_view link.now)) }
{
    match parse_one(alloc, link) {
        Ok(link) => put(link, read),
        Err(error) => Err(error.under_key(alloc, "args").under_index(index)),
    }
}

fn parse_one(alloc: Global, link: &WrittenLink<'_>) -> Result<Link, PolicyJsonError>
    ensures read { IfOk result (λ l. written.IsReadAs (written.written_view link.now) (links.link_view l)) }
    ensures refused { IfErr result (written.IsUnread (written.written_view link.now)) }
{
    match parse_text(alloc, "?principal", link.principal) {
        Ok(principal) => match parse_text(alloc, "?resource", link.resource) {
            Ok(resource) => link_of(alloc, link.template_id, link.new_id, principal, resource),
            Err(error) => {
                drop(principal);
                Err(error)
            }
        },
        Err(error) => Err(error),
    }
}

// The entity that the text at this key is, where there is one.
fn parse_text(
    alloc: Global,
    key: &str,
    text: Option<&str>,
) -> Result<Option<EntityUID>, PolicyJsonError>
    ensures read { IfOk result (λ u. written.AreTextOf (option_map (λ t. t.now) text.entry) (links.name_of u)) }
    ensures refused { IfErr result (written.IsNoEntity (option_map (λ t. t.now) text.entry)) }
{
    match text {
        Some(text) => match parse_entity_uid(alloc, text) {
            Ok(uid) => Ok(Some(uid)),
            Err(error) => Err(no_entity(alloc, key, error)),
        },
        None => Ok(None),
    }
}

#[cold]
fn no_entity(alloc: Global, key: &str, error: ReadError) -> PolicyJsonError
    ensures { written.IsToldAs error result }
{
    match error {
        ReadError::Memory => PolicyJsonError::Memory(AllocError),
        ReadError::Expected { .. } => {
            PolicyJsonError::refusal_at(alloc, key, RefusalReason::NotAnEntity)
        }
        ReadError::TooDeep { .. } => {
            PolicyJsonError::refusal_at(alloc, key, RefusalReason::NotAnEntity)
        }
    }
}

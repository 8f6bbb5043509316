#![tactic(auto, using(cedar_policy_json_reader::proofs::Views::views, cedar_policy_json_reader::proofs::Members::members, cedar_policy_json_reader::proofs::Refused::refusals))]
//! The members of a link, and what stands at its values.
ghost use Rattle.std.specs.Prelude.{◌≡◌, ◌≤◌, Ok, IfOk, IfErr, option_map};
ghost use Rattle.json.specs.Find.{get};
ghost use Rattle.json.specs.Value.{value_view};
ghost use Rattle.cedar_policy_json_reader.specs.Refusals.{IsRefusal};
ghost use Rattle.cedar_template_links.specs.Links as links;

use crate::forms::LinkForm;
use cedar_policy_json_reader::{
    PolicyJsonError, RefusalReason, member_count, text_at, three_members,
};
use json::Value;
use std::alloc::Global;

/// The two ids of a link, and its values.
#[derive(Drop)]
pub(crate) struct Parts<'v, 'a> {
    pub(crate) template_id: &'a str,
    pub(crate) new_id: &'a str,
    pub(crate) values: &'v Value<'a>,
}

/// The parts of the link that the value says.
pub(crate) fn read_parts<'v, 'a>(
    alloc: Global,
    form: LinkForm,
    value: &'v Value<'a>,
) -> Result<Parts<'v, 'a>, PolicyJsonError>
    ensures said { IfOk result (λ p. links.parts_said form (value_view value.now)
        ≡ Ok (links.parts_of (value_view p.values.now) (p.template_id.now, p.new_id.now))) }
    ensures refused { IfErr result (IsRefusal (links.parts_said form (value_view value.now))) }
{
    match form {
        LinkForm::Set => parts_at(alloc, "templateId", "newId", "values", value),
        LinkForm::File => parts_at(alloc, "template_id", "link_id", "args", value),
    }
}

// The same, where they stand at these keys.
fn parts_at<'v, 'a>(
    alloc: Global,
    template_key: &str,
    id_key: &str,
    values_key: &str,
    value: &'v Value<'a>,
) -> Result<Parts<'v, 'a>, PolicyJsonError>
    ensures said { IfOk result
        (λ p. links.parts_at template_key.now id_key.now values_key.now (value_view value.now)
        ≡ Ok (links.parts_of (value_view p.values.now) (p.template_id.now, p.new_id.now))) }
    ensures refused { IfErr result
        (IsRefusal (links.parts_at template_key.now id_key.now values_key.now (value_view value.now))) }
{
    match three_members(alloc, value, template_key, id_key, values_key) {
        Ok((template_id, new_id, values)) => {
            with_texts(alloc, template_key, id_key, template_id, new_id, values)
        }
        Err(error) => Err(error),
    }
}

fn with_texts<'v, 'a>(
    alloc: Global,
    template_key: &str,
    id_key: &str,
    template_id: &Value<'a>,
    new_id: &Value<'a>,
    values: &'v Value<'a>,
) -> Result<Parts<'v, 'a>, PolicyJsonError>
    ensures said { IfOk result (λ p. links.parts_in template_key.now id_key.now
        (value_view template_id.now, value_view new_id.now, value_view values.now)
        ≡ Ok (links.parts_of (value_view p.values.now) (p.template_id.now, p.new_id.now))) }
    ensures refused { IfErr result (IsRefusal (links.parts_in template_key.now id_key.now
        (value_view template_id.now, value_view new_id.now, value_view values.now))) }
{
    match text_at(alloc, template_key, template_id) {
        Ok(template_id) => match text_at(alloc, id_key, new_id) {
            Ok(new_id) => Ok(Parts {
                template_id,
                new_id,
                values,
            }),
            Err(error) => Err(error),
        },
        Err(error) => Err(error),
    }
}

/// What stands at the two slots.
pub(crate) fn read_slots<'v, 'a>(
    alloc: Global,
    values: &'v Value<'a>,
) -> Result<(Option<&'v Value<'a>>, Option<&'v Value<'a>>), PolicyJsonError>
    ensures said { IfOk result (λ p. links.slots_said (value_view values.now)
        ≡ Ok (option_map (λ v. value_view v.now) p.0, option_map (λ v. value_view v.now) p.1)) }
    ensures refused { IfErr result (IsRefusal (links.slots_said (value_view values.now))) }
{
    match member_count(values) {
        Some(count) => if count == slot_count(values) {
            Ok((values.get("?principal"), values.get("?resource")))
        } else {
            Err(PolicyJsonError::refusal(alloc, RefusalReason::UnexpectedMember))
        },
        None => Err(PolicyJsonError::refusal(alloc, RefusalReason::NotAnObject)),
    }
}

// How many of the two slots have a value.
fn slot_count(values: &Value<'_>) -> usize
    ensures { result ≡ links.slot_count (value_view values.now) }
{
    one_if_there(values, "?principal") + one_if_there(values, "?resource")
}

fn one_if_there(values: &Value<'_>, key: &str) -> usize
    ensures counted { result ≡ links.one_if_there (get key.now (value_view values.now)) }
    ensures small { result ≤ 1 }
{
    match values.get(key) {
        Some(_) => 1,
        None => 0,
    }
}

#![tactic(auto, using(cedar_json_writer::proofs::Trees::trees))]
//! Members of objects that an explanation has.
ghost use Rattle.std.specs.Prelude.{◌≡◌, ◌++◌, ◌∷◌, [], codes, OnOk, option_copied};
ghost use Rattle.json.specs.Json.{string};
ghost use Rattle.cedar_model.specs.Agreement.{no_slots};
ghost use Rattle.cedar_expressions.specs.View.{view};
ghost use Rattle.cedar_layers.specs.Policies.{policy_view, policy_id_text};
ghost use Rattle.cedar_text_printer.specs.Texts.{written};
ghost use Rattle.cedar_json_writer.specs.Trees.{json_view, members_seen};
ghost use Rattle.cedar_places.specs.Texts.{text_in};
ghost use Rattle.cedar_explain_printer.specs.Names.{annotated};
ghost use Rattle.cedar_explain_json.specs.Documents.{count_json, place_members, name_members};

use cedar_json_writer::{JsonValue, put_member, text_to_json};
use cedar_layers::expressions::{Expr, Loc};
use cedar_layers::policies::{Policy, PolicyID};
use cedar_places::Places;
use cedar_text_printer::to_cedar;
use std::alloc::{AllocError, Global};
use std::rc::RcStr;

// Puts the text under this key behind the members that are there.
pub(crate) fn put_text(
    alloc: Global,
    key: &str,
    text: &str,
    members: &mut Vec<(RcStr, JsonValue)>,
) -> Result<(), AllocError>
    ensures { OnOk result
        (members_seen members.new.items ≡ members_seen members.old.items ++ (key.now, string text.now) ∷ []) }
{
    let text = text_to_json(alloc, text)?;
    put_member(alloc, key, text, members)
}

// Puts the expression, as Cedar's text, at `text`.
pub(crate) fn put_expression(
    alloc: Global,
    expr: &Expr,
    members: &mut Vec<(RcStr, JsonValue)>,
) -> Result<(), AllocError>
    ensures { OnOk result (members_seen members.new.items
        ≡ members_seen members.old.items ++ (codes "text", string (written no_slots (view expr.now))) ∷ []) }
{
    let text = to_cedar(alloc, expr)?;
    put_text(alloc, "text", text.as_str(), members)
}

// The line and the column of the place, at `line` and `column`, if the place is known.
pub(crate) fn put_place(
    alloc: Global,
    places: &Places<'_>,
    loc: Option<Loc>,
    members: &mut Vec<(RcStr, JsonValue)>,
) -> Result<(), AllocError>
    ensures { OnOk result (members_seen members.new.items
        ≡ members_seen members.old.items ++ place_members (text_in places.now) loc) }
{
    match loc {
        Some(loc) => {
            let (line, column) = places.place_of(loc.start);
            put_member(alloc, "line", count_to_json(line), members)?;
            put_member(alloc, "column", count_to_json(column), members)
        }
        None => Ok(()),
    }
}

// The count, or the greatest integer of 64 bits.
fn count_to_json(count: usize) -> JsonValue
    ensures { json_view result ≡ count_json count }
{
    match i64::try_from(count) {
        Ok(count) => JsonValue::Long(count),
        Err(_) => JsonValue::Long(i64::MAX),
    }
}

// Puts the policy's id at `policyId`.
pub(crate) fn put_id(
    alloc: Global,
    id: &PolicyID,
    members: &mut Vec<(RcStr, JsonValue)>,
) -> Result<(), AllocError>
    ensures { OnOk result (members_seen members.new.items
        ≡ members_seen members.old.items ++ (codes "policyId", string (policy_id_text id.now)) ∷ []) }
{
    let text = id.to_string(alloc)?;
    put_text(alloc, "policyId", text.as_str(), members)
}

// Puts what the policy's annotation `id` says at `name`, if it has one.
pub(crate) fn put_name(
    alloc: Global,
    policy: &Policy,
    members: &mut Vec<(RcStr, JsonValue)>,
) -> Result<(), AllocError>
    ensures { OnOk result (members_seen members.new.items
        ≡ members_seen members.old.items ++ name_members (annotated (policy_view policy.now))) }
{
    match annotated_id(policy) {
        Some(name) => put_text(alloc, "name", name, members),
        None => Ok(()),
    }
}

// The policy's annotation `id`, if it has one.
fn annotated_id(policy: &Policy) -> Option<&str>
    ensures { option_copied result ≡ annotated (policy_view policy.now) }
{
    match policy.annotations_rc().0.get("id") {
        Some(name) => Some(name.as_str()),
        None => None,
    }
}

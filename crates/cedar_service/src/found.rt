#![tactic(auto, using(cedar_json_writer::proofs::Trees::trees))]
//! What is found, as JSON.
ghost use Rattle.std.specs.Prelude.{◌≡◌, ◌++◌, ◌∷◌, [], IfOk, OnOk, map, string_bytes};
ghost use Rattle.std.specs.Rc.{rc_str_bytes};
ghost use Rattle.json.specs.Json.{string};
ghost use Rattle.cedar_json_writer.specs.Trees.{json_view, members_seen};
ghost use Rattle.cedar_names.specs.Names.{uid_name};
ghost use Rattle.cedar_search.specs.Questions.{names_of};
ghost use Rattle.cedar_search.specs.declared.searches.Part.TheVariants as parts;
ghost use Rattle.cedar_service.specs.Searched.{found_text, found_json, entity_json};

use cedar_fallible::add_last;
use cedar_json_writer::{JsonValue, put_member};
use cedar_names::EntityUID;
use cedar_search::Part;
use std::alloc::{AllocError, Global};
use std::rc::RcStr;

/// Each that is found, as AuthZEN names it. Refuses only if out of memory.
pub(crate) fn texts_of(
    alloc: Global,
    part: Part,
    found: &[EntityUID],
) -> Result<Vec<String>, AllocError>
    ensures { IfOk result (λ ts. map string_bytes ts.items ≡ map (found_text part) (names_of found.now)) }
{
    let mut texts: Vec<String> = Vec::new(alloc);
    'found: for uid in found {
        add_text(alloc, part, uid, &mut texts)?;
    }
    Ok(texts)
}

fn add_text(
    alloc: Global,
    part: Part,
    uid: &EntityUID,
    texts: &mut Vec<String>,
) -> Result<(), AllocError>
    ensures { OnOk result (map string_bytes texts.new.items
        ≡ map string_bytes texts.old.items ++ found_text part (uid_name uid.now) ∷ []) }
{
    let text = text_of(alloc, part, uid)?;
    add_last(texts, text)?;
    Ok(())
}

fn text_of(alloc: Global, part: Part, uid: &EntityUID) -> Result<String, AllocError>
    ensures { IfOk result (λ s. string_bytes s ≡ found_text part (uid_name uid.now)) }
{
    let json = json_of(alloc, part, uid)?;
    let text = json.to_text(alloc);
    drop(json);
    text
}

fn json_of(alloc: Global, part: Part, uid: &EntityUID) -> Result<JsonValue, AllocError>
    ensures { IfOk result (λ j. json_view j ≡ found_json part (uid_name uid.now)) }
{
    match part {
        Part::Principal => entity_json(alloc, uid),
        Part::Action => action_json(alloc, uid),
        Part::Resource => entity_json(alloc, uid),
    }
}

fn entity_json(alloc: Global, uid: &EntityUID) -> Result<JsonValue, AllocError>
    ensures { IfOk result (λ j. json_view j ≡ entity_json (uid_name uid.now)) }
{
    let mut members: Vec<(RcStr, JsonValue)> = Vec::new(alloc);
    put_name(alloc, "type", uid.entity_type().text(), &mut members)?;
    put_name(alloc, "id", uid.eid(), &mut members)?;
    Ok(JsonValue::Object(members))
}

fn action_json(alloc: Global, uid: &EntityUID) -> Result<JsonValue, AllocError>
    ensures { IfOk result (λ j. json_view j ≡ found_json parts.Action (uid_name uid.now)) }
{
    let mut members: Vec<(RcStr, JsonValue)> = Vec::new(alloc);
    put_name(alloc, "name", uid.eid(), &mut members)?;
    Ok(JsonValue::Object(members))
}

fn put_name(
    alloc: Global,
    key: &str,
    name: &RcStr,
    members: &mut Vec<(RcStr, JsonValue)>,
) -> Result<(), AllocError>
    ensures { OnOk result (members_seen members.new.items
        ≡ members_seen members.old.items ++ (key.now, string (rc_str_bytes name.now)) ∷ []) }
{
    let name: RcStr = name.clone()?;
    put_member(alloc, key, JsonValue::String(name), members)
}

#![tactic(auto, using(cedar_json_writer::proofs::Trees::trees))]
//! AuthZEN's metadata: where the endpoints are.
ghost use Rattle.std.specs.Prelude.{◌≡◌, ◌∷◌, [], ◌++◌, option_map, IfOk, OnOk, string_bytes};
ghost use Rattle.json.specs.Json.{string};
ghost use Rattle.cedar_json_writer.specs.Trees.{json_view, members_seen};
ghost use Rattle.cedar_serve.specs.Metadata.{metadata_json, metadata_text};

use cedar_json_writer::{JsonValue, put_member, text_to_json};
use std::alloc::{AllocError, Global};
use std::rc::RcStr;

/// The metadata of a service at this URL, as JSON, if one is given. Refuses only if out of memory.
pub(crate) fn metadata_of(alloc: Global, url: Option<&str>) -> Result<Option<String>, AllocError>
    ensures { IfOk result (λ m.
        option_map string_bytes m ≡ option_map metadata_text (option_map (λ u. u.now) url.entry)) }
{
    match url {
        Some(url) => Ok(Some(metadata_text(alloc, url)?)),
        None => Ok(None),
    }
}

fn metadata_text(alloc: Global, url: &str) -> Result<String, AllocError>
    ensures { IfOk result (λ s. string_bytes s ≡ metadata_text url.now) }
{
    let json = metadata_json(alloc, url)?;
    let text = json.to_text(alloc);
    drop(json);
    text
}

fn metadata_json(alloc: Global, url: &str) -> Result<JsonValue, AllocError>
    ensures { IfOk result (λ j. json_view j ≡ metadata_json url.now) }
{
    let mut members: Vec<(RcStr, JsonValue)> = Vec::new(alloc);
    put_text(alloc, "policy_decision_point", url, &mut members)?;
    put_endpoint(
        alloc,
        "access_evaluation_endpoint",
        url,
        "/access/v1/evaluation",
        &mut members,
    )?;
    put_endpoint(
        alloc,
        "access_evaluations_endpoint",
        url,
        "/access/v1/evaluations",
        &mut members,
    )?;
    put_endpoint(
        alloc,
        "search_subject_endpoint",
        url,
        "/access/v1/search/subject",
        &mut members,
    )?;
    put_endpoint(
        alloc,
        "search_action_endpoint",
        url,
        "/access/v1/search/action",
        &mut members,
    )?;
    put_endpoint(
        alloc,
        "search_resource_endpoint",
        url,
        "/access/v1/search/resource",
        &mut members,
    )?;
    Ok(JsonValue::Object(members))
}

// Where this path is of a service at this URL.
fn put_endpoint(
    alloc: Global,
    key: &str,
    url: &str,
    path: &str,
    members: &mut Vec<(RcStr, JsonValue)>,
) -> Result<(), AllocError>
    ensures { OnOk result (members_seen members.new.items
        ≡ members_seen members.old.items ++ (key.now, string (url.now ++ path.now)) ∷ []) }
{
    let endpoint = endpoint_at(alloc, url, path)?;
    put_text(alloc, key, endpoint.as_str(), members)?;
    Ok(())
}

fn endpoint_at(alloc: Global, url: &str, path: &str) -> Result<String, AllocError>
    ensures { IfOk result (λ s. string_bytes s ≡ url.now ++ path.now) }
{
    format!(in alloc; "{url}{path}")
}

fn put_text(
    alloc: Global,
    key: &str,
    text: &str,
    members: &mut Vec<(RcStr, JsonValue)>,
) -> Result<(), AllocError>
    ensures { OnOk result
        (members_seen members.new.items ≡ members_seen members.old.items ++ (key.now, string text.now) ∷ []) }
{
    let text = text_to_json(alloc, text)?;
    put_member(alloc, key, text, members)
}

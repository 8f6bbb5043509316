#![tactic(auto, using(crate::proofs::Trees::trees))]
//! What is left open: unknowns, and entities that a store lacked.
ghost use Rattle.std.specs.Prelude.{◌≡◌, [], ◌∷◌, ◌++◌, map, IfOk, OnOk};
ghost use Rattle.std.specs.Rc.{rc_str_bytes};
ghost use Rattle.json.specs.Json.{string};
ghost use Rattle.cedar_model.specs.Settings.{printed_entity};
ghost use Rattle.cedar_names.specs.Names.{uid_name};
ghost use Rattle.cedar_requests.specs.Requests.{request_view};
ghost use Rattle.cedar_authorizer.specs.responses.Rows.{rows_view};
ghost use Rattle.cedar_unknowns.specs.Occurrences.{asked_each};
ghost use Rattle.cedar_json_writer.specs.Trees.{json_view};
ghost use Rattle.cedar_json_writer.specs.Texts.{texts_json, text_once, names_once};
ghost use Rattle.cedar_json_writer.specs.Responses.{unknowns_json, entities_json};

use crate::JsonValue;
use crate::texts::put_text;
use cedar_authorizer::authorizer::PartialResponse;
use cedar_names::{EntityUID, Unknown};
use cedar_unknowns::Unknowns;
use indexmap::IndexSet;
use std::alloc::{AllocError, Global};
use std::rc::RcStr;

/// The names of the unknowns that are left, each once, in the order in which they stand first.
pub(crate) fn unknowns_to_json(
    alloc: Global,
    response: &PartialResponse,
) -> Result<JsonValue, AllocError>
    ensures { IfOk result (λ j. json_view j
        ≡ unknowns_json (request_view response.now.request.value) (rows_view response.now)) }
{
    let unknowns: Vec<Unknown> = response.unknowns(alloc)?;
    let names = names_to_json(alloc, &unknowns);
    drop(unknowns);
    names
}

fn names_to_json(alloc: Global, unknowns: &[Unknown]) -> Result<JsonValue, AllocError>
    ensures { IfOk result (λ j. json_view j ≡ texts_json (names_once (asked_each unknowns.now))) }
{
    let names = names_of(alloc, unknowns)?;
    let texts = texts_of(alloc, names.as_slice());
    drop(names);
    texts
}

fn names_of(alloc: Global, unknowns: &[Unknown]) -> Result<IndexSet<RcStr>, AllocError>
    ensures { IfOk result (λ s. map rc_str_bytes s.keys ≡ names_once (asked_each unknowns.now)) }
{
    let mut names: IndexSet<RcStr> = IndexSet::new(alloc);
    'unknowns: for unknown in unknowns {
        put_name(&unknown.name, &mut names)?;
    }
    Ok(names)
}

fn put_name(name: &RcStr, names: &mut IndexSet<RcStr>) -> Result<(), AllocError>
    ensures { OnOk result
        (map rc_str_bytes names.new.keys ≡ text_once (rc_str_bytes name.now) (map rc_str_bytes names.old.keys)) }
{
    let copy: RcStr = name.clone()?;
    names.insert(copy)?;
    Ok(())
}

fn texts_of(alloc: Global, texts: &[RcStr]) -> Result<JsonValue, AllocError>
    ensures { IfOk result (λ j. json_view j ≡ texts_json (map rc_str_bytes texts.now)) }
{
    let mut items: Vec<JsonValue> = Vec::new(alloc);
    'texts: for text in texts {
        put_text(alloc, text.as_str(), &mut items)?;
    }
    Ok(JsonValue::Array(items))
}

/// The entities that a store lacked, as they print, each once.
pub(crate) fn entities_to_json(
    alloc: Global,
    response: &PartialResponse,
) -> Result<JsonValue, AllocError>
    ensures { IfOk result (λ j. json_view j
        ≡ entities_json (request_view response.now.request.value) (rows_view response.now)) }
{
    let entities: Vec<EntityUID> = response.unknown_entities(alloc)?;
    let texts = uids_to_json(alloc, &entities);
    drop(entities);
    texts
}

fn uids_to_json(alloc: Global, uids: &[EntityUID]) -> Result<JsonValue, AllocError>
    ensures { IfOk result (λ j. json_view j ≡ texts_json (map printed_entity (map uid_name uids.now))) }
{
    let mut items: Vec<JsonValue> = Vec::new(alloc);
    'uids: for uid in uids {
        put_uid(alloc, uid, &mut items)?;
    }
    Ok(JsonValue::Array(items))
}

fn put_uid(alloc: Global, uid: &EntityUID, items: &mut Vec<JsonValue>) -> Result<(), AllocError>
    ensures { OnOk result (map json_view items.new.items
        ≡ map json_view items.old.items ++ string (printed_entity (uid_name uid.now)) ∷ []) }
{
    let text = uid.to_string(alloc)?;
    put_text(alloc, text.as_str(), items)?;
    Ok(())
}

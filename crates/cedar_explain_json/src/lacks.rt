#![tactic(auto, using(cedar_json_writer::proofs::Trees::trees))]
//! What permits lack, as JSON.
ghost use Rattle.std.specs.Prelude.{◌≡◌, ◌++◌, ◌∷◌, [], map, IfOk, OnOk};
ghost use Rattle.cedar_json_writer.specs.Trees.{json_view};
ghost use Rattle.cedar_places.specs.Texts.{text_in};
ghost use Rattle.cedar_explain_json.specs.Documents.{lack_json, lacks_json};

use crate::members::{put_expression, put_id, put_place};
use cedar_explain::Lack;
use cedar_json_writer::{JsonValue, put_item, put_member};
use cedar_places::Places;
use std::alloc::{AllocError, Global};
use std::rc::RcStr;

// An array of what permits lack, in their order.
pub(crate) fn lacks_to_json(
    alloc: Global,
    places: &Places<'_>,
    lacks: &[Lack<'_>],
) -> Result<JsonValue, AllocError>
    ensures { IfOk result (λ j. json_view j ≡ lacks_json (text_in places.now) lacks.now) }
{
    let mut items: Vec<JsonValue> = Vec::new(alloc);
    'lacks: for lack in lacks {
        add_lack(alloc, places, *lack, &mut items)?;
    }
    Ok(JsonValue::Array(items))
}

fn add_lack(
    alloc: Global,
    places: &Places<'_>,
    lack: Lack<'_>,
    items: &mut Vec<JsonValue>,
) -> Result<(), AllocError>
    ensures { OnOk result (map json_view items.new.items
        ≡ map json_view items.old.items ++ lack_json (text_in places.now) lack.entry ∷ []) }
{
    let item = lack_to_json(alloc, places, lack)?;
    put_item(item, items)?;
    Ok(())
}

fn lack_to_json(alloc: Global, places: &Places<'_>, lack: Lack<'_>) -> Result<JsonValue, AllocError>
    ensures { IfOk result (λ j. json_view j ≡ lack_json (text_in places.now) lack.entry) }
{
    let mut members: Vec<(RcStr, JsonValue)> = Vec::new(alloc);
    put_id(alloc, lack.policy().id(), &mut members)?;
    put_place(alloc, places, lack.part().place().copied(), &mut members)?;
    put_expression(alloc, lack.part().expression(), &mut members)?;
    put_member(
        alloc,
        "appliesIf",
        JsonValue::Bool(lack.truth()),
        &mut members,
    )?;
    Ok(JsonValue::Object(members))
}

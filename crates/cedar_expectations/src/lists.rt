#![tactic(auto, using(cedar_json_writer::proofs::Trees::trees))]
//! Lists of texts, each against another.
ghost use Rattle.std.specs.Prelude.{◌≡◌, ◌∷◌, [], ◌++◌, map, IfOk, OnOk, string_bytes};
ghost use Rattle.json.specs.Json.{string};
ghost use Rattle.cedar_model.specs.Outcomes.{has_text};
ghost use Rattle.cedar_json_writer.specs.Texts.{texts_json};
ghost use Rattle.cedar_json_writer.specs.Trees.{json_view};
ghost use Rattle.cedar_expectations.specs.Lists.{unless_in, only_in, has_more, have_same};

use cedar_json_writer::{JsonValue, put_item, text_to_json};
use std::alloc::{AllocError, Global};

/// The texts that the others don't have, as an array in their order. Refuses only if out of memory.
pub fn only_in(alloc: Global, texts: &[String], others: &[String]) -> Result<JsonValue, AllocError>
    ensures { IfOk result
        (λ j. json_view j ≡ texts_json (only_in (map string_bytes texts.now) (map string_bytes others.now))) }
{
    let mut items: Vec<JsonValue> = Vec::new(alloc);
    'texts: for text in texts {
        put_unless_in(alloc, text.as_str(), others, &mut items)?;
    }
    Ok(JsonValue::Array(items))
}

fn put_unless_in(
    alloc: Global,
    text: &str,
    others: &[String],
    items: &mut Vec<JsonValue>,
) -> Result<(), AllocError>
    ensures { OnOk result (map json_view items.new.items
        ≡ map json_view items.old.items ++ map string (unless_in (map string_bytes others.now) text.now)) }
{
    if has_text(others, text) {
        Ok(())
    } else {
        put_text(alloc, text, items)
    }
}

fn put_text(alloc: Global, text: &str, items: &mut Vec<JsonValue>) -> Result<(), AllocError>
    ensures { OnOk result
        (map json_view items.new.items ≡ map json_view items.old.items ++ string text.now ∷ []) }
{
    let text = text_to_json(alloc, text)?;
    put_item(text, items)
}

#[tactic(auto, unfolding(cedar_model::specs::Outcomes::has_text))]
fn has_text(texts: &[String], text: &str) -> bool
    ensures { result ≡ has_text text.now (map string_bytes texts.now) }
{
    let mut rest = texts;
    'texts: while let Some((other, others)) = rest.split_first() {
        if text == other.as_str() {
            return true;
        }
        rest = others;
    }
    false
}

#[tactic(auto, unfolding(crate::specs::Lists::has_more))]
fn has_more(texts: &[String], others: &[String]) -> bool
    ensures { result ≡ has_more (map string_bytes texts.now) (map string_bytes others.now) }
{
    let mut rest = texts;
    'texts: while let Some((text, more)) = rest.split_first() {
        if !has_text(others, text.as_str()) {
            return true;
        }
        rest = more;
    }
    false
}

/// Whether each list has all texts of the other.
pub fn have_same(texts: &[String], others: &[String]) -> bool
    ensures { result ≡ have_same (map string_bytes texts.now) (map string_bytes others.now) }
{
    !has_more(texts, others) && !has_more(others, texts)
}

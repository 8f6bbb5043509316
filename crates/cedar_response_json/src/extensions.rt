#![tactic(auto, using(cedar_json_writer::proofs::Trees::trees))]
//! The names of extensions.
ghost use Rattle.std.specs.Prelude.{◌≡◌, [], ◌∷◌, ◌++◌, map, IfOk, OnOk};
ghost use Rattle.json.specs.Json.{string};
ghost use Rattle.cedar_names.specs.Names.{name_text};
ghost use Rattle.cedar_extensions.specs.Extension.{name_of};
ghost use Rattle.cedar_extensions.specs.Extensions.{has_standard};
ghost use Rattle.cedar_json_writer.specs.Texts.{texts_json};
ghost use Rattle.cedar_json_writer.specs.Trees.{json_view};
ghost use Rattle.cedar_response_json.specs.Extensions.{names_of, standard_names};

use crate::objects::put_text_item;
use cedar_extensions::{Extension, Extensions};
use cedar_json_writer::JsonValue;
use std::alloc::{AllocError, Global};

/// The names of the extensions: the standard ones, where they are there, and then those that the caller made, in order.
pub(crate) fn extensions_to_json(
    alloc: Global,
    extensions: &Extensions<'_>,
) -> Result<JsonValue, AllocError>
    ensures { IfOk result (λ j. json_view j ≡ texts_json (names_of extensions.now)) }
{
    let mut items: Vec<JsonValue> = Vec::new(alloc);
    put_standard(alloc, extensions.has_standard(), &mut items)?;
    put_names(alloc, extensions.extensions(), &mut items)?;
    Ok(JsonValue::Array(items))
}

fn put_standard(alloc: Global, is_there: bool, items: &mut Vec<JsonValue>) -> Result<(), AllocError>
    ensures { OnOk result (map json_view items.new.items
        ≡ map json_view items.old.items ++ map string (standard_names is_there)) }
{
    if is_there {
        put_text_item(alloc, "decimal", items)?;
        put_text_item(alloc, "ipaddr", items)?;
        put_text_item(alloc, "datetime", items)?;
    }
    Ok(())
}

fn put_names(
    alloc: Global,
    extensions: &[Extension],
    items: &mut Vec<JsonValue>,
) -> Result<(), AllocError>
    ensures { OnOk result (map json_view items.new.items ≡ map json_view items.old.items
        ++ map string (map name_text (map name_of extensions.now))) }
{
    'extensions: for extension in extensions {
        put_text_item(alloc, extension.name().text().as_str(), items)?;
    }
    Ok(())
}

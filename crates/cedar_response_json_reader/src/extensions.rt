#![tactic(auto, using(crate::proofs::Refused::refusals, cedar_policy_json_reader::proofs::Views::views))]
//! The extensions that a response was made with.
ghost use Rattle.std.specs.Prelude.{◌≡◌, Ok, IfOk, IfErr, OnOk, codes, map, ◌++◌, [], ◌∷◌, Some};
ghost use Rattle.std.specs.Rc.{rc_str_bytes};
ghost use Rattle.json.specs.Find.{as_str};
ghost use Rattle.json.specs.Value.{value_view, items_view};
ghost use Rattle.cedar_names.specs.Names.{name_text};
ghost use Rattle.cedar_extensions.specs.Extension.{name_of};
ghost use Rattle.cedar_response_json.specs.Extensions.{names_of, standard_names};
ghost use Rattle.cedar_response_json_reader.specs.Extensions as says;
ghost use Rattle.cedar_response_json_reader.specs.Refusals.{IsRefusal};
ghost use Rattle.cedar_response_json_reader.specs.Shapes.{part_at};

use crate::errors::{ResponseJsonError, ResponseRefusal};
use crate::shapes::{array, member_at};
use cedar_extensions::{Extension, Extensions};
use json::Value;
use std::alloc::{AllocError, Global};
use std::rc::RcStr;

/// Whether the extensions at `extensions` are these: refused where they are others.
pub(crate) fn extensions_at(
    alloc: Global,
    json: &Value<'_>,
    extensions: &Extensions<'_>,
) -> Result<bool, ResponseJsonError>
    ensures said { IfOk result (λ b.
        part_at (codes "extensions") (says.names_said (names_of extensions.now)) (value_view json.now) ≡ Ok b) }
    ensures refused { IfErr result (IsRefusal
        (part_at (codes "extensions") (says.names_said (names_of extensions.now)) (value_view json.now))) }
{
    match member_at(alloc, json, "extensions") {
        Ok(part) => match names(alloc, part, extensions) {
            Ok(is_same) => Ok(is_same),
            Err(error) => Err(error.under_key(alloc, "extensions")),
        },
        Err(error) => Err(error),
    }
}

fn names(
    alloc: Global,
    json: &Value<'_>,
    extensions: &Extensions<'_>,
) -> Result<bool, ResponseJsonError>
    ensures said { IfOk result (λ b. says.names_said (names_of extensions.now) (value_view json.now) ≡ Ok b) }
    ensures refused { IfErr result
        (IsRefusal (says.names_said (names_of extensions.now) (value_view json.now))) }
{
    match array(json) {
        Some(items) => compared(alloc, items, extensions),
        None => Err(ResponseJsonError::refusal(alloc, ResponseRefusal::NotAnArray)),
    }
}

fn compared(
    alloc: Global,
    items: &Vec<Value<'_>>,
    extensions: &Extensions<'_>,
) -> Result<bool, ResponseJsonError>
    ensures said { IfOk result
        (λ b. says.names_in (names_of extensions.now) (Some (items_view items.now.items)) ≡ Ok b) }
    ensures refused { IfErr result
        (IsRefusal (says.names_in (names_of extensions.now) (Some (items_view items.now.items)))) }
{
    match names_of(alloc, extensions) {
        Ok(names) => {
            let is_same = are_texts(items.as_slice(), names.as_slice());
            drop(names);
            if is_same {
                Ok(true)
            } else {
                Err(ResponseJsonError::refusal(alloc, ResponseRefusal::OtherExtensions))
            }
        }
        Err(error) => Err(ResponseJsonError::Memory(error)),
    }
}

// Whether the items are exactly these texts.
fn are_texts(items: &[Value<'_>], names: &[RcStr]) -> bool
    ensures { result ≡ says.are_texts (items_view items.now) (map rc_str_bytes names.now) }
{
    match items.split_first() {
        Some((first, items)) => match names.split_first() {
            Some((name, names)) => is_text(name, first) && are_texts(items, names),
            None => false,
        },
        None => names.is_empty(),
    }
}

fn is_text(name: &RcStr, value: &Value<'_>) -> bool
    ensures { result ≡ says.is_text (rc_str_bytes name.now) (as_str (value_view value.now)) }
{
    match value.as_str() {
        Some(text) => text == name.as_str(),
        None => false,
    }
}

// The names of the extensions.
fn names_of(alloc: Global, extensions: &Extensions<'_>) -> Result<Vec<RcStr>, AllocError>
    ensures { IfOk result (λ ns. map rc_str_bytes ns.items ≡ names_of extensions.now) }
{
    let mut names: Vec<RcStr> = Vec::new(alloc);
    put_standard(alloc, extensions.has_standard(), &mut names)?;
    put_names(extensions.extensions(), &mut names)?;
    Ok(names)
}

fn put_standard(alloc: Global, is_there: bool, names: &mut Vec<RcStr>) -> Result<(), AllocError>
    ensures { OnOk result
        (map rc_str_bytes names.new.items ≡ map rc_str_bytes names.old.items ++ standard_names is_there) }
{
    if is_there {
        put_name(alloc, "decimal", names)?;
        put_name(alloc, "ipaddr", names)?;
        put_name(alloc, "datetime", names)?;
    }
    Ok(())
}

fn put_names(extensions: &[Extension], names: &mut Vec<RcStr>) -> Result<(), AllocError>
    ensures { OnOk result (map rc_str_bytes names.new.items
        ≡ map rc_str_bytes names.old.items ++ map name_text (map name_of extensions.now)) }
{
    'extensions: for extension in extensions {
        put_shared(extension.name().text(), names)?;
    }
    Ok(())
}

fn put_name(alloc: Global, name: &str, names: &mut Vec<RcStr>) -> Result<(), AllocError>
    ensures { OnOk result (map rc_str_bytes names.new.items ≡ map rc_str_bytes names.old.items ++ name.now ∷ []) }
{
    names.push(RcStr::from_str(alloc, name)?)?;
    Ok(())
}

fn put_shared(name: &RcStr, names: &mut Vec<RcStr>) -> Result<(), AllocError>
    ensures { OnOk result
        (map rc_str_bytes names.new.items ≡ map rc_str_bytes names.old.items ++ rc_str_bytes name.now ∷ []) }
{
    names.push(name.clone()?)?;
    Ok(())
}

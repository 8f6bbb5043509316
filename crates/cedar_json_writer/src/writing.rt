#![tactic(auto, using(crate::proofs::Trees::trees))]
//! JSON as text.
ghost use Rattle.std.specs.Prelude.{◌≡◌, ◌∷◌, ◌++◌, ◌≤◌, Some, IfOk, OnOk, string_bytes};
ghost use Rattle.std.specs.Str.{IsUtf8};
ghost use Rattle.json.specs.Json.{document, max_depth};
ghost use Rattle.json.specs.Print.{print};
ghost use Rattle.json.specs.Token.{begin_array, begin_object, key};
ghost use Rattle.json.specs.Tree.{json_tokens, items_tokens, members_tokens, depth};
ghost use Rattle.json.specs.Tree.{HasNumbers, ItemsHaveNumbers, MembersHaveNumbers};
ghost use Rattle.cedar_json_writer.specs.Trees.{json_view, items_view, members_view};

use crate::tree::JsonValue;
use json::Writer;
use std::alloc::{AllocError, Global};
use std::rc::RcStr;

impl JsonValue {
    /// The value as text, with no space. It is the text of that value and of no other: where it nests no deeper than
    /// 128 levels, it reads back as the value. Refuses only if out of memory.
    pub fn to_text(&self, alloc: Global) -> Result<String, AllocError>
        ensures text { IfOk result (λ s. string_bytes s ≡ print (json_tokens (json_view self.now))) }
        ensures reads_back { IfOk result (λ s. depth (json_view self.now) ≤ max_depth
            → document (string_bytes s) ≡ Some (json_view self.now)) }
    {
        let mut writer = Writer::new(Vec::new(alloc));
        write_value(self, &mut writer)?;
        Ok(string_of(writer.into_inner()))
    }
}

fn string_of(bytes: Vec<u8>) -> String
    requires { IsUtf8 bytes.items }
    ensures { string_bytes result ≡ bytes.items }
{
    unsafe { String::from_utf8_unchecked(bytes) }
}

#[cycle(write)]
fn write_value(value: &JsonValue, writer: &mut Writer) -> Result<(), AllocError>
    ensures tokens { OnOk result (writer.new.tokens ≡ writer.old.tokens ++ json_tokens (json_view value.now)) }
    ensures before { OnOk result (writer.new.before ≡ writer.old.before) }
    ensures numbers { OnOk result (HasNumbers (json_view value.now)) }
{
    match value {
        JsonValue::Null => writer.null(),
        JsonValue::Bool(flag) => writer.boolean(*flag),
        JsonValue::Long(long) => writer.i64(*long),
        JsonValue::String(text) => writer.string(text.as_str()),
        JsonValue::Array(items) => write_items(items, writer),
        JsonValue::Object(members) => write_members(members, writer),
    }
}

#[cycle(write)]
fn write_items(items: &Vec<JsonValue>, writer: &mut Writer) -> Result<(), AllocError>
    ensures tokens { OnOk result
        (writer.new.tokens ≡ writer.old.tokens ++ begin_array ∷ items_tokens (items_view items.now.items)) }
    ensures before { OnOk result (writer.new.before ≡ writer.old.before) }
    ensures numbers { OnOk result (ItemsHaveNumbers (items_view items.now.items)) }
{
    writer.begin_array()?;
    'items: for item in items {
        write_value(item, writer)?;
    }
    writer.end_array()
}

#[cycle(write)]
fn write_members(members: &Vec<(RcStr, JsonValue)>, writer: &mut Writer) -> Result<(), AllocError>
    ensures tokens { OnOk result
        (writer.new.tokens ≡ writer.old.tokens ++ begin_object ∷ members_tokens (members_view members.now.items)) }
    ensures before { OnOk result (writer.new.before ≡ writer.old.before) }
    ensures numbers { OnOk result (MembersHaveNumbers (members_view members.now.items)) }
{
    writer.begin_object()?;
    'members: for member in members {
        write_member(member.0.as_str(), &member.1, writer)?;
    }
    writer.end_object()
}

#[cycle(write)]
fn write_member(name: &str, value: &JsonValue, writer: &mut Writer) -> Result<(), AllocError>
    ensures tokens { OnOk result
        (writer.new.tokens ≡ writer.old.tokens ++ key name.now ∷ json_tokens (json_view value.now)) }
    ensures before { OnOk result (writer.new.before ≡ writer.old.before) }
    ensures numbers { OnOk result (HasNumbers (json_view value.now)) }
{
    writer.key(name)?;
    write_value(value, writer)
}

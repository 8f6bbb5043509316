//! One member more in an object that stands on a line.
ghost use Rattle.std.specs.Prelude.{◌≡◌, ◌++◌, IfOk, codes, string_bytes, option_copied};
ghost use Rattle.json.specs.Json.{string};
ghost use Rattle.json.specs.Print.{print};
ghost use Rattle.json.specs.Tree.{json_tokens};
ghost use Rattle.cedar_json_writer.specs.Trees.{json_view};
ghost use Rattle.cedar_json_lines.specs.Objects.{IsOneMore, IsFront, behind};

use cedar_json_writer::{JsonValue, text_to_json};
use std::alloc::{AllocError, Global};

/// The object of this line, which has a member already, with one more behind the others; of any other line that line.
/// Refuses only if out of memory.
pub fn with_member(
    alloc: Global,
    line: &str,
    key: &str,
    value: &JsonValue,
) -> Result<String, AllocError>
    ensures { IfOk result (λ s. IsOneMore line.now key.now (json_view value.now) (string_bytes s)) }
{
    match front_of(line) {
        Some(front) => put_behind(alloc, front, key, value),
        None => String::from_str(alloc, line),
    }
}

// What stands before the end of the object and of the line.
fn front_of(line: &str) -> Option<&str>
    ensures { IsFront line.now (option_copied result) }
{
    line.strip_suffix("}\n")
}

fn put_behind(
    alloc: Global,
    front: &str,
    key: &str,
    value: &JsonValue,
) -> Result<String, AllocError>
    ensures { IfOk result (λ s. string_bytes s ≡ front.now ++ behind key.now (json_view value.now)) }
{
    let key = quoted(alloc, key)?;
    let value = value.to_text(alloc)?;
    let end = "}\n";
    format!(in alloc; "{front},{key}:{value}{end}")
}

// The text as a string of JSON.
fn quoted(alloc: Global, text: &str) -> Result<String, AllocError>
    ensures { IfOk result (λ s. string_bytes s ≡ print (json_tokens (string text.now))) }
{
    let value = text_to_json(alloc, text)?;
    let text = value.to_text(alloc);
    drop(value);
    text
}

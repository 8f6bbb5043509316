//! Texts as they are told: what could be taken for another line, or for an order to a terminal, is shown.
ghost use Rattle.std.specs.Prelude.{◌≡◌, ◌++◌, IfOk, OnOk, string_bytes};
ghost use Rattle.cedar_serve.specs.Visible.{told_character, IsVisible};
ghost use Rattle.cedar_serve.specs.Visible as specs;

use std::alloc::{AllocError, Global};

/// Puts the text behind the others, with each character that is no mark of its own as `\u{..}`: control characters,
/// among them line feeds, the two separators of lines and of paragraphs, and the marks of direction.
pub(crate) fn push_visible(alloc: Global, text: &str, output: &mut String) -> Result<(), AllocError>
    ensures { OnOk result ((told : _) × IsVisible text.now told
        × (string_bytes output.new ≡ string_bytes output.old ++ told)) }
{
    'characters: for character in text.chars() {
        push_visible_character(alloc, character, output)?;
    }
    Ok(())
}

/// Puts the character behind the others, as `push_visible` has it.
#[tactic(auto, unfolding(crate::specs::Visible::told_character))]
pub(crate) fn push_visible_character(
    alloc: Global,
    character: char,
    output: &mut String,
) -> Result<(), AllocError>
    ensures { OnOk result (string_bytes output.new ≡ string_bytes output.old ++ told_character character) }
{
    if is_hidden(character) {
        let code = u32::from(character);
        output.push_str(format!(in alloc; "\\u{{{code:x}}}")?.as_str())
    } else {
        output.push(character)
    }
}

/// The text as it is told.
pub(crate) fn visible(alloc: Global, text: &str) -> Result<String, AllocError>
    ensures { IfOk result (λ told. IsVisible text.now (string_bytes told)) }
{
    let mut output = String::new(alloc);
    push_visible(alloc, text, &mut output)?;
    Ok(output)
}

fn is_hidden(character: char) -> bool
    ensures { result ≡ specs.is_hidden character }
{
    let code = u32::from(character);
    code < 0x20 || is_between(0x7f, 0x9f, code) || is_separator(code) || is_direction(code)
}

fn is_separator(code: u32) -> bool
    ensures { result ≡ specs.is_separator code }
{
    code == 0x2028 || code == 0x2029
}

fn is_direction(code: u32) -> bool
    ensures { result ≡ specs.is_direction code }
{
    code == 0x61c
        || code == 0x200e
        || code == 0x200f
        || is_between(0x202a, 0x202e, code)
        || is_between(0x2066, 0x2069, code)
}

fn is_between(first: u32, last: u32, code: u32) -> bool
    ensures { result ≡ specs.is_between first last code }
{
    first <= code && code <= last
}

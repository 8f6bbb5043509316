//! Texts in rows: a row is one line, and stands without blanks at its ends.
use std::alloc::{AllocError, Global};

/// The text that stands in a row: `␣` stands for a space, `␉` for a tab, `␊` for a line feed, `␍` for a carriage
/// return, `␀`, `␁`, `␟` and `␡` for the control characters of the numbers 0, 1, 31 and 127, and `␦` for a byte order
/// mark.
pub fn replace_signs(alloc: Global, row: &str) -> Result<String, AllocError> {
    let mut text = String::new(alloc);
    for character in row.chars() {
        text.push(meant(character))?;
    }
    Ok(text)
}

fn meant(character: char) -> char {
    match character {
        '␣' => ' ',
        '␉' => '\t',
        '␊' => '\n',
        '␍' => '\r',
        '␀' => '\0',
        '␁' => '\x01',
        '␟' => '\x1f',
        '␡' => '\x7f',
        '␦' => '\u{feff}',
        _ => character,
    }
}

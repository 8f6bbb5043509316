//! Shows why a text can't be read, and where.
ghost use Rattle.std.specs.Prelude.{◌≡◌, ◌+◌, ◌^◌, ◌<◌, ◌≤◌, ◌++◌, min, length, codes, string_bytes, IfOk};
ghost use Rattle.cedar_text_lexer.specs.Messages as Messages;
ghost use Rattle.cedar_text_lexer.specs.Positions as Positions;

use crate::errors::ReadError;
use crate::messages::message;
use crate::scanning;
use std::alloc::{AllocError, Global};

/// Where a byte of a text stands: in which line and at which of its characters, both counted from 1, and at which byte
/// its line starts.
#[derive(Clone, Copy)]
pub struct Position {
    pub at: usize,
    pub line: usize,
    pub column: usize,
    pub start: usize,
}

/// Where this byte of the text stands.
pub fn locate(text: &str, at: usize) -> Position
    requires { at ≤ length text.now }
    ensures { result ≡ Positions.position_of text.now at }
{
    let bytes = text.as_bytes();
    let mut position = Position {
        at: 0,
        line: 1,
        column: 1,
        start: 0,
    };
    for i in 0..at {
        position = behind(position, bytes[i]);
    }
    position
}

// Where the byte behind this one stands.
fn behind(p: Position, byte: u8) -> Position
    requires at { p.at + 1 < 2 ^ 64 }
    requires line { p.line + 1 < 2 ^ 64 }
    requires column { p.column + 1 < 2 ^ 64 }
    ensures { result ≡ Positions.behind p byte }
{
    if byte == b'\n' {
        return Position {
            at: p.at + 1,
            line: p.line + 1,
            column: 1,
            start: p.at + 1,
        };
    }
    let column = if byte >= 128 && byte < 192 {
        p.column
    } else {
        p.column + 1
    };
    Position {
        at: p.at + 1,
        line: p.line,
        column,
        start: p.start,
    }
}

/// Why the text can't be read: the line and the column, what was expected and what was found, and below it the line
/// itself, with the place marked under it.
///
/// # Errors
///
/// Out of memory.
pub fn show_error(alloc: Global, text: &str, error: ReadError) -> Result<String, AllocError>
    ensures { IfOk result (λ told. Positions.BeginsWith (string_bytes told) (Messages.told_of text.now error)) }
{
    match error {
        ReadError::Memory => Ok(String::from_str(alloc, "out of memory")?),
        ReadError::Expected { start, end, .. } => told(alloc, text, error, start, end),
        ReadError::TooDeep { start, end, .. } => told(alloc, text, error, start, end),
    }
}

fn told(
    alloc: Global,
    text: &str,
    error: ReadError,
    start: usize,
    end: usize,
) -> Result<String, AllocError>
    ensures { IfOk result (λ told. Positions.BeginsWith
        (string_bytes told)
        (Positions.headline_of
        (Positions.position_of text.now (min start (length text.now)))
        (Messages.message_of text.now error))) }
{
    let why = message(alloc, text, error)?;
    mark_line(alloc, text, &why, start, end)
}

fn mark_line(
    alloc: Global,
    text: &str,
    why: &str,
    start: usize,
    end: usize,
) -> Result<String, AllocError>
    ensures { IfOk result (λ told. Positions.BeginsWith
        (string_bytes told)
        (Positions.headline_of (Positions.position_of text.now (min start (length text.now))) why.now)) }
{
    let start = start.min(text.len());
    let position = locate(text, start);
    let mut told = headline(alloc, position, why)?;
    let from = position.start;
    let line_end = scanning::line_end(text.as_bytes(), start);
    let line = text.get(from..line_end).unwrap_or("");
    let below = marked_line(
        alloc,
        line,
        start.saturating_sub(from),
        end.saturating_sub(from),
    )?;
    told.push('\n')?;
    told.push_str(&below)?;
    Ok(told)
}

fn headline(alloc: Global, position: Position, why: &str) -> Result<String, AllocError>
    ensures { IfOk result (λ told. string_bytes told ≡ Positions.headline_of position why.now) }
{
    let line = position.line;
    let column = position.column;
    Ok(format!(in alloc; "line {line}, column {column}: {why}")?)
}

/// The line, and below it marks for its bytes from `start` up to `end`: `^` under each character of them, and blanks
/// before; a tab stands as it is. What lies behind the line is not marked. One `^` marks the place where these bytes
/// are none, as where `end` is not behind `start` or no character ends there, and the line's first where none begins
/// at `start`.
///
/// # Errors
///
/// Out of memory.
pub fn marked_line(
    alloc: Global,
    line: &str,
    start: usize,
    end: usize,
) -> Result<String, AllocError>
    ensures { IfOk result (λ told. Positions.BeginsWith (string_bytes told) (line.now ++ codes "\n")) }
{
    let before = line.get(..start).unwrap_or("");
    let place = line.get(start..end.min(line.len())).unwrap_or("");
    let blanks = marks(alloc, before, ' ')?;
    let marks = marks(alloc, if place.is_empty() { " " } else { place }, '^')?;
    Ok(format!(in alloc; "{line}\n{blanks}{marks}")?)
}

// The mark for each character of the text, and each tab as it stands.
fn marks(alloc: Global, text: &str, mark: char) -> Result<String, AllocError>
    requires { mark < 128 }
    ensures { IfOk result (λ told. string_bytes told ≡ Positions.marks_under mark text.now) }
{
    let mut marks = String::new(alloc);
    'characters: for character in text.chars() {
        marks.push(mark_for(mark, character))?;
    }
    Ok(marks)
}

fn mark_for(mark: char, character: char) -> char
    ensures { result ≡ Positions.mark_for mark character }
{
    if character == '\t' { character } else { mark }
}

//! Where places of a text are, and what is told of them.
ghost use Rattle.std.specs.Prelude.{◌≡◌, ◌+◌, ◌^◌, ◌<◌, ◌≤◌, All, IfOk, List, ℕ, min, not, length};
ghost use Rattle.cedar_text_lexer.specs.Positions as positions;
ghost use Rattle.cedar_cli.specs.Noted.{IsOf, place_at};

use crate::asked::Source;
use crate::visible::{push_visible, push_visible_character, visible};
use cedar_policy_core::parser::Loc;
use cedar_policy_core::parser::err::Position;
use std::alloc::{AllocError, Global};

/// Of so many bytes of a text one has its position noted.
const EVERY: usize = 256;

/// So many characters of a line are told before a place, and from its start on.
const SIDE: usize = 120;

/// A text in which places are looked up: where each of its bytes stands whose number is a multiple of `EVERY` is noted.
#[derive(Drop)]
pub(crate) struct Places<'a> {
    source: Source<'a>,
    noted: Vec<Position>,
    ghost right: { All (IsOf source.text.now) noted.items },
}

impl<'a> Places<'a> {
    /// The places of this text, over which it goes once.
    pub(crate) fn of(alloc: Global, source: Source<'a>) -> Result<Places<'a>, AllocError>
        ensures { IfOk result (λ places. places.source ≡ source.entry) }
    {
        let bytes = source.text.as_bytes();
        let mut noted: Vec<Position> = Vec::new(alloc);
        let mut position = first_position();
        for i in 0..bytes.len() {
            if i % EVERY == 0 {
                noted.push(position)?;
            }
            position = behind(position, bytes[i]);
        }
        Ok(Places { source, noted })
    }

    /// The name of what the text stands in.
    pub(crate) fn name(&self) -> &'a str
        ensures { result ≡ self.now.source.name }
    {
        self.source.name
    }

    /// The text.
    pub(crate) fn text(&self) -> &'a str {
        self.source.text
    }

    /// The line and the column where the place begins.
    pub(crate) fn place_of(&self, loc: Loc) -> (usize, usize)
        ensures { result ≡ place_at self.now.source.text.now loc.start }
    {
        let position = self.position_of(loc.start);
        (position.line, position.column)
    }

    // Where the byte stands: of a text with fewer bytes, its end.
    fn position_of(&self, at: usize) -> Position
        ensures { result ≡ positions.position_of self.now.source.text.now (min at (length self.now.source.text.now)) }
    {
        let bytes = self.source.text.as_bytes();
        let at = at.min(bytes.len());
        let mut position = self.noted_before(at);
        for i in position.at..at {
            position = behind(position, bytes[i]);
        }
        position
    }

    // The last position that is noted of this byte or of one before it.
    fn noted_before(&self, at: usize) -> Position
        ensures at { result.at ≤ at }
        ensures is { result ≡ positions.position_of self.now.source.text.now result.at }
    {
        match self.noted.get(at / EVERY) {
            Some(position) => if position.at <= at {
                *position
            } else {
                first_position()
            },
            None => first_position(),
        }
    }

    // What is told of the line on which the place stands that begins at this position and ends before this byte.
    fn window_of(&self, position: Position, end: usize) -> Window<'a> {
        let line = self
            .source
            .text
            .get(position.start..position.at)
            .unwrap_or("");
        let rest = self.source.text.get(position.at..).unwrap_or("");
        let before = last_of_line(line);
        let behind = first_of_line(rest);
        let length = end.saturating_sub(position.at).min(behind.len());
        let place = behind.get(..length).unwrap_or("");
        Window {
            is_cut_before: before.len() < line.len(),
            before,
            place,
            behind: behind.get(place.len()..).unwrap_or(""),
            is_cut_behind: goes_on(rest, behind.len()),
        }
    }
}

// Where the first byte of a text stands.
fn first_position() -> Position
    ensures at { result.at ≡ 0 }
    ensures is { (text : List ℕ) → result ≡ positions.position_of text 0 }
{
    Position {
        at: 0,
        line: 1,
        column: 1,
        start: 0,
    }
}

// Where the byte behind this one stands.
fn behind(position: Position, byte: u8) -> Position
    requires at { position.at + 1 < 2 ^ 64 }
    requires line { position.line + 1 < 2 ^ 64 }
    requires column { position.column + 1 < 2 ^ 64 }
    ensures { result ≡ positions.behind position byte }
{
    if byte == b'\n' {
        return Position {
            at: position.at + 1,
            line: position.line + 1,
            column: 1,
            start: position.at + 1,
        };
    }
    let column = if begins_character(byte) {
        position.column + 1
    } else {
        position.column
    };
    Position {
        at: position.at + 1,
        line: position.line,
        column,
        start: position.start,
    }
}

fn begins_character(byte: u8) -> bool
    ensures { result ≡ not (positions.goes_on byte) }
{
    byte < 128 || byte >= 192
}

fn ends_line(byte: u8) -> bool {
    byte == b'\n' || byte == b'\r'
}

// A line about a place: what stands before it, the place, what stands behind it, and whether more of the line does.
#[derive(Clone, Copy)]
struct Window<'a> {
    is_cut_before: bool,
    before: &'a str,
    place: &'a str,
    behind: &'a str,
    is_cut_behind: bool,
}

// The last characters of the text, as many as are told.
fn last_of_line(text: &str) -> &str {
    let bytes = text.as_bytes();
    let mut told: usize = 0;
    for back in 0..bytes.len() {
        let at = bytes.len() - 1 - back;
        if begins_character(bytes[at]) {
            told = told.saturating_add(1);
            if told == SIDE {
                return text.get(at..).unwrap_or("");
            }
        }
    }
    text
}

// The first characters of the text up to the end of a line, as many as are told.
fn first_of_line(text: &str) -> &str {
    let bytes = text.as_bytes();
    let mut told: usize = 0;
    for at in 0..bytes.len() {
        if begins_character(bytes[at]) {
            if told == SIDE || ends_line(bytes[at]) {
                return text.get(..at).unwrap_or("");
            }
            told = told.saturating_add(1);
        }
    }
    text
}

// Whether the line does not end at this byte of the text.
fn goes_on(text: &str, at: usize) -> bool {
    match text.as_bytes().get(at) {
        Some(byte) => !ends_line(*byte),
        None => false,
    }
}

/// `NAME: line L, column C: why`, and below it what stands about the place on its line, with the place marked;
/// `NAME: why` where the place is not known. Each line is ended.
pub(crate) fn describe_at(
    alloc: Global,
    places: &Places<'_>,
    loc: Option<Loc>,
    why: &str,
) -> Result<String, AllocError> {
    let mut told = visible(alloc, places.name())?;
    match loc {
        Some(loc) => {
            let position = places.position_of(loc.start);
            let (line, column) = (position.line, position.column);
            told.push_str(format!(in alloc; ": line {line}, column {column}: ")?.as_str())?;
            push_visible(alloc, why, &mut told)?;
            push_window(alloc, places.window_of(position, loc.end), &mut told)?;
        }
        None => {
            told.push_str(": ")?;
            push_visible(alloc, why, &mut told)?;
        }
    }
    told.push_str("\n")?;
    Ok(told)
}

// The line about a place, and below it the place marked: by one `^` where no character is in it.
fn push_window(alloc: Global, window: Window<'_>, told: &mut String) -> Result<(), AllocError> {
    let mut marks = String::new(alloc);
    told.push_str("\n")?;
    if window.is_cut_before {
        told.push_str("..")?;
        marks.push_str("  ")?;
    }
    push_marked(alloc, window.before, ' ', told, &mut marks)?;
    push_marked(alloc, window.place, '^', told, &mut marks)?;
    if window.place.is_empty() {
        marks.push_str("^")?;
    }
    push_line(alloc, window.behind, told)?;
    if window.is_cut_behind {
        told.push_str("..")?;
    }
    told.push_str("\n")?;
    told.push_str(marks.as_str())
}

// The text as it is told, and the mark for each of its characters then: a tab stands as it is.
fn push_marked(
    alloc: Global,
    text: &str,
    mark: char,
    told: &mut String,
    marks: &mut String,
) -> Result<(), AllocError> {
    let mut shown = String::new(alloc);
    push_line(alloc, text, &mut shown)?;
    for character in shown.chars() {
        marks.push(if character == '\t' { character } else { mark })?;
    }
    told.push_str(shown.as_str())
}

// The text as it is told: a tab stands as it is.
fn push_line(alloc: Global, text: &str, told: &mut String) -> Result<(), AllocError> {
    for character in text.chars() {
        if character == '\t' {
            told.push(character)?;
        } else {
            push_visible_character(alloc, character, told)?;
        }
    }
    Ok(())
}

//! Where places of a text are.
ghost use Rattle.std.specs.Prelude.{◌≡◌, ◌+◌, ◌^◌, ◌<◌, ◌≤◌, All, IfOk, List, ℕ, min, not, length};
ghost use Rattle.cedar_text_lexer.specs.Positions as positions;
ghost use Rattle.cedar_places.specs.Noted.{IsOf, place_at};

use cedar_text_lexer::show::Position;
use std::alloc::{AllocError, Global};

/// Of so many bytes of a text one has its position noted.
const EVERY: usize = 256;

/// A text in which places are looked up: where each of its bytes stands whose number is a multiple of `EVERY` is noted.
#[derive(Drop)]
pub struct Places<'a> {
    text: &'a str,
    noted: Vec<Position>,
    ghost right: { All (IsOf text.now) noted.items },
}

impl<'a> Places<'a> {
    ghost use Rattle.std.specs.Prelude.{◌≡◌, IfOk, min, length};
    ghost use Rattle.cedar_text_lexer.specs.Positions as positions;
    ghost use Rattle.cedar_places.specs.Noted.{place_at};
    ghost use Rattle.cedar_places.specs.Texts.{text_in};

    /// The places of this text, over which it goes once. Refuses only if out of memory.
    pub fn of(alloc: Global, text: &'a str) -> Result<Places<'a>, AllocError>
        ensures { IfOk result (λ places. text_in places ≡ text.now) }
    {
        let bytes = text.as_bytes();
        let mut noted: Vec<Position> = Vec::new(alloc);
        let mut position = first_position();
        for i in 0..bytes.len() {
            if i % EVERY == 0 {
                noted.push(position)?;
            }
            position = behind(position, bytes[i]);
        }
        Ok(Places { text, noted })
    }

    /// The line and the column, counted from 1, of the byte of this number: of a text with fewer bytes, of its end.
    pub fn place_of(&self, at: usize) -> (usize, usize)
        ensures { result ≡ place_at (text_in self.now) at }
    {
        let position = self.position_of(at);
        (position.line, position.column)
    }

    // Where the byte stands: of a text with fewer bytes, its end.
    fn position_of(&self, at: usize) -> Position
        ensures { result ≡ positions.position_of self.now.text.now (min at (length self.now.text.now)) }
    {
        let bytes = self.text.as_bytes();
        let at = at.min(bytes.len());
        let mut position = self.noted_before(at);
        for i in position.at..at {
            position = behind(position, bytes[i]);
        }
        position
    }

    // The last position that is noted of this byte or of one before it.
    fn noted_before(&self, at: usize) -> Position
        ensures at { result.at ≤ at }
        ensures is { result ≡ positions.position_of self.now.text.now result.at }
    {
        match self.noted.get(at / EVERY) {
            Some(position) => if position.at <= at {
                *position
            } else {
                first_position()
            },
            None => first_position(),
        }
    }
}

// Where the first byte of a text stands.
fn first_position() -> Position
    ensures at { result.at ≡ 0 }
    ensures is { (text : List ℕ) → result ≡ positions.position_of text 0 }
{
    Position {
        at: 0,
        line: 1,
        column: 1,
        start: 0,
    }
}

// Where the byte behind this one stands.
fn behind(position: Position, byte: u8) -> Position
    requires at { position.at + 1 < 2 ^ 64 }
    requires line { position.line + 1 < 2 ^ 64 }
    requires column { position.column + 1 < 2 ^ 64 }
    ensures { result ≡ positions.behind position byte }
{
    if byte == b'\n' {
        return Position {
            at: position.at + 1,
            line: position.line + 1,
            column: 1,
            start: position.at + 1,
        };
    }
    let column = if begins_character(byte) {
        position.column + 1
    } else {
        position.column
    };
    Position {
        at: position.at + 1,
        line: position.line,
        column,
        start: position.start,
    }
}

fn begins_character(byte: u8) -> bool
    ensures { result ≡ not (positions.goes_on byte) }
{
    byte < 128 || byte >= 192
}

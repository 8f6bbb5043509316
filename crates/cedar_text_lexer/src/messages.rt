//! Why a text can't be read, in words.
ghost use Rattle.std.specs.Prelude.{◌≡◌, ◌++◌, codes, string_bytes, IfOk, Some, length, min};
ghost use Rattle.std.specs.Fmt.{WritesOnOk};
ghost use Rattle.std.specs.List.{list_all};
ghost use Rattle.cedar_text_lexer.specs.Messages as Messages;
ghost use Rattle.cedar_text_lexer.specs.Positions as Positions;

use crate::errors::{Expected, ReadError};
use crate::kinds::kind_text;
use crate::show::locate;
use crate::tokens::Kind;
use std::alloc::{AllocError, Global};
use std::fmt;
use std::fmt::Display;

// What is at fault.
#[derive(Clone, Copy)]
enum Fault {
    // A key that came before.
    Duplicate,
    // How many arguments a method takes, and how many are given.
    Arguments(usize, usize),
    // A number that no long holds.
    Large,
    // What is no escape.
    NoEscape,
    // The bracket of this kind at this byte is not closed.
    Open(Kind, usize),
    // Nor is the call that stands from this byte on.
    OpenCall(usize),
    // There would be more nodes than these.
    Nodes(usize),
    // Something else is expected than what stands there.
    Other,
}

/// Why the text can't be read, without the place: one line, which has no control character.
///
/// # Errors
///
/// Out of memory.
pub fn message(alloc: Global, text: &str, error: ReadError) -> Result<String, AllocError>
    ensures { IfOk result (λ told. string_bytes told ≡ Messages.message_of text.now error) }
{
    match error {
        ReadError::Memory => Ok(String::from_str(alloc, "out of memory")?),
        ReadError::Expected {
            what,
            found,
            start,
            end,
        } => why(alloc, text, what, found, start, part(text, start, end)),
        ReadError::TooDeep { limit, .. } => levels(alloc, limit),
    }
}

/// What can be said without the text: at which byte, and what was expected and found there or how many levels are read,
/// as `byte 2: expected an operator, found a number`. The first byte is 0.
impl fmt::Display for ReadError {
    ghost output = { λ error. Some (Messages.error_text error) };

    fn fmt<W: fmt::Write>(&self, f: &mut fmt::Formatter<W>) -> fmt::Result {
        match self {
            ReadError::Memory => f.write_str("out of memory"),
            ReadError::Expected {
                what,
                found,
                start,
                end: _,
            } => write_expected(*what, *found, *start, f),
            ReadError::TooDeep {
                limit,
                start,
                end: _,
            } => write_levels(*limit, *start, f),
        }
    }
}

fn write_expected<W: fmt::Write>(
    what: Expected,
    found: Kind,
    start: usize,
    f: &mut fmt::Formatter<W>,
) -> fmt::Result
    ensures { WritesOnOk W.write_str_gives f.old result (Messages.at_byte start (Messages.expected_found what found))
        f.new }
{
    f.write_str("byte ")?;
    start.fmt(f)?;
    f.write_str(": expected ")?;
    what.fmt(f)?;
    f.write_str(", found ")?;
    found.fmt(f)
}

fn write_levels<W: fmt::Write>(limit: usize, start: usize, f: &mut fmt::Formatter<W>) -> fmt::Result
    ensures { WritesOnOk W.write_str_gives f.old result (Messages.at_byte start (Messages.levels_text limit)) f.new }
{
    write!(
        f,
        "byte {start}: the expression has more than {limit} levels"
    )
}

fn levels(alloc: Global, limit: usize) -> Result<String, AllocError>
    ensures { IfOk result (λ told. string_bytes told ≡ Messages.levels_message limit) }
{
    Ok(format!(in alloc;
        "the expression has more than {limit} levels: each operator, of a chain too, is one more than its parts"
    )?)
}

// What stands from byte `start` up to byte `end`, where characters begin there.
fn part(text: &str, start: usize, end: usize) -> &str
    ensures { result.now ≡ Messages.part_of text.now start end }
{
    let bytes = text.as_bytes();
    if start <= end && is_boundary(bytes, start) && is_boundary(bytes, end) {
        &text[start..end]
    } else {
        ""
    }
}

// A character begins at this byte, or the text ends there.
fn is_boundary(bytes: &[u8], at: usize) -> bool
    ensures { result ≡ Messages.is_boundary bytes.now at }
{
    at == bytes.len() || (at < bytes.len() && !goes_on(bytes[at]))
}

// The byte goes on with a character that another began.
fn goes_on(byte: u8) -> bool
    ensures { result ≡ Positions.goes_on byte }
{
    byte >= 128 && byte < 192
}

fn why(
    alloc: Global,
    text: &str,
    what: Expected,
    found: Kind,
    start: usize,
    word: &str,
) -> Result<String, AllocError>
    ensures { IfOk result (λ told. string_bytes told ≡ Messages.why_of text.now what found start word.now) }
{
    if found == Kind::Unreadable {
        unreadable(alloc, word)
    } else if found == Kind::Number && follows_point(text.as_bytes(), start) {
        fraction(alloc, what)
    } else {
        faulty(alloc, text, what, found, word)
    }
}

// ---- fractions

// A digit and a point stand before this byte.
fn follows_point(bytes: &[u8], start: usize) -> bool
    ensures { result ≡ Messages.follows_point bytes.now start }
{
    start >= 2
        && start <= bytes.len()
        && bytes[start - 1] == b'.'
        && bytes[start - 2] >= b'0'
        && bytes[start - 2] <= b'9'
}

fn fraction(alloc: Global, what: Expected) -> Result<String, AllocError>
    ensures { IfOk result (λ told. string_bytes told ≡ Messages.fraction_message what) }
{
    Ok(format!(in alloc;
        "expected {what}, found a number: Cedar has no fractions, but decimals, as in `decimal(\"1.5\")`"
    )?)
}

// ---- characters that begin no token

fn unreadable(alloc: Global, word: &str) -> Result<String, AllocError>
    ensures { IfOk result (λ told. string_bytes told ≡ Messages.unreadable_message word.now) }
{
    let character = character(alloc, word)?;
    let hint = hint(word);
    Ok(format!(in alloc; "{character} begins no token{hint}")?)
}

fn character(alloc: Global, word: &str) -> Result<String, AllocError>
    ensures { IfOk result (λ told. string_bytes told ≡ Messages.character_text word.now) }
{
    if is_mark(word.as_bytes()) {
        Ok(String::from_str(alloc, "a byte order mark")?)
    } else if word == "\r" {
        Ok(String::from_str(alloc, "a carriage return without a line feed")?)
    } else if is_seen(word.as_bytes()) {
        Ok(format!(in alloc; "`{word}`")?)
    } else {
        Ok(String::from_str(alloc, "a character that is not seen")?)
    }
}

// What was probably meant.
fn hint(word: &str) -> &'static str
    ensures { result.now ≡ Messages.hint_of word.now }
{
    if is_curly(word.as_bytes()) {
        return ": texts stand in plain quotes, as in `\"a\"`";
    }
    match word {
        "'" => ": texts stand in plain quotes, as in `\"a\"`",
        "`" => ": texts stand in plain quotes, as in `\"a\"`",
        "=" => ": did you mean `==`?",
        "&" => ": did you mean `&&`?",
        "|" => ": did you mean `||`?",
        "#" => ": comments begin with `//`",
        "/" => ": comments begin with `//`",
        "?" => ": slots are `?principal` and `?resource`",
        _ => "",
    }
}

fn is_mark(bytes: &[u8]) -> bool
    ensures { result ≡ Messages.is_mark bytes.now }
{
    bytes.len() == 3 && bytes[0] == 239 && bytes[1] == 187 && bytes[2] == 191
}

// A quote of print.
fn is_curly(bytes: &[u8]) -> bool
    ensures { result ≡ Messages.is_curly bytes.now }
{
    bytes.len() == 3 && bytes[0] == 226 && bytes[1] == 128 && bytes[2] >= 152 && bytes[2] <= 159
}

// The character is seen where it is printed.
fn is_seen(bytes: &[u8]) -> bool
    ensures { result ≡ Messages.is_seen bytes.now }
{
    is_plain(bytes) || is_curly(bytes) || (bytes.len() > 1 && !is_hidden(bytes[0], bytes[1]))
}

fn is_hidden(a: u8, b: u8) -> bool
    ensures { result ≡ Messages.is_hidden a b }
{
    (a == 194 && b < 160)
        || (a == 216 && b == 156)
        || (a == 226 && (b == 128 || b == 129))
        || (a == 239 && b == 187)
        || a == 243
}

// Marks of ASCII and spaces alone, and one at least.
fn is_plain(bytes: &[u8]) -> bool
    ensures { result ≡ Messages.is_plain bytes.now }
{
    bytes.len() > 0 && are_plain(bytes)
}

fn are_plain(bytes: &[u8]) -> bool
    ensures { result ≡ list_all Messages.is_plain_byte bytes.now }
{
    bytes.iter().all(|byte| is_plain_byte(*byte))
}

fn is_plain_byte(byte: u8) -> bool
    ensures { result ≡ Messages.is_plain_byte byte }
{
    byte > 31 && byte < 127
}

// ---- what else is wrong

fn fault_in(what: Expected) -> Fault
    ensures { result ≡ Messages.fault_of what }
{
    match what {
        Expected::NewKey => Fault::Duplicate,
        Expected::NoArgument(given) => Fault::Arguments(0, given),
        Expected::OneArgument(given) => Fault::Arguments(1, given),
        Expected::Long => Fault::Large,
        Expected::Escape => Fault::NoEscape,
        Expected::ClosedParen(at) => Fault::Open(Kind::OpenParen, at),
        Expected::ClosedCall(at) => Fault::OpenCall(at),
        Expected::ClosedBracket(at) => Fault::Open(Kind::OpenBracket, at),
        Expected::ClosedBrace(at) => Fault::Open(Kind::OpenBrace, at),
        Expected::FewerNodes(most) => Fault::Nodes(most),
        _ => Fault::Other,
    }
}

fn faulty(
    alloc: Global,
    text: &str,
    what: Expected,
    found: Kind,
    word: &str,
) -> Result<String, AllocError>
    ensures { IfOk result (λ told.
        string_bytes told ≡ Messages.fault_message text.now what found word.now (Messages.fault_of what)) }
{
    match fault_in(what) {
        Fault::Duplicate => duplicate(alloc, word),
        Fault::Arguments(takes, given) => arguments(alloc, word, takes, given),
        Fault::Large => {
            Ok(String::from_str(alloc, "the number is larger than 9223372036854775807")?)
        }
        Fault::NoEscape => no_escape(alloc, word),
        Fault::Open(kind, at) => open(alloc, text, what, found, kind_text(kind), at),
        Fault::OpenCall(at) => open(alloc, text, what, found, "call", at),
        Fault::Nodes(most) => nodes(alloc, most),
        Fault::Other => expected(alloc, what, found),
    }
}

fn expected(alloc: Global, what: Expected, found: Kind) -> Result<String, AllocError>
    ensures { IfOk result (λ told. string_bytes told ≡ Messages.expected_found what found) }
{
    Ok(format!(in alloc; "expected {what}, found {found}")?)
}

fn duplicate(alloc: Global, word: &str) -> Result<String, AllocError>
    ensures { IfOk result (λ told.
        string_bytes told ≡ Messages.named word.now (codes "this key") ++ codes " is a duplicate key") }
{
    let name = named(alloc, word, "this key")?;
    Ok(format!(in alloc; "{name} is a duplicate key")?)
}

fn named(alloc: Global, word: &str, called: &str) -> Result<String, AllocError>
    ensures { IfOk result (λ told. string_bytes told ≡ Messages.named word.now called.now) }
{
    if is_plain(word.as_bytes()) {
        Ok(format!(in alloc; "`{word}`")?)
    } else {
        Ok(String::from_str(alloc, called)?)
    }
}

fn arguments(alloc: Global, word: &str, takes: usize, given: usize) -> Result<String, AllocError>
    ensures { IfOk result (λ told. string_bytes told ≡ Messages.arguments_message word.now takes given) }
{
    let name = named(alloc, word, "this method")?;
    let arguments = arguments_name(takes);
    let are = are(given);
    Ok(format!(in alloc; "{name} takes {takes} {arguments}, but {given} {are} given")?)
}

fn arguments_name(number: usize) -> &'static str
    ensures { result.now ≡ Messages.arguments_name number }
{
    if number == 1 { "argument" } else { "arguments" }
}

fn are(number: usize) -> &'static str
    ensures { result.now ≡ Messages.are number }
{
    if number == 1 { "is" } else { "are" }
}

fn no_escape(alloc: Global, word: &str) -> Result<String, AllocError>
    ensures { IfOk result (λ told. string_bytes told ≡ Messages.escape_message word.now) }
{
    if word == "\r" {
        return Ok(String::from_str(
            alloc,
            "a carriage return without a line feed: `\\r` stands for one",
        )?);
    }
    let name = named(alloc, word, "this")?;
    Ok(format!(in alloc; "{name} is no escape")?)
}

// What was expected and found, and what is open since which place.
fn open(
    alloc: Global,
    text: &str,
    what: Expected,
    found: Kind,
    opened: &str,
    at: usize,
) -> Result<String, AllocError>
    ensures { IfOk result (λ told.
        string_bytes told ≡ Messages.open_message text.now what found opened.now at) }
{
    let position = locate(text, at.min(text.len()));
    let line = position.line;
    let column = position.column;
    Ok(format!(in alloc;
        "expected {what}, found {found}: the {opened} at line {line}, column {column} is open"
    )?)
}

fn nodes(alloc: Global, most: usize) -> Result<String, AllocError>
    ensures { IfOk result (λ told. string_bytes told ≡ Messages.nodes_message most) }
{
    Ok(format!(in alloc;
        "`is` with `in` has its left side twice: the expression would have more than {most} nodes"
    )?)
}

//! Shows why a text with expressions can't be read, and where.
ghost use Rattle.std.specs.Prelude.{◌≡◌, string_bytes, IfOk, None, Some};
ghost use Rattle.std.specs.Fmt.{WritesOnOk};
ghost use Rattle.cedar_text_lexer.specs.Messages.{at_byte};
ghost use Rattle.cedar_text_lexer.specs.Positions.{BeginsWith, headline_of};
ghost use Rattle.cedar_text_parser.specs.Messages as Messages;

use crate::errors::ParseError;
use cedar_names::CallStyle;
use cedar_text_lexer::show::{Position, locate, marked_line};
use std::alloc::{AllocError, Global};
use std::fmt;
use std::fmt::Display;
use std::rc::RcStr;

/// Why the text can't be read: the line and the column, why, and below it the line itself, with the place marked under
/// it.
///
/// # Errors
///
/// Out of memory.
pub fn show_error(alloc: Global, text: &str, error: &ParseError) -> Result<String, AllocError>
    ensures { IfOk result (λ told. BeginsWith (string_bytes told) (Messages.told text.now error.now)) }
{
    match error {
        ParseError::Read(error) => cedar_text_lexer::show::show_error(alloc, text, *error),
        ParseError::UnknownFunction {
            name,
            style,
            nearest,
            start,
            end,
        } => {
            let why = unknown(alloc, name, *style, nearest)?;
            mark_line(alloc, text, &why, *start, *end)
        }
        ParseError::WrongStyle {
            name,
            expected,
            start,
            end,
        } => {
            let why = other_style(alloc, name, *expected)?;
            mark_line(alloc, text, &why, *start, *end)
        }
        ParseError::WrongNumberOfArguments {
            name,
            expected,
            found,
            start,
            end,
        } => {
            let why = other_number(alloc, name, *expected, *found)?;
            mark_line(alloc, text, &why, *start, *end)
        }
    }
}

/// Why the text can't be read, without the place: one line, which has no control character.
///
/// # Errors
///
/// Out of memory.
pub fn message(alloc: Global, text: &str, error: &ParseError) -> Result<String, AllocError>
    ensures { IfOk result (λ told. string_bytes told ≡ Messages.message_of text.now error.now) }
{
    match error {
        ParseError::Read(error) => cedar_text_lexer::messages::message(alloc, text, *error),
        ParseError::UnknownFunction {
            name,
            style,
            nearest,
            ..
        } => unknown(alloc, name, *style, nearest),
        ParseError::WrongStyle { name, expected, .. } => other_style(alloc, name, *expected),
        ParseError::WrongNumberOfArguments {
            name,
            expected,
            found,
            ..
        } => other_number(alloc, name, *expected, *found),
    }
}

/// What can be said without the text: at which byte, and why, as ``byte 0: `contain` is not a valid method``. The first
/// byte is 0.
impl fmt::Display for ParseError {
    ghost output = { λ error. Some (Messages.error_text error) };

    fn fmt<W: fmt::Write>(&self, f: &mut fmt::Formatter<W>) -> fmt::Result {
        match self {
            ParseError::Read(error) => error.fmt(f),
            ParseError::UnknownFunction {
                name,
                style,
                nearest,
                start,
                end: _,
            } => write_unknown(name, *style, nearest, *start, f),
            ParseError::WrongStyle {
                name,
                expected,
                start,
                end: _,
            } => write_style(name, *expected, *start, f),
            ParseError::WrongNumberOfArguments {
                name,
                expected,
                found,
                start,
                end: _,
            } => write_number(name, *expected, *found, *start, f),
        }
    }
}

fn write_unknown<W: fmt::Write>(
    name: &str,
    style: CallStyle,
    nearest: &Option<RcStr>,
    start: usize,
    f: &mut fmt::Formatter<W>,
) -> fmt::Result
    ensures { WritesOnOk W.write_str_gives f.old result
        (at_byte start (Messages.unknown_message name.now style nearest.now)) f.new }
{
    match nearest {
        None => write_alone(name, style, start, f),
        Some(nearest) => write_meant(name, style, nearest.as_str(), start, f),
    }
}

fn write_alone<W: fmt::Write>(
    name: &str,
    style: CallStyle,
    start: usize,
    f: &mut fmt::Formatter<W>,
) -> fmt::Result
    ensures { WritesOnOk W.write_str_gives f.old result
        (at_byte start (Messages.unknown_message name.now style None)) f.new }
{
    let kind = style_name(style);
    write!(f, "byte {start}: `{name}` is not a valid {kind}")
}

fn write_meant<W: fmt::Write>(
    name: &str,
    style: CallStyle,
    meant: &str,
    start: usize,
    f: &mut fmt::Formatter<W>,
) -> fmt::Result
    ensures { WritesOnOk W.write_str_gives f.old result
        (at_byte start (Messages.meant_message name.now style meant.now)) f.new }
{
    let kind = style_name(style);
    write!(
        f,
        "byte {start}: `{name}` is not a valid {kind}; did you mean `{meant}`?"
    )
}

fn write_style<W: fmt::Write>(
    name: &str,
    expected: CallStyle,
    start: usize,
    f: &mut fmt::Formatter<W>,
) -> fmt::Result
    ensures { WritesOnOk W.write_str_gives f.old result
        (at_byte start (Messages.style_message name.now expected)) f.new }
{
    let kind = style_name(expected);
    let other = other_name(expected);
    write!(f, "byte {start}: `{name}` is a {kind}, not a {other}")
}

fn write_number<W: fmt::Write>(
    name: &str,
    expected: usize,
    found: usize,
    start: usize,
    f: &mut fmt::Formatter<W>,
) -> fmt::Result
    ensures { WritesOnOk W.write_str_gives f.old result
        (at_byte start (Messages.number_message name.now expected found)) f.new }
{
    let arguments = arguments_name(expected);
    let are = are(found);
    write!(
        f,
        "byte {start}: `{name}` takes {expected} {arguments}, but {found} {are} given"
    )
}

fn unknown(
    alloc: Global,
    name: &str,
    style: CallStyle,
    nearest: &Option<RcStr>,
) -> Result<String, AllocError>
    ensures { IfOk result (λ told. string_bytes told ≡ Messages.unknown_message name.now style nearest.now) }
{
    match nearest {
        None => alone(alloc, name, style),
        Some(nearest) => with_meant(alloc, name, style, nearest.as_str()),
    }
}

fn alone(alloc: Global, name: &str, style: CallStyle) -> Result<String, AllocError>
    ensures { IfOk result (λ told. string_bytes told ≡ Messages.unknown_message name.now style None) }
{
    let kind = style_name(style);
    Ok(format!(in alloc; "`{name}` is not a valid {kind}")?)
}

fn with_meant(
    alloc: Global,
    name: &str,
    style: CallStyle,
    meant: &str,
) -> Result<String, AllocError>
    ensures { IfOk result (λ told. string_bytes told ≡ Messages.meant_message name.now style meant.now) }
{
    let kind = style_name(style);
    Ok(format!(in alloc; "`{name}` is not a valid {kind}; did you mean `{meant}`?")?)
}

fn other_style(alloc: Global, name: &str, expected: CallStyle) -> Result<String, AllocError>
    ensures { IfOk result (λ told. string_bytes told ≡ Messages.style_message name.now expected) }
{
    let kind = style_name(expected);
    let other = other_name(expected);
    Ok(format!(in alloc; "`{name}` is a {kind}, not a {other}")?)
}

fn other_number(
    alloc: Global,
    name: &str,
    expected: usize,
    found: usize,
) -> Result<String, AllocError>
    ensures { IfOk result (λ told. string_bytes told ≡ Messages.number_message name.now expected found) }
{
    let arguments = arguments_name(expected);
    let are = are(found);
    Ok(format!(in alloc; "`{name}` takes {expected} {arguments}, but {found} {are} given")?)
}

fn arguments_name(number: usize) -> &'static str
    ensures { result.now ≡ Messages.arguments_name number }
{
    if number == 1 { "argument" } else { "arguments" }
}

fn are(number: usize) -> &'static str
    ensures { result.now ≡ Messages.are number }
{
    if number == 1 { "is" } else { "are" }
}

fn style_name(style: CallStyle) -> &'static str
    ensures { result.now ≡ Messages.style_name style }
{
    match style {
        CallStyle::FunctionStyle => "function",
        CallStyle::MethodStyle => "method",
    }
}

fn other_name(style: CallStyle) -> &'static str
    ensures { result.now ≡ Messages.other_name style }
{
    match style {
        CallStyle::FunctionStyle => "method",
        CallStyle::MethodStyle => "function",
    }
}

fn mark_line(
    alloc: Global,
    text: &str,
    why: &str,
    start: usize,
    end: usize,
) -> Result<String, AllocError>
    ensures { IfOk result (λ told. BeginsWith (string_bytes told) (Messages.told_at text.now start why.now)) }
{
    let start = start.min(text.len());
    let position = locate(text, start);
    let mut told = headline(alloc, position, why)?;
    let from = position.start;
    let below = marked_line(
        alloc,
        line_at(text, from),
        start.saturating_sub(from),
        end.saturating_sub(from),
    )?;
    told.push('\n')?;
    told.push_str(&below)?;
    Ok(told)
}

fn headline(alloc: Global, position: Position, why: &str) -> Result<String, AllocError>
    ensures { IfOk result (λ told. string_bytes told ≡ headline_of position why.now) }
{
    let line = position.line;
    let column = position.column;
    Ok(format!(in alloc; "line {line}, column {column}: {why}")?)
}

// The line that starts at this byte.
fn line_at(text: &str, from: usize) -> &str {
    let rest = text.get(from..).unwrap_or("");
    match rest.split_once('\n') {
        Some((line, _)) => line,
        None => rest,
    }
}

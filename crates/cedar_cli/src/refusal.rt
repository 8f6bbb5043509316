//! Why a question is not answered.
ghost use Rattle.std.specs.Prelude.{◌≡◌, IfSome, OnOk};
ghost use Rattle.cedar_cli.specs.declared.refusal.Refusal.TheVariants as refusals;
ghost use Rattle.cedar_cli.specs.Reasons.{IsToldFor, IsOfText, IsOfPolicies, IsOfJson};

use crate::asked::Source;
use crate::faults::{Fault, Repeated, Wrong, repeated_key, syntax_fault};
use crate::places::{Places, describe_at};
use crate::visible::visible;
use cedar_policy_core::entities::json::JsonError;
use cedar_policy_core::parser::err::ReadError;
use cedar_policy_core::parser::{Loc, ParseError, message};
use json::MAX_DEPTH;
use std::alloc::{AllocError, AllocFailed, Global};

/// Why a question is not answered.
#[derive(Debug, Drop)]
pub enum Refusal {
    /// Out of memory.
    Memory,
    /// For a reason that is told in these lines, each of which is ended.
    Told(String),
}

impl From<AllocError> for Refusal {
    ghost from_gives = { λ e result. result ≡ refusals.Memory };

    fn from(_error: AllocError) -> Refusal {
        Refusal::Memory
    }
}

impl<T: Drop> From<AllocFailed<T>> for Refusal {
    ghost from_gives = { λ e result. result ≡ refusals.Memory };

    fn from(_error: AllocFailed<T>) -> Refusal {
        Refusal::Memory
    }
}

/// The refusal for which these lines are the reason.
#[cold]
pub(crate) fn refuse_with_lines(lines: Result<String, AllocError>) -> Refusal {
    match lines {
        Ok(lines) => Refusal::Told(lines),
        Err(AllocError) => Refusal::Memory,
    }
}

/// The refusal for which this line is the reason: it is told visibly, as names are.
#[cold]
pub fn refuse_with_line(alloc: Global, line: Result<String, AllocError>) -> Refusal {
    refuse_with_lines(end_line(alloc, line))
}

fn end_line(alloc: Global, line: Result<String, AllocError>) -> Result<String, AllocError> {
    let mut told = visible(alloc, line?.as_str())?;
    told.push_str("\n")?;
    Ok(told)
}

/// The refusal of a name or an entity that can't be read as Cedar's text.
#[cold]
pub(crate) fn unread(alloc: Global, source: Source<'_>, error: ReadError) -> Refusal
    ensures { IsToldFor (IsOfText error) result }
{
    refuse_unparsed(alloc, source, &ParseError::Read(error))
}

/// The refusal of what can't be read as Cedar's text.
#[cold]
pub(crate) fn refuse_unparsed(alloc: Global, source: Source<'_>, error: &ParseError) -> Refusal
    ensures { IsToldFor (IsOfPolicies error.now) result }
{
    match unparsed_of(alloc, source, error) {
        Ok(lines) => Refusal::Told(lines),
        Err(AllocError) => Refusal::Memory,
    }
}

fn unparsed_of(alloc: Global, source: Source<'_>, error: &ParseError) -> Result<String, AllocError>
    ensures { OnOk result (IsOfPolicies error.now) }
{
    let places = Places::of(alloc, source)?;
    unparsed_lines(alloc, &places, error)
}

/// `NAME: line L, column C: why`, and below it the line about the place, which is marked. None, if
/// out of memory.
pub(crate) fn unparsed_lines(
    alloc: Global,
    places: &Places<'_>,
    error: &ParseError,
) -> Result<String, AllocError>
    ensures { OnOk result (IsOfPolicies error.now) }
{
    match place_of(error) {
        Some(loc) => {
            let why = message(alloc, places.text(), error)?;
            describe_at(alloc, places, Some(loc), why.as_str())
        }
        None => Err(AllocError),
    }
}

// Where the text can't be read; nowhere, if out of memory.
fn place_of(error: &ParseError) -> Option<Loc>
    ensures { IfSome result (λ _. IsOfPolicies error.now) }
{
    match error {
        ParseError::Read(error) => place_of_read(*error),
        ParseError::UnknownFunction { start, end, .. } => loc(*start, *end),
        ParseError::WrongStyle { start, end, .. } => loc(*start, *end),
        ParseError::WrongNumberOfArguments { start, end, .. } => loc(*start, *end),
    }
}

fn place_of_read(error: ReadError) -> Option<Loc>
    ensures { IfSome result (λ _. IsOfText error) }
{
    match error {
        ReadError::Memory => None,
        ReadError::Expected { start, end, .. } => loc(start, end),
        ReadError::TooDeep { start, end, .. } => loc(start, end),
    }
}

fn loc(start: usize, end: usize) -> Option<Loc> {
    Some(Loc { start, end })
}

/// The refusal of what can't be read as Cedar's JSON: `NAME: $.path: why`, or `NAME: line L, column C: why` of a text
/// that is no JSON or nests too deep, with what is wrong there, or that has a key twice, which is named.
#[cold]
pub fn unread_json(alloc: Global, source: Source<'_>, error: JsonError) -> Refusal
    ensures { IsToldFor (IsOfJson error) result }
{
    let name = source.name;
    match error {
        JsonError::Memory(_) => Refusal::Memory,
        JsonError::Syntax => no_json(alloc, source),
        JsonError::DuplicateKey => twice(alloc, source),
        JsonError::Refused { path, reason } => {
            refuse_with_line(alloc, format!(in alloc; "{name}: {path}: {reason}"))
        }
        JsonError::Evaluation { path, error } => {
            refuse_with_line(alloc, format!(in alloc; "{name}: {path}: {error}"))
        }
    }
}

// The refusal of a text that is no JSON, or that nests deeper than is read.
fn no_json(alloc: Global, source: Source<'_>) -> Refusal {
    match syntax_fault(alloc, source.text) {
        Ok(fault) => refuse_with_line(alloc, no_json_line(alloc, source, fault)),
        Err(AllocError) => Refusal::Memory,
    }
}

fn no_json_line(alloc: Global, source: Source<'_>, fault: Fault) -> Result<String, AllocError> {
    let why = match fault.wrong {
        Wrong::TooDeep => {
            let why = format!(in alloc;
                "more than {MAX_DEPTH} arrays and objects, one in another"
            )?;
            return faulty_line(alloc, source, fault.start, why.as_str());
        }
        Wrong::Ends => "not JSON: more is due where the text ends",
        Wrong::Mark => "not JSON: the text begins with a byte order mark",
        Wrong::Comma => "not JSON: a comma stands before the end of an array or an object",
        Wrong::Quotes => "not JSON: a key or a text stands in double quotes",
        Wrong::Unended => "not JSON: the quotes of a key or a text don't end",
        Wrong::Control => "not JSON: a control character in a key or a text",
        Wrong::Escape => "not JSON: no such escape",
        Wrong::Surrogate => "not JSON: half of a pair of surrogates",
        Wrong::Other => "not JSON",
    };
    faulty_line(alloc, source, fault.start, why)
}

// The refusal of a text in which an object has a key twice.
fn twice(alloc: Global, source: Source<'_>) -> Refusal {
    match repeated_key(alloc, source.text) {
        Ok(Some(repeated)) => refuse_with_line(alloc, twice_line(alloc, source, &repeated)),
        Ok(None) => refuse_with_line(alloc, twice_somewhere(alloc, source)),
        Err(AllocError) => Refusal::Memory,
    }
}

fn twice_line(
    alloc: Global,
    source: Source<'_>,
    repeated: &Repeated,
) -> Result<String, AllocError> {
    let key = repeated.key.as_str();
    let why = format!(in alloc; "the key `{key}` comes twice in an object")?;
    faulty_line(alloc, source, repeated.start, why.as_str())
}

fn twice_somewhere(alloc: Global, source: Source<'_>) -> Result<String, AllocError> {
    let name = source.name;
    format!(in alloc; "{name}: a key comes twice in an object")
}

fn faulty_line(
    alloc: Global,
    source: Source<'_>,
    start: usize,
    why: &str,
) -> Result<String, AllocError> {
    let name = source.name;
    let places = Places::of(alloc, source)?;
    let (line, column) = places.place_of(Loc { start, end: start });
    format!(in alloc; "{name}: line {line}, column {column}: {why}")
}

//! Reads names and entities that stand alone.
ghost use Rattle.std.specs.Prelude.{◌≡◌, ◌<◌, length, IfOk, IfErr};
ghost use Rattle.cedar_text_lexer.specs.Sequence as Tokens;
ghost use Rattle.cedar_text_parser.specs.Paths.{IsNameRead, IsEntityRead, IsPathRefused};
ghost use Rattle.cedar_text_parser.specs.Reading.{IsWithin};

use crate::leaves;
use crate::source::Source;
use cedar_names::{EntityUID, Loc, Name};
use cedar_text_lexer::errors::{Expected, ReadError};
use cedar_text_lexer::lexer;
use cedar_text_lexer::tokens::Kind;
use cedar_text_syntax::{expect, path};
use std::alloc::Global;

/// The name that the text writes: identifiers with `::` between them, as `A::B`.
///
/// # Errors
///
/// Out of memory. Something else was expected than what stands there, at its place in the text.
pub fn parse_name(alloc: Global, text: &str) -> Result<Name, ReadError>
    ensures ok { IfOk result (IsNameRead text.now) }
    ensures err { IfErr result (IsPathRefused text.now) }
    ensures placed { IfErr result (IsWithin text.now) }
{
    let tokens = lexer::tokens(alloc, text)?;
    let name = name_of(alloc, &Source::of(text, &tokens))?;
    Ok(name)
}

// The name that the text's tokens are.
fn name_of(alloc: Global, source: &Source) -> Result<Name, ReadError>
    ensures ok { IfOk result (IsNameRead source.now.text) }
    ensures err { IfErr result (IsPathRefused source.now.text) }
    ensures placed { IfErr result (IsWithin source.now.text) }
{
    let tokens = source.tokens();
    let reach = path(tokens, 0, Expected::Type)?;
    expect(tokens, reach.next, Kind::End, Expected::End)?;
    let name = leaves::name(alloc, source, 0, reach.next)?;
    Ok(name)
}

/// The entity that the text writes: the name of its type, `::` and its id, a text in quotes, as `A::B::"id"`.
///
/// # Errors
///
/// Out of memory. Something else was expected than what stands there, at its place in the text: also an escape of
/// the language.
pub fn parse_entity_uid(alloc: Global, text: &str) -> Result<EntityUID, ReadError>
    ensures ok { IfOk result (IsEntityRead text.now) }
    ensures err { IfErr result (IsPathRefused text.now) }
    ensures placed { IfErr result (IsWithin text.now) }
{
    let tokens = lexer::tokens(alloc, text)?;
    let uid = entity_of(alloc, &Source::of(text, &tokens))?;
    Ok(uid)
}

// The entity that the text's tokens are.
fn entity_of(alloc: Global, source: &Source) -> Result<EntityUID, ReadError>
    ensures ok { IfOk result (IsEntityRead source.now.text) }
    ensures err { IfErr result (IsPathRefused source.now.text) }
    ensures placed { IfErr result (IsWithin source.now.text) }
{
    let tokens = source.tokens();
    let reach = path(tokens, 0, Expected::Entity)?;
    let id = expect(tokens, reach.next, Kind::Colons, Expected::Id)?;
    let last = expect(tokens, id, Kind::Text, Expected::NameOrId)?;
    expect(tokens, last, Kind::End, Expected::End)?;
    let loc = loc_up_to(source, id);
    let uid = leaves::entity(alloc, source, 0, id, loc)?;
    Ok(uid)
}

// From the first token up to the end of this one.
fn loc_up_to(source: &Source, last: usize) -> Loc
    requires { last < length source.now.tokens }
    ensures start { result.start ≡ Tokens.start_at source.now.tokens 0 }
    ensures end { result.end ≡ Tokens.end_at source.now.tokens last }
{
    Loc {
        start: source.start_at(0),
        end: source.end_at(last),
    }
}

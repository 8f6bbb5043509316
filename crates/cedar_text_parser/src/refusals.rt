//! Why a step is refused, and where.
ghost use Rattle.std.specs.Prelude.{◌≡◌, ◌<◌, ◌≤◌, ◌^◌, length};
ghost use Rattle.std.specs.Str.Parse.{digits_value};
ghost use Rattle.cedar_text_lexer.specs.Sequence as Tokens;
ghost use Rattle.cedar_text_parser.specs.Wording.{word_at, IsOperatorAt, IsEmptyAt};
ghost use Rattle.cedar_text_parser.specs.Refusals.{Counts, IsRefused};
ghost use Rattle.cedar_text_lexer.specs.declared.errors.Expected.TheVariants as wanted;
ghost use Rattle.cedar_text_lexer.specs.declared.errors.ReadError.TheVariants as error;

use crate::source::Source;
use cedar_text_lexer::errors::{Expected, ReadError};
use cedar_text_lexer::tokens::Kind;

/// The steps are not well made: no part of the text is at fault.
pub(crate) fn ill_made(source: &Source) -> ReadError
    ensures { IsRefused source.now result }
{
    let end = source.text().len();
    ReadError::Expected {
        what: Expected::Steps,
        found: Kind::End,
        start: end,
        end,
    }
}

/// This should have stood where the token of this number does.
pub(crate) fn wanted_at(source: &Source, at: usize, what: Expected) -> ReadError
    requires { at < length source.now.tokens }
    ensures { result
        ≡ error.Expected what (Tokens.kind_at source.now.tokens at) (Tokens.start_at source.now.tokens at)
        (Tokens.end_at source.now.tokens at) }
{
    let token = source.token_at(at);
    ReadError::Expected {
        what,
        found: token.kind,
        start: token.start,
        end: token.end,
    }
}

/// No long is as large as the number of this token.
pub(crate) fn too_large(source: &Source, at: usize) -> ReadError
    requires within { at < length source.now.tokens }
    requires large { 2 ^ 63 ≤ digits_value 10 (word_at source.now at) }
    ensures { IsRefused source.now result }
{
    wanted_at(source, at, Expected::Long)
}

/// The method that this token names takes one argument, and so many are given.
pub(crate) fn one_argument(source: &Source, at: usize, given: usize) -> ReadError
    requires within { at < length source.now.tokens }
    requires is { IsOperatorAt source.now at }
    ensures is { IsRefused source.now result }
    ensures given { Counts given result }
{
    wanted_at(source, at, Expected::OneArgument(given))
}

/// The method that this token names takes no argument, and so many are given.
pub(crate) fn no_argument(source: &Source, at: usize, given: usize) -> ReadError
    requires within { at < length source.now.tokens }
    requires is { IsEmptyAt source.now at }
    ensures is { IsRefused source.now result }
    ensures given { Counts given result }
{
    wanted_at(source, at, Expected::NoArgument(given))
}

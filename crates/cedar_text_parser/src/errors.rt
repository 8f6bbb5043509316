//! Why a text with expressions can't be read.
ghost use Rattle.std.specs.Prelude.{◌≡◌};
ghost use Rattle.cedar_text_parser.specs.declared.errors.ParseError.TheVariants as error;
ghost use Rattle.cedar_text_lexer.specs.declared.errors.ReadError.TheVariants as read;

use cedar_names::CallStyle;
use cedar_text_lexer::errors::ReadError;
use std::alloc::{AllocError, AllocFailed};
use std::error::Error;
use std::rc::RcStr;

/// Why a text with expressions can't be read, and where. A call of a function that isn't known stands where its name
/// does: from the byte `start` up to, but not including, the byte `end`.
#[derive(Debug, Drop)]
pub enum ParseError {
    /// Out of memory, or something else was expected than what stands there.
    Read(ReadError),
    /// There is no function of this name: not as it is called here, nor otherwise.
    UnknownFunction {
        /// The name, without blanks.
        name: RcStr,
        /// How it is called.
        style: CallStyle,
        /// The nearest name that may be called so, if one is near.
        nearest: Option<RcStr>,
        start: usize,
        end: usize,
    },
    /// The function of this name is called in the other style.
    WrongStyle {
        /// The name, without blanks.
        name: RcStr,
        /// How the function of this name is to be called.
        expected: CallStyle,
        start: usize,
        end: usize,
    },
    /// The function of this name takes another number of arguments. The receiver of a method is one of them.
    WrongNumberOfArguments {
        /// The name, without blanks.
        name: RcStr,
        /// How many it takes.
        expected: usize,
        /// How many are given.
        found: usize,
        start: usize,
        end: usize,
    },
}

impl Error for ParseError {}

impl From<ReadError> for ParseError {
    ghost from_gives = { λ e result. result ≡ error.Read e };

    fn from(error: ReadError) -> ParseError {
        ParseError::Read(error)
    }
}

impl From<AllocError> for ParseError {
    ghost from_gives = { λ _ result. result ≡ error.Read read.Memory };

    fn from(_error: AllocError) -> ParseError {
        ParseError::Read(ReadError::Memory)
    }
}

impl<T: Drop> From<AllocFailed<T>> for ParseError {
    ghost from_gives = { λ _ result. result ≡ error.Read read.Memory };

    fn from(_error: AllocFailed<T>) -> ParseError {
        ParseError::Read(ReadError::Memory)
    }
}

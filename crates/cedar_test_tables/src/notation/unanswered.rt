//! Why a row has no answer.
use crate::notation::leaves::place;
use cedar_layers::expressions::Loc;
use cedar_text_lexer::errors::ReadError;
use cedar_text_parser::ParseError;
use std::alloc::{AllocError, AllocFailed};
use std::num::ParseIntError;
use std::str::Utf8Error;
use std::{fmt, io};

/// Why a row has no answer.
#[derive(Clone, Copy)]
pub enum Unanswered {
    /// Out of memory.
    Memory,
    /// What is written can't be read or asked, for this reason.
    Unreadable(&'static str),
    /// A file could not be read, or the output not written.
    InputOrOutput,
}

impl From<AllocError> for Unanswered {
    fn from(_error: AllocError) -> Unanswered {
        Unanswered::Memory
    }
}

impl<T: Drop> From<AllocFailed<T>> for Unanswered {
    fn from(_error: AllocFailed<T>) -> Unanswered {
        Unanswered::Memory
    }
}

impl From<&'static str> for Unanswered {
    fn from(reason: &'static str) -> Unanswered {
        Unanswered::Unreadable(reason)
    }
}

impl From<ParseError> for Unanswered {
    fn from(error: ParseError) -> Unanswered {
        match error {
            ParseError::Read(error) => Unanswered::from(error),
            ParseError::UnknownFunction { .. } => Unanswered::Unreadable(
                "a function that is not known",
            ),
            ParseError::WrongStyle { .. } => Unanswered::Unreadable(
                "a function of the other style",
            ),
            ParseError::WrongNumberOfArguments { .. } => {
                Unanswered::Unreadable("another number of arguments")
            }
        }
    }
}

impl From<ReadError> for Unanswered {
    fn from(error: ReadError) -> Unanswered {
        match error {
            ReadError::Memory => Unanswered::Memory,
            ReadError::Expected { .. } => Unanswered::Unreadable("not of Cedar's grammar"),
            ReadError::TooDeep { .. } => Unanswered::Unreadable("more levels than can be read"),
        }
    }
}

impl From<ParseIntError> for Unanswered {
    fn from(_error: ParseIntError) -> Unanswered {
        Unanswered::Unreadable("a number")
    }
}

impl From<Utf8Error> for Unanswered {
    fn from(_error: Utf8Error) -> Unanswered {
        Unanswered::Unreadable("what was printed is no text")
    }
}

// Only a writer that is out of memory fails here.
impl From<fmt::Error> for Unanswered {
    fn from(_error: fmt::Error) -> Unanswered {
        Unanswered::Memory
    }
}

impl From<io::Error> for Unanswered {
    fn from(error: io::Error) -> Unanswered {
        if error.kind() == io::ErrorKind::OutOfMemory {
            Unanswered::Memory
        } else {
            Unanswered::InputOrOutput
        }
    }
}

/// Why there is no answer, if a reason was noted: the first one. Who notes it goes on, and it is looked at once, at the
/// end.
#[derive(Clone, Copy)]
pub struct Noted {
    why: Option<Unanswered>,
}

impl Noted {
    /// No reason is noted.
    pub fn none() -> Noted {
        Noted { why: None }
    }

    /// The reason.
    pub fn why(self) -> Option<Unanswered> {
        self.why
    }

    /// Notes this reason.
    pub fn fail(&mut self, why: Unanswered) {
        if self.why.is_none() {
            self.why = Some(why);
        }
    }

    /// Notes that what is written can't be read or asked, for this reason.
    pub fn refuse(&mut self, reason: &'static str) {
        self.fail(Unanswered::Unreadable(reason));
    }

    /// Notes that memory ran out.
    pub fn lack_memory(&mut self) {
        self.fail(Unanswered::Memory);
    }

    /// Notes whether memory ran out.
    pub fn note(&mut self, done: Result<(), AllocError>) {
        if done.is_err() {
            self.lack_memory();
        }
    }

    /// The number that is written so.
    pub fn number(&mut self, written: &str) -> usize {
        match written.parse::<usize>() {
            Ok(number) => number,
            Err(_) => {
                self.refuse("a number");
                0
            }
        }
    }

    /// The place with these ends.
    pub fn place(&mut self, ends: &str) -> Option<Loc> {
        match place(ends) {
            Ok(place) => place,
            Err(why) => {
                self.fail(why);
                None
            }
        }
    }
}

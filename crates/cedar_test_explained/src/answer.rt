//! What is answered to a row, as it is written, and why there is no answer.
use cedar_expressions::Expr;
use cedar_text_printer::to_cedar;
use std::alloc::{AllocError, AllocFailed, Global};
use std::fmt::Write;
use std::{fmt, io};

/// Why a row has no answer.
#[derive(Clone, Copy)]
pub enum Unanswered {
    /// Out of memory.
    Memory,
    /// What is written can't be read or asked, for this reason.
    Unreadable(&'static str),
    /// A file could not be read, or the output not written.
    InputOrOutput,
}

impl From<AllocError> for Unanswered {
    fn from(_error: AllocError) -> Unanswered {
        Unanswered::Memory
    }
}

impl<T: Drop> From<AllocFailed<T>> for Unanswered {
    fn from(_error: AllocFailed<T>) -> Unanswered {
        Unanswered::Memory
    }
}

impl From<io::Error> for Unanswered {
    fn from(error: io::Error) -> Unanswered {
        if error.kind() == io::ErrorKind::OutOfMemory {
            Unanswered::Memory
        } else {
            Unanswered::InputOrOutput
        }
    }
}

/// An answer that is written piece by piece. Why there is none is noted in it, so that who writes a piece looks at
/// nothing, and the answer is looked at once, when it is whole.
#[derive(Drop)]
pub struct Answer {
    /// What takes memory for a part of the answer takes it here.
    pub alloc: Global,
    text: String,
    why: Option<Unanswered>,
}

impl Answer {
    /// Nothing is written yet.
    pub fn new(alloc: Global) -> Answer {
        Answer {
            alloc,
            text: String::new(alloc),
            why: None,
        }
    }

    /// What was written, or why there is no answer.
    pub fn finish(self) -> Result<String, Unanswered> {
        match self.why {
            None => Ok(self.text),
            Some(why) => Err(why),
        }
    }

    /// Notes why there is no answer; the first reason stays.
    pub fn fail(&mut self, why: Unanswered) {
        if self.why.is_none() {
            self.why = Some(why);
        }
    }

    fn note(&mut self, done: Result<(), AllocError>) {
        if done.is_err() {
            self.fail(Unanswered::Memory);
        }
    }

    /// Writes this text.
    pub fn put(&mut self, text: &str) {
        let done = self.text.push_str(text);
        self.note(done);
    }

    /// Writes what it prints as.
    pub fn show<T: fmt::Display>(&mut self, shown: &T) {
        let done = write!(self.text, "{shown}");
        self.note(done);
    }

    /// Writes what it prints as for those who look for mistakes.
    pub fn show_debug<T: fmt::Debug>(&mut self, shown: &T) {
        let done = write!(self.text, "{shown:?}");
        self.note(done);
    }

    /// Writes a text that was made, or notes that memory ran out for it.
    pub fn put_made(&mut self, made: Result<String, AllocError>) {
        match made {
            Ok(text) => {
                self.put(text.as_str());
                drop(text);
            }
            Err(_) => self.fail(Unanswered::Memory),
        }
    }

    /// Writes the expression as Cedar's text.
    pub fn put_expression(&mut self, expr: &Expr) {
        let made = to_cedar(self.alloc, expr);
        self.put_made(made);
    }
}

//! What is answered to a row, as it is written.
use crate::notation::refusals::Refusal;
use crate::notation::shown::limit;
use crate::notation::unanswered::{Noted, Unanswered};
use cedar_layers::expressions::{BoundedDisplay, Loc};
use std::alloc::{AllocError, Global};
use std::fmt;
use std::fmt::Write;

/// An answer that is written piece by piece. Why there is none is noted in it, so that who writes a piece looks at
/// nothing, and the answer is looked at once, when it is whole.
#[derive(Drop)]
pub struct Answer {
    /// What takes memory for a part of the answer takes it here.
    pub alloc: Global,
    text: String,
    noted: Noted,
    is_behind: bool,
}

impl Answer {
    /// Nothing is written yet.
    pub fn new(alloc: Global) -> Answer {
        Answer {
            alloc,
            text: String::new(alloc),
            noted: Noted::none(),
            is_behind: false,
        }
    }

    /// What was written, or why there is no answer.
    pub fn finish(self) -> Result<String, Unanswered> {
        match self.noted.why() {
            None => Ok(self.text),
            Some(why) => Err(why),
        }
    }

    /// Notes why there is no answer; the first reason stays.
    pub fn fail(&mut self, why: Unanswered) {
        self.noted.fail(why);
    }

    /// Notes that what is written can't be read or asked, for this reason.
    pub fn refuse(&mut self, reason: &'static str) {
        self.noted.refuse(reason);
    }

    /// Notes that memory ran out.
    pub fn lack_memory(&mut self) {
        self.noted.lack_memory();
    }

    /// Notes whether memory ran out.
    pub fn note(&mut self, done: Result<(), AllocError>) {
        self.noted.note(done);
    }

    /// Writes this text.
    pub fn put(&mut self, text: &str) {
        let done = self.text.push_str(text);
        self.note(done);
    }

    /// Writes what it prints as.
    pub fn show<T: fmt::Display>(&mut self, shown: &T) {
        let done = write!(self.text, "{shown}");
        self.note(done);
    }

    /// Writes what it prints as for debugging.
    pub fn show_debug<T: fmt::Debug>(&mut self, shown: &T) {
        let done = write!(self.text, "{shown:?}");
        self.note(done);
    }

    /// Writes what it prints as with at most so many parts of each set and record.
    pub fn show_within<T: BoundedDisplay>(&mut self, shown: &T, bound: Option<usize>) {
        if BoundedDisplay::fmt(shown, &mut self.text, bound).is_err() {
            self.lack_memory();
        }
    }

    /// Writes what was made prints as.
    pub fn show_made<T: fmt::Display + Drop>(&mut self, made: Result<T, AllocError>) {
        match made {
            Ok(made) => self.show(&made),
            Err(_) => self.lack_memory(),
        }
    }

    /// Writes what the error prints as. Running out of memory is no answer.
    pub fn show_refusal<E: Refusal>(&mut self, error: &E) {
        if error.is_out_of_memory() {
            self.lack_memory();
        } else {
            self.show(error);
        }
    }

    /// Writes what was made prints as, or the error.
    pub fn tell<T: fmt::Display + Drop, E: Refusal>(&mut self, made: Result<T, E>) {
        match made {
            Ok(made) => self.show(&made),
            Err(error) => self.show_refusal(&error),
        }
    }

    /// Writes a space, and what this prints as.
    pub fn show_next<T: fmt::Display>(&mut self, one: &T) {
        self.put(" ");
        self.show(one);
    }

    /// Begins a list.
    pub fn begin(&mut self) {
        self.is_behind = false;
    }

    /// Writes what stands between two items of a list, if there is one before.
    pub fn next(&mut self, between: &str) {
        if self.is_behind {
            self.put(between);
        }
        self.is_behind = true;
    }

    /// The limit that is written so.
    pub fn limit(&mut self, written: &str) -> usize {
        match limit(written) {
            Ok(limit) => limit,
            Err(why) => {
                self.fail(why);
                0
            }
        }
    }

    /// The number that is written so.
    pub fn number(&mut self, written: &str) -> usize {
        self.noted.number(written)
    }

    /// The place with these ends.
    pub fn place(&mut self, ends: &str) -> Option<Loc> {
        self.noted.place(ends)
    }
}

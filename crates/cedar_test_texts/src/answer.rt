//! What is answered to a row, as it is written, and why there is no answer.
use std::alloc::{AllocError, AllocFailed, Global};
use std::fmt::Write;
use std::{fmt, io};

/// Why a row has no answer.
#[derive(Clone, Copy)]
pub enum Unanswered {
    /// Out of memory.
    Memory,
    /// What is written can't be read or asked, for this reason.
    Unreadable(&'static str),
    /// A file could not be read, or the output not written.
    InputOrOutput,
}

impl From<AllocError> for Unanswered {
    fn from(_error: AllocError) -> Unanswered {
        Unanswered::Memory
    }
}

impl<T: Drop> From<AllocFailed<T>> for Unanswered {
    fn from(_error: AllocFailed<T>) -> Unanswered {
        Unanswered::Memory
    }
}

impl From<&'static str> for Unanswered {
    fn from(reason: &'static str) -> Unanswered {
        Unanswered::Unreadable(reason)
    }
}

impl From<io::Error> for Unanswered {
    fn from(error: io::Error) -> Unanswered {
        if error.kind() == io::ErrorKind::OutOfMemory {
            Unanswered::Memory
        } else {
            Unanswered::InputOrOutput
        }
    }
}

/// An answer that is written piece by piece. Why there is none is noted in it, so that who writes a piece looks at
/// nothing, and the answer is looked at once, when it is whole.
#[derive(Drop)]
pub struct Answer {
    /// What takes memory for a part of the answer takes it here.
    pub alloc: Global,
    text: String,
    why: Option<Unanswered>,
    is_behind: bool,
}

impl Answer {
    /// Nothing is written yet.
    pub fn new(alloc: Global) -> Answer {
        Answer {
            alloc,
            text: String::new(alloc),
            why: None,
            is_behind: false,
        }
    }

    /// What was written, or why there is no answer.
    pub fn finish(self) -> Result<String, Unanswered> {
        match self.why {
            None => Ok(self.text),
            Some(why) => Err(why),
        }
    }

    /// Notes why there is no answer; the first reason stays.
    pub fn fail(&mut self, why: Unanswered) {
        if self.why.is_none() {
            self.why = Some(why);
        }
    }

    /// Notes that what is written can't be asked, for this reason.
    pub fn refuse(&mut self, reason: &'static str) {
        self.fail(Unanswered::Unreadable(reason));
    }

    /// Notes that memory ran out.
    pub fn lack_memory(&mut self) {
        self.fail(Unanswered::Memory);
    }

    fn note(&mut self, done: Result<(), AllocError>) {
        if done.is_err() {
            self.lack_memory();
        }
    }

    /// Writes this text.
    pub fn put(&mut self, text: &str) {
        let done = self.text.push_str(text);
        self.note(done);
    }

    /// Writes this character.
    pub fn put_char(&mut self, character: char) {
        let done = self.text.push(character);
        self.note(done);
    }

    /// Writes `; ` if an item of the list stands before, and notes that one stands there now.
    pub fn next(&mut self) {
        if self.is_behind {
            self.put("; ");
        }
        self.is_behind = true;
    }

    /// Writes this word, where the list has no item.
    pub fn put_if_none(&mut self, word: &str) {
        if !self.is_behind {
            self.put(word);
        }
    }

    /// Writes what it prints as.
    pub fn show<T: fmt::Display>(&mut self, shown: &T) {
        let done = write!(self.text, "{shown}");
        self.note(done);
    }

    /// Writes the number with the digits up to `f`.
    pub fn show_hexadecimal(&mut self, number: u32) {
        let done = write!(self.text, "{number:x}");
        self.note(done);
    }

    /// Writes a text in double quotes, with the escapes of the language.
    pub fn put_quoted(&mut self, text: &str) {
        self.put("\"");
        for character in text.chars() {
            self.put_escaped(character);
        }
        self.put("\"");
    }

    /// Writes a character as it stands in double quotes.
    pub fn put_escaped(&mut self, character: char) {
        match character {
            '\n' => self.put("\\n"),
            '\r' => self.put("\\r"),
            '\t' => self.put("\\t"),
            '\0' => self.put("\\0"),
            '\\' => self.put("\\\\"),
            '"' => self.put("\\\""),
            _ => if character < ' ' || character == '\x7f' {
                self.put("\\u{");
                self.show_hexadecimal(u32::from(character));
                self.put("}");
            } else {
                self.put_char(character);
            },
        }
    }
}

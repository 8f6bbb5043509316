//! Reads what a line of a table says: expressions, values and policies of Cedar's text, and the setting that rows are
//! answered in; and shows what answers have in common. A place is written as its ends, `1-2`.

pub mod answer;
mod calls;
pub mod errors;
pub mod expressions;
pub mod leaves;
pub mod policies;
pub mod refusals;
pub mod settings;
pub mod shown;
pub mod unanswered;
pub mod values;

use std::alloc::{AllocError, Global};
use std::collections::{BTreeMap, HashMap};
use std::rc::RcStr;
use unanswered::{Noted, Unanswered};

/// The fact of this keyword that the line states, if it states one.
pub fn fact<'a>(line: &'a str, keyword: &str) -> Option<&'a str> {
    match line.split_once(' ') {
        Some((word, rest)) => if word == keyword { Some(rest) } else { None },
        None => None,
    }
}

/// The first fact of this keyword.
pub fn first_fact<'a>(setting: &'a str, keyword: &str) -> Option<&'a str> {
    for line in setting.lines() {
        if let Some(rest) = fact(line, keyword) {
            return Some(rest);
        }
    }
    None
}

/// The first word, and the others.
pub fn split_first_word(text: &str) -> (&str, &str) {
    match text.split_once(' ') {
        Some((first, rest)) => (first, rest),
        None => (text, ""),
    }
}

/// The name and what is written behind it, of `NAME = TEXT`.
pub fn split_name(written: &str) -> Result<(&str, &str), Unanswered> {
    Ok(written.split_once(" = ").ok_or("a name and what it has")?)
}

/// The parts that were read and that no later one has taken, the latest one last. Why they can't be read is noted in
/// them, so that who reads a part looks at nothing, and they are looked at once, when all are read.
#[derive(Drop)]
pub struct Parts<T: Drop> {
    parts: Vec<T>,
    noted: Noted,
}

impl<T: Drop> Parts<T> {
    /// No parts.
    pub fn new(alloc: Global) -> Parts<T> {
        Parts {
            parts: Vec::new(alloc),
            noted: Noted::none(),
        }
    }

    /// Notes why they can't be read; the first reason stays.
    pub fn fail(&mut self, why: Unanswered) {
        self.noted.fail(why);
    }

    /// Notes that what is written can't be read, for this reason.
    pub fn refuse(&mut self, reason: &'static str) {
        self.noted.refuse(reason);
    }

    /// Notes that memory ran out.
    pub fn lack_memory(&mut self) {
        self.noted.lack_memory();
    }

    /// Puts the part behind the others.
    pub fn push(&mut self, part: T) {
        if let Err(_) = self.parts.push(part) {
            self.lack_memory();
        }
    }

    /// Puts what was read behind the others.
    pub fn push_read(&mut self, read: Result<T, Unanswered>) {
        match read {
            Ok(part) => self.push(part),
            Err(why) => self.fail(why),
        }
    }

    /// Takes the latest part. Where there is none, it is the one that is given, and what is written is not well made.
    pub fn pop(&mut self, instead: T) -> T {
        match self.parts.pop() {
            Some(part) => part,
            None => {
                self.refuse("a part is missing");
                instead
            }
        }
    }

    /// Takes the latest parts, so many, in their order.
    pub fn last(&mut self, count: usize) -> Result<Vec<T>, AllocError> {
        let length = self.parts.len();
        if count > length {
            self.refuse("a part is missing");
        }
        self.parts.split_off(length.saturating_sub(count))
    }

    /// The parts, in their order.
    pub fn all(self) -> Result<Vec<T>, Unanswered> {
        match self.noted.why() {
            None => Ok(self.parts),
            Some(why) => Err(why),
        }
    }

    /// The only part.
    pub fn only(self) -> Result<T, Unanswered> {
        let mut parts = self.all()?;
        match parts.pop() {
            Some(part) => if parts.is_empty() {
                Ok(part)
            } else {
                Err(Unanswered::Unreadable("more than one part is left"))
            },
            None => Err(Unanswered::Unreadable("no part is left")),
        }
    }
}

/// Both, or the first reason.
pub fn both<A: Drop, B: Drop>(
    first: Result<A, Unanswered>,
    second: Result<B, Unanswered>,
) -> Result<(A, B), Unanswered> {
    let first = first?;
    let second = second?;
    Ok((first, second))
}

// What was made, or that memory ran out.
pub(crate) fn or_memory<T: Drop>(part: Result<T, AllocError>) -> Result<T, Unanswered> {
    Ok(part?)
}

/// Puts the part behind the others.
pub fn add<T: Drop>(parts: &mut Vec<T>, part: T) -> Result<(), AllocError> {
    match parts.push(part) {
        Ok(()) => Ok(()),
        Err(_) => Err(AllocError),
    }
}

/// Puts the part behind the others, under its key.
pub fn pair<T: Drop>(pairs: &mut Vec<(RcStr, T)>, key: RcStr, part: T) -> Result<(), AllocError> {
    add(pairs, (key, part))
}

/// Puts the part into the map, under its key.
pub fn put<T: Drop>(map: &mut HashMap<RcStr, T>, key: RcStr, part: T) -> Result<(), AllocError> {
    match map.insert(key, part) {
        Ok(_) => Ok(()),
        Err(_) => Err(AllocError),
    }
}

/// The map of these pairs.
pub fn map_of_pairs<T: Drop>(
    alloc: Global,
    pairs: Vec<(RcStr, T)>,
) -> Result<BTreeMap<RcStr, T>, AllocError> {
    let mut map: BTreeMap<RcStr, T> = BTreeMap::new(alloc);
    for (key, part) in pairs {
        match map.insert(key, part) {
            Ok(_) => {}
            Err(_) => return Err(AllocError),
        }
    }
    Ok(map)
}

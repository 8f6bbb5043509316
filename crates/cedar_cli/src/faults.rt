//! Where a text that is not read as JSON is at fault.
use json::{MAX_DEPTH, Reader, Scratch, Token};
use std::alloc::{AllocError, Global};
use std::collections::BTreeSet;
use std::rc::RcStr;

/// What is wrong with a text that is no JSON.
#[derive(Clone, Copy)]
pub(crate) enum Wrong {
    /// More arrays and objects are open than may be.
    TooDeep,
    /// The text ends where more is due.
    Ends,
    /// A mark of the order of bytes, which is no part of JSON.
    Mark,
    /// A comma with nothing behind it in its array or object.
    Comma,
    /// A key or a text that stands in no quotes, or in single ones.
    Quotes,
    /// A key or a text whose quotes don't end.
    Unended,
    /// A line feed, a tab or another control character in a key or a text.
    Control,
    /// An escape that JSON does not have.
    Escape,
    /// Half of a pair of surrogates, which is no character.
    Surrogate,
    /// Something else.
    Other,
}

/// Where a text that is no JSON is at fault, by the byte, and how.
#[derive(Clone, Copy)]
pub(crate) struct Fault {
    pub(crate) start: usize,
    pub(crate) wrong: Wrong,
}

/// The key that an object has already, and the byte where it begins again.
#[derive(Drop)]
pub(crate) struct Repeated {
    pub(crate) start: usize,
    pub(crate) key: RcStr,
}

/// What is wrong with a text that is no JSON: the byte where a token begins that can't stand there, or in it the escape
/// or the character that can't; the one that opens one level more than may be open; else the end of the text, where
/// more is due.
pub(crate) fn syntax_fault(alloc: Global, text: &str) -> Result<Fault, AllocError> {
    let mut scratch = Scratch::new(alloc);
    let mut reader = Reader::new(text, &mut scratch)?;
    let mut place = Place {
        open: Vec::new(alloc),
        due: Due::Value,
    };
    for _ in 0..text.len() {
        let start = reader.offset();
        match reader.next() {
            Some(token) => {
                let is_bad = matches!(token, Token::Bad);
                if !place.takes(token)? {
                    let is_too_deep = !is_bad && place.open.len() == MAX_DEPTH;
                    return Ok(fault_at(text, start, place.due, is_too_deep));
                }
            }
            None => return Ok(end_of(text)),
        }
    }
    Ok(end_of(text))
}

fn end_of(text: &str) -> Fault {
    Fault {
        start: text.len(),
        wrong: Wrong::Ends,
    }
}

// What is wrong with the token that begins at this byte, where this is due.
fn fault_at(text: &str, start: usize, due: Due, is_too_deep: bool) -> Fault {
    let bytes = text.as_bytes();
    let (front, rest) = match bytes.split_at_checked(start) {
        Some(parts) => parts,
        None => return end_of(text),
    };
    let wrong = match rest.first() {
        None => Wrong::Ends,
        Some(first) => match *first {
            b'"' => return fault_in_quotes(rest, start),
            b'\'' => Wrong::Quotes,
            b'[' | b'{' if is_too_deep => Wrong::TooDeep,
            b']' | b'}' if ends_in_comma(front) => Wrong::Comma,
            0xef if start == 0 => Wrong::Mark,
            other if due == Due::Key && is_letter(other) => Wrong::Quotes,
            _ => Wrong::Other,
        },
    };
    Fault { start, wrong }
}

fn is_letter(byte: u8) -> bool {
    byte.is_ascii_alphabetic() || byte == b'_'
}

// Whether the last byte that is no blank is a comma.
fn ends_in_comma(front: &[u8]) -> bool {
    let mut ends = false;
    'bytes: for byte in front {
        if !byte.is_ascii_whitespace() {
            ends = *byte == b',';
        }
    }
    ends
}

// What is wrong with the quoted text that begins with these bytes, the first of which is its quote: the first escape or
// character that can't stand in it.
fn fault_in_quotes(bytes: &[u8], start: usize) -> Fault {
    let mut rest = bytes.get(1..).unwrap_or(&[]);
    let mut start = start;
    let mut passed: usize = 1;
    for _ in 0..bytes.len() {
        if let Some(first) = rest.first() {
            start = start.saturating_add(passed);
            if let Some(wrong) = quoted_fault(*first, rest) {
                return Fault { start, wrong };
            }
            passed = quoted_length(*first, rest);
            rest = rest.get(passed..).unwrap_or(&[]);
        }
    }
    Fault {
        start: start.saturating_add(passed),
        wrong: Wrong::Unended,
    }
}

// What is wrong in quotes with this byte, which stands first of these.
fn quoted_fault(first: u8, rest: &[u8]) -> Option<Wrong> {
    match first {
        b'"' => Some(Wrong::Other),
        b'\\' => escape_fault(rest),
        byte => if byte < 0x20 {
            Some(Wrong::Control)
        } else {
            None
        },
    }
}

// How many bytes stand in quotes for one, or for an escape.
fn quoted_length(first: u8, rest: &[u8]) -> usize {
    if first == b'\\' {
        escape_length(rest)
    } else {
        1
    }
}

// How many bytes the escape has at the front of these bytes.
fn escape_length(bytes: &[u8]) -> usize {
    match bytes.get(1) {
        Some(b'u') => if is_high(unit(bytes)) { 12 } else { 6 },
        _ => 2,
    }
}

// What is wrong with the escape at the front of these bytes, if anything is.
fn escape_fault(bytes: &[u8]) -> Option<Wrong> {
    match bytes.get(1) {
        None => Some(Wrong::Unended),
        Some(b'"' | b'\\' | b'/' | b'b' | b'f' | b'n' | b'r' | b't') => None,
        Some(b'u') => unit_fault(bytes),
        Some(_) => Some(Wrong::Escape),
    }
}

// The same of an escape that writes a unit in four digits: the first half of a pair is followed by the second.
fn unit_fault(bytes: &[u8]) -> Option<Wrong> {
    match unit(bytes) {
        None => Some(Wrong::Escape),
        Some(first) => {
            if is_low(Some(first)) {
                return Some(Wrong::Surrogate);
            }
            if is_high(Some(first)) && !is_low(unit(bytes.get(6..).unwrap_or(&[]))) {
                return Some(Wrong::Surrogate);
            }
            None
        }
    }
}

fn is_high(unit: Option<u32>) -> bool {
    match unit {
        Some(unit) => (0xd800..=0xdbff).contains(&unit),
        None => false,
    }
}

fn is_low(unit: Option<u32>) -> bool {
    match unit {
        Some(unit) => (0xdc00..=0xdfff).contains(&unit),
        None => false,
    }
}

// The unit that an escape of four hexadecimal digits writes at the front of these bytes.
fn unit(bytes: &[u8]) -> Option<u32> {
    if !bytes.starts_with(b"\\u") {
        return None;
    }
    let digits = str::from_utf8(bytes.get(2..6)?).ok()?;
    if digits.starts_with('+') {
        return None;
    }
    u32::from_str_radix(digits, 16).ok()
}

/// The key of the text, which is JSON, that its object has already, where it begins again; nothing, if there is none.
pub(crate) fn repeated_key(alloc: Global, text: &str) -> Result<Option<Repeated>, AllocError> {
    let mut scratch = Scratch::new(alloc);
    let mut reader = Reader::new(text, &mut scratch)?;
    let mut keys = Keys {
        open: Vec::new(alloc),
    };
    for _ in 0..text.len() {
        let start = reader.offset();
        match reader.next() {
            Some(token) => if let Some(key) = keys.repeat(alloc, token)? {
                return Ok(Some(Repeated { start, key }));
            },
            None => return Ok(None),
        }
    }
    Ok(None)
}

// What is due next.
#[derive(Clone, Copy, PartialEq, Eq)]
enum Due {
    // A value.
    Value,
    // A value, or the end of the array.
    Item,
    // A key, or the end of the object.
    Key,
    // The end of the text.
    End,
}

// Where between tokens: which arrays and objects are open, the outermost first, each by whether it is an object; and
// what is due.
#[derive(Drop)]
struct Place {
    open: Vec<bool>,
    due: Due,
}

impl Place {
    // Whether the token can stand here. Then the place is behind it.
    fn takes(&mut self, token: Token<'_>) -> Result<bool, AllocError> {
        match token {
            Token::BeginObject => self.opens(true),
            Token::EndObject => Ok(self.closes(Due::Key)),
            Token::BeginArray => self.opens(false),
            Token::EndArray => Ok(self.closes(Due::Item)),
            Token::Key(_) => Ok(self.names()),
            Token::String(_) => Ok(self.ends()),
            Token::Number(_) => Ok(self.ends()),
            Token::Bool(_) => Ok(self.ends()),
            Token::Null => Ok(self.ends()),
            Token::Bad => Ok(false),
        }
    }

    fn opens(&mut self, is_object: bool) -> Result<bool, AllocError> {
        if !self.is_value_due() || self.open.len() == MAX_DEPTH {
            return Ok(false);
        }
        match self.open.push(is_object) {
            Ok(()) => {
                self.due = if is_object { Due::Key } else { Due::Item };
                Ok(true)
            }
            Err(_) => Err(AllocError),
        }
    }

    fn closes(&mut self, due: Due) -> bool {
        if self.due != due {
            return false;
        }
        drop(self.open.pop());
        self.due = self.due_behind();
        true
    }

    fn names(&mut self) -> bool {
        if self.due != Due::Key {
            return false;
        }
        self.due = Due::Value;
        true
    }

    fn ends(&mut self) -> bool {
        if !self.is_value_due() {
            return false;
        }
        self.due = self.due_behind();
        true
    }

    fn is_value_due(&self) -> bool {
        match self.due {
            Due::Value => true,
            Due::Item => true,
            Due::Key => false,
            Due::End => false,
        }
    }

    // What is due behind a value.
    fn due_behind(&self) -> Due {
        match self.open.last() {
            Some(true) => Due::Key,
            Some(false) => Due::Item,
            None => Due::End,
        }
    }
}

// The keys so far of each array and object that is open, the outermost first. An array has none.
#[derive(Drop)]
struct Keys {
    open: Vec<BTreeSet<RcStr>>,
}

impl Keys {
    // The token's key, if its object has it already.
    fn repeat(&mut self, alloc: Global, token: Token<'_>) -> Result<Option<RcStr>, AllocError> {
        match token {
            Token::BeginObject => self.opens(alloc),
            Token::EndObject => Ok(self.closes()),
            Token::BeginArray => self.opens(alloc),
            Token::EndArray => Ok(self.closes()),
            Token::Key(key) => self.has(alloc, key),
            Token::String(_) => Ok(None),
            Token::Number(_) => Ok(None),
            Token::Bool(_) => Ok(None),
            Token::Null => Ok(None),
            Token::Bad => Ok(None),
        }
    }

    fn opens(&mut self, alloc: Global) -> Result<Option<RcStr>, AllocError> {
        match self.open.push(BTreeSet::new(alloc)) {
            Ok(()) => Ok(None),
            Err(_) => Err(AllocError),
        }
    }

    fn closes(&mut self) -> Option<RcStr> {
        drop(self.open.pop());
        None
    }

    // The key, if the innermost object has it already. Then it has.
    fn has(&mut self, alloc: Global, key: &str) -> Result<Option<RcStr>, AllocError> {
        let key = RcStr::from_str(alloc, key)?;
        let again = key.clone()?;
        match self.open.last_mut() {
            Some(keys) => match keys.insert(key) {
                Ok(is_new) => Ok(if is_new { None } else { Some(again) }),
                Err(_) => Err(AllocError),
            },
            None => Ok(None),
        }
    }
}

//! The words of a command line.
use std::alloc::{AllocError, Global};

// The words that are ended, and the one that is being read, if one is.
#[derive(Drop)]
struct Reading {
    words: Vec<String>,
    word: String,
    has_begun: bool,
    is_quoted: bool,
}

impl Reading {
    fn take(&mut self, alloc: Global, c: char) -> Result<(), AllocError> {
        if c == '\'' {
            self.is_quoted = !self.is_quoted;
            self.has_begun = true;
            Ok(())
        } else if c == ' ' && !self.is_quoted {
            self.end(alloc)
        } else {
            self.has_begun = true;
            self.word.push(c)
        }
    }

    // Ends the word that is being read.
    fn end(&mut self, alloc: Global) -> Result<(), AllocError> {
        if self.has_begun {
            let word = String::from_str(alloc, self.word.as_str())?;
            push(&mut self.words, word)?;
            self.word.clear();
            self.has_begun = false;
        }
        Ok(())
    }
}

fn push(words: &mut Vec<String>, word: String) -> Result<(), AllocError> {
    match words.push(word) {
        Ok(()) => Ok(()),
        Err(_) => Err(AllocError),
    }
}

/// The program's name, and the words of the line behind it. Words have blanks between them; what stands between two `'`
/// is taken as it stands. What stands in `*N{..}` is taken N times.
pub fn words_of(alloc: Global, line: &str) -> Result<Vec<String>, AllocError> {
    let mut words: Vec<String> = Vec::new(alloc);
    push(&mut words, String::from_str(alloc, "cedar")?)?;
    let mut reading = Reading {
        words,
        word: String::new(alloc),
        has_begun: false,
        is_quoted: false,
    };
    match repeated_part(line) {
        Some(part) => {
            take_all(alloc, part.front, &mut reading)?;
            reading.end(alloc)?;
            for _ in 0..part.count {
                take_all(alloc, part.text, &mut reading)?;
                reading.end(alloc)?;
            }
            take_all(alloc, part.back, &mut reading)?;
        }
        None => take_all(alloc, line, &mut reading)?,
    }
    reading.end(alloc)?;
    Ok(reading.words)
}

fn take_all(alloc: Global, text: &str, reading: &mut Reading) -> Result<(), AllocError> {
    for c in text.chars() {
        reading.take(alloc, c)?;
    }
    Ok(())
}

// A line with a part that is taken so many times.
#[derive(Clone, Copy)]
struct Repeated<'l> {
    front: &'l str,
    count: usize,
    text: &'l str,
    back: &'l str,
}

fn repeated_part(line: &str) -> Option<Repeated<'_>> {
    let (front, behind) = line.split_once(" *")?;
    let (count, behind) = behind.split_once('{')?;
    let (text, back) = behind.split_once('}')?;
    match count.parse::<usize>() {
        Ok(count) => Some(Repeated {
            front,
            count,
            text,
            back,
        }),
        Err(_) => None,
    }
}

//! Tables. A row has a text, ` => ` and what it is wanted to be read as. A line `ask QUESTION` says what is asked of
//! the rows below it; before the first it is `tree`. A line that begins with `#` is a title. `signs` says what stands
//! for blanks in a text, and `questions` which questions there are.
use crate::answer::{Answer, Unanswered};
use crate::questions::ask;
use crate::signs::replace_signs;
use crate::written::rewrite_text;
use std::alloc::Global;
use std::fs;
use std::rc::RcStr;
use std::rt::Files;

/// A row of a file.
#[derive(Clone, Copy)]
struct Row<'a> {
    file: &'a str,
    number: usize,
    line: &'a str,
    written: bool,
}

/// How many rows there are, and how many of them hold.
#[derive(Clone, Copy)]
struct Tally {
    rows: usize,
    held: usize,
}

impl Tally {
    // One row more, which holds or not.
    fn with(self, holds: bool) -> Tally {
        let held = if holds {
            self.held.saturating_add(1)
        } else {
            self.held
        };
        Tally {
            rows: self.rows.saturating_add(1),
            held,
        }
    }
}

/// Whether all rows of the file hold, as they stand or written again. Prints those that do not, each with its file and
/// line, and how many do.
pub fn file_holds<R: Files + AllocGlobal + Print>(
    rt: &R,
    file: &str,
    written: bool,
) -> Result<bool, Unanswered> {
    let text = fs::read_to_string(rt, file)?;
    let tally = tally_of(rt, rt.alloc(), file, text.as_str(), written)?;
    let (held, rows) = (tally.held, tally.rows);
    let how = if written { ", written" } else { "" };
    println!(rt; "{file}{how}: {held} of {rows} rows hold")?;
    Ok(held == rows)
}

fn tally_of(
    rt: &impl Print,
    alloc: Global,
    file: &str,
    text: &str,
    written: bool,
) -> Result<Tally, Unanswered> {
    let mut question = RcStr::from_str(alloc, "tree")?;
    let mut tally = Tally { rows: 0, held: 0 };
    let mut number: usize = 0;
    for line in text.lines() {
        number = number.saturating_add(1);
        if let Some(asked) = line.strip_prefix("ask ") {
            question = RcStr::from_str(alloc, asked)?;
        } else if !line.is_empty() && !line.starts_with('#') {
            let row = Row {
                file,
                number,
                line,
                written,
            };
            let holds = row_holds(rt, alloc, question.as_str(), row)?;
            tally = tally.with(holds);
        }
    }
    Ok(tally)
}

// Whether the row is read as is wanted. Prints it if not.
fn row_holds(
    rt: &impl Print,
    alloc: Global,
    question: &str,
    row: Row<'_>,
) -> Result<bool, Unanswered> {
    let (text, want) = row
        .line
        .split_once(" => ")
        .ok_or("a row without an answer")?;
    let answer = answer_to(alloc, question, text, row.written)?;
    is_wanted(rt, row, answer.as_str(), want)
}

fn answer_to(
    alloc: Global,
    question: &str,
    row: &str,
    written: bool,
) -> Result<String, Unanswered> {
    let text = replace_signs(alloc, row)?;
    if written {
        let again = rewrite_text(alloc, question, text.as_str())?;
        return answer_of(alloc, question, again.as_str());
    }
    answer_of(alloc, question, text.as_str())
}

fn answer_of(alloc: Global, question: &str, text: &str) -> Result<String, Unanswered> {
    let mut answer = Answer::new(alloc);
    ask(&mut answer, question, text);
    answer.finish()
}

fn is_wanted(rt: &impl Print, row: Row<'_>, answer: &str, want: &str) -> Result<bool, Unanswered> {
    let holds = answer == want;
    if !holds {
        let (file, number, line) = (row.file, row.number, row.line);
        println!(rt; "{file}:{number}: {line}\n    is read as {answer}")?;
    }
    Ok(holds)
}

//! Tables. A file has cases, with a line `case` between them; a case has facts, a line `rows`, and rows. A row has what
//! is asked about, ` => ` and the answer that is wanted. A line `ask QUESTION` says what is asked of the rows below it;
//! before the first one it is what expressions evaluate to. A line that begins with `#` is a title. The facts are those
//! that `notation` reads, and `in FILE`: the facts of that file stand behind them. `questions` says which there are.
use crate::functions::tally;
use crate::notation::answer::Answer;
use crate::notation::settings::Setting;
use crate::notation::unanswered::Unanswered;
use crate::notation::{fact, first_fact};
use crate::questions::ask;
use std::alloc::Global;
use std::fs;
use std::rc::RcStr;
use std::rt::Files;

/// The request of a case that has no other.
const REQUEST: &str = "principal User::\"a\"\naction Action::\"view\"\nresource Photo::\"p\"";

/// The answer of a row that holds if out of memory.
const OUT_OF_MEMORY_ANSWER: &str = "out of memory";

/// Lines of a file, and the number of the first of them.
#[derive(Clone, Copy)]
pub struct Lines<'a> {
    pub file: &'a str,
    pub number: usize,
    pub text: &'a str,
}

impl<'a> Lines<'a> {
    // The text that stands so many lines further.
    fn further(self, count: usize, text: &'a str) -> Lines<'a> {
        Lines {
            file: self.file,
            number: self.number.saturating_add(count),
            text,
        }
    }
}

/// How many rows there are, and how many of them hold.
#[derive(Clone, Copy)]
pub struct Tally {
    pub rows: usize,
    pub held: usize,
}

impl Tally {
    fn none() -> Tally {
        Tally { rows: 0, held: 0 }
    }

    // These rows and those.
    fn and(self, other: Tally) -> Tally {
        Tally {
            rows: self.rows.saturating_add(other.rows),
            held: self.held.saturating_add(other.held),
        }
    }

    // One row more, which holds or not.
    fn with(self, holds: bool) -> Tally {
        let held = if holds {
            self.held.saturating_add(1)
        } else {
            self.held
        };
        Tally {
            rows: self.rows.saturating_add(1),
            held,
        }
    }
}

/// Whether all rows of the file hold. Prints those that do not, each with its file and line, and how many do.
pub fn file_holds<R: Files + AllocGlobal + Print>(rt: &R, file: &str) -> Result<bool, Unanswered> {
    let text = fs::read_to_string(rt, file)?;
    let whole = Lines {
        file,
        number: 1,
        text: text.as_str(),
    };
    let tally = tally_of_cases(rt, whole)?;
    let (held, rows) = (tally.held, tally.rows);
    println!(rt; "{file}: {held} of {rows} rows hold")?;
    Ok(held == rows)
}

fn tally_of_cases<R: Files + AllocGlobal + Print>(
    rt: &R,
    cases: Lines<'_>,
) -> Result<Tally, Unanswered> {
    let mut tally = Tally::none();
    let mut before: usize = 0;
    for case in cases.text.split("\ncase\n") {
        tally = tally.and(tally_of_case(rt, cases.further(before, case))?);
        before = before.saturating_add(line_count(case)).saturating_add(1);
    }
    Ok(tally)
}

fn tally_of_case<R: Files + AllocGlobal + Print>(
    rt: &R,
    case: Lines<'_>,
) -> Result<Tally, Unanswered> {
    let (facts, rows) = case
        .text
        .split_once("\nrows\n")
        .ok_or("a case without rows")?;
    let rows = case.further(line_count(facts).saturating_add(1), rows);
    let facts = all_facts(rt, facts)?;
    tally(rt, rt.alloc(), facts.as_str(), rows)
}

// How many lines the text has, where no line is ended behind the last.
fn line_count(text: &str) -> usize {
    let mut count: usize = 0;
    for _ in text.split('\n') {
        count = count.saturating_add(1);
    }
    count
}

// The facts, those of the file that they name, and a request where neither has one.
fn all_facts<R: Files + AllocGlobal>(rt: &R, facts: &str) -> Result<String, Unanswered> {
    match first_fact(facts, "in") {
        Some(file) => {
            let shared = fs::read_to_string(rt, file)?;
            Ok(format!(in rt.alloc(); "{facts}\n{shared}\n{REQUEST}")?)
        }
        None => Ok(format!(in rt.alloc(); "{facts}\n{REQUEST}")?),
    }
}

/// How many of these rows hold in the setting. Prints those that do not.
pub fn tally_of_rows(
    rt: &impl Print,
    alloc: Global,
    facts: &str,
    setting: &Setting<'_, '_>,
    rows: Lines<'_>,
) -> Result<Tally, Unanswered> {
    let mut question = RcStr::from_str(alloc, "value")?;
    let mut tally = Tally::none();
    let mut before: usize = 0;
    for line in rows.text.lines() {
        if let Some(asked) = fact(line, "ask") {
            question = RcStr::from_str(alloc, asked)?;
        } else if !line.is_empty() && !line.starts_with('#') {
            let row = rows.further(before, line);
            let holds = row_holds(rt, alloc, facts, setting, question.as_str(), row)?;
            tally = tally.with(holds);
        }
        before = before.saturating_add(1);
    }
    Ok(tally)
}

// Whether the row has the answer that is wanted. Prints it if not. Running out of memory is no answer, but to the row
// that wants it.
fn row_holds(
    rt: &impl Print,
    alloc: Global,
    facts: &str,
    setting: &Setting<'_, '_>,
    question: &str,
    row: Lines<'_>,
) -> Result<bool, Unanswered> {
    let (words, want) = row
        .text
        .split_once(" => ")
        .ok_or("a row without an answer")?;
    let mut answer = Answer::new(alloc);
    ask(&mut answer, facts, setting, question, words, want);
    match answer.finish() {
        Ok(answer) => is_wanted(rt, question, row, answer.as_str(), want),
        Err(Unanswered::Unreadable(reason)) => is_wanted(rt, question, row, reason, want),
        Err(Unanswered::Memory) => if want == OUT_OF_MEMORY_ANSWER {
            Ok(true)
        } else {
            Err(Unanswered::Memory)
        },
        Err(Unanswered::InputOrOutput) => Err(Unanswered::InputOrOutput),
    }
}

fn is_wanted(
    rt: &impl Print,
    question: &str,
    row: Lines<'_>,
    answer: &str,
    want: &str,
) -> Result<bool, Unanswered> {
    let holds = answer == want;
    if !holds {
        let (file, number, row) = (row.file, row.number, row.text);
        println!(rt; "{file}:{number}: {question}: {row}\n    is answered {answer}")?;
    }
    Ok(holds)
}

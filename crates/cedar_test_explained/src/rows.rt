//! Tables. A row has a text, ` => ` and what is wanted of it. A line without ` => ` states a fact (`setting`) of the
//! rows below it. A line that begins with `#` is a title.
use crate::answer::{Answer, Unanswered};
use crate::questions::ask;
use crate::setting::Setting;
use std::alloc::Global;
use std::fs;
use std::rt::Files;

/// A row of a file.
#[derive(Clone, Copy)]
struct Row<'a> {
    file: &'a str,
    number: usize,
    text: &'a str,
    want: &'a str,
}

/// How many rows there are, and how many of them hold.
#[derive(Clone, Copy)]
struct Tally {
    rows: usize,
    held: usize,
}

impl Tally {
    // One row more, which holds or not.
    fn with(self, holds: bool) -> Tally {
        let held = if holds {
            self.held.saturating_add(1)
        } else {
            self.held
        };
        Tally {
            rows: self.rows.saturating_add(1),
            held,
        }
    }
}

/// Whether all rows of the file hold. Prints those that do not, each with its file and line, and how many do.
pub fn file_holds<R: Files + AllocGlobal + Print>(rt: &R, file: &str) -> Result<bool, Unanswered> {
    let text = fs::read_to_string(rt, file)?;
    let tally = tally_of(rt, rt.alloc(), file, text.as_str())?;
    let (held, rows) = (tally.held, tally.rows);
    println!(rt; "{file}: {held} of {rows} rows hold")?;
    Ok(held == rows)
}

fn tally_of(rt: &impl Print, alloc: Global, file: &str, text: &str) -> Result<Tally, Unanswered> {
    let mut setting = Setting::plain();
    let mut tally = Tally { rows: 0, held: 0 };
    let mut number: usize = 0;
    for line in text.lines() {
        number = number.saturating_add(1);
        if let Some((text, want)) = line.split_once(" => ") {
            let row = Row {
                file,
                number,
                text,
                want,
            };
            let holds = row_holds(rt, alloc, setting, row)?;
            tally = tally.with(holds);
        } else if !line.is_empty() && !line.starts_with('#') {
            setting = setting.with(line).ok_or(Unanswered::Unreadable("no fact"))?;
        }
    }
    Ok(tally)
}

// Whether the row is answered as is wanted. Prints it if not.
fn row_holds(
    rt: &impl Print,
    alloc: Global,
    setting: Setting<'_>,
    row: Row<'_>,
) -> Result<bool, Unanswered> {
    let mut answer = Answer::new(alloc);
    ask(&mut answer, setting, row.text);
    let answer = answer.finish()?;
    is_wanted(rt, row, answer.as_str())
}

fn is_wanted(rt: &impl Print, row: Row<'_>, answer: &str) -> Result<bool, Unanswered> {
    let holds = answer == row.want;
    if !holds {
        let (file, number, text) = (row.file, row.number, row.text);
        println!(rt; "{file}:{number}: {text}\n    is answered {answer}")?;
    }
    Ok(holds)
}

//! Tables of runs. A run begins with a line `$ ARGUMENTS`. Below it stand, a line each, the exit status behind `?`, the
//! lines of standard output behind `>` and those of standard error behind `!`; a line `~`, of which there
//! may be two, stands for any lines. All
//! other lines are comments.
use crate::words::words_of;
use cedar_commands::{Answer, answer_command};
use std::alloc::{AllocError, Global};
use std::rt::Files;
use std::{fs, io};

// How many runs there are, and how many of them hold.
#[derive(Clone, Copy)]
struct Tally {
    runs: usize,
    held: usize,
}

impl Tally {
    // One run more, which holds or not.
    fn with(self, holds: bool) -> Tally {
        let held = if holds {
            self.held.saturating_add(1)
        } else {
            self.held
        };
        Tally {
            runs: self.runs.saturating_add(1),
            held,
        }
    }
}

/// Whether all runs of the table hold. Prints those that do not, and how many do.
pub fn file_holds<R: Files + Input + AllocGlobal + Print>(rt: &R, file: &str) -> io::Result<bool> {
    let text = fs::read_to_string(rt, file)?;
    let tally = tally_of_runs(rt, text.as_str())?;
    drop(text);
    let (held, runs) = (tally.held, tally.runs);
    println!(rt; "{file}: {held} of {runs} runs hold")?;
    Ok(held == runs)
}

// What stands before the first run is no run.
fn tally_of_runs<R: Files + Input + AllocGlobal + Print>(rt: &R, text: &str) -> io::Result<Tally> {
    let mut runs = text.split("\n$ ");
    drop(runs.next());
    let mut tally = Tally { runs: 0, held: 0 };
    'runs: for run in runs {
        tally = tally.with(holds(rt, run)?);
    }
    Ok(tally)
}

// Whether the run comes to what is wanted: if not, prints it.
fn holds<R: Files + Input + AllocGlobal + Print>(rt: &R, run: &str) -> io::Result<bool> {
    let (line, below) = match run.split_once('\n') {
        Some((line, below)) => (line, below),
        None => (run, ""),
    };
    let wanted = read_wanted(rt.alloc(), below)?;
    let found = run_line(rt, line)?;
    let holds = is_wanted_of(wanted.as_str(), found.as_str());
    if !holds {
        print!(rt; "$ {line}\nwanted:\n{wanted}found:\n{found}")?;
    }
    Ok(holds)
}

// Whether these lines were wanted, in which a line `~` stands for any.
fn is_wanted_of(wanted: &str, found: &str) -> bool {
    match wanted.split_once("~\n") {
        Some((front, behind)) => match found.strip_prefix(front) {
            Some(rest) => ends_so(behind, rest),
            None => false,
        },
        None => wanted == found,
    }
}

// Whether the lines end with these, with any before them and where the line `~` stands once more.
fn ends_so(wanted: &str, found: &str) -> bool {
    match wanted.split_once("~\n") {
        Some((middle, back)) => match found.split_once(middle) {
            Some((_, rest)) => rest.ends_with(back),
            None => false,
        },
        None => found.ends_with(wanted),
    }
}

// What is wanted of a run: the lines below it that are no comments.
fn read_wanted(alloc: Global, below: &str) -> Result<String, AllocError> {
    let mut wanted = String::new(alloc);
    for line in below.split('\n') {
        if is_wanted(line) {
            wanted.push_str(line)?;
            wanted.push_str("\n")?;
        }
    }
    Ok(wanted)
}

fn is_wanted(line: &str) -> bool {
    line.starts_with('?') || line.starts_with('>') || line.starts_with('!') || line == "~"
}

// What the run comes to, written so.
fn run_line<R: Files + Input + AllocGlobal>(rt: &R, line: &str) -> Result<String, AllocError> {
    let words = words_of(rt.alloc(), line)?;
    let answer = answer_command(rt, words.as_slice(), None);
    let written = write_answer(rt.alloc(), &answer);
    drop(answer);
    written
}

fn write_answer(alloc: Global, answer: &Answer) -> Result<String, AllocError> {
    let mut lines = String::new(alloc);
    match answer {
        Answer::Printed(printed) => {
            let status = printed.status;
            lines.push_str(format!(in alloc; "? {status}\n")?.as_str())?;
            push_lines(">", printed.output.as_str(), &mut lines)?;
            push_lines("!", printed.warnings.as_str(), &mut lines)?;
        }
        Answer::Refused(told) => {
            lines.push_str("? 1\n")?;
            push_lines("!", told.as_str(), &mut lines)?;
        }
        Answer::OutOfMemory => lines.push_str("? 3\n")?,
    }
    Ok(lines)
}

// The lines of the text, each of which is ended, behind this mark.
fn push_lines(mark: &str, text: &str, lines: &mut String) -> Result<(), AllocError> {
    for line in text.lines() {
        lines.push_str(mark)?;
        if !line.is_empty() {
            lines.push_str(" ")?;
        }
        lines.push_str(line)?;
        lines.push_str("\n")?;
    }
    Ok(())
}

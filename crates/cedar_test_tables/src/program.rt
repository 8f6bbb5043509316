//! What the program of the built-in rows prints, and its statuses.
use crate::notation::answer::Answer;
use cedar_authorizer::authorizer::Authorizer;
use cedar_example_rows::lines::{LIMIT, in_one_step};
use cedar_example_rows::rows::{Row, row_named};
use cedar_example_rows::steps::resource_is_b;
use cedar_example_rows::stop::Stop;
use cedar_example_rows::{OUT_OF_MEMORY, report_stop, run, run_with_even};
use cedar_extensions::Extensions;
use cedar_layers::expressions::Value;
use cedar_layers::policies::PolicySet;
use std::alloc::{AllocError, Global};
use std::collections::HashMap;
use std::io;
use std::io::Write;
use std::rc::RcStr;

/// What is asked of these words.
pub fn ask(answer: &mut Answer, kind: &str, argument: &str, words: &str) {
    match kind {
        "run" => put_run(answer, words),
        "run-without-functions" => put_run_alone(answer, words),
        "step-refused" => match row_named(words) {
            Some(row) => put_refused(answer, row),
            None => answer.refuse("no such row"),
        },
        _ => match argument {
            "memory" => put_failed(answer, words, io::ErrorKind::OutOfMemory),
            "pipe" => put_failed(answer, words, io::ErrorKind::BrokenPipe),
            _ => answer.refuse("no such failure"),
        },
    }
}

// The status, and the lines with `;` behind each, of a run with these arguments. `none` is no argument, and `''` an
// empty one.
fn put_run(answer: &mut Answer, written: &str) {
    match arguments(answer.alloc, written) {
        Ok(arguments) => {
            let mut out: Vec<u8> = Vec::new(answer.alloc);
            let status = run_with_even(answer.alloc, &arguments, &mut out);
            put_printed(answer, status, out.as_slice());
        }
        Err(_) => answer.lack_memory(),
    }
}

// The same where no function is stored.
fn put_run_alone(answer: &mut Answer, written: &str) {
    match arguments(answer.alloc, written) {
        Ok(arguments) => {
            let mut out: Vec<u8> = Vec::new(answer.alloc);
            let status = run(answer.alloc, &arguments, &Extensions::none(), &mut out);
            put_printed(answer, status, out.as_slice());
        }
        Err(_) => answer.lack_memory(),
    }
}

fn arguments(alloc: Global, written: &str) -> Result<Vec<String>, AllocError> {
    let mut arguments: Vec<String> = Vec::new(alloc);
    for word in written.split(' ') {
        match word {
            "none" => {}
            "''" => arguments.push(String::new(alloc))?,
            _ => arguments.push(String::from_str(alloc, word)?)?,
        }
    }
    Ok(arguments)
}

// The status and the lines. Running out of memory is no answer.
fn put_printed(answer: &mut Answer, status: u8, out: &[u8]) {
    if status == OUT_OF_MEMORY {
        answer.lack_memory();
    }
    match str::from_utf8(out) {
        Ok(text) => {
            let lines = text.replace(answer.alloc, '\n', ";");
            answer.show(&status);
            answer.put(" ");
            answer.show_made(lines);
        }
        Err(_) => answer.refuse("what was printed is no text"),
    }
}

// What is printed where the row's request is taken further by a resource, which it has.
fn put_refused(answer: &mut Answer, row: Row) {
    match resource_is_b(answer.alloc) {
        Ok(step) => {
            put_refused_at(answer, row, &step);
            drop(step);
        }
        Err(_) => answer.lack_memory(),
    }
}

fn put_refused_at(answer: &mut Answer, row: Row, step: &HashMap<RcStr, Value>) {
    match PolicySet::try_from_iter(answer.alloc, Vec::new(answer.alloc)) {
        Ok(policies) => {
            put_refused_by(answer, row, step, &policies);
            drop(policies);
        }
        Err(_) => answer.lack_memory(),
    }
}

fn put_refused_by(
    answer: &mut Answer,
    row: Row,
    step: &HashMap<RcStr, Value>,
    policies: &PolicySet,
) {
    let none = Extensions::none();
    let authorizer = Authorizer::new(&none, LIMIT).with_error_handling(row.error_handling());
    match in_one_step(answer.alloc, row, &authorizer, policies, step) {
        Ok(response) => {
            drop(response);
            answer.refuse("not refused");
        }
        Err(stop) => {
            put_stopped(answer, &stop);
            drop(stop);
        }
    }
}

fn put_stopped(answer: &mut Answer, stop: &Stop) {
    let mut out: Vec<u8> = Vec::new(answer.alloc);
    let status = report_stop(stop, &mut out);
    put_printed(answer, status, out.as_slice());
}

/// A writer that takes so many writes and then fails in this way.
#[derive(Drop)]
struct Failing {
    left: usize,
    kind: io::ErrorKind,
}

impl Write for Failing {
    fn write(&mut self, buf: &[u8]) -> io::Result<usize> {
        if self.left == 0 {
            return Err(io::Error::from(self.kind));
        }
        self.left -= 1;
        Ok(buf.len())
    }

    fn flush(&mut self) -> io::Result<()> {
        Ok(())
    }
}

// The statuses of runs that write all rows to a writer that fails in this way, after no write, after one, and so on, so
// many runs.
fn put_failed(answer: &mut Answer, runs: &str, kind: io::ErrorKind) {
    answer.put("statuses");
    for left in 0..answer.number(runs) {
        let status = report_failed(answer.alloc, left, kind);
        if status == OUT_OF_MEMORY && kind != io::ErrorKind::OutOfMemory {
            answer.lack_memory();
        }
        answer.put(" ");
        answer.show(&status);
    }
}

fn report_failed(alloc: Global, left: usize, kind: io::ErrorKind) -> u8 {
    let none: Vec<String> = Vec::new(alloc);
    run(
        alloc,
        &none,
        &Extensions::none(),
        &mut Failing { left, kind },
    )
}

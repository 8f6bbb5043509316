//! How far a run is: it is told on a terminal, if there is one.
use std::io::{Eprint, Stderr};

// It is told of each so many.
const STEP: usize = 1000;

/// Tells how many of all are asked, each thousand, in these words: `1000 of 2500 tests`. What can't be written is not told.
pub fn tell_progress(terminal: Option<Stderr>, what: &str, asked: usize, all: usize) {
    if let Some(stderr) = terminal {
        if asked > 0 && asked % STEP == 0 {
            drop(eprint!(stderr; "\r{asked} of {all} {what}"));
        }
    }
}

/// Ends the line on which that is told, if anything is.
pub fn end_progress(terminal: Option<Stderr>, all: usize) {
    if let Some(stderr) = terminal {
        if all >= STEP {
            drop(stderr.eprint("\n"));
        }
    }
}

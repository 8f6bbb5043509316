//! Policies of the rows of a table that go to JSON and back, and to text and JSON.
use crate::answer::Unanswered;
use crate::signs::replace_signs;
use cedar_round_trips::{Tally, print_tally, with_row};
use std::alloc::{AllocError, Global};
use std::fs;
use std::rt::Files;

// More levels than any policy of a row has.
const LEVELS: usize = 4000;

/// Whether all policies of the table's rows come back. Prints how many do.
pub fn table_returns<R: Files + AllocGlobal + Print>(
    rt: &R,
    file: &str,
) -> Result<bool, Unanswered> {
    let table = fs::read_to_string(rt, file)?;
    let tally = tally_of(rt.alloc(), table.as_str())?;
    drop(table);
    Ok(print_tally(rt, file, tally)?)
}

fn tally_of(alloc: Global, table: &str) -> Result<Tally, AllocError> {
    let mut tally = Tally::none();
    for line in table.lines() {
        let row = replace_signs(alloc, line)?;
        tally = with_row(alloc, tally, row.as_str(), LEVELS)?;
    }
    Ok(tally)
}

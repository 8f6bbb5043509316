#![tactic(auto)]
//! Files of policies and of tables, each with a line that says what became of its policies.
use crate::tallies::{Tally, with_row, with_text};
use std::alloc::{AllocError, Global};
use std::rt::Files;
use std::{fs, io};

/// Whether all policies of the rows of this table come back, each within so many levels. Prints how many do.
pub fn table_comes_back<R: Files + AllocGlobal + Print>(
    rt: &R,
    file: &str,
    limit: usize,
) -> io::Result<bool> {
    let table = fs::read_to_string(rt, file)?;
    let tally = tally_of_rows(rt.alloc(), table.as_str(), limit)?;
    print_tally(rt, file, tally)
}

fn tally_of_rows(alloc: Global, table: &str, limit: usize) -> Result<Tally, AllocError> {
    let mut tally = Tally::none();
    for row in table.lines() {
        tally = with_row(alloc, tally, row, limit)?;
    }
    Ok(tally)
}

/// Whether all policies of this file of policies come back, each within so many levels. Prints how many do.
pub fn file_comes_back<R: Files + AllocGlobal + Print>(
    rt: &R,
    file: &str,
    limit: usize,
) -> io::Result<bool> {
    let text = fs::read_to_string(rt, file)?;
    let tally = with_text(rt.alloc(), Tally::none(), text.as_str(), limit)?;
    print_tally(rt, file, tally)
}

/// Whether all policies of the tally came back. Prints how many did, and how many texts of the file are not read.
pub fn print_tally(rt: &impl Print, file: &str, tally: Tally) -> io::Result<bool> {
    let (policies, same, unread) = (tally.policies, tally.same, tally.unread);
    println!(rt;
        "{file}, as JSON: {same} of {policies} policies come back, {unread} texts are not read"
    )?;
    Ok(same == policies)
}

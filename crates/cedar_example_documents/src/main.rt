//! Documents in a table, and which of them a user may see: the rows by SQL, by a plan, by a step a row and by one whole
//! request a row. It prints for each request how many there are, and of how many the answers differ: of none.
//!
//! - `policies`, `requests`: fifty policies, who asks to do what. `people`: the stores, with the documents and without.
//! - `documents`, `dice`: 200 documents that are made by a linear generator, with quotes in texts, and attributes that
//!   some do not have. `table`: the same in a table, and which column holds what.
//! - `filter`: what is left of the policies, as conditions of SQL. `naive`: the translation that first comes to mind,
//!   which is wrong of some rows.
//! - `compare`, `report`: what is answered of each document, and what is printed. `names`, `stop`: names and texts; why
//!   the program stops.
//!
//! The promise is that of the calls: `sql_of_plan` of `cedar_sql_plan`, `allows` of `cedar_plan`. That the kit's SQL
//! reads the text of a condition as the condition is what this program tests.
#![tactic(auto)]

mod compare;
mod dice;
mod documents;
mod filter;
mod naive;
mod names;
mod people;
mod policies;
mod report;
mod requests;
mod stop;
mod table;

use cedar_policy_core::ast::{Entity, PolicySet};
use cedar_policy_core::authorizer::{Authorizer, ErrorHandling};
use cedar_policy_core::entities::Entities;
use cedar_policy_core::extensions::Extensions;
use compare::Service;
use documents::{Document, documents, entities};
use policies::LEVELS;
use report::{Rows, print_request};
use requests::ASKED;
use sqlite::{Alter, Connection};
use std::alloc::Global;
use std::io;
use std::io::Write;
use std::process::ExitCode;
use stop::Stop;
use table::{columns, fill, names};

/// All was printed, and no two answers differ.
pub const DONE: u8 = 0;
/// The output could not be written.
pub const NOT_WRITTEN: u8 = 1;
/// Two answers differ.
pub const DIFFERING: u8 = 2;
/// Out of memory.
pub const OUT_OF_MEMORY: u8 = 3;
/// The policies could not be read, or there is no plan.
pub const REFUSED: u8 = 4;
/// The database refused a statement.
pub const DATABASE: u8 = 5;

fn main(rt: HostRuntime) -> ExitCode {
    ExitCode::from(run(rt.alloc(), &mut io::writer(&rt)))
}

/// Prints each request, and answers the exit status.
pub fn run<W: Write>(alloc: Global, out: &mut W) -> u8 {
    match print_all(alloc, out) {
        Ok(0) => DONE,
        Ok(_) => DIFFERING,
        Err(Stop::Output) => NOT_WRITTEN,
        Err(Stop::Memory) => OUT_OF_MEMORY,
        Err(Stop::Policies) => REFUSED,
        Err(Stop::Limit) => REFUSED,
        Err(Stop::Step) => REFUSED,
        Err(Stop::Database) => DATABASE,
    }
}

// Prints all, and answers of how many documents two answers differ.
fn print_all<W: Write>(alloc: Global, out: &mut W) -> Result<usize, Stop> {
    let policies = policies::policies(alloc, &Extensions::none())?;
    let printed = print_with(alloc, &policies, out);
    drop(policies);
    printed
}

fn print_with<W: Write>(alloc: Global, policies: &PolicySet, out: &mut W) -> Result<usize, Stop> {
    let documents = documents(alloc)?;
    let people = people::people(alloc)?;
    let printed = print_documents(alloc, policies, &people, documents.as_slice(), out);
    drop(people);
    printed
}

fn print_documents<W: Write>(
    alloc: Global,
    policies: &PolicySet,
    people: &Entities,
    documents: &[Document],
    out: &mut W,
) -> Result<usize, Stop> {
    let all = people::all(alloc, documents)?;
    let service = Service {
        policies,
        all: &all,
    };
    let printed = print_stored(alloc, &service, people, documents, out);
    drop(all);
    printed
}

fn print_stored<W: Write>(
    alloc: Global,
    service: &Service<'_>,
    people: &Entities,
    documents: &[Document],
    out: &mut W,
) -> Result<usize, Stop> {
    let entities = entities(alloc, documents)?;
    let printed = print_entities(alloc, service, people, documents, entities.as_slice(), out);
    drop(entities);
    printed
}

fn print_entities<W: Write>(
    alloc: Global,
    service: &Service<'_>,
    people: &Entities,
    documents: &[Document],
    entities: &[Entity],
    out: &mut W,
) -> Result<usize, Stop> {
    let columns = columns(alloc)?;
    let names = names(alloc)?;
    let rows = Rows {
        documents,
        entities,
        columns: &columns,
        names: &names,
    };
    print_rows(alloc, service, people, &rows, out)
}

fn print_rows<W: Write>(
    alloc: Global,
    service: &Service<'_>,
    people: &Entities,
    rows: &Rows<'_>,
    out: &mut W,
) -> Result<usize, Stop> {
    let mut conn = Connection::open_in_memory(alloc)?;
    fill(alloc, &mut conn, rows.documents)?;
    writeln!(
        out,
        "{} documents, {} policies",
        rows.documents.len(),
        service.policies.policies().count()
    )?;
    print_requests(alloc, service, people, rows, &mut conn, out)
}

fn print_requests<S: Alter, W: Write>(
    alloc: Global,
    service: &Service<'_>,
    people: &Entities,
    rows: &Rows<'_>,
    conn: &mut Connection<S>,
    out: &mut W,
) -> Result<usize, Stop> {
    let extensions = Extensions::none();
    let skipping = Authorizer::new(&extensions, LEVELS + 1);
    let skipped = print_asked(alloc, service, people, rows, &skipping, conn, out)?;
    let forbidding = Authorizer::new(&extensions, LEVELS + 1).with_error_handling(
        ErrorHandling::ForbidOnError,
    );
    let forbidden = print_asked(alloc, service, people, rows, &forbidding, conn, out)?;
    let differing = skipped.saturating_add(forbidden);
    print_end(differing, out)?;
    Ok(differing)
}

fn print_asked<S: Alter, W: Write>(
    alloc: Global,
    service: &Service<'_>,
    people: &Entities,
    rows: &Rows<'_>,
    authorizer: &Authorizer<'_>,
    conn: &mut Connection<S>,
    out: &mut W,
) -> Result<usize, Stop> {
    let mut differing: usize = 0;
    for asked in &ASKED {
        let counts = print_request(alloc, service, people, rows, authorizer, asked, conn, out)?;
        differing = differing.saturating_add(counts.differing);
    }
    Ok(differing)
}

fn print_end<W: Write>(differing: usize, out: &mut W) -> Result<(), Stop> {
    match differing {
        0 => writeln!(out, "never different")?,
        count => writeln!(out, "different: {count}")?,
    }
    Ok(())
}

//! What is printed of each request.
use crate::compare::{Answers, Service, answer};
use crate::documents::Document;
use crate::filter::{Found, conditions_of, find, naive_condition_of, plan_of};
use crate::requests::Asked;
use crate::stop::Stop;
use cedar_policy_core::ast::Entity;
use cedar_policy_core::authorizer::{Authorizer, Decision, ErrorHandling, PartialResponse};
use cedar_policy_core::entities::Entities;
use cedar_policy_core::filters::Plan;
use cedar_sql::{Columns, TableNames};
use sqlite::{Alter, Connection};
use std::alloc::Global;
use std::io::Write;

/// The documents: as they were made, as entities, and how the table holds them.
#[derive(Drop)]
pub struct Rows<'a> {
    /// The documents.
    pub documents: &'a [Document],
    /// Their entities, in the same order.
    pub entities: &'a [Entity],
    /// What the columns of the table hold.
    pub columns: &'a Columns,
    /// The names of the table and the columns.
    pub names: &'a TableNames,
}

/// How many documents were answered how.
#[derive(Clone, Copy)]
pub struct Counts {
    allowed: usize,
    shown: usize,
    left_out: usize,
    told: usize,
    wrong: usize,
    /// Those of which two answers differ.
    pub differing: usize,
}

/// Answers the request of each document in each way, prints how many were answered how, and answers the counts.
pub fn print_request<S: Alter, W: Write>(
    alloc: Global,
    service: &Service<'_>,
    people: &Entities,
    rows: &Rows<'_>,
    authorizer: &Authorizer<'_>,
    asked: &Asked,
    conn: &mut Connection<S>,
    out: &mut W,
) -> Result<Counts, Stop> {
    let request = asked.of_some_document(alloc)?;
    let response = authorizer.is_authorized_core(alloc, request, service.policies, people)?;
    let printed = print_response(
        alloc, service, rows, authorizer, asked, &response, conn, out,
    );
    drop(response);
    printed
}

fn print_response<S: Alter, W: Write>(
    alloc: Global,
    service: &Service<'_>,
    rows: &Rows<'_>,
    authorizer: &Authorizer<'_>,
    asked: &Asked,
    response: &PartialResponse,
    conn: &mut Connection<S>,
    out: &mut W,
) -> Result<Counts, Stop> {
    let plan = plan_of(alloc, response)?;
    let printed = print_plan(
        alloc, service, rows, authorizer, asked, response, &plan, conn, out,
    );
    drop(plan);
    printed
}

fn print_plan<S: Alter, W: Write>(
    alloc: Global,
    service: &Service<'_>,
    rows: &Rows<'_>,
    authorizer: &Authorizer<'_>,
    asked: &Asked,
    response: &PartialResponse,
    plan: &Plan,
    conn: &mut Connection<S>,
    out: &mut W,
) -> Result<Counts, Stop> {
    let found = found_by_sql(alloc, rows, plan, conn)?;
    let all = all_answers(
        alloc, service, rows, authorizer, asked, response, plan, &found,
    )?;
    print_asked(asked, authorizer.error_handling(), out)?;
    let counts = counts_of(&all);
    print_counts(&counts, out)?;
    print_wrong(alloc, rows.documents, &all, counts.wrong, out)?;
    Ok(counts)
}

fn found_by_sql<S: Alter>(
    alloc: Global,
    rows: &Rows<'_>,
    plan: &Plan,
    conn: &mut Connection<S>,
) -> Result<Found, Stop> {
    let conditions = conditions_of(alloc, plan, rows.columns, rows.names)?;
    let naive = naive_condition_of(alloc, plan, rows.columns, rows.names)?;
    find(
        alloc,
        conn,
        &conditions,
        naive.as_str(),
        rows.documents.len(),
    )
}

// What is answered of each document, in order.
fn all_answers(
    alloc: Global,
    service: &Service<'_>,
    rows: &Rows<'_>,
    authorizer: &Authorizer<'_>,
    asked: &Asked,
    response: &PartialResponse,
    plan: &Plan,
    found: &Found,
) -> Result<Vec<Answers>, Stop> {
    let mut all: Vec<Answers> = Vec::new(alloc);
    for (document, entity) in rows.documents.iter().zip(rows.entities.iter()) {
        let answered = answer(
            alloc, service, authorizer, asked, response, plan, found, document, entity,
        )?;
        all.push(answered)?;
    }
    Ok(all)
}

// ---- counts

fn counts_of(all: &[Answers]) -> Counts {
    let mut counts = Counts {
        allowed: 0,
        shown: 0,
        left_out: 0,
        told: 0,
        wrong: 0,
        differing: 0,
    };
    for answers in all {
        counts = counted(counts, answers);
    }
    counts
}

fn counted(counts: Counts, answers: &Answers) -> Counts {
    Counts {
        allowed: more(counts.allowed, answers.whole == Decision::Allow),
        shown: more(counts.shown, answers.found == Some(Decision::Allow)),
        left_out: more(counts.left_out, answers.found == Some(Decision::Deny)),
        told: more(counts.told, answers.told.is_some()),
        wrong: more(counts.wrong, answers.naive_is_wrong()),
        differing: more(counts.differing, answers.differ()),
    }
}

fn more(count: usize, is_one: bool) -> usize {
    if is_one {
        count.saturating_add(1)
    } else {
        count
    }
}

// ---- lines

fn print_asked<W: Write>(asked: &Asked, mode: ErrorHandling, out: &mut W) -> Result<(), Stop> {
    let mode = match mode {
        ErrorHandling::Skip => "errors skip",
        ErrorHandling::ForbidOnError => "errors forbid",
    };
    writeln!(out, "{} {}, {mode}", asked.user, asked.action)?;
    Ok(())
}

fn print_counts<W: Write>(counts: &Counts, out: &mut W) -> Result<(), Stop> {
    writeln!(
        out,
        "  allowed {}; SQL shows {} and leaves out {}; the plan tells {}; differing {}",
        counts.allowed, counts.shown, counts.left_out, counts.told, counts.differing
    )?;
    Ok(())
}

// The documents of which `AND` for `&&` is wrong.
fn print_wrong<W: Write>(
    alloc: Global,
    documents: &[Document],
    all: &[Answers],
    count: usize,
    out: &mut W,
) -> Result<(), Stop> {
    write!(out, "  AND for &&: {count} wrong")?;
    for (document, answers) in documents.iter().zip(all.iter()) {
        if answers.naive_is_wrong() {
            print_id(alloc, document, out)?;
        }
    }
    writeln!(out, "")?;
    Ok(())
}

fn print_id<W: Write>(alloc: Global, document: &Document, out: &mut W) -> Result<(), Stop> {
    let id = document.id(alloc)?;
    write!(out, " {id}")?;
    Ok(())
}

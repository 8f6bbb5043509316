//! The documents in a table, and which column holds what of a document.
use crate::documents::{About, Document};
use crate::names::entity_type;
use crate::stop::Stop;
use cedar_policy_core::filters::Operand;
use cedar_sql::{Column, ColumnType, Columns, RowType, TableNames};
use sqlite::{Alter, Connection, Error, Row, params};
use std::alloc::{AllocError, Global};
use std::rc::RcStr;

const COLUMN_NAMES: [&str; 10] = [
    "rowid", "id", "owner", "title", "public", "size", "status", "about", "region", "level",
];

const NEW_TABLE: &str =
    "CREATE TABLE document (id TEXT NOT NULL, owner TEXT NOT NULL, title TEXT NOT NULL, \
    public INTEGER, size INTEGER, status TEXT, about INTEGER, region TEXT, level INTEGER) STRICT";

const NEW_ROW: &str =
    "INSERT INTO document (id, owner, title, public, size, status, about, region, level) \
    VALUES (?1, ?2, ?3, ?4, ?5, ?6, ?7, ?8, ?9)";

// ---- rows

/// Makes the table, and puts the documents into it, the first at the rowid 1.
pub fn fill<S: Alter>(
    alloc: Global,
    conn: &mut Connection<S>,
    documents: &[Document],
) -> Result<(), Stop> {
    run(conn, NEW_TABLE)?;
    run(conn, "BEGIN")?;
    for document in documents {
        insert(alloc, conn, document)?;
    }
    run(conn, "COMMIT")
}

fn run<S: Alter>(conn: &mut Connection<S>, sql: &str) -> Result<(), Stop> {
    match conn.execute(sql, &[]) {
        Ok(_) => Ok(()),
        Err(error) => Err(Stop::from(error)),
    }
}

fn insert<S: Alter>(
    alloc: Global,
    conn: &mut Connection<S>,
    document: &Document,
) -> Result<(), Stop> {
    let id = document.id(alloc)?;
    match inserted(conn, document, id.as_str()) {
        Ok(_) => Ok(()),
        Err(error) => Err(Stop::from(error)),
    }
}

fn inserted<S: Alter>(
    conn: &mut Connection<S>,
    document: &Document,
    id: &str,
) -> Result<usize, Error> {
    let is_about = document.about.is_some();
    conn.execute(
        NEW_ROW,
        params![
            id,
            document.owner,
            document.title,
            document.public,
            document.size,
            document.status,
            if is_about { Some(true) } else { None },
            region(document.about),
            level(document.about)
        ],
    )
}

fn region(about: Option<About>) -> Option<&'static str> {
    match about {
        Some(about) => about.region,
        None => None,
    }
}

fn level(about: Option<About>) -> Option<i64> {
    match about {
        Some(about) => about.level,
        None => None,
    }
}

// ---- queries

/// Which documents the condition is true of, by their numbers: of a number that no document has it says false.
pub fn rows_where<S: Alter>(
    alloc: Global,
    conn: &mut Connection<S>,
    condition: &str,
    count: usize,
) -> Result<Vec<bool>, Stop> {
    let sql = format!(in alloc; "SELECT rowid FROM document WHERE {condition}")?;
    let rows = conn.query_all(sql.as_str(), &[])?;
    flags(alloc, rows.as_slice(), count)
}

fn flags(alloc: Global, rows: &[Row], count: usize) -> Result<Vec<bool>, Stop> {
    let mut flags = none_of(alloc, count)?;
    for row in rows {
        let number: i64 = row.get(0)?;
        set(&mut flags, number);
    }
    Ok(flags)
}

fn none_of(alloc: Global, count: usize) -> Result<Vec<bool>, AllocError> {
    let mut flags: Vec<bool> = Vec::new(alloc);
    for _ in 0..count {
        flags.push(false)?;
    }
    flags.push(false)?;
    Ok(flags)
}

fn set(flags: &mut Vec<bool>, number: i64) {
    if let Ok(at) = usize::try_from(number) {
        if at < flags.len() {
            flags[at] = true;
        }
    }
}

// ---- columns

/// The names of the table and of the columns, by their places.
pub fn names(alloc: Global) -> Result<TableNames, AllocError> {
    let mut columns: Vec<RcStr> = Vec::new(alloc);
    for name in COLUMN_NAMES {
        columns.push(RcStr::from_str(alloc, name)?)?;
    }
    Ok(TableNames {
        table: RcStr::from_str(alloc, "document")?,
        columns,
    })
}

/// Which column holds what of a document. Of its folder and of the users who review it there is none.
pub fn columns(alloc: Global) -> Result<Columns, AllocError> {
    let mut attributes: Vec<Column> = Vec::new(alloc);
    add_columns(alloc, &mut attributes)?;
    Ok(Columns {
        id: 1,
        entity_type: RowType::One(entity_type(alloc, "Document")?),
        attributes,
    })
}

fn add_columns(alloc: Global, columns: &mut Vec<Column>) -> Result<(), AllocError> {
    add_owner(alloc, columns)?;
    add(columns, attribute(alloc, "title"), ColumnType::String, 3)?;
    add(columns, attribute(alloc, "public"), ColumnType::Bool, 4)?;
    add(columns, attribute(alloc, "size"), ColumnType::Long, 5)?;
    add(columns, attribute(alloc, "status"), ColumnType::String, 6)?;
    add(columns, attribute(alloc, "about"), ColumnType::Record, 7)?;
    add(
        columns,
        about_attribute(alloc, "region"),
        ColumnType::String,
        8,
    )?;
    add(
        columns,
        about_attribute(alloc, "level"),
        ColumnType::Long,
        9,
    )
}

fn add_owner(alloc: Global, columns: &mut Vec<Column>) -> Result<(), AllocError> {
    let user = entity_type(alloc, "User")?;
    add(
        columns,
        attribute(alloc, "owner"),
        ColumnType::Entity(user),
        2,
    )
}

// An attribute of the document.
fn attribute(alloc: Global, name: &str) -> Result<Operand, AllocError> {
    attribute_of(alloc, Operand::Row, name)
}

// An attribute of what is known about the document.
fn about_attribute(alloc: Global, name: &str) -> Result<Operand, AllocError> {
    attribute_of(alloc, attribute(alloc, "about")?, name)
}

fn attribute_of(alloc: Global, of: Operand, name: &str) -> Result<Operand, AllocError> {
    let of = Box::new(alloc, of)?;
    Ok(Operand::Attribute(of, RcStr::from_str(alloc, name)?))
}

fn add(
    columns: &mut Vec<Column>,
    attribute: Result<Operand, AllocError>,
    holds: ColumnType,
    place: usize,
) -> Result<(), AllocError> {
    let attribute = attribute?;
    columns.push(Column {
        attribute,
        holds,
        place,
    })?;
    Ok(())
}

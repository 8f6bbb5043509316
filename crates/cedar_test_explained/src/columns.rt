//! Tables that SQL is asked of. The fact `columns Photo size=Long owner=User place=Record place.city=String` says that
//! each row of the table `t` is a `Photo`, with the columns `rowid`, `id`, `size`, `owner`, `place` and `place.city`;
//! `columns * ..` that the column `type`, behind `id`, has the type of each; and `columns *Photo ..` that a `Photo` is asked
//! for besides.
use crate::answer::Unanswered;
use crate::given::read_type;
use cedar_filter::Operand;
use cedar_sql::{Column, ColumnType, Columns, RowType, TableNames};
use std::alloc::{AllocError, Global};
use std::rc::RcStr;

/// A table.
#[derive(Drop)]
pub struct Table {
    /// Its columns.
    pub columns: Columns,
    /// Its name, and theirs, from the rowid on.
    pub names: TableNames,
}

/// The table of the fact.
pub fn read_table(alloc: Global, fact: &str) -> Result<Table, Unanswered> {
    let (row, words) = split_first_word(fact);
    let columns = Columns {
        id: 1,
        entity_type: read_row_type(alloc, row)?,
        attributes: read_attributes(alloc, first_place(row), words)?,
    };
    let names = TableNames {
        table: RcStr::from_str(alloc, "t")?,
        columns: read_names(alloc, row, words)?,
    };
    Ok(Table { columns, names })
}

/// The type of the row that is asked for, as it is said before the columns; none, where each is.
pub fn asked_type(columns: &str) -> Option<&str> {
    let (row, _) = split_first_word(columns);
    match row.split_once('*') {
        Some((_, "")) => None,
        Some((_, ty)) => Some(ty),
        None => Some(row),
    }
}

// Whether the rows are of several types.
fn are_several(row: &str) -> bool {
    row.contains('*')
}

// What stands before the first space, and behind it.
fn split_first_word(text: &str) -> (&str, &str) {
    match text.split_once(' ') {
        Some((first, rest)) => (first, rest),
        None => (text, ""),
    }
}

fn read_row_type(alloc: Global, row: &str) -> Result<RowType, Unanswered> {
    if are_several(row) {
        Ok(RowType::Several(2))
    } else {
        Ok(RowType::One(read_type(alloc, row)?))
    }
}

// The place of the first attribute.
fn first_place(row: &str) -> usize {
    if are_several(row) { 3 } else { 2 }
}

fn read_attributes(alloc: Global, first: usize, words: &str) -> Result<Vec<Column>, Unanswered> {
    let mut attributes: Vec<Column> = Vec::new(alloc);
    let mut place = first;
    for word in words.split(' ') {
        if let Some((path, holds)) = word.split_once('=') {
            attributes.push(read_column(alloc, path, holds, place)?)?;
            place = place.saturating_add(1);
        }
    }
    Ok(attributes)
}

fn read_column(alloc: Global, path: &str, holds: &str, place: usize) -> Result<Column, Unanswered> {
    let holds = read_column_type(alloc, holds)?;
    let attribute = read_attribute(alloc, path)?;
    Ok(Column {
        attribute,
        holds,
        place,
    })
}

fn read_column_type(alloc: Global, holds: &str) -> Result<ColumnType, Unanswered> {
    match holds {
        "Bool" => Ok(ColumnType::Bool),
        "Long" => Ok(ColumnType::Long),
        "String" => Ok(ColumnType::String),
        "Record" => Ok(ColumnType::Record),
        _ => Ok(ColumnType::Entity(read_type(alloc, holds)?)),
    }
}

fn read_attribute(alloc: Global, path: &str) -> Result<Operand, AllocError> {
    let mut operand = Operand::Row;
    for name in path.split('.') {
        operand = attribute_of(alloc, operand, name)?;
    }
    Ok(operand)
}

fn attribute_of(alloc: Global, operand: Operand, name: &str) -> Result<Operand, AllocError> {
    let operand = Box::new(alloc, operand)?;
    let name = RcStr::from_str(alloc, name)?;
    Ok(Operand::Attribute(operand, name))
}

fn read_names(alloc: Global, row: &str, words: &str) -> Result<Vec<RcStr>, AllocError> {
    let mut names: Vec<RcStr> = Vec::new(alloc);
    names.push(RcStr::from_str(alloc, "rowid")?)?;
    names.push(RcStr::from_str(alloc, "id")?)?;
    if are_several(row) {
        names.push(RcStr::from_str(alloc, "type")?)?;
    }
    for word in words.split(' ') {
        if let Some((path, _)) = word.split_once('=') {
            names.push(RcStr::from_str(alloc, path)?)?;
        }
    }
    Ok(names)
}

//! SQL expressions on one row, as trees of their own.
ghost use Rattle.std.specs.Prelude.{◌≡◌, IfOk};
ghost use Rattle.cedar_sql.specs.Terms.{choose, sql_term, compare_operator};
ghost use Rattle.sqlite_sql.specs.Term.{op1, op2};
ghost use Rattle.sqlite_sql.specs.declared.ops.UnaryOp.TheVariants.{IsNull, Not};
ghost use Rattle.sqlite_sql.specs.declared.ops.BinaryOp.TheVariants as by;

use cedar_filter::Comparison;
use std::alloc::{AllocError, Global};
use std::rc::RcStr;

/// An SQL expression on a row of one table.
#[derive(Drop)]
pub enum SqlTerm {
    /// `NULL`
    Null,
    /// An INTEGER.
    Number(i64),
    /// A TEXT.
    Text(RcStr),
    /// The column at this place.
    Column(usize),
    /// `IS NULL`
    IsNull(Box<SqlTerm>),
    /// `NOT`
    Not(Box<SqlTerm>),
    /// `IS 1` or `IS 0`: never NULL.
    Is(Box<SqlTerm>, bool),
    /// `AND`
    And(Box<SqlTerm>, Box<SqlTerm>),
    /// `OR`
    Or(Box<SqlTerm>, Box<SqlTerm>),
    /// `=`, `<` or `<=`, of texts by their bytes.
    Compare(Comparison, Box<SqlTerm>, Box<SqlTerm>),
    /// `instr`: the place of the second text in the first one, in characters from 1 on; 0, if it is not in it.
    Instr(Box<SqlTerm>, Box<SqlTerm>),
    /// `CASE .. WHEN 1 THEN .. WHEN 0 THEN .. END`: where the first is neither 1 nor 0, it is NULL.
    Choice(Box<SqlTerm>, Box<SqlTerm>, Box<SqlTerm>),
}

// ---- parts in boxes

pub(crate) fn is_null(alloc: Global, part: SqlTerm) -> Result<SqlTerm, AllocError>
    ensures { IfOk result (λ t. sql_term t ≡ op1 IsNull (sql_term part)) }
{
    let part = boxed(alloc, part)?;
    Ok(SqlTerm::IsNull(part))
}

pub(crate) fn negated(alloc: Global, part: SqlTerm) -> Result<SqlTerm, AllocError>
    ensures { IfOk result (λ t. sql_term t ≡ op1 Not (sql_term part)) }
{
    let part = boxed(alloc, part)?;
    Ok(SqlTerm::Not(part))
}

pub(crate) fn compared(
    alloc: Global,
    comparison: Comparison,
    first: SqlTerm,
    second: SqlTerm,
) -> Result<SqlTerm, AllocError>
    ensures { IfOk result (λ t. sql_term t ≡ op2 (compare_operator comparison) (sql_term first) (sql_term second)) }
{
    let (first, second) = boxed_pair(alloc, first, second)?;
    Ok(SqlTerm::Compare(comparison, first, second))
}

pub(crate) fn both(alloc: Global, first: SqlTerm, second: SqlTerm) -> Result<SqlTerm, AllocError>
    ensures { IfOk result (λ t. sql_term t ≡ op2 by.And (sql_term first) (sql_term second)) }
{
    let (first, second) = boxed_pair(alloc, first, second)?;
    Ok(SqlTerm::And(first, second))
}

// The place of the second in the first.
pub(crate) fn place_in(alloc: Global, text: SqlTerm, part: SqlTerm) -> Result<SqlTerm, AllocError>
    ensures { IfOk result (λ t. sql_term t ≡ op2 by.Instr (sql_term text) (sql_term part)) }
{
    let (text, part) = boxed_pair(alloc, text, part)?;
    Ok(SqlTerm::Instr(text, part))
}

pub(crate) fn choice(
    alloc: Global,
    test: SqlTerm,
    yes: SqlTerm,
    no: SqlTerm,
) -> Result<SqlTerm, AllocError>
    ensures { IfOk result (λ t. sql_term t ≡ choose (sql_term test) (sql_term yes) (sql_term no)) }
{
    let (yes, no) = boxed_pair(alloc, yes, no)?;
    let test = boxed(alloc, test)?;
    Ok(SqlTerm::Choice(test, yes, no))
}

fn boxed<T: Drop>(alloc: Global, held: T) -> Result<Box<T>, AllocError>
    ensures { IfOk result (λ b. b.value ≡ held) }
{
    Ok(Box::new(alloc, held)?)
}

fn boxed_pair<T: Drop>(alloc: Global, first: T, second: T) -> Result<(Box<T>, Box<T>), AllocError>
    ensures first { IfOk result (λ p. p.0.value ≡ first) }
    ensures second { IfOk result (λ p. p.1.value ≡ second) }
{
    let first = Box::new(alloc, first)?;
    let second = Box::new(alloc, second)?;
    Ok((first, second))
}

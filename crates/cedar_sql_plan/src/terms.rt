//! SQL expressions of parts.
ghost use Rattle.std.specs.Prelude.{◌≡◌, IfOk};
ghost use Rattle.sqlite_sql.specs.Term.{op1, op2};
ghost use Rattle.sqlite_sql.specs.declared.ops.UnaryOp.TheVariants.{Not};
ghost use Rattle.sqlite_sql.specs.declared.ops.BinaryOp.TheVariants as by;
ghost use Rattle.cedar_sql.specs.Terms.{sql_term, is_truth, equals};

use cedar_filter::Comparison;
use cedar_sql::SqlTerm;
use std::alloc::{AllocError, Global};

pub(crate) fn is_truth(alloc: Global, part: SqlTerm, holds: bool) -> Result<SqlTerm, AllocError>
    ensures { IfOk result (λ t. sql_term t ≡ is_truth (sql_term part) holds) }
{
    let part = boxed(alloc, part)?;
    Ok(SqlTerm::Is(part, holds))
}

pub(crate) fn negated(alloc: Global, part: SqlTerm) -> Result<SqlTerm, AllocError>
    ensures { IfOk result (λ t. sql_term t ≡ op1 Not (sql_term part)) }
{
    let part = boxed(alloc, part)?;
    Ok(SqlTerm::Not(part))
}

pub(crate) fn equal(alloc: Global, first: SqlTerm, second: SqlTerm) -> Result<SqlTerm, AllocError>
    ensures { IfOk result (λ t. sql_term t ≡ equals (sql_term first) (sql_term second)) }
{
    let (first, second) = boxed_pair(alloc, first, second)?;
    Ok(SqlTerm::Compare(Comparison::Equal, first, second))
}

pub(crate) fn both(alloc: Global, first: SqlTerm, second: SqlTerm) -> Result<SqlTerm, AllocError>
    ensures { IfOk result (λ t. sql_term t ≡ op2 by.And (sql_term first) (sql_term second)) }
{
    let (first, second) = boxed_pair(alloc, first, second)?;
    Ok(SqlTerm::And(first, second))
}

pub(crate) fn either(alloc: Global, first: SqlTerm, second: SqlTerm) -> Result<SqlTerm, AllocError>
    ensures { IfOk result (λ t. sql_term t ≡ op2 by.Or (sql_term first) (sql_term second)) }
{
    let (first, second) = boxed_pair(alloc, first, second)?;
    Ok(SqlTerm::Or(first, second))
}

fn boxed<T: Drop>(alloc: Global, held: T) -> Result<Box<T>, AllocError>
    ensures { IfOk result (λ b. b.value ≡ held) }
{
    Ok(Box::new(alloc, held)?)
}

fn boxed_pair<T: Drop>(alloc: Global, first: T, second: T) -> Result<(Box<T>, Box<T>), AllocError>
    ensures first { IfOk result (λ p. p.0.value ≡ first) }
    ensures second { IfOk result (λ p. p.1.value ≡ second) }
{
    let first = Box::new(alloc, first)?;
    let second = Box::new(alloc, second)?;
    Ok((first, second))
}

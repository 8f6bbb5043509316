//! A condition on one row as an SQL expression.
ghost use Rattle.std.specs.Prelude.{◌≡◌, None, IfOk, IfErr, option_copied};
ghost use Rattle.cedar_filter.specs.Filters.{filter_condition};
ghost use Rattle.cedar_sql.specs.Terms.{sql_term};
ghost use Rattle.cedar_sql.specs.Meaning.{IsSqlOf, IsSqlOfFilter, IsUnsaid};
ghost use Rattle.cedar_sql.specs.Said.{condition_sql, unsaid, earlier, unless};

use crate::columns::{Columns, column_at};
use crate::leaves::{
    compared_or_null, has_or_null, holder_of, holds_or_null, truth_term, typed_or_null,
};
use crate::likes::liked_or_null;
use crate::patterns::is_said;
use crate::sides::{has_nul, side_of};
use crate::terms::{SqlTerm, choice, negated};
use cedar_fallible::pair_of;
use cedar_filter::{Condition, Filter};
use std::alloc::{AllocError, Global};

/// Why there is no SQL.
#[derive(Clone, Copy)]
pub enum NoSql<'a> {
    /// This condition is none in SQL: the first, from left to right.
    Part(&'a Condition),
    /// Out of memory.
    Memory,
}

/// The condition as an SQL expression on the rows of a table with these columns: on each row that is an entity's, it
/// is 1 where the condition is true of the entity, 0 where it is false, and NULL where it errs. Refuses the first part
/// of another kind: `in` and `contains`; `like` with a wildcard elsewhere than at the end, or at both ends, of the
/// pattern; `has` of what has no column, or is neither the row nor a record with a column; an operand that is a set, a
/// record, an extension value, or an attribute with no column; a text, or a pattern, with a NUL. Refuses, too, if out of
/// memory.
pub fn sql_of<'a>(
    alloc: Global,
    condition: &'a Condition,
    columns: &Columns,
) -> Result<SqlTerm, NoSql<'a>>
    ensures meaning { IfOk result (λ t. IsSqlOf columns.now condition.now (sql_term t)) }
    ensures whole { IfOk result (λ t. unsaid columns.now condition.now ≡ None) }
    ensures refused { IfErr result (IsUnsaid (unsaid columns.now condition.now)) }
{
    match unsaid_in(condition, columns) {
        Some(part) => Err(NoSql::Part(part)),
        None => match said(alloc, condition, columns) {
            Ok(term) => Ok(term),
            Err(_) => Err(NoSql::Memory),
        },
    }
}

/// The filter as an SQL expression on the rows of a table with these columns: on each row that is an entity's, it is 1
/// where the filter's expression is true with the entity for the unknown, 0 where it is false, and NULL where it errs.
/// Refuses as `sql_of` does.
pub fn sql_of_filter<'a>(
    alloc: Global,
    filter: &'a Filter,
    columns: &Columns,
) -> Result<SqlTerm, NoSql<'a>>
    ensures meaning { IfOk result (λ t. IsSqlOfFilter columns.now filter.now (sql_term t)) }
    ensures whole { IfOk result (λ t. unsaid columns.now (filter_condition filter.now) ≡ None) }
    ensures refused { IfErr result (IsUnsaid (unsaid columns.now (filter_condition filter.now))) }
{
    sql_of(alloc, filter.condition(), columns)
}

// The expression, where each part is one.
fn said(alloc: Global, condition: &Condition, columns: &Columns) -> Result<SqlTerm, AllocError>
    requires { unsaid columns.now condition.now ≡ None }
    ensures { IfOk result (λ t. IsSqlOf columns.now condition.now (sql_term t)) }
{
    made(alloc, condition, columns)
}

// ---- the first part that is none

/// The first part of the condition, from left to right, that is none in SQL on these columns, as `sql_of` refuses it.
pub fn unsaid_in<'a>(condition: &'a Condition, columns: &Columns) -> Option<&'a Condition>
    ensures { option_copied result ≡ unsaid columns.now condition.now }
{
    match condition {
        Condition::Known(_) => None,
        Condition::And(left, right) => {
            first_of(unsaid_in(left, columns), unsaid_in(right, columns))
        }
        Condition::Or(left, right) => {
            first_of(unsaid_in(left, columns), unsaid_in(right, columns))
        }
        Condition::Not(part) => unsaid_in(part, columns),
        Condition::If(test, yes, no) => first_of(
            unsaid_in(test, columns),
            first_of(unsaid_in(yes, columns), unsaid_in(no, columns)),
        ),
        Condition::Holds(operand) => unless(side_of(operand, columns).is_some(), condition),
        Condition::Compare(_, first, second) => unless(
            side_of(first, columns).is_some() && side_of(second, columns).is_some(),
            condition,
        ),
        Condition::In(_, _) => Some(condition),
        Condition::Has(of, name) => unless(
            holder_of(of, columns).is_some() && column_at(columns, of, name).is_some(),
            condition,
        ),
        Condition::Like(operand, pattern) => unless(
            side_of(operand, columns).is_some() && is_said(pattern.elems()),
            condition,
        ),
        Condition::Is(operand, ty) => unless(
            side_of(operand, columns).is_some() && !has_nul(ty.text().as_str()),
            condition,
        ),
        Condition::Contains(_, _) => Some(condition),
    }
}

fn first_of<'a>(
    first: Option<&'a Condition>,
    second: Option<&'a Condition>,
) -> Option<&'a Condition>
    ensures { option_copied result ≡ earlier (option_copied first.entry) (option_copied second.entry) }
{
    match first {
        Some(part) => Some(part),
        None => second,
    }
}

fn unless<'a>(said: bool, condition: &'a Condition) -> Option<&'a Condition>
    ensures { option_copied result ≡ unless said condition.now }
{
    if said { None } else { Some(condition) }
}

// ---- the expression: NULL in place of what is none

fn made(alloc: Global, condition: &Condition, columns: &Columns) -> Result<SqlTerm, AllocError>
    ensures { IfOk result (λ t. sql_term t ≡ condition_sql columns.now condition.now) }
{
    match condition {
        Condition::Known(holds) => Ok(truth_term(*holds)),
        Condition::And(left, right) => {
            let right = made(alloc, right, columns);
            let (left, right) = pair_of(made(alloc, left, columns), right)?;
            choice(alloc, left, right, truth_term(false))
        }
        Condition::Or(left, right) => {
            let right = made(alloc, right, columns);
            let (left, right) = pair_of(made(alloc, left, columns), right)?;
            choice(alloc, left, truth_term(true), right)
        }
        Condition::Not(part) => {
            let part = made(alloc, part, columns)?;
            negated(alloc, part)
        }
        Condition::If(test, yes, no) => {
            let yes = made(alloc, yes, columns);
            let branches = pair_of(yes, made(alloc, no, columns));
            let (test, (yes, no)) = pair_of(made(alloc, test, columns), branches)?;
            choice(alloc, test, yes, no)
        }
        Condition::Holds(operand) => holds_or_null(alloc, side_of(operand, columns)),
        Condition::Compare(comparison, first, second) => compared_or_null(
            alloc,
            *comparison,
            side_of(first, columns),
            side_of(second, columns),
        ),
        Condition::In(_, _) => Ok(SqlTerm::Null),
        Condition::Has(of, name) => has_or_null(
            alloc,
            holder_of(of, columns),
            column_at(columns, of, name),
        ),
        Condition::Like(operand, pattern) => {
            liked_or_null(alloc, pattern, side_of(operand, columns))
        }
        Condition::Is(operand, ty) => typed_or_null(alloc, ty, side_of(operand, columns)),
        Condition::Contains(_, _) => Ok(SqlTerm::Null),
    }
}

//! Rows of the type that is asked for.
ghost use Rattle.std.specs.Prelude.{◌≡◌, pos, Some, IfOk, option_map, if◌then◌else◌};
ghost use Rattle.sqlite_value.specs.declared.value.Value.TheVariants as sql;
ghost use Rattle.sqlite_sql.specs.Term.{lit};
ghost use Rattle.cedar_model.specs.Terms.{entity_type};
ghost use Rattle.cedar_names.specs.Names.{type_text};
ghost use Rattle.cedar_names.specs.Leaves.{type_view};
ghost use Rattle.cedar_sql.specs.Terms.{sql_term, equals, number, row_column};
ghost use Rattle.cedar_sql_plan.specs.Types.{typed_term, tested_term};

use crate::terms::{both, equal};
use cedar_fallible::pair_of;
use cedar_names::shared::same_type;
use cedar_names::{EntityType, Type};
use cedar_sql::{RowType, SqlTerm};
use std::alloc::{AllocError, Global};
use std::rc::RcStr;

// The term on rows that can stand for an unknown of this type; on others 0.
pub(crate) fn of_type(
    alloc: Global,
    ty: &Option<Type>,
    table: &RowType,
    term: SqlTerm,
) -> Result<SqlTerm, AllocError>
    ensures { IfOk result (λ t. sql_term t ≡ typed_term (option_map type_view ty.now) table.now (sql_term term)) }
{
    match ty {
        None => Ok(term),
        Some(ty) => of_value_type(alloc, ty, table, term),
    }
}

fn of_value_type(
    alloc: Global,
    ty: &Type,
    table: &RowType,
    term: SqlTerm,
) -> Result<SqlTerm, AllocError>
    ensures { IfOk result (λ t. sql_term t ≡ typed_term (Some (type_view ty.now)) table.now (sql_term term)) }
{
    match ty {
        Type::Bool => Ok(no_row(term)),
        Type::Long => Ok(no_row(term)),
        Type::String => Ok(no_row(term)),
        Type::Set => Ok(no_row(term)),
        Type::Record => Ok(no_row(term)),
        Type::Entity { ty } => of_entity_type(alloc, ty, table, term),
        Type::Extension { .. } => Ok(no_row(term)),
    }
}

// 0, in place of the term.
fn no_row(term: SqlTerm) -> SqlTerm
    ensures { sql_term result ≡ number (pos 0) }
{
    drop(term);
    SqlTerm::Number(0)
}

fn of_entity_type(
    alloc: Global,
    ty: &EntityType,
    table: &RowType,
    term: SqlTerm,
) -> Result<SqlTerm, AllocError>
    ensures { IfOk result
        (λ t. sql_term t ≡ typed_term (Some (entity_type (type_text ty.now))) table.now (sql_term term)) }
{
    match table {
        RowType::One(own) => Ok(where_same(same_type(own, ty), term)),
        RowType::Several(place) => tested(alloc, ty, *place, term),
    }
}

fn where_same(is_same: bool, term: SqlTerm) -> SqlTerm
    ensures { sql_term result ≡ (if is_same then sql_term term else number (pos 0)) }
{
    if is_same { term } else { no_row(term) }
}

// The term, and before it the test of the type that the row has at this place.
fn tested(
    alloc: Global,
    ty: &EntityType,
    place: usize,
    term: SqlTerm,
) -> Result<SqlTerm, AllocError>
    ensures { IfOk result (λ t. sql_term t ≡ tested_term (type_text ty.now) place (sql_term term)) }
{
    let (test, term) = pair_of(type_test(alloc, ty, place), Ok(term))?;
    both(alloc, test, term)
}

fn type_test(alloc: Global, ty: &EntityType, place: usize) -> Result<SqlTerm, AllocError>
    ensures { IfOk result (λ t. sql_term t ≡ equals (row_column place) (lit (sql.Text (type_text ty.now)))) }
{
    let text = RcStr::from_str(alloc, ty.text().as_str())?;
    equal(alloc, SqlTerm::Column(place), SqlTerm::Text(text))
}

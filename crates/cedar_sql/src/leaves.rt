//! What operands are asked, as SQL.
ghost use Rattle.std.specs.Prelude.{◌≡◌, IfOk, Some, option_map, option_copied};
ghost use Rattle.sqlite_sql.specs.Term.{op1, op2};
ghost use Rattle.sqlite_sql.specs.declared.ops.UnaryOp.TheVariants.{IsNull};
ghost use Rattle.cedar_names.specs.Names.{type_text};
ghost use Rattle.cedar_sql.specs.Terms.{sql_term, equals, choose, row_column, compare_operator};
ghost use Rattle.cedar_sql.specs.Sides.{sort_view, leaf_term, side_view};
ghost use Rattle.cedar_sql.specs.Said.{kinship_view, holder_view, with_bool, with_long, with_text, with_entity};
ghost use Rattle.cedar_sql.specs.Said.{with_row, kinship, is_record, record_holder, holder, truth_term, where_there};
ghost use Rattle.cedar_sql.specs.Said.{false_where_there, equal_term, is_long_sort, order_term, sides_term, bool_term};
ghost use Rattle.cedar_sql.specs.Said.{type_term, there_term, has_term, holds_or_null, compared_or_null, typed_or_null};
ghost use Rattle.cedar_sql.specs.Said.{has_or_null};

use crate::columns::{Column, ColumnType, Columns, column_at};
use crate::sides::{Leaf, Side, Sort, number_of};
use crate::terms::{SqlTerm, choice, compared, is_null, negated};
use cedar_fallible::pair_of;
use cedar_filter::{Comparison, Operand};
use cedar_names::EntityType;
use std::alloc::{AllocError, Global};
use std::rc::RcStr;

// Whether values of two sorts can be equal: as their expressions, never, or where the types of the entities are.
#[derive(Clone, Copy)]
pub(crate) enum Kinship<'a> {
    SameSort,
    OtherSort,
    WhereEqual(Leaf<'a>, Leaf<'a>),
}

// What has an attribute: the row, or the record that this column tells of.
#[derive(Clone, Copy)]
pub(crate) enum Holder {
    Row,
    Record(usize),
}

// ---- parts

pub(crate) fn truth_term(holds: bool) -> SqlTerm
    ensures { sql_term result ≡ truth_term holds }
{
    SqlTerm::Number(number_of(holds))
}

pub(crate) fn written(alloc: Global, leaf: Leaf<'_>) -> Result<SqlTerm, AllocError>
    ensures { IfOk result (λ t. sql_term t ≡ leaf_term leaf.entry) }
{
    match leaf {
        Leaf::Number(number) => Ok(SqlTerm::Number(number)),
        Leaf::Text(text) => Ok(SqlTerm::Text(RcStr::from_str(alloc, text)?)),
        Leaf::Column(place) => Ok(SqlTerm::Column(place)),
    }
}

fn null_test(alloc: Global, leaf: Leaf<'_>) -> Result<SqlTerm, AllocError>
    ensures { IfOk result (λ t. sql_term t ≡ op1 IsNull (leaf_term leaf.entry)) }
{
    let part = written(alloc, leaf)?;
    is_null(alloc, part)
}

fn where_there(alloc: Global, leaf: Leaf<'_>, then: SqlTerm) -> Result<SqlTerm, AllocError>
    ensures { IfOk result (λ t. sql_term t ≡ where_there (leaf_term leaf.entry) (sql_term then)) }
{
    let (test, then) = pair_of(null_test(alloc, leaf), Ok(then))?;
    choice(alloc, test, SqlTerm::Null, then)
}

fn false_where_there(
    alloc: Global,
    first: Leaf<'_>,
    second: Leaf<'_>,
) -> Result<SqlTerm, AllocError>
    ensures { IfOk result (λ t. sql_term t ≡ false_where_there (leaf_term first.entry) (leaf_term second.entry)) }
{
    let inner = where_there(alloc, second, truth_term(false))?;
    where_there(alloc, first, inner)
}

fn leaves_compared(
    alloc: Global,
    comparison: Comparison,
    first: Leaf<'_>,
    second: Leaf<'_>,
) -> Result<SqlTerm, AllocError>
    ensures { IfOk result (λ t. sql_term t
        ≡ op2 (compare_operator comparison) (leaf_term first.entry) (leaf_term second.entry)) }
{
    let (first, second) = pair_of(written(alloc, first), written(alloc, second))?;
    compared(alloc, comparison, first, second)
}

// ---- comparisons

fn kinship_of<'a>(first: Sort<'a>, second: Sort<'a>) -> Kinship<'a>
    ensures { kinship_view result ≡ kinship (sort_view first.entry) (sort_view second.entry) }
{
    match first {
        Sort::Bool => with_bool(second),
        Sort::Long => with_long(second),
        Sort::Text => with_text(second),
        Sort::Entity(ty) => with_entity(ty, second),
        Sort::Row(place) => with_row(place, second),
    }
}

fn with_bool<'a>(sort: Sort<'a>) -> Kinship<'a>
    ensures { kinship_view result ≡ with_bool (sort_view sort.entry) }
{
    match sort {
        Sort::Bool => Kinship::SameSort,
        Sort::Long => Kinship::OtherSort,
        Sort::Text => Kinship::OtherSort,
        Sort::Entity(_) => Kinship::OtherSort,
        Sort::Row(_) => Kinship::OtherSort,
    }
}

fn with_long<'a>(sort: Sort<'a>) -> Kinship<'a>
    ensures { kinship_view result ≡ with_long (sort_view sort.entry) }
{
    match sort {
        Sort::Bool => Kinship::OtherSort,
        Sort::Long => Kinship::SameSort,
        Sort::Text => Kinship::OtherSort,
        Sort::Entity(_) => Kinship::OtherSort,
        Sort::Row(_) => Kinship::OtherSort,
    }
}

fn with_text<'a>(sort: Sort<'a>) -> Kinship<'a>
    ensures { kinship_view result ≡ with_text (sort_view sort.entry) }
{
    match sort {
        Sort::Bool => Kinship::OtherSort,
        Sort::Long => Kinship::OtherSort,
        Sort::Text => Kinship::SameSort,
        Sort::Entity(_) => Kinship::OtherSort,
        Sort::Row(_) => Kinship::OtherSort,
    }
}

fn with_entity<'a>(ty: &'a str, sort: Sort<'a>) -> Kinship<'a>
    ensures { kinship_view result ≡ with_entity ty.now (sort_view sort.entry) }
{
    match sort {
        Sort::Bool => Kinship::OtherSort,
        Sort::Long => Kinship::OtherSort,
        Sort::Text => Kinship::OtherSort,
        Sort::Entity(other) => {
            if ty == other {
                Kinship::SameSort
            } else {
                Kinship::OtherSort
            }
        }
        Sort::Row(place) => Kinship::WhereEqual(Leaf::Text(ty), Leaf::Column(place)),
    }
}

fn with_row<'a>(place: usize, sort: Sort<'a>) -> Kinship<'a>
    ensures { kinship_view result ≡ with_row place (sort_view sort.entry) }
{
    match sort {
        Sort::Bool => Kinship::OtherSort,
        Sort::Long => Kinship::OtherSort,
        Sort::Text => Kinship::OtherSort,
        Sort::Entity(ty) => Kinship::WhereEqual(Leaf::Column(place), Leaf::Text(ty)),
        Sort::Row(other) => Kinship::WhereEqual(Leaf::Column(place), Leaf::Column(other)),
    }
}

fn equal_term(alloc: Global, first: Side<'_>, second: Side<'_>) -> Result<SqlTerm, AllocError>
    ensures { IfOk result (λ t. sql_term t ≡ equal_term (side_view first.entry) (side_view second.entry)) }
{
    match kinship_of(first.sort, second.sort) {
        Kinship::SameSort => leaves_compared(alloc, Comparison::Equal, first.leaf, second.leaf),
        Kinship::OtherSort => false_where_there(alloc, first.leaf, second.leaf),
        Kinship::WhereEqual(ty, other) => {
            let test = leaves_compared(alloc, Comparison::Equal, ty, other)?;
            equal_where(alloc, test, first.leaf, second.leaf)
        }
    }
}

// Equality, where the test is true.
fn equal_where(
    alloc: Global,
    test: SqlTerm,
    first: Leaf<'_>,
    second: Leaf<'_>,
) -> Result<SqlTerm, AllocError>
    ensures { IfOk result (λ t. sql_term t ≡ choose (sql_term test)
        (equals (leaf_term first.entry) (leaf_term second.entry))
        (false_where_there (leaf_term first.entry) (leaf_term second.entry))) }
{
    let equal = leaves_compared(alloc, Comparison::Equal, first, second);
    let branches = pair_of(equal, false_where_there(alloc, first, second));
    let (test, (equal, never)) = pair_of(Ok(test), branches)?;
    choice(alloc, test, equal, never)
}

fn is_long(sort: Sort<'_>) -> bool
    ensures { result ≡ is_long_sort (sort_view sort.entry) }
{
    match sort {
        Sort::Bool => false,
        Sort::Long => true,
        Sort::Text => false,
        Sort::Entity(_) => false,
        Sort::Row(_) => false,
    }
}

fn order_term(
    alloc: Global,
    comparison: Comparison,
    first: Side<'_>,
    second: Side<'_>,
) -> Result<SqlTerm, AllocError>
    ensures { IfOk result (λ t. sql_term t ≡ order_term comparison (side_view first.entry) (side_view second.entry)) }
{
    if is_long(first.sort) && is_long(second.sort) {
        leaves_compared(alloc, comparison, first.leaf, second.leaf)
    } else {
        Ok(SqlTerm::Null)
    }
}

fn sides_term(
    alloc: Global,
    comparison: Comparison,
    first: Side<'_>,
    second: Side<'_>,
) -> Result<SqlTerm, AllocError>
    ensures { IfOk result (λ t. sql_term t ≡ sides_term comparison (side_view first.entry) (side_view second.entry)) }
{
    match comparison {
        Comparison::Equal => equal_term(alloc, first, second),
        Comparison::Less => order_term(alloc, Comparison::Less, first, second),
        Comparison::LessEq => order_term(alloc, Comparison::LessEq, first, second),
    }
}

pub(crate) fn compared_or_null(
    alloc: Global,
    comparison: Comparison,
    first: Option<Side<'_>>,
    second: Option<Side<'_>>,
) -> Result<SqlTerm, AllocError>
    ensures { IfOk result (λ t. sql_term t
        ≡ compared_or_null comparison (option_map side_view first.entry) (option_map side_view second.entry)) }
{
    match first {
        None => Ok(SqlTerm::Null),
        Some(first) => match second {
            None => Ok(SqlTerm::Null),
            Some(second) => sides_term(alloc, comparison, first, second),
        },
    }
}

// ---- attributes that hold, and types

pub(crate) fn holds_or_null(alloc: Global, side: Option<Side<'_>>) -> Result<SqlTerm, AllocError>
    ensures { IfOk result (λ t. sql_term t ≡ holds_or_null (option_map side_view side.entry)) }
{
    match side {
        None => Ok(SqlTerm::Null),
        Some(side) => bool_term(alloc, side.sort, side.leaf),
    }
}

fn bool_term(alloc: Global, sort: Sort<'_>, leaf: Leaf<'_>) -> Result<SqlTerm, AllocError>
    ensures { IfOk result (λ t. sql_term t ≡ bool_term (sort_view sort.entry) (leaf_term leaf.entry)) }
{
    match sort {
        Sort::Bool => written(alloc, leaf),
        Sort::Long => Ok(SqlTerm::Null),
        Sort::Text => Ok(SqlTerm::Null),
        Sort::Entity(_) => Ok(SqlTerm::Null),
        Sort::Row(_) => Ok(SqlTerm::Null),
    }
}

pub(crate) fn typed_or_null(
    alloc: Global,
    ty: &EntityType,
    side: Option<Side<'_>>,
) -> Result<SqlTerm, AllocError>
    ensures { IfOk result (λ t. sql_term t ≡ typed_or_null (type_text ty.now) (option_map side_view side.entry)) }
{
    match side {
        None => Ok(SqlTerm::Null),
        Some(side) => type_term(alloc, ty.text().as_str(), side.sort, side.leaf),
    }
}

fn type_term(alloc: Global, ty: &str, sort: Sort<'_>, leaf: Leaf<'_>) -> Result<SqlTerm, AllocError>
    ensures { IfOk result (λ t. sql_term t ≡ type_term ty.now (sort_view sort.entry) (leaf_term leaf.entry)) }
{
    match sort {
        Sort::Bool => Ok(SqlTerm::Null),
        Sort::Long => Ok(SqlTerm::Null),
        Sort::Text => Ok(SqlTerm::Null),
        Sort::Entity(its_type) => where_there(alloc, leaf, truth_term(its_type == ty)),
        Sort::Row(place) => leaves_compared(
            alloc,
            Comparison::Equal,
            Leaf::Column(place),
            Leaf::Text(ty),
        ),
    }
}

// ---- whether an attribute is there

pub(crate) fn holder_of(operand: &Operand, columns: &Columns) -> Option<Holder>
    ensures { option_map holder_view result ≡ holder columns.now operand.now }
{
    match operand {
        Operand::Known(_) => None,
        Operand::Row => Some(Holder::Row),
        Operand::Attribute(of, name) => match column_at(columns, of, name) {
            None => None,
            Some(column) => record_holder(column),
        },
    }
}

fn record_holder(column: &Column) -> Option<Holder>
    ensures { option_map holder_view result ≡ record_holder (Some column.now) }
{
    if is_record(&column.holds) {
        Some(Holder::Record(column.place))
    } else {
        None
    }
}

fn is_record(holds: &ColumnType) -> bool
    ensures { result ≡ is_record holds.now }
{
    match holds {
        ColumnType::Bool => false,
        ColumnType::Long => false,
        ColumnType::String => false,
        ColumnType::Entity(_) => false,
        ColumnType::Record => true,
    }
}

pub(crate) fn has_or_null(
    alloc: Global,
    holder: Option<Holder>,
    column: Option<&Column>,
) -> Result<SqlTerm, AllocError>
    ensures { IfOk result (λ t. sql_term t
        ≡ has_or_null (option_map holder_view holder) (option_copied column.entry)) }
{
    match holder {
        None => Ok(SqlTerm::Null),
        Some(holder) => match column {
            None => Ok(SqlTerm::Null),
            Some(column) => has_term(alloc, holder, column.place),
        },
    }
}

fn has_term(alloc: Global, holder: Holder, place: usize) -> Result<SqlTerm, AllocError>
    ensures { IfOk result (λ t. sql_term t ≡ has_term (holder_view holder) place) }
{
    match holder {
        Holder::Row => there_term(alloc, place),
        Holder::Record(of) => {
            let there = there_term(alloc, place)?;
            where_there(alloc, Leaf::Column(of), there)
        }
    }
}

fn there_term(alloc: Global, place: usize) -> Result<SqlTerm, AllocError>
    ensures { IfOk result (λ t. sql_term t ≡ there_term (row_column place)) }
{
    let absent = null_test(alloc, Leaf::Column(place))?;
    negated(alloc, absent)
}

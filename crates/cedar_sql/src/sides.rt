//! How an operand of a condition is written in SQL.
ghost use Rattle.std.specs.Prelude.{◌≡◌, true, false, Some, option_map, option_copied};
ghost use Rattle.cedar_names.specs.Leaves.{literal_view};
ghost use Rattle.cedar_sql.specs.Sides.{sort_view, leaf_term, side_view, has_nul, text_side, literal_side, known_side};
ghost use Rattle.cedar_sql.specs.Sides.{row_sort_of, column_sort, column_side, operand_side, side};
ghost use Rattle.sqlite_sql.specs.Ops.{from_truth};
ghost use Rattle.sqlite_sql.specs.Term.{lit};
ghost use Rattle.cedar_sql.specs.Terms.{number, row_column};

use crate::columns::{Column, ColumnType, Columns, RowType, column_at};
use cedar_filter::Operand;
use cedar_names::Literal;
use cedar_values::{Value, ValueKind};

// Of which sort a value is. An entity is of this type, or of the one that the row holds in a column.
#[derive(Clone, Copy)]
pub(crate) enum Sort<'a> {
    Bool,
    Long,
    Text,
    Entity(&'a str),
    Row(usize),
}

// An expression without parts.
#[derive(Clone, Copy)]
pub(crate) enum Leaf<'a> {
    Number(i64),
    Text(&'a str),
    Column(usize),
}

// An operand: of an entity the id.
#[derive(Clone, Copy)]
pub(crate) struct Side<'a> {
    pub sort: Sort<'a>,
    pub leaf: Leaf<'a>,
}

pub(crate) fn side_of<'a>(operand: &'a Operand, columns: &'a Columns) -> Option<Side<'a>>
    ensures { option_map side_view result ≡ operand_side columns.now operand.now }
{
    match operand {
        Operand::Known(value) => side_of_value(value),
        Operand::Row => Some(Side {
            sort: sort_of_row(&columns.entity_type),
            leaf: Leaf::Column(columns.id),
        }),
        Operand::Attribute(of, name) => match column_at(columns, of, name) {
            None => None,
            Some(column) => side_of_column(column),
        },
    }
}

fn side_of_value(value: &Value) -> Option<Side<'_>>
    ensures { option_map side_view result ≡ known_side value.now.what }
{
    match value.value_kind() {
        ValueKind::Lit(literal) => side_of_literal(literal),
        ValueKind::Set(_) => None,
        ValueKind::Record(_) => None,
        ValueKind::ExtensionValue(_) => None,
    }
}

#[tactic(auto, using(crate::proofs::Encoded::text_is_utf8))]
fn side_of_literal(literal: &Literal) -> Option<Side<'_>>
    ensures { option_map side_view result ≡ literal_side (literal_view literal.now) }
{
    match literal {
        Literal::Bool(holds) => Some(Side {
            sort: Sort::Bool,
            leaf: Leaf::Number(number_of(*holds)),
        }),
        Literal::Long(number) => Some(Side {
            sort: Sort::Long,
            leaf: Leaf::Number(*number),
        }),
        Literal::String(text) => side_of_text(Sort::Text, text.as_str()),
        Literal::EntityUID(uid) => side_of_text(
            Sort::Entity(uid.entity_type().text().as_str()),
            uid.eid().as_str(),
        ),
    }
}

fn side_of_text<'a>(sort: Sort<'a>, text: &'a str) -> Option<Side<'a>>
    ensures { option_map side_view result ≡ text_side (sort_view sort.entry) text.now }
{
    if has_nul(text) {
        None
    } else {
        Some(Side {
            sort,
            leaf: Leaf::Text(text),
        })
    }
}

// Whether the text has a NUL, which no text in SQL can be written with.
pub(crate) fn has_nul(text: &str) -> bool
    ensures { result ≡ has_nul text.now }
{
    text.as_bytes().contains(&0)
}

fn sort_of_row(entity_type: &RowType) -> Sort<'_>
    ensures { sort_view result ≡ row_sort_of entity_type.now }
{
    match entity_type {
        RowType::One(ty) => Sort::Entity(ty.text().as_str()),
        RowType::Several(place) => Sort::Row(*place),
    }
}

fn side_of_column(column: &Column) -> Option<Side<'_>>
    ensures { option_map side_view result ≡ column_side column.now }
{
    match sort_of_column(&column.holds) {
        None => None,
        Some(sort) => Some(Side {
            sort,
            leaf: Leaf::Column(column.place),
        }),
    }
}

fn sort_of_column(holds: &ColumnType) -> Option<Sort<'_>>
    ensures { option_map sort_view result ≡ column_sort holds.now }
{
    match holds {
        ColumnType::Bool => Some(Sort::Bool),
        ColumnType::Long => Some(Sort::Long),
        ColumnType::String => Some(Sort::Text),
        ColumnType::Entity(ty) => Some(Sort::Entity(ty.text().as_str())),
        ColumnType::Record => None,
    }
}

// A bool, as SQL has it.
pub(crate) fn number_of(holds: bool) -> i64
    ensures { number result ≡ lit (from_truth (Some holds)) }
{
    if holds { 1 } else { 0 }
}

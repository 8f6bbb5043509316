//! The columns of a table whose rows stand for entities, and what the table and they are called.
ghost use Rattle.std.specs.Prelude.{◌≡◌, option_copied};
ghost use Rattle.std.specs.Rc.{rc_str_bytes};
ghost use Rattle.cedar_sql.specs.Columns.{same_operand, is_attribute, column_at};

use cedar_filter::Operand;
use cedar_names::EntityType;
use cedar_names::shared::same_text;
use std::rc::RcStr;

/// What a column holds; NULL, where there is nothing.
#[derive(Drop)]
pub enum ColumnType {
    /// A Bool: the INTEGER 1 or 0.
    Bool,
    /// A Long: an INTEGER.
    Long,
    /// A String: a TEXT in UTF-8, compared by its bytes (BINARY).
    String,
    /// An entity of this type: its id, a TEXT.
    Entity(EntityType),
    /// A record, whose attributes have columns of their own: the INTEGER 1.
    Record,
}

/// An attribute of the entity, or of a record in it, and the column that holds it.
#[derive(Drop)]
pub struct Column {
    /// The attribute, as a condition reads it: `Operand::Attribute`, of the row or of such an attribute.
    pub attribute: Operand,
    /// What the column holds.
    pub holds: ColumnType,
    /// The place of the column in the row. In rows of the kit's tables the rowid is at 0, and the first column at 1.
    pub place: usize,
}

/// The type of the entities in a table.
#[derive(Drop)]
pub enum RowType {
    /// Each is of this type.
    One(EntityType),
    /// The column at this place holds the text of the type, a TEXT, as `App::User`.
    Several(usize),
}

/// Which columns of a table hold what of an entity.
#[derive(Drop)]
pub struct Columns {
    /// The place of the column that holds the id, a TEXT.
    pub id: usize,
    /// The entity's type.
    pub entity_type: RowType,
    /// The attributes, each with its column. Of two columns of one attribute the first is read.
    pub attributes: Vec<Column>,
}

/// What a table and its columns are called in SQL.
#[derive(Drop)]
pub struct TableNames {
    /// The name of the table in the query, or its alias: each column is written with it.
    pub table: RcStr,
    /// The name of the column at each place, in order; in the kit's tables the first is `rowid`.
    pub columns: Vec<RcStr>,
}

fn same_operand(operand: &Operand, other: &Operand) -> bool
    ensures { result ≡ same_operand operand.now other.now }
{
    match operand {
        Operand::Known(_) => false,
        Operand::Row => match other {
            Operand::Known(_) => false,
            Operand::Row => true,
            Operand::Attribute(_, _) => false,
        },
        Operand::Attribute(of, name) => match other {
            Operand::Known(_) => false,
            Operand::Row => false,
            Operand::Attribute(of_other, name_of_other) => {
                same_text(name, name_of_other) && same_operand(of, of_other)
            }
        },
    }
}

// Whether it is the attribute of this name, of this operand.
fn is_attribute(attribute: &Operand, of: &Operand, name: &RcStr) -> bool
    ensures { result ≡ is_attribute attribute.now of.now (rc_str_bytes name.now) }
{
    match attribute {
        Operand::Known(_) => false,
        Operand::Row => false,
        Operand::Attribute(of_it, its_name) => same_text(its_name, name) && same_operand(of_it, of),
    }
}

// The column of an attribute.
pub(crate) fn column_at<'a>(columns: &'a Columns, of: &Operand, name: &RcStr) -> Option<&'a Column>
    ensures { option_copied result ≡ column_at columns.now.attributes.items of.now (rc_str_bytes name.now) }
{
    column_among(&columns.attributes, of, name)
}

fn column_among<'a>(columns: &'a Vec<Column>, of: &Operand, name: &RcStr) -> Option<&'a Column>
    ensures { option_copied result ≡ column_at columns.now.items of.now (rc_str_bytes name.now) }
{
    'columns: for column in columns {
        if is_attribute(&column.attribute, of, name) {
            return Some(column);
        }
    }
    None
}

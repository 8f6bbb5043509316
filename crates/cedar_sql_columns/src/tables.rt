#![tactic(auto, using(crate::proofs::Views::views, crate::proofs::Refused::refusals))]
//! Tables: the columns of the id and of the type, and those of attributes.
ghost use Rattle.std.specs.Prelude.{◌≡◌, ◌≤◌, [], ◌∷◌, ◌++◌, Some, None, Ok, map, codes, OnOk, IfOk, IfErr};
ghost use Rattle.std.specs.Rc.{rc_str_bytes};
ghost use Rattle.json.specs.Find.{as_str, as_object};
ghost use Rattle.json.specs.Strict.{keys};
ghost use Rattle.json.specs.Value.{value_view, members_view};
ghost use Rattle.cedar_sql_columns.specs.Paths.{at_key};
ghost use Rattle.cedar_sql_columns.specs.Refusals.{IsRefusal, IsMemory, under, made_of};
ghost use Rattle.cedar_sql_columns.specs.Said as says;
ghost use Rattle.cedar_sql_columns.specs.Tables.{column_view, types_view, table_view, type_view};

use crate::columns::{read_columns, type_named};
use crate::errors::{ColumnsError, RefusalReason};
use crate::names::name_at;
use crate::shapes::{four_members, object, one_member};
use cedar_sql::{Column, Columns, RowType, TableNames};
use json::Value;
use std::alloc::Global;
use std::rc::RcStr;

/// A table whose rows stand for entities.
#[derive(Drop)]
pub struct SqlTable {
    /// Which columns hold what.
    pub columns: Columns,
    /// What the table is called, and the column at each place, from `rowid` on, as `term_to_sql` of `cedar_sql` takes them.
    pub names: TableNames,
}

/// The type of all entities, or the name of the column that holds the type of each.
#[derive(Clone, Copy)]
pub(crate) enum TypeNamed<'a> {
    AllOf(&'a str),
    HeldIn(&'a str),
}

/// The table that an object of a `table`, an `id`, a `type` and `columns` says.
pub(crate) fn read_table(alloc: Global, value: &Value<'_>) -> Result<SqlTable, ColumnsError>
    ensures said { IfOk result (λ t. says.table_said (value_view value.now) ≡ Ok (table_view t)) }
    ensures refused { IfErr result (IsRefusal (says.table_said (value_view value.now))) }
{
    match four_members(alloc, value, "table", "id", "type", "columns") {
        Ok((table, id, ty, columns)) => table_of(alloc, table, id, ty, columns),
        Err(error) => Err(error),
    }
}

fn table_of(
    alloc: Global,
    table: &Value<'_>,
    id: &Value<'_>,
    ty: &Value<'_>,
    columns: &Value<'_>,
) -> Result<SqlTable, ColumnsError>
    ensures said { IfOk result (λ t. says.table_parts
        (value_view table.now, value_view id.now, value_view ty.now, value_view columns.now) ≡ Ok (table_view t)) }
    ensures refused { IfErr result (IsRefusal (says.table_parts
        (value_view table.now, value_view id.now, value_view ty.now, value_view columns.now))) }
{
    match name_at(alloc, "table", table) {
        Ok(table) => with_table(alloc, table, id, ty, columns),
        Err(error) => Err(error),
    }
}

fn with_table(
    alloc: Global,
    table: &str,
    id: &Value<'_>,
    ty: &Value<'_>,
    columns: &Value<'_>,
) -> Result<SqlTable, ColumnsError>
    ensures said { IfOk result (λ t. says.with_table (value_view id.now) (value_view ty.now)
        (value_view columns.now) table.now ≡ Ok (table_view t)) }
    ensures refused { IfErr result (IsRefusal
        (says.with_table (value_view id.now) (value_view ty.now) (value_view columns.now) table.now)) }
{
    match name_at(alloc, "id", id) {
        Ok(id) => with_id(alloc, table, id, ty, columns),
        Err(error) => Err(error),
    }
}

fn with_id(
    alloc: Global,
    table: &str,
    id: &str,
    ty: &Value<'_>,
    columns: &Value<'_>,
) -> Result<SqlTable, ColumnsError>
    ensures said { IfOk result
        (λ t. says.with_id table.now (value_view ty.now) (value_view columns.now) id.now ≡ Ok (table_view t)) }
    ensures refused { IfErr result
        (IsRefusal (says.with_id table.now (value_view ty.now) (value_view columns.now) id.now)) }
{
    match type_at(alloc, ty) {
        Ok(ty) => with_type(alloc, table, id, ty, columns),
        Err(error) => Err(error),
    }
}

fn with_type(
    alloc: Global,
    table: &str,
    id: &str,
    ty: TypeNamed<'_>,
    columns: &Value<'_>,
) -> Result<SqlTable, ColumnsError>
    ensures said { IfOk result
        (λ t. says.with_type table.now id.now (value_view columns.now) (type_view ty.entry) ≡ Ok (table_view t)) }
    ensures refused { IfErr result
        (IsRefusal (says.with_type table.now id.now (value_view columns.now) (type_view ty.entry))) }
{
    match with_columns(alloc, table, id, ty, columns) {
        Ok(table) => Ok(table),
        Err(error) => Err(error.under_key(alloc, "columns")),
    }
}

fn with_columns(
    alloc: Global,
    table: &str,
    id: &str,
    ty: TypeNamed<'_>,
    columns: &Value<'_>,
) -> Result<SqlTable, ColumnsError>
    ensures said { IfOk result
        (λ t. says.with_members table.now id.now (type_view ty.entry) (as_object (value_view columns.now))
        ≡ Ok (table_view t)) }
    ensures refused { IfErr result
        (IsRefusal (says.with_members table.now id.now (type_view ty.entry) (as_object (value_view columns.now)))) }
{
    match object(columns) {
        Some(members) => with_members(alloc, table, id, ty, members),
        None => Err(ColumnsError::refusal(alloc, RefusalReason::NotAnObject)),
    }
}

fn with_members<'a>(
    alloc: Global,
    table: &str,
    id: &str,
    ty: TypeNamed<'_>,
    members: &Vec<(&'a str, Value<'a>)>,
) -> Result<SqlTable, ColumnsError>
    ensures said { IfOk result
        (λ t. says.with_members table.now id.now (type_view ty.entry) (Some (members_view members.now.items))
        ≡ Ok (table_view t)) }
    ensures refused { IfErr result (IsRefusal
        (says.with_members table.now id.now (type_view ty.entry) (Some (members_view members.now.items)))) }
{
    match read_columns(alloc, members, first_place(ty)) {
        Ok(attributes) => named_table(alloc, table, id, ty, members, attributes),
        Err(error) => Err(error),
    }
}

// The place of the first attribute.
fn first_place(ty: TypeNamed<'_>) -> usize
    ensures is { result ≡ says.first_place (type_view ty.entry) }
    ensures small { result ≤ 3 }
{
    match ty {
        TypeNamed::AllOf(_) => 2,
        TypeNamed::HeldIn(_) => 3,
    }
}

fn named_table<'a>(
    alloc: Global,
    table: &str,
    id: &str,
    ty: TypeNamed<'_>,
    members: &Vec<(&'a str, Value<'a>)>,
    attributes: Vec<Column>,
) -> Result<SqlTable, ColumnsError>
    ensures said { IfOk result (λ t. table_view t
        ≡ says.table_of table.now id.now (type_view ty.entry) (keys (members_view members.now.items))
        (map column_view attributes.items)) }
    ensures memory { IfErr result IsMemory }
{
    match row_type(alloc, ty) {
        Ok(entity_type) => {
            let columns = Columns {
                id: 1,
                entity_type,
                attributes,
            };
            with_names(alloc, table, id, ty, members, columns)
        }
        Err(error) => {
            drop(attributes);
            Err(error)
        }
    }
}

fn with_names<'a>(
    alloc: Global,
    table: &str,
    id: &str,
    ty: TypeNamed<'_>,
    members: &Vec<(&'a str, Value<'a>)>,
    columns: Columns,
) -> Result<SqlTable, ColumnsError>
    ensures columns { IfOk result (λ t. t.columns ≡ columns) }
    ensures table { IfOk result (λ t. rc_str_bytes t.names.table ≡ table.now) }
    ensures names { IfOk result (λ t. map rc_str_bytes t.names.columns.items ≡ codes "rowid" ∷ id.now
        ∷ (says.type_names (type_view ty.entry) ++ keys (members_view members.now.items))) }
    ensures memory { IfErr result IsMemory }
{
    match all_names(alloc, table, id, ty, members) {
        Ok(names) => Ok(SqlTable { columns, names }),
        Err(error) => {
            drop(columns);
            Err(error)
        }
    }
}

fn row_type(alloc: Global, ty: TypeNamed<'_>) -> Result<RowType, ColumnsError>
    ensures said { IfOk result (λ r. types_view r ≡ says.types_of (type_view ty.entry)) }
    ensures memory { IfErr result IsMemory }
{
    match ty {
        TypeNamed::AllOf(name) => one_type(alloc, name),
        TypeNamed::HeldIn(_) => Ok(RowType::Several(2)),
    }
}

fn one_type(alloc: Global, name: &str) -> Result<RowType, ColumnsError>
    ensures said { IfOk result (λ r. types_view r ≡ says.of_one name.now) }
    ensures memory { IfErr result IsMemory }
{
    match type_named(alloc, name) {
        Ok(ty) => Ok(RowType::One(ty)),
        Err(error) => Err(error),
    }
}

// ---- the type

// What stands at `type`.
fn type_at<'a>(alloc: Global, value: &Value<'a>) -> Result<TypeNamed<'a>, ColumnsError>
    ensures said { IfOk result
        (λ t. under (at_key (codes "type")) (says.type_said (value_view value.now)) ≡ Ok (type_view t)) }
    ensures refused { IfErr result
        (IsRefusal (under (at_key (codes "type")) (says.type_said (value_view value.now)))) }
{
    match read_type(alloc, value) {
        Ok(ty) => Ok(ty),
        Err(error) => Err(error.under_key(alloc, "type")),
    }
}

fn read_type<'a>(alloc: Global, value: &Value<'a>) -> Result<TypeNamed<'a>, ColumnsError>
    ensures said { IfOk result (λ t. says.type_said (value_view value.now) ≡ Ok (type_view t)) }
    ensures refused { IfErr result (IsRefusal (says.type_said (value_view value.now))) }
{
    match value.as_str() {
        Some(name) => Ok(TypeNamed::AllOf(name)),
        None => type_column(alloc, value),
    }
}

// The column at `column`.
fn type_column<'a>(alloc: Global, value: &Value<'a>) -> Result<TypeNamed<'a>, ColumnsError>
    ensures said { IfOk result (λ t. says.type_by (value_view value.now) None ≡ Ok (type_view t)) }
    ensures refused { IfErr result (IsRefusal (says.type_by (value_view value.now) None)) }
{
    match one_member(alloc, value, "column") {
        Ok(name) => column_named(alloc, name),
        Err(error) => Err(error),
    }
}

fn column_named<'a>(alloc: Global, value: &Value<'a>) -> Result<TypeNamed<'a>, ColumnsError>
    ensures said { IfOk result
        (λ t. made_of says.held_in (says.name_under (codes "column") (value_view value.now)) ≡ Ok (type_view t)) }
    ensures refused { IfErr result
        (IsRefusal (made_of says.held_in (says.name_under (codes "column") (value_view value.now)))) }
{
    match name_at(alloc, "column", value) {
        Ok(name) => Ok(TypeNamed::HeldIn(name)),
        Err(error) => Err(error),
    }
}

// ---- names

fn all_names<'a>(
    alloc: Global,
    table: &str,
    id: &str,
    ty: TypeNamed<'_>,
    members: &Vec<(&'a str, Value<'a>)>,
) -> Result<TableNames, ColumnsError>
    ensures table { IfOk result (λ n. rc_str_bytes n.table ≡ table.now) }
    ensures columns { IfOk result (λ n. map rc_str_bytes n.columns.items ≡ codes "rowid" ∷ id.now
        ∷ (says.type_names (type_view ty.entry) ++ keys (members_view members.now.items))) }
    ensures memory { IfErr result IsMemory }
{
    match column_names(alloc, id, ty, members) {
        Ok(columns) => with_name(alloc, table, columns),
        Err(error) => Err(error),
    }
}

fn with_name(alloc: Global, table: &str, columns: Vec<RcStr>) -> Result<TableNames, ColumnsError>
    ensures table { IfOk result (λ n. rc_str_bytes n.table ≡ table.now) }
    ensures columns { IfOk result (λ n. n.columns ≡ columns) }
    ensures memory { IfErr result IsMemory }
{
    match RcStr::from_str(alloc, table) {
        Ok(table) => Ok(TableNames { table, columns }),
        Err(error) => {
            drop(columns);
            Err(ColumnsError::Memory(error))
        }
    }
}

fn column_names<'a>(
    alloc: Global,
    id: &str,
    ty: TypeNamed<'_>,
    members: &Vec<(&'a str, Value<'a>)>,
) -> Result<Vec<RcStr>, ColumnsError>
    ensures said { IfOk result (λ v. map rc_str_bytes v.items ≡ codes "rowid" ∷ id.now
        ∷ (says.type_names (type_view ty.entry) ++ keys (members_view members.now.items))) }
    ensures memory { IfErr result IsMemory }
{
    let mut names: Vec<RcStr> = Vec::new(alloc);
    match put_names(alloc, id, ty, members, &mut names) {
        Ok(()) => Ok(names),
        Err(error) => {
            drop(names);
            Err(error)
        }
    }
}

fn put_names<'a>(
    alloc: Global,
    id: &str,
    ty: TypeNamed<'_>,
    members: &Vec<(&'a str, Value<'a>)>,
    names: &mut Vec<RcStr>,
) -> Result<(), ColumnsError>
    requires { names.old.items ≡ [] }
    ensures said { OnOk result (map rc_str_bytes names.new.items ≡ codes "rowid" ∷ id.now
        ∷ (says.type_names (type_view ty.entry) ++ keys (members_view members.now.items))) }
    ensures memory { IfErr result IsMemory }
{
    put_name(alloc, "rowid", names)?;
    put_name(alloc, id, names)?;
    put_type_name(alloc, ty, names)?;
    put_keys(alloc, members, names)
}

fn put_type_name(
    alloc: Global,
    ty: TypeNamed<'_>,
    names: &mut Vec<RcStr>,
) -> Result<(), ColumnsError>
    ensures said { OnOk result (map rc_str_bytes names.new.items
        ≡ map rc_str_bytes names.old.items ++ says.type_names (type_view ty.entry)) }
    ensures memory { IfErr result IsMemory }
{
    match ty {
        TypeNamed::AllOf(_) => Ok(()),
        TypeNamed::HeldIn(name) => put_name(alloc, name, names),
    }
}

fn put_keys<'a>(
    alloc: Global,
    members: &Vec<(&'a str, Value<'a>)>,
    names: &mut Vec<RcStr>,
) -> Result<(), ColumnsError>
    ensures said { OnOk result (map rc_str_bytes names.new.items
        ≡ map rc_str_bytes names.old.items ++ keys (members_view members.now.items)) }
    ensures memory { IfErr result IsMemory }
{
    'members: for member in members {
        put_name(alloc, member.0, names)?;
    }
    Ok(())
}

fn put_name(alloc: Global, name: &str, names: &mut Vec<RcStr>) -> Result<(), ColumnsError>
    ensures said { OnOk result
        (map rc_str_bytes names.new.items ≡ map rc_str_bytes names.old.items ++ name.now ∷ []) }
    ensures memory { IfErr result IsMemory }
{
    match RcStr::from_str(alloc, name) {
        Ok(name) => match names.push(name) {
            Ok(()) => Ok(()),
            Err(failed) => Err(ColumnsError::from(failed)),
        },
        Err(error) => Err(ColumnsError::Memory(error)),
    }
}

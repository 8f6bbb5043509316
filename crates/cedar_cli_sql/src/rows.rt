//! Which unknown the rows of a table stand for.
ghost use Rattle.std.specs.Prelude.{◌≡◌, Some, option_map, IfOk};
ghost use Rattle.cedar_model.specs.Terms.{unknown, entity_type};
ghost use Rattle.cedar_names.specs.Names.{type_text};
ghost use Rattle.cedar_names.specs.Leaves.{type_view};
ghost use Rattle.cedar_filter.specs.Filters.{row_term};
ghost use Rattle.cedar_requests.specs.Requests.{entry_view, request_view};
ghost use Rattle.cedar_cli_sql.specs.Rows.{unknown_of, row_in, fits, row_fits};

use cedar_names::shared::same_type;
use cedar_policy_core::ast::{EntityType, EntityUIDEntry, Request, Type, Unknown};
use cedar_sql::RowType;
use std::alloc::{AllocError, Global};
use std::rc::RcStr;

/// The unknown that the rows stand for: the resource or, where that is known, the principal; none, where both are.
pub(crate) fn row_of(alloc: Global, request: &Request) -> Result<Option<Unknown>, AllocError>
    ensures { IfOk result (λ u. option_map row_term u ≡ row_in (request_view request.now)) }
{
    match unknown_of(alloc, request.resource(), "resource")? {
        Some(row) => Ok(Some(row)),
        None => unknown_of(alloc, request.principal(), "principal"),
    }
}

fn unknown_of(
    alloc: Global,
    entry: &EntityUIDEntry,
    name: &str,
) -> Result<Option<Unknown>, AllocError>
    ensures { IfOk result (λ u. option_map row_term u ≡ unknown_of name.now (entry_view entry.now)) }
{
    match entry {
        EntityUIDEntry::Known { euid: _, loc: _ } => Ok(None),
        EntityUIDEntry::Unknown { ty, loc: _ } => Ok(Some(unknown_named(alloc, name, ty)?)),
    }
}

fn unknown_named(alloc: Global, name: &str, ty: &Option<EntityType>) -> Result<Unknown, AllocError>
    ensures { IfOk result
        (λ u. row_term u ≡ unknown name.now (option_map entity_type (option_map type_text ty.now))) }
{
    match ty {
        Some(ty) => unknown_typed(alloc, name, ty),
        None => {
            let name = RcStr::from_str(alloc, name)?;
            Ok(Unknown {
                name,
                type_annotation: None,
            })
        }
    }
}

fn unknown_typed(alloc: Global, name: &str, ty: &EntityType) -> Result<Unknown, AllocError>
    ensures { IfOk result (λ u. row_term u ≡ unknown name.now (Some (entity_type (type_text ty.now)))) }
{
    let name = RcStr::from_str(alloc, name)?;
    let ty: EntityType = ty.clone()?;
    Ok(Unknown {
        name,
        type_annotation: Some(Type::Entity { ty }),
    })
}

/// Whether entities of a table of this type can stand for the unknown. Of several types each row is tested for its own.
pub(crate) fn fits(row: &Unknown, table: &RowType) -> bool
    ensures { result ≡ row_fits row.now table.now }
{
    match &row.type_annotation {
        None => true,
        Some(ty) => type_fits(ty, table),
    }
}

fn type_fits(ty: &Type, table: &RowType) -> bool
    ensures { result ≡ fits (Some (type_view ty.now)) table.now }
{
    match ty {
        Type::Bool => false,
        Type::Long => false,
        Type::String => false,
        Type::Set => false,
        Type::Record => false,
        Type::Entity { ty } => entity_fits(ty, table),
        Type::Extension { .. } => false,
    }
}

fn entity_fits(ty: &EntityType, table: &RowType) -> bool
    ensures { result ≡ fits (Some (entity_type (type_text ty.now))) table.now }
{
    match table {
        RowType::One(own) => same_type(own, ty),
        RowType::Several(_) => true,
    }
}

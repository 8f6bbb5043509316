#![tactic(auto, using(crate::proofs::Building::building))]
//! Sets, records and calls.
ghost use Rattle.std.specs.Prelude.{◌≡◌, ◌++◌, ◌∷◌, [], map, IfOk, OnOk, Some, option_map};
ghost use Rattle.cedar_expressions.specs.View.{view, fields_view};
ghost use Rattle.cedar_expressions.specs.Records.{fields_in_order, put_field};
ghost use Rattle.std.specs.Rc.{rc_str_bytes};
ghost use Rattle.cedar_builder.specs.Building.{term_of, term_in, terms_of_all, field_in, field_of, fields_of_all};
ghost use Rattle.cedar_builder.specs.Building.{Builds, BuildsField, Makes, under};
ghost use Rattle.cedar_builder.specs.Building.{set_term, record_term, call_term};

use super::ExprBuilder;
use cedar_expressions::Expr;
use cedar_fallible::pair_of;
use cedar_names::Name;
use std::alloc::{AllocError, Global};
use std::collections::BTreeMap;
use std::marker::Model;
use std::rc::RcStr;

/// The set of these parts, in this order: `[a, b]`.
pub fn set<const N: usize>(alloc: Global, parts: [ExprBuilder; N]) -> ExprBuilder
    ensures { Builds result (option_map set_term (terms_of_all parts.entry)) }
{
    ExprBuilder {
        alloc,
        built: set_of_parts(alloc, parts),
    }
}

/// The record of these fields: `{a: x, "b c": y}`. A field whose key is a duplicate takes the place of the one before.
pub fn record<const N: usize>(alloc: Global, fields: [FieldBuilder; N]) -> ExprBuilder
    ensures { Builds result (option_map record_term (fields_of_all fields.entry)) }
{
    ExprBuilder {
        alloc,
        built: record_of_fields(alloc, fields),
    }
}

/// A field of a record in the making: a part under a key, or that memory ran out on the way.
#[derive(Drop)]
pub struct FieldBuilder {
    pub(crate) built: Result<(RcStr, Expr), AllocError>,
}

impl Model for FieldBuilder {
    ghost use Rattle.std.specs.Coded.{codes};
    ghost use Rattle.cedar_expressions.specs.contracts.expr.Expr as expressions;
    ghost use Rattle.cedar_builder.specs.Fields.{KeyedFields};

    ghost Value = { KeyedFields };

    ghost coded = { Prim.hlevel (codes, expressions.the_row.coded) };

    ghost view = { λ a. record { built = a.built } };
}

/// The field of this part under this key, which is taken as it stands.
pub fn field(key: &str, part: ExprBuilder) -> FieldBuilder
    ensures { BuildsField result (option_map (under key.now) (term_of part)) }
{
    let ExprBuilder { alloc, built } = part;
    FieldBuilder {
        built: pair_with_key(alloc, key, built),
    }
}

fn pair_with_key(
    alloc: Global,
    key: &str,
    part: Result<Expr, AllocError>,
) -> Result<(RcStr, Expr), AllocError>
    ensures { IfOk result (λ p.
        option_map (under key.now) (term_in part) ≡ Some (under (rc_str_bytes p.0) (view p.1))) }
{
    let (key, part) = pair_of(RcStr::from_str(alloc, key), part)?;
    Ok((key, part))
}

/// A call of the extension function of this name on these arguments: `name(a, b)`, or `a.name(b)` where the function is
/// a method. The name is taken as it stands.
pub fn call<const N: usize>(alloc: Global, name: &str, args: [ExprBuilder; N]) -> ExprBuilder
    ensures { Builds result (option_map (call_term name.now) (terms_of_all args.entry)) }
{
    ExprBuilder {
        alloc,
        built: call_of_parts(alloc, name, args),
    }
}

fn set_of_parts<const N: usize>(alloc: Global, parts: [ExprBuilder; N]) -> Result<Expr, AllocError>
    ensures { Makes result (option_map set_term (terms_of_all parts.entry)) }
{
    let parts = parts_of(alloc, parts)?;
    let made = Expr::set(alloc, parts)?;
    Ok(made)
}

fn record_of_fields<const N: usize>(
    alloc: Global,
    fields: [FieldBuilder; N],
) -> Result<Expr, AllocError>
    ensures { Makes result (option_map record_term (fields_of_all fields.entry)) }
{
    let fields = fields_of(alloc, fields)?;
    let made = Expr::record_map(alloc, fields)?;
    Ok(made)
}

fn call_of_parts<const N: usize>(
    alloc: Global,
    name: &str,
    args: [ExprBuilder; N],
) -> Result<Expr, AllocError>
    ensures { Makes result (option_map (call_term name.now) (terms_of_all args.entry)) }
{
    let (args, name) = pair_of(parts_of(alloc, args), RcStr::from_str(alloc, name))?;
    let made = Expr::call_extension_fn(alloc, Name::new(name, None), args)?;
    Ok(made)
}

// ---- parts

// The expressions of these parts.
fn parts_of<const N: usize>(alloc: Global, parts: [ExprBuilder; N]) -> Result<Vec<Expr>, AllocError>
    ensures { IfOk result (λ v. terms_of_all parts.entry ≡ Some (map view v.items)) }
{
    match Vec::from_array(alloc, parts) {
        Ok(parts) => each_part(alloc, parts),
        Err(_) => Err(AllocError),
    }
}

fn each_part(alloc: Global, parts: Vec<ExprBuilder>) -> Result<Vec<Expr>, AllocError>
    ensures { IfOk result (λ v. terms_of_all parts.items ≡ Some (map view v.items)) }
{
    let mut made: Vec<Expr> = Vec::new(alloc);
    'parts: for part in parts {
        put_part(&mut made, part)?;
    }
    Ok(made)
}

fn put_part(made: &mut Vec<Expr>, part: ExprBuilder) -> Result<(), AllocError>
    ensures { OnOk result
        (option_map (λ t. map view made.old.items ++ t ∷ []) (term_of part) ≡ Some (map view made.new.items)) }
{
    put_expr(made, part.built)?;
    Ok(())
}

fn put_expr(made: &mut Vec<Expr>, part: Result<Expr, AllocError>) -> Result<(), AllocError>
    ensures { OnOk result
        (option_map (λ t. map view made.old.items ++ t ∷ []) (term_in part) ≡ Some (map view made.new.items)) }
{
    let part = part?;
    match made.push(part) {
        Ok(()) => Ok(()),
        Err(_) => Err(AllocError),
    }
}

// ---- fields

// The expressions of these fields, under their keys.
fn fields_of<const N: usize>(
    alloc: Global,
    fields: [FieldBuilder; N],
) -> Result<BTreeMap<RcStr, Expr>, AllocError>
    ensures { IfOk result (λ m.
        option_map fields_in_order (fields_of_all fields.entry) ≡ Some (fields_view m.entries)) }
{
    match Vec::from_array(alloc, fields) {
        Ok(fields) => each_field(alloc, fields),
        Err(_) => Err(AllocError),
    }
}

fn each_field(alloc: Global, fields: Vec<FieldBuilder>) -> Result<BTreeMap<RcStr, Expr>, AllocError>
    ensures { IfOk result (λ m.
        option_map fields_in_order (fields_of_all fields.items) ≡ Some (fields_view m.entries)) }
{
    let mut made: BTreeMap<RcStr, Expr> = BTreeMap::new(alloc);
    'fields: for field in fields {
        put_field(&mut made, field)?;
    }
    Ok(made)
}

fn put_field(made: &mut BTreeMap<RcStr, Expr>, field: FieldBuilder) -> Result<(), AllocError>
    ensures { OnOk result
        (option_map (λ f. put_field (fields_view made.old.entries) f.0 f.1) (field_of field)
        ≡ Some (fields_view made.new.entries)) }
{
    put_keyed(made, field.built)?;
    Ok(())
}

fn put_keyed(
    made: &mut BTreeMap<RcStr, Expr>,
    field: Result<(RcStr, Expr), AllocError>,
) -> Result<(), AllocError>
    ensures { OnOk result
        (option_map (λ f. put_field (fields_view made.old.entries) f.0 f.1) (field_in field)
        ≡ Some (fields_view made.new.entries)) }
{
    let (key, part) = field?;
    drop(made.insert(key, part)?);
    Ok(())
}

//! What a variable of the request answers: the entity or the record that it stands for, or its unknown.
ghost use Rattle.std.specs.Prelude.{◌≡◌, None, IfOk, option_map};
ghost use Rattle.std.specs.Rc.{rc_str_bytes};
ghost use Rattle.cedar_model.specs.Terms.{unknown, entity_literal};
ghost use Rattle.cedar_model.specs.Values.{plain_represented};
ghost use Rattle.cedar_model.specs.Failures.{value, residual};
ghost use Rattle.cedar_model.specs.Settings.{type_annotation, context_value};
ghost use Rattle.cedar_names.specs.Names.{type_text, uid_name};
ghost use Rattle.cedar_names.specs.Leaves.{type_view, variable_view};
ghost use Rattle.cedar_names.specs.Texts.{variable_text};
ghost use Rattle.cedar_values.specs.Residuals.{partial_view, partial_loc};
ghost use Rattle.cedar_requests.specs.Requests.{context_given, annotated_entity_type, partial_annotation};

use crate::context::Context;
use cedar_expressions::Expr;
use cedar_names::shared::variable_text;
use cedar_names::{EntityType, EntityUID, Literal, Loc, Type, Unknown, Var};
use cedar_values::{PartialValue, ResidualExpr, Value, ValueKind};
use std::alloc::{AllocError, Global};
use std::rc::{Rc, RcStr};

// What the variable `context` answers: the record of the context, or the untyped unknown `context` where there is
// none. It is at no location. Refuses only if out of memory.
#[tactic(auto, unfolding(cedar_model::specs::Settings::context_value, cedar_model::specs::Settings::type_annotation))]
pub(crate) fn context_part(
    alloc: Global,
    context: Option<Context>,
) -> Result<PartialValue, AllocError>
    ensures view { IfOk result (λ p. partial_view p ≡ context_value (context_given context)) }
    ensures place { IfOk result (λ p. partial_loc p ≡ None) }
{
    match context {
        Some(context) => Ok(PartialValue::try_from(context)?),
        None => Ok(unknown_part(alloc, Var::Context, None, None)?),
    }
}

// The entity, at this location.
pub(crate) fn known_part(
    alloc: Global,
    euid: EntityUID,
    loc: Option<Loc>,
) -> Result<PartialValue, AllocError>
    ensures view { IfOk result (λ p. partial_view p ≡ value (plain_represented (entity_literal (uid_name euid)))) }
    ensures place { IfOk result (λ p. partial_loc p ≡ loc) }
    ensures annotation { IfOk result (λ p. partial_annotation p ≡ None) }
{
    let uid = Rc::new(alloc, euid)?;
    let entity = Value::new(ValueKind::Lit(Literal::EntityUID(uid)), loc);
    Ok(PartialValue::Value(entity))
}

// The unknown of the variable's name, of this entity type if there is one, at this location.
pub(crate) fn unknown_part(
    alloc: Global,
    var: Var,
    ty: Option<EntityType>,
    loc: Option<Loc>,
) -> Result<PartialValue, AllocError>
    ensures view { IfOk result (λ p. partial_view p
        ≡ residual (unknown (variable_text (variable_view var)) (type_annotation (option_map type_text ty)))) }
    ensures place { IfOk result (λ p. partial_loc p ≡ loc) }
    ensures annotation { IfOk result (λ p. partial_annotation p ≡ ty) }
{
    let name = RcStr::from_str(alloc, variable_text(var))?;
    let expr = Expr::unknown(unknown_of(name, ty)).with_maybe_source_loc(loc);
    Ok(PartialValue::Residual(ResidualExpr::new(expr)))
}

// The unknown of this name, of this entity type if there is one.
#[tactic(auto, unfolding(cedar_model::specs::Settings::type_annotation))]
fn unknown_of(name: RcStr, ty: Option<EntityType>) -> Unknown
    ensures name { rc_str_bytes result.name ≡ rc_str_bytes name }
    ensures annotation { option_map type_view result.type_annotation ≡ type_annotation (option_map type_text ty) }
    ensures whole { annotated_entity_type result.type_annotation ≡ ty }
{
    match ty {
        Some(ty) => Unknown::new_with_type(name, Type::Entity { ty }),
        None => Unknown::new_untyped(name),
    }
}

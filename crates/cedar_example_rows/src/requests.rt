//! The requests of the rows.
use crate::entities::entity;
use crate::lines::LIMIT;
use crate::rows::Row;
use crate::stop::{Stop, context_refused};
use cedar_evaluator::request::{Context, EntityUIDEntry, Request};
use cedar_extensions::Extensions;
use cedar_fallible::pair_of;
use cedar_layers::expressions::Unknown;
use cedar_restricted::RestrictedExpr;
use std::alloc::{AllocError, Global};
use std::rc::RcStr;

/// The request of the row.
pub fn request_of(alloc: Global, row: Row) -> Result<Request, Stop> {
    match row {
        Row::Empty => Ok(in_empty_context(alloc)?),
        Row::Skip2 => Ok(in_empty_context(alloc)?),
        Row::Skip3 => Ok(in_empty_context(alloc)?),
        Row::Skip4 => Ok(in_empty_context(alloc)?),
        Row::Residual => in_unknown_context(alloc, "test", "name"),
        Row::StepFalse => Ok(in_empty_context(alloc)?),
        Row::StepTrue => Ok(in_empty_context(alloc)?),
        Row::Early => Ok(in_empty_context(alloc)?),
        Row::Chain => of_a_alone(alloc),
        Row::Kept => Ok(in_empty_context(alloc)?),
        Row::NonBool => Ok(in_empty_context(alloc)?),
        Row::Stored => in_unknown_context(alloc, "n", "n"),
        Row::Strict3 => Ok(in_empty_context(alloc)?),
        Row::StrictResidual => in_unknown_context(alloc, "test", "name"),
        Row::Deep => Ok(of_someone(alloc)?),
    }
}

// All is known, and the context is empty.
fn in_empty_context(alloc: Global) -> Result<Request, AllocError> {
    in_context(alloc, Context::empty(alloc))
}

// All is known but this attribute of the context, which is the unknown of this name.
fn in_unknown_context(alloc: Global, attribute: &str, name: &str) -> Result<Request, Stop> {
    let mut pairs: Vec<(RcStr, RestrictedExpr)> = Vec::new(alloc);
    push_unknown(alloc, &mut pairs, attribute, name)?;
    match context_of(alloc, pairs) {
        Ok(context) => Ok(in_context(alloc, context)?),
        Err(stop) => Err(stop),
    }
}

fn in_context(alloc: Global, context: Context) -> Result<Request, AllocError> {
    let ((user, action), (photo, context)) = pair_of(
        pair_of(
            entity(alloc, "User", "alice"),
            entity(alloc, "Action", "view"),
        ),
        pair_of(entity(alloc, "Photo", "sunset"), Ok(context)),
    )?;
    Ok(Request::new((user, None), (action, None), (photo, None), context))
}

// The principal is `NS::"a"`. The action, the resource, and `c` and `d` of the context are not known.
fn of_a_alone(alloc: Global) -> Result<Request, Stop> {
    let mut pairs: Vec<(RcStr, RestrictedExpr)> = Vec::new(alloc);
    push_unknown(alloc, &mut pairs, "c", "c")?;
    push_unknown(alloc, &mut pairs, "d", "d")?;
    match context_of(alloc, pairs) {
        Ok(context) => Ok(of_a_in_context(alloc, context)?),
        Err(stop) => Err(stop),
    }
}

fn of_a_in_context(alloc: Global, context: Context) -> Result<Request, AllocError> {
    let (a, context) = pair_of(entity(alloc, "NS", "a"), Ok(context))?;
    Ok(Request::new_with_unknowns(
        EntityUIDEntry::known(a, None),
        EntityUIDEntry::unknown(),
        EntityUIDEntry::unknown(),
        Some(context),
    ))
}

// The principal is not known, and the context is empty.
fn of_someone(alloc: Global) -> Result<Request, AllocError> {
    let (action, photo) = pair_of(
        entity(alloc, "Action", "view"),
        entity(alloc, "Photo", "sunset"),
    )?;
    Ok(Request::new_with_unknowns(
        EntityUIDEntry::unknown(),
        EntityUIDEntry::known(action, None),
        EntityUIDEntry::known(photo, None),
        Some(Context::empty(alloc)),
    ))
}

// Puts the unknown of this name behind the others, under this attribute.
fn push_unknown(
    alloc: Global,
    pairs: &mut Vec<(RcStr, RestrictedExpr)>,
    attribute: &str,
    name: &str,
) -> Result<(), AllocError> {
    let attribute = RcStr::from_str(alloc, attribute)?;
    let unknown = Unknown::new_untyped(RcStr::from_str(alloc, name)?);
    pairs.push((attribute, RestrictedExpr::unknown(unknown)))?;
    Ok(())
}

fn context_of(alloc: Global, pairs: Vec<(RcStr, RestrictedExpr)>) -> Result<Context, Stop> {
    match Context::from_pairs(alloc, pairs, &Extensions::none(), LIMIT) {
        Ok(context) => Ok(context),
        Err(error) => {
            let stop = context_refused(alloc, &error);
            drop(error);
            Err(stop)
        }
    }
}

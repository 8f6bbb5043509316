#![tactic(auto, using(crate::proofs::Noted::noting, crate::proofs::Contexts::variables))]
//! The unknowns of a request.
ghost use Rattle.std.specs.Prelude.{◌≡◌, None, OnOk, option_copied};
ghost use Rattle.cedar_model.specs.Settings.{entry_part, context_value};
ghost use Rattle.cedar_names.specs.Leaves.{variable_view};
ghost use Rattle.cedar_names.specs.Texts.{variable_text};
ghost use Rattle.cedar_values.specs.Residuals.{partial_view};
ghost use Rattle.cedar_requests.specs.Requests.{entry_view, context_given, request_view};
ghost use Rattle.cedar_requests.specs.Contexts.{context_view};
ghost use Rattle.cedar_unknowns.specs.Occurrences.{asked_each, noted_each, part_occurrences, request_occurrences};

use crate::noting::{note, note_at, note_unknowns};
use cedar_names::{Unknown, Var};
use cedar_requests::{Context, EntityUIDEntry, Request};
use cedar_values::PartialValue;
use indexmap::IndexSet;
use std::alloc::{AllocError, Global};
use std::rc::RcStr;

/// Puts the unknowns that the variables of the request answer behind these, each unless it is one of them.
pub(crate) fn note_request(
    alloc: Global,
    request: &Request,
    found: &mut IndexSet<Unknown>,
) -> Result<(), AllocError>
    ensures { OnOk result (asked_each found.new.keys ≡
        noted_each (request_occurrences (request_view request.now)) (asked_each found.old.keys)) }
{
    note_entry(alloc, request.principal(), Var::Principal, found)?;
    note_entry(alloc, request.action(), Var::Action, found)?;
    note_entry(alloc, request.resource(), Var::Resource, found)?;
    note_context(alloc, request.context(), found)?;
    Ok(())
}

// The unknown of an entry that is not known.
#[tactic(auto, unfolding(cedar_model::specs::Settings::entry_part))]
fn note_entry(
    alloc: Global,
    entry: &EntityUIDEntry,
    var: Var,
    found: &mut IndexSet<Unknown>,
) -> Result<(), AllocError>
    ensures { OnOk result (asked_each found.new.keys ≡ noted_each
        (part_occurrences (entry_part (entry_view entry.now) (variable_text (variable_view var))))
        (asked_each found.old.keys)) }
{
    match entry {
        EntityUIDEntry::Known { euid: _, loc: _ } => Ok(()),
        EntityUIDEntry::Unknown { ty: _, loc: _ } => note_evaluated(alloc, entry, var, found),
    }
}

// The unknowns of what the variable answers that the entry stands for.
fn note_evaluated(
    alloc: Global,
    entry: &EntityUIDEntry,
    var: Var,
    found: &mut IndexSet<Unknown>,
) -> Result<(), AllocError>
    ensures { OnOk result (asked_each found.new.keys ≡ noted_each
        (part_occurrences (entry_part (entry_view entry.now) (variable_text (variable_view var))))
        (asked_each found.old.keys)) }
{
    let part = entry.evaluate(alloc, var)?;
    let noted = note_part(&part, found);
    drop(part);
    noted?;
    Ok(())
}

fn note_part(part: &PartialValue, found: &mut IndexSet<Unknown>) -> Result<(), AllocError>
    ensures { OnOk result (asked_each found.new.keys ≡
        noted_each (part_occurrences (partial_view part.now)) (asked_each found.old.keys)) }
{
    match part {
        PartialValue::Value(_) => Ok(()),
        PartialValue::Residual(residual) => note_unknowns(residual.as_expr(), found),
    }
}

// The unknown `context` of a context that is not known, or those of a residual one.
fn note_context(
    alloc: Global,
    context: Option<&Context>,
    found: &mut IndexSet<Unknown>,
) -> Result<(), AllocError>
    ensures { OnOk result (asked_each found.new.keys ≡ noted_each
        (part_occurrences (context_value (context_given (option_copied context.entry)))) (asked_each found.old.keys)) }
{
    match context {
        None => note_absent(alloc, found),
        Some(context) => note_pairs(context, found),
    }
}

#[tactic(auto, unfolding(cedar_model::specs::Settings::context_value))]
fn note_absent(alloc: Global, found: &mut IndexSet<Unknown>) -> Result<(), AllocError>
    ensures { OnOk result (asked_each found.new.keys ≡
        noted_each (part_occurrences (context_value (context_given None))) (asked_each found.old.keys)) }
{
    let unknown = Unknown::new_untyped(RcStr::from_str(alloc, "context")?);
    note(&unknown, found)?;
    Ok(())
}

fn note_pairs(context: &Context, found: &mut IndexSet<Unknown>) -> Result<(), AllocError>
    ensures { OnOk result (asked_each found.new.keys ≡
        noted_each (part_occurrences (context_value (context_view context.now))) (asked_each found.old.keys)) }
{
    match context.as_residual() {
        None => Ok(()),
        Some(pairs) => note_at(pairs, found),
    }
}

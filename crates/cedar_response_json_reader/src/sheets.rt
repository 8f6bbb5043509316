#![tactic(auto, using(crate::proofs::Sheeted::sheets), unfolding(cedar_model::specs::Responses::reported_of, cedar_model::specs::Responses::error_of, cedar_model::specs::Responses::with_error, cedar_model::specs::Responses::counted_report, cedar_model::specs::Chains::has_effect, cedar_model::specs::Chains::is_true, cedar_model::specs::Chains::is_false, cedar_model::specs::Chains::is_residual, cedar_authorizer::specs::responses::Rows::located_of))]
//! Rows and errors on a sheet, of which a response is made.
ghost use Rattle.std.specs.Prelude.{◌≡◌, [], true, None, IfOk, OnOk, map};
ghost use Rattle.cedar_authorizer.specs.responses.Responses.{errors_view};
ghost use Rattle.cedar_authorizer.specs.responses.Rows.{located};
ghost use Rattle.cedar_authorizer.specs.responses.Sheets.{sheet_view, nothing_noted, noted_also};
ghost use Rattle.cedar_model.specs.Responses.{reported_false};
ghost use Rattle.cedar_response_json_reader.specs.Rows as says;
ghost use Rattle.cedar_layers.specs.Policies.{policy_view, policy_id_text, annotations_view, effect_view};
ghost use Rattle.cedar_response_json_reader.specs.declared.reports.Report.TheVariants as reports;
ghost use Rattle.cedar_response_json_reader.specs.Sheets.{AreNoted, NotesRow, erring};

use crate::reports::Report;
use cedar_authorizer::authorizer::{AuthorizationError, ErrorHandling, ErrorState};
use cedar_authorizer::responses::{ConditionOutcome, Sheet};
use cedar_fallible::{add_last, beside};
use cedar_layers::policies::{Annotations, Effect, Policy, PolicyID};
use std::alloc::{AllocError, Global};
use std::rc::Rc;

/// The sheet of these rows and errors.
pub(crate) fn sheet_of(
    alloc: Global,
    rows: &Vec<(Report, Policy)>,
    errors: Vec<AuthorizationError>,
) -> Result<Sheet, AllocError>
    ensures { IfOk result (AreNoted (map says.held_row rows.now.items) (errors_view errors.items)) }
{
    let mut sheet = Sheet::new(alloc);
    match note_rows(rows, &mut sheet) {
        Ok(()) => {
            sheet.errors = errors;
            Ok(sheet)
        }
        Err(error) => {
            drop(sheet);
            drop(errors);
            Err(error)
        }
    }
}

fn note_rows(rows: &Vec<(Report, Policy)>, sheet: &mut Sheet) -> Result<(), AllocError>
    requires { sheet_view sheet.old ≡ nothing_noted }
    ensures { OnOk result (AreNoted (map says.held_row rows.now.items) [] sheet.new) }
{
    'rows: for row in rows {
        note_row(row.0, &row.1, sheet)?;
    }
    Ok(())
}

fn note_row(report: Report, policy: &Policy, sheet: &mut Sheet) -> Result<(), AllocError>
    ensures { OnOk result (NotesRow (says.held_row (report, policy.now)) sheet.old sheet.new) }
{
    match report {
        Report::Satisfied => note_truth(true, policy, sheet),
        Report::Unsatisfied => note_truth(false, policy, sheet),
        Report::Erring => note_erring(policy, sheet),
        Report::Residual => note_residual(policy, sheet),
    }
}

fn note_truth(is_true: bool, policy: &Policy, sheet: &mut Sheet) -> Result<(), AllocError>
    ensures { OnOk result (NotesRow (says.truth_row is_true (policy_view policy.now)) sheet.old sheet.new) }
{
    sheet.place(
        ErrorHandling::Skip,
        policy,
        ConditionOutcome::Decided(is_true),
    )
}

fn note_residual(policy: &Policy, sheet: &mut Sheet) -> Result<(), AllocError>
    ensures { OnOk result (NotesRow (says.held_row (reports.Residual, policy.now)) sheet.old sheet.new) }
{
    let residual = policy.when_clause_rc().clone()?;
    sheet.place(
        ErrorHandling::Skip,
        policy,
        ConditionOutcome::Residual(residual),
    )
}

fn note_erring(policy: &Policy, sheet: &mut Sheet) -> Result<(), AllocError>
    ensures { OnOk result (NotesRow (says.held_row (reports.Erring, policy.now)) sheet.old sheet.new) }
{
    put_policy(policy, sheet)
}

fn put_policy(policy: &Policy, sheet: &mut Sheet) -> Result<(), AllocError>
    ensures { OnOk result (sheet_view sheet.new
        ≡ noted_also (sheet_view sheet.old) (erring (policy_view policy.now)) None) }
{
    let (id, annotations) = beside(policy.id().clone()?, policy.annotations_rc().clone())?;
    put_erring(policy.effect(), id, annotations, sheet)
}

fn put_erring(
    effect: Effect,
    id: PolicyID,
    annotations: Rc<Annotations>,
    sheet: &mut Sheet,
) -> Result<(), AllocError>
    ensures { OnOk result (sheet_view sheet.new ≡ noted_also (sheet_view sheet.old)
        (located (effect_view effect) (policy_id_text id) (annotations_view annotations.value) (reported_false true)
        None) None) }
{
    match effect {
        Effect::Permit => add_last(
            &mut sheet.false_permits,
            (id, (ErrorState::Error, annotations)),
        )?,
        Effect::Forbid => add_last(
            &mut sheet.false_forbids,
            (id, (ErrorState::Error, annotations)),
        )?,
    }
    Ok(())
}

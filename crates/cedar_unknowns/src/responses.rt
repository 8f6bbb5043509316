#![tactic(auto, using(crate::proofs::Noted::noting, crate::proofs::Rows::rows))]
//! The unknowns of what is left of policies.
ghost use Rattle.std.specs.Prelude.{◌≡◌, OnOk};
ghost use Rattle.cedar_authorizer.specs.responses.Rows.{rows_view};
ghost use Rattle.cedar_unknowns.specs.Occurrences.{asked_each, noted_each, row_occurrences};
ghost use Rattle.cedar_unknowns.specs.Residuals.{entry_occurrences};

use crate::noting::note_unknowns;
use cedar_authorizer::authorizer::PartialResponse;
use cedar_expressions::Expr;
use cedar_layers::policies::{Annotations, PolicyID};
use cedar_names::Unknown;
use indexmap::{IndexMap, IndexSet};
use std::alloc::AllocError;
use std::rc::Rc;

/// Puts the unknowns that stand in what is left of policies behind these, each unless it is one of them.
pub(crate) fn note_response(
    response: &PartialResponse,
    found: &mut IndexSet<Unknown>,
) -> Result<(), AllocError>
    ensures { OnOk result (asked_each found.new.keys ≡
        noted_each (row_occurrences (rows_view response.now)) (asked_each found.old.keys)) }
{
    note_residuals(&response.residual_permits, found)?;
    note_residuals(&response.residual_forbids, found)?;
    Ok(())
}

fn note_residuals(
    residuals: &IndexMap<PolicyID, (Rc<Expr>, Rc<Annotations>)>,
    found: &mut IndexSet<Unknown>,
) -> Result<(), AllocError>
    ensures { OnOk result (asked_each found.new.keys ≡
        noted_each (entry_occurrences residuals.now.entries) (asked_each found.old.keys)) }
{
    'residuals: for (_, residual) in residuals {
        note_unknowns(&residual.0, found)?;
    }
    Ok(())
}

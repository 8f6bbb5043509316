//! The ids that a partial response names.
ghost use Rattle.std.specs.Prelude.{◌≡◌, length};
ghost use Rattle.std.specs.Iterator.{at_most};
ghost use Rattle.cedar_model.specs.Reports as reports;
ghost use Rattle.cedar_authorizer.specs.responses.Rows.{rows_view};
ghost use Rattle.cedar_authorizer.specs.responses.Readers.{TakesID, errored_ids, ids_left};

use super::{ErrorState, PartialResponse};
use cedar_expressions::Expr;
use cedar_layers::policies::{Annotations, PolicyID};
use indexmap::map::{Iter, Slice};
use std::rc::Rc;

/// Ids of policies of a partial response, permits first.
#[derive(Drop)]
pub struct ReportedIds<'a> {
    false_permits: Iter<'a, PolicyID, (ErrorState, Rc<Annotations>)>,
    false_forbids: Iter<'a, PolicyID, (ErrorState, Rc<Annotations>)>,
    residual_permits: Iter<'a, PolicyID, (Rc<Expr>, Rc<Annotations>)>,
    residual_forbids: Iter<'a, PolicyID, (Rc<Expr>, Rc<Annotations>)>,
}

impl<'a> Iterator for ReportedIds<'a> {
    type Item = &'a PolicyID;

    ghost next_gives = { λ s r t. TakesID (ids_left s) r (ids_left t) };

    ghost remaining = { λ s. at_most (length (ids_left s)) };

    fn next(&mut self) -> Option<&'a PolicyID> {
        if let Some(id) = next_errored(&mut self.false_permits) {
            return Some(id);
        }
        if let Some(id) = next_errored(&mut self.false_forbids) {
            return Some(id);
        }
        if let Some((id, _)) = self.residual_permits.next() {
            return Some(id);
        }
        let (id, _) = self.residual_forbids.next()?;
        Some(id)
    }
}

// The next id whose policy erred.
#[tactic(auto, unfolding(crate::specs::responses::Readers::errored_ids))]
fn next_errored<'a>(
    entries: &mut Iter<'a, PolicyID, (ErrorState, Rc<Annotations>)>,
) -> Option<&'a PolicyID>
    ensures { TakesID (errored_ids entries.old) result (errored_ids entries.new) }
{
    'walk: while let Some((id, entry)) = entries.next() {
        match entry.0 {
            ErrorState::Error => return Some(id),
            ErrorState::NoError => {}
        }
    }
    None
}

impl PartialResponse {
    /// The ids of the policies that erred.
    pub fn definitely_errored(&self) -> ReportedIds<'_>
        ensures { ids_left result ≡ reports.definitely_errored (rows_view self.now) }
    {
        ReportedIds {
            false_permits: self.false_permits.iter(),
            false_forbids: self.false_forbids.iter(),
            residual_permits: Slice::new().iter(),
            residual_forbids: Slice::new().iter(),
        }
    }

    /// The ids of the policies of which a residual is left.
    pub fn nontrivial_residual_ids(&self) -> ReportedIds<'_>
        ensures { ids_left result ≡ reports.nontrivial_residual_ids (rows_view self.now) }
    {
        ReportedIds {
            false_permits: Slice::new().iter(),
            false_forbids: Slice::new().iter(),
            residual_permits: self.residual_permits.iter(),
            residual_forbids: self.residual_forbids.iter(),
        }
    }
}

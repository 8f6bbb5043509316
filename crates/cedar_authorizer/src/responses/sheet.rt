#![tactic(auto, using(crate::proofs::Noted::stays), unfolding(cedar_model::specs::Responses::reported_of, cedar_model::specs::Responses::error_of, cedar_model::specs::Responses::with_error, cedar_model::specs::Responses::counted_report, cedar_model::specs::Chains::has_effect, cedar_model::specs::Chains::is_true, cedar_model::specs::Chains::is_false, cedar_model::specs::Chains::is_residual, crate::specs::responses::Rows::located_of))]
//! What an authorization notes of its policies, before a response is made of it.
ghost use Rattle.std.specs.Prelude.{◌≡◌, true, false, Some, None, OnOk};
ghost use Rattle.cedar_model.specs.Responses.{reported_true, reported_false, reported_residual, counted_report};
ghost use Rattle.cedar_decisions.specs.Decisions.{mode_view};
ghost use Rattle.cedar_expressions.specs.View.{view};
ghost use Rattle.cedar_layers.specs.Policies.{policy_view, effect_view, policy_id_text, annotations_view};
ghost use Rattle.cedar_errors.specs.Failures.{failure_of};
ghost use Rattle.cedar_authorizer.specs.responses.Rows.{located};
ghost use Rattle.cedar_authorizer.specs.responses.Sheets.{sheet_view, nothing_noted, noted_also, noting};

use crate::responses::err::AuthorizationError;
use crate::responses::partial_response::ErrorState;
use cedar_decisions::ErrorHandling;
use cedar_errors::evaluator::err::EvaluationError;
use cedar_expressions::Expr;
use cedar_fallible::{add_last, beside};
use cedar_layers::policies::{Annotations, Effect, Policy, PolicyID};
use std::alloc::{AllocError, Global};
use std::rc::Rc;

/// How the condition of a policy came out.
#[derive(Drop)]
pub enum ConditionOutcome {
    /// It is this truth.
    Decided(bool),
    /// This residual is left of it.
    Residual(Rc<Expr>),
    /// It erred.
    Failed(EvaluationError),
}

/// Policies by effect and outcome, each list in the order in which they were noted. They are what
/// `PartialResponse::new` takes.
#[derive(Drop)]
pub struct Sheet {
    /// The permits that are satisfied.
    pub true_permits: Vec<(PolicyID, Rc<Annotations>)>,
    /// The permits that are not satisfied.
    pub false_permits: Vec<(PolicyID, (ErrorState, Rc<Annotations>))>,
    /// The permits of which a residual is left.
    pub residual_permits: Vec<(PolicyID, (Rc<Expr>, Rc<Annotations>))>,
    /// The forbids that are satisfied.
    pub true_forbids: Vec<(PolicyID, Rc<Annotations>)>,
    /// The forbids that are not satisfied.
    pub false_forbids: Vec<(PolicyID, (ErrorState, Rc<Annotations>))>,
    /// The forbids of which a residual is left.
    pub residual_forbids: Vec<(PolicyID, (Rc<Expr>, Rc<Annotations>))>,
    /// The error of each policy that erred.
    pub errors: Vec<AuthorizationError>,
}

impl Sheet {
    /// A sheet on which nothing is noted.
    pub fn new(alloc: Global) -> Sheet
        ensures { sheet_view result ≡ nothing_noted }
    {
        Sheet {
            true_permits: Vec::new(alloc),
            false_permits: Vec::new(alloc),
            residual_permits: Vec::new(alloc),
            true_forbids: Vec::new(alloc),
            false_forbids: Vec::new(alloc),
            residual_forbids: Vec::new(alloc),
            errors: Vec::new(alloc),
        }
    }

    /// Notes how one more policy came out; where it erred, its error is noted too, and it is false, but that a forbid
    /// is satisfied where one that errs forbids. Refuses only if out of memory.
    pub fn place(
        &mut self,
        mode: ErrorHandling,
        policy: &Policy,
        outcome: ConditionOutcome,
    ) -> Result<(), AllocError>
        ensures { OnOk result (sheet_view self.new
            ≡ noting (mode_view mode) (sheet_view self.old) (policy_view policy.now) outcome) }
    {
        let (outcome, id) = beside(outcome, policy.id().clone())?;
        let ((outcome, id), annotations) = beside((outcome, id), policy.annotations_rc().clone())?;
        match outcome {
            ConditionOutcome::Decided(true) => self.note_true(policy.effect(), id, annotations),
            ConditionOutcome::Decided(false) => self.note_false(policy.effect(), id, annotations),
            ConditionOutcome::Residual(expr) => self.note_residual(
                policy.effect(),
                id,
                expr,
                annotations,
            ),
            ConditionOutcome::Failed(error) => self.note_error(
                mode,
                policy.effect(),
                id,
                error,
                annotations,
            ),
        }
    }

    // A true policy.
    fn note_true(
        &mut self,
        effect: Effect,
        id: PolicyID,
        annotations: Rc<Annotations>,
    ) -> Result<(), AllocError>
        ensures { OnOk result (sheet_view self.new ≡ noted_also (sheet_view self.old)
            (located (effect_view effect) (policy_id_text id) (annotations_view annotations.value)
            reported_true None) None) }
    {
        match effect {
            Effect::Permit => add_last(&mut self.true_permits, (id, annotations))?,
            Effect::Forbid => add_last(&mut self.true_forbids, (id, annotations))?,
        }
        Ok(())
    }

    // A false policy.
    fn note_false(
        &mut self,
        effect: Effect,
        id: PolicyID,
        annotations: Rc<Annotations>,
    ) -> Result<(), AllocError>
        ensures { OnOk result (sheet_view self.new ≡ noted_also (sheet_view self.old)
            (located (effect_view effect) (policy_id_text id) (annotations_view annotations.value)
            (reported_false false) None) None) }
    {
        match effect {
            Effect::Permit => add_last(
                &mut self.false_permits,
                (id, (ErrorState::NoError, annotations)),
            )?,
            Effect::Forbid => add_last(
                &mut self.false_forbids,
                (id, (ErrorState::NoError, annotations)),
            )?,
        }
        Ok(())
    }

    // A residual policy.
    fn note_residual(
        &mut self,
        effect: Effect,
        id: PolicyID,
        residual: Rc<Expr>,
        annotations: Rc<Annotations>,
    ) -> Result<(), AllocError>
        ensures { OnOk result (sheet_view self.new ≡ noted_also (sheet_view self.old)
            (located (effect_view effect) (policy_id_text id) (annotations_view annotations.value)
            (reported_residual (view residual.value)) (Some residual.value)) None) }
    {
        match effect {
            Effect::Permit => add_last(&mut self.residual_permits, (id, (residual, annotations)))?,
            Effect::Forbid => add_last(&mut self.residual_forbids, (id, (residual, annotations)))?,
        }
        Ok(())
    }

    // An erring policy.
    fn note_error(
        &mut self,
        mode: ErrorHandling,
        effect: Effect,
        id: PolicyID,
        error: EvaluationError,
        annotations: Rc<Annotations>,
    ) -> Result<(), AllocError>
        ensures { OnOk result (sheet_view self.new ≡ noted_also (sheet_view self.old)
            (located (effect_view effect) (policy_id_text id) (annotations_view annotations.value)
            (counted_report (mode_view mode) (effect_view effect) (reported_false true)) None)
            (Some (failure_of error))) }
    {
        let (error, erring) = beside(error, id.clone())?;
        add_last(
            &mut self.errors,
            AuthorizationError::PolicyEvaluationError { id: erring, error },
        )?;
        match (effect, mode) {
            (Effect::Permit, _) => add_last(
                &mut self.false_permits,
                (id, (ErrorState::Error, annotations)),
            )?,
            (Effect::Forbid, ErrorHandling::Skip) => add_last(
                &mut self.false_forbids,
                (id, (ErrorState::Error, annotations)),
            )?,
            (Effect::Forbid, ErrorHandling::ForbidOnError) => {
                add_last(&mut self.true_forbids, (id, annotations))?
            }
        }
        Ok(())
    }
}

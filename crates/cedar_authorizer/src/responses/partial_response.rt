//! What is answered to a request of which parts are unknown.
ghost use Rattle.std.specs.Prelude.{◌≡◌, ◌||◌, cond, not, Some, None, IfOk, IfSome, option_map};
ghost use Rattle.std.specs.Iterator.{IsFinite};
ghost use Rattle.cedar_model.specs.Policies.{permit, forbid, allow, deny, skip};
ghost use Rattle.cedar_model.specs.Reports.{some_row, trues, residuals, given_decision, concrete_decision};
ghost use Rattle.cedar_authorizer.specs.responses.Kept.{Keeps, GivesItems};
ghost use Rattle.cedar_decisions.specs.Decisions.{decision_view, mode_view};
ghost use Rattle.cedar_authorizer.specs.responses.Rows.{mode_of, rows_view};
ghost use Rattle.cedar_authorizer.specs.responses.Promises.{IsDecisionOf};

mod concrete;
mod copies;
mod get;
mod ids;
mod made;
mod policies;

use crate::responses::err::AuthorizationError;
use cedar_decisions::{Decision, ErrorHandling, decide, decide_concretely};
use cedar_expressions::Expr;
use cedar_fallible::beside;
use cedar_layers::policies::{Annotations, PolicyID};
use cedar_requests::Request;
pub use ids::ReportedIds;
use indexmap::IndexMap;
pub use policies::ReportedPolicies;
use std::alloc::{AllocError, Global};
use std::rc::Rc;

/// Whether a policy that is not satisfied erred. `NoError` comes first.
#[derive(Debug, Clone, Copy, PartialEq, Eq, PartialOrd, Ord, Hash)]
pub enum ErrorState {
    /// Its condition is false.
    NoError,
    /// Its condition erred.
    Error,
}

/// What is known of each policy, where parts of a request or of the store are unknown: whether it is satisfied, or what
/// is left of its condition; and how errors are handled. The maps keep the order in which the policies were decided.
#[derive(Debug, Drop)]
pub struct PartialResponse {
    /// The permits that are satisfied.
    pub satisfied_permits: IndexMap<PolicyID, Rc<Annotations>>,
    /// The permits that are not satisfied.
    pub false_permits: IndexMap<PolicyID, (ErrorState, Rc<Annotations>)>,
    /// The permits of which a residual is left.
    pub residual_permits: IndexMap<PolicyID, (Rc<Expr>, Rc<Annotations>)>,
    /// The forbids that are satisfied.
    pub satisfied_forbids: IndexMap<PolicyID, Rc<Annotations>>,
    /// The forbids that are not satisfied.
    pub false_forbids: IndexMap<PolicyID, (ErrorState, Rc<Annotations>)>,
    /// The forbids of which a residual is left.
    pub residual_forbids: IndexMap<PolicyID, (Rc<Expr>, Rc<Annotations>)>,
    /// The error of each policy that erred, in the order of the policies.
    pub errors: Vec<AuthorizationError>,
    /// The request.
    pub request: Rc<Request>,
    error_handling: ErrorHandling,
}

impl PartialResponse {
    /// The response of these policies and errors, where errors are skipped. A duplicate id within one of the
    /// six keeps its first place and takes its last value. Each iterator must come to an end. Refuses only if
    /// out of memory.
    pub fn new<
        TP: Iterator<Item = (PolicyID, Rc<Annotations>)> + Drop,
        FP: Iterator<Item = (PolicyID, (ErrorState, Rc<Annotations>))> + Drop,
        RP: Iterator<Item = (PolicyID, (Rc<Expr>, Rc<Annotations>))> + Drop,
        TF: Iterator<Item = (PolicyID, Rc<Annotations>)> + Drop,
        FF: Iterator<Item = (PolicyID, (ErrorState, Rc<Annotations>))> + Drop,
        RF: Iterator<Item = (PolicyID, (Rc<Expr>, Rc<Annotations>))> + Drop,
        E: Iterator<Item = AuthorizationError> + Drop,
    >(
        alloc: Global,
        true_permits: TP,
        false_permits: FP,
        residual_permits: RP,
        true_forbids: TF,
        false_forbids: FF,
        residual_forbids: RF,
        errors: E,
        request: Rc<Request>,
    ) -> Result<PartialResponse, AllocError>
        requires true_permits { TP.can_next true_permits × IsFinite (TP.remaining true_permits) }
        requires false_permits { FP.can_next false_permits × IsFinite (FP.remaining false_permits) }
        requires residual_permits { RP.can_next residual_permits × IsFinite (RP.remaining residual_permits) }
        requires true_forbids { TF.can_next true_forbids × IsFinite (TF.remaining true_forbids) }
        requires false_forbids { FF.can_next false_forbids × IsFinite (FF.remaining false_forbids) }
        requires residual_forbids { RF.can_next residual_forbids × IsFinite (RF.remaining residual_forbids) }
        requires errors { E.can_next errors × IsFinite (E.remaining errors) }
        ensures true_permits { IfOk result (λ r. Keeps TP.next_gives true_permits r.satisfied_permits.entries) }
        ensures false_permits { IfOk result (λ r. Keeps FP.next_gives false_permits r.false_permits.entries) }
        ensures residual_permits { IfOk result (λ r. Keeps RP.next_gives residual_permits r.residual_permits.entries) }
        ensures true_forbids { IfOk result (λ r. Keeps TF.next_gives true_forbids r.satisfied_forbids.entries) }
        ensures false_forbids { IfOk result (λ r. Keeps FF.next_gives false_forbids r.false_forbids.entries) }
        ensures residual_forbids { IfOk result (λ r. Keeps RF.next_gives residual_forbids r.residual_forbids.entries) }
        ensures errors { IfOk result (λ r. GivesItems E.next_gives errors r.errors.items) }
        ensures request { IfOk result (λ r. r.request ≡ request) }
        ensures mode { IfOk result (λ r. mode_of r ≡ skip) }
    {
        PartialResponse::new_in_mode(
            alloc,
            ErrorHandling::Skip,
            true_permits,
            false_permits,
            residual_permits,
            true_forbids,
            false_forbids,
            residual_forbids,
            errors,
            request,
        )
    }

    /// The same, where errors are handled so.
    pub fn new_in_mode<
        TP: Iterator<Item = (PolicyID, Rc<Annotations>)> + Drop,
        FP: Iterator<Item = (PolicyID, (ErrorState, Rc<Annotations>))> + Drop,
        RP: Iterator<Item = (PolicyID, (Rc<Expr>, Rc<Annotations>))> + Drop,
        TF: Iterator<Item = (PolicyID, Rc<Annotations>)> + Drop,
        FF: Iterator<Item = (PolicyID, (ErrorState, Rc<Annotations>))> + Drop,
        RF: Iterator<Item = (PolicyID, (Rc<Expr>, Rc<Annotations>))> + Drop,
        E: Iterator<Item = AuthorizationError> + Drop,
    >(
        alloc: Global,
        mode: ErrorHandling,
        true_permits: TP,
        false_permits: FP,
        residual_permits: RP,
        true_forbids: TF,
        false_forbids: FF,
        residual_forbids: RF,
        errors: E,
        request: Rc<Request>,
    ) -> Result<PartialResponse, AllocError>
        requires true_permits { TP.can_next true_permits × IsFinite (TP.remaining true_permits) }
        requires false_permits { FP.can_next false_permits × IsFinite (FP.remaining false_permits) }
        requires residual_permits { RP.can_next residual_permits × IsFinite (RP.remaining residual_permits) }
        requires true_forbids { TF.can_next true_forbids × IsFinite (TF.remaining true_forbids) }
        requires false_forbids { FF.can_next false_forbids × IsFinite (FF.remaining false_forbids) }
        requires residual_forbids { RF.can_next residual_forbids × IsFinite (RF.remaining residual_forbids) }
        requires errors { E.can_next errors × IsFinite (E.remaining errors) }
        ensures true_permits { IfOk result (λ r. Keeps TP.next_gives true_permits r.satisfied_permits.entries) }
        ensures false_permits { IfOk result (λ r. Keeps FP.next_gives false_permits r.false_permits.entries) }
        ensures residual_permits { IfOk result (λ r. Keeps RP.next_gives residual_permits r.residual_permits.entries) }
        ensures true_forbids { IfOk result (λ r. Keeps TF.next_gives true_forbids r.satisfied_forbids.entries) }
        ensures false_forbids { IfOk result (λ r. Keeps FF.next_gives false_forbids r.false_forbids.entries) }
        ensures residual_forbids { IfOk result (λ r. Keeps RF.next_gives residual_forbids r.residual_forbids.entries) }
        ensures errors { IfOk result (λ r. GivesItems E.next_gives errors r.errors.items) }
        ensures request { IfOk result (λ r. r.request ≡ request) }
        ensures mode { IfOk result (λ r. mode_of r ≡ mode_view mode) }
    {
        let (request, permits) = beside(
            request,
            effect_entries(alloc, true_permits, false_permits, residual_permits),
        )?;
        let ((request, permits), forbids) = beside(
            (request, permits),
            effect_entries(alloc, true_forbids, false_forbids, residual_forbids),
        )?;
        let ((request, permits, forbids), errors) = beside(
            (request, permits, forbids),
            collect_errors(alloc, errors),
        )?;
        Ok(PartialResponse {
            satisfied_permits: permits.satisfied,
            false_permits: permits.unsatisfied,
            residual_permits: permits.residual,
            satisfied_forbids: forbids.satisfied,
            false_forbids: forbids.unsatisfied,
            residual_forbids: forbids.residual,
            errors,
            request,
            error_handling: mode,
        })
    }
}

impl PartialResponse {
    /// How errors are handled.
    pub fn error_handling(&self) -> ErrorHandling
        ensures { mode_view result ≡ mode_of self.now }
    {
        self.error_handling
    }

    /// The decision, where it is known: `Deny` with a satisfied forbid, or where no permit is satisfied or residual;
    /// else none beside a residual forbid; else `Allow` with a satisfied permit; else none. A decision that is given is
    /// that of the policies in every world in which what is reported of them stands.
    pub fn decision(&self) -> Option<Decision>
        ensures given { option_map decision_view result ≡ given_decision (rows_view self.now) }
        ensures holds { IfSome result (λ d. IsDecisionOf (rows_view self.now) (decision_view d)) }
    {
        decide(
            self.has_true_permit(),
            self.has_residual_permit(),
            self.has_true_forbid(),
            self.has_residual_forbid(),
        )
    }

    fn has_true_permit(&self) -> bool
        ensures { result ≡ some_row (trues permit (rows_view self.now)) }
    {
        !self.satisfied_permits.is_empty()
    }

    fn has_residual_permit(&self) -> bool
        ensures { result ≡ some_row (residuals permit (rows_view self.now)) }
    {
        !self.residual_permits.is_empty()
    }

    fn has_true_forbid(&self) -> bool
        ensures { result ≡ some_row (trues forbid (rows_view self.now)) }
    {
        !self.satisfied_forbids.is_empty()
    }

    fn has_residual_forbid(&self) -> bool
        ensures { result ≡ some_row (residuals forbid (rows_view self.now)) }
    {
        !self.residual_forbids.is_empty()
    }

    // Whether a forbid is satisfied or may be.
    fn may_forbid(&self) -> bool
        ensures { result ≡ (some_row (trues forbid (rows_view self.now))
            || some_row (residuals forbid (rows_view self.now))) }
    {
        self.has_true_forbid() || self.has_residual_forbid()
    }

    // The decision where each residual counts as an error.
    fn concrete_decision(&self) -> Decision
        ensures { decision_view result ≡ concrete_decision (mode_of self.now) (rows_view self.now) }
    {
        decide_concretely(
            self.error_handling,
            self.has_true_permit(),
            self.has_true_forbid(),
            self.has_residual_forbid(),
        )
    }
}

// The three maps of an effect.
#[derive(Drop)]
struct EffectEntries {
    satisfied: IndexMap<PolicyID, Rc<Annotations>>,
    unsatisfied: IndexMap<PolicyID, (ErrorState, Rc<Annotations>)>,
    residual: IndexMap<PolicyID, (Rc<Expr>, Rc<Annotations>)>,
}

// What is kept of these pairs, map by map.
fn effect_entries<
    T: Iterator<Item = (PolicyID, Rc<Annotations>)> + Drop,
    F: Iterator<Item = (PolicyID, (ErrorState, Rc<Annotations>))> + Drop,
    R: Iterator<Item = (PolicyID, (Rc<Expr>, Rc<Annotations>))> + Drop,
>(alloc: Global, trues: T, falses: F, residuals: R) -> Result<EffectEntries, AllocError>
    requires trues { T.can_next trues × IsFinite (T.remaining trues) }
    requires falses { F.can_next falses × IsFinite (F.remaining falses) }
    requires residuals { R.can_next residuals × IsFinite (R.remaining residuals) }
    ensures trues { IfOk result (λ r. Keeps T.next_gives trues r.satisfied.entries) }
    ensures falses { IfOk result (λ r. Keeps F.next_gives falses r.unsatisfied.entries) }
    ensures residuals { IfOk result (λ r. Keeps R.next_gives residuals r.residual.entries) }
{
    let satisfied = collect_pairs(alloc, trues)?;
    let unsatisfied = collect_pairs(alloc, falses)?;
    let residual = collect_pairs(alloc, residuals)?;
    Ok(EffectEntries {
        satisfied,
        unsatisfied,
        residual,
    })
}

// What is kept of these pairs.
fn collect_pairs<V: Drop, I: Iterator<Item = (PolicyID, V)> + Drop>(
    alloc: Global,
    pairs: I,
) -> Result<IndexMap<PolicyID, V>, AllocError>
    requires { I.can_next pairs × IsFinite (I.remaining pairs) }
    ensures { IfOk result (λ m. Keeps I.next_gives pairs m.entries) }
{
    IndexMap::from_iter(alloc, pairs)
}

// These errors.
fn collect_errors<I: Iterator<Item = AuthorizationError> + Drop>(
    alloc: Global,
    errors: I,
) -> Result<Vec<AuthorizationError>, AllocError>
    requires { I.can_next errors × IsFinite (I.remaining errors) }
    ensures { IfOk result (λ es. GivesItems I.next_gives errors es.items) }
{
    Vec::from_iter(alloc, errors)
}

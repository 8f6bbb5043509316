//! What holds of the responses of any two authorizations, and of steps from them. Each function is a law, and does
//! nothing.
ghost use Rattle.std.specs.Prelude.{◌≡◌, []};
ghost use Rattle.cedar_laws.specs.EqualRuns.{HaveOneAnswer};
ghost use Rattle.cedar_extensions.specs.Computations.{AreBuiltIn};
ghost use Rattle.cedar_extensions.specs.Extensions.{extensions_in, calls_of};
ghost use Rattle.cedar_authorizer.specs.Configured.{configuration, DifferInResolution, DifferInLimit};
ghost use Rattle.cedar_authorizer.specs.Steps.{response_said};
ghost use Rattle.cedar_authorizer.specs.Stability.{OrderChangesNothing, ForbidsKeepDeny, PermitsKeepAllow};
ghost use Rattle.cedar_authorizer.specs.Stability.{ErringChangesNothing};
ghost use Rattle.cedar_authorizer.specs.Stability.{ErringPermitChangesNothing, ErringForbidDecidesAlone};
ghost use Rattle.cedar_authorizer.specs.ByHand.{BeginsChains, TakesChainsFurther, EndsWithHeadline};
ghost use Rattle.cedar_authorizer.specs.Determined.{AnswersOnce, ReportsOnce, AnswersEqually, ReportsEqually};
ghost use Rattle.cedar_authorizer.specs.Determined.{StepsReportOnce, StepsReportEqually, AnswersStay, ReportsStay};
ghost use Rattle.cedar_authorizer.specs.Determined.{AnswersAlikeWithMore, ReportsAlikeWithMore, OnlyLimitsChange};

use crate::authorizer::{Authorizer, PartialResponse, Response};
use cedar_extensions::Extensions;

/// Four facts of two responses that `is_authorized` gave where nothing is unknown, in one way to handle errors: the
/// order of policies changes nothing; an added forbid never turns Deny into Allow; an added permit never turns Allow
/// into Deny; and where errors are skipped, taking out an erring policy changes neither decision nor reasons. In each
/// way that holds of an erring permit; in `ForbidOnError`, taking out an erring forbid changes the decision only where
/// no other forbid counts and some permit is satisfied.
pub fn responses_are_stable(response: &Response, other: &Response)
    ensures order { OrderChangesNothing response.now other.now }
    ensures forbids { ForbidsKeepDeny response.now other.now }
    ensures permits { PermitsKeepAllow response.now other.now }
    ensures erring { ErringChangesNothing response.now other.now }
    ensures erring_permit { ErringPermitChangesNothing response.now other.now }
    ensures erring_forbid { ErringForbidDecidesAlone response.now other.now }
{}

/// The headline of steps that are taken call by call, by authorizers that differ in their resolution alone. What
/// `is_authorized_core` answers is what a chain without steps gives; where a chain gives a response without the
/// recursion limit, what `reauthorize` answers from it is what the chain with that step gives, a refusal too; and what
/// a chain gives has the headline.
pub fn steps_make_a_chain(
    authorizer: &Authorizer<'_>,
    next: &Authorizer<'_>,
    response: &PartialResponse,
)
    ensures begins { BeginsChains (configuration authorizer.now) response.now }
    ensures goes_on { DifferInResolution authorizer.now next.now
        → TakesChainsFurther (configuration authorizer.now) (configuration next.now) response.now }
    ensures ends { EndsWithHeadline (configuration authorizer.now) response.now }
{}

/// Two responses that `is_authorized` gave to the same policies, with all else equal, have the same decision, the same
/// reasons, and errors of the same policies in order, each of the same kind. Where each stored function has one answer
/// to the same arguments, the errors are the same too.
pub fn equal_calls_answer_alike(authorizer: &Authorizer<'_>, response: &Response, other: &Response)
    ensures alike { AnswersOnce (configuration authorizer.now) response.now other.now }
    ensures equal { AnswersEqually (configuration authorizer.now) response.now other.now }
{}

/// Two responses that `is_authorized_core` gave to the same policies, with all else equal, report the same of each,
/// residuals but for the calls in them, and hold errors of the same policies in order, each of the same kind; so the
/// same decision is given, and the same policies must and may determine it. Where each stored function has one answer
/// to the same arguments, rows and errors are the same.
pub fn equal_calls_report_alike(
    authorizer: &Authorizer<'_>,
    response: &PartialResponse,
    other: &PartialResponse,
)
    ensures alike { ReportsOnce (configuration authorizer.now) response.now other.now }
    ensures equal { ReportsEqually (configuration authorizer.now) response.now other.now }
{}

/// Two responses that `reauthorize` gave from one response, with all else equal, where it evaluated no context again,
/// report the same of each policy, residuals but for the calls in them, and hold errors of the same kinds. Where each
/// stored function has one answer to the same arguments, they say the same, whatever the context.
pub fn equal_steps_report_alike(
    authorizer: &Authorizer<'_>,
    before: &PartialResponse,
    response: &PartialResponse,
    other: &PartialResponse,
)
    ensures alike { StepsReportOnce (configuration authorizer.now) (response_said before.now) response.now other.now }
    ensures equal { StepsReportEqually (configuration authorizer.now) (response_said before.now) response.now
        other.now }
{}

/// No function that the caller made, and functions that are all the built-in `unknown`, have one answer to the same
/// arguments; so have the standard functions alone.
pub fn functions_have_one_answer(extensions: &Extensions<'_>)
    ensures none { extensions_in extensions.now ≡ [] → HaveOneAnswer (calls_of extensions.now) }
    ensures built_in { AreBuiltIn extensions.now → HaveOneAnswer (calls_of extensions.now) }
{}

/// What `is_authorized` answered without the recursion limit it may answer with more levels, and by an authorizer that
/// differs in having more it answers the same decision, the same reasons and the same kinds of errors.
pub fn more_levels_answer_alike(
    authorizer: &Authorizer<'_>,
    more: &Authorizer<'_>,
    response: &Response,
    other: &Response,
)
    ensures stays { AnswersStay (configuration authorizer.now) response.now }
    ensures alike { DifferInLimit authorizer.now more.now
        → AnswersAlikeWithMore (configuration authorizer.now) (configuration more.now) response.now other.now }
{}

/// What `is_authorized_core` answered without the recursion limit it may answer with more levels, and by an authorizer
/// that differs in having more it reports alike. Where the limit is recorded, only what is reported of the policies
/// that met it can change.
pub fn more_levels_report_alike(
    authorizer: &Authorizer<'_>,
    more: &Authorizer<'_>,
    response: &PartialResponse,
    other: &PartialResponse,
)
    ensures stays { ReportsStay (configuration authorizer.now) response.now }
    ensures alike { DifferInLimit authorizer.now more.now
        → ReportsAlikeWithMore (configuration authorizer.now) (configuration more.now) response.now other.now }
    ensures limits { DifferInLimit authorizer.now more.now
        → OnlyLimitsChange (configuration authorizer.now) (configuration more.now) response.now other.now }
{}

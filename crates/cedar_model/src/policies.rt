//! Decision and reasons. Each function is a law, and does nothing.
ghost use Rattle.cedar_model.specs.laws.Policies.{OrderChangesNothing, ForbidsKeepDeny, PermitsKeepAllow};
ghost use Rattle.cedar_model.specs.laws.Policies.{ErringChangesNothing, ErringPermitChangesNothing};
ghost use Rattle.cedar_model.specs.laws.Policies.{ErringForbidDecidesAlone, SkippingCountsAsItIs};

/// Four facts of decision and reasons, in each mode of handling errors: the order of policies changes nothing; an added
/// forbid never turns Deny into Allow; an added permit never turns Allow into Deny; and where errors are skipped,
/// taking out an erring policy changes nothing. In each mode that holds of an erring permit; where erring forbids
/// count, one changes the decision only where no other forbid counts and some permit is satisfied.
pub fn modes_are_stable()
    ensures order { OrderChangesNothing }
    ensures forbids { ForbidsKeepDeny }
    ensures permits { PermitsKeepAllow }
    ensures erring { ErringChangesNothing }
    ensures erring_permit { ErringPermitChangesNothing }
    ensures erring_forbid { ErringForbidDecidesAlone }
    ensures skipping { SkippingCountsAsItIs }
{}

//! Authorization where nothing is unknown. Each function is a law, and does nothing.
ghost use Rattle.cedar_model.specs.World.{World, Extensions, Functions};
ghost use Rattle.cedar_model.specs.laws.Authorizations.{KnownAnswersAreExact, KnownConditionsAreExact};
ghost use Rattle.cedar_model.specs.laws.Authorizations.{KnownResponsesAreExact, LowConditionsMeetNoLimit};
ghost use Rattle.cedar_model.specs.laws.Authorizations.{OwnWorldCompletes, OrderChangesNoResponse, AddedForbidKeepsDeny};
ghost use Rattle.cedar_model.specs.laws.Authorizations.{AddedPermitKeepsAllow, ErringChangesNoResponse};
ghost use Rattle.cedar_model.specs.laws.Authorizations.{ErringPermitChangesNoResponse, ErringForbidDecidesAlone};

use crate::levels::AnyFunctions;

/// Where nothing is unknown, an answer, a decided condition and, in each mode, a response without the recursion limit
/// are exact; and where no condition is higher than the limit, none meets it.
pub fn known_is_exact<F: AnyFunctions>(functions: &F)
    ensures answers { KnownAnswersAreExact (F.calls functions.now) }
    ensures conditions { KnownConditionsAreExact (F.calls functions.now) }
    ensures responses { KnownResponsesAreExact (F.calls functions.now) }
    ensures limit { LowConditionsMeetNoLimit (F.calls functions.now) }
{}

/// The own world completes a call in which nothing is unknown.
pub fn own_world_completes()
    ensures { OwnWorldCompletes }
{}

/// Four facts of exact responses, in each mode of handling errors; of the fourth, what an erring permit does and what
/// an erring forbid that counts does.
pub fn exact_responses_are_stable()
    ensures order { (X : Extensions) (ans : Functions) (w : World) → OrderChangesNoResponse X ans w }
    ensures forbids { (X : Extensions) (ans : Functions) (w : World) → AddedForbidKeepsDeny X ans w }
    ensures permits { (X : Extensions) (ans : Functions) (w : World) → AddedPermitKeepsAllow X ans w }
    ensures erring { (X : Extensions) (ans : Functions) (w : World) → ErringChangesNoResponse X ans w }
    ensures erring_permit { (X : Extensions) (ans : Functions) (w : World) → ErringPermitChangesNoResponse X ans w }
    ensures erring_forbid { (X : Extensions) (ans : Functions) (w : World) → ErringForbidDecidesAlone X ans w }
{}

//! What a decision that is told says of whole requests. Each function is a law, and does nothing.
ghost use Rattle.cedar_authorizer.specs.Configured.{configuration};
ghost use Rattle.cedar_plan.specs.Worlds.{DecisionsAreOfRequests, DecisionsAreOfSteps, DecisionsAreAnswered};

use cedar_authorizer::authorizer::Authorizer;

/// A decision that `allows` tells is that of the whole request, in each completion of the request and the store that
/// has the entity as its row: of a request that `is_authorized_core` answered (its clause `stands`), and of one that
/// `authorize_in_steps` answered (its clause `headline`). Where nothing of another request is unknown, and its own
/// world is such a completion, the decision is the one that `is_authorized` answers to it (its clause `known`).
pub fn decisions_are_of_requests(authorizer: &Authorizer<'_>)
    ensures requests { DecisionsAreOfRequests (configuration authorizer.now) }
    ensures steps { DecisionsAreOfSteps (configuration authorizer.now) }
    ensures answered { DecisionsAreAnswered (configuration authorizer.now) }
{}

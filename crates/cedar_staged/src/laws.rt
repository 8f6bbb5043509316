//! What holds of responses that crossed a wire. Each function is a law, and does nothing.
ghost use Rattle.cedar_authorizer.specs.Configured.{configuration, DifferInResolution};
ghost use Rattle.cedar_staged.specs.Relays.{RelaysHaveTheHeadline};
ghost use Rattle.cedar_staged.specs.Wires.{TakesItsChainsFurther};

use cedar_authorizer::authorizer::{Authorizer, PartialResponse};

/// The headline of a chain whose steps ran on different machines. Where a chain gives a response without the recursion
/// limit, and another response says the same, as one that was read of what was written of the first, then what
/// `reauthorize` answers from that other one is what the chain with that step gives, a refusal too. So, by
/// `steps_make_a_chain`, it has the headline. The authorizers differ in their resolution alone: they use the same
/// extensions. That what is told of the errors is the same is not asked.
pub fn steps_from_the_same_go_on(
    authorizer: &Authorizer<'_>,
    next: &Authorizer<'_>,
    response: &PartialResponse,
    read: &PartialResponse,
)
    ensures { DifferInResolution authorizer.now next.now → TakesItsChainsFurther (configuration authorizer.now)
        (configuration next.now) response.now read.now }
{}

/// The headline of steps on different machines. Where the first machine answered a request by the core call, and each of
/// the others read what says the same as what the one before answered, without the recursion limit, and took a step
/// from it by `reauthorize`, then what the last one answers has the headline of all these steps, as if one machine had
/// taken them. The authorizers differ in their resolution alone.
pub fn relayed_steps_have_the_headline(authorizer: &Authorizer<'_>)
    ensures { RelaysHaveTheHeadline authorizer.now }
{}

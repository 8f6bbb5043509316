//! What is read is what was written. The function is a law, and does nothing.
ghost use Rattle.cedar_extensions.specs.Extensions.{extensions_view, calls_of};
ghost use Rattle.cedar_relays.specs.Travels.{WhatIsReadComesBack};

use cedar_authorizer::authorizer::PartialResponse;
use cedar_extensions::Extensions;

/// Where the parts of a response read back (`CanTravel`), each of its expressions and annotations as itself, a residual
/// with an unknown, and no two policies under one id, what is read of the JSON that was written of it says the same: how
/// errors are handled, the request and what is reported of each policy; each error comes back, in order, as its kind and
/// what it says; and a recorded recursion limit is recorded again. That the context is evaluated to what it was is a
/// premise. So a step from what was read goes on where the response that was written stood
/// (`steps_from_the_same_go_on`, `relayed_steps_have_the_headline` of `cedar_staged`).
pub fn what_is_read_comes_back(
    extensions: &Extensions<'_>,
    response: &PartialResponse,
    read: &PartialResponse,
)
    ensures { WhatIsReadComesBack (extensions_view extensions.now) (calls_of extensions.now) response.now read.now }
{}

//! How high what is read is, and which functions it calls. The functions are laws, and do nothing.
ghost use Rattle.cedar_text_parser.specs.Heights.{TreesBoundHeights};
ghost use Rattle.cedar_text_parser.specs.TermCalls.{KnownCallsStayKnown, WhatIsReadCallsKnown};

/// An expression has at most as many levels as the tree that it is read of.
pub fn trees_bound_heights()
    ensures { TreesBoundHeights }
{}

/// Where each call in a tree is of a function that is known, with its number of arguments, so is each call in the
/// expression that is read of it, which has no unknown: in a text an unknown is a call.
pub fn known_calls_stay_known()
    ensures trees { KnownCallsStayKnown }
    ensures read { WhatIsReadCallsKnown }
{}

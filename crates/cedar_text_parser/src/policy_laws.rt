//! Which functions policies call that are read. The function is a law, and does nothing.
ghost use Rattle.cedar_text_parser.specs.PolicyTermCalls.{ReadPolicyCallsKnown, ReadPoliciesCallKnown};

/// Each call in the condition of a policy that is read, its scope included, is of a function that is known, with its
/// number of arguments, and no unknown stands in it; so it is of each policy and each template of a text.
pub fn known_calls_of_policies()
    ensures policy { ReadPolicyCallsKnown }
    ensures policies { ReadPoliciesCallKnown }
{}

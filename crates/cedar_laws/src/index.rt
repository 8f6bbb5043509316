//! What an index of policies by their scopes looks at. Each function is a law, and does nothing.
ghost use Rattle.cedar_laws.specs.Index.{ReachedAreWithinReach, ReachedAreBounded, LookedAtAreBounded};
ghost use Rattle.cedar_laws.specs.Index.{WithinReachAreFewer};

/// Of the policies that `within_reach` answers, those whose scopes ask of principal, action and resource for nothing,
/// for entities of which one is among these, or for the type of one of these, are exactly those of the whole set that
/// do, in order: an index loses none of them.
pub fn reached_policies_are_within_reach()
    ensures { ReachedAreWithinReach }
{}

/// They are at most as many as are in the rest (their scopes ask for no entity and no type) and, for each of the
/// entities and for each of their types, counted once, ask for it.
pub fn reached_policies_are_bounded()
    ensures { ReachedAreBounded }
{}

/// So are the policies that `within_reach` answers, by its clauses `reach` and `looked_at`.
pub fn policies_looked_at_are_bounded()
    ensures { LookedAtAreBounded }
{}

/// Of each kind, policies within reach are at most as many as the whole set has.
pub fn policies_within_reach_are_fewer()
    ensures { WithinReachAreFewer }
{}

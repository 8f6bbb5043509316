//! What holds of any linked policy. Each function is a law, and does nothing.
ghost use Rattle.cedar_policy_json_text.specs.Placed.{PlacedMeansTheSame, NothingIsPlaced};

/// A linked policy means the same with its entities in place of slots, in any world.
pub fn placed_policies_mean_the_same()
    ensures { PlacedMeansTheSame }
{}

/// Where no slot has a value, nothing is placed.
pub fn nothing_is_placed_without_values()
    ensures { NothingIsPlaced }
{}

//! What stays as it is where more entities come. Each function is a law, and does nothing.
ghost use Rattle.cedar_hierarchy.specs.LeftOut.{AncestorsStay};

/// Of each entity that a partial closure records, parents lead to the same ancestors in every larger list of entities
/// in which those that are recorded have the same parents.
pub fn ancestors_stay()
    ensures { AncestorsStay }
{}

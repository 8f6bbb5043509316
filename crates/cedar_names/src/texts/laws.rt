//! What the texts of names tell. Each function is a law, and does nothing.
ghost use Rattle.cedar_names.specs.Texts.{EntityTextsAreInjective};

/// Entities that print alike are one entity, whatever the text of their types: before each `"` of an id in double
/// quotes stands a `\`, and before the quote that opens it a `:`.
pub fn entities_that_print_alike_are_one()
    ensures { EntityTextsAreInjective }
{}

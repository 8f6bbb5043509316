//! The text of an entity's name. Each function is a law, and does nothing.
ghost use Rattle.cedar_model.specs.Printing.{PrintedEntitiesComeBack, PrintingIsInjective};

/// An entity's name is read back from its text, so no two entities print alike.
pub fn printed_entities_come_back()
    ensures back { PrintedEntitiesComeBack }
    ensures injective { PrintingIsInjective }
{}

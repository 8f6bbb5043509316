//! The order of values between kinds. The function is a law, and does nothing.
ghost use Rattle.cedar_model.specs.laws.Kinds.{KindsComeInOrder, SetsAreOrdered, RecordsAreOrdered};

/// Kinds come in order, sets before records among them; sets are compared element by element, records key by key.
pub fn kinds_come_in_order()
    ensures kinds { KindsComeInOrder }
    ensures sets { SetsAreOrdered }
    ensures records { RecordsAreOrdered }
{}

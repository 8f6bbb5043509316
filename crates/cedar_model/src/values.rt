//! The order of values, their keys and canonical sets. Each function is a law, and does nothing.
ghost use Rattle.cedar_model.specs.laws.Values.{ValuesAreOrdered, EqualIsEquality, TestIsEquality, TestIsEquivalence};
ghost use Rattle.cedar_model.specs.laws.Values.{KeysComeBack, BoolsAreOrdered, LongsAreOrdered, TextsAreOrdered};
ghost use Rattle.cedar_model.specs.laws.Values.{EntitiesAreOrdered, ExtensionValuesAreOrdered, CanonicalSetsAreInOrder};
ghost use Rattle.cedar_model.specs.laws.Values.{CanonicalSetsKeepTheFirst, CanonicalSetsHaveTheMembers};
ghost use Rattle.cedar_model.specs.laws.Values.{OrderedListsAreOne, OrderedMembersAreOne, OrderedListsAreCanonical};
ghost use Rattle.cedar_model.specs.laws.Values.{CanonicalSetsAreAbstractSets, ValuesAreLargerThanParts};

/// The order of values is total, and what it calls equal is equal.
pub fn values_are_ordered()
    ensures total { ValuesAreOrdered }
    ensures equal { EqualIsEquality }
    ensures test { TestIsEquality }
    ensures equivalence { TestIsEquivalence }
{}

/// The order at each kind of value.
pub fn kinds_are_ordered()
    ensures bools { BoolsAreOrdered }
    ensures longs { LongsAreOrdered }
    ensures texts { TextsAreOrdered }
    ensures entities { EntitiesAreOrdered }
    ensures extensions { ExtensionValuesAreOrdered }
{}

/// A key loses nothing.
pub fn keys_come_back()
    ensures { KeysComeBack }
{}

/// A canonical set is strictly in order, has what the list has, and keeps the first of equal elements; nothing else
/// does.
pub fn sets_are_canonical()
    ensures in_order { CanonicalSetsAreInOrder }
    ensures first { CanonicalSetsKeepTheFirst }
    ensures members { CanonicalSetsHaveTheMembers }
    ensures one { OrderedListsAreOne }
    ensures one_abstract { OrderedMembersAreOne }
    ensures itself { OrderedListsAreCanonical }
    ensures forgets { CanonicalSetsAreAbstractSets }
{}

/// A value is larger than each part.
pub fn values_are_larger_than_parts()
    ensures { ValuesAreLargerThanParts }
{}

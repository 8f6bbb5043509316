//! Laws of ranges. Each function is a law, and does nothing.
ghost use Rattle.std.specs.Prelude.{◌≡◌, ◌↔◌, ℕ, List, Some, true};
ghost use Rattle.cedar_ip.specs.Ranges.{Range, IsRange, key_of_range};
ghost use Rattle.cedar_ip.specs.Texts.{range_of};
ghost use Rattle.cedar_ip.specs.Grammar.{IsRangeText};
ghost use Rattle.cedar_ip.specs.Keys.{is_in_range, is_loopback, is_multicast};
ghost use Rattle.cedar_ip.specs.Addresses.{IsWithin, EachIsLoopback, EachIsMulticast};

/// `key` reads the texts of the grammar and no others, each as the range that it writes.
pub fn reading_is_of_the_grammar()
    ensures reads { (text : List ℕ) (r : Range) → IsRangeText text r → range_of text ≡ Some r }
    ensures no_others { (text : List ℕ) (r : Range) → range_of text ≡ Some r → IsRangeText text r }
{}

/// What a text writes is a range: as many octets as its family has, and a prefix that is no longer than these.
pub fn texts_write_ranges()
    ensures { (text : List ℕ) (r : Range) → range_of text ≡ Some r → IsRange r }
{}

/// Ranges with the same key are the same range.
pub fn keys_tell_ranges_apart()
    ensures { (r s : Range) → key_of_range r ≡ key_of_range s → r ≡ s }
{}

/// One range is in another just where each address of it is one of the other: never where they are of two families.
pub fn in_range_is_of_each_address()
    ensures { (r s : Range) → IsRange r → IsRange s →
        (is_in_range (key_of_range r) (key_of_range s) ≡ true) ↔ IsWithin r s }
{}

/// A range is of loopback addresses, and of multicast addresses, just where each of its addresses is one.
pub fn kinds_are_of_each_address()
    ensures loopback { (r : Range) → IsRange r → (is_loopback (key_of_range r) ≡ true) ↔ EachIsLoopback r }
    ensures multicast { (r : Range) → IsRange r → (is_multicast (key_of_range r) ≡ true) ↔ EachIsMulticast r }
{}

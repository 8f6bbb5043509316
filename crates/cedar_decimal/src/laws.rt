//! Laws of decimals. Each function is a law, and does nothing.
ghost use Rattle.std.specs.Prelude.{◌≡◌, ◌↔◌, ◌<ℤ◌, ◌≤ℤ◌, ℕ, ℤ, List, Some, true, FitsSigned};
ghost use Rattle.std.specs.Int.{w64};
ghost use Rattle.std.specs.Ordering.{nat_cmp, int_cmp, is_lt, is_le, is_gt, is_ge};
ghost use Rattle.std.specs.Cmp.Lexicographic.{slice_cmp};
ghost use Rattle.cedar_decimal.specs.Decimals.{decimal_of};
ghost use Rattle.cedar_decimal.specs.Grammar.{IsDecimal};
ghost use Rattle.cedar_decimal.specs.Keys.{key_of_decimal};

/// `parse` reads the texts of the grammar and no others, each as the number that it writes.
pub fn parsing_is_of_the_grammar()
    ensures reads { (text : List ℕ) (n : ℤ) → IsDecimal text n → decimal_of text ≡ Some n }
    ensures no_others { (text : List ℕ) (n : ℤ) → decimal_of text ≡ Some n → IsDecimal text n }
{}

/// Numbers with the same key are the same number.
pub fn keys_tell_numbers_apart()
    ensures { (a b : ℤ) → FitsSigned w64 a → FitsSigned w64 b → key_of_decimal a ≡ key_of_decimal b → a ≡ b }
{}

/// The order of keys is the order of the numbers that they are the keys of.
pub fn keys_are_in_the_order_of_numbers()
    ensures { (a b : ℤ) → FitsSigned w64 a → FitsSigned w64 b →
        slice_cmp nat_cmp (key_of_decimal a) (key_of_decimal b) ≡ int_cmp a b }
{}

/// So each comparison of keys is that of the numbers.
pub fn comparisons_are_of_numbers()
    ensures less { (a b : ℤ) → FitsSigned w64 a → FitsSigned w64 b →
        (is_lt (slice_cmp nat_cmp (key_of_decimal a) (key_of_decimal b)) ≡ true) ↔ (a <ℤ b) }
    ensures less_or_equal { (a b : ℤ) → FitsSigned w64 a → FitsSigned w64 b →
        (is_le (slice_cmp nat_cmp (key_of_decimal a) (key_of_decimal b)) ≡ true) ↔ (a ≤ℤ b) }
    ensures greater { (a b : ℤ) → FitsSigned w64 a → FitsSigned w64 b →
        (is_gt (slice_cmp nat_cmp (key_of_decimal a) (key_of_decimal b)) ≡ true) ↔ (b <ℤ a) }
    ensures greater_or_equal { (a b : ℤ) → FitsSigned w64 a → FitsSigned w64 b →
        (is_ge (slice_cmp nat_cmp (key_of_decimal a) (key_of_decimal b)) ≡ true) ↔ (b ≤ℤ a) }
{}

//! Laws of datetimes and durations. Each function is a law, and does nothing.
ghost use Rattle.std.specs.Prelude.{◌≡◌, ℕ, ◌+◌, ◌<◌, ◌≤◌, ◌%◌, ◌==◌, ◌&&◌, ◌||◌, not, true, false, Some, None, List, codes, slice_index, ℤ, pos, negsuc, ◌+ℤ◌, ◌<ℤ◌, ◌≤ℤ◌, FitsSigned};
ghost use Rattle.std.specs.Int.{w64, int_rem_euclid};
ghost use Rattle.std.specs.Cmp.Lexicographic.{slice_cmp};
ghost use Rattle.std.specs.Ordering.{nat_cmp, int_cmp};
ghost use Rattle.cedar_datetime.specs.Calendar.{is_day, day_of, IsBefore};
ghost use Rattle.cedar_datetime.specs.Datetime.{datetime_of};
ghost use Rattle.cedar_datetime.specs.Duration.{duration_of, written};
ghost use Rattle.cedar_datetime.specs.Keys.{key, value_of_key};
ghost use Rattle.cedar_datetime.specs.Operations.{in_64_bits, last_midnight, since_midnight};

/// 1970-01-01 is day 0, and each day has the number behind that of the day before it: within a month, from the last day
/// of a month to the first of the next, and from the last day of a year to the first of the next.
pub fn days_are_counted()
    ensures epoch { day_of 1970 1 1 ≡ Some (pos 0) }
    ensures day { (y m d : ℕ) (n : ℤ) → day_of y m d ≡ Some n → is_day y m (d + 1) ≡ true →
        day_of y m (d + 1) ≡ Some (n +ℤ pos 1) }
    ensures month { (y m d : ℕ) (n : ℤ) → day_of y m d ≡ Some n → is_day y m (d + 1) ≡ false → m < 12 →
        day_of y (m + 1) 1 ≡ Some (n +ℤ pos 1) }
    ensures year { (y : ℕ) (n : ℤ) → day_of y 12 31 ≡ Some n → y < 9999 →
        day_of (y + 1) 1 1 ≡ Some (n +ℤ pos 1) }
{}

/// A day that comes before another has a smaller number.
pub fn days_are_in_order()
    ensures { (y m d y₂ m₂ d₂ : ℕ) (a b : ℤ) → day_of y m d ≡ Some a → day_of y₂ m₂ d₂ ≡ Some b →
        IsBefore y m d y₂ m₂ d₂ → a <ℤ b }
{}

/// Every fourth year has a 29 February, but of the centuries only every fourth.
pub fn leap_days_are_every_fourth_year()
    ensures { (y : ℕ) → y ≤ 9999 →
        is_day y 2 29 ≡ ((y % 4 == 0) && (not (y % 100 == 0) || (y % 400 == 0))) }
{}

/// Keys are in order exactly as their numbers are.
pub fn keys_are_in_order()
    ensures { (a b : ℤ) → FitsSigned w64 a → FitsSigned w64 b → slice_cmp nat_cmp (key a) (key b) ≡ int_cmp a b }
{}

/// A key has the number that it was made of, and eight bytes are the key of the number that they have.
pub fn keys_are_read_back()
    ensures value { (a : ℤ) → FitsSigned w64 a → value_of_key (key a) ≡ Some a }
    ensures key { (bs : List ℕ) (a : ℤ) → ((i : ℕ) → slice_index bs i < 256) → value_of_key bs ≡ Some a →
        key a ≡ bs }
{}

/// The last midnight and the time since then make up the datetime; that is a midnight, and the time is below a day.
pub fn dates_and_times_make_up_datetimes()
    ensures sum { (z d : ℤ) → last_midnight z ≡ Some d → d +ℤ since_midnight z ≡ z }
    ensures midnight { (z d : ℤ) → last_midnight z ≡ Some d → int_rem_euclid d (pos 86_400_000) ≡ pos 0 }
    ensures time { (z : ℤ) → (pos 0 ≤ℤ since_midnight z) × (since_midnight z <ℤ pos 86_400_000) }
{}

/// The text in which a number of milliseconds is written is read as that number, and from `1970-01-01` on, which is 0,
/// it is the datetime of that number: so a value that is written by these texts is the value.
pub fn written_durations_are_read()
    ensures read { (z : ℤ) → FitsSigned w64 z → duration_of (written z) ≡ Some z }
    ensures epoch { datetime_of (codes "1970-01-01") ≡ Some (pos 0) }
    ensures offset { (z : ℤ) → FitsSigned w64 z → in_64_bits (pos 0 +ℤ z) ≡ Some z }
{}

/// Some texts, and what they write: an offset is subtracted, behind the seconds stand thousandths, and `ms` is no
/// minute.
pub fn texts_are_read()
    ensures ahead { datetime_of (codes "2024-02-29T01:30:00.001+0130") ≡ Some (pos 1_709_164_800_001) }
    ensures behind { datetime_of (codes "1969-12-31T22:00:00-0200") ≡ Some (pos 0) }
    ensures no_leap_day { datetime_of (codes "1900-02-29") ≡ None }
    ensures units { duration_of (codes "1d2h3m4s5ms") ≡ Some (pos 93_784_005) }
    ensures milliseconds { duration_of (codes "5ms") ≡ Some (pos 5) }
    ensures least { duration_of (codes "-9223372036854775808ms") ≡ Some (negsuc 9_223_372_036_854_775_807) }
    ensures largest { duration_of (codes "9223372036854775808ms") ≡ None }
    ensures no_unit { duration_of (codes "-") ≡ None }
    ensures order { duration_of (codes "1h1d") ≡ None }
{}

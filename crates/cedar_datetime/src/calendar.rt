//! Days by their numbers, over the proved calendar of `jiff_core`.
ghost use Rattle.std.specs.Prelude.{◌≡◌, ◌≤◌, IfSome, unsigned_abs};
ghost use Rattle.cedar_datetime.specs.Calendar.{day_of};

use jiff_core::civil::{self, Date};

// The number of a day, if the calendar has that day and its year is one of 0000 to 9999.
pub(crate) fn day_number(year: u32, month: u32, day: u32) -> Option<i64>
    ensures value { result ≡ day_of year month day }
    ensures small { IfSome result (λ z. unsigned_abs z ≤ 5_000_000) }
{
    if year > 9999 || month < 1 || month > 12 || day < 1 {
        return None;
    }
    let (year, month) = (year as i16, month as u8);
    if day > u32::from(civil::days_in_month(year, month)) {
        return None;
    }
    let date = Date {
        year,
        month,
        day: day as u8,
    };
    Some(i64::from(date.to_unix_epoch_day()))
}

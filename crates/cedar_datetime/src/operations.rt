//! What Cedar's methods answer on datetimes and durations, each a number of milliseconds in 64 bits: a datetime since
//! 1970-01-01T00:00:00Z.
ghost use Rattle.std.specs.Prelude.{◌≡◌, ◌+ℤ◌, ◌-ℤ◌};
ghost use Rattle.cedar_datetime.specs.Operations.{in_64_bits, last_midnight, since_midnight, in_seconds, in_minutes, in_hours, in_days};

const DAY: i64 = 86_400_000;

/// The datetime that is the duration later, or earlier where the duration is negative; none where that is not within
/// 64 bits. It is written `datetime("1970-01-01").offset(duration("Nms"))`, where N is the answer.
pub fn offset(datetime: i64, duration: i64) -> Option<i64>
    ensures { result ≡ in_64_bits (datetime +ℤ duration) }
{
    datetime.checked_add(duration)
}

/// The duration from `earlier` to `datetime`, negative where `earlier` is the later one; none where it is not within
/// 64 bits. It is written `duration("Nms")`.
pub fn duration_since(datetime: i64, earlier: i64) -> Option<i64>
    ensures { result ≡ in_64_bits (datetime -ℤ earlier) }
{
    datetime.checked_sub(earlier)
}

/// The last midnight, in UTC, that is not after the datetime, also before 1970; none where that is not within 64 bits.
/// It is written as `offset` is.
pub fn to_date(datetime: i64) -> Option<i64>
    ensures { result ≡ last_midnight datetime }
{
    datetime.checked_sub(to_time(datetime))
}

/// The duration since that midnight, never negative and below a day. It is written `duration("Nms")`.
pub fn to_time(datetime: i64) -> i64
    ensures { result ≡ since_midnight datetime }
{
    datetime.rem_euclid(DAY)
}

/// The milliseconds of a duration.
pub fn to_milliseconds(duration: i64) -> i64
    ensures { result ≡ duration }
{
    duration
}

/// The whole seconds of a duration, cut towards zero.
pub fn to_seconds(duration: i64) -> i64
    ensures { result ≡ in_seconds duration }
{
    duration / 1000
}

/// The whole minutes of a duration, cut towards zero.
pub fn to_minutes(duration: i64) -> i64
    ensures { result ≡ in_minutes duration }
{
    duration / 60_000
}

/// The whole hours of a duration, cut towards zero.
pub fn to_hours(duration: i64) -> i64
    ensures { result ≡ in_hours duration }
{
    duration / 3_600_000
}

/// The whole days of a duration, cut towards zero.
pub fn to_days(duration: i64) -> i64
    ensures { result ≡ in_days duration }
{
    duration / DAY
}

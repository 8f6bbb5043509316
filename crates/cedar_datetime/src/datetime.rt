//! The texts of datetimes.
ghost use Rattle.std.specs.Prelude.{◌≡◌, ◌≤◌, ◌<◌, length, IfSome, IsTrue, unsigned_abs};
ghost use Rattle.cedar_datetime.specs.Datetime.{begins_as, has_form, clock, day_at, clock_at, thousandths_at, offset_at, zone_of, in_utc, time_of, zoned_time_of, moment, datetime_of};
ghost use Rattle.cedar_datetime.specs.Datetime as Datetime;

use crate::calendar::day_number;
use crate::digits::{digit, two};

const DAY: i64 = 86_400_000;

/// The datetime that a text writes, in milliseconds since 1970-01-01T00:00:00Z; none where it writes none. A text is
/// `YYYY-MM-DD` (which is midnight in UTC), or that with `Thh:mm:ss` or `Thh:mm:ss.SSS` and then `Z`, `+hhmm` or
/// `-hhmm` behind it, in ASCII digits: the calendar has the day, the hour is below 24, minute and second are below 60,
/// also of the offset, which is subtracted.
pub fn parse(text: &str) -> Option<i64>
    ensures { result ≡ datetime_of text.now }
{
    let bytes = text.as_bytes();
    if begins_as(b"0000-00-00", bytes) {
        moment(day(bytes), time(&bytes[10..]))
    } else {
        None
    }
}

#[tactic(auto, unfolding(crate::specs::Datetime::moment))]
fn moment(day: Option<i64>, time: Option<i64>) -> Option<i64>
    requires day { IfSome day (λ z. unsigned_abs z ≤ 5_000_000) }
    requires time { IfSome time (λ z. unsigned_abs z ≤ 500_000_000) }
    ensures { result ≡ moment day time }
{
    match day {
        Some(day) => match time {
            Some(time) => Some(day * DAY + time),
            None => None,
        },
        None => None,
    }
}

#[tactic(auto, unfolding(crate::specs::Datetime::day_at))]
fn day(bytes: &[u8]) -> Option<i64>
    requires { 10 ≤ length bytes.now }
    ensures value { result ≡ day_at bytes.now }
    ensures small { IfSome result (λ z. unsigned_abs z ≤ 5_000_000) }
{
    day_number(
        two(bytes, 0) * 100 + two(bytes, 2),
        two(bytes, 5),
        two(bytes, 8),
    )
}

#[tactic(auto, unfolding(crate::specs::Datetime::time_of))]
fn time(bytes: &[u8]) -> Option<i64>
    ensures value { result ≡ time_of bytes.now }
    ensures small { IfSome result (λ z. unsigned_abs z ≤ 500_000_000) }
{
    if bytes.is_empty() {
        Some(0)
    } else {
        zoned_time(bytes)
    }
}

#[tactic(auto, unfolding(crate::specs::Datetime::zoned_time_of))]
fn zoned_time(bytes: &[u8]) -> Option<i64>
    ensures value { result ≡ zoned_time_of bytes.now }
    ensures small { IfSome result (λ z. unsigned_abs z ≤ 500_000_000) }
{
    if begins_as(b"T00:00:00.000", bytes) {
        in_utc(clock_at(bytes), thousandths(bytes), zone(&bytes[13..]))
    } else if begins_as(b"T00:00:00", bytes) {
        in_utc(clock_at(bytes), 0, zone(&bytes[9..]))
    } else {
        None
    }
}

#[tactic(auto, unfolding(crate::specs::Datetime::in_utc))]
fn in_utc(clock: Option<u32>, thousandths: u32, zone: Option<i64>) -> Option<i64>
    requires clock { IfSome clock (λ n. n ≤ 86_400_000) }
    requires thousandths { thousandths ≤ 30_000 }
    requires zone { IfSome zone (λ z. unsigned_abs z ≤ 86_400_000) }
    ensures value { result ≡ in_utc clock thousandths zone }
    ensures small { IfSome result (λ z. unsigned_abs z ≤ 500_000_000) }
{
    match clock {
        Some(clock) => match zone {
            Some(zone) => Some(i64::from(clock + thousandths) - zone),
            None => None,
        },
        None => None,
    }
}

#[tactic(auto, unfolding(crate::specs::Datetime::clock_at))]
fn clock_at(bytes: &[u8]) -> Option<u32>
    requires { 9 ≤ length bytes.now }
    ensures value { result ≡ clock_at bytes.now }
    ensures small { IfSome result (λ n. n ≤ 86_400_000) }
{
    clock(two(bytes, 1), two(bytes, 4), two(bytes, 7))
}

#[tactic(auto, unfolding(crate::specs::Datetime::thousandths_at))]
fn thousandths(bytes: &[u8]) -> u32
    requires { 13 ≤ length bytes.now }
    ensures value { result ≡ thousandths_at bytes.now }
    ensures small { result ≤ 30_000 }
{
    digit(bytes, 10) * 100 + two(bytes, 11)
}

#[tactic(auto, unfolding(crate::specs::Datetime::clock))]
fn clock(hour: u32, minute: u32, second: u32) -> Option<u32>
    ensures value { result ≡ clock hour minute second }
    ensures small { IfSome result (λ n. n ≤ 86_400_000) }
{
    if hour < 24 && minute < 60 && second < 60 {
        Some(((hour * 60 + minute) * 60 + second) * 1000)
    } else {
        None
    }
}

#[tactic(auto, unfolding(crate::specs::Datetime::zone_of))]
fn zone(bytes: &[u8]) -> Option<i64>
    ensures value { result ≡ zone_of bytes.now }
    ensures small { IfSome result (λ z. unsigned_abs z ≤ 86_400_000) }
{
    if has_form(b"Z", bytes) {
        Some(0)
    } else if has_form(b"+0000", bytes) {
        ahead(offset(bytes))
    } else if has_form(b"-0000", bytes) {
        behind(offset(bytes))
    } else {
        None
    }
}

#[tactic(auto, unfolding(crate::specs::Datetime::offset_at))]
fn offset(bytes: &[u8]) -> Option<u32>
    requires { 5 ≤ length bytes.now }
    ensures value { result ≡ offset_at bytes.now }
    ensures small { IfSome result (λ n. n ≤ 86_400_000) }
{
    clock(two(bytes, 1), two(bytes, 3), 0)
}

fn ahead(offset: Option<u32>) -> Option<i64>
    requires { IfSome offset (λ n. n ≤ 86_400_000) }
    ensures value { result ≡ Datetime.ahead offset }
    ensures small { IfSome result (λ z. unsigned_abs z ≤ 86_400_000) }
{
    match offset {
        Some(offset) => Some(i64::from(offset)),
        None => None,
    }
}

fn behind(offset: Option<u32>) -> Option<i64>
    requires { IfSome offset (λ n. n ≤ 86_400_000) }
    ensures value { result ≡ Datetime.behind offset }
    ensures small { IfSome result (λ z. unsigned_abs z ≤ 86_400_000) }
{
    match offset {
        Some(offset) => Some(-i64::from(offset)),
        None => None,
    }
}

fn has_form(form: &[u8], bytes: &[u8]) -> bool
    ensures value { result ≡ has_form form.now bytes.now }
    ensures length { IsTrue result → length bytes.now ≡ length form.now }
{
    begins_as(form, bytes) && bytes.len() == form.len()
}

// Whether the text begins as the form says, in which 0 stands for any digit.
#[tactic(auto, unfolding(crate::specs::Datetime::begins_as))]
fn begins_as(form: &[u8], bytes: &[u8]) -> bool
    ensures value { result ≡ begins_as form.now bytes.now }
    ensures length { IsTrue result → length form.now ≤ length bytes.now }
{
    let mut left = form;
    let mut rest = bytes;
    'form: while let Some((sign, signs)) = left.split_first() {
        match rest.split_first() {
            Some((byte, others)) => {
                if !is_byte_of(*sign, *byte) {
                    return false;
                }
                rest = others;
            }
            None => return false,
        }
        left = signs;
    }
    true
}

fn is_byte_of(sign: u8, byte: u8) -> bool
    ensures { result ≡ Datetime.is_byte_of sign byte }
{
    if sign == b'0' {
        byte.is_ascii_digit()
    } else {
        byte == sign
    }
}

// A date's 64 bits as a day and a time of the calendar, and back: the proleptic Gregorian calendar, in UTC, without leap seconds.
#![tactic(auto)]

mod days;
mod floor;
mod months;

ghost use Rattle.std.specs.Prelude.{◌≡◌, true, ◌<◌};
ghost use Rattle.calendar.specs.Calendar.{is_time, is_day, is_clock, seconds_since_one, time_since_one};
ghost use Rattle.calendar.specs.Date.{calendar_of, seconds_of, dated_said, seconds_said};

use crate::days::{days_before_year, year_of};
use crate::floor::since_of;
use crate::months::{days_before_month, days_in_month, month_of};

// A day and a time. Any numbers may stand here; `seconds_of` says whether there is such a day and time.
#[derive(Clone, Copy)]
pub struct Time {
    pub year: u32,
    pub month: u32,
    pub day: u32,
    pub hour: u32,
    pub minute: u32,
    pub second: u32,
}

// The day and time of a date's 64 bits, or none (30). They are seconds since 2001-01-01 00:00:00; a fraction goes down.
pub fn calendar_of(bits: u64) -> Option<Time>
    ensures { dated_said result ≡ calendar_of bits }
{
    let seconds = since_of(bits)?;
    Some(time_since_one(seconds))
}

// The whole seconds from 2001-01-01 00:00:00 to a day and time, or none where there is no such day and time (30).
pub fn seconds_of(time: Time) -> Option<i64>
    ensures { seconds_said result ≡ seconds_of time }
{
    if is_time(time) {
        let seconds = seconds_since_one(time);
        return Some(seconds as i64 - 63_113_904_000);
    }
    None
}

// Whether there is such a day and time.
#[tactic(auto, unfolding(crate::specs::Calendar::is_time))]
fn is_time(time: Time) -> bool
    ensures { result ≡ is_time time }
{
    is_day(time.year, time.month, time.day) && is_clock(time.hour, time.minute, time.second)
}

#[tactic(auto, using(number::specs::Tests::tests), unfolding(crate::specs::Calendar::is_day))]
fn is_day(year: u32, month: u32, day: u32) -> bool
    ensures { result ≡ is_day year month day }
{
    (1..=9999).contains(&year)
        && (1..=12).contains(&month)
        && 1 <= day
        && day <= days_in_month(year, month)
}

#[tactic(auto, using(number::specs::Tests::tests), unfolding(crate::specs::Calendar::is_clock))]
fn is_clock(hour: u32, minute: u32, second: u32) -> bool
    ensures { result ≡ is_clock hour minute second }
{
    hour <= 23 && minute <= 59 && second <= 59
}

// Seconds since 0001-01-01 00:00:00.
fn seconds_since_one(time: Time) -> u64
    requires { is_time time ≡ true }
    ensures { result ≡ seconds_since_one time }
{
    let days = days_before_year(time.year)
        + days_before_month(time.year, time.month)
        + (time.day - 1);
    let clock = time.hour * 3600 + time.minute * 60 + time.second;
    days as u64 * 86400 + clock as u64
}

// The day and time of them.
fn time_since_one(seconds: u64) -> Time
    requires { seconds < 315_537_897_600 }
    ensures { result ≡ time_since_one seconds }
{
    let days = (seconds / 86400) as u32;
    let clock = (seconds % 86400) as u32;
    let year = year_of(days);
    let month = month_of(year.part, year.rest);
    Time {
        year: year.part,
        month: month.part,
        day: month.rest + 1,
        hour: clock / 3600,
        minute: clock % 3600 / 60,
        second: clock % 60,
    }
}

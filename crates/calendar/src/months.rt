// Months of a year, in days.
ghost use Rattle.std.specs.Prelude.{◌≡◌, ◌≤◌};
ghost use Rattle.calendar.specs.Calendar.{days_in_month, days_before_month};
ghost use Rattle.calendar.specs.Count.{count_off};

use crate::days::{Place, is_leap};

#[tactic(auto, using(number::specs::Tests::tests), unfolding(crate::specs::Calendar::days_in_month))]
pub(crate) fn days_in_month(year: u32, month: u32) -> u32
    ensures { result ≡ days_in_month year month }
{
    match month {
        2 if is_leap(year) => 29,
        2 => 28,
        4 | 6 | 9 | 11 => 30,
        _ => 31,
    }
}

// The month in which a day of the year lies, and how many of its days lie before.
pub(crate) fn month_of(year: u32, days: u32) -> Place
    ensures { result ≡ count_off (days_in_month year) 11 1 days }
{
    let mut rest = days;
    for month in 1..12 {
        let size = days_in_month(year, month);
        if rest < size {
            return Place { part: month, rest };
        }
        rest -= size;
    }
    Place { part: 12, rest }
}

// The days of the months before one.
pub(crate) fn days_before_month(year: u32, month: u32) -> u32
    requires { month ≤ 12 }
    ensures { result ≡ days_before_month year month }
{
    let mut days = 0;
    for before in 1..month {
        days += days_in_month(year, before);
    }
    days
}

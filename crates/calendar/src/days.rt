// Years, in days.
ghost use Rattle.std.specs.Prelude.{◌≡◌, ◌<◌, ◌≤◌};
ghost use Rattle.calendar.specs.Calendar.{is_leap, days_in_year, days_before_year};
ghost use Rattle.calendar.specs.Count.{count_off};

// A part's number, a year's or a month's, and how many days of it lie before.
#[derive(Clone, Copy)]
pub(crate) struct Place {
    pub part: u32,
    pub rest: u32,
}

#[tactic(auto, using(number::specs::Tests::tests), unfolding(crate::specs::Calendar::is_leap))]
pub(crate) fn is_leap(year: u32) -> bool
    ensures { result ≡ is_leap year }
{
    year % 400 == 0 || (year % 100 != 0 && year % 4 == 0)
}

// The days of the years before one: 365 each, and the leap days.
pub(crate) fn days_before_year(year: u32) -> u32
    requires { year ≤ 9999 }
    ensures { result ≡ days_before_year year }
{
    let n = year.saturating_sub(1);
    365 * n + n / 4 + n / 400 - n / 100
}

// The year in which a day lies, and how many of its days lie before: by cycles of 400 years, of 100, of 4 and of one.
// The last hundred of four, and the last year of four, have a day more than the others.
pub(crate) fn year_of(days: u32) -> Place
    requires { days < 3_652_059 }
    ensures { result ≡ count_off days_in_year 9998 1 days }
{
    let cycles = days / 146_097;
    let in_cycle = days % 146_097;
    let hundreds = (in_cycle / 36_524).min(3);
    let in_hundred = in_cycle - 36_524 * hundreds;
    let fours = in_hundred / 1461;
    let in_four = in_hundred % 1461;
    let ones = (in_four / 365).min(3);
    Place {
        part: 400 * cycles + 100 * hundreds + 4 * fours + ones + 1,
        rest: in_four - 365 * ones,
    }
}

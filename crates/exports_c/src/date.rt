// A date's bits as a day and a time, and back, for C.
ghost use Rattle.std.specs.Prelude.{◌≡◌};
ghost use Rattle.calendar.specs.Date.{calendar_of, seconds_of};
ghost use Rattle.exports.specs.Date.{said_number, time_for, seconds_for};

#[unsafe(no_mangle)]
pub extern "C" fn zm_calendar(
    bits: u64,
    year: &mut u32,
    month: &mut u32,
    day: &mut u32,
    hour: &mut u32,
    minute: &mut u32,
    second: &mut u32,
) -> u32
    ensures value { result ≡ said_number (calendar_of bits) }
    ensures year_after { year.new ≡ (time_for (calendar_of bits)).year }
    ensures month_after { month.new ≡ (time_for (calendar_of bits)).month }
    ensures day_after { day.new ≡ (time_for (calendar_of bits)).day }
    ensures hour_after { hour.new ≡ (time_for (calendar_of bits)).hour }
    ensures minute_after { minute.new ≡ (time_for (calendar_of bits)).minute }
    ensures second_after { second.new ≡ (time_for (calendar_of bits)).second }
{
    exports::date::zm_calendar(bits, year, month, day, hour, minute, second)
}

#[unsafe(no_mangle)]
pub extern "C" fn zm_seconds(
    year: u32,
    month: u32,
    day: u32,
    hour: u32,
    minute: u32,
    second: u32,
    seconds: &mut i64,
) -> u32
    ensures value { result ≡ said_number (seconds_of (record { year = year; month = month; day = day; hour = hour; minute = minute; second = second })) }
    ensures seconds_after { seconds.new ≡ seconds_for (seconds_of (record { year = year; month = month; day = day; hour = hour; minute = minute; second = second })) }
{
    exports::date::zm_seconds(year, month, day, hour, minute, second, seconds)
}

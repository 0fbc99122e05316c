// Dates for C (docs/C.md). A refused call returns its number and writes nothing.
#![tactic(auto)]

ghost use Rattle.std.specs.Prelude.{◌≡◌};
ghost use Rattle.timestamp.specs.Timestamp as timestamps;
ghost use Rattle.calendar.specs.Dates.{date};
ghost use Rattle.calendar.specs.Calendar.{date_of, timestamp_of};
ghost use Rattle.refusals.specs.Given.{result_number};
ghost use Rattle.firmware_times.specs.Times.{timestamp_after};
ghost use Rattle.firmware_dates.specs.Dates.{date_after, narrowed};

use calendar::Date;
use firmware::numbers::narrow;
use refusals::tell;
use timestamp::Timestamp;

// `calendar::date_of_timestamp`. Refusals: 24. C lends seven numbers, so each is stored here.
pub fn pongulvesz_date(
    timestamp: u64,
    year: &mut u32,
    month: &mut u32,
    day: &mut u32,
    hour: &mut u32,
    minute: &mut u32,
    second: &mut u32,
    fraction: &mut u32,
) -> u32
    ensures number { result ≡ result_number (date_of (timestamps.timestamp timestamp)) }
    ensures date { date year.new month.new day.new hour.new minute.new second.new fraction.new
        ≡ date_after (date year.old month.old day.old hour.old minute.old second.old fraction.old) (date_of (timestamps.timestamp timestamp)) }
{
    match calendar::date_of_timestamp(Timestamp::from(timestamp)) {
        Ok(d) => {
            *year = d.year;
            *month = u32::from(d.month);
            *day = u32::from(d.day);
            *hour = u32::from(d.hour);
            *minute = u32::from(d.minute);
            *second = u32::from(d.second);
            *fraction = d.fraction;
            0
        }
        Err(refusal) => u32::from(refusal.number()),
    }
}

// What 8 bits do not hold becomes 255, which is no month, day, hour, minute or second.
fn narrowed_date(
    year: u32,
    month: u32,
    day: u32,
    hour: u32,
    minute: u32,
    second: u32,
    fraction: u32,
) -> Date
    ensures { result ≡ narrowed (date year month day hour minute second fraction) }
{
    Date {
        year,
        month: narrow(month),
        day: narrow(day),
        hour: narrow(hour),
        minute: narrow(minute),
        second: narrow(second),
        fraction,
    }
}

// `calendar::timestamp_of_date`. Refusals, in order: 25, 26, 24.
pub fn pongulvesz_timestamp_of_date(
    year: u32,
    month: u32,
    day: u32,
    hour: u32,
    minute: u32,
    second: u32,
    fraction: u32,
    timestamp: &mut u64,
) -> u32
    ensures number { result ≡ result_number (timestamp_of (narrowed (date year month day hour minute second fraction))) }
    ensures timestamp { timestamp.new ≡ timestamp_after timestamp.old (timestamp_of (narrowed (date year month day hour minute second fraction))) }
{
    let d = narrowed_date(year, month, day, hour, minute, second, fraction);
    tell(calendar::timestamp_of_date(d).map(|t| t.0), timestamp)
}

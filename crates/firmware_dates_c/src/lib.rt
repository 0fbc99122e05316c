// For C (docs/C.md): dates. Each export calls the function of `firmware_dates` of the same name, and promises the same.
#![tactic(auto)]

ghost use Rattle.std.specs.Prelude.{◌≡◌};
ghost use Rattle.timestamp.specs.Timestamp as timestamps;
ghost use Rattle.calendar.specs.Dates.{date};
ghost use Rattle.calendar.specs.Calendar.{date_of, timestamp_of};
ghost use Rattle.refusals.specs.Given.{result_number};
ghost use Rattle.firmware_times.specs.Times.{timestamp_after};
ghost use Rattle.firmware_dates.specs.Dates.{date_after, narrowed};

// `calendar::date_of_timestamp`. Refusals: 24.
#[unsafe(no_mangle)]
pub extern "C" fn pongulvesz_date(
    timestamp: u64,
    year: &mut u32,
    month: &mut u32,
    day: &mut u32,
    hour: &mut u32,
    minute: &mut u32,
    second: &mut u32,
    fraction: &mut u32,
) -> u32
    ensures number { result ≡ result_number (date_of (timestamps.timestamp timestamp)) }
    ensures date { date year.new month.new day.new hour.new minute.new second.new fraction.new
        ≡ date_after (date year.old month.old day.old hour.old minute.old second.old fraction.old) (date_of (timestamps.timestamp timestamp)) }
{
    firmware_dates::pongulvesz_date(timestamp, year, month, day, hour, minute, second, fraction)
}

// `calendar::timestamp_of_date`. Refusals, in order: 25, 26, 24.
#[unsafe(no_mangle)]
pub extern "C" fn pongulvesz_timestamp_of_date(
    year: u32,
    month: u32,
    day: u32,
    hour: u32,
    minute: u32,
    second: u32,
    fraction: u32,
    timestamp: &mut u64,
) -> u32
    ensures number { result ≡ result_number (timestamp_of (narrowed (date year month day hour minute second fraction))) }
    ensures timestamp { timestamp.new ≡ timestamp_after timestamp.old (timestamp_of (narrowed (date year month day hour minute second fraction))) }
{
    firmware_dates::pongulvesz_timestamp_of_date(
        year, month, day, hour, minute, second, fraction, timestamp,
    )
}

// Dates of timestamps, and timestamps of dates (docs/RULES.md, "The calendar").
#![tactic(auto)]

ghost use Rattle.std.specs.Prelude.{◌≡◌, ◌+◌, ◌*◌, ◌^◌, ◌≤◌, ◌<◌};
ghost use Rattle.refusals.specs.declared.Refusal.TheVariants.{TimestampZero};
ghost use Rattle.ordered_tests.specs.Tests.{◌if◌else◌, otherwise, given};
ghost use Rattle.timestamp.specs.Timestamp.{is_zero};
ghost use Rattle.calendar.specs.Dates.{exists, seconds_to, date_at};
ghost use Rattle.calendar.specs.Calendar.{start1900, start2036, seconds_at, in_window, era_seconds, date_of, timestamp_of, second_tests};

mod gregorian;

use refusals::Refusal;
use timestamp::Timestamp;

#[derive(Clone, Copy)]
pub struct Date {
    pub year: u32,
    pub month: u8,
    pub day: u8,
    pub hour: u8,
    pub minute: u8,
    pub second: u8,
    pub fraction: u32,
}

// The seconds from the start of the year 0 to 1900-01-01 00:00:00, where the first era starts.
const START_1900: u64 = 59_958_230_400;

// To 2036-02-07 06:28:16, where the second starts.
const START_2036: u64 = 64_253_197_696;

// To 1968-01-20 03:14:08, the first second of the window.
const WINDOW_START: u64 = 62_105_714_048;

// To 2104-02-26 09:42:23, its last.
const WINDOW_END: u64 = 66_400_681_343;

// The date s seconds after the start of the year 0; `year_on` gives the bounds.
#[tactic(auto, unfolding(crate::specs::Dates::date_at, crate::specs::Dates::day_of_year, crate::specs::Dates::month_on, crate::specs::Dates::day_of_month))]
fn date_at(s: u64, fraction: u32) -> Date
    requires from { 146000 * 86400 ≤ s }
    requires to { s < 768600 * 86400 }
    ensures { result ≡ date_at s fraction }
{
    let days = s / 86400;
    let year = gregorian::year_on(days);
    let extra = gregorian::leap_days(year);
    let day_of_year = days - gregorian::days_before_year(year);
    let month = gregorian::month_on(extra, day_of_year);
    let day = day_of_year - gregorian::days_before_month(extra, month) + 1;
    Date {
        year: year as u32,
        month: month as u8,
        day: day as u8,
        hour: (s / 3600 % 24) as u8,
        minute: (s / 60 % 60) as u8,
        second: (s % 60) as u8,
        fraction,
    }
}

// The seconds from the start of the year 0 to a timestamp. The eras are 2^32 s apart:
// read as a signed number, the timestamp's seconds count from the start of the second era.
#[tactic(auto, using(crate::proofs::Dates::bounds), unfolding(crate::specs::Calendar::seconds_at))]
pub fn seconds_at(t: Timestamp) -> u64
    ensures is { result ≡ seconds_at t }
    ensures from { 146000 * 86400 ≤ result }
    ensures to { result < 768600 * 86400 }
{
    START_2036.wrapping_add_signed(i64::from(t.seconds().cast_signed()))
}

// A timestamp that is not zero. Refusals: 24.
pub fn nonzero(t: Timestamp) -> Result<Timestamp, Refusal>
    ensures { result ≡ given (TimestampZero if is_zero t else otherwise t) }
{
    if t.is_zero() {
        return Err(Refusal::TimestampZero);
    }
    Ok(t)
}

// The date of a timestamp. Refusals: 24. The conversions have names of their own, and are no `TryFrom`: each says what it is counted from.
#[tactic(auto, unfolding(crate::specs::Calendar::date_of))]
pub fn date_of_timestamp(t: Timestamp) -> Result<Date, Refusal>
    ensures { result ≡ date_of t }
{
    let t = nonzero(t)?;
    Ok(date_at(seconds_at(t), t.fraction()))
}

// Whether there is such a date and such a time of day.
#[tactic(auto, unfolding(crate::specs::Dates::exists))]
fn is_date(d: Date) -> bool
    ensures { result ≡ exists d }
{
    let days = gregorian::days_in_month(u64::from(d.year), u64::from(d.month));
    (1..=days).contains(&u64::from(d.day)) && d.hour < 24 && d.minute < 60 && d.second < 60
}

// The seconds from the start of the year 0 to a date.
#[tactic(auto, unfolding(crate::specs::Dates::seconds_to, crate::specs::Dates::days_to))]
fn seconds_to(d: Date) -> u64
    requires month { d.month < 13 }
    requires day { 0 < d.day }
    ensures { result ≡ seconds_to d }
{
    let days = gregorian::days_to_month(u64::from(d.year), u64::from(d.month))
        + (u64::from(d.day) - 1);
    days * 86400 + (u64::from(d.hour) * 60 + u64::from(d.minute)) * 60 + u64::from(d.second)
}

// Whether the window has the second s after the start of the year 0.
#[tactic(auto, using(crate::proofs::Dates::bounds), unfolding(crate::specs::Calendar::in_window))]
fn in_window(s: u64) -> bool
    ensures { result ≡ in_window s }
{
    (WINDOW_START..=WINDOW_END).contains(&s)
}

// The seconds of a timestamp: from the start of its era to the second s after the start of the year 0. An era has 2^32 seconds.
#[tactic(auto, using(crate::proofs::Eras::in_era, crate::proofs::Dates::bounds))]
fn era_seconds(s: u64) -> u32
    requires from { start1900 ≤ s }
    requires to { s < start2036 + 2 ^ 32 }
    ensures { result ≡ era_seconds s }
{
    ((s - START_1900) % Timestamp::SECOND) as u32
}

// The timestamp that counts to the second s after the start of the year 0. Refusals, in order: 26, 24.
#[tactic(auto, using(crate::proofs::Dates::window_has, crate::proofs::Dates::bounds))]
pub fn timestamp_at_second(s: u64, fraction: u32) -> Result<Timestamp, Refusal>
    ensures { result ≡ given (second_tests s fraction) }
{
    if !in_window(s) {
        return Err(Refusal::OutsideWindow);
    }
    nonzero(Timestamp::from_seconds(era_seconds(s), fraction))
}

// The timestamp of a date. Refusals, in order: 25, 26, 24.
#[tactic(auto, using(crate::proofs::Dates::exists_ranges), unfolding(crate::specs::Calendar::timestamp_of))]
pub fn timestamp_of_date(d: Date) -> Result<Timestamp, Refusal>
    ensures { result ≡ timestamp_of d }
{
    if !is_date(d) {
        return Err(Refusal::NoSuchDate);
    }
    timestamp_at_second(seconds_to(d), d.fraction)
}

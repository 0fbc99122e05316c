// Unix times of timestamps, and timestamps of Unix times (docs/RULES.md, "Unix time").
#![tactic(auto)]

ghost use Rattle.std.specs.Prelude.{◌≡◌, ◌^◌, ◌<◌};
ghost use Rattle.calendar.specs.Calendar.{seconds_at};
ghost use Rattle.unix_time.specs.UnixTime.{unix_second, nanoseconds_of, unix_time_of, fraction_above, timestamp_of};

use refusals::Refusal;
use timestamp::Timestamp;

// Seconds from 1970-01-01 00:00:00, negative before it, and the nanoseconds from there on.
#[derive(Clone, Copy)]
pub struct UnixTime {
    pub seconds: i64,
    pub nanoseconds: u32,
}

// The seconds from the start of the year 0 to 1970-01-01 00:00:00.
const START_1970: u64 = 62_167_219_200;

// The nanoseconds of a second.
const SECOND: u64 = 1_000_000_000;

// The Unix second of a timestamp.
#[tactic(auto, using(crate::proofs::Seconds::unix_second_is))]
fn unix_second(t: Timestamp) -> i64
    ensures { result ≡ unix_second (seconds_at t) }
{
    calendar::seconds_at(t) as i64 - START_1970 as i64
}

// The nanoseconds of a fraction, rounded down.
fn nanoseconds_of(fraction: u32) -> u32
    ensures { result ≡ nanoseconds_of fraction }
{
    (u64::from(fraction) * SECOND / Timestamp::SECOND) as u32
}

// The Unix time of a timestamp. Refusals: 24. The conversions have names of their own, as in `calendar`, and are no `TryFrom`.
#[tactic(auto, unfolding(crate::specs::UnixTime::unix_time_of))]
pub fn unix_time_of_timestamp(t: Timestamp) -> Result<UnixTime, Refusal>
    ensures { result ≡ unix_time_of t }
{
    let t = calendar::nonzero(t)?;
    Ok(UnixTime {
        seconds: unix_second(t),
        nanoseconds: nanoseconds_of(t.fraction()),
    })
}

// The fraction of nanoseconds, rounded up. `div_ceil` takes more instructions than docs/INSTRUCTIONS.md allows: 29 in place of 22.
fn fraction_of(nanoseconds: u32) -> u32
    requires { nanoseconds < 10 ^ 9 }
    ensures { result ≡ fraction_above nanoseconds }
{
    ((u64::from(nanoseconds) * Timestamp::SECOND + (SECOND - 1)) / SECOND) as u32
}

// The timestamp of a Unix time. Refusals, in order: 25, 26, 24.
#[tactic(auto, using(crate::proofs::Seconds::counts), unfolding(crate::specs::UnixTime::timestamp_of))]
pub fn timestamp_of_unix_time(u: UnixTime) -> Result<Timestamp, Refusal>
    ensures { result ≡ timestamp_of u }
{
    if SECOND <= u64::from(u.nanoseconds) {
        return Err(Refusal::NoSuchDate);
    }
    // Counted from the start of the year 0; a second before it wraps to one past the window.
    let s = START_1970.wrapping_add_signed(u.seconds);
    calendar::timestamp_at_second(s, fraction_of(u.nanoseconds))
}

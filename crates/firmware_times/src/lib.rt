// Unix time, the Time Protocol and the precision octet for C (docs/C.md). A refused call returns its number and writes nothing.
#![tactic(auto)]

ghost use Rattle.std.specs.Prelude.{◌≡◌};
ghost use Rattle.timestamp.specs.Timestamp as timestamps;
ghost use Rattle.unix_time.specs.UnixTime.{unix_time_of, timestamp_of};
ghost use Rattle.time_protocol.specs.TimeProtocol.{write_answer, written, read_answer};
ghost use Rattle.precision.specs.Precision.{precision_of};
ghost use Rattle.refusals.specs.Given.{result_number};
ghost use Rattle.firmware_times.specs.Times.{seconds_after, nanoseconds_after, timestamp_after, count_after, precision_after, unix_of};

use refusals::{result_number, tell};
use timestamp::Timestamp;
use unix_time::UnixTime;

// `unix_time::unix_time_of_timestamp`. Refusals: 24. C lends two numbers, so each is stored here.
pub fn pongulvesz_unix_time(timestamp: u64, seconds: &mut i64, nanoseconds: &mut u32) -> u32
    ensures number { result ≡ result_number (unix_time_of (timestamps.timestamp timestamp)) }
    ensures seconds { seconds.new ≡ seconds_after seconds.old (unix_time_of (timestamps.timestamp timestamp)) }
    ensures nanoseconds { nanoseconds.new ≡ nanoseconds_after nanoseconds.old (unix_time_of (timestamps.timestamp timestamp)) }
{
    match unix_time::unix_time_of_timestamp(Timestamp::from(timestamp)) {
        Ok(u) => {
            *seconds = u.seconds;
            *nanoseconds = u.nanoseconds;
            0
        }
        Err(refusal) => u32::from(refusal.number()),
    }
}

// `unix_time::timestamp_of_unix_time`. Refusals, in order: 25, 26, 24.
pub fn pongulvesz_timestamp_of_unix_time(seconds: i64, nanoseconds: u32, timestamp: &mut u64) -> u32
    ensures number { result ≡ result_number (timestamp_of (unix_of seconds nanoseconds)) }
    ensures timestamp { timestamp.new ≡ timestamp_after timestamp.old (timestamp_of (unix_of seconds nanoseconds)) }
{
    let answer = unix_time::timestamp_of_unix_time(UnixTime {
        seconds,
        nanoseconds,
    });
    tell(answer.map(|t| t.0), timestamp)
}

// `time_protocol::write`. Refusals: 45.
pub fn pongulvesz_write_count(count: u32, buffer: &mut [u8]) -> u32
    ensures number { result ≡ result_number (write_answer buffer.old) }
    ensures buffer { buffer.new ≡ written count buffer.old }
{
    u32::from(result_number(time_protocol::write(count, buffer)))
}

// `time_protocol::read`. Refusals: 45.
pub fn pongulvesz_read_count(octets: &[u8], count: &mut u32) -> u32
    ensures number { result ≡ result_number (read_answer octets.now) }
    ensures count { count.new ≡ count_after count.old (read_answer octets.now) }
{
    tell(time_protocol::read(octets), count)
}

// `precision::precision_of_tick`. Refusals: 28.
pub fn pongulvesz_precision(tick: u64, precision: &mut i32) -> u32
    ensures number { result ≡ result_number (precision_of tick) }
    ensures precision { precision.new ≡ precision_after precision.old (precision_of tick) }
{
    tell(precision::precision_of_tick(tick).map(i32::from), precision)
}

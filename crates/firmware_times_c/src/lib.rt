// For C (docs/C.md): Unix time, the Time Protocol and the precision octet. Each export calls the function of `firmware_times` of the same name, and promises the same.
#![tactic(auto)]

ghost use Rattle.std.specs.Prelude.{◌≡◌};
ghost use Rattle.timestamp.specs.Timestamp as timestamps;
ghost use Rattle.unix_time.specs.UnixTime.{unix_time_of, timestamp_of};
ghost use Rattle.time_protocol.specs.TimeProtocol.{write_answer, written, read_answer};
ghost use Rattle.precision.specs.Precision.{precision_of};
ghost use Rattle.refusals.specs.Given.{result_number};
ghost use Rattle.firmware_times.specs.Times.{seconds_after, nanoseconds_after, timestamp_after, count_after, precision_after, unix_of};

// `unix_time::unix_time_of_timestamp`. Refusals: 24.
#[unsafe(no_mangle)]
pub extern "C" fn pongulvesz_unix_time(
    timestamp: u64,
    seconds: &mut i64,
    nanoseconds: &mut u32,
) -> u32
    ensures number { result ≡ result_number (unix_time_of (timestamps.timestamp timestamp)) }
    ensures seconds { seconds.new ≡ seconds_after seconds.old (unix_time_of (timestamps.timestamp timestamp)) }
    ensures nanoseconds { nanoseconds.new ≡ nanoseconds_after nanoseconds.old (unix_time_of (timestamps.timestamp timestamp)) }
{
    firmware_times::pongulvesz_unix_time(timestamp, seconds, nanoseconds)
}

// `unix_time::timestamp_of_unix_time`. Refusals, in order: 25, 26, 24.
#[unsafe(no_mangle)]
pub extern "C" fn pongulvesz_timestamp_of_unix_time(
    seconds: i64,
    nanoseconds: u32,
    timestamp: &mut u64,
) -> u32
    ensures number { result ≡ result_number (timestamp_of (unix_of seconds nanoseconds)) }
    ensures timestamp { timestamp.new ≡ timestamp_after timestamp.old (timestamp_of (unix_of seconds nanoseconds)) }
{
    firmware_times::pongulvesz_timestamp_of_unix_time(seconds, nanoseconds, timestamp)
}

// `time_protocol::write`. Refusals: 45.
#[unsafe(no_mangle)]
pub extern "C" fn pongulvesz_write_count(count: u32, buffer: &mut [u8]) -> u32
    ensures number { result ≡ result_number (write_answer buffer.old) }
    ensures buffer { buffer.new ≡ written count buffer.old }
{
    firmware_times::pongulvesz_write_count(count, buffer)
}

// `time_protocol::read`. Refusals: 45.
#[unsafe(no_mangle)]
pub extern "C" fn pongulvesz_read_count(octets: &[u8], count: &mut u32) -> u32
    ensures number { result ≡ result_number (read_answer octets.now) }
    ensures count { count.new ≡ count_after count.old (read_answer octets.now) }
{
    firmware_times::pongulvesz_read_count(octets, count)
}

// `precision::precision_of_tick`. Refusals: 28.
#[unsafe(no_mangle)]
pub extern "C" fn pongulvesz_precision(tick: u64, precision: &mut i32) -> u32
    ensures number { result ≡ result_number (precision_of tick) }
    ensures precision { precision.new ≡ precision_after precision.old (precision_of tick) }
{
    firmware_times::pongulvesz_precision(tick, precision)
}

// Broadcast for C (docs/C.md). A refused call returns its number and writes nothing.
#![tactic(auto)]

ghost use Rattle.std.specs.Prelude.{◌≡◌, length};
ghost use Rattle.timestamp.specs.Timestamp as timestamps;
ghost use Rattle.broadcast.specs.Broadcast.{broadcast_arrived};
ghost use Rattle.refusals.specs.Given.{result_number};
ghost use Rattle.firmware.specs.Server.{settings};
ghost use Rattle.firmware_broadcast.specs.Broadcast.{write_answer, buffer_after, difference_after};

use firmware::numbers::narrow;
use firmware::server_calls::settings_of;
use refusals::{result_number, tell};
use timestamp::Timestamp;

// `broadcast::write`. Refusals, in order: 1, 22, 23, 41, and when synchronised 14.
pub fn pongulvesz_broadcast(
    synchronised: u32,
    leap: u32,
    precision: i32,
    identifier: u32,
    reference: u64,
    version: u32,
    poll: u32,
    t3: u64,
    buffer: &mut [u8],
) -> u32
    ensures number { result ≡ result_number (write_answer (settings synchronised leap precision identifier reference) version poll t3 (length buffer.old)) }
    ensures buffer { buffer.new ≡ buffer_after (settings synchronised leap precision identifier reference) version poll t3 buffer.old }
{
    let set = settings_of(synchronised, leap, precision, identifier, reference);
    let answer = broadcast::write(
        set,
        narrow(version),
        narrow(poll),
        Timestamp::from(t3),
        buffer,
    );
    u32::from(result_number(answer))
}

// `broadcast::arrival`. Refusals, in order: 7, 36, 37, 38, 39, 40, 3, 43.
pub fn pongulvesz_broadcast_arrival(t4: u64, packet: &[u8], difference: &mut i64) -> u32
    ensures number { result ≡ result_number (broadcast_arrived packet.now (timestamps.timestamp t4)) }
    ensures difference { difference.new ≡ difference_after difference.old (broadcast_arrived packet.now (timestamps.timestamp t4)) }
{
    tell(broadcast::arrival(packet, Timestamp::from(t4)), difference)
}

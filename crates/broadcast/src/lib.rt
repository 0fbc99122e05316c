// Broadcast (RFC 4330, sections 5 and 6): the packet of a broadcast server, and its client, which sends no request and measures no delay. Both keep nothing.
#![tactic(auto)]

ghost use Rattle.std.specs.Prelude.{◌≡◌, length};
ghost use Rattle.ordered_tests.specs.Tests.{given};
ghost use Rattle.broadcast.specs.Broadcast.{broadcast_message, write_tests, broadcast_written, broadcast_buffer, field_tests, broadcast_arrived};

use ordered_tests::between;
use packet::Fields;
use refusals::Refusal;
use server_packet::{Message, Settings, out_of_range};
use timestamp::Timestamp;

fn message(version: u8, poll: u8, t3: Timestamp) -> Message
    ensures { result ≡ broadcast_message version poll t3 }
{
    Message {
        mode: 5,
        version,
        poll,
        originate: Timestamp::ZERO,
        receive: Timestamp::ZERO,
        transmit: t3,
    }
}

// The tests in order, of a broadcast packet to be written into a buffer of `room` octets.
#[tactic(auto, unfolding(crate::specs::Broadcast::write_tests))]
fn check_write(
    settings: Settings,
    version: u8,
    poll: u8,
    t3: Timestamp,
    room: usize,
) -> Result<(), Refusal>
    ensures { result ≡ given (write_tests settings version poll t3 room) }
{
    if room < packet::LENGTH {
        return Err(Refusal::BufferTooShort);
    }
    if !between(1, 4, version) {
        return Err(Refusal::RequestVersionUnsupported);
    }
    if out_of_range(settings) {
        return Err(Refusal::SettingsOutOfRange);
    }
    if !between(4, 14, poll) {
        return Err(Refusal::PollOutOfRange);
    }
    if settings.synchronised & t3.is_zero() {
        return Err(Refusal::ServerTimestampZero);
    }
    Ok(())
}

// Writes a broadcast packet of this version and poll setting into the first 48 octets of the buffer; T3 is when it is sent.
#[tactic(auto, using(crate::proofs::Broadcast::write_answers, crate::proofs::Broadcast::write_stores), unfolding(crate::specs::Broadcast::broadcast_written, crate::specs::Broadcast::broadcast_buffer))]
pub fn write(
    settings: Settings,
    version: u8,
    poll: u8,
    t3: Timestamp,
    buffer: &mut [u8],
) -> Result<(), Refusal>
    ensures answer { result ≡ broadcast_written settings version poll t3 (length buffer.old) }
    ensures buffer { buffer.new ≡ broadcast_buffer settings version poll t3 buffer.old }
{
    check_write(settings, version, poll, t3, buffer.len())?;
    // No test refuses: the buffer is long enough, and no field is too large.
    server_packet::try_write(settings, message(version, poll, t3), buffer)
}

// The tests in order, of a packet with these fields, and then the difference of T3 and T4.
#[tactic(auto, using(crate::proofs::Broadcast::told), unfolding(crate::specs::Broadcast::field_tests))]
fn check(f: Fields, t4: Timestamp) -> Result<i64, Refusal>
    ensures { result ≡ given (field_tests f t4) }
{
    if f.mode != 5 {
        return Err(Refusal::BroadcastModeWrong);
    }
    if !between(1, 4, f.version) {
        return Err(Refusal::BroadcastVersionUnsupported);
    }
    if f.leap == 3 {
        return Err(Refusal::BroadcastUnsynchronised);
    }
    if !between(1, 15, f.stratum) {
        return Err(Refusal::BroadcastStratumWrong);
    }
    if f.transmit.is_zero() {
        return Err(Refusal::BroadcastTransmitZero);
    }
    if t4.is_zero() {
        return Err(Refusal::OwnClockZero);
    }
    f.transmit.minus(t4).ok_or(Refusal::NoOrder)
}

// Arrival of a broadcast packet at the clock reading T4. The answer is the difference of T3 and T4: how far the server's clock is ahead, less the time that
// the packet travelled.
#[tactic(auto, using(packet::proofs::Packet::read_refused, packet::proofs::Packet::read_fields), unfolding(crate::specs::Broadcast::broadcast_arrived))]
pub fn arrival(packet: &[u8], t4: Timestamp) -> Result<i64, Refusal>
    ensures { result ≡ broadcast_arrived packet.now t4 }
{
    let f = packet::read(packet)?;
    check(f, t4)
}

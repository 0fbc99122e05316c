// The SNTP server for unicast exchanges (RFC 4330, section 6). It keeps nothing.
#![tactic(auto)]

ghost use Rattle.std.specs.Prelude.{◌≡◌, not, ◌||◌};
ghost use Rattle.ordered_tests.specs.Tests.{given};
ghost use Rattle.timestamp.specs.Timestamp.{◌since◌, has_no_order, negative};
ghost use Rattle.server.specs.Server.{request_tests, reply_message, replied, replied_buffer};

use ordered_tests::between;
use packet::Fields;
use refusals::Refusal;
use server_packet::{Message, Settings, out_of_range};
use timestamp::Timestamp;

// Whether T3 is T2 or ordered after it. One comparison tells; the rules have two tests.
#[tactic(auto, using(crate::proofs::Server::difference_order))]
fn in_order(t2: Timestamp, t3: Timestamp) -> bool
    ensures { result ≡ not (has_no_order (t3 since t2) || negative (t3 since t2)) }
{
    t3.0.wrapping_sub(t2.0) < 0x8000_0000_0000_0000
}

// The tests in order, of a request with these fields; T2 and T3 come apart, as C passes them. Most requests pass the last two, so one comparison for both comes first.
#[tactic(auto, using(timestamp::proofs::Order::unordered, timestamp::proofs::Order::taken, crate::proofs::Server::reversed), unfolding(crate::specs::Server::request_tests))]
fn check_request(
    settings: Settings,
    request: Fields,
    t2: Timestamp,
    t3: Timestamp,
) -> Result<(), Refusal>
    ensures { result ≡ given (request_tests settings request t2 t3) }
{
    if request.mode != 3 {
        return Err(Refusal::RequestModeWrong);
    }
    if !between(1, 4, request.version) {
        return Err(Refusal::RequestVersionUnsupported);
    }
    if out_of_range(settings) {
        return Err(Refusal::SettingsOutOfRange);
    }
    if !settings.synchronised {
        return Ok(());
    }
    if t2.is_zero() | t3.is_zero() {
        return Err(Refusal::ServerTimestampZero);
    }
    if in_order(t2, t3) {
        return Ok(());
    }
    // Not in order: T3 is half a circle from T2, or before it.
    match t3.minus(t2) {
        None => Err(Refusal::NoOrder),
        Some(_) => Err(Refusal::AnsweredBeforeReceived),
    }
}

fn reply_message(request: Fields, t2: Timestamp, t3: Timestamp) -> Message
    ensures { result ≡ reply_message request t2 t3 }
{
    Message {
        mode: 4,
        version: request.version,
        poll: request.poll,
        originate: request.transmit,
        receive: t2,
        transmit: t3,
    }
}

// Writes the reply to a request that was received at T2 into the first 48 octets of the buffer; T3 is when it is sent.
#[tactic(auto, using(packet::proofs::Packet::header_fields, crate::proofs::Server::reply_answer, crate::proofs::Server::reply_buffer), unfolding(crate::specs::Server::replied, crate::specs::Server::replied_buffer, crate::specs::Server::reply_tests))]
pub fn reply(
    settings: Settings,
    request: &[u8],
    t2: Timestamp,
    t3: Timestamp,
    buffer: &mut [u8],
) -> Result<(), Refusal>
    ensures answer { result ≡ replied settings request.now t2 t3 buffer.old }
    ensures buffer { buffer.new ≡ replied_buffer settings request.now t2 t3 buffer.old }
{
    if buffer.len() < packet::LENGTH {
        return Err(Refusal::BufferTooShort);
    }
    // The two steps of `packet::read`: if the server called it too, the compiler would not inline it in the client's calls.
    if extension::is_malformed(request) {
        return Err(Refusal::PacketLengthWrong);
    }
    let fields = packet::read_header(request)?;
    check_request(settings, fields, t2, t3)?;
    // No test refuses: the buffer is long enough, and no field is too large.
    server_packet::try_write(settings, reply_message(fields, t2, t3), buffer)
}

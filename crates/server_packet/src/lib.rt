// The packet of a server, in a reply and in broadcast: what it has of the server's settings (RFC 4330, sections 4 and 6).
#![tactic(auto)]

ghost use Rattle.std.specs.Prelude.{◌≡◌};
ghost use Rattle.packet.specs.Packet.{write_answer, written};
ghost use Rattle.server_packet.specs.Packet.{out_of_range, synchronised_fields, unsynchronised_fields, packet_fields};

use packet::Fields;
use refusals::Refusal;
use timestamp::Timestamp;

// `leap` is LI; `identifier` and `reference` say from where and when the server's clock was last set. `synchronised` is a flag beside the
// others: 23 refuses an LI or a precision out of range also where it is not set.
#[derive(Clone, Copy)]
pub struct Settings {
    pub synchronised: bool,
    pub leap: u8,
    pub precision: i8,
    pub identifier: u32,
    pub reference: Timestamp,
}

// What a packet has beside the settings.
#[derive(Clone, Copy)]
pub struct Message {
    pub mode: u8,
    pub version: u8,
    pub poll: u8,
    pub originate: Timestamp,
    pub receive: Timestamp,
    pub transmit: Timestamp,
}

// Set LI not 0 to 2, or set precision not in -32 to 0.
#[tactic(auto, unfolding(crate::specs::Packet::out_of_range))]
pub fn out_of_range(settings: Settings) -> bool
    ensures { result ≡ out_of_range settings }
{
    2 < settings.leap || !(-32..=0).contains(&settings.precision)
}

fn synchronised_fields(settings: Settings, message: Message) -> Fields
    ensures { result ≡ synchronised_fields settings message }
{
    Fields {
        leap: settings.leap,
        version: message.version,
        mode: message.mode,
        stratum: 1,
        poll: message.poll,
        precision: settings.precision,
        root_delay: 0,
        root_dispersion: 0,
        identifier: settings.identifier,
        reference: settings.reference,
        originate: message.originate,
        receive: message.receive,
        transmit: message.transmit,
    }
}

fn unsynchronised_fields(settings: Settings, message: Message) -> Fields
    ensures { result ≡ unsynchronised_fields settings message }
{
    Fields {
        leap: 3,
        stratum: 0,
        identifier: kiss::code(b"INIT"),
        reference: Timestamp::ZERO,
        receive: Timestamp::ZERO,
        transmit: Timestamp::ZERO,
        ..synchronised_fields(settings, message)
    }
}

// Writes the packet, as `packet::write` does. A write in each of the two cases: each compiles to stores of what it knows.
#[tactic(auto, unfolding(crate::specs::Packet::packet_fields))]
pub fn try_write(settings: Settings, message: Message, buffer: &mut [u8]) -> Result<(), Refusal>
    ensures answer { result ≡ write_answer buffer.old (packet_fields settings message) }
    ensures buffer { buffer.new ≡ written buffer.old (packet_fields settings message) }
{
    if settings.synchronised {
        packet::write(buffer, synchronised_fields(settings, message))
    } else {
        packet::write(buffer, unsynchronised_fields(settings, message))
    }
}

// The same where nothing is told of a refusal: then the buffer stays as it was.
pub fn write(settings: Settings, message: Message, buffer: &mut [u8])
    ensures { buffer.new ≡ written buffer.old (packet_fields settings message) }
{
    let _ = try_write(settings, message, buffer);
}

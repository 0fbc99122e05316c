// Timestamps and the fields of a packet for C (docs/C.md). A refused call returns its number and writes nothing.
#![tactic(auto)]

ghost use Rattle.std.specs.Prelude.{◌≡◌, false};
ghost use Rattle.packet.specs.Packet.{read_answer};
ghost use Rattle.refusals.specs.Given.{result_number};
ghost use Rattle.firmware_packets.specs.Packets.{difference_of, difference_number, difference_after, measurement, measure, measurement_after, numbers_of, fields_after, too_wide, fields_in, write_answer, buffer_after};

use packet::Fields;
use refusals::{Refusal, result_number, tell};
use timestamp::Timestamp;
use twos_complement::{bits8, bits32, signed8, signed32};

// `timestamp::Timestamp::minus`. Refusals: 43.
pub fn pongulvesz_difference(x: u64, y: u64, difference: &mut i64) -> u32
    ensures number { result ≡ difference_number (difference_of x y) }
    ensures difference { difference.new ≡ difference_after difference.old (difference_of x y) }
{
    let units = Timestamp::from(x).minus(Timestamp::from(y));
    tell(units.ok_or(Refusal::NoOrder), difference)
}

// `offset::measure`. Refusals, in order: 43, 15, 16, 43, 17, 18, 43, 43, 19. C lends three numbers, so each is stored here.
pub fn pongulvesz_measure(
    t1: u64,
    t2: u64,
    t3: u64,
    t4: u64,
    offset: &mut i64,
    half: &mut u32,
    delay: &mut i64,
) -> u32
    ensures number { result ≡ result_number (measure t1 t2 t3 t4) }
    ensures measurement { measurement offset.new half.new delay.new ≡ measurement_after (measurement offset.old half.old delay.old) (measure t1 t2 t3 t4) }
{
    match offset::measure(t1.into(), t2.into(), t3.into(), t4.into()) {
        Ok(measured) => {
            *offset = measured.offset;
            *half = u32::from(measured.half);
            *delay = measured.delay;
            0
        }
        Err(refusal) => u32::from(refusal.number()),
    }
}

// The number of fields of a packet. Each is a number of 64 bits for C.
pub const FIELDS: usize = 13;

// The fields as C reads them: precision and root delay, which are signed, by their bits.
#[tactic(auto, unfolding(crate::specs::Packets::numbers_of))]
fn numbers_of(fields: Fields) -> [u64; FIELDS]
    ensures { result ≡ numbers_of fields }
{
    [
        u64::from(fields.leap),
        u64::from(fields.version),
        u64::from(fields.mode),
        u64::from(fields.stratum),
        u64::from(fields.poll),
        u64::from(bits8(fields.precision)),
        u64::from(bits32(fields.root_delay)),
        u64::from(fields.root_dispersion),
        u64::from(fields.identifier),
        fields.reference.0,
        fields.originate.0,
        fields.receive.0,
        fields.transmit.0,
    ]
}

// `packet::read`. Refusals: 7.
pub fn pongulvesz_read_fields(packet: &[u8], fields: &mut [u64; FIELDS]) -> u32
    ensures number { result ≡ result_number (read_answer packet.now) }
    ensures fields { fields.new ≡ fields_after fields.old (read_answer packet.now) }
{
    tell(packet::read(packet).map(numbers_of), fields)
}

// Whether a number is over the 8 or 32 bits of its field. `try_from` and `?` make a branch of each test, and a call takes an eighth more instructions.
fn too_wide(n: &[u64; FIELDS]) -> bool
    ensures { result ≡ too_wide n.now }
{
    (0xFF < n[0])
        | (0xFF < n[1])
        | (0xFF < n[2])
        | (0xFF < n[3])
        | (0xFF < n[4])
        | (0xFF < n[5])
        | (0xFFFF_FFFF < n[6])
        | (0xFFFF_FFFF < n[7])
        | (0xFFFF_FFFF < n[8])
}

// The fields that C writes.
#[tactic(auto, unfolding(crate::specs::Packets::fields_in))]
fn fields_in(n: &[u64; FIELDS]) -> Fields
    requires { too_wide n.now ≡ false }
    ensures { result ≡ fields_in n.now }
{
    Fields {
        leap: n[0] as u8,
        version: n[1] as u8,
        mode: n[2] as u8,
        stratum: n[3] as u8,
        poll: n[4] as u8,
        precision: signed8(n[5] as u8),
        root_delay: signed32(n[6] as u32),
        root_dispersion: n[7] as u32,
        identifier: n[8] as u32,
        reference: Timestamp::from(n[9]),
        originate: Timestamp::from(n[10]),
        receive: Timestamp::from(n[11]),
        transmit: Timestamp::from(n[12]),
    }
}

fn write_fields(fields: &[u64; FIELDS], buffer: &mut [u8]) -> Result<(), Refusal>
    ensures answer { result ≡ write_answer fields.now buffer.old }
    ensures buffer { buffer.new ≡ buffer_after fields.now buffer.old }
{
    if buffer.len() < packet::LENGTH {
        return Err(Refusal::BufferTooShort);
    }
    if too_wide(fields) {
        return Err(Refusal::FieldTooLarge);
    }
    packet::write(buffer, fields_in(fields))
}

// `packet::write`. Refusals, in order: 1, 27, also for a number that is too wide for its field.
pub fn pongulvesz_write_fields(fields: &[u64; FIELDS], buffer: &mut [u8]) -> u32
    ensures number { result ≡ result_number (write_answer fields.now buffer.old) }
    ensures buffer { buffer.new ≡ buffer_after fields.now buffer.old }
{
    u32::from(result_number(write_fields(fields, buffer)))
}

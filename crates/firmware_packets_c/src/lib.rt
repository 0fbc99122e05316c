// For C (docs/C.md): timestamps and the fields of a packet. Each export calls the function of `firmware_packets` of the same name, and promises the same.
#![tactic(auto)]

ghost use Rattle.std.specs.Prelude.{◌≡◌};
ghost use Rattle.packet.specs.Packet.{read_answer};
ghost use Rattle.refusals.specs.Given.{result_number};
ghost use Rattle.firmware_packets.specs.Packets.{difference_of, difference_number, difference_after, measurement, measure, measurement_after, fields_after, write_answer, buffer_after};

use firmware_packets::FIELDS;

// `timestamp::Timestamp::minus`. Refusals: 43.
#[unsafe(no_mangle)]
pub extern "C" fn pongulvesz_difference(x: u64, y: u64, difference: &mut i64) -> u32
    ensures number { result ≡ difference_number (difference_of x y) }
    ensures difference { difference.new ≡ difference_after difference.old (difference_of x y) }
{
    firmware_packets::pongulvesz_difference(x, y, difference)
}

// `offset::measure`. Refusals, in order: 43, 15, 16, 43, 17, 18, 43, 43, 19.
#[unsafe(no_mangle)]
pub extern "C" fn pongulvesz_measure(
    t1: u64,
    t2: u64,
    t3: u64,
    t4: u64,
    offset: &mut i64,
    half: &mut u32,
    delay: &mut i64,
) -> u32
    ensures number { result ≡ result_number (measure t1 t2 t3 t4) }
    ensures measurement { measurement offset.new half.new delay.new ≡ measurement_after (measurement offset.old half.old delay.old) (measure t1 t2 t3 t4) }
{
    firmware_packets::pongulvesz_measure(t1, t2, t3, t4, offset, half, delay)
}

// `packet::read`. Refusals: 7.
#[unsafe(no_mangle)]
pub extern "C" fn pongulvesz_read_fields(packet: &[u8], fields: &mut [u64; FIELDS]) -> u32
    ensures number { result ≡ result_number (read_answer packet.now) }
    ensures fields { fields.new ≡ fields_after fields.old (read_answer packet.now) }
{
    firmware_packets::pongulvesz_read_fields(packet, fields)
}

// `packet::write`. Refusals, in order: 1, 27, also for a number that is too wide for its field.
#[unsafe(no_mangle)]
pub extern "C" fn pongulvesz_write_fields(fields: &[u64; FIELDS], buffer: &mut [u8]) -> u32
    ensures number { result ≡ result_number (write_answer fields.now buffer.old) }
    ensures buffer { buffer.new ≡ buffer_after fields.now buffer.old }
{
    firmware_packets::pongulvesz_write_fields(fields, buffer)
}

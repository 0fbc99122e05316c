// The fields of a packet, read from its octets and written into a buffer.
#![tactic(auto)]

ghost use Rattle.std.specs.Prelude.{◌≡◌, ◌+◌, ◌*◌, true, false, [], ◌∷◌, ◌++◌, reverse, drop, MatchOption};
ghost use Rattle.std.proofs.lemmas.List.Edits.{sets};
ghost use Rattle.arithmetic.specs.Octets.{octets};
ghost use Rattle.arithmetic.specs.TwosComplement.{bits};
ghost use Rattle.packet.specs.Packet.{packet_length, fields_of, octets_of, is_field_too_large, header_answer, read_answer, write_answer, written};

use refusals::Refusal;
use timestamp::Timestamp;

// The octets of a packet that has neither extension fields nor an authenticator.
pub const LENGTH: usize = extension::HEADER_LENGTH;

// `leap` is LI and `version` VN; root delay and root dispersion have 16 fraction bits. Numbers and no enums: `write` refuses by 27 what is too large for its bits.
#[derive(Clone, Copy, Debug, PartialEq, Eq)]
pub struct Fields {
    pub leap: u8,
    pub version: u8,
    pub mode: u8,
    pub stratum: u8,
    pub poll: u8,
    pub precision: i8,
    pub root_delay: i32,
    pub root_dispersion: u32,
    pub identifier: u32,
    pub reference: Timestamp,
    pub originate: Timestamp,
    pub receive: Timestamp,
    pub transmit: Timestamp,
}

// The fields of 48 octets.
fn read_fields(p: &[u8; LENGTH]) -> Fields
    ensures { result ≡ fields_of p.now }
{
    Fields {
        leap: p[0] / 64,
        version: p[0] / 8 % 8,
        mode: p[0] % 8,
        stratum: p[1],
        poll: p[2],
        precision: twos_complement::signed8(p[3]),
        root_delay: twos_complement::signed32(slices::read_be32(p, 4)),
        root_dispersion: slices::read_be32(p, 8),
        identifier: slices::read_be32(p, 12),
        reference: Timestamp::from(slices::read_be64(p, 16)),
        originate: Timestamp::from(slices::read_be64(p, 24)),
        receive: Timestamp::from(slices::read_be64(p, 32)),
        transmit: Timestamp::from(slices::read_be64(p, 40)),
    }
}

// Reads the first 48 octets, whatever stands behind them. The array has a known length, so no field needs a test.
#[tactic(auto, using(crate::proofs::RoundTrips::fields_of_take))]
pub fn read_header(packet: &[u8]) -> Result<Fields, Refusal>
    ensures { result ≡ header_answer packet.now }
{
    packet
        .first_chunk()
        .map(read_fields)
        .ok_or(Refusal::PacketLengthWrong)
}

// Reads the first 48 octets of a packet. Its extension fields and its authenticator are not read.
pub fn read(packet: &[u8]) -> Result<Fields, Refusal>
    ensures { result ≡ read_answer packet.now }
{
    if extension::is_malformed(packet) {
        return Err(Refusal::PacketLengthWrong);
    }
    read_header(packet)
}

// Stores the octets of the four timestamps, which are octets 16 to 47.
fn put_timestamps(b: &mut [u8; LENGTH], fields: Fields)
    ensures { b.new ≡ sets b.old 16 (octets 8 fields.reference.0 ++ octets 8 fields.originate.0 ++ octets 8 fields.receive.0 ++ octets 8 fields.transmit.0) }
{
    slices::write_be64(b, 16, fields.reference.0);
    slices::write_be64(b, 24, fields.originate.0);
    slices::write_be64(b, 32, fields.receive.0);
    slices::write_be64(b, 40, fields.transmit.0);
}

// Octet 0, unless a field is too large to write.
fn first_octet(fields: Fields) -> Option<u8>
    ensures { MatchOption result (is_field_too_large fields ≡ true) (λ octet. (is_field_too_large fields ≡ false) × (octet ≡ fields.leap * 64 + fields.version * 8 + fields.mode)) }
{
    if 3 < fields.leap || 7 < fields.version || 7 < fields.mode {
        return None;
    }
    Some(fields.leap * 64 + fields.version * 8 + fields.mode)
}

// Octets 0 to 3 as a number, the lowest octet first: so the compiler keeps what does not change from packet to packet apart, and reverses nothing.
fn first_word(octet: u8, fields: Fields) -> u32
    ensures { reverse (octets 4 result) ≡ octet ∷ fields.stratum ∷ fields.poll ∷ bits 8 fields.precision ∷ [] }
{
    u32::from_le_bytes([
        octet,
        fields.stratum,
        fields.poll,
        twos_complement::bits8(fields.precision),
    ])
}

// Stores octet 0 as it is given, and behind it octets 1 to 47 of the fields.
fn put_fields(b: &mut [u8; LENGTH], octet: u8, fields: Fields)
    ensures { b.new ≡ octet ∷ drop 1 (octets_of fields) }
{
    slices::write_le32(b, 0, first_word(octet, fields));
    slices::write_be32(b, 4, twos_complement::bits32(fields.root_delay));
    slices::write_be32(b, 8, fields.root_dispersion);
    slices::write_be32(b, 12, fields.identifier);
    put_timestamps(b, fields);
}

// Writes the fields into the first 48 octets of the buffer.
#[tactic(auto, using(crate::proofs::Packet::large_kept, crate::proofs::Packet::octets_written), unfolding(crate::specs::Packet::octets_of))]
pub fn write(buffer: &mut [u8], fields: Fields) -> Result<(), Refusal>
    ensures answer { result ≡ write_answer buffer.old fields }
    ensures buffer { buffer.new ≡ written buffer.old fields }
{
    let b = buffer.first_chunk_mut().ok_or(Refusal::BufferTooShort)?;
    let octet = first_octet(fields).ok_or(Refusal::FieldTooLarge)?;
    put_fields(b, octet, fields);
    Ok(())
}

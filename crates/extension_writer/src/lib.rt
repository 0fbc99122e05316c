// An extension field (RFC 7822) added at the end of a packet.
#![tactic(auto)]

ghost use Rattle.std.specs.Prelude.{◌≡◌, ◌+◌, ◌≤◌, length};
ghost use Rattle.ordered_tests.specs.Tests.{given};
ghost use Rattle.extension.specs.Tail.{maximum_length, octets_of};
ghost use Rattle.extension_writer.specs.Writer.{filled_length, filled_to, new_field, no_room, add_tests, added, added_buffer};

use refusals::Refusal;

// The length of a body of n octets with its fill.
#[tactic(auto, unfolding(crate::specs::Writer::filled_length))]
fn filled_length(n: usize) -> usize
    requires { n ≤ maximum_length }
    ensures { result ≡ filled_length n }
{
    n.next_multiple_of(4).max(24)
}

// A field with a body of n octets has no room behind a packet of `size` octets, in a buffer of this capacity or in 1024 octets.
#[tactic(auto, unfolding(crate::specs::Writer::no_room, crate::specs::Writer::filled_length))]
fn no_room(capacity: usize, size: usize, n: usize) -> bool
    ensures { result ≡ no_room capacity size n }
{
    let limit = capacity.min(extension::MAXIMUM_LENGTH);
    n > extension::MAXIMUM_LENGTH || limit.saturating_sub(size) < 4 + filled_length(n)
}

// The length of the packet with a field of a body of n octets, or why it is not added.
#[tactic(auto, using(crate::proofs::Fill::holds), unfolding(crate::specs::Writer::add_tests, crate::specs::Writer::no_room))]
fn new_length(buffer: &[u8], size: usize, n: usize) -> Result<usize, Refusal>
    ensures { result ≡ given (add_tests buffer.now size n) }
{
    if buffer.len() < size {
        return Err(Refusal::PacketLengthWrong);
    }
    let packet = &buffer[..size];
    if extension::is_malformed(packet) {
        return Err(Refusal::PacketLengthWrong);
    }
    if extension::octets_after_fields(packet) != 0 {
        return Err(Refusal::FieldNotAdded);
    }
    if no_room(buffer.len(), size, n) {
        return Err(Refusal::FieldNotAdded);
    }
    Ok(size + (4 + filled_length(n)))
}

// Stores a body and its fill. `copy_from_slice` and `fill` would call memmove and memset, which a caller in C may not have.
#[tactic(auto, using(crate::proofs::Fill::filled))]
fn store_filled(octets: &mut [u8], body: &[u8])
    requires { length body.now ≤ length octets.old }
    ensures { octets.new ≡ filled_to (length octets.old) body.now }
{
    for (i, octet) in octets.iter_mut().enumerate() {
        *octet = body.get(i).copied().unwrap_or(0);
    }
}

// Stores a field into a slice of its length.
#[tactic(auto, using(crate::proofs::Fill::holds, crate::proofs::Adding::field_put))]
fn store_field(field: &mut [u8], field_type: u16, body: &[u8])
    requires length { length field.old ≡ 4 + filled_length (length body.now) }
    requires small { length field.old ≤ maximum_length }
    ensures { field.new ≡ octets_of (new_field field_type body.now) }
{
    let length = field.len() as u32;
    let (head, octets) = field.split_at_mut(4);
    slices::write_be32(head, 0, u32::from(field_type) * 65536 + length);
    store_filled(octets, body);
}

// Adds a field at the end of the packet, and gives the packet's new length. Every octet outside the field stays. The packet is the buffer's first octets, as many
// as size says; those behind it are the room. C lends the buffer and the size apart.
#[tactic(auto, using(crate::proofs::Adding::part_within, crate::proofs::Adding::part_length, crate::proofs::Adding::part_small, crate::proofs::Adding::stored))]
pub fn add(buffer: &mut [u8], size: usize, field_type: u16, body: &[u8]) -> Result<usize, Refusal>
    ensures value { result ≡ added buffer.old size body.now }
    ensures buffer_after { buffer.new ≡ added_buffer buffer.old size field_type body.now }
{
    let new = new_length(buffer, size, body.len())?;
    store_field(&mut buffer[size..new], field_type, body);
    Ok(new)
}

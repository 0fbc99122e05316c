// The extension fields of a packet (RFC 7822), and what reads them. They stand past its 48th octet; an authenticator may stand behind them, and is not read.
#![tactic(auto)]

ghost use Rattle.std.specs.Prelude.{◌≡◌, ◌-◌, length, drop};
ghost use Rattle.arithmetic.specs.Octets.{part};
ghost use Rattle.extension.specs.Reading.{ends_fields, is_field_length, after_fields, is_malformed};
ghost use Rattle.extension.specs.Reader.{field_length, begun, next};

use refusals::Refusal;

// The octets of a packet before its extension fields, and the most that a packet may have.
pub const HEADER_LENGTH: usize = 48;

pub const MAXIMUM_LENGTH: usize = 1024;

// Where the next field of a packet begins.
#[derive(Clone, Copy)]
pub struct Cursor {
    pub at: usize,
}

// A field: its type, its body, which is the packet's octets from start to end, and the cursor behind it.
#[derive(Clone, Copy)]
pub struct Field {
    pub field_type: u16,
    pub start: usize,
    pub end: usize,
    pub next: Cursor,
}

// Nothing is left, or an authenticator.
#[tactic(auto, unfolding(crate::specs::Reading::ends_fields))]
fn ends_fields(left: usize) -> bool
    ensures { result ≡ ends_fields left }
{
    matches!(left, 0 | 4 | 20 | 24)
}

// A field of n octets may begin where this number of octets is left.
#[tactic(auto, unfolding(crate::specs::Reading::is_field_length))]
fn is_field_length(left: usize, n: usize) -> bool
    ensures { result ≡ is_field_length left n }
{
    28 <= left && 16 <= n && n % 4 == 0 && n <= left
}

// The length of the field that begins these octets, where one begins.
#[tactic(auto, using(crate::proofs::Reader::short, crate::proofs::Reader::measured))]
fn field_length(left: &[u8]) -> Option<usize>
    ensures { result ≡ field_length left.now }
{
    let stated = left.get(2..4)?;
    let n = usize::from(slices::read_be16(stated, 0));
    is_field_length(left.len(), n).then_some(n)
}

// The octets of a packet from index at on.
fn octets_from(packet: &[u8], at: usize) -> &[u8]
    ensures { result.now ≡ drop at packet.now }
{
    packet.get(at..).unwrap_or(&[])
}

// The number of octets that are left where no field begins any more.
#[tactic(auto, using(crate::proofs::Reader::field_within, crate::proofs::Reader::less_left, crate::proofs::Reader::rest_on, crate::proofs::Reader::rest_there))]
pub fn octets_after_fields(packet: &[u8]) -> usize
    ensures { result ≡ length (after_fields packet.now) }
{
    let mut left = octets_from(packet, HEADER_LENGTH);
    while let Some(n) = field_length(left) {
        left = &left[n..];
    }
    left.len()
}

// Refusal 7: the packet is shorter than 48 octets, longer than 1024, or its tail breaks the rules. Most packets have no tail: they are taken at once.
#[tactic(auto, using(crate::proofs::Reading::of_48), unfolding(crate::specs::Reading::is_malformed))]
pub fn is_malformed(packet: &[u8]) -> bool
    ensures { result ≡ is_malformed packet.now }
{
    if packet.len() == HEADER_LENGTH {
        return false;
    }
    if !(HEADER_LENGTH..=MAXIMUM_LENGTH).contains(&packet.len()) {
        return true;
    }
    !ends_fields(octets_after_fields(packet))
}

// Refuses a malformed packet before anything of it is handed out.
#[tactic(auto, unfolding(crate::specs::Reader::begun))]
pub fn begin(packet: &[u8]) -> Result<Cursor, Refusal>
    ensures { result ≡ begun packet.now }
{
    if is_malformed(packet) {
        return Err(Refusal::PacketLengthWrong);
    }
    Ok(Cursor { at: HEADER_LENGTH })
}

// The field that stands at the cursor, or None at the end of the fields. It looks at that one head. A walk from where `begin` points meets no refusal.
// `begin` and `next` are no iterator: C has a call for each step, and demands/specs/Next.antt speaks of one step at any index.
#[tactic(auto, using(crate::proofs::Reader::at_within, crate::proofs::Reader::end_within, crate::proofs::Reader::field_found, crate::proofs::Reader::end_found, crate::proofs::Reader::neither_found))]
pub fn next(packet: &[u8], cursor: Cursor) -> Result<Option<Field>, Refusal>
    ensures { result ≡ next packet.now cursor }
{
    let at = cursor.at;
    let left = octets_from(packet, at);
    if let Some(n) = field_length(left) {
        return Ok(Some(Field {
            field_type: slices::read_be16(left, 0),
            start: at + 4,
            end: at + n,
            next: Cursor { at: at + n },
        }));
    }
    if !ends_fields(left.len()) {
        return Err(Refusal::PacketLengthWrong);
    }
    Ok(None)
}

// The packet's octets from start to end, as far as it has them. It takes two ends and no field: demands/specs/Body.antt speaks of any two.
pub fn body(packet: &[u8], start: usize, end: usize) -> &[u8]
    ensures { result.now ≡ part start (end - start) packet.now }
{
    let last = end.min(packet.len());
    &packet[start.min(last)..last]
}

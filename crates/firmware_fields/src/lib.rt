// Extension fields for C (docs/C.md). A refused call returns its number and writes nothing. C has no Result and no Option: a call returns
// the number and stores its answer, and `found` is 0 or 1.
#![tactic(auto)]

ghost use Rattle.std.specs.Prelude.{◌≡◌};
ghost use Rattle.extension.specs.Reader as reader;
ghost use Rattle.refusals.specs.Given.{result_number};
ghost use Rattle.firmware_fields.specs.Fields.{cursor_after, numbers, numbers_after, add_answer, size_after, buffer_after};

use extension::Cursor;
use refusals::{Refusal, tell};

// `extension::begin`. Refusals: 7.
pub fn pongulvesz_fields(packet: &[u8], cursor: &mut usize) -> u32
    ensures number { result ≡ result_number (reader.begun packet.now) }
    ensures cursor { cursor.new ≡ cursor_after cursor.old (reader.begun packet.now) }
{
    tell(extension::begin(packet).map(|first| first.at), cursor)
}

// `extension::next`. Refusals: 7. C lends five numbers, so each is stored here.
pub fn pongulvesz_next_field(
    packet: &[u8],
    cursor: &mut usize,
    found: &mut u32,
    field_type: &mut u32,
    start: &mut usize,
    end: &mut usize,
) -> u32
    ensures number { result ≡ result_number (reader.next packet.now (reader.cursor cursor.old)) }
    ensures numbers { numbers cursor.new found.new field_type.new start.new end.new
        ≡ numbers_after (numbers cursor.old found.old field_type.old start.old end.old) (reader.next packet.now (reader.cursor cursor.old)) }
{
    let at = *cursor;
    match extension::next(packet, Cursor { at }) {
        Ok(Some(field)) => {
            *cursor = field.next.at;
            *found = 1;
            *field_type = u32::from(field.field_type);
            *start = field.start;
            *end = field.end;
            0
        }
        Ok(None) => {
            *found = 0;
            0
        }
        Err(refusal) => u32::from(refusal.number()),
    }
}

// `extension_writer::add`; a type of more than 16 bits is refused by 27 before anything else. Refusals, in order: 27, 7, 44.
pub fn pongulvesz_add_field(
    buffer: &mut [u8],
    size: &mut usize,
    field_type: u32,
    body: &[u8],
) -> u32
    ensures number { result ≡ result_number (add_answer buffer.old size.old field_type body.now) }
    ensures size { size.new ≡ size_after size.old (add_answer buffer.old size.old field_type body.now) }
    ensures buffer { buffer.new ≡ buffer_after buffer.old size.old field_type body.now }
{
    let Ok(field_type) = u16::try_from(field_type) else {
        return u32::from(Refusal::FieldTooLarge.number());
    };
    let answer = extension_writer::add(buffer, *size, field_type, body);
    tell(answer, size)
}

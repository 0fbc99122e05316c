// For C (docs/C.md): extension fields. Each export calls the function of `firmware_fields` of the same name, and promises the same.
#![tactic(auto)]

ghost use Rattle.std.specs.Prelude.{◌≡◌};
ghost use Rattle.extension.specs.Reader as reader;
ghost use Rattle.refusals.specs.Given.{result_number};
ghost use Rattle.firmware_fields.specs.Fields.{cursor_after, numbers, numbers_after, add_answer, size_after, buffer_after};

// `extension::begin`. Refusals: 7.
#[unsafe(no_mangle)]
pub extern "C" fn pongulvesz_fields(packet: &[u8], cursor: &mut usize) -> u32
    ensures number { result ≡ result_number (reader.begun packet.now) }
    ensures cursor { cursor.new ≡ cursor_after cursor.old (reader.begun packet.now) }
{
    firmware_fields::pongulvesz_fields(packet, cursor)
}

// `extension::next`. Refusals: 7.
#[unsafe(no_mangle)]
pub extern "C" fn pongulvesz_next_field(
    packet: &[u8],
    cursor: &mut usize,
    found: &mut u32,
    field_type: &mut u32,
    start: &mut usize,
    end: &mut usize,
) -> u32
    ensures number { result ≡ result_number (reader.next packet.now (reader.cursor cursor.old)) }
    ensures numbers { numbers cursor.new found.new field_type.new start.new end.new
        ≡ numbers_after (numbers cursor.old found.old field_type.old start.old end.old) (reader.next packet.now (reader.cursor cursor.old)) }
{
    firmware_fields::pongulvesz_next_field(packet, cursor, found, field_type, start, end)
}

// `extension_writer::add`; a type of more than 16 bits is refused by 27 before anything else. Refusals, in order: 27, 7, 44.
#[unsafe(no_mangle)]
pub extern "C" fn pongulvesz_add_field(
    buffer: &mut [u8],
    size: &mut usize,
    field_type: u32,
    body: &[u8],
) -> u32
    ensures number { result ≡ result_number (add_answer buffer.old size.old field_type body.now) }
    ensures size { size.new ≡ size_after size.old (add_answer buffer.old size.old field_type body.now) }
    ensures buffer { buffer.new ≡ buffer_after buffer.old size.old field_type body.now }
{
    firmware_fields::pongulvesz_add_field(buffer, size, field_type, body)
}

// Octets as a line of hexadecimal: two digits an octet, in upper case, and a line feed.
#![tactic(auto)]

ghost use Rattle.std.specs.Prelude.{◌≡◌, ◌+◌, ◌≤◌, [], ◌∷◌, length};
ghost use Rattle.std.proofs.lemmas.List.Edits.{sets};
ghost use Rattle.hex_encode.specs.Text.{character_of, digits, put_line, put_line_at};

// The character of a digit's value, in upper case.
#[tactic(auto, unfolding(crate::specs::Text::character_of))]
fn character(value: u8) -> u8
    ensures { result ≡ character_of value }
{
    let v = value % 16;
    if v < 10 { b'0' + v } else { b'A' + (v - 10) }
}

fn put_octet(output: &mut [u8], at: usize, octet: u8)
    requires { at + 2 ≤ length output.old }
    ensures { output.new ≡ sets output.old at (digits (octet ∷ [])) }
{
    output[at] = character(octet / 16);
    output[at + 1] = character(octet);
}

#[tactic(auto, using(crate::proofs::Written::length_digits, crate::proofs::Written::put_more))]
fn put_octets(output: &mut [u8], at: usize, octets: &[u8]) -> usize
    requires { at + length (digits octets.now) ≤ length output.old }
    ensures answer { result ≡ at + length (digits octets.now) }
    ensures buffer { output.new ≡ sets output.old at (digits octets.now) }
{
    // The library says nothing of what is written through `chunks_exact_mut`, so `end` is counted here.
    let mut end = at;
    for octet in octets {
        put_octet(output, end, *octet);
        end += 2;
    }
    end
}

// Puts a line of octets into the output from index at on, and answers the index after it; if there is no room, puts nothing. The output is lent whole, since the
// contract tells that the octets before the index stay.
#[tactic(auto, using(crate::proofs::Written::length_digits, crate::proofs::Written::length_text, crate::proofs::Written::put_last), unfolding(crate::specs::Text::put_line, crate::specs::Text::put_line_at))]
pub fn put_line(output: &mut [u8], at: usize, octets: &[u8]) -> Option<usize>
    ensures answer { result ≡ put_line_at output.old at octets.now }
    ensures buffer { output.new ≡ put_line output.old at octets.now }
{
    let room = output.len().saturating_sub(at);
    // Two characters an octet leave no room for the line feed. No product is formed, so nothing overflows.
    if room.div_ceil(2) <= octets.len() {
        return None;
    }
    let end = put_octets(output, at, octets);
    output[end] = b'\n';
    Some(end + 1)
}

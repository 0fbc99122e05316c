// The Time Protocol of RFC 868: a count of seconds in four octets (docs/RULES.md, "The Time Protocol").
#![tactic(auto)]

ghost use Rattle.std.specs.Prelude.{◌≡◌};
ghost use Rattle.time_protocol.specs.TimeProtocol.{write_answer, written, read_answer};

use refusals::Refusal;

// Writes the count into the first four octets of the buffer. Refusals: 45.
#[tactic(auto, using(crate::proofs::Octets::stored))]
pub fn write(count: u32, buffer: &mut [u8]) -> Result<(), Refusal>
    ensures answer { result ≡ write_answer buffer.old }
    ensures buffer { buffer.new ≡ written count buffer.old }
{
    if buffer.len() < 4 {
        return Err(Refusal::TimeLengthWrong);
    }
    slices::write_be32(buffer, 0, count);
    Ok(())
}

// The count of four octets. Refusals: 45.
#[tactic(auto, using(crate::proofs::Octets::number))]
pub fn read(octets: &[u8]) -> Result<u32, Refusal>
    ensures { result ≡ read_answer octets.now }
{
    let octets: &[u8; 4] = octets.as_array().ok_or(Refusal::TimeLengthWrong)?;
    Ok(u32::from_be_bytes(*octets))
}

// The client's request (RFC 4330, section 5).
#![tactic(auto)]

ghost use Rattle.std.specs.Prelude.{◌≡◌};
ghost use Rattle.packet.specs.Packet.{write_answer, written};
ghost use Rattle.request.specs.Request.{request_fields};

use packet::Fields;
use refusals::Refusal;
use timestamp::Timestamp;
use token::Token;

// All zero but version, mode 3 and the transmit field, which carries the token.
fn fields(version: u8, token: Token) -> Fields
    ensures { result ≡ request_fields version token }
{
    Fields {
        leap: 0,
        version,
        mode: 3,
        stratum: 0,
        poll: 0,
        precision: 0,
        root_delay: 0,
        root_dispersion: 0,
        identifier: 0,
        reference: Timestamp::ZERO,
        originate: Timestamp::ZERO,
        receive: Timestamp::ZERO,
        transmit: token.field(),
    }
}

// Writes the 48 octets of a request into the buffer, as `packet::write` does.
pub fn write(buffer: &mut [u8], version: u8, token: Token) -> Result<(), Refusal>
    ensures answer { result ≡ write_answer buffer.old (request_fields version token) }
    ensures buffer { buffer.new ≡ written buffer.old (request_fields version token) }
{
    packet::write(buffer, fields(version, token))
}

// The checks of a server's reply to the request that was sent at T1 with this token and version (RFC 4330, section 5).
#![tactic(auto)]

ghost use Rattle.std.specs.Prelude.{◌≡◌};
ghost use Rattle.ordered_tests.specs.Tests.{given, pass};
ghost use Rattle.reply_checks.specs.Checks.{match_tests, checked, checked_packet};

use offset::Measurement;
use packet::Fields;
use refusals::Refusal;
use timestamp::Timestamp;
use token::Token;

// What a reply that is not refused tells. `code` is the reference identifier.
#[derive(Clone, Copy, Debug, PartialEq, Eq)]
pub enum ArrivalAnswer {
    Accepted(Measurement),
    Kiss { code: u32, row: u8 },
}

// Whether the packet answers the request.
fn check_match(token: Token, version: u8, f: Fields) -> Result<(), Refusal>
    ensures { result ≡ given (match_tests token version f pass) }
{
    if f.originate != token.field() {
        return Err(Refusal::OriginateMismatch);
    }
    if f.mode != 4 {
        return Err(Refusal::ReplyModeWrong);
    }
    if f.version != version {
        return Err(Refusal::VersionMismatch);
    }
    Ok(())
}

// A reply of stratum 0 is a kiss-o'-death packet (RFC 4330, section 8).
#[tactic(auto, using(crate::proofs::Checks::refused_match, crate::proofs::Checks::a_kiss, crate::proofs::Checks::refused_sanity, crate::proofs::Checks::not_measured, crate::proofs::Checks::accepts))]
fn check(
    t1: Timestamp,
    token: Token,
    version: u8,
    f: Fields,
    t4: Timestamp,
) -> Result<ArrivalAnswer, Refusal>
    ensures { result ≡ checked t1 token version f t4 }
{
    check_match(token, version, f)?;
    if f.stratum == 0 {
        let code = f.identifier;
        let row = kiss::row(code);
        return Ok(ArrivalAnswer::Kiss { code, row });
    }
    sanity::check(f, t4)?;
    let measurement = offset::measure(t1, f.receive, f.transmit, t4)?;
    Ok(ArrivalAnswer::Accepted(measurement))
}

// The checks of a packet that came in at the clock reading T4; `waiting` says whether there is a request. The request is no Option: the parts stand in the client's
// record beside its phase, as the rules have them, and an Option would be put together for this call alone.
#[tactic(auto, using(packet::proofs::Packet::read_refused, packet::proofs::Packet::read_fields), unfolding(crate::specs::Checks::checked_packet, crate::specs::Checks::waiting_tests, crate::specs::Checks::checked))]
pub fn check_packet(
    waiting: bool,
    t1: Timestamp,
    token: Token,
    version: u8,
    packet: &[u8],
    t4: Timestamp,
) -> Result<ArrivalAnswer, Refusal>
    ensures { result ≡ checked_packet waiting t1 token version packet.now t4 }
{
    let f = packet::read(packet)?;
    if !waiting {
        return Err(Refusal::NotWaiting);
    }
    check(t1, token, version, f, t4)
}

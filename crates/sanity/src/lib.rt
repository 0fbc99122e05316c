// The sanity checks of a server's reply that need no record of the request (RFC 4330, section 5).
#![tactic(auto)]

ghost use Rattle.std.specs.Prelude.{◌≡◌};
ghost use Rattle.ordered_tests.specs.Tests.{given, pass};
ghost use Rattle.sanity.specs.Sanity.{header_tests, is_root_delay_out_of_range, is_root_dispersion_too_large, root_tests};

use packet::Fields;
use refusals::Refusal;
use timestamp::Timestamp;

// Root delay and root dispersion have 16 fraction bits, so that 65536 is one second.
fn root_delay_out_of_range(delay: i32) -> bool
    ensures { result ≡ is_root_delay_out_of_range delay }
{
    !(0..65536).contains(&delay)
}

fn root_dispersion_too_large(dispersion: u32) -> bool
    ensures { result ≡ is_root_dispersion_too_large dispersion }
{
    65536 <= dispersion
}

// The checks of a reply with these fields that arrived at T4.
pub fn check(f: Fields, t4: Timestamp) -> Result<(), Refusal>
    ensures { result ≡ given (header_tests f t4 (root_tests f pass)) }
{
    if t4.is_zero() {
        return Err(Refusal::OwnClockZero);
    }
    if f.leap == 3 {
        return Err(Refusal::ServerUnsynchronised);
    }
    if 15 < f.stratum {
        return Err(Refusal::StratumTooHigh);
    }
    if f.receive.is_zero() || f.transmit.is_zero() {
        return Err(Refusal::ServerTimestampZero);
    }
    if root_delay_out_of_range(f.root_delay) {
        return Err(Refusal::RootDelayOutOfRange);
    }
    if root_dispersion_too_large(f.root_dispersion) {
        return Err(Refusal::RootDispersionTooLarge);
    }
    Ok(())
}

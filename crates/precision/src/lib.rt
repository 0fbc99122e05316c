// The precision octet of a clock's tick (docs/RULES.md, "The 48 octets").
#![tactic(auto)]

ghost use Rattle.std.specs.Prelude.{◌≡◌};
ghost use Rattle.precision.specs.Precision.{precision_of};

use refusals::Refusal;
use timestamp::Timestamp;

// The exponent in seconds of the smallest power of two not below the tick.
#[tactic(auto, using(crate::proofs::Least::octet_is))]
pub fn precision_of_tick(tick: u64) -> Result<i8, Refusal>
    ensures { result ≡ precision_of tick }
{
    if tick == 0 || Timestamp::SECOND < tick {
        return Err(Refusal::TickOutOfRange);
    }
    // The length in bits of tick - 1 is the exponent in units, of which 2^32 are a second.
    // `next_power_of_two` forms the power first, which takes more instructions.
    Ok((u64::BITS - (tick - 1).leading_zeros()) as i8 - 32)
}

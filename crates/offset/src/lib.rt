// The clock offset of four timestamps: T1 sent, T2 received, T3 answered, T4 arrived.
#![tactic(auto)]

ghost use Rattle.std.specs.Prelude.{◌≡◌, ◌+ℤ◌, MatchResult, false, true};
ghost use Rattle.refusals.specs.declared.Refusal.TheVariants.{NoOrder};
ghost use Rattle.timestamp.specs.Timestamp.{◌since◌, has_no_order};
ghost use Rattle.offset.specs.Offset.{halves, measured};

use refusals::Refusal;
use timestamp::Timestamp;

// The offset with its half, and the round-trip delay, all in units of 2^-32 s.
#[derive(Clone, Copy, Debug, PartialEq, Eq)]
pub struct Measurement {
    pub offset: i64,
    pub half: u8,
    pub delay: i64,
}

// A sum halved: twice the offset plus the half is the sum.
#[derive(Clone, Copy)]
pub struct Halves {
    pub offset: i64,
    pub half: u8,
}

// P + Q halved. The sum may need 65 bits, so it is not formed: it is twice P & Q, the ones that both have, plus P ^ Q, the ones that one of them has.
// A shift to the right rounds down also below zero, where a division rounds toward zero.
pub fn halve(p: i64, q: i64) -> Halves
    ensures { result ≡ halves (p +ℤ q) }
{
    let one = p ^ q;
    Halves {
        offset: (p & q) + (one >> 1),
        half: (one & 1) as u8,
    }
}

// The difference x - y, where the two have an order.
fn difference(x: Timestamp, y: Timestamp) -> Result<i64, Refusal>
    ensures { MatchResult result (λ z. (has_no_order (x since y) ≡ false) × (z ≡ x since y)) (λ r. (has_no_order (x since y) ≡ true) × (r ≡ NoOrder)) }
{
    x.minus(y).ok_or(Refusal::NoOrder)
}

// The clock offset, its half and the round-trip delay. P and Q are the first and the second difference of the rules.
#[tactic(auto, unfolding(crate::specs::Offset::measured, crate::specs::Offset::offset_tests, crate::specs::Offset::halves))]
pub fn measure(
    t1: Timestamp,
    t2: Timestamp,
    t3: Timestamp,
    t4: Timestamp,
) -> Result<Measurement, Refusal>
    ensures { result ≡ measured t1 t2 t3 t4 }
{
    let trip = difference(t4, t1)?;
    if trip < 0 {
        return Err(Refusal::ArrivedBeforeSent);
    }
    if Timestamp::LIMIT < trip {
        return Err(Refusal::ArrivedTooLate);
    }
    let hold = difference(t3, t2)?;
    if hold < 0 {
        return Err(Refusal::AnsweredBeforeReceived);
    }
    if trip < hold {
        return Err(Refusal::DelayNegative);
    }
    let p = difference(t2, t1)?;
    let q = difference(t3, t4)?;
    if p < q {
        return Err(Refusal::FirstBelowSecond);
    }
    let Halves { offset, half } = halve(p, q);
    Ok(Measurement {
        offset,
        half,
        delay: trip - hold,
    })
}

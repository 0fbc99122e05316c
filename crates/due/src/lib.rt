// When a call of a client's record is due: the first uptime at which it is not refused as too soon. A caller's loop can sleep until then.
#![tactic(auto)]

ghost use Rattle.std.specs.Prelude.{◌≡◌};
ghost use Rattle.ordered_tests.specs.Tests.{given};
ghost use Rattle.due.specs.Due.{past, ask_due, give_up_due};

use client::{Client, Phase};
use refusals::Refusal;
use timestamp::Timestamp;

// The uptime `seconds` past `since`, or refused by `too_soon` if 64 bits do not hold it.
fn past(too_soon: Refusal, since: u64, seconds: u64) -> Result<u64, Refusal>
    ensures { result ≡ given (past too_soon since seconds) }
{
    since.checked_add(seconds).ok_or(too_soon)
}

// The first uptime at which `Client::ask` does not refuse this record by 6. Refusals, in order: 29, 4, 5, 6.
#[tactic(auto, using(client::proofs::Exponent::exponents, poll::proofs::Uptime::shifted), unfolding(crate::specs::Due::ask_due, crate::specs::Due::ask_due_tests))]
pub fn ask_due(client: Client) -> Result<u64, Refusal>
    ensures { result ≡ ask_due client }
{
    if client.illegal() {
        return Err(Refusal::RecordNotLegal);
    }
    match client.phase {
        Phase::Stopped => Err(Refusal::ClientStopped),
        Phase::Waiting => Err(Refusal::AlreadyWaiting),
        Phase::Idle if !client.asked => Ok(0),
        Phase::Idle => past(
            Refusal::AskedTooSoon,
            client.uptime,
            1u64 << client.exponent,
        ),
    }
}

// The first uptime at which `Client::give_up` does not refuse this record by 20. Refusals, in order: 29, 8, 20.
#[tactic(auto, unfolding(crate::specs::Due::give_up_due, crate::specs::Due::give_up_due_tests))]
pub fn give_up_due(client: Client) -> Result<u64, Refusal>
    ensures { result ≡ give_up_due client }
{
    if client.illegal() {
        return Err(Refusal::RecordNotLegal);
    }
    match client.phase {
        Phase::Idle | Phase::Stopped => Err(Refusal::NotWaiting),
        Phase::Waiting => past(
            Refusal::GaveUpTooSoon,
            client.uptime,
            Timestamp::LIMIT_SECONDS,
        ),
    }
}

// Uptimes and the poll interval.
#![tactic(auto)]

ghost use Rattle.std.specs.Prelude.{◌≡◌, ◌^◌};
ghost use Rattle.poll.specs.Poll.{too_soon, backed_off};

// The uptime is below an earlier one, or less than `seconds` past it. No sum is formed, so nothing wraps.
#[tactic(auto, unfolding(crate::specs::Poll::too_soon))]
pub fn too_soon(since: u64, seconds: u64, uptime: u64) -> bool
    ensures { result ≡ too_soon since seconds uptime }
{
    uptime.checked_sub(since).is_none_or(|past| past < seconds)
}

// Within the poll interval, 2^exponent seconds: with an exponent of 64 or more every uptime is.
#[tactic(auto, using(crate::proofs::Uptime::never_late, crate::proofs::Uptime::shifted))]
pub fn within_interval(since: u64, exponent: u8, uptime: u64) -> bool
    ensures { result ≡ too_soon since (2 ^ exponent) uptime }
{
    1u64.checked_shl(u32::from(exponent))
        .is_none_or(|interval| too_soon(since, interval, uptime))
}

// The next poll exponent after a request that had no answer (RFC 4330, section 10, practice 2).
pub fn backed_off(exponent: u8) -> u8
    ensures { result ≡ backed_off exponent }
{
    exponent.min(13) + 1
}

// A ledger that pays clock corrections out slowly. It is kept in half units, 2^-33 s, so that no half of an accepted offset is lost.
//
// The caller's part: the clock readings that it gives the client count in every entry taken, paid or not, rounded down to the unit. Otherwise the next
// exchange would measure the same difference again, and it would be owed twice. After an accepted offset of 5 with half 1 the entry is 11 half units, and
// the caller hands the client its clock's reading plus 5 units. After a tick that paid 4 half units the clock is 2 units further and 7 half units are
// still owed: the caller adds 3 units, and the reading is the same.
#![tactic(auto)]

ghost use Rattle.std.specs.Prelude.{◌≡◌, not, ◌^◌, ◌≤◌, ◌<◌, ◌-ℤ◌, unsigned_abs};
ghost use Rattle.std.specs.Bool.{OnFalse};
ghost use Rattle.ordered_tests.specs.Tests.{between};
ghost use Rattle.ledger.specs.Ledger.{opened, half_units, is_debt_too_large, is_entry_too_large, refused_call, entered, payment, ticked};

use refusals::Refusal;

// The debt in half units, below 2^50 in size.
#[derive(Clone, Copy)]
pub struct Ledger {
    pub debt: i64,
}

// What a call answers, with the next record. The client's `Called` is another type, since each names its record.
#[derive(Clone, Copy)]
pub struct Called<T> {
    pub answer: Result<T, Refusal>,
    pub ledger: Ledger,
}

#[tactic(auto, unfolding(crate::specs::Ledger::is_debt_too_large))]
fn debt_too_large(debt: i64) -> bool
    ensures is { result ≡ is_debt_too_large debt }
    ensures small { OnFalse result (unsigned_abs debt < 2 ^ 50) }
{
    1 << 50 <= debt.unsigned_abs()
}

// Twice the offset plus the half.
fn half_units(offset: i64, half: u8) -> i64
    requires offset { unsigned_abs offset ≤ 2 ^ 40 }
    requires half { half ≤ 1 }
    ensures is { result ≡ half_units offset half }
    ensures small { unsigned_abs result < 2 ^ 42 }
{
    offset + offset + i64::from(half)
}

// Twice an offset may not fit 64 bits: one of more than 2^40 units is too large whatever its half.
#[tactic(auto, using(crate::proofs::Sizes::double_size), unfolding(crate::specs::Ledger::is_entry_too_large))]
fn entry_too_large(offset: i64, half: u8) -> bool
    ensures is { result ≡ is_entry_too_large offset half }
    ensures offset { OnFalse result (unsigned_abs offset ≤ 2 ^ 40) }
    ensures half { OnFalse result (half ≤ 1) }
{
    1 < half
        || 1 << 40 < offset.unsigned_abs()
        || 1 << 41 <= half_units(offset, half).unsigned_abs()
}

// At most the limit of the debt, either way.
#[tactic(auto, using(crate::proofs::Payments::clamped))]
fn payment(debt: i64, limit: u64) -> i64
    requires { limit ≤ 2 ^ 32 }
    ensures is { result ≡ payment debt limit }
    ensures small { unsigned_abs result ≤ 2 ^ 32 }
{
    let limit = limit as i64;
    debt.clamp(-limit, limit)
}

fn limit_out_of_range(limit: u64) -> bool
    ensures { result ≡ not (between 1 (2 ^ 32) limit) }
{
    !(1..=1 << 32).contains(&limit)
}

impl Ledger {
    // A ledger without debt.
    pub fn open() -> Ledger
        ensures { result ≡ opened }
    {
        Ledger { debt: 0 }
    }

    fn refused<T>(self, refusal: Refusal) -> Called<T>
        ensures { result ≡ refused_call self refusal }
    {
        Called {
            answer: Err(refusal),
            ledger: self,
        }
    }

    // Entry: an accepted offset and its half are owed.
    #[tactic(auto, unfolding(crate::specs::Ledger::entry_tests))]
    pub fn entry(self, offset: i64, half: u8) -> Called<()>
        ensures { result ≡ entered self offset half }
    {
        if debt_too_large(self.debt) {
            return self.refused(Refusal::RecordNotLegal);
        }
        if entry_too_large(offset, half) {
            return self.refused(Refusal::EntryTooLarge);
        }
        let debt = self.debt + half_units(offset, half);
        if debt_too_large(debt) {
            return self.refused(Refusal::DebtTooLarge);
        }
        Called {
            answer: Ok(()),
            ledger: Ledger { debt },
        }
    }

    // Tick: pays at most the limit of the debt. What is paid has the debt's sign.
    #[tactic(auto, unfolding(crate::specs::Ledger::tick_tests))]
    pub fn tick(self, limit: u64) -> Called<i64>
        ensures { result ≡ ticked self limit }
    {
        if debt_too_large(self.debt) {
            return self.refused(Refusal::RecordNotLegal);
        }
        if limit_out_of_range(limit) {
            return self.refused(Refusal::LimitOutOfRange);
        }
        let paid = payment(self.debt, limit);
        Called {
            answer: Ok(paid),
            ledger: Ledger {
                debt: self.debt - paid,
            },
        }
    }
}

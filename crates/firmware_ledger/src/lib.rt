// The ledger for C (docs/C.md): the record is its debt. A refused call returns its number and writes nothing.
#![tactic(auto)]

ghost use Rattle.std.specs.Prelude.{◌≡◌};
ghost use Rattle.refusals.specs.Given.{result_number};
ghost use Rattle.firmware_ledger.specs.Ledger.{entry_of, tick_of, paid_after};

use firmware::numbers::narrow;
use ledger::Ledger;
use refusals::{result_number, tell};

// `Ledger::entry`. Refusals, in order: 29, 30, 31.
pub fn pongulvesz_entry(debt: &mut i64, offset: i64, half: u32) -> u32
    ensures number { result ≡ result_number (entry_of debt.old offset half).answer }
    ensures debt { debt.new ≡ (entry_of debt.old offset half).ledger.debt }
{
    let owed = *debt;
    let entered = Ledger { debt: owed }.entry(offset, narrow(half));
    *debt = entered.ledger.debt;
    u32::from(result_number(entered.answer))
}

// `Ledger::tick`. Refusals, in order: 29, 32.
pub fn pongulvesz_tick(debt: &mut i64, limit: u64, paid: &mut i64) -> u32
    ensures number { result ≡ result_number (tick_of debt.old limit).answer }
    ensures debt { debt.new ≡ (tick_of debt.old limit).ledger.debt }
    ensures paid { paid.new ≡ paid_after paid.old (tick_of debt.old limit).answer }
{
    let owed = *debt;
    let ticked = Ledger { debt: owed }.tick(limit);
    *debt = ticked.ledger.debt;
    tell(ticked.answer, paid)
}

// For C (docs/C.md): the ledger. Each export calls the function of `firmware_ledger` of the same name, and promises the same.
#![tactic(auto)]

ghost use Rattle.std.specs.Prelude.{◌≡◌};
ghost use Rattle.refusals.specs.Given.{result_number};
ghost use Rattle.firmware_ledger.specs.Ledger.{entry_of, tick_of, paid_after};

// `Ledger::entry`. Refusals, in order: 29, 30, 31.
#[unsafe(no_mangle)]
pub extern "C" fn pongulvesz_entry(debt: &mut i64, offset: i64, half: u32) -> u32
    ensures number { result ≡ result_number (entry_of debt.old offset half).answer }
    ensures debt { debt.new ≡ (entry_of debt.old offset half).ledger.debt }
{
    firmware_ledger::pongulvesz_entry(debt, offset, half)
}

// `Ledger::tick`. Refusals, in order: 29, 32.
#[unsafe(no_mangle)]
pub extern "C" fn pongulvesz_tick(debt: &mut i64, limit: u64, paid: &mut i64) -> u32
    ensures number { result ≡ result_number (tick_of debt.old limit).answer }
    ensures debt { debt.new ≡ (tick_of debt.old limit).ledger.debt }
    ensures paid { paid.new ≡ paid_after paid.old (tick_of debt.old limit).answer }
{
    firmware_ledger::pongulvesz_tick(debt, limit, paid)
}

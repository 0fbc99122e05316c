// For C (docs/C.md): when a client's call on an image is due. Each export calls the function of `firmware_due` of the same name, and promises the same.
#![tactic(auto)]

ghost use Rattle.std.specs.Prelude.{◌≡◌};
ghost use Rattle.refusals.specs.Given.{result_number};
ghost use Rattle.firmware_due.specs.Due.{ask_due, give_up_due, uptime_after};

// `due::ask_due`: the first uptime at which an ask is not refused by 6. Refusals, in order: 46, 4, 5, 6.
#[unsafe(no_mangle)]
pub extern "C" fn pongulvesz_ask_due(image: &[u8], uptime: &mut u64) -> u32
    ensures number { result ≡ result_number (ask_due image.now) }
    ensures uptime { uptime.new ≡ uptime_after uptime.old (ask_due image.now) }
{
    firmware_due::pongulvesz_ask_due(image, uptime)
}

// `due::give_up_due`: the first uptime at which a give-up is not refused by 20. Refusals, in order: 46, 8, 20.
#[unsafe(no_mangle)]
pub extern "C" fn pongulvesz_give_up_due(image: &[u8], uptime: &mut u64) -> u32
    ensures number { result ≡ result_number (give_up_due image.now) }
    ensures uptime { uptime.new ≡ uptime_after uptime.old (give_up_due image.now) }
{
    firmware_due::pongulvesz_give_up_due(image, uptime)
}

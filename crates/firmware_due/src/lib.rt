// When a client's call on an image is due, for C (docs/C.md). A refused call returns its number and writes nothing.
#![tactic(auto)]

ghost use Rattle.std.specs.Prelude.{◌≡◌};
ghost use Rattle.refusals.specs.Given.{result_number};
ghost use Rattle.firmware_due.specs.Due.{ask_due, give_up_due, uptime_after};

use due::{ask_due, give_up_due};
use firmware::client_calls::record_of;
use refusals::tell;

// `due::ask_due`: the first uptime at which an ask is not refused by 6. Refusals, in order: 46, 4, 5, 6.
#[tactic(auto, unfolding(crate::specs::Due::ask_due, due::specs::Due::ask_due))]
pub fn pongulvesz_ask_due(image: &[u8], uptime: &mut u64) -> u32
    ensures number { result ≡ result_number (ask_due image.now) }
    ensures uptime { uptime.new ≡ uptime_after uptime.old (ask_due image.now) }
{
    tell(record_of(image).and_then(ask_due), uptime)
}

// `due::give_up_due`: the first uptime at which a give-up is not refused by 20. Refusals, in order: 46, 8, 20.
#[tactic(auto, unfolding(crate::specs::Due::give_up_due, due::specs::Due::give_up_due))]
pub fn pongulvesz_give_up_due(image: &[u8], uptime: &mut u64) -> u32
    ensures number { result ≡ result_number (give_up_due image.now) }
    ensures uptime { uptime.new ≡ uptime_after uptime.old (give_up_due image.now) }
{
    tell(record_of(image).and_then(give_up_due), uptime)
}

// The server. It has no image and no answer slice, and never refuses by 46.
ghost use Rattle.std.specs.Prelude.{◌≡◌};
ghost use Rattle.firmware.specs.Server.{settings, reply_number, reply_buffer};

use crate::numbers::{narrow, narrow_signed};
use refusals::result_number;
use server_packet::Settings;
use timestamp::Timestamp;

// The five come one by one, as the C interface passes them.
pub fn settings_of(
    synchronised: u32,
    leap: u32,
    precision: i32,
    identifier: u32,
    reference: u64,
) -> Settings
    ensures { result ≡ settings synchronised leap precision identifier reference }
{
    Settings {
        synchronised: synchronised != 0,
        leap: narrow(leap),
        precision: narrow_signed(precision),
        identifier,
        reference: Timestamp::from(reference),
    }
}

// `server::reply`: the reply to a request that was received at T2 and is sent at T3 (RFC 4330, section 6).
pub fn pongulvesz_reply(
    synchronised: u32,
    leap: u32,
    precision: i32,
    identifier: u32,
    reference: u64,
    t2: u64,
    t3: u64,
    buffer: &mut [u8],
    request: &[u8],
) -> u32
    ensures number { result ≡ reply_number (settings synchronised leap precision identifier reference) request.now t2 t3 buffer.old }
    ensures buffer { buffer.new ≡ reply_buffer (settings synchronised leap precision identifier reference) request.now t2 t3 buffer.old }
{
    let set = settings_of(synchronised, leap, precision, identifier, reference);
    let answer = server::reply(
        set,
        request,
        Timestamp::from(t2),
        Timestamp::from(t3),
        buffer,
    );
    u32::from(result_number(answer))
}

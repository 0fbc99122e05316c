// For C (docs/C.md): the client and the server. Each export calls the function of `firmware` of the same name, and promises the same.
#![tactic(auto)]

ghost use Rattle.std.specs.Prelude.{◌≡◌};
ghost use Rattle.firmware.specs.Client.{fresh_number, fresh_image, ask, arrival, give_up, number, image_after, buffer_after, answer_after};
ghost use Rattle.firmware.specs.Server.{settings, reply_number, reply_buffer};

// The image of a client that has never asked.
#[unsafe(no_mangle)]
pub extern "C" fn pongulvesz_fresh(image: &mut [u8]) -> u32
    ensures number { result ≡ fresh_number image.old }
    ensures image { image.new ≡ fresh_image image.old }
{
    firmware::client_calls::pongulvesz_fresh(image)
}

// `Client::ask`: the client request of RFC 4330, section 5.
#[unsafe(no_mangle)]
pub extern "C" fn pongulvesz_ask(
    image: &mut [u8],
    buffer: &mut [u8],
    version: u32,
    clock: u64,
    token: u64,
    uptime: u64,
) -> u32
    ensures number { result ≡ number image.old (ask buffer.old version clock token uptime) }
    ensures image { image.new ≡ image_after image.old (ask buffer.old version clock token uptime) }
    ensures buffer { buffer.new ≡ buffer_after image.old (ask buffer.old version clock token uptime) }
{
    firmware::client_calls::pongulvesz_ask(image, buffer, version, clock, token, uptime)
}

// `Client::arrival`: the client's checks of a server reply (RFC 4330, section 5). `alternate` tells whether an alternate server exists: 0 is no.
#[unsafe(no_mangle)]
pub extern "C" fn pongulvesz_arrival(
    image: &mut [u8],
    answer: &mut [u8],
    t4: u64,
    alternate: u32,
    packet: &[u8],
) -> u32
    ensures number { result ≡ number image.old (arrival answer.old t4 alternate packet.now) }
    ensures image { image.new ≡ image_after image.old (arrival answer.old t4 alternate packet.now) }
    ensures answer { answer.new ≡ answer_after image.old (arrival answer.old t4 alternate packet.now) }
{
    firmware::client_calls::pongulvesz_arrival(image, answer, t4, alternate, packet)
}

// `Client::give_up`: the request has timed out (RFC 4330, section 10).
#[unsafe(no_mangle)]
pub extern "C" fn pongulvesz_give_up(image: &mut [u8], uptime: u64) -> u32
    ensures number { result ≡ number image.old (give_up uptime) }
    ensures image { image.new ≡ image_after image.old (give_up uptime) }
{
    firmware::client_calls::pongulvesz_give_up(image, uptime)
}

// `server::reply`: the reply to a request that was received at T2 and is sent at T3 (RFC 4330, section 6).
#[unsafe(no_mangle)]
pub extern "C" fn pongulvesz_reply(
    synchronised: u32,
    leap: u32,
    precision: i32,
    identifier: u32,
    reference: u64,
    t2: u64,
    t3: u64,
    buffer: &mut [u8],
    request: &[u8],
) -> u32
    ensures number { result ≡ reply_number (settings synchronised leap precision identifier reference) request.now t2 t3 buffer.old }
    ensures buffer { buffer.new ≡ reply_buffer (settings synchronised leap precision identifier reference) request.now t2 t3 buffer.old }
{
    firmware::server_calls::pongulvesz_reply(
        synchronised,
        leap,
        precision,
        identifier,
        reference,
        t2,
        t3,
        buffer,
        request,
    )
}

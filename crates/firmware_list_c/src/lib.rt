// For C (docs/C.md): the calls on a list of servers. Each export calls the function of `firmware_list` of the same name, and promises the same.
#![tactic(auto)]

ghost use Rattle.std.specs.Prelude.{◌≡◌};
ghost use Rattle.firmware_list.specs.Calls.{ask, arrival, give_up, number, list_after, in_use_after, buffer_after, answer_after};

// `associations::ask`: the client request of RFC 4330, section 5, to one of the servers.
#[unsafe(no_mangle)]
pub extern "C" fn pongulvesz_list_ask(
    list: &mut [u8],
    at: usize,
    in_use: usize,
    buffer: &mut [u8],
    version: u32,
    clock: u64,
    token: u64,
    uptime: u64,
) -> u32
    ensures number { result ≡ number list.old at in_use (ask buffer.old version clock token uptime) }
    ensures list { list.new ≡ list_after list.old at in_use (ask buffer.old version clock token uptime) }
    ensures buffer { buffer.new ≡ buffer_after list.old at in_use (ask buffer.old version clock token uptime) }
{
    firmware_list::calls::pongulvesz_list_ask(
        list, at, in_use, buffer, version, clock, token, uptime,
    )
}

// `associations::arrival`: the client's checks of a server reply (RFC 4330, section 5). The list tells whether an alternate server exists.
#[unsafe(no_mangle)]
pub extern "C" fn pongulvesz_list_arrival(
    list: &mut [u8],
    at: usize,
    in_use: &mut usize,
    answer: &mut [u8],
    t4: u64,
    packet: &[u8],
) -> u32
    ensures number { result ≡ number list.old at in_use.old (arrival answer.old t4 packet.now) }
    ensures list { list.new ≡ list_after list.old at in_use.old (arrival answer.old t4 packet.now) }
    ensures in_use { in_use.new ≡ in_use_after list.old at in_use.old (arrival answer.old t4 packet.now) }
    ensures answer { answer.new ≡ answer_after list.old at in_use.old (arrival answer.old t4 packet.now) }
{
    firmware_list::calls::pongulvesz_list_arrival(list, at, in_use, answer, t4, packet)
}

// `associations::give_up`: the request to one of the servers has timed out (RFC 4330, section 10).
#[unsafe(no_mangle)]
pub extern "C" fn pongulvesz_list_give_up(
    list: &mut [u8],
    at: usize,
    in_use: usize,
    uptime: u64,
) -> u32
    ensures number { result ≡ number list.old at in_use (give_up uptime) }
    ensures list { list.new ≡ list_after list.old at in_use (give_up uptime) }
{
    firmware_list::calls::pongulvesz_list_give_up(list, at, in_use, uptime)
}

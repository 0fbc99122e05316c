// An example of the library's use: our client and our server at an exchange across 2036, a give-up, a kiss and refusals, also of a record that is not legal. Each
// call writes a line.
#![tactic(auto)]

mod exchange;
mod print;

use client::Client;
use exchange::{Exchange, T1, T4, reply};
use std::io;

// Each function is lent the runtime, by which it prints.

// An exchange; then its reply a second time.
fn accepted(rt: &impl Print, exchange: &mut Exchange) -> io::Result<()> {
    exchange.ask(rt, T1, 1, 0)?;
    exchange.reply(rt, true)?;
    exchange.arrival(rt, false)?;
    exchange.arrival(rt, false)
}

// Asks again, gets the old reply, and gives up: each too soon at first.
fn no_reply(rt: &impl Print, exchange: &mut Exchange) -> io::Result<()> {
    exchange.ask(rt, T4, 2, 63)?;
    exchange.ask(rt, T4, 3, 64)?;
    exchange.arrival(rt, false)?;
    exchange.give_up(rt, 79)?;
    exchange.give_up(rt, 80)
}

// The server is not synchronised: a kiss.
fn kiss(
    rt: &impl Print,
    exchange: &mut Exchange,
    token: u64,
    uptime: u64,
    alternate: bool,
) -> io::Result<()> {
    exchange.ask(rt, T1, token, uptime)?;
    exchange.reply(rt, false)?;
    exchange.arrival(rt, alternate)
}

// Without an alternate it has the client back off, from 2^7 s to 2^8 s.
fn backed_off(rt: &impl Print, exchange: &mut Exchange) -> io::Result<()> {
    kiss(rt, exchange, 4, 192, false)?;
    exchange.ask(rt, T1, 5, 447)
}

// With one it stops the client for good.
fn stopped(rt: &impl Print, exchange: &mut Exchange) -> io::Result<()> {
    kiss(rt, exchange, 6, 448, true)?;
    exchange.ask(rt, T1, 7, 100000)?;
    exchange.give_up(rt, 100000)
}

// A record with a poll exponent below 6 is not legal: every call refuses it. C cannot hand one in, since it has no image.
fn not_legal(rt: &impl Print, exchange: &mut Exchange) -> io::Result<()> {
    exchange.client = Client::fresh();
    exchange.client.exponent = 5;
    exchange.ask(rt, T1, 8, 0)?;
    exchange.arrival(rt, false)?;
    exchange.give_up(rt, 16)
}

// The server is lent too little room, sent too short a request, and sent one of mode 0.
fn server_refusals(rt: &impl Print) -> io::Result<()> {
    let request = [0u8; packet::LENGTH];
    let mut answer = [0u8; packet::LENGTH];
    let mut short = [0u8; packet::LENGTH - 1];
    reply(rt, &request, true, &mut short)?;
    reply(rt, &short, true, &mut answer)?;
    reply(rt, &request, true, &mut answer)
}

fn main(rt: HostRuntime) -> io::Result<()> {
    let mut exchange = Exchange::begin();
    accepted(&rt, &mut exchange)?;
    no_reply(&rt, &mut exchange)?;
    backed_off(&rt, &mut exchange)?;
    stopped(&rt, &mut exchange)?;
    not_legal(&rt, &mut exchange)?;
    server_refusals(&rt)
}

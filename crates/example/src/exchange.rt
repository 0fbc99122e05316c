// A client and a server of ours, and the packets between them. Each call writes a line.
use crate::print::{Arrived, Done, Reply, show};
use client::Client;
use server_packet::Settings;
use std::io;
use timestamp::Timestamp;
use token::Token;

pub(crate) const T1: u64 = 0xFFFF_FFFA_0000_0000;

pub(crate) const T4: u64 = 0xFFFF_FFFB_C000_0000;

#[derive(Clone, Copy)]
pub(crate) struct Exchange {
    pub(crate) client: Client,
    request: [u8; packet::LENGTH],
    reply: [u8; packet::LENGTH],
}

impl Exchange {
    pub(crate) fn begin() -> Exchange {
        Exchange {
            client: Client::fresh(),
            request: [0; packet::LENGTH],
            reply: [0; packet::LENGTH],
        }
    }

    // The token is 1 more than the last one. A real caller takes it from a source of random numbers.
    pub(crate) fn ask(
        &mut self,
        rt: &impl Print,
        clock: u64,
        token: u64,
        uptime: u64,
    ) -> io::Result<()> {
        let clock = Timestamp::from(clock);
        let called = self
            .client
            .ask(&mut self.request, 4, clock, Token(token), uptime);
        self.client = called.client;
        show(rt, "ask", called.answer.map(|()| Done))
    }

    // `synchronised` is the flag of the settings.
    pub(crate) fn reply(&mut self, rt: &impl Print, synchronised: bool) -> io::Result<()> {
        reply(rt, &self.request, synchronised, &mut self.reply)
    }

    pub(crate) fn arrival(&mut self, rt: &impl Print, alternate: bool) -> io::Result<()> {
        let t4 = Timestamp::from(T4);
        let called = self.client.arrival(&self.reply, t4, alternate);
        self.client = called.client;
        show(rt, "arrival", called.answer.map(Arrived))
    }

    pub(crate) fn give_up(&mut self, rt: &impl Print, uptime: u64) -> io::Result<()> {
        let called = self.client.give_up(uptime);
        self.client = called.client;
        show(rt, "give up", called.answer.map(|()| Done))
    }
}

// The server's reply to a request. `synchronised` is the flag of the settings.
pub(crate) fn reply(
    rt: &impl Print,
    request: &[u8],
    synchronised: bool,
    buffer: &mut [u8],
) -> io::Result<()> {
    let settings = Settings {
        synchronised,
        leap: 0,
        precision: -20,
        identifier: 0x4750_5300,
        reference: Timestamp::from_seconds(4, 0),
    };
    let t2 = Timestamp::from(0x4_8000_0000);
    let t3 = Timestamp::from(0x5_8000_0000);
    let written = server::reply(settings, request, t2, t3, buffer);
    show(
        rt,
        "reply",
        written.and_then(|()| packet::read(buffer)).map(Reply),
    )
}

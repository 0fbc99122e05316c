// Ask: what the client sends.
ghost use Rattle.std.specs.Prelude.{◌≡◌, length};
ghost use Rattle.ordered_tests.specs.Tests.{tested};
ghost use Rattle.client.specs.Ask.{ask_tests, after_ask, after_ask_buffer};

use crate::{Called, Client, Phase};
use ordered_tests::between;
use poll::within_interval;
use refusals::Refusal;
use timestamp::Timestamp;
use token::Token;

impl Client {
    #[tactic(auto, unfolding(crate::specs::Ask::ask_tests))]
    fn check_ask(
        self,
        room: usize,
        version: u8,
        clock: Timestamp,
        token: Token,
        uptime: u64,
    ) -> Result<(), Refusal>
        ensures { result ≡ tested (ask_tests self room version clock token uptime) }
    {
        if self.illegal() {
            return Err(Refusal::RecordNotLegal);
        }
        if room < packet::LENGTH {
            return Err(Refusal::BufferTooShort);
        }
        if !between(1, 4, version) {
            return Err(Refusal::VersionUnsupported);
        }
        if clock.is_zero() {
            return Err(Refusal::OwnClockZero);
        }
        if token.is_zero() {
            return Err(Refusal::TokenZero);
        }
        if self.phase.is_stopped() {
            return Err(Refusal::ClientStopped);
        }
        if self.phase.is_waiting() {
            return Err(Refusal::AlreadyWaiting);
        }
        if self.asked && within_interval(self.uptime, self.exponent, uptime) {
            return Err(Refusal::AskedTooSoon);
        }
        Ok(())
    }

    // Ask: the client request of RFC 4330, section 5, is written into the buffer for the caller to send. It carries the token, and not the clock reading, which
    // the client keeps as T1. The arguments come one by one, as C passes them.
    #[tactic(auto, using(ordered_tests::proofs::Tests::by_refusal, ordered_tests::proofs::Tests::by_passing, ordered_tests::proofs::Tests::kept_refused, ordered_tests::proofs::Tests::kept_passing, crate::proofs::Asked::sent), unfolding(crate::specs::Ask::after_ask, crate::specs::Ask::after_ask_buffer))]
    pub fn ask(
        self,
        buffer: &mut [u8],
        version: u8,
        clock: Timestamp,
        token: Token,
        uptime: u64,
    ) -> Called<()>
        ensures answer { result ≡ after_ask self (length buffer.old) version clock token uptime }
        ensures buffer { buffer.new ≡ after_ask_buffer self buffer.old version clock token uptime }
    {
        if let Err(refusal) = self.check_ask(buffer.len(), version, clock, token, uptime) {
            return self.refused(refusal);
        }
        // Not refused: the buffer has room, and the version is not too large.
        request::write(buffer, version, token).unwrap();
        Called {
            answer: Ok(()),
            client: Client {
                phase: Phase::Waiting,
                t1: clock,
                token,
                version,
                asked: true,
                uptime,
                exponent: self.exponent,
            },
        }
    }
}

// Give up: no reply has come.
ghost use Rattle.std.specs.Prelude.{◌≡◌};
ghost use Rattle.ordered_tests.specs.Tests.{tested};
ghost use Rattle.client.specs.GiveUp.{give_up_tests, gave_up};

use crate::{Called, Client};
use poll::too_soon;
use refusals::Refusal;
use timestamp::Timestamp;

impl Client {
    #[tactic(auto, unfolding(crate::specs::GiveUp::give_up_tests))]
    fn check_give_up(self, uptime: u64) -> Result<(), Refusal>
        ensures { result ≡ tested (give_up_tests self uptime) }
    {
        if self.illegal() {
            return Err(Refusal::RecordNotLegal);
        }
        if !self.phase.is_waiting() {
            return Err(Refusal::NotWaiting);
        }
        if too_soon(self.uptime, Timestamp::LIMIT_SECONDS, uptime) {
            return Err(Refusal::GaveUpTooSoon);
        }
        Ok(())
    }

    // Give up: the request has timed out, and the client backs off (RFC 4330, section 10).
    #[tactic(auto, using(ordered_tests::proofs::Tests::by_refusal, ordered_tests::proofs::Tests::by_passing), unfolding(crate::specs::GiveUp::gave_up))]
    pub fn give_up(self, uptime: u64) -> Called<()>
        ensures { result ≡ gave_up self uptime }
    {
        if let Err(refusal) = self.check_give_up(uptime) {
            return self.refused(refusal);
        }
        Called {
            answer: Ok(()),
            client: self.back_off(),
        }
    }
}

// Arrival: what the client makes of a packet that came in.
ghost use Rattle.std.specs.Prelude.{◌≡◌};
ghost use Rattle.client.specs.Arrival.{arrival_answer, after_kiss, after, arrived};

use crate::{Called, Client, Phase};
use refusals::Refusal;
use reply_checks::ArrivalAnswer;
use timestamp::Timestamp;

impl Client {
    #[tactic(auto, unfolding(crate::specs::Arrival::arrival_answer, reply_checks::specs::Checks::checked_packet))]
    fn check_packet(self, packet: &[u8], t4: Timestamp) -> Result<ArrivalAnswer, Refusal>
        ensures { result ≡ arrival_answer self packet.now t4 }
    {
        if self.illegal() {
            return Err(Refusal::RecordNotLegal);
        }
        reply_checks::check_packet(
            self.phase.is_waiting(),
            self.t1,
            self.token,
            self.version,
            packet,
            t4,
        )
    }

    // A kiss: the client stops where an alternate server exists, and otherwise backs off (RFC 4330, section 8).
    fn after_kiss(self, alternate: bool) -> Client
        ensures { result ≡ after_kiss self alternate }
    {
        if alternate {
            return self.without_request(Phase::Stopped, self.exponent);
        }
        self.back_off()
    }

    fn after(self, answer: Result<ArrivalAnswer, Refusal>, alternate: bool) -> Client
        ensures { result ≡ after self alternate answer }
    {
        match answer {
            Err(_) => self,
            Ok(ArrivalAnswer::Accepted(_)) => self.without_request(Phase::Idle, 6),
            Ok(ArrivalAnswer::Kiss { .. }) => self.after_kiss(alternate),
        }
    }

    // Arrival: a packet has come in at the clock reading T4 (RFC 4330, section 5, the client's checks of a server reply). The caller tells whether an
    // alternate server exists.
    #[tactic(auto, unfolding(crate::specs::Arrival::arrived))]
    pub fn arrival(self, packet: &[u8], t4: Timestamp, alternate: bool) -> Called<ArrivalAnswer>
        ensures { result ≡ arrived self packet.now t4 alternate }
    {
        let answer = self.check_packet(packet, t4);
        let client = self.after(answer, alternate);
        Called { answer, client }
    }
}

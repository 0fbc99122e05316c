// The phases, the fresh record, and which records are legal.
ghost use Rattle.std.specs.Prelude.{◌≡◌, not, ◌&&◌, ◌||◌, eqb};
ghost use Rattle.ordered_tests.specs.Tests.{between};
ghost use Rattle.timestamp.specs.Timestamp.{is_zero};
ghost use Rattle.token.specs.Token.{is_zero_token};
ghost use Rattle.client.specs.Record.{is_idle, is_waiting, is_stopped, fresh, illegal, without_request, back_off, refused_call};

use crate::{Called, Client, Phase};
use ordered_tests::between;
use refusals::Refusal;
use timestamp::Timestamp;
use token::Token;

// The rules' words for the phases.
impl Phase {
    pub(crate) fn is_idle(self) -> bool
        ensures { result ≡ is_idle self }
    {
        self == Phase::Idle
    }

    pub(crate) fn is_waiting(self) -> bool
        ensures { result ≡ is_waiting self }
    {
        self == Phase::Waiting
    }

    pub fn is_stopped(self) -> bool
        ensures { result ≡ is_stopped self }
    {
        self == Phase::Stopped
    }
}

impl Client {
    // The record of a client that has never asked.
    pub fn fresh() -> Client
        ensures { result ≡ fresh }
    {
        Client {
            phase: Phase::Idle,
            t1: Timestamp::ZERO,
            token: Token::ZERO,
            version: 0,
            asked: false,
            uptime: 0,
            exponent: 6,
        }
    }

    // Each part of the request is zero if and only if the client does not wait.
    fn illegal_request(self) -> bool
        ensures { result ≡ (is_waiting self.phase && (is_zero self.t1 || is_zero_token self.token || not (between 1 4 self.version))) || (not (is_waiting self.phase) && not (is_zero self.t1 && is_zero_token self.token && eqb self.version 0)) }
    {
        let waiting = self.phase.is_waiting();
        (self.t1.is_zero() == waiting)
            | (self.token.is_zero() == waiting)
            | ((self.version == 0) == waiting)
            | (4 < self.version)
    }

    // A record that passes the first test and never asked is fresh if its phase, uptime and exponent are.
    #[tactic(auto, unfolding(crate::specs::Record::illegal))]
    pub fn illegal(self) -> bool
        ensures { result ≡ illegal self }
    {
        if !between(6, 14, self.exponent) | self.illegal_request() {
            return true;
        }
        if self.asked {
            return false;
        }
        !(self.phase.is_idle() & (self.uptime == 0) & (self.exponent == 6))
    }

    // The record without a request.
    pub(crate) fn without_request(self, phase: Phase, exponent: u8) -> Client
        ensures { result ≡ without_request self phase exponent }
    {
        Client {
            phase,
            t1: Timestamp::ZERO,
            token: Token::ZERO,
            version: 0,
            exponent,
            ..self
        }
    }

    // After a refusal the record stays.
    pub(crate) fn refused<T>(self, refusal: Refusal) -> Called<T>
        ensures { result ≡ refused_call self refusal }
    {
        Called {
            answer: Err(refusal),
            client: self,
        }
    }

    // The client backs off: idle, with a poll interval twice as long, up to its limit.
    pub(crate) fn back_off(self) -> Client
        ensures { result ≡ back_off self }
    {
        self.without_request(Phase::Idle, poll::backed_off(self.exponent))
    }
}

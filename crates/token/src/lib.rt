// The token of a request: 64 bits of the caller's choice, which the request carries in its transmit field and its reply in the originate field.
// It is no clock reading, and its type keeps it from the arithmetic of timestamps.
#![tactic(auto)]

ghost use Rattle.std.specs.Prelude.{◌≡◌};
ghost use Rattle.token.specs.Token.{is_zero_token, carried};

use timestamp::Timestamp;

#[derive(Clone, Copy, Debug, PartialEq, Eq)]
pub struct Token(pub u64);

impl Token {
    // No request.
    pub const ZERO: Token = Token(0);

    pub fn is_zero(self) -> bool
        ensures { result ≡ is_zero_token self }
    {
        self == Token::ZERO
    }

    // The field of a packet that carries the token. A method and no `From`, so that no `.into()` makes a timestamp of a token unseen.
    pub fn field(self) -> Timestamp
        ensures { result ≡ carried self }
    {
        Timestamp::from(self.0)
    }
}

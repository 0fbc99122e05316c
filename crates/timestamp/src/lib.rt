// A timestamp: 32 bits of seconds and 32 of fraction, so that one unit is 2^-32 s.
#![tactic(auto)]

ghost use Rattle.std.specs.Prelude.{◌≡◌};
ghost use Rattle.timestamp.specs.Timestamp.{timestamp, from_seconds, seconds_of, fraction_of, constants, is_zero, ◌since◌, ordered};

// A type of its own: the type checker keeps it apart from a difference, which is an i64.
#[derive(Clone, Copy, Debug, PartialEq, Eq)]
pub struct Timestamp(pub u64);

// The constants of the type, for `Timestamp::constants`.
#[derive(Clone, Copy)]
pub struct Constants {
    pub zero: Timestamp,
    pub second: u64,
    pub limit: i64,
    pub limit_seconds: u64,
}

// A number of units is a timestamp.
impl From<u64> for Timestamp {
    ghost from_gives = { λ units t. t ≡ timestamp units };

    fn from(units: u64) -> Timestamp {
        Timestamp(units)
    }
}

impl Timestamp {
    // All-zero: "not available".
    pub const ZERO: Timestamp = Timestamp(0);
    // One second, in units.
    pub const SECOND: u64 = 0x1_0000_0000;
    // The 16 s limit in whole seconds, for an uptime.
    pub const LIMIT_SECONDS: u64 = 16;
    // The 16 s limit as a difference, which is what it is compared with.
    pub const LIMIT: i64 = (Timestamp::LIMIT_SECONDS * Timestamp::SECOND) as i64;

    // Ties each constant to its value.
    pub fn constants() -> Constants
        ensures { result ≡ constants }
    {
        Constants {
            zero: Timestamp::ZERO,
            second: Timestamp::SECOND,
            limit: Timestamp::LIMIT,
            limit_seconds: Timestamp::LIMIT_SECONDS,
        }
    }

    pub fn from_seconds(seconds: u32, fraction: u32) -> Timestamp
        ensures { result ≡ from_seconds seconds fraction }
    {
        Timestamp(u64::from(seconds) * Timestamp::SECOND + u64::from(fraction))
    }

    pub fn seconds(self) -> u32
        ensures { result ≡ seconds_of self }
    {
        (self.0 / Timestamp::SECOND) as u32
    }

    pub fn fraction(self) -> u32
        ensures { result ≡ fraction_of self }
    {
        (self.0 % Timestamp::SECOND) as u32
    }

    // The rules' word. A token has its own: a trait for the two would say no more.
    pub fn is_zero(self) -> bool
        ensures { result ≡ is_zero self }
    {
        self == Timestamp::ZERO
    }

    // The signed difference self - other, right also across the wrap of 2036. Half a circle apart, 2^63 units, neither of the two is the earlier one: there is no
    // difference, so this is no `Sub`, and timestamps have no order as `PartialOrd` wants one.
    pub fn minus(self, other: Timestamp) -> Option<i64>
        ensures { result ≡ ordered (self since other) }
    {
        let difference = twos_complement::signed64(self.0.wrapping_sub(other.0));
        (difference != i64::MIN).then_some(difference)
    }
}

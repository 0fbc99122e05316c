// Why a call is refused: the rules' table has a row for each (docs/RULES.md, "Numbers a caller may see").
#![tactic(auto)]

ghost use Rattle.std.specs.Prelude.{◌≡◌};
ghost use Rattle.refusals.specs.Numbers.{number, numbers};
ghost use Rattle.refusals.specs.Given.{result_number, after};

use std::error::Error;
use std::fmt;

// Each has the number that C and the replay see.
#[derive(Clone, Copy, Debug, PartialEq, Eq)]
pub enum Refusal {
    // Buffer under 48 octets.
    BufferTooShort = 1,

    // Asked version not 1 to 4.
    VersionUnsupported = 2,

    // Own clock reading zero.
    OwnClockZero = 3,

    // Client stopped.
    ClientStopped = 4,

    // Already waiting.
    AlreadyWaiting = 5,

    // Asked before, and uptime is below that uptime or less than 2^exponent s past it.
    AskedTooSoon = 6,

    // Packet shorter than 48 octets, longer than 1024, or with a tail that breaks the rules (docs/RULES.md, "Extension fields").
    PacketLengthWrong = 7,

    // Not waiting.
    NotWaiting = 8,

    // Originate differs from the request's transmit.
    OriginateMismatch = 9,

    // Mode not 4.
    ReplyModeWrong = 10,

    // Version differs from the request's.
    VersionMismatch = 11,

    // LI 3.
    ServerUnsynchronised = 12,

    // Stratum above 15.
    StratumTooHigh = 13,

    // Receive or transmit zero.
    ServerTimestampZero = 14,

    // T4 - T1 negative.
    ArrivedBeforeSent = 15,

    // T4 - T1 above 2^36.
    ArrivedTooLate = 16,

    // T3 - T2 negative.
    AnsweredBeforeReceived = 17,

    // D negative.
    DelayNegative = 18,

    // P below Q.
    FirstBelowSecond = 19,

    // Uptime below the request's, or under 16 s past it.
    GaveUpTooSoon = 20,

    // Request mode not 3.
    RequestModeWrong = 21,

    // Request version not 1 to 4.
    RequestVersionUnsupported = 22,

    // Set LI not 0 to 2, or set precision not in -32 to 0.
    SettingsOutOfRange = 23,

    // Timestamp zero, also one that a date or a Unix time would have.
    TimestampZero = 24,

    // No such date or time, or nanoseconds of 10^9 or more.
    NoSuchDate = 25,

    // Outside 1968-01-20 03:14:08 to 2104-02-26 09:42:23, fractions included.
    OutsideWindow = 26,

    // Field to write too large (LI over 3, VN or mode over 7; for C also a number that the 8, 16 or 32 bits of its field do not hold).
    FieldTooLarge = 27,

    // Tick zero or above 2^32.
    TickOutOfRange = 28,

    // Record handed in not legal.
    RecordNotLegal = 29,

    // Half not 0 or 1, or an entry of 2^41 half units or more in size.
    EntryTooLarge = 30,

    // The debt would reach 2^50 half units in size.
    DebtTooLarge = 31,

    // Limit not 1 to 2^32 half units.
    LimitOutOfRange = 32,

    // Root delay, signed, negative or 65536 or more.
    RootDelayOutOfRange = 33,

    // Root dispersion, unsigned, 65536 or more.
    RootDispersionTooLarge = 34,

    // List of records empty or of more than eight, or a record number, the one in use included, not in it.
    NotInList = 35,

    // Broadcast packet: mode not 5.
    BroadcastModeWrong = 36,

    // Broadcast packet: VN not 1 to 4.
    BroadcastVersionUnsupported = 37,

    // Broadcast packet: LI 3.
    BroadcastUnsynchronised = 38,

    // Broadcast packet: stratum not 1 to 15.
    BroadcastStratumWrong = 39,

    // Broadcast packet: transmit timestamp zero.
    BroadcastTransmitZero = 40,

    // Set poll not 4 to 14.
    PollOutOfRange = 41,

    // Token zero.
    TokenZero = 42,

    // Two timestamps exactly 2^63 units apart: no order.
    NoOrder = 43,

    // Extension field not added: an authenticator at the end of the packet, or no room in the buffer or in 1024 octets.
    FieldNotAdded = 44,

    // Time Protocol: a length to read other than 4, or a buffer under 4.
    TimeLengthWrong = 45,

    // C: an image that is not 32 octets or that no legal record has, also one of a list, or an answer slice that is not 24.
    ImageNotLegal = 46,

    // Replay line malformed.
    LineMalformed = 64,
}

impl Refusal {
    pub fn number(self) -> u8
        ensures { result ≡ number self }
    {
        self as u8
    }
}

// The number that a call for C returns: that of a refusal, and 0 if the call is not refused.
pub fn result_number(answer: Result<(), Refusal>) -> u8
    ensures { result ≡ result_number answer }
{
    match answer {
        Err(refusal) => refusal.number(),
        Ok(()) => 0,
    }
}

// The end of a call for C that tells one thing: stores what is told, unless the call is refused, and returns the number.
pub fn tell<T: Copy + Drop>(answer: Result<T, Refusal>, lent: &mut T) -> u32
    ensures number { result ≡ result_number answer }
    ensures lent { lent.new ≡ after (λ told. told) lent.old answer }
{
    match answer {
        Ok(told) => {
            *lent = told;
            0
        }
        Err(refusal) => u32::from(refusal.number()),
    }
}

impl fmt::Display for Refusal {
    fn fmt<W: fmt::Write>(&self, f: &mut fmt::Formatter<W>) -> fmt::Result {
        write!(f, "refused {}", self.number())
    }
}

impl Error for Refusal {}

// The numbers of all refusals, in the order of the rules' table.
pub fn numbers() -> [u8; 47]
    ensures { result ≡ numbers }
{
    [
        Refusal::BufferTooShort.number(),
        Refusal::VersionUnsupported.number(),
        Refusal::OwnClockZero.number(),
        Refusal::ClientStopped.number(),
        Refusal::AlreadyWaiting.number(),
        Refusal::AskedTooSoon.number(),
        Refusal::PacketLengthWrong.number(),
        Refusal::NotWaiting.number(),
        Refusal::OriginateMismatch.number(),
        Refusal::ReplyModeWrong.number(),
        Refusal::VersionMismatch.number(),
        Refusal::ServerUnsynchronised.number(),
        Refusal::StratumTooHigh.number(),
        Refusal::ServerTimestampZero.number(),
        Refusal::ArrivedBeforeSent.number(),
        Refusal::ArrivedTooLate.number(),
        Refusal::AnsweredBeforeReceived.number(),
        Refusal::DelayNegative.number(),
        Refusal::FirstBelowSecond.number(),
        Refusal::GaveUpTooSoon.number(),
        Refusal::RequestModeWrong.number(),
        Refusal::RequestVersionUnsupported.number(),
        Refusal::SettingsOutOfRange.number(),
        Refusal::TimestampZero.number(),
        Refusal::NoSuchDate.number(),
        Refusal::OutsideWindow.number(),
        Refusal::FieldTooLarge.number(),
        Refusal::TickOutOfRange.number(),
        Refusal::RecordNotLegal.number(),
        Refusal::EntryTooLarge.number(),
        Refusal::DebtTooLarge.number(),
        Refusal::LimitOutOfRange.number(),
        Refusal::RootDelayOutOfRange.number(),
        Refusal::RootDispersionTooLarge.number(),
        Refusal::NotInList.number(),
        Refusal::BroadcastModeWrong.number(),
        Refusal::BroadcastVersionUnsupported.number(),
        Refusal::BroadcastUnsynchronised.number(),
        Refusal::BroadcastStratumWrong.number(),
        Refusal::BroadcastTransmitZero.number(),
        Refusal::PollOutOfRange.number(),
        Refusal::TokenZero.number(),
        Refusal::NoOrder.number(),
        Refusal::FieldNotAdded.number(),
        Refusal::TimeLengthWrong.number(),
        Refusal::ImageNotLegal.number(),
        Refusal::LineMalformed.number(),
    ]
}

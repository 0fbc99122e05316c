// What is written to standard output.
use offset::Measurement;
use packet::Fields;
use refusals::Refusal;
use reply_checks::ArrivalAnswer;
use std::{fmt, io};
use twos_complement::bits64;

// What an ask or a give-up tells.
#[derive(Clone, Copy, Drop)]
pub(crate) struct Done;

impl fmt::Display for Done {
    fn fmt<W: fmt::Write>(&self, f: &mut fmt::Formatter<W>) -> fmt::Result {
        write!(f, "done")
    }
}

// What an arrival tells. Offset and delay are in two's complement, 16 digits.
#[derive(Clone, Copy)]
pub(crate) struct Arrived(pub(crate) ArrivalAnswer);

impl fmt::Display for Arrived {
    fn fmt<W: fmt::Write>(&self, f: &mut fmt::Formatter<W>) -> fmt::Result {
        match self.0 {
            ArrivalAnswer::Accepted(
                Measurement {
                    offset,
                    half,
                    delay,
                },
            ) => {
                let offset = bits64(offset);
                let delay = bits64(delay);
                write!(
                    f,
                    "accepted, offset {offset:016x} half {half} delay {delay:016x}"
                )
            }
            ArrivalAnswer::Kiss { code, row } => write!(f, "kiss, code {code:08x} row {row}"),
        }
    }
}

// The fields of a reply.
#[derive(Clone, Copy)]
pub(crate) struct Reply(pub(crate) Fields);

impl fmt::Display for Reply {
    fn fmt<W: fmt::Write>(&self, f: &mut fmt::Formatter<W>) -> fmt::Result {
        let Fields {
            leap,
            version,
            mode,
            stratum,
            identifier,
            ..
        } = self.0;
        let reference = self.0.reference.0;
        let originate = self.0.originate.0;
        let receive = self.0.receive.0;
        let transmit = self.0.transmit.0;
        write!(
            f,
            "leap indicator {leap} version {version} mode {mode} stratum {stratum} identifier {identifier:08x} reference {reference:016x} originate {originate:016x} receive {receive:016x} transmit {transmit:016x}"
        )
    }
}

// A line: which call, and what it told or how it was refused.
pub(crate) fn show<T: fmt::Display + Drop>(
    rt: &impl Print,
    call: &str,
    answer: Result<T, Refusal>,
) -> io::Result<()> {
    match answer {
        Ok(told) => println!(rt; "{call}: {told}"),
        Err(refusal) => println!(rt; "{call}: {refusal}"),
    }
}

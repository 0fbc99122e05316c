// Replays the lines of standard input through the client, and writes the answers to standard output as they come.
#![tactic(auto)]

ghost use Rattle.std.specs.Prelude.{◌≡◌, [], length, IfOk, IfSome, OnOk, Ok, Some};
ghost use Rattle.std.specs.Io.KnownBytes.{Appends, IsAtEnd};
ghost use Rattle.replay_lines.specs.Feed.{ran, ending};
ghost use Rattle.replay_lines.specs.Replay.{replay};
ghost use Rattle.replay.specs.Feeding.{Answers, AnswersRead, ReplaysRead};

use replay_lines::Replay;
use std::io;
use std::io::{Read, Write};

// How much a turn reads and writes: few calls of the system for much input.
const BLOCK: usize = 65536;

// How reading ended.
#[derive(Clone, Copy, Debug, PartialEq, Eq)]
enum Reading {
    AtEnd,
    Failed,
}

// Feeds all of the input; the output is written out as often as it is full. It has room for any one answer, so each turn takes something.
fn feed_all<W: Write>(
    replay: &mut Replay,
    input: &[u8],
    output: &mut [u8; BLOCK],
    writer: &mut W,
) -> io::Result<()>
    ensures { OnOk result (Answers replay.old input.now replay.new [] (W.contents writer.old) (W.contents writer.new)) }
{
    let mut left = input;
    while !left.is_empty() {
        let fed = replay.feed(left, output);
        writer.write_all(&output[..fed.written])?;
        *replay = fed.replay;
        left = &left[fed.consumed..];
    }
    Ok(())
}

// Reads a block and feeds it; answers how reading ended, if it did. A read error counts as the end of the input. Buffers, reader and writer stay parameters: a
// struct of them would hold four borrows, and its contract would name the same four.
fn read_some<R: Read, W: Write>(
    replay: &mut Replay,
    block: &mut [u8; BLOCK],
    output: &mut [u8; BLOCK],
    reader: &mut R,
    writer: &mut W,
) -> io::Result<Option<Reading>>
    ensures answered { OnOk result (AnswersRead replay.old replay.new (R.remaining reader.old) (R.remaining reader.new) (W.contents writer.old) (W.contents writer.new)) }
    ensures end { IfOk result (λ ended. ended ≡ Some Reading.AtEnd → IsAtEnd (R.remaining reader.new)) }
{
    match reader.read(block) {
        Ok(0) => Ok(Some(Reading::AtEnd)),
        Ok(n) => {
            feed_all(replay, &block[..n], output, writer)?;
            Ok(None)
        }
        Err(_) => Ok(Some(Reading::Failed)),
    }
}

// A loop that may not end would need the bound `Wait`, which no function of this repository has, and nothing says that the input ends. So the loop counts its turns,
// to a number that no run uses up. An input that is longer would count as one whose read failed.
fn read_all<R: Read, W: Write>(
    replay: &mut Replay,
    block: &mut [u8; BLOCK],
    output: &mut [u8; BLOCK],
    reader: &mut R,
    writer: &mut W,
) -> io::Result<Reading>
    ensures answered { OnOk result (AnswersRead replay.old replay.new (R.remaining reader.old) (R.remaining reader.new) (W.contents writer.old) (W.contents writer.new)) }
    ensures end { IfOk result (λ reading. reading ≡ Reading.AtEnd → IsAtEnd (R.remaining reader.new)) }
{
    for _ in 0..u64::MAX {
        if let Some(reading) = read_some(replay, block, output, reader, writer)? {
            return Ok(reading);
        }
    }
    Ok(Reading::Failed)
}

// Answers a line that is left over.
fn end_input<W: Write>(replay: Replay, output: &mut [u8], writer: &mut W) -> io::Result<()>
    ensures { OnOk result (Appends (W.contents writer.old) (W.contents writer.new) (ran replay (ending replay) (length output.old)).output) }
{
    let ended = replay.end(output);
    writer.write_all(&output[..ended.written])
}

// What is read is answered, also where a read fails. A failed write ends the run.
fn run<R: Read, W: Write>(reader: &mut R, writer: &mut W) -> io::Result<Reading>
    ensures whole { result ≡ Ok Reading.AtEnd → IfSome (R.remaining reader.old) (λ input. Appends (W.contents writer.old) (W.contents writer.new) (replay input)) }
    ensures answered { OnOk result (ReplaysRead (R.remaining reader.old) (R.remaining reader.new) (W.contents writer.old) (W.contents writer.new)) }
{
    let mut block = [0u8; BLOCK];
    let mut output = [0u8; BLOCK];
    let mut replay = Replay::begin();
    let reading = read_all(&mut replay, &mut block, &mut output, reader, writer)?;
    end_input(replay, &mut output, writer)?;
    Ok(reading)
}

fn main(rt: HostRuntime) -> io::Result<()> {
    run(&mut rt.stdin(), &mut rt.stdout())?;
    Ok(())
}

#[cfg(test)]
mod tests {
    use super::*;
    use std::test::Fail;

    // Gives its characters, and then fails.
    #[derive(Drop)]
    struct Broken<'a>(&'a [u8]);

    impl Read for Broken<'_> {
        fn read(&mut self, buf: &mut [u8]) -> io::Result<usize> {
            if self.0.is_empty() {
                return Err(io::Error::from(io::ErrorKind::Other));
            }
            self.0.read(buf)
        }
    }

    // Takes nothing.
    #[derive(Drop)]
    struct Full;

    impl Write for Full {
        fn write(&mut self, _buf: &[u8]) -> io::Result<usize> {
            Err(io::Error::from(io::ErrorKind::StorageFull))
        }

        fn flush(&mut self) -> io::Result<()> {
            Ok(())
        }
    }

    // The line that a failed read cuts off is answered too.
    #[test]
    fn failed_read(rt: HostRuntime) -> Result<(), Fail> {
        let mut written = Vec::new(rt.alloc());
        let reading = run(&mut Broken(b"\nA3"), &mut written)?;
        assert_eq!(rt; reading, Reading::Failed);
        assert_eq!(rt; written.as_slice(), b"40\n40\n".as_slice());
        Ok(())
    }

    #[test]
    fn failed_write(rt: HostRuntime) {
        assert!(rt; run(&mut b"\n".as_slice(), &mut Full).is_err());
    }
}

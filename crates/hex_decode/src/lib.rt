// Lines of hexadecimal: characters to octets, as they come in.
#![tactic(auto)]

ghost use Rattle.std.specs.Prelude.{◌≡◌, ◌<◌, IfSome};
ghost use Rattle.hex_decode.specs.Lines.{digit_of, start, refused, pushed, pushed_buffer, is_complete, has_begun};
ghost use Rattle.hex_decode.specs.Decoding.{pushed_line, pushed_line_buffer};

const LINE_FEED: u8 = b'\n';

// What follows the whole octets of a line.
#[derive(Clone, Copy, Debug, PartialEq, Eq)]
pub enum Rest {
    Nothing,
    // A digit that waits for its second one.
    Digit(u8),
    // A character was no digit, or an octet had no room.
    Malformed,
}

// What is known of a line so far: how many octets of it stand in a buffer, and what follows them. The caller lends the buffer, since a library has no heap.
#[derive(Clone, Copy)]
pub struct Line {
    pub count: usize,
    pub rest: Rest,
}

// A line after some characters, and the index of the character that comes next.
#[derive(Clone, Copy)]
pub struct PushedLine {
    pub line: Line,
    pub at: usize,
}

// The value of a digit of either case. The letters of both cases end in the bits of 1 to 6. The value is worked out first and tested last:
// `to_digit` becomes a branch between digits and letters, which a processor can't predict.
#[tactic(auto, unfolding(crate::specs::Lines::digit_of))]
pub fn digit(c: u8) -> Option<u8>
    ensures value { result ≡ digit_of c }
    ensures below { IfSome result (λ value. value < 16) }
{
    let value = if c.is_ascii_hexdigit() {
        c % 16 + c / 64 * 9
    } else {
        16
    };
    (value < 16).then_some(value)
}

impl Line {
    // A line of which no character is known.
    pub fn start() -> Line
        ensures { result ≡ start }
    {
        Line {
            count: 0,
            rest: Rest::Nothing,
        }
    }

    fn refused(self) -> Line
        ensures { result ≡ refused self }
    {
        Line {
            rest: Rest::Malformed,
            ..self
        }
    }

    // One more character, which is not the line's end. `% 16` changes no digit: it is there since any `Line` may be handed in.
    #[tactic(auto, unfolding(crate::specs::Lines::pushed, crate::specs::Lines::pushed_buffer))]
    pub fn push(self, buffer: &mut [u8], c: u8) -> Line
        ensures answer { result ≡ pushed self buffer.old c }
        ensures buffer { buffer.new ≡ pushed_buffer self buffer.old c }
    {
        let Some(value) = digit(c) else {
            return self.refused();
        };
        match self.rest {
            Rest::Nothing => Line {
                rest: Rest::Digit(value),
                ..self
            },
            Rest::Digit(high) if self.count < buffer.len() => {
                buffer[self.count] = high % 16 * 16 + value;
                Line {
                    count: self.count + 1,
                    rest: Rest::Nothing,
                }
            }
            Rest::Digit(_) | Rest::Malformed => self.refused(),
        }
    }

    // Takes the characters from index at on, up to a line feed or to the last one. The index goes on through the whole input, as its caller counts.
    pub fn push_line(self, buffer: &mut [u8], characters: &[u8], at: usize) -> PushedLine
        ensures answer { result ≡ pushed_line self buffer.old characters.now at }
        ensures buffer { buffer.new ≡ pushed_line_buffer self buffer.old characters.now at }
    {
        let mut line = self;
        let Some(left) = characters.get(at..) else {
            return PushedLine { line, at };
        };
        for (i, c) in left.iter().enumerate() {
            if *c == LINE_FEED {
                return PushedLine { line, at: at + i };
            }
            line = line.push(buffer, *c);
        }
        PushedLine {
            line,
            at: characters.len(),
        }
    }

    // A character of the line has come.
    #[tactic(auto, unfolding(crate::specs::Lines::has_begun))]
    pub fn has_begun(self) -> bool
        ensures { result ≡ has_begun self }
    {
        0 < self.count || !self.is_complete()
    }

    // The line is whole octets.
    pub fn is_complete(self) -> bool
        ensures { result ≡ is_complete self }
    {
        self.rest == Rest::Nothing
    }
}

// Standard input, read to its end. What it brings no contract can say: that is left free, and named in
// specs/Input.antt. What is promised is that the bytes kept are the first that the reader brings, and
// that the counts are right for the buffer that was lent, so that a program can take the part that
// holds the input without a test of its own.
#![tactic(auto)]

ghost use Rattle.std.specs.Prelude.{◌≡◌, Some, codes, IfOk, IfErr};
ghost use Rattle.input.specs.Input.{Whole, Part};

use std::{fmt, io};

// What was read. The first `kept` bytes of the buffer are the input's; `length` counts them and
// those that had no room. A slice in place of `kept` would be no plainer: it would lend the buffer on
// through `Unread` and what is made of that.
#[derive(Clone, Copy, Debug, PartialEq, Eq)]
pub struct Input {
    pub kept: usize,
    pub length: u64,
}

// A read that failed. `before` is what came before it and had room.
#[derive(Debug, Drop)]
pub struct Unread {
    pub before: Input,
    pub error: io::Error,
}

impl fmt::Display for Unread {
    ghost output = { λ _. Some (codes "standard input cannot be read") };

    fn fmt<W: fmt::Write>(&self, f: &mut fmt::Formatter<W>) -> fmt::Result {
        write!(f, "standard input cannot be read")
    }
}

impl From<Unread> for io::Error {
    ghost from_gives = { λ unread error. error ≡ unread.error };

    fn from(unread: Unread) -> io::Error {
        unread.error
    }
}

// Returns what was read, given a reader, such as standard input, that is read to its end however short
// the reads come: the first bytes are left in the buffer, as many as it holds, and the others are only
// counted. Returns `Unread` if a read failed; a read into the buffer that a signal interrupts counts as
// one that failed.
pub fn read_to_end<R: io::Read>(reader: &mut R, buffer: &mut [u8]) -> Result<Input, Unread>
    ensures ok { IfOk result (λ input. Whole (R.remaining reader.old) input buffer.new) }
    ensures err { IfErr result (λ unread. Part (R.remaining reader.old) unread.before buffer.new) }
{
    let mut read = Input { kept: 0, length: 0 };
    // No `for`: it goes on by as much as a read brings.
    while read.kept < buffer.len() {
        match reader.read(&mut buffer[read.kept..]) {
            Ok(0) => return Ok(read),
            Ok(count) => {
                read.kept += count;
                read.length += count as u64;
            }
            Err(error) => return Err(Unread {
                before: read,
                error,
            }),
        }
    }
    match io::copy(reader, &mut io::sink()) {
        Ok(rest) => Ok(Input {
            length: rest.saturating_add(read.length),
            ..read
        }),
        Err(error) => Err(Unread {
            before: read,
            error,
        }),
    }
}

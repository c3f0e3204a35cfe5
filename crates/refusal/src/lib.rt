// Why a call is refused. Each reason has a number, which C callers and the programs are told.
#![tactic(auto)]

ghost use Rattle.std.specs.Prelude.{◌≡◌, Some};
ghost use Rattle.refusal.specs.Number.{number};
ghost use Rattle.refusal.specs.Text.{refusal_text};

use std::fmt;

// The reasons that lie in the input, in the order in which they are looked for, and then those that lie
// in a state.
#[derive(Clone, Copy, Debug, PartialEq, Eq)]
pub enum Refusal {
    // An image of under two bytes.
    Short = 1,
    // N is 0 or over 64, or C is over 96.
    Sizes = 2,
    // The length is not 2 + 5N + 5C.
    Length = 3,
    // A node's kind is none of the table of kinds.
    Kind = 4,
    // A wire names a node that is not there.
    Wire = 5,
    // A port is not below the inputs of the node that it is on.
    Port = 6,
    // A port is fed twice.
    FedTwice = 7,
    // A port is not fed.
    NotFed = 8,
    // Over 8 stations stand on a channel.
    Stations = 9,
    // A queue of depth 0 or over 8.
    Depth = 10,
    // Over 256 stations stand in one image.
    Total = 11,
    // A stall word sets a bit at or above N.
    Stall = 12,
    // A lent array is shorter than the result.
    Room = 13,
    // A strict cycle over 1,000,000, or over 4,096 words for the trace program.
    Limit = 14,
    // A row of no records or over 8.
    Row = 15,
    // The state does not fit the image; on the benches, a record that is none.
    Misfit = 21,
    // The cycle count is 1,000,000.
    Cycles = 22,
}

impl Refusal {
    // Returns the number of a refusal, which C callers and the programs are told.
    pub fn number(self) -> u8
        ensures { result ≡ number self }
    {
        self as u8
    }
}

impl fmt::Display for Refusal {
    ghost output = { λ refusal. Some (refusal_text (number refusal)) };

    fn fmt<W: fmt::Write>(&self, f: &mut fmt::Formatter<W>) -> fmt::Result {
        write!(f, "refused {}", self.number())
    }
}

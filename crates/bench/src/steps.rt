// What both benches ask of a record, and answer.
ghost use Rattle.std.specs.Prelude.{◌≡◌, Ok, min};
ghost use Rattle.bench.specs.Bench.{fits, told, reply};

use crate::{Answer, Records};
use relay::{Link, Reading, Station};

// Whether a record is free of number 21: a count within the depth, and 0 in every place that holds no
// token.
#[tactic(auto, unfolding(crate::specs::Bench::fits))]
pub(crate) fn fits(station: Station) -> bool
    ensures { result ≡ fits station }
{
    (station.count <= Station::DEPTH) & station.clear()
}

// The answer of a bench that is not refused, given the link that leaves the row, its stop, and whether
// the incoming token was taken.
#[tactic(auto, unfolding(crate::specs::Bench::reply))]
pub(crate) fn reply(link: Link, stop: bool, taken: bool) -> Answer
    ensures { told (Ok result) ≡ reply link stop taken }
{
    let reading = Reading::of(link, stop);
    Answer {
        letter: reading.letter,
        value: reading.value,
        taken,
    }
}

// ---- records by value, of which the first are lent

// Returns how many of nine records are lent, given how many are asked for.
pub(crate) fn lent(length: usize) -> usize
    ensures { result ≡ min length 9 }
{
    length.min(Records::COUNT)
}

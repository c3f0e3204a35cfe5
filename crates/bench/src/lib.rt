// Benches for relay stations on their own: one station, or a row of up to eight, is lent and changed in
// place by one cycle. Link and stop are two parameters throughout, as C lends them: a struct of them
// would mean two things, since a station's stop is on the link that leaves it, a queue's on the one that
// arrives. One station and a row are apart: a row has a length, and is refused for it.
//
// `station_bench` takes the station out, works it by value, by `Station::after`, and stores it back.
// `row_bench` walks the row in place, from the last record to the first (`rows::walk`), and works each
// record in the same way. Nothing is stored before 15 and 21 are asked. The library has its records as
// bytes, and lends those that it read.
//
// Both benches hold a reference to a struct or to a slice of structs, and the trials lend one. What a
// bench makes of its records their proofs know by laws only (`row_none`, `row_unfit`, `row_walked`), so
// another rule of a bench changes none of them.
#![tactic(auto)]

mod rows;
mod steps;

ghost use Rattle.std.specs.Prelude.{[], ◌∷◌, ◌≡◌};
ghost use Rattle.bench.specs.Bench.{BenchDone, told};
ghost use Rattle.bench.specs.ByValue.{benched_told, station_benched, records_benched};

use refusal::Refusal;
use relay::{Link, Station};

// A bench's answer: the letter and the value of the link that leaves the row, and whether the incoming
// token was taken. C is told these three.
#[derive(Clone, Copy, Debug, PartialEq, Eq)]
pub struct Answer {
    pub letter: u8,
    pub value: i32,
    pub taken: bool,
}

// What was benched as it is after the bench, and the answer. Where the bench is refused it is as it was,
// and is handed back: so the records stand beside the `Result` and not in it.
#[derive(Clone, Copy)]
pub struct Benched<T> {
    pub after: T,
    pub answer: Result<Answer, Refusal>,
}

// Nine records, one more than a row may have: how many of them are lent is a number beside them, so that
// rows of 0 and 9 can be tried too.
#[derive(Clone, Copy)]
pub struct Records {
    pub stations: [Station; 9],
}

impl Records {
    pub const COUNT: usize = 9;
}

// Returns the letter and value of the leaving link and whether the incoming token was taken, given a
// lent station, the incoming link and the stop below, and leaves the station as it is after one cycle.
// Refused by 21 if its count is over 2 or an unused token is not 0: then it stays as it was.
pub fn station_bench(s: &mut Station, link: Link, stop: bool) -> Result<Answer, Refusal>
    ensures { BenchDone (s.old ∷ []) link stop (told result) (s.new ∷ []) }
{
    let station = *s;
    if !steps::fits(station) {
        return Err(Refusal::Misfit);
    }
    let taken = link.is_some() & !station.full();
    *s = station.after(link, stop);
    Ok(steps::reply(station.link(), stop, taken))
}

// Returns the letter and value of the leaving link and whether the incoming token was taken, given a
// lent row whose first record is nearest to the incoming link, that link and the stop below, and leaves
// the row as it is after one cycle. Refused by 15 if it has no records or over 8, then by 21 if a record
// has a count over 2 or a nonzero unused token: then the row stays as it was.
pub fn row_bench(row: &mut [Station], link: Link, stop: bool) -> Result<Answer, Refusal>
    ensures { BenchDone row.old link stop (told result) row.new }
{
    let n = row.len();
    if (n == 0) | (Station::ROW < n) {
        return Err(Refusal::Row);
    }
    if !rows::all_fit(row) {
        return Err(Refusal::Misfit);
    }
    let taken = link.is_some() & !row[0].full();
    let leaving = rows::link_at(row, link, n);
    rows::walk(row, link, stop);
    Ok(steps::reply(leaving, stop, taken))
}

// Returns a station after one cycle and the answer of `station_bench`, given the station by value, the
// incoming link and the stop below: a copy is lent.
pub fn station_trial(station: Station, link: Link, stop: bool) -> Benched<Station>
    ensures { benched_told result ≡ station_benched station link stop }
{
    let mut after = station;
    let answer = station_bench(&mut after, link, stop);
    Benched { after, answer }
}

// Returns nine records after one cycle and the answer of `row_bench`, given the records by value, the
// incoming link and the stop below: the first `length` of a copy are lent, all nine if `length` is more,
// and the others stay as they were.
pub fn row_trial(records: Records, length: usize, link: Link, stop: bool) -> Benched<Records>
    ensures { benched_told result ≡ records_benched records length link stop }
{
    let mut lent = records.stations;
    let m = steps::lent(length);
    let answer = row_bench(&mut lent[..m], link, stop);
    Benched {
        after: Records { stations: lent },
        answer,
    }
}

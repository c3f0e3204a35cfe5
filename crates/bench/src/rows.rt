// A row of records that is lent: whether they fit, what its links show, and the walk over it that makes
// it the row after a cycle.
ghost use Rattle.std.specs.Prelude.{map, ◌≡◌, ◌≤◌, length};
ghost use Rattle.laws.specs.Below.{all_below};
ghost use Rattle.relay.specs.Link.{token, link_of};
ghost use Rattle.relay.specs.Station.{held, station_of};
ghost use Rattle.relay.specs.Row.{link_at, row_after};
ghost use Rattle.bench.specs.Bench.{fits};
ghost use Rattle.bench.specs.Loops.Walk.{record_at};

use crate::steps;
use relay::{Link, Station};

// Whether each record of a row is free of number 21.
pub(crate) fn all_fit(row: &[Station]) -> bool
    ensures { result ≡ all_below (λ i. fits (record_at row.now i)) (length row.now) }
{
    row.iter().all(|station| steps::fits(*station))
}

// Returns what link j of a row shows: link 0 as given, link j above 0 by the record before it.
pub(crate) fn link_at(row: &[Station], link: Link, j: usize) -> Link
    requires { j ≤ length row.now }
    ensures { result ≡ link_of (link_at (token link) (map held row.now) j) }
{
    if j == 0 {
        return link;
    }
    row[j - 1].link()
}

// Leaves a row as it is after a cycle, given the link that enters it and the stop on the one that leaves
// it. Each record is worked by value, in its place, from the last to the first: so the link above it is
// still that of the row as it was, and the stop below it is kept as it was, in `below`.
pub(crate) fn walk(row: &mut [Station], link: Link, stop: bool)
    ensures { row.new ≡ map station_of (row_after (token link) (map held row.old) stop) }
{
    let n = row.len();
    let mut below = stop;
    for j in (0..n).rev() {
        let station = row[j];
        let above = link_at(row, link, j);
        row[j] = station.after(above, below);
        below = station.full();
    }
}

// What each channel reads in a cycle: its letter and its value.
#![tactic(auto)]

ghost use Rattle.std.specs.Prelude.{◌≡◌};
ghost use Rattle.refusal.specs.Number.{number_of};
ghost use Rattle.readings.specs.Shown.{ShownDone};

use netlist::Netlist;
use refusal::Refusal;
use relay::Reading;
use state::State;

// Leaves each channel's letter and value in the first C places of two lent arrays and the rest as it
// was, given a state, whether or not it fits, and at least C places each. Refused by 13 where an array
// is shorter: then nothing is written. Two arrays, as C lends them. By index: a turn reads four arrays
// of the state, too, at the channel's own place and at that of its node.
pub fn show(
    netlist: Netlist,
    state: State,
    letters: &mut [u8],
    values: &mut [i32],
) -> Result<(), Refusal>
    ensures { ShownDone netlist.entry.image.now state letters.old values.old (number_of result) letters.new values.new }
{
    let channels = netlist.channels();
    let room = channels as usize;
    if (letters.len() < room) | (values.len() < room) {
        return Err(Refusal::Room);
    }
    for c in 0..channels {
        let wire = netlist.wire(c);
        let at = c as usize;
        let length = wire.stations as usize;
        let node = state.nodes[wire.from as usize];
        let queue = state.queues[at];
        let pending = state.pending[at] == 1;
        let link = if 0 < length {
            state.stations[8 * at + (length - 1)].link()
        } else {
            pending.then_some(node.value)
        };
        let reading = Reading::of(link, queue.full(wire.depth));
        letters[at] = reading.letter;
        values[at] = reading.value;
    }
    Ok(())
}

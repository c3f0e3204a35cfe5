// Number 21: whether a state fits an accepted image.
//
// Three passes: over the nodes, over the channels of the image with their balance, and over the places
// that nothing uses.
#![tactic(auto)]

mod passes;

ghost use Rattle.std.specs.Prelude.{◌≡◌};
ghost use Rattle.fitting.specs.Fits.{fits};

use netlist::Netlist;
use state::State;

// Returns whether a state fits an accepted image, given both: number 21 refuses one that does not.
pub fn fits(netlist: Netlist, state: &State) -> bool
    ensures { result ≡ fits netlist.entry.image.now state.now }
{
    let nodes = passes::nodes_fit(netlist, state);
    let channels = passes::channels_fit(netlist, state);
    let unused = passes::channels_clear(netlist, state);
    (((state.cycles <= State::CYCLES) & nodes) & channels) & unused
}

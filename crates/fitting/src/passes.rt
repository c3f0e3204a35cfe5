// The passes of number 21, each over all nodes or all channels. Netlist and state are two parameters: that
// they fit is what comes of these tests, so no struct holds both before.
ghost use Rattle.std.specs.Prelude.{◌≡◌, ◌+◌, ◌<◌, ◌≤◌, length, eqb};
ghost use Rattle.laws.specs.Lists.{zero_from};
ghost use Rattle.image.specs.Image.{channels};
ghost use Rattle.fitting.specs.Loops.Passes.{counted, empty_node, empty_station, empty_queue, nodes_fit, channel_fits, channels_fit, contents_clear, channels_clear};

use netlist::Netlist;
use relay::Station;
use shell::Queue;
use state::{Node, State};

// Whether a node is 0 throughout, as one that is not there. Place by place, as for stations and queues
// below: the definition of number 21 names the places, and a derived `==` would want a law for each type
// that takes it to them.
#[tactic(auto, using(laws::specs::Laws::Signed::zero_bits), unfolding(crate::specs::Loops::Passes::empty_node))]
fn empty_node(node: Node) -> bool
    ensures { result ≡ empty_node node }
{
    (node.value == 0) & (node.firings == 0)
}

// Whether a station holds no token and is 0 throughout, as one that is not there.
#[tactic(auto, unfolding(crate::specs::Loops::Passes::empty_station))]
fn empty_station(station: Station) -> bool
    ensures { result ≡ empty_station station }
{
    station.clear() & (station.count == 0)
}

// Whether a queue's places that hold no token are 0.
fn clear_queue(queue: Queue) -> bool
    ensures { result ≡ zero_from 8 queue.count queue.tokens }
{
    let count = usize::from(queue.count);
    queue.tokens.iter().skip(count).all(|token| *token == 0)
}

// Whether a queue holds no token and is 0 throughout, as one that is not there.
#[tactic(auto, unfolding(crate::specs::Loops::Passes::empty_queue))]
fn empty_queue(queue: Queue) -> bool
    ensures { result ≡ empty_queue queue }
{
    clear_queue(queue) & (queue.count == 0)
}

// Returns whether "firings are at most the cycle count" at all nodes, and the places that no node uses
// are 0.
pub(crate) fn nodes_fit(netlist: Netlist, state: &State) -> bool
    ensures { result ≡ nodes_fit netlist.entry.image.now state.now }
{
    let nodes = usize::from(netlist.nodes());
    let cycles = state.cycles;
    let used = state.nodes[..nodes]
        .iter()
        .all(|node| node.firings <= cycles);
    let unused = state.nodes[nodes..].iter().all(|node| empty_node(*node));
    used & unused
}

// How many tokens the stations of a row hold. A loop, since it carries what bounds the sum: 255 for
// each station.
fn held(row: &[Station]) -> u16
    requires { length row.now ≤ 8 }
    ensures { (result ≡ counted row.now) × (result < 2048) }
{
    let mut held: u16 = 0;
    for station in row {
        held += u16::from(station.count);
    }
    held
}

// "pending + stations + queue = firings of from + 1 - firings of to". What is taken away on the right
// is added on the left.
fn balanced(pending: u8, held: u16, waiting: u8, from: u32, to: u32) -> bool
    ensures { result ≡ eqb (pending + held + waiting + to) (from + 1) }
{
    pending as u64 + held as u64 + waiting as u64 + to as u64 == from as u64 + 1
}

// Whether of channel c "pending marks are 0 or 1; station and queue counts are within their depths", and
// it is balanced.
#[tactic(auto, using(verdict::specs::Laws::Accepted::channels_few))]
fn channel_fits(netlist: Netlist, state: &State, c: u8) -> bool
    requires { c < channels netlist.image.now }
    ensures { result ≡ channel_fits netlist.entry.image.now state.now c }
{
    let wire = netlist.wire(c);
    let at = usize::from(c);
    let row = &state.stations[8 * at..8 * at + usize::from(wire.stations)];
    let pending = state.pending[at];
    let queue = state.queues[at];
    let from = state.nodes[usize::from(wire.from)];
    let to = state.nodes[usize::from(wire.to)];
    let stations = row.iter().all(|station| station.count <= Station::DEPTH);
    let counts = (pending <= 1) & (stations & (queue.count <= wire.depth));
    counts & balanced(pending, held(row), queue.count, from.firings, to.firings)
}

// Returns whether every channel of the image has what `channel_fits` tests.
pub(crate) fn channels_fit(netlist: Netlist, state: &State) -> bool
    ensures { result ≡ channels_fit netlist.entry.image.now state.now }
{
    (0..netlist.channels()).all(|c| channel_fits(netlist, state, c))
}

// Whether the places of channel c that no station of the image and no held token uses are 0.
#[tactic(auto, using(verdict::specs::Laws::Accepted::channels_few))]
fn contents_clear(netlist: Netlist, state: &State, c: u8) -> bool
    requires { c < channels netlist.image.now }
    ensures { result ≡ contents_clear netlist.entry.image.now state.now c }
{
    let start = 8 * usize::from(c);
    let end = start + usize::from(netlist.wire(c).stations);
    let used = state.stations[start..end]
        .iter()
        .all(|station| station.clear());
    let unused = state.stations[end..start + Station::ROW]
        .iter()
        .all(|station| empty_station(*station));
    (used & unused) & clear_queue(state.queues[usize::from(c)])
}

// Returns whether the places that no channel, no station of the image and no held token uses are 0.
pub(crate) fn channels_clear(netlist: Netlist, state: &State) -> bool
    ensures { result ≡ channels_clear netlist.entry.image.now state.now }
{
    let count = netlist.channels();
    let channels = usize::from(count);
    let used = (0..count).all(|c| contents_clear(netlist, state, c));
    let idle = state.pending[channels..]
        .iter()
        .all(|pending| *pending == 0);
    let stations = state.stations[8 * channels..]
        .iter()
        .all(|station| empty_station(*station));
    let queues = state.queues[channels..]
        .iter()
        .all(|queue| empty_queue(*queue));
    ((used & idle) & stations) & queues
}

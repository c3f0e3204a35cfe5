// The strict reference run: the values that the nodes have where no wire is too long for one clock.
//
// `strict` asks `allowed` for a netlist or a refusal, or works the cycle out (`reached`) and copies it
// to the lent array. `reached` decodes the image once into a `System`: the kinds (`node::kinds_of`),
// and the node that feeds each port (`feeders_of`). Then `after` makes each cycle's values from the
// whole list before it, a node at a time (`next`, from what is `brought` to its ports). Nothing of a
// cycle is written back before all of it is worked out, so no node can see a value of its own cycle.
//
// The arrays are the definition's lists with zeros behind them (`padded`), so the loop's invariant is
// one equation, `values ≡ values_at img t`, and one turn is the law `values-after`. That law rests on
// `ports_at`: what the channels wrote to a port's place is what `port_value` picks.
#![tactic(auto)]

ghost use Rattle.std.specs.Prelude.{◌≡◌, ◌<◌, ◌≤◌, length, IfOk, OnOk};
ghost use Rattle.refusal.specs.Number.{number_of};
ghost use Rattle.image.specs.Image.{nodes, channels};
ghost use Rattle.strict.specs.Answer.{strict_number, strict_written};
ghost use Rattle.strict.specs.Loops.Decoded.{NamesPlaces, feeders_below, port_on, values_at};

use netlist::Netlist;
use pearl::Kind;
use refusal::Refusal;

// The last cycle that may be asked for.
const LAST: u32 = 1000000;

// What a cycle needs of an image: how many nodes there are, each one's kind, and the node that feeds
// each port, three places a node, flat as the definition of ports has them. Kinds and feeders are arrays
// of their own: the cycle engine shares what reads the one, and the law of ports speaks of the other.
// With kinds and values in one struct a run took a tenth longer (docs/PERFORMANCE.md). The nodes' values
// stand in 65 places: place 64 is no node's and stays 0, for ports that no channel feeds, so that a
// cycle reads all three ports of each node without a test.
#[derive(Drop)]
struct System {
    nodes: usize,
    kinds: [Kind; 64],
    feeders: [u8; 192],
    ghost few_nodes: { nodes ≤ 64 },
    ghost names_places: { NamesPlaces feeders },
}

impl System {
    ghost use Rattle.strict.specs.Loops.System.{DecodedFrom, value_after, values_after};

    // The system of a netlist's image.
    fn of(netlist: Netlist) -> System
        ensures { DecodedFrom netlist.entry.image.now result }
    {
        System {
            nodes: usize::from(netlist.nodes()),
            kinds: node::kinds_of(netlist),
            feeders: feeders_of(netlist),
        }
    }

    // The value on the port at a place, given all values.
    #[tactic(auto, unfolding(crate::specs::Loops::Decoded::port_on))]
    fn brought(&self, values: &[i32; 65], at: usize) -> i32
        requires { at < 192 }
        ensures { result ≡ port_on values.now self.now.feeders at }
    {
        values[usize::from(self.feeders[at])]
    }

    // The next value of node n, given all values. A node's number is below 64 by what a netlist
    // promises; here the arrays' places ask for it.
    #[tactic(auto, unfolding(crate::specs::Loops::System::value_after))]
    fn next(&self, values: &[i32; 65], n: usize) -> i32
        requires { n < 64 }
        ensures { result ≡ value_after self.now values.now n }
    {
        let a = self.brought(values, 3 * n);
        let b = self.brought(values, 3 * n + 1);
        let c = self.brought(values, 3 * n + 2);
        self.kinds[n].next(values[n], a, b, c)
    }

    // The values after a cycle, given those before it. By number, as `next` asks for a node.
    #[tactic(auto, using(laws::specs::Laws::Table::over_next), unfolding(crate::specs::Loops::System::values_after, laws::specs::Table::table_over, laws::specs::Table::table))]
    fn after(&self, values: &[i32; 65]) -> [i32; 65]
        ensures { result ≡ values_after self.now values.now }
    {
        let mut next = *values;
        for n in 0..self.nodes {
            next[n] = self.next(values, n);
        }
        next
    }
}

// The node that feeds each port, written at the place that each channel names.
#[tactic(auto, unfolding(crate::specs::Loops::Decoded::feeders_below, image::specs::Loops::Ports::ports_below, image::specs::Readers::wire_at))]
fn feeders_of(netlist: Netlist) -> [u8; 192]
    ensures { result ≡ feeders_below netlist.entry.image.now (channels netlist.entry.image.now) }
{
    let mut feeders = [64; 192];
    for c in 0..netlist.channels() {
        let wire = netlist.wire(c);
        feeders[3 * usize::from(wire.to) + usize::from(wire.port)] = wire.from;
    }
    feeders
}

// The values of cycle 0: all parameters. By index, since the netlist is asked for each node by its
// number.
#[tactic(auto, using(laws::specs::Laws::Table::padded_next), unfolding(crate::specs::Loops::Decoded::values_at, crate::specs::Strict::strict_cycle, laws::specs::Table::table, laws::specs::Lists::padded, image::specs::Readers::core_at))]
fn first(netlist: Netlist) -> [i32; 65]
    ensures { result ≡ values_at netlist.entry.image.now 0 }
{
    let mut values = [0; 65];
    for n in 0..netlist.nodes() {
        values[usize::from(n)] = netlist.core(n).parameter;
    }
    values
}

// The values of all nodes in a cycle, by cycles from 0 on.
#[tactic(auto, using(verdict::specs::Laws::Accepted::accepted, crate::specs::Loops::DecodedLaws::values_next))]
fn reached(netlist: Netlist, cycle: u32) -> [i32; 65]
    ensures { result ≡ values_at netlist.entry.image.now cycle }
{
    let system = System::of(netlist);
    let mut values = first(netlist);
    for t in 0..cycle {
        values = system.after(&values);
    }
    values
}

// The netlist for a run that is lent an array of `room` places. The judge's refusal comes first, then
// that of a late cycle, then that of a short array.
#[tactic(auto, unfolding(crate::specs::Answer::strict_number))]
fn allowed<'a>(image: &'a [u8], cycle: u32, room: usize) -> Result<Netlist<'a>, Refusal>
    ensures number { number_of result ≡ strict_number image.entry.now cycle room }
    ensures same { IfOk result (λ netlist. netlist.image ≡ image.entry) }
    ensures room_for_all { OnOk result (nodes image.entry.now ≤ room) }
{
    let netlist = Netlist::judged(image)?;
    if LAST < cycle {
        return Err(Refusal::Limit);
    }
    if room < usize::from(netlist.nodes()) {
        return Err(Refusal::Room);
    }
    Ok(netlist)
}

// Leaves the strict values of all N nodes in a cycle in the first N places of `values` and the rest as
// it was, given an image, a cycle up to 1,000,000 and at least N places. Refused by 1 to 11, then 14 for
// a later cycle, then 13 for fewer places: then nothing is written. The three parameters are what C
// hands over.
#[tactic(auto, using(crate::specs::Laws::Answer::written_none, refusal::specs::Laws::Number::number_positive))]
pub fn strict(image: &[u8], cycle: u32, values: &mut [i32]) -> Result<(), Refusal>
    ensures value { number_of result ≡ strict_number image.now cycle (length values.old) }
    ensures values_after { values.new ≡ strict_written image.now cycle values.old }
{
    let netlist = allowed(image, cycle, values.len())?;
    let nodes = usize::from(netlist.nodes());
    let found = reached(netlist, cycle);
    values[..nodes].copy_from_slice(&found[..nodes]);
    Ok(())
}

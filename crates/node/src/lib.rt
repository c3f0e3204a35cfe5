// A node in its netlist: the kinds of all nodes, read once. The definition of a node's next value, which the
// strict run and the cycle engine share, stands under specs/.
#![tactic(auto)]

ghost use Rattle.image.specs.Image.{nodes};
ghost use Rattle.node.specs.Kinds.{KindsBelow};

use netlist::Netlist;
use pearl::Kind;

// Returns the kinds of all nodes, given a netlist, and behind them a kind that nothing reads. By number:
// a byte names a node.
pub fn kinds_of(netlist: Netlist) -> [Kind; 64]
    ensures { KindsBelow netlist.entry.image.now (nodes netlist.entry.image.now) result }
{
    let mut kinds = [Kind::Count; 64];
    for n in 0..netlist.nodes() {
        kinds[usize::from(n)] = Kind::try_from(netlist.core(n).kind).unwrap();
    }
    kinds
}

// The fresh state.
ghost use Rattle.std.specs.Prelude.{◌≡◌};
ghost use Rattle.state.specs.Told.{told};
ghost use Rattle.state.specs.Fresh.{zeros, fresh_state, FreshDone};

use crate::{Node, Refused, State};
use netlist::Netlist;
use relay::Station;
use shell::Queue;

impl State {
    // How many nodes a state has places for.
    pub const NODES: u8 = 64;

    // How many channels a state has places for.
    pub const CHANNELS: u8 = 96;

    // The highest cycle count that a state may have.
    pub const CYCLES: u32 = 1000000;

    // Returns a state of zeros throughout. By hand: a derived `Default` would want one of stations and
    // queues too, beside their `empty`.
    pub fn zeros() -> Self
        ensures { result ≡ zeros }
    {
        let node = Node {
            value: 0,
            firings: 0,
        };
        let station = Station::empty();
        let queue = Queue::empty();
        let zeros = State {
            cycles: 0,
            nodes: [node; 64],
            pending: [0; 96],
            stations: [station; 768],
            queues: [queue; 96],
        };
        // The limits above are those of the type.
        prove!(zeros.nodes.len() == State::NODES as usize);
        prove!(zeros.queues.len() == State::CHANNELS as usize);
        zeros
    }

    // Returns the fresh state, given an accepted image: each node shows its parameter, which is pending
    // on every channel that it feeds.
    fn started(netlist: Netlist) -> Self
        ensures { result ≡ fresh_state netlist.entry.image.now }
    {
        let nodes = netlist.nodes();
        let channels = netlist.channels();
        let mut state = State::zeros();
        // By index, since the netlist is asked for each node by its number.
        for n in 0..nodes {
            let core = netlist.core(n);
            state.nodes[n as usize] = Node {
                value: core.parameter,
                firings: 0,
            };
        }
        // No `fill`: with it a run of the engine took a tenth longer.
        for c in 0..channels {
            state.pending[c as usize] = 1;
        }
        state
    }

    // Returns the fresh state, given an image; if the judge refuses the image, its refusal, 1 to 11, and
    // a state of zeros. A `match`, since each arm makes a state of its own: `map_err` and `?` would be
    // no shorter.
    pub fn fresh(image: &[u8]) -> Result<State, Refused>
        ensures { FreshDone image.now (told result) }
    {
        match Netlist::judged(image) {
            Ok(netlist) => Ok(State::started(netlist)),
            Err(refusal) => Err(Refused {
                refusal,
                state: State::zeros(),
            }),
        }
    }
}

// The state of a netlist between two cycles, and the fresh state.
#![tactic(auto)]

mod initial;

use refusal::Refusal;
use relay::Station;
use shell::Queue;

// A node: the value that it shows, and how often it has fired.
#[derive(Clone, Copy)]
pub struct Node {
    pub value: i32,
    pub firings: u32,
}

// The state of a netlist between two cycles. Station j of channel c, counted from 0, stands at place
// 8 * c + j. A place that nothing uses is 0. Pending bits, stations and queues stand in arrays of their
// own, and a pending bit in a byte, as the C interface lays a state out.
#[derive(Clone, Copy)]
pub struct State {
    pub cycles: u32,
    pub nodes: [Node; 64],
    pub pending: [u8; 96],
    pub stations: [Station; 768],
    pub queues: [Queue; 96],
}

// What a refused call hands back: a state, the one that it was handed or zeros, and why it was refused. The
// state comes first here and wherever one is answered: where it lies at two places of the two arms of a
// `Result`, LLVM takes it apart number by number and builds for minutes.
#[derive(Clone, Copy)]
pub struct Refused {
    pub state: State,
    pub refusal: Refusal,
}

// The run: a cycle for each of a list of stall words, on an accepted image.
//
// `run` tests number 21, finds out how many words it takes and what ends them (`words_taken`: 22 and 12
// before each word), and makes their cycles (`cycles`): which inputs are ready (data validation), which
// nodes are held back (back pressure), which nodes fire (clock gating), and then every token that passes
// moves on.
//
// A cycle has the parts of a shell's cycle, each a loop with its comment: data validation and back
// pressure over the channels, clock gating over the nodes, and the move over the channels with their
// rows. The first two share a loop because both look at the two ends of a channel; they write to
// arrays of their own. Every part reads the state at the start of the cycle, `old`, and writes to the lent
// one: no part can see what another has changed, and each loop's invariant is one equation about `old`.
//
// `cycles` is one function because a state that is handed on is copied (docs/PERFORMANCE.md). What it
// calls is small: the leaves of `pearl`, `relay` and `shell`, `fired` and `stalls`. The image is decoded
// once a call, into wires (`Netlist::wires`) and kinds (`node::kinds_of`).
#![tactic(auto)]

ghost use Rattle.std.specs.Prelude.{◌≡◌, suc, ◌+◌, ◌<◌, ◌≤◌, length};
ghost use Rattle.pearl.specs.Kind.{kind_byte};
ghost use Rattle.pearl.specs.Next.{next_value};
ghost use Rattle.cycle.specs.Cycle.{after};
ghost use Rattle.cycle.specs.Run.{RunDone};
ghost use Rattle.cycle.specs.Word.{stalled, sets_above};
ghost use Rattle.fitting.specs.Fitting.{Fitting};
ghost use Rattle.cycle.specs.Loops.Taken.{taken_from};
ghost use Rattle.clock.specs.Told.{run_told};
ghost use Rattle.clock.specs.Loops.Told.{taken_told};

use netlist::Netlist;
use pearl::Kind;
use refusal::Refusal;
use state::{Node, State};

// A run's answer: the steps done, the state after them, and what stopped it, if it did not come to the
// end of its words.
#[derive(Clone, Copy)]
pub struct Ran {
    pub steps: u32,
    pub state: State,
    pub stopped: Option<Refusal>,
}

// Which words a run takes: how many, and what stops it.
#[derive(Clone, Copy)]
struct Taken {
    steps: usize,
    stopped: Option<Refusal>,
}

// Whether bit n of a stall word is set. A node's number is below 64 by what a netlist promises; here a
// shift asks for it.
fn stalls(word: u64, n: usize) -> bool
    requires { n < 64 }
    ensures { result ≡ stalled word n }
{
    (word >> n) % 2 == 1
}

// A node after it has fired, given what its ports bring. At most 1,000,000 is asked here, at `cycles`
// and at `words_taken`: of firings, of a sum and of a cycle count. That is no one value, so no struct
// has it.
fn fired(node: Node, kind: Kind, a: i32, b: i32, c: i32) -> Node
    requires { node.firings < 1000000 }
    ensures { result ≡ record { value = next_value (kind_byte kind) node.value a b c; firings = suc node.firings } }
{
    Node {
        value: kind.next(node.value, a, b, c),
        firings: node.firings + 1,
    }
}

// Leaves in `state` the state after one cycle for each of `words`, in order, given a state that fits the
// netlist's image and no more words than cycles are left. Each cycle is worked from the state at its
// start, `old`, and written to `state`. It is one function because a state that is handed to another is
// copied, which costs a tenth of the cycle each time, and is lent one for the same reason; where it is
// inlined the states of its caller are copied more often (docs/PERFORMANCE.md). For that reason too a
// wire's fields are taken out in both loops over the channels, and once more in `readings`. Netlist and
// state are no struct that says that they fit: what made one would answer a state of 13 kB in a
// `Result`. What is decoded of the netlist stands beside the state's arrays: it is the same in every
// cycle.
//
// The loops go by index: each turn reads and writes several arrays, at places that it works out.
// Starved, blocked and firing nodes have arrays of their own, since a channel starves one node and
// blocks another. What the inputs bring stands flat, port p of node n at place 3 * n + p, as the judge's
// fed ports and the strict run's feeders do: one law of ports serves all three.
#[inline(never)]
fn cycles(netlist: Netlist, state: &mut State, words: &[u64])
    requires fitting { Fitting netlist.image.now state.old }
    requires words_bound { state.old.cycles + length words.now ≤ 1000000 }
    ensures { state.new ≡ after netlist.entry.image.now state.old words.now }
{
    let nodes = netlist.nodes() as usize;
    let channels = netlist.channels() as usize;
    let wires = netlist.wires();
    let kinds = node::kinds_of(netlist);
    for &word in words {
        let old = *state;
        // Data validation, and back pressure: which nodes an input is not ready for, what the inputs
        // bring, and which nodes are blocked.
        let mut starved = [false; 64];
        let mut brought = [0; 192];
        let mut blocked = [false; 64];
        for c in 0..channels {
            let wire = wires[c];
            let from = wire.from as usize;
            let to = wire.to as usize;
            let length = wire.stations as usize;
            let node = old.nodes[from];
            let queue = old.queues[c];
            let pending = old.pending[c] == 1;
            let (link, stop) = if 0 < length {
                (
                    old.stations[8 * c + (length - 1)].link(),
                    old.stations[8 * c].full(),
                )
            } else {
                (pending.then_some(node.value), queue.full(wire.depth))
            };
            let input = queue.input(link);
            brought[3 * to + wire.port as usize] = input.unwrap_or(0);
            starved[to] = starved[to] | input.is_none();
            blocked[from] = blocked[from] | shell::blocked(pending, stop);
        }
        // Clock gating: which nodes fire.
        let mut fires = [false; 64];
        for n in 0..nodes {
            if !stalls(word, n) & !starved[n] & !blocked[n] {
                let node = old.nodes[n];
                state.nodes[n] = fired(
                    node,
                    kinds[n],
                    brought[3 * n],
                    brought[3 * n + 1],
                    brought[3 * n + 2],
                );
                fires[n] = true;
            }
        }
        // Every token that passes moves on.
        for c in 0..channels {
            let wire = wires[c];
            let from = wire.from as usize;
            let to = wire.to as usize;
            let length = wire.stations as usize;
            let node = old.nodes[from];
            let queue = old.queues[c];
            let pending = old.pending[c] == 1;
            let full = queue.full(wire.depth);
            let mut stop = full;
            if 0 < length {
                stop = old.stations[8 * c].full();
            }
            // Behind the branch above: beside the load of its value this choice becomes a jump, a fifth
            // slower.
            let mut link = pending.then_some(node.value);
            for j in 0..length {
                let station = old.stations[8 * c + j];
                let mut below = full;
                if j + 1 < length {
                    below = old.stations[8 * c + (j + 1)].full();
                }
                state.stations[8 * c + j] = station.after(link, below);
                link = station.link();
            }
            let takes = fires[to];
            if takes | (link.is_some() & !full) {
                state.queues[c] = queue.after(link, full, takes);
            }
            state.pending[c] = u8::from(shell::pending_after(pending, stop, fires[from]));
        }
        state.cycles = old.cycles + 1;
    }
}

// Returns whether a stall word sets a bit at or above n.
pub fn sets_above(word: u64, n: u8) -> bool
    ensures { result ≡ sets_above n word }
{
    word.checked_shr(u32::from(n)).is_some_and(|rest| rest != 0)
}

// Which of `words` a run takes, given how many nodes there are and how many cycles were made: 22 and 12
// are looked for before each.
fn words_taken(nodes: u8, cycles: u32, words: &[u64]) -> Taken
    requires { cycles ≤ 1000000 }
    ensures { taken_told result ≡ taken_from nodes cycles words.now }
{
    let room = (State::CYCLES - cycles) as usize;
    for (i, &word) in words.iter().enumerate() {
        if i == room {
            return Taken {
                steps: i,
                stopped: Some(Refusal::Cycles),
            };
        }
        if sets_above(word, nodes) {
            return Taken {
                steps: i,
                stopped: Some(Refusal::Stall),
            };
        }
    }
    Taken {
        steps: words.len(),
        stopped: None,
    }
}

// Returns the steps done, the state after them and what stopped the run, given a netlist, a state that
// fits it and stall words: one cycle for each, in order, up to the first that is refused. Refused by 21
// once, before the first word, and by 22 and then 12 before each word.
pub fn run(netlist: Netlist, state: State, words: &[u64]) -> Ran
    ensures { RunDone netlist.entry.image.now state words.now (run_told result) }
{
    let mut ran = Ran {
        steps: 0,
        state,
        stopped: Some(Refusal::Misfit),
    };
    if fitting::fits(netlist, &ran.state) {
        let taken = words_taken(netlist.nodes(), ran.state.cycles, words);
        cycles(netlist, &mut ran.state, &words[..taken.steps]);
        ran.steps = taken.steps as u32;
        ran.stopped = taken.stopped;
    }
    ran
}

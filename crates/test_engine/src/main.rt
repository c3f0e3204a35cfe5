// Runs the engine and prints what it answers. First the starred edges' table, a line an edge, and two
// traces in the trace program's form. Then a line a case: the number; the places of the lent arrays, a
// letter and its value each, which were '.' and 7 before, or the steps done; and the state that came
// back.
//
// Standard input has two images of 47 bytes: figure 4's, and one with stations on every channel:
// kinds 1 6 4 7, parameters 10 100 200 300, wires 0-1-0, 3-1-1, 1-2-0, 2-3-0, 0-3-1, depths 1/1, 1/1,
// 2/1, 1/2, 3/1.
#![tactic(auto)]

use refusal::Refusal;
use starred::Edge;
use state::State;
use std::io;

// One count node, parameter 5.
const COUNTING: [u8; 7] = [1, 0, 1, 5, 0, 0, 0];

// The stall words of figure 4's trace, a byte a word.
const FIGURE4_WORDS: &[u8] = b"\x01\x00\x00\x10\x00\x00\x03\x03\x08\x00\x00";

// The stall words of the trace with stations, a byte a word.
const STATIONS_WORDS: &[u8] =
    b"\x04\x0a\x00\x02\x07\x05\x0d\x09\x00\x00\x09\x0d\x03\x04\x0b\x0c\x00\x00\x0e\x00";

// What is called: a step with a word, on arrays of so many places, six at most; or a run with its words.
#[derive(Clone, Copy)]
enum Call {
    Step(u64, usize, usize),
    Run(&'static [u64]),
}

// A call on figure 4's image, or on that image without its last byte, from its fresh state with another
// cycle count, other firings of node 0, and on channel 0 another pending byte, a station that holds a 7,
// or a queue with a 7 in its first place that counts so many.
#[derive(Clone, Copy)]
struct Case {
    label: &'static str,
    short: bool,
    cycles: u32,
    fired: u32,
    pending: u8,
    held: bool,
    queued: Option<u8>,
    call: Call,
}

const FRESH: Case = Case {
    label: "no stalls",
    short: false,
    cycles: 0,
    fired: 0,
    pending: 1,
    held: false,
    queued: None,
    call: Call::Step(0, 6, 6),
};

const LAST: u32 = 1000000;

// The numbers of a step, alone and with the causes of those that come after; number 21, each condition
// in turn; and the numbers of a run.
const CASES: &[Case] = &[
    FRESH,
    Case {
        label: "all stalled, 4 places",
        call: Call::Step(31, 4, 4),
        ..FRESH
    },
    Case {
        label: "3 letters",
        call: Call::Step(0, 3, 6),
        ..FRESH
    },
    Case {
        label: "3 values",
        call: Call::Step(0, 6, 3),
        ..FRESH
    },
    Case {
        label: "word 32",
        call: Call::Step(32, 6, 6),
        ..FRESH
    },
    Case {
        label: "word 32, 3 letters",
        call: Call::Step(32, 3, 6),
        ..FRESH
    },
    Case {
        label: "cycle 999,999",
        cycles: LAST - 1,
        ..FRESH
    },
    Case {
        label: "cycle 1,000,000",
        cycles: LAST,
        ..FRESH
    },
    Case {
        label: "cycle 1,000,000, word 32, 3 values",
        cycles: LAST,
        call: Call::Step(32, 6, 3),
        ..FRESH
    },
    Case {
        label: "cycle 1,000,000, nothing pending, word 32",
        cycles: LAST,
        pending: 0,
        call: Call::Step(32, 6, 6),
        ..FRESH
    },
    Case {
        label: "a byte short, nothing pending",
        short: true,
        pending: 0,
        ..FRESH
    },
    Case {
        label: "cycle 1,000,001",
        cycles: LAST + 1,
        ..FRESH
    },
    Case {
        label: "fired in no cycle",
        fired: 1,
        ..FRESH
    },
    Case {
        label: "pending 2",
        pending: 2,
        ..FRESH
    },
    Case {
        label: "3 tokens in a queue of 2",
        queued: Some(3),
        ..FRESH
    },
    Case {
        label: "a token in an empty queue",
        queued: Some(0),
        ..FRESH
    },
    Case {
        label: "a station that is not there",
        held: true,
        ..FRESH
    },
    Case {
        label: "nothing pending",
        pending: 0,
        ..FRESH
    },
    Case {
        label: "words 1 0 32 0",
        call: Call::Run(&[1, 0, 32, 0]),
        ..FRESH
    },
    Case {
        label: "words 1 0 32 0 from cycle 999,998",
        cycles: LAST - 2,
        call: Call::Run(&[1, 0, 32, 0]),
        ..FRESH
    },
    Case {
        label: "words 1 0 from cycle 999,998",
        cycles: LAST - 2,
        call: Call::Run(&[1, 0]),
        ..FRESH
    },
    Case {
        label: "no words, nothing pending",
        pending: 0,
        call: Call::Run(&[]),
        ..FRESH
    },
    Case {
        label: "no words, a byte short, nothing pending",
        short: true,
        pending: 0,
        call: Call::Run(&[]),
        ..FRESH
    },
];

// ---- printing. Letters and values are two arrays of numbers, as the C interface lends them.

// Prints the letters and values that lent arrays hold: a letter, and its value unless it is the 0 that
// an I or an S carries. No `zip`: the arrays may differ in length, and what one has beyond the other is
// printed too.
fn print_places(rt: &impl Print, letters: &[u8], values: &[i32]) -> io::Result<()> {
    for i in 0..letters.len().max(values.len()) {
        print!(rt; " ")?;
        let letter = letters.get(i).copied();
        if let Some(letter) = letter {
            let letter = char::from(letter);
            print!(rt; "{letter}")?;
        }
        let value = values.get(i).copied().unwrap_or(0);
        if i < values.len() && (value != 0 || !matches!(letter, Some(b'I' | b'S'))) {
            print!(rt; "{value}")?;
        }
    }
    Ok(())
}

// Prints each node's firings.
fn print_fired(rt: &impl Print, image: &[u8], state: &State) -> io::Result<()> {
    print!(rt; "fired")?;
    for node in state.nodes.iter().take(usize::from(image::nodes(image))) {
        let firings = node.firings;
        print!(rt; " {firings}")?;
    }
    Ok(())
}

fn print_state(rt: &impl Print, image: &[u8], state: &State) -> io::Result<()> {
    let cycles = state.cycles;
    print!(rt; ": {cycles} cycles, ")?;
    print_fired(rt, image, state)?;
    let value = state.nodes[0].value;
    println!(rt; ", node 0 shows {value}")
}

// ---- calls

fn fresh(image: &[u8]) -> State {
    State::fresh(image).unwrap_or_else(|refused| refused.state)
}

// An image without its last byte.
fn short(image: &[u8]) -> &[u8] {
    match image {
        [rest @ .., _] => rest,
        [] => image,
    }
}

// Prints what a call for a fresh state answers. A refused image has no state but zeros.
fn show_fresh(rt: &impl Print, label: &str, image: &[u8]) -> io::Result<()> {
    let answer = State::fresh(image);
    let number = answer.err().map_or(0, |refused| refused.refusal.number());
    print!(rt; "{label}: {number}")?;
    print_state(rt, image, &fresh(image))
}

// Prints what a step on arrays of so many places answers and leaves.
fn step(
    rt: &impl Print,
    image: &[u8],
    state: State,
    word: u64,
    letters: usize,
    values: usize,
) -> io::Result<()> {
    let mut six_letters = [b'.'; 6];
    let mut six_values = [7; 6];
    let letters = &mut six_letters[..letters.min(6)];
    let values = &mut six_values[..values.min(6)];
    let (number, after) = match engine::step(image, state, word, letters, values) {
        Ok(after) => (0, after),
        Err(refused) => (refused.refusal.number(), refused.state),
    };
    print!(rt; "{number}:")?;
    print_places(rt, letters, values)?;
    print_state(rt, image, &after)
}

fn run(rt: &impl Print, image: &[u8], state: State, words: &[u64]) -> io::Result<State> {
    let ran = engine::run(image, state, words);
    let number = ran.stopped.map_or(0, Refusal::number);
    let steps = ran.steps;
    print!(rt; "{number}, {steps} steps")?;
    print_state(rt, image, &ran.state)?;
    Ok(ran.state)
}

// Prints the table of the starred edges: what each kind makes of its inputs, and what it should. Past
// the table's end there is no kind.
fn show_starred(rt: &impl Print) -> io::Result<()> {
    for i in 0..10 {
        let Edge {
            kind,
            inputs: [s, a, b, c],
            expected,
        } = starred::edge_at(i);
        print!(rt; "kind {kind} of {s} {a} {b} {c}: ")?;
        match pearl::next_value(kind, s, a, b, c) {
            Ok(next) => println!(rt; "{next}, {expected}")?,
            Err(refusal) => println!(rt; "{refusal}")?,
        }
    }
    Ok(())
}

// Prints a trace of up to eight channels from the fresh state.
fn trace(rt: &impl Print, image: &[u8], words: &[u8]) -> io::Result<()> {
    let channels = usize::from(image::channels(image)).min(8);
    let mut state = fresh(image);
    for (cycle, &word) in words.iter().enumerate() {
        let mut eight_letters = [0; 8];
        let mut eight_values = [0; 8];
        let letters = &mut eight_letters[..channels];
        let values = &mut eight_values[..channels];
        state = match engine::step(image, state, u64::from(word), letters, values) {
            Ok(after) => after,
            Err(refused) => refused.state,
        };
        print!(rt; "{cycle}")?;
        print_places(rt, letters, values)?;
        println!(rt;)?;
    }
    print_fired(rt, image, &state)?;
    println!(rt;)
}

fn show_case(rt: &impl Print, whole: &[u8], case: &Case) -> io::Result<()> {
    let mut state = fresh(whole);
    state.cycles = case.cycles;
    state.nodes[0].firings = case.fired;
    state.pending[0] = case.pending;
    if case.held {
        state.stations[0].tokens[0] = 7;
        state.stations[0].count = 1;
    }
    if let Some(count) = case.queued {
        state.queues[0].tokens[0] = 7;
        state.queues[0].count = count;
    }
    let image = if case.short { short(whole) } else { whole };
    let label = case.label;
    print!(rt; "{label}: ")?;
    match case.call {
        Call::Step(word, letters, values) => step(rt, image, state, word, letters, values)?,
        Call::Run(words) => {
            run(rt, image, state, words)?;
        }
    }
    Ok(())
}

// The state of a count node after all 1,000,000 cycles, in ten runs.
fn run_to_the_limit(words: &[u64]) -> State {
    let mut state = fresh(&COUNTING);
    for _ in 0..10 {
        state = engine::run(&COUNTING, state, words).state;
    }
    state
}

fn show_limit(rt: &impl Print, last: State) -> io::Result<()> {
    let cases: [(&str, State, &[u64]); 4] = [
        ("three words", fresh(&COUNTING), &[0, 0, 0]),
        ("no words after 1,000,000", last, &[]),
        ("a word after 1,000,000", last, &[0]),
        ("a word that is refused after 1,000,000", last, &[2]),
    ];
    for (label, state, words) in cases {
        print!(rt; "{label}: ")?;
        run(rt, &COUNTING, state, words)?;
    }
    print!(rt; "a step after 1,000,000: ")?;
    step(rt, &COUNTING, last, 0, 6, 6)
}

// Prints two steps of 64 count nodes: every bit of a word stalls one.
fn show_64(rt: &impl Print) -> io::Result<()> {
    let mut image = [1; 322];
    image[0] = 64;
    image[1] = 0;
    for (label, word) in [("bit 63", 1 << 63), ("all bits", u64::MAX)] {
        print!(rt; "64 nodes, {label}: ")?;
        step(rt, &image, fresh(&image), word, 6, 6)?;
    }
    Ok(())
}

fn show(rt: &impl Print, figure4: &[u8], stations: &[u8]) -> io::Result<()> {
    show_starred(rt)?;
    trace(rt, figure4, FIGURE4_WORDS)?;
    trace(rt, stations, STATIONS_WORDS)?;
    show_fresh(rt, "figure 4", figure4)?;
    show_fresh(rt, "a byte short", short(figure4))?;
    for case in CASES {
        show_case(rt, figure4, case)?;
    }
    show_64(rt)
}

fn main(rt: HostRuntime) -> io::Result<()> {
    let mut bytes = [0; 94];
    input::read_to_end(&mut rt.stdin(), &mut bytes).unwrap_or_else(|unread| unread.before);
    show(&rt, &bytes[..47], &bytes[47..])?;
    let words = vec![in rt.alloc(); 0; 100000]?;
    show_limit(&rt, run_to_the_limit(&words))
}

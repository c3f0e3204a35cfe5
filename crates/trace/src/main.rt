// Traces the netlist and the stall words on standard input: prints the trace, or `refused` and the
// number.
//
// The whole input is read and judged before anything is printed. Each line is made as a value, whose
// contract says which line of the trace it is, and is then printed by one write; a write that fails
// ends the program. Where the input cannot be read, or a line cannot be written, or there are
// arguments, a line on standard error says so, and the status is 1.
//
// Reads its input, asks `trace_input::judge`, and makes each line as a value, by a call with an array
// of its own. The contract of `cycle_line` says that the first bytes are `cycle_text` of the state and
// that the state goes on by the word; it asks that the step is not refused, which `step_taken` gives
// at each turn of the loop, whose invariant is that the state is the one after the first k words.
// `closing_line` and `refusal_line` say as much of their lines. What no contract can say is left to a
// reader of `print_trace` and `print_cycles` and to tests/trace.sh: that the reads bring the input,
// and that each line is handed to `print` once, in order, and written by it.
#![tactic(auto)]

ghost use Rattle.std.specs.Prelude.{◌≡◌, min, length, take, Ok, IfOk};
ghost use Rattle.io.specs.Counts.{IsPrefixLen};
ghost use Rattle.refusal.specs.Number.{number, number_of};
ghost use Rattle.state.specs.Fresh.{fresh_state};
ghost use Rattle.cycle.specs.Cycle.{state_after, after};
ghost use Rattle.fitting.specs.Fits.{state_number};
ghost use Rattle.engine.specs.Answer.{step_number};
ghost use Rattle.text.specs.Lines.{closing_text, refused_text};
ghost use Rattle.writer.specs.Write.{Begins};
ghost use Rattle.trace_input.specs.Input.{image_of, words_of, input_number};
ghost use Rattle.tracer.specs.Trace.{cycle_text, firings_of};

use refusal::Refusal;
use state::State;
use std::env::{Env, FillError};
use std::process::ExitCode;
use std::{fmt, io};

// The longest input that is not refused: an image of 802 bytes and 4,096 words. What is beyond is only
// counted (`tracer`'s specs/Laws/Head.antt).
const LONGEST: usize = 33570;

// Room for every line (`tracer::cycle_line`).
const LINE: usize = 1259;

// A line: the first `length` bytes. Made as a value, it has a contract, which a line that is written to
// a stream has not: each function that makes a line says which text it begins with. It is no `Vec`:
// every line has room, and no call can fail.
#[derive(Clone, Copy)]
struct Line {
    bytes: [u8; LINE],
    length: usize,
    ghost prefix: { IsPrefixLen length bytes },
}

impl Line {
    fn text(&self) -> &[u8]
        ensures { result.now ≡ take self.now.length self.now.bytes }
    {
        &self.bytes[..self.length]
    }
}

// A cycle's line, and the state after the cycle.
#[derive(Clone, Copy)]
struct Cycled {
    line: Line,
    state: State,
}

// How many bytes of a line were written, given the answer of a call that is not refused.
#[tactic(auto, using(refusal::specs::Laws::Number::number_positive))]
fn written(answer: Result<usize, Refusal>) -> usize
    requires { number_of answer ≡ 0 }
    ensures { answer ≡ Ok result }
{
    answer.unwrap_or(0)
}

// The line of a refusal. Each function that makes a line promises its own text: so what it begins with
// is no field of `Line`.
fn refusal_line(refusal: Refusal) -> Line
    ensures { Begins result.bytes result.length (refused_text (number refusal)) }
{
    let mut bytes = [0u8; LINE];
    let length = written(text::refused_line(refusal.number(), &mut bytes));
    Line { bytes, length }
}

fn cycle_line(image: &[u8], state: State, word: u64) -> Cycled
    requires { step_number image.now state word 96 96 ≡ 0 }
    ensures begins { Begins result.line.bytes result.line.length (cycle_text image.now state) }
    ensures state_value { result.state ≡ state_after image.now word state }
{
    let mut bytes = [0u8; LINE];
    match tracer::cycle_line(image, state, word, &mut bytes) {
        Ok(lined) => Cycled {
            line: Line {
                bytes,
                length: lined.length,
            },
            state: lined.state,
        },
        // The call is not refused. No `unwrap_or_else`: it would make a `Lined` of the refusal, to be
        // taken apart again.
        Err(refused) => Cycled {
            line: Line { bytes, length: 0 },
            state: refused.state,
        },
    }
}

fn closing_line(image: &[u8], state: State) -> Line
    requires { state_number image.now state ≡ 0 }
    ensures { Begins result.bytes result.length (closing_text (firings_of image.now state)) }
{
    let mut bytes = [0u8; LINE];
    let length = written(tracer::closing_line(image, state, &mut bytes));
    Line { bytes, length }
}

fn print(rt: &impl Print, line: Line) -> io::Result<()> {
    rt.write_all(line.text())
}

// Prints a line for each word, and tells the state after the last.
fn print_cycles(rt: &impl Print, image: &[u8], input: &[u8]) -> io::Result<State>
    requires image_value { image.now ≡ image_of input.now }
    requires input_value { input_number input.now (length input.now) ≡ 0 }
    ensures { IfOk result (λ state. state ≡ after image.now (fresh_state image.now) (words_of input.now)) }
{
    let mut state = State::fresh(image).unwrap_or_else(|refused| refused.state);
    // By places: over the words' bytes it would be no plainer, since what number they are `word_at`
    // says.
    for k in 0..trace_input::words(input) {
        let cycled = cycle_line(image, state, trace_input::word_at(input, k));
        state = cycled.state;
        print(rt, cycled.line)?;
    }
    Ok(state)
}

// Prints the trace of an input that is not refused.
fn print_trace(rt: &impl Print, image: &[u8], input: &[u8]) -> io::Result<()>
    requires image_value { image.now ≡ image_of input.now }
    requires input_value { input_number input.now (length input.now) ≡ 0 }
{
    rt.write_all(&text::header())?;
    let state = print_cycles(rt, image, input)?;
    print(rt, closing_line(image, state))
}

// Prints what is due for an input of `size` bytes, of which `input` are the first.
fn trace(rt: &impl Print, input: &[u8], size: u64) -> io::Result<()>
    requires { length input.now ≡ min size 33570 }
{
    match trace_input::judge(input, size) {
        Ok(()) => print_trace(rt, trace_input::image_of(input), input),
        Err(refusal) => print(rt, refusal_line(refusal)),
    }
}

// Prints a line that tells why there is no trace, or not all of it. Where that cannot be printed either, the
// status says it alone.
fn failed<D: fmt::Display + Drop>(rt: &impl Eprint, line: D) -> ExitCode {
    let _ = rt.eprintln(line);
    ExitCode::FAILURE
}

fn main(rt: HostRuntime) -> ExitCode {
    // An argument is there if it can be read, or is too long for no room. It is asked for here: a function
    // over `Env` would rest on all that the environment can do.
    if !matches!(rt.arg(1, &mut []), Err(FillError::NotPresent)) {
        return failed(&rt, "usage: trace < INPUT");
    }
    let mut bytes = [0u8; LONGEST];
    let input = match input::read_to_end(&mut rt.stdin(), &mut bytes) {
        Ok(input) => input,
        Err(unread) => return failed(&rt, format_args!("trace: {unread}")),
    };
    match trace(&rt, &bytes[..input.kept], input.length) {
        Ok(()) => ExitCode::SUCCESS,
        Err(_) => failed(&rt, "trace: standard output cannot be written"),
    }
}

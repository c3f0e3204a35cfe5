// What the trace program prints: a line for each cycle, and a closing line.
//
// `cycle_line` is a step and its line, `closing_line` the last line of a state. `trace_lines` joins
// the lines, behind the header, to `trace_of`, and `head_prints` says that this, or the line of a
// refusal, is what `printed` asks for the whole input.
#![tactic(auto)]

ghost use Rattle.std.specs.Prelude.{◌≡◌, ◌≤◌, length};
ghost use Rattle.laws.specs.Table.{table};
ghost use Rattle.state.specs.State.{firings_at};
ghost use Rattle.fitting.specs.Fits.{state_number};
ghost use Rattle.engine.specs.Answer.{step_number};
ghost use Rattle.refusal.specs.Number.{number_of};
ghost use Rattle.text.specs.Lines.{reading_in};
ghost use Rattle.writer.specs.Write.{write_told};
ghost use Rattle.tracer.specs.Done.{line_told, LineDone, ClosingDone};

use refusal::Refusal;
use relay::Reading;
use state::{Refused, State};
use std::array;

// What a call for a cycle's line answers: the state after the cycle, and how long the line is.
#[derive(Clone, Copy)]
pub struct Lined {
    pub state: State,
    pub length: usize,
}

// Each channel's reading, its letter beside its value.
fn readings(letters: &[u8; 96], values: &[i32; 96]) -> [Reading; 96]
    ensures { result ≡ table (reading_in letters.now values.now) 96 }
{
    array::from_fn(|c| Reading {
        letter: letters[c],
        value: values[c],
    })
}

// Returns the state after one cycle with a stall word and how long the cycle's line is, given an image,
// a state that fits it and room for the line, and leaves the line at the start of `out`. Refused by 1 to
// 11, then by 21, 22 and 12 like a step, then by 13 where `out` is shorter than the line, which has
// 1,259 bytes at most: then the state that was handed in is returned, and nothing is written.
// Where this is inlined LLVM takes the states apart into single numbers, and builds for minutes.
#[inline(never)]
pub fn cycle_line(image: &[u8], state: State, word: u64, out: &mut [u8]) -> Result<Lined, Refused>
    ensures line_done { LineDone image.now state word out.old (line_told result) out.new }
    ensures number_value { 1259 ≤ length out.old → (line_told result).number ≡ step_number image.now state word 96 96 }
{
    let mut letters = [0u8; 96];
    let mut values = [0i32; 96];
    // Two matches: where a state is handed on by `?`, here and below, this builds for minutes too.
    let after = match engine::step(image, state, word, &mut letters, &mut values) {
        Ok(after) => after,
        Err(refused) => return Err(refused),
    };
    let channels = image::channels(image) as usize;
    let shown = readings(&letters, &values);
    match text::cycle_line(state.cycles, &shown[..channels], out) {
        Ok(length) => Ok(Lined {
            length,
            state: after,
        }),
        Err(refusal) => Err(Refused { refusal, state }),
    }
}

// Each node's firings, 0 for nodes that are not there.
fn firings_of(state: State) -> [u32; 64]
    ensures { result ≡ table (firings_at state) 64 }
{
    array::from_fn(|n| state.nodes[n].firings)
}

// Returns how long the closing line after a state is, given an image, a state that fits it and room for
// the line, and leaves the line at the start of `out`. Refused by 1 to 11, then by 21, then by 13 where
// `out` is shorter than the line, which has 710 bytes at most: then nothing is written.
pub fn closing_line(image: &[u8], state: State, out: &mut [u8]) -> Result<usize, Refusal>
    ensures closing_done { ClosingDone image.now state out.old (write_told result) out.new }
    ensures number_value { 710 ≤ length out.old → number_of result ≡ state_number image.now state }
{
    let netlist = engine::fitted(image, &state)?;
    let nodes = netlist.nodes() as usize;
    let firings = firings_of(state);
    text::closing_line(&firings[..nodes], out)
}

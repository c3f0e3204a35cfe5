// The cycle engine: one step of a state, and a run over a list of stall words.
//
// Both judge the image and make their cycles by one function, `clock::run`, which tests 21, and 22 and
// 12 before each word. A step is a run of one word, from whose state the letters and values are written
// then (`readings::show`): its 13 comes last.
#![tactic(auto)]

ghost use Rattle.std.specs.Prelude.{◌≡◌, IfOk};
ghost use Rattle.refusal.specs.Number.{number_of};
ghost use Rattle.fitting.specs.Fits.{state_number};
ghost use Rattle.cycle.specs.Run.{RunDone};
ghost use Rattle.clock.specs.Told.{run_told};
ghost use Rattle.engine.specs.Answer.{step_told, StepDone};

use clock::Ran;
use netlist::Netlist;
use refusal::Refusal;
use state::{Refused, State};

// Returns the netlist of an image, given a state that fits it. Refused by 1 to 11, then by 21 where the
// state does not fit. Image and state are two parameters here, as C hands them over. The clauses
// `number` and `same` tie the netlist to the image that was handed in.
pub fn fitted<'a>(image: &'a [u8], state: &State) -> Result<Netlist<'a>, Refusal>
    ensures number { number_of result ≡ state_number image.entry.now state.now }
    ensures same { IfOk result (λ netlist. netlist.image ≡ image.entry) }
{
    let netlist = Netlist::judged(image)?;
    if !fitting::fits(netlist, state) {
        return Err(Refusal::Misfit);
    }
    Ok(netlist)
}

// Returns the state after one cycle with a stall word, given an image, a state that fits it and arrays
// of at least C places, and leaves the C letters and the C values of the cycle in their first places.
// Refused by 1 to 11, then by 21, 22, 12 and 13: then the state that was handed in is returned, and
// nothing is written. Letters and values are two lent arrays, as C lends them.
// Where this is inlined LLVM takes the states apart into single numbers, and builds for minutes.
#[inline(never)]
pub fn step(
    image: &[u8],
    state: State,
    word: u64,
    letters: &mut [u8],
    values: &mut [i32],
) -> Result<State, Refused>
    ensures { StepDone image.now state word letters.old values.old (step_told result) letters.new values.new }
{
    let netlist = match Netlist::judged(image) {
        Ok(netlist) => netlist,
        Err(refusal) => return Err(Refused { state, refusal }),
    };
    let ran = clock::run(netlist, state, &[word]);
    if let Some(refusal) = ran.stopped {
        return Err(Refused { state, refusal });
    }
    match readings::show(netlist, state, letters, values) {
        Ok(()) => Ok(ran.state),
        Err(refusal) => Err(Refused { state, refusal }),
    }
}

// Returns the steps done, the state after them and what stopped the run, given an image, a state that
// fits it and stall words: one cycle for each, in order, up to the first that is refused. Refused by 1
// to 11 and then 21 once, before the first word, and by 22 and then 12 before each word.
pub fn run(image: &[u8], state: State, words: &[u64]) -> Ran
    ensures { RunDone image.now state words.now (run_told result) }
{
    match Netlist::judged(image) {
        Ok(netlist) => clock::run(netlist, state, words),
        Err(refusal) => Ran {
            steps: 0,
            state,
            stopped: Some(refusal),
        },
    }
}

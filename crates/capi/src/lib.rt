// Channel Bench for C and Rust: the functions of the static library, on numbers, bytes and arrays of
// numbers. `include/channel_bench.h` declares them; crate `capi_c` exports them. What the bytes of a state
// are is told in `layout`: where each part stands (specs/Places.antt), how it is written and what bytes
// are read as (specs/Bytes.antt). The header has the same for C.
//
// Each but the edition answers 0, or the number that refuses the call. What it answers beside that it
// stores through its last references.
//
// A function reads the state or the records out of the bytes (`decode`), calls the crate that does the
// work, and writes them back if the call was accepted (`encode`). Nothing is judged here: too few bytes
// for a state, or bytes of a wrong length for a record, are read as one that fits nothing, so that
// number 21, its place in the order, and all that a refusal leaves come from the crates below. The
// contracts are their definitions on `state_in bytes`, `record_in bytes` and `row_in bytes`.
//
// That readers and writers agree is said by none of the contracts: two wrong ones would fit each
// other. `state_back` says it (proofs/Back.antt of `layout`): a reader does not mind what stands
// before its place (`node_behind`) and finds what was written there (`node_front`); `each_back` makes
// of these two that it finds each of a list of records. So lists of calls on bytes obey the token rule
// (`token_rule_c`).
#![tactic(auto)]

ghost use Rattle.std.specs.Prelude.{[], ◌∷◌, ◌≡◌, length};
ghost use Rattle.verdict.specs.Judge.{judge};
ghost use Rattle.refusal.specs.Number.{number_of, number_if};
ghost use Rattle.strict.specs.Answer.{strict_number, strict_written};
ghost use Rattle.bench.specs.Bench.{told as bench_told};
ghost use Rattle.text.specs.Trace.{header};
ghost use Rattle.layout.specs.Bytes.{record_in, row_in};
ghost use Rattle.capi.specs.Edition.{edition};
ghost use Rattle.capi.specs.Calls.{FreshCall, StepCall, RunCall, LineCall, ClosingCall, TextCall, BenchCall};

use bench::Answer;
use refusal::Refusal;
use state::State;

// The edition that the header has as CHANNEL_BENCH_EDITION.
const EDITION: u32 = 1;

// Returns the edition of the calls, which a program compares with that of its header, and of the
// library that made a state which it has kept.
pub fn channel_bench_edition() -> u32
    ensures { result ≡ edition }
{
    EDITION
}

// The number that C is told of an answer, 0 if it is no refusal.
fn number<T: Copy>(answer: Result<T, Refusal>) -> u8
    ensures { result ≡ number_of answer }
{
    stop_number(answer.err())
}

// The number that C is told of what refused a call or stopped a run, 0 if nothing did.
fn stop_number(stopped: Option<Refusal>) -> u8
    ensures { result ≡ number_if stopped }
{
    stopped.map_or(0, Refusal::number)
}

// Returns 0 if an image is accepted, else the first of 1 to 11 that it has a cause for.
pub fn channel_bench_judge(image: &[u8]) -> u8
    ensures { result ≡ judge image.now }
{
    number(verdict::judge(image))
}

// Returns 0, given an image and as many bytes as a state has, and leaves the image's fresh state in the
// first bytes of `state`. Refused by 1 to 11, and then leaves zeros there; where there are fewer bytes
// nothing is written, and the number is 13 if it is none of these.
pub fn channel_bench_fresh(image: &[u8], state: &mut [u8]) -> u8
    ensures { FreshCall image.now state.old result state.new }
{
    match State::fresh(image) {
        Ok(fresh) => number(encode::put_state(fresh, state)),
        Err(refused) => {
            // The judge's number stands, whether or not there is room.
            let _ = encode::put_state(refused.state, state);
            refused.refusal.number()
        }
    }
}

// Returns 0, given an image, a state that fits it, a stall word and arrays of at least C places, and
// leaves the state after one cycle in `state`, and the C letters and the C values of the cycle in the
// first places of `letters` and `values`. Refused by 1 to 11, then by 21, 22, 12 and 13: then nothing is
// written.
pub fn channel_bench_step(
    image: &[u8],
    state: &mut [u8],
    word: u64,
    letters: &mut [u8],
    values: &mut [i32],
) -> u8
    ensures { StepCall image.now state.old word letters.old values.old result state.new letters.new values.new }
{
    match engine::step(image, decode::state_in(state), word, letters, values) {
        Ok(after) => number(encode::put_state(after, state)),
        Err(refused) => refused.refusal.number(),
    }
}

// Returns 0, given an image, a state that fits it and stall words, and leaves the state after one cycle
// for each word, in order, in `state`, and how many cycles were made in `steps`. Refused by 1 to 11 and
// then 21 once, and by 22 and then 12 before each word: the cycles before that word are made.
pub fn channel_bench_run(image: &[u8], state: &mut [u8], words: &[u64], steps: &mut u32) -> u8
    ensures { RunCall image.now state.old words.now result steps.new state.new }
{
    let ran = engine::run(image, decode::state_in(state), words);
    let number = stop_number(ran.stopped);
    *steps = ran.steps;
    // In this and the benches there is room: what is stored was read from as many bytes.
    if ran.steps != 0 {
        let _ = encode::put_state(ran.state, state);
    }
    number
}

// Returns 0, given an image, a cycle up to 1,000,000 and at least N places, and leaves the strict values
// of all N nodes in that cycle in the first places of `values`. Refused by 1 to 11, then by 14 for a
// later cycle and by 13 for fewer places: then nothing is written.
pub fn channel_bench_strict(image: &[u8], cycle: u32, values: &mut [i32]) -> u8
    ensures value { result ≡ strict_number image.now cycle (length values.old) }
    ensures values_after { values.new ≡ strict_written image.now cycle values.old }
{
    number(strict::strict(image, cycle, values))
}

// Returns 0, given room for it, and leaves the header line, the first line of every trace, at the start
// of `out`, and how long it is in `length`. Refused by 13 where `out` is shorter: then nothing is
// written, and `length` is 0.
pub fn channel_bench_header_line(out: &mut [u8], length: &mut usize) -> u8
    ensures { TextCall header out.old result length.new out.new }
{
    let line = text::header_line(out);
    *length = line.unwrap_or(0);
    number(line)
}

// Returns 0, given an image, a state that fits it, a stall word and room for the line, and leaves the
// state after one cycle in `state`, the cycle's line at the start of `out`, and how long it is in
// `length`. Refused by 1 to 11, then by 21, 22 and 12, then by 13 where `out` is shorter: then nothing
// is written, and `length` is 0.
pub fn channel_bench_cycle_line(
    image: &[u8],
    state: &mut [u8],
    word: u64,
    out: &mut [u8],
    length: &mut usize,
) -> u8
    ensures { LineCall image.now state.old word out.old result length.new state.new out.new }
{
    *length = 0;
    match tracer::cycle_line(image, decode::state_in(state), word, out) {
        Ok(line) => {
            *length = line.length;
            number(encode::put_state(line.state, state))
        }
        Err(unwritten) => unwritten.refusal.number(),
    }
}

// Returns 0, given an image, a state that fits it and room for the line, and leaves the closing line
// after that state at the start of `out`, and how long it is in `length`. Refused by 1 to 11, then by
// 21, then by 13 where `out` is shorter: then nothing is written, and `length` is 0.
pub fn channel_bench_closing_line(
    image: &[u8],
    state: &[u8],
    out: &mut [u8],
    length: &mut usize,
) -> u8
    ensures { ClosingCall image.now state.now out.old result length.new out.new }
{
    *length = 0;
    match tracer::closing_line(image, decode::state_in(state), out) {
        Ok(written) => {
            *length = written;
            0
        }
        Err(refusal) => refusal.number(),
    }
}

// The number that C is told of a bench; the rest of its answer is stored. A bench that is refused tells
// 0, 0 and no beside its number.
#[tactic(auto, unfolding(bench::specs::Bench::refusal))]
fn tell(answer: Result<Answer, Refusal>, letter: &mut u8, shown: &mut i32, taken: &mut bool) -> u8
    ensures { record { number = result; letter = letter.new; value = shown.new; taken = taken.new } ≡ bench_told answer }
{
    match answer {
        Ok(answer) => {
            *letter = answer.letter;
            *shown = answer.value;
            *taken = answer.taken;
            0
        }
        Err(refusal) => {
            *letter = 0;
            *shown = 0;
            *taken = false;
            refusal.number()
        }
    }
}

// Returns 0, given a station record, the incoming link as a bit and a value, and the stop below, and
// leaves the station after one cycle in `station`, the letter and value of the leaving link in `letter`
// and `shown`, and whether the incoming token was taken in `taken`. Refused by 21 where the record is
// not whole, its count is over 2 or an unused token is not 0: then the record stays, and 0, 0 and no are
// stored.
pub fn channel_bench_station(
    station: &mut [u8],
    valid: bool,
    value: i32,
    stop: bool,
    letter: &mut u8,
    shown: &mut i32,
    taken: &mut bool,
) -> u8
    ensures { BenchCall (record_in station.old ∷ []) station.old valid value stop result letter.new shown.new taken.new station.new }
{
    let mut record = decode::record_in(station);
    let link = valid.then_some(value);
    let answer = bench::station_bench(&mut record, link, stop);
    let number = tell(answer, letter, shown, taken);
    if answer.is_ok() {
        let _ = encode::put_records(&[record], station);
    }
    number
}

// Returns 0, given a row of station records, the first nearest to the incoming link, that link as a bit
// and a value, and the stop below, and leaves the row after one cycle in `row`, the letter and value of
// the leaving link in `letter` and `shown`, and whether the incoming token was taken in `taken`. Refused
// by 15 for no records or over 8, then by 21 for a record that is not whole, has a count over 2 or a
// nonzero unused token: then the row stays, and 0, 0 and no are stored.
pub fn channel_bench_row(
    row: &mut [u8],
    valid: bool,
    value: i32,
    stop: bool,
    letter: &mut u8,
    shown: &mut i32,
    taken: &mut bool,
) -> u8
    ensures { BenchCall (row_in row.old) row.old valid value stop result letter.new shown.new taken.new row.new }
{
    let mut records = decode::row_in(row);
    let count = decode::record_count(row).min(records.len());
    let link = valid.then_some(value);
    let answer = bench::row_bench(&mut records[..count], link, stop);
    let number = tell(answer, letter, shown, taken);
    if answer.is_ok() {
        let _ = encode::put_records(&records[..count], row);
    }
    number
}

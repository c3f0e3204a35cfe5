// Channel Bench for C and Rust: the static library. It exports the functions of crate `capi` under their
// names, with what each ensures there. `include/channel_bench.h` declares them.
//
// Each function is a call of the one of that name in `capi`: a crate that others use cannot be a
// static library itself.
#![tactic(auto)]

ghost use Rattle.std.specs.Prelude.{[], ◌∷◌, ◌≡◌, length};
ghost use Rattle.verdict.specs.Judge.{judge};
ghost use Rattle.strict.specs.Answer.{strict_number, strict_written};
ghost use Rattle.text.specs.Trace.{header};
ghost use Rattle.layout.specs.Bytes.{record_in, row_in};
ghost use Rattle.capi.specs.Edition.{edition};
ghost use Rattle.capi.specs.Calls.{FreshCall, StepCall, RunCall, LineCall, ClosingCall, TextCall, BenchCall};

// Returns the edition of the calls, which a program compares with that of its header, and of the
// library that made a state which it has kept.
#[unsafe(no_mangle)]
pub extern "C" fn channel_bench_edition() -> u32
    ensures { result ≡ edition }
{
    capi::channel_bench_edition()
}

// Returns 0 if an image is accepted, else the first of 1 to 11 that it has a cause for.
#[unsafe(no_mangle)]
pub extern "C" fn channel_bench_judge(image: &[u8]) -> u8
    ensures { result ≡ judge image.now }
{
    capi::channel_bench_judge(image)
}

// Returns 0, given an image and as many bytes as a state has, and leaves the image's fresh state in the
// first bytes of `state`. Refused by 1 to 11, and then leaves zeros there; where there are fewer bytes
// nothing is written, and the number is 13 if it is none of these.
#[unsafe(no_mangle)]
pub extern "C" fn channel_bench_fresh(image: &[u8], state: &mut [u8]) -> u8
    ensures { FreshCall image.now state.old result state.new }
{
    capi::channel_bench_fresh(image, state)
}

// Returns 0, given an image, a state that fits it, a stall word and arrays of at least C places, and
// leaves the state after one cycle in `state`, and the C letters and the C values of the cycle in the
// first places of `letters` and `values`. Refused by 1 to 11, then by 21, 22, 12 and 13: then nothing is
// written.
#[unsafe(no_mangle)]
pub extern "C" fn channel_bench_step(
    image: &[u8],
    state: &mut [u8],
    word: u64,
    letters: &mut [u8],
    values: &mut [i32],
) -> u8
    ensures { StepCall image.now state.old word letters.old values.old result state.new letters.new values.new }
{
    capi::channel_bench_step(image, state, word, letters, values)
}

// Returns 0, given an image, a state that fits it and stall words, and leaves the state after one cycle
// for each word, in order, in `state`, and how many cycles were made in `steps`. Refused by 1 to 11 and
// then 21 once, and by 22 and then 12 before each word: the cycles before that word are made.
#[unsafe(no_mangle)]
pub extern "C" fn channel_bench_run(
    image: &[u8],
    state: &mut [u8],
    words: &[u64],
    steps: &mut u32,
) -> u8
    ensures { RunCall image.now state.old words.now result steps.new state.new }
{
    capi::channel_bench_run(image, state, words, steps)
}

// Returns 0, given an image, a cycle up to 1,000,000 and at least N places, and leaves the strict values
// of all N nodes in that cycle in the first places of `values`. Refused by 1 to 11, then by 14 for a
// later cycle and by 13 for fewer places: then nothing is written.
#[unsafe(no_mangle)]
pub extern "C" fn channel_bench_strict(image: &[u8], cycle: u32, values: &mut [i32]) -> u8
    ensures value { result ≡ strict_number image.now cycle (length values.old) }
    ensures values_after { values.new ≡ strict_written image.now cycle values.old }
{
    capi::channel_bench_strict(image, cycle, values)
}

// Returns 0, given room for it, and leaves the header line, the first line of every trace, at the start
// of `out`, and how long it is in `length`. Refused by 13 where `out` is shorter: then nothing is
// written, and `length` is 0.
#[unsafe(no_mangle)]
pub extern "C" fn channel_bench_header_line(out: &mut [u8], length: &mut usize) -> u8
    ensures { TextCall header out.old result length.new out.new }
{
    capi::channel_bench_header_line(out, length)
}

// Returns 0, given an image, a state that fits it, a stall word and room for the line, and leaves the
// state after one cycle in `state`, the cycle's line at the start of `out`, and how long it is in
// `length`. Refused by 1 to 11, then by 21, 22 and 12, then by 13 where `out` is shorter: then nothing
// is written, and `length` is 0.
#[unsafe(no_mangle)]
pub extern "C" fn channel_bench_cycle_line(
    image: &[u8],
    state: &mut [u8],
    word: u64,
    out: &mut [u8],
    length: &mut usize,
) -> u8
    ensures { LineCall image.now state.old word out.old result length.new state.new out.new }
{
    capi::channel_bench_cycle_line(image, state, word, out, length)
}

// Returns 0, given an image, a state that fits it and room for the line, and leaves the closing line
// after that state at the start of `out`, and how long it is in `length`. Refused by 1 to 11, then by
// 21, then by 13 where `out` is shorter: then nothing is written, and `length` is 0.
#[unsafe(no_mangle)]
pub extern "C" fn channel_bench_closing_line(
    image: &[u8],
    state: &[u8],
    out: &mut [u8],
    length: &mut usize,
) -> u8
    ensures { ClosingCall image.now state.now out.old result length.new out.new }
{
    capi::channel_bench_closing_line(image, state, out, length)
}

// Returns 0, given a station record, the incoming link as a bit and a value, and the stop below, and
// leaves the station after one cycle in `station`, the letter and value of the leaving link in `letter`
// and `shown`, and whether the incoming token was taken in `taken`. Refused by 21 where the record is
// not whole, its count is over 2 or an unused token is not 0: then the record stays, and 0, 0 and no are
// stored.
#[unsafe(no_mangle)]
pub extern "C" fn channel_bench_station(
    station: &mut [u8],
    valid: bool,
    value: i32,
    stop: bool,
    letter: &mut u8,
    shown: &mut i32,
    taken: &mut bool,
) -> u8
    ensures { BenchCall (record_in station.old ∷ []) station.old valid value stop result letter.new shown.new taken.new station.new }
{
    capi::channel_bench_station(station, valid, value, stop, letter, shown, taken)
}

// Returns 0, given a row of station records, the first nearest to the incoming link, that link as a bit
// and a value, and the stop below, and leaves the row after one cycle in `row`, the letter and value of
// the leaving link in `letter` and `shown`, and whether the incoming token was taken in `taken`. Refused
// by 15 for no records or over 8, then by 21 for a record that is not whole, has a count over 2 or a
// nonzero unused token: then the row stays, and 0, 0 and no are stored.
#[unsafe(no_mangle)]
pub extern "C" fn channel_bench_row(
    row: &mut [u8],
    valid: bool,
    value: i32,
    stop: bool,
    letter: &mut u8,
    shown: &mut i32,
    taken: &mut bool,
) -> u8
    ensures { BenchCall (row_in row.old) row.old valid value stop result letter.new shown.new taken.new row.new }
{
    capi::channel_bench_row(row, valid, value, stop, letter, shown, taken)
}

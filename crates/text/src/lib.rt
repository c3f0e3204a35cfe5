// The trace as text: its header, a line for each cycle and the closing line; and the line of a
// refusal.
//
// Each writer puts its line at the start of the slice that it is lent and leaves all that follows as
// it was; the answer is how long the line is. Where the slice is shorter than the line it refuses and
// writes nothing; so a line is measured before it is written.
//
// A line is two parts and a line feed: the cycle's number and the channels' readings, or a label and
// numbers. A writer first measures both parts (their lengths are taken from the room, cut off at 0:
// `room_after`) and refuses with 13 if nothing is left for the line feed; then it stores them one
// after the other (`line`). The header is the same bytes in every trace, and stands as they are. What
// goes into a line is a `Text`, a trait with its ghost text, which is measured and stored item by item.
// Digits come from `io::decimal`; `digits_decimal` says that they are `decimal`. Measuring also gives
// how much room is always enough, since a value of 32 bits takes 11 bytes at most: the second clause of
// a writer's contract.
//
// Whoever checks or converts traces and has no engine takes this crate alone: `trace_text` is the form
// of a trace, whoever printed it.
#![tactic(auto)]

ghost use mathlib.Core.List.{List, ◌++◌, flat_map};
ghost use Rattle.std.specs.Prelude.{◌≡◌, ℕ, ◌+◌, ◌*◌, ◌-◌, ◌<◌, ◌≤◌, length};
ghost use Rattle.refusal.specs.Number.{number_of};
ghost use Rattle.text.specs.Ascii.{ascii};
ghost use Rattle.text.specs.Decimal.{decimal, signed_text};
ghost use Rattle.text.specs.Lines.{shows_value, reading_text, line_text, count_text, labelled_text, closing_text, refused_text};
ghost use Rattle.text.specs.Trace.{header};
ghost use Rattle.writer.specs.Write.{WriteDone};
ghost use Rattle.writer.specs.Put.{Put};

use refusal::Refusal;
use relay::Reading;

// A way to write items of a type as text, each from a place of a slice on. It tells how many bytes an
// item takes, and how many at most.
trait Text<T: Copy> {
    ghost text: { T → List ℕ };

    ghost longest: { ℕ };

    fn size(item: T) -> usize
        ensures { (result ≡ length (text item)) × (result ≤ longest) };

    fn put(item: T, out: &mut [u8], at: usize) -> usize
        requires { at + length (text item) ≤ length out.old }
        ensures { Put (text item) at out.old out.new result };
}

// What items leave of a room, 0 where it does not suffice.
fn room_after<F: Text<T>, T: Copy>(room: usize, items: &[T]) -> usize
    ensures value { result ≡ room - length (flat_map F.text items.now) }
    ensures room_bound { room ≤ result + F.longest * length items.now }
{
    let mut left = room;
    for item in items {
        left = left.saturating_sub(F::size(*item));
    }
    left
}

#[tactic(auto, using(crate::specs::Laws::Decimal::digits_decimal, writer::specs::Laws::Put::put_done))]
fn put_decimal(n: u64, out: &mut [u8], at: usize) -> usize
    requires { at + length (decimal n) ≤ length out.old }
    ensures { Put (decimal n) at out.old out.new result }
{
    let mut text = [0u8; 20];
    let count = io::decimal(n, &mut text);
    writer::put(&text[..count], out, at)
}

// How many digits a number has in decimal.
fn digits(n: u64) -> usize
    ensures { (result ≡ length (decimal n)) × (result ≤ 20) }
{
    n.checked_ilog10().unwrap_or(0) as usize + 1
}

// Stores a value in decimal with its sign, and tells the place after it. `io::decimal` is for numbers
// from 0 on, and the library's writers of signed numbers speak of another definition of decimals.
#[tactic(auto, using(writer::specs::Laws::Put::put_steps, crate::specs::Laws::Decimal::signed_minus, crate::specs::Laws::Decimal::signed_plain))]
fn put_signed(value: i32, out: &mut [u8], at: usize) -> usize
    requires { at + length (signed_text value) ≤ length out.old }
    ensures { Put (signed_text value) at out.old out.new result }
{
    let distance = value.unsigned_abs() as u64;
    if value < 0 {
        out[at] = b'-';
        return put_decimal(distance, out, at + 1);
    }
    put_decimal(distance, out, at)
}

// How many bytes a token's value takes, a minus sign included.
fn signed_length(token: i32) -> usize
    ensures { (result ≡ length (signed_text token)) × (result ≤ 11) }
{
    let count = digits(token.unsigned_abs() as u64);
    if token < 0 { count + 1 } else { count }
}

// Whether a letter stands with its value. It is a byte, as C is handed it.
#[tactic(auto, unfolding(crate::specs::Lines::shows_value))]
fn shows_value(letter: u8) -> bool
    ensures { result ≡ shows_value letter }
{
    (letter == b'T') | (letter == b'R')
}

// The readings of a cycle's line.
struct Readings;

impl Text<Reading> for Readings {
    ghost text = { reading_text };

    ghost longest = { 13 };

    #[tactic(auto, unfolding(crate::specs::Lines::reading_text))]
    fn size(item: Reading) -> usize {
        if shows_value(item.letter) {
            return 2 + signed_length(item.value);
        }
        2
    }

    #[tactic(auto, using(writer::specs::Laws::Put::put_steps), unfolding(crate::specs::Lines::reading_text))]
    fn put(item: Reading, out: &mut [u8], at: usize) -> usize {
        out[at] = b' ';
        out[at + 1] = item.letter;
        if shows_value(item.letter) {
            return put_signed(item.value, out, at + 2);
        }
        at + 2
    }
}

// The numbers of a labelled line.
struct Counts;

impl Text<u32> for Counts {
    ghost text = { count_text };

    ghost longest = { 11 };

    fn size(item: u32) -> usize {
        1 + digits(item as u64)
    }

    #[tactic(auto, using(writer::specs::Laws::Put::put_steps), unfolding(crate::specs::Lines::count_text))]
    fn put(item: u32, out: &mut [u8], at: usize) -> usize {
        out[at] = b' ';
        put_decimal(item as u64, out, at + 1)
    }
}

// ---- the lines. Each contract names its own text, and the room that is always enough for it: no one
// value, so no struct holds them.

// Returns the header line, the first line of every trace.
#[tactic(auto, unfolding(crate::specs::Trace::header, crate::specs::Ascii::ascii))]
pub fn header() -> [u8; 13]
    ensures { result ≡ header }
{
    *b"cycle states\n"
}

// Returns how long the header line is, and leaves it at the start of `out`. Refused by 13 where `out` is
// shorter than the line: then nothing is written.
pub fn header_line(out: &mut [u8]) -> Result<usize, Refusal>
    ensures { WriteDone header out.old result out.new }
{
    let line = header();
    if out.len() < line.len() {
        return Err(Refusal::Room);
    }
    Ok(writer::put(&line, out, 0))
}

// A line that begins with `first` and goes on with the items.
fn line<F: Text<T>, T: Copy>(first: &[u8], items: &[T], out: &mut [u8]) -> Result<usize, Refusal>
    ensures write_done { WriteDone (first.now ++ (flat_map F.text items.now ++ ascii "\n")) out.old result out.new }
    ensures number_value { length first.now + F.longest * length items.now < length out.old → number_of result ≡ 0 }
{
    let room = out.len().saturating_sub(first.len());
    if room_after::<F, T>(room, items) == 0 {
        return Err(Refusal::Room);
    }
    let behind = writer::put(first, out, 0);
    let mut end = behind;
    for item in items {
        end = F::put(*item, out, end);
    }
    out[end] = b'\n';
    Ok(end + 1)
}

// Returns how long a cycle's line is, given the cycle's number and each channel's reading, and leaves
// the line at the start of `out`: the number, and each channel's letter with its value for T and R.
// Refused by 13 where `out` is shorter than the line: then nothing is written. 11 bytes and 13 for each
// channel are always enough.
pub fn cycle_line(cycle: u32, readings: &[Reading], out: &mut [u8]) -> Result<usize, Refusal>
    ensures write_done { WriteDone (line_text cycle readings.now) out.old result out.new }
    ensures number_value { 11 + 13 * length readings.now ≤ length out.old → number_of result ≡ 0 }
{
    let mut number = [0u8; 20];
    let count = io::decimal(cycle as u64, &mut number);
    line::<Readings, Reading>(&number[..count], readings, out)
}

// Returns how long the closing line is, given each node's firings, and leaves the line at the start of
// `out`. Refused by 13 where `out` is shorter than the line: then nothing is written. 6 bytes and 11 for
// each node are always enough.
#[tactic(auto, unfolding(crate::specs::Lines::closing_text, crate::specs::Lines::labelled_text, crate::specs::Ascii::ascii))]
pub fn closing_line(firings: &[u32], out: &mut [u8]) -> Result<usize, Refusal>
    ensures write_done { WriteDone (closing_text firings.now) out.old result out.new }
    ensures number_value { 6 + 11 * length firings.now ≤ length out.old → number_of result ≡ 0 }
{
    line::<Counts, u32>(b"fired", firings, out)
}

// Returns how long the line of a refusal is, given the refusal's number, and leaves the line at the
// start of `out`. Refused by 13 where `out` is shorter than the line: then nothing is written. 19 bytes
// are always enough. The number is any: a `Refusal` would ask more of the caller.
#[tactic(auto, unfolding(crate::specs::Lines::refused_text, crate::specs::Lines::labelled_text, crate::specs::Ascii::ascii))]
pub fn refused_line(number: u8, out: &mut [u8]) -> Result<usize, Refusal>
    ensures write_done { WriteDone (refused_text number) out.old result out.new }
    ensures number_value { 19 ≤ length out.old → number_of result ≡ 0 }
{
    line::<Counts, u32>(b"refused", &[number as u32], out)
}

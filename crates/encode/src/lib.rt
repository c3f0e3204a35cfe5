// A state and station records as bytes, written to the first places of what is lent.
//
// Both writers are total: they answer how many bytes were written, or 13 where too few are lent, and
// then write nothing (`WriteDone`, as the lines of a trace do). They store part by part with `Put`,
// each part from the place after the one before. A writer of a part is given a place with enough room
// behind it, and so is private; the answer is the place after the part. One loop writes items, whatever
// they are (`put_all`): each kind is `Bytes`, a trait with its ghost bytes.
//
// What they write has the same length for every state, since the definitions count places and not the
// elements of a list (`each node_bytes (node_at s) 64`): no fact about a state is needed to say where a
// part stands.
#![tactic(auto)]

ghost use mathlib.Core.List.{List, flat_map, ◌++◌};
ghost use Rattle.std.specs.Prelude.{[], ◌∷◌, ◌≡◌, ℕ, ◌+◌, ◌≤◌, length};
ghost use Rattle.writer.specs.Put.{Put};
ghost use Rattle.writer.specs.Write.{WriteDone};
ghost use Rattle.numbers.specs.Numbers.{number_bytes, signed_bytes};
ghost use Rattle.layout.specs.Places.{state_length};
ghost use Rattle.layout.specs.Bytes.{node_bytes, station_bytes, queue_bytes, state_bytes};

use layout::{RECORD, STATE};
use refusal::Refusal;
use relay::Station;
use shell::Queue;
use state::{Node, State};

// A way to write items of a type as bytes, each from a place of a slice on.
trait Bytes<T: Copy> {
    ghost bytes: { T → List ℕ };

    fn put(item: T, out: &mut [u8], at: usize) -> usize
        requires { at + length (bytes item) ≤ length out.old }
        ensures { Put (bytes item) at out.old out.new result };
}

// Stores items one after another, and tells the place after them.
#[tactic(auto, using(writer::specs::Laws::Items::put_inside))]
fn put_all<F: Bytes<T>, T: Copy>(items: &[T], out: &mut [u8], at: usize) -> usize
    requires { at + length (flat_map F.bytes items.now) ≤ length out.old }
    ensures { Put (flat_map F.bytes items.now) at out.old out.new result }
{
    let mut end = at;
    for item in items {
        end = F::put(*item, out, end);
    }
    end
}

// Stores bytes, given room for them, and tells the place after them. `writer::put` asks for no room and
// tests for it, here at each of a state's numbers: a step on bytes took a tenth longer.
#[tactic(auto, using(writer::specs::Laws::Put::put_part))]
fn put_bytes(bytes: &[u8], out: &mut [u8], at: usize) -> usize
    requires { at + length bytes.now ≤ length out.old }
    ensures { Put bytes.now at out.old out.new result }
{
    let end = at + bytes.len();
    out[at..end].copy_from_slice(bytes);
    end
}

// Numbers of 32 bits as bytes.
struct Numbers;

impl Bytes<u32> for Numbers {
    ghost bytes = { number_bytes };

    fn put(item: u32, out: &mut [u8], at: usize) -> usize {
        put_bytes(&numbers::number_bytes(item), out, at)
    }
}

// Signed numbers of 32 bits as bytes.
struct Signed;

impl Bytes<i32> for Signed {
    ghost bytes = { signed_bytes };

    fn put(item: i32, out: &mut [u8], at: usize) -> usize {
        put_bytes(&numbers::signed_bytes(item), out, at)
    }
}

struct Nodes;

impl Bytes<Node> for Nodes {
    ghost bytes = { node_bytes };

    fn put(item: Node, out: &mut [u8], at: usize) -> usize {
        let firings = Signed::put(item.value, out, at);
        Numbers::put(item.firings, out, firings)
    }
}

// Stores tokens, and then how many of them are held, and tells the place after them.
#[tactic(auto, using(writer::specs::Laws::Put::put_steps))]
fn put_counted(tokens: &[i32], count: u8, out: &mut [u8], at: usize) -> usize
    requires { at + length (flat_map signed_bytes tokens.now ++ (count ∷ [])) ≤ length out.old }
    ensures { Put (flat_map signed_bytes tokens.now ++ (count ∷ [])) at out.old out.new result }
{
    let end = put_all::<Signed, i32>(tokens, out, at);
    out[end] = count;
    end + 1
}

struct Stations;

impl Bytes<Station> for Stations {
    ghost bytes = { station_bytes };

    fn put(item: Station, out: &mut [u8], at: usize) -> usize {
        let tokens = item.tokens;
        put_counted(&tokens, item.count, out, at)
    }
}

struct Queues;

impl Bytes<Queue> for Queues {
    ghost bytes = { queue_bytes };

    fn put(item: Queue, out: &mut [u8], at: usize) -> usize {
        let tokens = item.tokens;
        put_counted(&tokens, item.count, out, at)
    }
}

// Stores the parts of a state, one after another, and tells the place after them.
fn put_parts(state: State, out: &mut [u8]) -> usize
    requires { state_length ≤ length out.old }
    ensures { Put (state_bytes state) 0 out.old out.new result }
{
    let first = Numbers::put(state.cycles, out, 0);
    let second = put_all::<Nodes, Node>(&state.nodes, out, first);
    let third = put_bytes(&state.pending, out, second);
    let fourth = put_all::<Stations, Station>(&state.stations, out, third);
    put_all::<Queues, Queue>(&state.queues, out, fourth)
}

// Returns how many bytes a state takes, and leaves it at the start of `out`, given room for it. Refused
// by 13 where fewer bytes are lent: then nothing is written.
pub fn put_state(state: State, out: &mut [u8]) -> Result<usize, Refusal>
    ensures { WriteDone (state_bytes state) out.old result out.new }
{
    if out.len() < STATE {
        return Err(Refusal::Room);
    }
    Ok(put_parts(state, out))
}

// Returns how many bytes station records take, and leaves them at the start of `out`, one after another,
// given room for them. Refused by 13 where fewer bytes are lent: then nothing is written.
pub fn put_records(records: &[Station], out: &mut [u8]) -> Result<usize, Refusal>
    ensures { WriteDone (flat_map station_bytes records.now) out.old result out.new }
{
    if out.len() / RECORD < records.len() {
        return Err(Refusal::Room);
    }
    Ok(put_all::<Stations, Station>(records, out, 0))
}

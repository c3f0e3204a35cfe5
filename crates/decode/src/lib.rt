// A state and station records from bytes, at the places that `layout` names. A reader is given a place
// with all its bytes behind it. One that is given a chunk of its own size would be no plainer: the
// definitions name places (`layout`'s specs/Bytes.antt), and nodes, stations and queues would each need
// a law that takes a chunk to its place.
#![tactic(auto)]

ghost use Rattle.std.specs.Prelude.{[], ◌≡◌, ◌+◌, ◌*◌, ◌≤◌, length, get_or, min};
ghost use Rattle.laws.specs.Lists.{padded};
ghost use Rattle.laws.specs.Table.{table};
ghost use Rattle.numbers.specs.Numbers.{four_bytes};
ghost use Rattle.relay.specs.Station.{station_of};
ghost use Rattle.layout.specs.Places.{node_length, record_length, queue_length, nodes_place, pending_place, stations_place, queues_place, state_length};
ghost use Rattle.layout.specs.Bytes.{node_in, station_in, queue_in, no_state, state_in, no_record, record_in, row_record, record_count};

use layout::{NODE, NODES, PENDING, QUEUE, QUEUES, RECORD, STATE, STATIONS};
use numbers::{four_bytes, signed_in};
use relay::Station;
use shell::Queue;
use state::{Node, State};
use std::array;

fn node_in(bytes: &[u8], at: usize) -> Node
    requires { at + node_length ≤ length bytes.now }
    ensures { result ≡ node_in bytes.now at }
{
    Node {
        value: signed_in(bytes, at),
        firings: four_bytes(bytes, at + 4),
    }
}

fn station_in(bytes: &[u8], at: usize) -> Station
    requires { at + record_length ≤ length bytes.now }
    ensures { result ≡ station_in bytes.now at }
{
    let older = signed_in(bytes, at);
    let newer = signed_in(bytes, at + 4);
    Station {
        tokens: [older, newer],
        count: bytes[at + 8],
    }
}

fn queue_in(bytes: &[u8], at: usize) -> Queue
    requires { at + queue_length ≤ length bytes.now }
    ensures { result ≡ queue_in bytes.now at }
{
    Queue {
        tokens: array::from_fn(|i| signed_in(bytes, at + 4 * i)),
        count: bytes[at + 32],
    }
}

// The parts of a state. Four functions and no generic one: each is one call of `from_fn`, and its
// contract names the place and the size of its part.
fn nodes_in(bytes: &[u8]) -> [Node; 64]
    requires { pending_place ≤ length bytes.now }
    ensures { result ≡ table (λ n. node_in bytes.now (nodes_place + node_length * n)) 64 }
{
    array::from_fn(|n| node_in(bytes, NODES + NODE * n))
}

fn pending_in(bytes: &[u8]) -> [u8; 96]
    requires { stations_place ≤ length bytes.now }
    ensures { result ≡ table (λ c. get_or bytes.now (pending_place + c) 0) 96 }
{
    array::from_fn(|c| bytes[PENDING + c])
}

fn stations_in(bytes: &[u8]) -> [Station; 768]
    requires { queues_place ≤ length bytes.now }
    ensures { result ≡ table (λ i. station_in bytes.now (stations_place + record_length * i)) 768 }
{
    array::from_fn(|i| station_in(bytes, STATIONS + RECORD * i))
}

fn queues_in(bytes: &[u8]) -> [Queue; 96]
    requires { state_length ≤ length bytes.now }
    ensures { result ≡ table (λ c. queue_in bytes.now (queues_place + queue_length * c)) 96 }
{
    array::from_fn(|c| queue_in(bytes, QUEUES + QUEUE * c))
}

// What fewer bytes than a state has are read as: a state that fits no image. An `Option` would be no
// plainer: each call would say once more which numbers come before 21.
fn no_state() -> State
    ensures { result ≡ no_state }
{
    let mut state = State::zeros();
    state.cycles = State::CYCLES + 1;
    state
}

// Returns the state that bytes are read as: it stands in the first of them. Where they are fewer than a
// state has, it is one that fits no image.
pub fn state_in(bytes: &[u8]) -> State
    ensures { result ≡ state_in bytes.now }
{
    if bytes.len() < STATE {
        return no_state();
    }
    State {
        cycles: four_bytes(bytes, 0),
        nodes: nodes_in(bytes),
        pending: pending_in(bytes),
        stations: stations_in(bytes),
        queues: queues_in(bytes),
    }
}

// What bytes that are no record are read as: a record that fits no bench. No `Option`, for the reason of
// `no_state`.
fn no_record() -> Station
    ensures { result ≡ no_record }
{
    Station {
        tokens: [0, 0],
        count: Station::DEPTH + 1,
    }
}

// Returns the station record that bytes are read as: one that fits no bench if they have another length
// than a record's.
pub fn record_in(bytes: &[u8]) -> Station
    ensures { result ≡ record_in bytes.now }
{
    if bytes.len() != RECORD {
        return no_record();
    }
    station_in(bytes, 0)
}

// Record i of the row that bytes are read as: one that fits no bench if it is not whole.
fn row_record(bytes: &[u8], i: usize) -> Station
    requires { i ≤ 7 }
    ensures { result ≡ row_record bytes.now i }
{
    if bytes.len() < RECORD * i + RECORD {
        return no_record();
    }
    station_in(bytes, RECORD * i)
}

// Returns how many records bytes are read as, the last of them whole or not.
pub fn record_count(bytes: &[u8]) -> usize
    ensures { result ≡ record_count bytes.now }
{
    (bytes.len() + 8) / RECORD
}

// Returns nine records, one more than a row may have: the first are those of the row that bytes are read
// as, up to eight, and the others are empty. Whatever is read of a longer row, it is refused.
pub fn row_in(bytes: &[u8]) -> [Station; 9]
    ensures { result ≡ padded 9 (station_of []) (table (row_record bytes.now) (min (record_count bytes.now) 8)) }
{
    let mut records = [Station::empty(); 9];
    for i in 0..record_count(bytes).min(8) {
        records[i] = row_record(bytes, i);
    }
    records
}

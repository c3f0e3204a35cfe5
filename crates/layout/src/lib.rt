// A state and station records as bytes, as C has them (`include/channel_bench.h`). No function: how many
// bytes each part has and where it stands, how they are written, and what bytes are read as (specs/).
#![tactic(auto)]

// How many bytes a node has.
pub const NODE: usize = 8;

// How many bytes a station record has.
pub const RECORD: usize = 9;

// How many bytes a queue has.
pub const QUEUE: usize = 33;

// Where the nodes begin, behind the cycle count.
pub const NODES: usize = 4;

// Where the pending bytes begin, behind the nodes.
pub const PENDING: usize = NODES + 64 * NODE;

// Where the station records begin, behind the pending bytes.
pub const STATIONS: usize = PENDING + 96;

// Where the queues begin, behind the station records.
pub const QUEUES: usize = STATIONS + 768 * RECORD;

// How many bytes a state has.
pub const STATE: usize = QUEUES + 96 * QUEUE;

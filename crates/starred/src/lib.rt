// The starred edges: the arithmetic ones as a table, which `test_engine` runs; all of them as one claim
// on the definitions (specs/Starred.antt).
#![tactic(auto)]

ghost use Rattle.std.specs.Prelude.{◌≡◌};
ghost use Rattle.starred.specs.Edges.{edge_at};

// A kind, the values s, a, b and c that go in, and the next value that they give.
// The kind is a number since past the table's end it is 0, which is no `pearl::Kind`: for every number
// there is an entry, as the exported `edge_at` promises.
#[derive(Clone, Copy)]
pub struct Edge {
    pub kind: u8,
    pub inputs: [i32; 4],
    pub expected: i32,
}

// halve at -1, -3 and 7; negate at the least value; the largest value and 1 by count, total and sum;
// choose at -1 and 0.
const EDGES: [Edge; 9] = [
    Edge {
        kind: 5,
        inputs: [0, -1, 0, 0],
        expected: -1,
    },
    Edge {
        kind: 5,
        inputs: [0, -3, 0, 0],
        expected: -2,
    },
    Edge {
        kind: 5,
        inputs: [0, 7, 0, 0],
        expected: 3,
    },
    Edge {
        kind: 4,
        inputs: [0, i32::MIN, 0, 0],
        expected: i32::MIN,
    },
    Edge {
        kind: 1,
        inputs: [i32::MAX, 0, 0, 0],
        expected: i32::MIN,
    },
    Edge {
        kind: 3,
        inputs: [i32::MAX, 1, 0, 0],
        expected: i32::MIN,
    },
    Edge {
        kind: 6,
        inputs: [0, i32::MAX, 1, 0],
        expected: i32::MIN,
    },
    Edge {
        kind: 9,
        inputs: [0, -1, 11, 22],
        expected: 11,
    },
    Edge {
        kind: 9,
        inputs: [0, 0, 11, 22],
        expected: 22,
    },
];

// The entry past the table's end.
const NONE: Edge = Edge {
    kind: 0,
    inputs: [0; 4],
    expected: 0,
};

// Returns entry i of the table of starred edges, all zeros past its end.
pub fn edge_at(i: u8) -> Edge
    ensures { result ≡ edge_at i }
{
    EDGES.get(usize::from(i)).copied().unwrap_or(NONE)
}

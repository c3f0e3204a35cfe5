// Runs the judge at its limits, on images that have one cause of a number or two, and prints a line a
// case.
#![tactic(auto)]

use std::alloc::{AllocError, Global};
use std::io;

// An image of so many nodes, channels and stations (`sized`), brought to a length, and what is then
// written over bytes of it.
#[derive(Clone, Copy)]
struct Case {
    label: &'static str,
    nodes: u8,
    channels: u8,
    stations: u16,
    length: usize,
    changes: &'static [(usize, u8)],
}

// The largest image without stations.
const LARGEST: Case = Case {
    label: "64 nodes and 96 channels",
    nodes: 64,
    channels: 96,
    stations: 0,
    length: 802,
    changes: &[],
};

// Where the largest image has the last node's kind, the last channel's wire and depths, and the first
// channel's depths.
const KIND: usize = 65;

const FROM: usize = 607;

const TO: usize = 608;

const PORT: usize = 609;

const STATIONS: usize = 800;

const QUEUE: usize = 801;

const FIRST_STATIONS: usize = 610;

const FIRST_QUEUE: usize = 611;

const CASES: &[Case] = &[
    LARGEST,
    Case {
        label: "65 nodes",
        nodes: 65,
        length: 807,
        ..LARGEST
    },
    Case {
        label: "97 channels",
        channels: 97,
        length: 807,
        ..LARGEST
    },
    Case {
        label: "no nodes",
        changes: &[(0, 0)],
        ..LARGEST
    },
    Case {
        label: "65 nodes and nothing else",
        nodes: 65,
        channels: 0,
        length: 2,
        ..LARGEST
    },
    Case {
        label: "no bytes",
        length: 0,
        ..LARGEST
    },
    Case {
        label: "one byte",
        length: 1,
        ..LARGEST
    },
    Case {
        label: "a byte short",
        length: 801,
        ..LARGEST
    },
    Case {
        label: "a byte over",
        length: 803,
        ..LARGEST
    },
    Case {
        label: "kind 0 at the last node",
        changes: &[(KIND, 0)],
        ..LARGEST
    },
    Case {
        label: "the number past the last kind at the last node",
        changes: &[(KIND, kinds::LAST + 1)],
        ..LARGEST
    },
    Case {
        label: "from node 64 on the last channel",
        changes: &[(FROM, 64)],
        ..LARGEST
    },
    Case {
        label: "to node 64 on the last channel",
        changes: &[(TO, 64)],
        ..LARGEST
    },
    Case {
        label: "port 1 of a hold node",
        changes: &[(PORT, 1)],
        ..LARGEST
    },
    Case {
        label: "port 0 of a count node",
        changes: &[(KIND, 1)],
        ..LARGEST
    },
    Case {
        label: "channel 95 feeds the port of channel 0",
        changes: &[(TO, 0)],
        ..LARGEST
    },
    Case {
        label: "port 1 of the last node not fed",
        changes: &[(KIND, 6)],
        ..LARGEST
    },
    Case {
        label: "9 stations on the last channel",
        changes: &[(STATIONS, 9)],
        ..LARGEST
    },
    Case {
        label: "queue 0 on the last channel",
        changes: &[(QUEUE, 0)],
        ..LARGEST
    },
    Case {
        label: "queue 9 on the last channel",
        changes: &[(QUEUE, 9)],
        ..LARGEST
    },
    Case {
        label: "256 stations",
        stations: 256,
        ..LARGEST
    },
    Case {
        label: "257 stations",
        stations: 257,
        ..LARGEST
    },
    Case {
        label: "queue 0 on channel 0 and kind 0 at the last node",
        changes: &[(FIRST_QUEUE, 0), (KIND, 0)],
        ..LARGEST
    },
    Case {
        label: "9 stations and port 1 of the last node not fed",
        changes: &[(FIRST_STATIONS, 9), (KIND, 6)],
        ..LARGEST
    },
];

// Channel i's wire: channels 0 to 63 feed the sum nodes, two each, and the others the hold nodes.
fn wire(i: u8) -> [u8; 3] {
    if i < 64 {
        [0, i / 2, i % 2]
    } else {
        [0, i - 32, 0]
    }
}

// An image of n nodes and c channels: nodes 0 to 31 are sum nodes and the others hold nodes. Each
// channel has 8 stations while they last, and a queue of depth 1. Kinds are numbers here: these are an
// image's bytes, and a case writes some that are no kind.
fn sized(alloc: Global, n: u8, c: u8, stations: u16) -> Result<Vec<u8>, AllocError> {
    let mut image = vec![in alloc; n, c]?;
    for i in 0..n {
        image.push(if i < 32 { 6 } else { 2 })?;
    }
    for _ in 0..n {
        image.extend_from_slice(&[0; 4])?;
    }
    for i in 0..c {
        image.extend_from_slice(&wire(i))?;
    }
    for i in 0..c {
        let left = stations.saturating_sub(8 * u16::from(i));
        image.extend_from_slice(&[left.min(8) as u8, 1])?;
    }
    Ok(image)
}

fn main(rt: HostRuntime) -> io::Result<()> {
    for case in CASES {
        let label = case.label;
        let mut image = sized(rt.alloc(), case.nodes, case.channels, case.stations)?;
        image.resize(case.length, 0)?;
        for &(at, byte) in case.changes {
            if let Some(place) = image.get_mut(at) {
                *place = byte;
            }
        }
        match verdict::judge(&image) {
            Ok(()) => println!(rt; "{label}: accepted")?,
            Err(refusal) => println!(rt; "{label}: {refusal}")?,
        }
    }
    Ok(())
}

// Runs the strict system on the image on standard input, at the limits of its cycles and of the lent
// array, and prints a line a case: the number, and then what all 66 places hold, each of which held 7
// before. docs/PERFORMANCE.md times it as a whole: nearly all of its time is the run to cycle 1,000,000.
#![tactic(auto)]

use std::io;

// The cases: what is printed before a case, its cycle, and how many of the 66 places are lent.
const CASES: &[(&str, u32, usize)] = &[
    ("cycle 0", 0, 66),
    ("cycle 1", 1, 66),
    ("cycle 2", 2, 66),
    ("64 places", 10, 64),
    ("63 places", 10, 63),
    ("no place", 10, 0),
    ("cycle 1,000,000", 1000000, 66),
    ("cycle 1,000,001", 1000001, 66),
    ("cycle 4,294,967,295", 4294967295, 66),
    ("cycle 1,000,001 and 63 places", 1000001, 63),
];

fn show(rt: &impl Print, label: &str, image: &[u8], cycle: u32, room: usize) -> io::Result<()> {
    let mut values = [7i32; 66];
    let run = strict::strict(image, cycle, &mut values[..room.min(66)]);
    let number = run.err().map_or(0, |refusal| refusal.number());
    print!(rt; "{label}: {number}:")?;
    for value in values {
        print!(rt; " {value}")?;
    }
    println!(rt;)
}

fn main(rt: HostRuntime) -> io::Result<()> {
    let mut bytes = [0u8; 803];
    let input = input::read_to_end(&mut rt.stdin(), &mut bytes).unwrap_or_else(
        |unread| unread.before,
    );
    for &(label, cycle, room) in CASES {
        show(&rt, label, &bytes[..input.kept], cycle, room)?;
    }
    show(
        &rt,
        "no bytes, cycle 1,000,001 and no place",
        &[],
        1000001,
        0,
    )
}

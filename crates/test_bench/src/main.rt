// Runs the benches and prints what they answer, a line a case. A line has each cycle's answer: the
// letter of the leaving link with its value for T and R, and + if the incoming token was taken; then the
// records as they are after the last cycle. A refusal prints its number, the 0, 0 and no that C is told,
// and the records.
//
// A record is printed as its count and its two places. Everything goes through the lent forms: the
// trials lend a copy.
#![tactic(auto)]

use bench::{Answer, Records};
use refusal::Refusal;
use relay::{Link, Station};
use std::{fmt, io};

// A case: what is benched, and what comes to it. A station without a row is benched alone; a row is the
// first so many of nine records. Each record is as given, but for one that may be odd. A cycle is a byte
// of two texts: a digit is an incoming token, '+' the largest, '.' none, and '1' is a stop.
#[derive(Clone, Copy)]
struct Case {
    label: &'static str,
    row: Option<usize>,
    each: Station,
    at: usize,
    odd: Station,
    tokens: &'static [u8],
    stops: &'static [u8],
}

const NONE: Station = Station {
    tokens: [0, 0],
    count: 0,
};

// Empty records, to which a token comes that nothing stops. No record is odd: there are nine.
const EMPTY: Case = Case {
    label: "",
    row: None,
    each: NONE,
    at: 9,
    odd: NONE,
    tokens: b"5",
    stops: b"0",
};

// The cases. The first station's links have C's form, with a value beside a clear bit; a void link has
// none.
const CASES: &[Case] = &[
    Case {
        label: "table 1",
        tokens: b"123....4..",
        stops: b"0011000110",
        ..EMPTY
    },
    Case {
        label: "000, figure 6",
        tokens: b"1.2.34.5677",
        stops: b"00001010100",
        ..EMPTY
    },
    Case {
        label: "a row of 1, figure 6",
        row: Some(1),
        tokens: b"1.2.34.5677",
        stops: b"00001010100",
        ..EMPTY
    },
    Case {
        label: "a row of 2",
        row: Some(2),
        tokens: b"12345555.67.....",
        stops: b"0011101001101000",
        ..EMPTY
    },
    Case {
        label: "a row of 8",
        row: Some(8),
        tokens: b"1234567890123456789........................",
        stops: b"0000000001111111111100000000000010000000000",
        ..EMPTY
    },
    Case {
        label: "no token comes, with a value beside it",
        at: 0,
        odd: Station {
            tokens: [4, 0],
            count: 1,
        },
        tokens: b".",
        stops: b"1",
        ..EMPTY
    },
    Case {
        label: "two tokens of 0",
        at: 0,
        odd: Station {
            tokens: [0, 0],
            count: 2,
        },
        tokens: b".",
        stops: b"1",
        ..EMPTY
    },
    Case {
        label: "full, not stopped, a token offered",
        at: 0,
        odd: Station {
            tokens: [4, 5],
            count: 2,
        },
        tokens: b"6",
        stops: b"0",
        ..EMPTY
    },
    Case {
        label: "the ends of the range",
        at: 0,
        odd: Station {
            tokens: [i32::MIN, 0],
            count: 1,
        },
        tokens: b"+",
        stops: b"1",
        ..EMPTY
    },
    Case {
        label: "a count of 3",
        at: 0,
        odd: Station {
            tokens: [4, 5],
            count: 3,
        },
        tokens: b"6",
        stops: b"0",
        ..EMPTY
    },
    Case {
        label: "a count of 255",
        at: 0,
        odd: Station {
            tokens: [4, 5],
            count: 255,
        },
        tokens: b"6",
        stops: b"0",
        ..EMPTY
    },
    Case {
        label: "one token and an unused 5",
        at: 0,
        odd: Station {
            tokens: [4, 5],
            count: 1,
        },
        tokens: b"6",
        stops: b"0",
        ..EMPTY
    },
    Case {
        label: "no token and an unused -1",
        at: 0,
        odd: Station {
            tokens: [-1, 0],
            count: 0,
        },
        tokens: b".",
        stops: b"0",
        ..EMPTY
    },
    Case {
        label: "no token and an unused 5 behind",
        at: 0,
        odd: Station {
            tokens: [0, 5],
            count: 0,
        },
        tokens: b".",
        stops: b"1",
        ..EMPTY
    },
    Case {
        label: "a row of 0",
        row: Some(0),
        ..EMPTY
    },
    Case {
        label: "a row of 9",
        row: Some(9),
        ..EMPTY
    },
    Case {
        label: "a row of 0 of misfits",
        row: Some(0),
        each: Station {
            tokens: [4, 5],
            count: 3,
        },
        ..EMPTY
    },
    Case {
        label: "a row of 9 of misfits",
        row: Some(9),
        each: Station {
            tokens: [4, 5],
            count: 3,
        },
        ..EMPTY
    },
    Case {
        label: "more than nine are asked for",
        row: Some(4294967304),
        each: Station {
            tokens: [4, 0],
            count: 1,
        },
        ..EMPTY
    },
    Case {
        label: "a row of 8 of misfits",
        row: Some(8),
        each: Station {
            tokens: [4, 5],
            count: 3,
        },
        ..EMPTY
    },
    Case {
        label: "a row of 8, the last a misfit",
        row: Some(8),
        at: 7,
        odd: Station {
            tokens: [0, 7],
            count: 0,
        },
        ..EMPTY
    },
    Case {
        label: "a row of 8, the first a misfit",
        row: Some(8),
        at: 0,
        odd: Station {
            tokens: [0, 7],
            count: 0,
        },
        ..EMPTY
    },
    Case {
        label: "a row of 8, a misfit behind it",
        row: Some(8),
        at: 8,
        odd: Station {
            tokens: [0, 7],
            count: 0,
        },
        ..EMPTY
    },
    Case {
        label: "a row of 8 full ones",
        row: Some(8),
        each: Station {
            tokens: [4, 3],
            count: 2,
        },
        ..EMPTY
    },
    Case {
        label: "a row of 8 with a token each",
        row: Some(8),
        each: Station {
            tokens: [4, 0],
            count: 1,
        },
        ..EMPTY
    },
];

fn link(token: u8) -> Link {
    match token {
        b'+' => Some(i32::MAX),
        b'0'..=b'9' => Some(i32::from(token - b'0')),
        _ => None,
    }
}

// One cycle of a row, or of the first record alone.
fn cycle(
    row: Option<usize>,
    records: &mut Records,
    link: Link,
    stop: bool,
) -> Result<Answer, Refusal> {
    match row {
        Some(length) => {
            let out = bench::row_trial(*records, length, link, stop);
            *records = out.after;
            out.answer
        }
        None => {
            let out = bench::station_trial(records.stations[0], link, stop);
            records.stations[0] = out.after;
            out.answer
        }
    }
}

// An answer, to be printed. Its letter is a byte, as the C interface has it.
#[derive(Clone, Copy)]
struct Shown(Result<Answer, Refusal>);

impl fmt::Display for Shown {
    fn fmt<W: fmt::Write>(&self, f: &mut fmt::Formatter<W>) -> fmt::Result {
        let Answer {
            letter,
            value,
            taken,
        } = match self.0 {
            Ok(answer) => answer,
            Err(refusal) => return write!(f, "{refusal} with 0, 0 and no"),
        };
        let letter = char::from(letter);
        write!(f, "{letter}")?;
        if matches!(letter, 'T' | 'R') || value != 0 {
            write!(f, "{value}")?;
        }
        if taken {
            write!(f, "+")?;
        }
        Ok(())
    }
}

fn show(rt: &impl Print, case: &Case) -> io::Result<()> {
    let mut records = Records {
        stations: [case.each; 9],
    };
    if let Some(record) = records.stations.get_mut(case.at) {
        *record = case.odd;
    }
    let label = case.label;
    print!(rt; "{label}:")?;
    for (&token, &stop) in case.tokens.iter().zip(case.stops) {
        let answer = Shown(cycle(case.row, &mut records, link(token), stop == b'1'));
        print!(rt; " {answer}")?;
    }
    print!(rt; " :")?;
    let shown = case.row.map_or(1, |_| 9);
    for record in records.stations.iter().take(shown) {
        let [first, second] = record.tokens;
        let count = record.count;
        print!(rt; " {count}({first},{second})")?;
    }
    println!(rt;)
}

fn main(rt: HostRuntime) -> io::Result<()> {
    for case in CASES {
        show(&rt, case)?;
    }
    Ok(())
}

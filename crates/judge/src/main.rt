// Judges the image on standard input: prints `accepted`, or `refused` and the number.
//
// No image is longer than 802 bytes, so the first 803 decide (`verdict`'s specs/Laws/Head.antt); what
// follows is read to its end all the same. The text of the line is proved. What no contract can say is
// left to a reader of `main` and to tests/trace.sh: that the reads bring the image, and that the line is
// printed once, by one write. Where the image cannot be read, or the line cannot be written, or there are
// arguments, a line on standard error says so, and the status is 1.
#![tactic(auto)]

ghost use Rattle.std.specs.Prelude.{◌≡◌, Some};
ghost use Rattle.refusal.specs.Number.{number_of};
ghost use Rattle.verdict.specs.Judge.{judge};
ghost use Rattle.judge.specs.Line.{verdict_text};

use refusal::Refusal;
use std::env::{Env, FillError};
use std::fmt;
use std::process::ExitCode;

// The line of a verdict.
#[derive(Clone, Copy)]
struct Line {
    verdict: Result<(), Refusal>,
}

impl fmt::Display for Line {
    ghost output = { λ line. Some (verdict_text (number_of line.verdict)) };

    fn fmt<W: fmt::Write>(&self, f: &mut fmt::Formatter<W>) -> fmt::Result {
        match self.verdict {
            Ok(()) => write!(f, "accepted\n"),
            Err(refusal) => write!(f, "{refusal}\n"),
        }
    }
}

fn verdict_line(image: &[u8]) -> Line
    ensures { number_of result.verdict ≡ judge image.now }
{
    Line {
        verdict: verdict::judge(image),
    }
}

// Prints a line that tells why there is no verdict. Where that cannot be printed either, the status says it
// alone.
fn failed<D: fmt::Display + Drop>(rt: &impl Eprint, line: D) -> ExitCode {
    let _ = rt.eprintln(line);
    ExitCode::FAILURE
}

fn main(rt: HostRuntime) -> ExitCode {
    // An argument is there if it can be read, or is too long for no room. It is asked for here: a function
    // over `Env` would rest on all that the environment can do.
    if !matches!(rt.arg(1, &mut []), Err(FillError::NotPresent)) {
        return failed(&rt, "usage: judge < IMAGE");
    }
    let mut image = [0u8; 803];
    let input = match input::read_to_end(&mut rt.stdin(), &mut image) {
        Ok(input) => input,
        Err(unread) => return failed(&rt, format_args!("judge: {unread}")),
    };
    match print!(rt; "{}", verdict_line(&image[..input.kept])) {
        Ok(()) => ExitCode::SUCCESS,
        Err(_) => failed(&rt, "judge: standard output cannot be written"),
    }
}

// The judge: whether an image is a netlist, and if not, why.
//
// `sizes` tests 1 to 3, and `judge` goes on to `passes::contents`, which asks in the definition's order
// and words: whether any node has a bad kind (4), any channel a bad wire (5) or a bad port (6), and so on
// to the sum for 11, each over the whole image before the next. The pass that finds 7 notes the ports
// that are fed on its way, and indexes by node and port: it is made only once 5 and 6 are settled.
#![tactic(auto)]

mod passes;

ghost use Rattle.std.specs.Prelude.{◌||◌, ◌≡◌, ltb};
ghost use Rattle.laws.specs.Range.{outside};
ghost use Rattle.refusal.specs.Number.{number_of};
ghost use Rattle.verdict.specs.Judge.{sizes_number, judge};

use image::{channels, length_due, nodes};
use refusal::Refusal;

// Number 2: whether N is not 1 to 64, or C is over 96. Two tests, here and in `passes`, and no range's
// `contains`: the definition, `outside`, is these two.
fn bad_sizes(n: u8, c: u8) -> bool
    ensures { result ≡ (outside 1 64 n || ltb 96 c) }
{
    ((n < 1) | (64 < n)) | (96 < c)
}

// Returns `Ok`, given an image whose sizes are sound and which is as long as they ask for; given any
// other, the first of the refusals 1 to 3 that has a cause in it.
#[tactic(auto, unfolding(crate::specs::Judge::sizes_number))]
pub fn sizes(image: &[u8]) -> Result<(), Refusal>
    ensures { number_of result ≡ sizes_number image.now }
{
    if image.len() < 2 {
        return Err(Refusal::Short);
    }
    if bad_sizes(nodes(image), channels(image)) {
        return Err(Refusal::Sizes);
    }
    if image.len() != length_due(image) {
        return Err(Refusal::Length);
    }
    Ok(())
}

// Returns `Ok`, given an image that is a netlist; given any other, the first of the refusals 1 to 11
// that has a cause in it.
#[tactic(auto, unfolding(crate::specs::Judge::judge))]
pub fn judge(image: &[u8]) -> Result<(), Refusal>
    ensures { number_of result ≡ judge image.now }
{
    sizes(image)?;
    passes::contents(image)
}

// What standard input holds for the trace program: an image, and then 8-byte stall words, low byte
// first. A function that reads words takes the whole input.
#![tactic(auto)]

ghost use Rattle.std.specs.Prelude.{◌≡◌, length, get_or, drop};
ghost use Rattle.std.specs.Simd.{first_chunks};
ghost use Rattle.refusal.specs.Number.{number_of};
ghost use Rattle.trace_input.specs.Input.{image_of, word_count, words_of, any_above, input_number};

use refusal::Refusal;

// The most words that the program traces.
const WORDS: u64 = 4096;

// Returns the image of an input: as many bytes as its N and C ask for, or all of them where some are
// missing.
pub fn image_of(input: &[u8]) -> &[u8]
    ensures { result.now ≡ image_of input.now }
{
    &input[..image::length_due(input).min(input.len())]
}

// The whole words that follow the image.
#[tactic(auto, using(crate::specs::Laws::Input::image_within))]
fn whole_words(input: &[u8]) -> &[[u8; 8]]
    ensures value { result.now ≡ first_chunks 8 (word_count input.now) (drop (length (image_of input.now)) input.now) }
    ensures len { length result.now ≡ word_count input.now }
{
    input[image_of(input).len()..].as_chunks::<8>().0
}

// Returns how many whole words follow the image.
pub fn words(input: &[u8]) -> usize
    ensures { result ≡ word_count input.now }
{
    whole_words(input).len()
}

// Returns word k of the input, 0 past the last.
pub fn word_at(input: &[u8], k: usize) -> u64
    ensures { result ≡ get_or (words_of input.now) k 0 }
{
    u64::from_le_bytes(whole_words(input).get(k).copied().unwrap_or([0; 8]))
}

// Whether some word of the input sets a bit at or above N (12). By number: the definitions name word k.
fn any_above(input: &[u8]) -> bool
    ensures { result ≡ any_above input.now }
{
    let n = image::nodes(input);
    (0..words(input)).any(|k| clock::sets_above(word_at(input, k), n))
}

// Returns whether an input is refused, given its size and the bytes `head` that it begins with. Refused
// by 1 to 11, then by 14 for over 4,096 words, then by 12 for a word that sets a bit at or above N; 3
// also where what follows the image is not whole words. With the first 33,570 bytes, or all where there
// are fewer, the answer is the whole input's: no image is longer than 802 bytes, and 4,096 words take
// 32,768. So a reader need only count what is beyond.
#[tactic(auto, using(verdict::specs::Laws::Sized::judge_sized), unfolding(crate::specs::Input::input_number))]
pub fn judge(head: &[u8], size: u64) -> Result<(), Refusal>
    ensures { number_of result ≡ input_number head.now size }
{
    let image = image_of(head);
    verdict::sizes(image)?;
    let tail = size.saturating_sub(image::length_due(head) as u64);
    if tail % 8 != 0 {
        return Err(Refusal::Length);
    }
    verdict::judge(image)?;
    if WORDS < tail / 8 {
        return Err(Refusal::Limit);
    }
    if any_above(head) {
        return Err(Refusal::Stall);
    }
    Ok(())
}

// The kinds of cores as numbers, as an image has them: which numbers are kinds, and how many inputs a
// node of each kind has. What a kind does is code of `pearl`.
#![tactic(auto)]

ghost use Rattle.std.specs.Prelude.{◌≡◌};
ghost use Rattle.kinds.specs.Kinds.{no_kind, inputs};

// The number of the last kind.
pub const LAST: u8 = 9;

// How many inputs each kind has, by its number. Place 0 is no kind.
const INPUTS: &[u8] = &[0, 0, 1, 1, 1, 1, 2, 2, 2, 3];

// Returns whether a number is no kind.
pub fn no_kind(kind: u8) -> bool
    ensures { result ≡ no_kind kind }
{
    (kind < 1) | (LAST < kind)
}

// Returns how many inputs a node of a kind has, 0 for a number that is no kind: the judge asks before it
// knows that a number is a kind.
#[tactic(auto, using(crate::specs::Laws::Kinds::inputs_column))]
pub fn inputs(kind: u8) -> u8
    ensures { result ≡ inputs kind }
{
    INPUTS.get(kind as usize).copied().unwrap_or(0)
}

// Numbers as bytes, low byte first, a signed one in two's complement: as they are written, and as bytes are
// read. Every reader is total: a byte past the last is 0.
#![tactic(auto)]

ghost use Rattle.std.specs.Prelude.{◌≡◌, get_or};
ghost use Rattle.numbers.specs.Numbers.{number_bytes, signed_bytes, four_bytes, signed_in};

// Returns the four bytes of a number.
#[tactic(auto, unfolding(crate::specs::Numbers::number_bytes))]
pub fn number_bytes(n: u32) -> [u8; 4]
    ensures { result ≡ number_bytes n }
{
    n.to_le_bytes()
}

// Returns the four bytes of a signed number.
pub fn signed_bytes(value: i32) -> [u8; 4]
    ensures { result ≡ signed_bytes value }
{
    number_bytes(value.cast_unsigned())
}

// Returns the byte at a place, 0 past the last.
pub fn byte_at(bytes: &[u8], at: usize) -> u8
    ensures { result ≡ get_or bytes.now at 0 }
{
    bytes.get(at).copied().unwrap_or(0)
}

// Returns the number that the four bytes from a place on stand for.
pub fn four_bytes(bytes: &[u8], at: usize) -> u32
    ensures { result ≡ four_bytes bytes.now at }
{
    if bytes.len() <= at {
        return 0;
    }
    let four = [
        byte_at(bytes, at),
        byte_at(bytes, at + 1),
        byte_at(bytes, at + 2),
        byte_at(bytes, at + 3),
    ];
    u32::from_le_bytes(four)
}

// Returns the signed number that the four bytes from a place on stand for.
#[tactic(auto, unfolding(laws::specs::Signed::signed))]
pub fn signed_in(bytes: &[u8], at: usize) -> i32
    ensures { result ≡ signed_in bytes.now at }
{
    four_bytes(bytes, at).cast_signed()
}

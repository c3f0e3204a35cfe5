// The cores ("pearls") that a shell wraps: a node's next value, by its kind.
#![tactic(auto)]

ghost use Rattle.std.specs.Prelude.{◌≡◌};
ghost use Rattle.pearl.specs.Next.{next_value, next};

use refusal::Refusal;

// What a node does with its present value s and its ports' values a, b and c.
#[derive(Clone, Copy, Debug, PartialEq, Eq)]
pub enum Kind {
    // s + 1
    Count,
    // a
    Hold,
    // s + a
    Total,
    // - a
    Negate,
    // a / 2, rounded down
    Halve,
    // a + b
    Sum,
    // a - b
    Difference,
    // the greater of a and b
    Larger,
    // b if a is negative, otherwise c
    Choose,
}

impl TryFrom<u8> for Kind {
    ghost use Rattle.pearl.specs.Kind.{Decodes};

    type Error = Refusal;

    ghost try_from_gives = { Decodes };

    fn try_from(number: u8) -> Result<Kind, Refusal> {
        match number {
            1 => Ok(Kind::Count),
            2 => Ok(Kind::Hold),
            3 => Ok(Kind::Total),
            4 => Ok(Kind::Negate),
            5 => Ok(Kind::Halve),
            6 => Ok(Kind::Sum),
            7 => Ok(Kind::Difference),
            8 => Ok(Kind::Larger),
            9 => Ok(Kind::Choose),
            _ => Err(Refusal::Kind),
        }
    }
}

impl Kind {
    ghost use Rattle.pearl.specs.Kind.{kind_byte};

    // Returns the next value of a node of this kind, given its present value s and its ports' values a,
    // b and c. A port that the kind does not have is not looked at. The ports are named, as in the
    // table, and no array.
    pub fn next(self, s: i32, a: i32, b: i32, c: i32) -> i32
        ensures { result ≡ next_value (kind_byte self) s a b c }
    {
        match self {
            Kind::Count => s.wrapping_add(1),
            Kind::Hold => a,
            Kind::Total => s.wrapping_add(a),
            Kind::Negate => a.wrapping_neg(),
            // `a / 2` would round toward zero.
            Kind::Halve => a >> 1,
            Kind::Sum => a.wrapping_add(b),
            Kind::Difference => a.wrapping_sub(b),
            Kind::Larger => a.max(b),
            Kind::Choose => if a < 0 { b } else { c },
        }
    }
}

// Returns the next value, given the number of a node's kind, its present value and its ports' values, or
// refusal 4 if the number is no kind. The project's rules name this form, a match over numbers with a
// refusal.
pub fn next_value(kind: u8, s: i32, a: i32, b: i32, c: i32) -> Result<i32, Refusal>
    ensures { result ≡ next kind s a b c }
{
    let kind = Kind::try_from(kind)?;
    Ok(kind.next(s, a, b, c))
}

// Operations 2 to 6, and the three comparisons. `machine::operate` has the others, over std's
// lesser and greater, one bits, leading and trailing zeros.
// Kept: editions, operations and comparisons are bytes, since any byte of a table is promised an
// answer (`value_of_left` and `compares` say what one above the last means).
#![tactic(auto)]

ghost use Rattle.std.specs.Prelude.{◌≡◌, ◌*◌, ◌%◌, ◌^◌, [], ◌∷◌};
ghost use Rattle.operations.specs.Operation.{sum, difference, quotient, remainder, compares};

// The sum modulo 4,294,967,296; in edition 2 the greatest number where the true sum is larger.
#[tactic(auto, unfolding(crate::specs::Operation::sum))]
pub fn sum(edition: u8, a: u32, b: u32) -> u32
    ensures { result ≡ sum edition a b }
{
    // Both are there before one is taken, so that the compiler makes no branch.
    let capped = a.saturating_add(b);
    let wrapped = a.wrapping_add(b);
    if edition == 2 { capped } else { wrapped }
}

// The difference modulo 4,294,967,296; in edition 2 0 where right exceeds left.
#[tactic(auto, unfolding(crate::specs::Operation::difference))]
pub fn difference(edition: u8, a: u32, b: u32) -> u32
    ensures { result ≡ difference edition a b }
{
    let capped = a.saturating_sub(b);
    let wrapped = a.wrapping_sub(b);
    if edition == 2 { capped } else { wrapped }
}

// The product modulo 4,294,967,296. Kept: over u64, as 01 has it.
pub fn product(a: u32, b: u32) -> u32
    ensures { result ≡ a * b % 2 ^ 32 }
{
    let whole = u64::from(a) * u64::from(b);
    (whole % 4294967296) as u32
}

// The quotient, 0 when right is 0.
#[tactic(auto, unfolding(crate::specs::Operation::quotient))]
pub fn quotient(a: u32, b: u32) -> u32
    ensures { result ≡ quotient a b }
{
    a.checked_div(b).unwrap_or(0)
}

// The remainder, left when right is 0.
#[tactic(auto, unfolding(crate::specs::Operation::remainder))]
pub fn remainder(a: u32, b: u32) -> u32
    ensures { result ≡ remainder a b }
{
    a.checked_rem(b).unwrap_or(a)
}

// Whether a comparison holds of two values. Kept: a match, whose arms are one test each.
#[tactic(auto, unfolding(crate::specs::Operation::compares))]
pub fn compare(comparison: u8, a: u32, b: u32) -> bool
    ensures { result ≡ compares comparison (a ∷ b ∷ []) }
{
    match comparison {
        0 => a == b,
        1 => a < b,
        _ => a <= b,
    }
}

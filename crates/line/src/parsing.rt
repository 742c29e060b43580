// A line of the run program, without its newline, as numbers.
ghost use Rattle.std.specs.Prelude.{◌≡◌, ◌≤◌, Some, None, IfSome, if◌then◌else◌, option_map};
ghost use Rattle.line.specs.Parsing.{number_of, is_number, numbers_of, parse};

// The mode, the allowed set, the limit, and at most 16 inputs, `count` in all; then zeros.
// Kept: an array and a count, since `Numbers` is Copy, and the kit's `ArrayVec` is not.
#[derive(Clone, Copy, Debug, PartialEq, Eq)]
pub struct Numbers {
    pub numbers: [u32; 19],
    pub count: usize,
}

// The number that a part of a line is.
// Kept: read by hand, since `parse` of std would take a plus sign too.
#[tactic(auto, using(crate::proofs::Digits::at_each_byte))]
fn number(part: &[u8]) -> Option<u32>
    ensures { result ≡ (if is_number part.now then Some (number_of part.now) else None) }
{
    if let [] | [b'0', _, ..] = part {
        return None;
    }
    let mut value = 0u32;
    for &b in part {
        if !b.is_ascii_digit() {
            return None;
        }
        value = value.checked_mul(10)?.checked_add(u32::from(b - b'0'))?;
    }
    Some(value)
}

// The numbers of a line; none where it is ill-formed.
#[tactic(auto, using(crate::proofs::Parsed::at_first))]
pub fn parse(line: &[u8]) -> Option<Numbers>
    ensures value { result ≡ option_map numbers_of (parse line.now) }
    ensures count { IfSome result (λ ns. (3 ≤ ns.count) × (ns.count ≤ 19)) }
{
    if 255 < line.len() {
        return None;
    }
    let mut numbers = [0; 19];
    let mut count = 0;
    for part in line.split(|b| *b == b' ') {
        if count == numbers.len() {
            return None;
        }
        // Kept: with `get_mut` it stays open what the array holds.
        numbers[count] = number(part)?;
        count += 1;
    }
    if count < 3 {
        return None;
    }
    Some(Numbers { numbers, count })
}

// The editions, the operations of both and the three comparisons on 32-bit numbers.
// Kept: what an operation gives is computed here by own means, and not by the methods of u32 that
// the first interpreter calls, so that the two are read apart and compared.
ghost use Rattle.std.specs.Prelude.{◌≤◌};

#[derive(Clone, Copy, Debug, PartialEq, Eq)]
pub enum Edition {
    One = 1,
    Two = 2,
}

impl Edition {
    pub fn of(number: u8) -> Option<Edition> {
        match number {
            1 => Some(Edition::One),
            2 => Some(Edition::Two),
            _ => None,
        }
    }

    pub fn other(self) -> Edition {
        match self {
            Edition::One => Edition::Two,
            Edition::Two => Edition::One,
        }
    }
}

// What an operation does, of its number in an edition: three numbers mean something else in each.
// What an operation reads and gives follows from its meaning alone.
#[derive(Clone, Copy, Debug, PartialEq, Eq)]
pub enum Meaning {
    Constant,
    Copy,
    Sum,
    CappedSum,
    Difference,
    FlooredDifference,
    Product,
    Quotient,
    Remainder,
    Lesser,
    Greater,
    Ones,
    LeadingZeros,
    TrailingZeros,
    CappedTrailingZeros,
}

impl Meaning {
    pub fn of(edition: Edition, operation: u8) -> Option<Meaning> {
        match (operation, edition) {
            (0, _) => Some(Meaning::Constant),
            (1, _) => Some(Meaning::Copy),
            (2, Edition::One) => Some(Meaning::Sum),
            (2, Edition::Two) => Some(Meaning::CappedSum),
            (3, Edition::One) => Some(Meaning::Difference),
            (3, Edition::Two) => Some(Meaning::FlooredDifference),
            (4, _) => Some(Meaning::Product),
            (5, _) => Some(Meaning::Quotient),
            (6, _) => Some(Meaning::Remainder),
            (7, _) => Some(Meaning::Lesser),
            (8, _) => Some(Meaning::Greater),
            (9, _) => Some(Meaning::Ones),
            (10, _) => Some(Meaning::LeadingZeros),
            (11, Edition::One) => Some(Meaning::TrailingZeros),
            (11, Edition::Two) => Some(Meaning::CappedTrailingZeros),
            _ => None,
        }
    }

    pub fn reads_left(self) -> bool {
        self != Meaning::Constant
    }

    pub fn reads_right(self) -> bool {
        !matches!(
            self,
            Meaning::Constant
                | Meaning::Copy
                | Meaning::Ones
                | Meaning::LeadingZeros
                | Meaning::TrailingZeros
        )
    }

    // What the operation gives; only `Constant` uses `constant`.
    // Kept, here and in `holds`: a match, whose arms are one result each.
    pub fn result_of(self, constant: u32, left: u32, right: u32) -> u32 {
        match self {
            Meaning::Constant => constant,
            Meaning::Copy => left,
            Meaning::Sum => left.wrapping_add(right),
            Meaning::CappedSum => capped_sum(left, right),
            Meaning::Difference => left.wrapping_sub(right),
            Meaning::FlooredDifference => floored_difference(left, right),
            Meaning::Product => product(left, right),
            Meaning::Quotient => quotient(left, right),
            Meaning::Remainder => remainder(left, right),
            Meaning::Lesser => lesser(left, right),
            Meaning::Greater => greater(left, right),
            Meaning::Ones => ones(left),
            Meaning::LeadingZeros => leading_zeros(left),
            Meaning::TrailingZeros => trailing_zeros(left),
            Meaning::CappedTrailingZeros => lesser(trailing_zeros(left), right),
        }
    }
}

#[derive(Clone, Copy, Debug, PartialEq, Eq)]
pub enum Comparison {
    Equal,
    Less,
    NotGreater,
}

impl Comparison {
    pub fn of(number: u8) -> Option<Comparison> {
        match number {
            0 => Some(Comparison::Equal),
            1 => Some(Comparison::Less),
            2 => Some(Comparison::NotGreater),
            _ => None,
        }
    }

    // Kept: compared here again, so that the two interpreters are read apart.
    pub fn holds(self, left: u32, right: u32) -> bool {
        match self {
            Comparison::Equal => left == right,
            Comparison::Less => left < right,
            Comparison::NotGreater => left <= right,
        }
    }
}

fn lesser(left: u32, right: u32) -> u32
    ensures { (result ≤ left) × (result ≤ right) }
{
    if left < right { left } else { right }
}

fn greater(left: u32, right: u32) -> u32 {
    if left < right { right } else { left }
}

// The sum, or 4,294,967,295 where it is larger: no more is added than there is room for.
fn capped_sum(left: u32, right: u32) -> u32 {
    left + lesser(right, u32::MAX - left)
}

// The difference, or 0 where right exceeds left: no more is taken than there is.
fn floored_difference(left: u32, right: u32) -> u32 {
    left - lesser(right, left)
}

// The product modulo 4,294,967,296: a doubled left number for each binary digit of the right one.
fn product(left: u32, right: u32) -> u32 {
    let mut doubled = left;
    let mut total = 0u32;
    for position in 0..32 {
        if has_digit(right, position) {
            total = total.wrapping_add(doubled);
        }
        doubled = doubled.wrapping_add(doubled);
    }
    total
}

fn quotient(left: u32, right: u32) -> u32 {
    if right == 0 { 0 } else { left / right }
}

fn remainder(left: u32, right: u32) -> u32 {
    if right == 0 { left } else { left % right }
}

// Whether the binary digit at a position, from the lowest at 0 on, is 1.
fn has_digit(x: u32, position: u32) -> bool {
    x >> (position % 32) & 1 == 1
}

fn ones(x: u32) -> u32 {
    let mut count = 0u32;
    for position in 0..32 {
        if has_digit(x, position) {
            count = count.wrapping_add(1);
        }
    }
    count
}

// 31 less the position of the highest one bit, or 32.
fn leading_zeros(x: u32) -> u32 {
    (0..32).find(|zeros| has_digit(x, 31 - zeros)).unwrap_or(32)
}

// The position of the lowest one bit, or 32.
fn trailing_zeros(x: u32) -> u32 {
    (0..32).find(|zeros| has_digit(x, *zeros)).unwrap_or(32)
}

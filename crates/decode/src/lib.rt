// The box at a place of the table, ten bytes.
#![tactic(auto)]

ghost use Rattle.std.specs.Prelude.{◌*◌, min, ◌≡◌};
ghost use Rattle.decode.specs.Decode.{box_from};

// Kept: operations and comparisons are bytes, since a box of the table may have any (`box_from`).
#[derive(Clone, Copy, Debug, PartialEq, Eq)]
pub enum FlowBox {
    Assign {
        target: u8,
        op: u8,
        left: u8,
        right: u8,
        next: u8,
        constant: u32,
    },
    Decide {
        comparison: u8,
        left: u8,
        right: u8,
        next: u8,
        other: u8,
    },
    Halt,
    // A choice without a branch: it copies `one` where the comparison holds and else `other`.
    Choose {
        target: u8,
        comparison: u8,
        left: u8,
        right: u8,
        next: u8,
        one: u8,
        other: u8,
    },
}

// Half of where box p begins. A run takes it along beside p: a byte is read at twice it in one
// instruction, where ten times p takes one more, and every box waits for it.
pub fn half_of(p: u8) -> usize
    ensures { result ≡ 5 * p }
{
    5 * usize::from(p)
}

// The same of the 204 places, by which a run begins. Kept: the lesser is taken of the halves and
// not of p and 204, by which the compiler takes p along and not its half: a box then takes half as
// long again (`bench/run`).
pub fn first_half(p: u8) -> usize
    ensures { result ≡ 5 * min p 204 }
{
    half_of(p).min(1020)
}

// The box that starts at twice `half`; a halt where the table has no ten bytes there. A kind that
// no box has reads as a halt. Kept: a table of bytes, ten for each box, as 01 has the runner.
#[tactic(auto, using(crate::proofs::Decoded::decoded))]
pub fn box_at(table: &[u8; 2040], half: usize) -> FlowBox
    ensures { result ≡ box_from table.now (2 * half) }
{
    if 1015 < half {
        return FlowBox::Halt;
    }
    let i = 2 * half;
    let kind = table[i];
    // The number of the next box is read before anything is asked, since the next box waits for it.
    let next = table[i + 5];
    match kind {
        1 => FlowBox::Assign {
            target: table[i + 1],
            op: table[i + 2],
            left: table[i + 3],
            right: table[i + 4],
            next,
            constant: u32::from_le_bytes([table[i + 6], table[i + 7], table[i + 8], table[i + 9]]),
        },
        2 => FlowBox::Decide {
            comparison: table[i + 2],
            left: table[i + 3],
            right: table[i + 4],
            next,
            other: table[i + 6],
        },
        4 => FlowBox::Choose {
            target: table[i + 1],
            comparison: table[i + 2],
            left: table[i + 3],
            right: table[i + 4],
            next,
            one: table[i + 6],
            other: table[i + 7],
        },
        _ => FlowBox::Halt,
    }
}

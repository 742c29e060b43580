// A box out of its ten bytes, and the rules that it has to keep.
use crate::numbers::{Comparison, Edition, Meaning};

#[derive(Clone, Copy, Debug, PartialEq, Eq)]
pub enum ChartBox {
    Assignment {
        target: u8,
        meaning: Meaning,
        left: u8,
        right: u8,
        next: u8,
        constant: u32,
    },
    Decision {
        comparison: Comparison,
        left: u8,
        right: u8,
        if_true: u8,
        if_false: u8,
    },
    Halt,
    // It reads four variables, whichever of the last two it copies.
    Choice {
        target: u8,
        comparison: Comparison,
        left: u8,
        right: u8,
        next: u8,
        if_true: u8,
        if_false: u8,
    },
}

impl ChartBox {
    // None where the bytes are those of no box of the edition. Edition 2 alone has choices.
    pub fn of(edition: Edition, bytes: [u8; 10]) -> Option<ChartBox> {
        match bytes {
            [1, target, operation, left, right, next, a, b, c, d] => Some(ChartBox::Assignment {
                target,
                meaning: Meaning::of(edition, operation)?,
                left,
                right,
                next,
                constant: u32::from_le_bytes([a, b, c, d]),
            }),
            [2, 0, comparison, left, right, if_true, if_false, 0, 0, 0] => {
                Some(ChartBox::Decision {
                    comparison: Comparison::of(comparison)?,
                    left,
                    right,
                    if_true,
                    if_false,
                })
            }
            [3, 0, 0, 0, 0, 0, 0, 0, 0, 0] => Some(ChartBox::Halt),
            [
                4,
                target,
                comparison,
                left,
                right,
                next,
                if_true,
                if_false,
                0,
                0,
            ] if edition == Edition::Two => {
                Some(ChartBox::Choice {
                    target,
                    comparison: Comparison::of(comparison)?,
                    left,
                    right,
                    next,
                    if_true,
                    if_false,
                })
            }
            _ => None,
        }
    }

    // Whether the box may stand in a chart of so many inputs and boxes.
    // Kept: a match, since each box has fields of its own; closures would be no plainer.
    pub fn may_stand(self, inputs: u8, boxes: u8) -> bool {
        match self {
            ChartBox::Assignment {
                target,
                meaning,
                left,
                right,
                next,
                constant,
            } => {
                is_target(target)
                    && next < boxes
                    && (meaning == Meaning::Constant || constant == 0)
                    && operand_holds(left, inputs, meaning.reads_left())
                    && operand_holds(right, inputs, meaning.reads_right())
            }
            ChartBox::Decision {
                comparison: _,
                left,
                right,
                if_true,
                if_false,
            } => {
                is_variable(left, inputs)
                    && is_variable(right, inputs)
                    && if_true < boxes
                    && if_false < boxes
            }
            ChartBox::Halt => true,
            ChartBox::Choice {
                target,
                comparison: _,
                left,
                right,
                next,
                if_true,
                if_false,
            } => {
                is_target(target)
                    && next < boxes
                    && is_variable(left, inputs)
                    && is_variable(right, inputs)
                    && is_variable(if_true, inputs)
                    && is_variable(if_false, inputs)
            }
        }
    }
}

fn is_target(variable: u8) -> bool {
    (16..=31).contains(&variable)
}

// An input, or a variable 16 to 31.
fn is_variable(variable: u8, inputs: u8) -> bool {
    variable < inputs || is_target(variable)
}

// An operand that is read is a variable, and one that is not is 0.
fn operand_holds(operand: u8, inputs: u8, is_read: bool) -> bool {
    if is_read {
        is_variable(operand, inputs)
    } else {
        operand == 0
    }
}

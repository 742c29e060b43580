// What one box of a chart does, by the edition of the chart, the mode and its masks, the
// variables, their marks and the counter mark.
// Kept: editions, operations and comparisons are bytes, since any byte is promised an act
// (`run_box`).
#![tactic(auto)]

ghost use Rattle.std.specs.Prelude.{◌≡◌, ◌%◌, [], ◌∷◌};
ghost use Rattle.operations.specs.Operation.{read_by, value_of, chosen};
ghost use Rattle.decode.specs.Decode.{meaning};
ghost use Rattle.marks.specs.Marks.{mode_in, union, set_by};
ghost use Rattle.machine.specs.Act.{entry, entries, act_by};

use decode::FlowBox;
use marks::{Masks, Mode};

// It stores a value and a mark, it goes to a box with a counter mark, or it ends the run with a
// value or with a notice that names these inputs.
#[derive(Clone, Copy, Debug, PartialEq, Eq)]
pub enum Act {
    Store {
        target: u8,
        value: u32,
        mark: u16,
        next: u8,
    },
    Go {
        next: u8,
        counter: u16,
    },
    Value(u32),
    Notice(u16),
}

// A value and a mark: a variable's, or what an operation gives and the union of the marks that it
// reads.
#[derive(Clone, Copy)]
struct Marked {
    value: u32,
    mark: u16,
}

impl Marked {
    // Kept: the name and both fields of a literal take four lines in each of fourteen places.
    fn new(value: u32, mark: u16) -> Marked
        ensures { result ≡ record { value = value; mark = mark } }
    {
        Marked { value, mark }
    }
}

// What an operation gives of its constant and its left and right operands, and the union of the
// marks that it reads; what it does not read does not matter.
// Kept: a match, whose arms are one call each.
#[tactic(auto, using(crate::proofs::Acts::reads), unfolding(operations::specs::Operation::read_by, operations::specs::Operation::value_of, operations::specs::Operation::value_of_left, operations::specs::Operation::value_of_both, marks::specs::Marks::union))]
fn operate(edition: u8, op: u8, constant: u32, left: Marked, right: Marked) -> Marked
    ensures value { result.value ≡ value_of edition op constant (read_by edition op left.value right.value) }
    ensures mark { result.mark ≡ union (read_by edition op left.mark right.mark) }
{
    let a = left.value;
    let b = right.value;
    let one = left.mark;
    let both = left.mark | right.mark;
    match op {
        0 => Marked::new(constant, 0),
        1 => left,
        2 => Marked::new(operations::sum(edition, a, b), both),
        3 => Marked::new(operations::difference(edition, a, b), both),
        4 => Marked::new(operations::product(a, b), both),
        5 => Marked::new(operations::quotient(a, b), both),
        6 => Marked::new(operations::remainder(a, b), both),
        7 => Marked::new(a.min(b), both),
        8 => Marked::new(a.max(b), both),
        9 => Marked::new(a.count_ones(), one),
        10 => Marked::new(a.leading_zeros(), one),
        _ => {
            let zeros = a.trailing_zeros();
            if boxes::reads_right(edition, op) {
                return Marked::new(zeros.min(b), both);
            }
            Marked::new(zeros, one)
        }
    }
}

// Where a variable stands among the 32, by its number.
fn place(v: u8) -> usize
    ensures { result ≡ v % 32 }
{
    usize::from(v % 32)
}

// The 32 variables and their marks, by number. Kept: two arrays, as 01 has the runner.
#[derive(Clone, Copy)]
pub struct Variables<'a> {
    pub values: &'a [u32; 32],
    pub marks: &'a [u16; 32],
}

impl Variables<'_> {
    fn variable(self, v: u8) -> Marked
        ensures value { result.value ≡ entry self.entry.values.now v }
        ensures mark { result.mark ≡ entry self.entry.marks.now v }
    {
        let i = place(v);
        Marked::new(self.values[i], self.marks[i])
    }

    // What a choice gives: the value of one variable or of the other, by the comparison, and the
    // union of all four marks, whichever is copied. Kept: the fields of a choice, handed on once.
    #[tactic(auto, using(crate::proofs::Acts::reads), unfolding(operations::specs::Operation::chosen, operations::specs::Operation::compares, marks::specs::Marks::union))]
    fn choose(self, comparison: u8, left: u8, right: u8, one: u8, other: u8) -> Marked
        ensures value { result.value ≡ chosen comparison (entries self.entry.values.now (left ∷ right ∷ one ∷ other ∷ [])) }
        ensures mark { result.mark ≡ union (entries self.entry.marks.now (left ∷ right ∷ one ∷ other ∷ [])) }
    {
        let left = self.variable(left);
        let right = self.variable(right);
        let i = place(one);
        let j = place(other);
        let read = left.mark | (right.mark | (self.marks[i] | self.marks[j]));
        // Of the two values only the one that is copied is loaded.
        if operations::compare(comparison, left.value, right.value) {
            return Marked::new(self.values[i], read);
        }
        Marked::new(self.values[j], read)
    }

    // What a box that assigns does, of what it gives: it stores the value, and sets its target's
    // mark by the masks. It is given no mode.
    fn store(self, masks: Masks, target: u8, given: Marked, next: u8) -> Act
        ensures { result ≡ Act.Store target given.value (set_by masks (entry self.entry.marks.now target) given.mark) next }
    {
        Act::Store {
            target,
            value: given.value,
            mark: marks::set_mark(masks, self.marks[place(target)], given.mark),
            next,
        }
    }
}

// What the box does; an assignment sets its target's mark by the masks. By those of the mode this
// is the box's act by the rules (`act`). Kept: the mode beside its masks, which are settled once
// for many boxes; and 0 for no notice, as in `marks`.
#[tactic(auto, using(crate::proofs::Acts::reads), unfolding(decode::specs::Decode::meaning, crate::specs::Act::act_by, marks::specs::Marks::union))]
pub fn run_box(
    edition: u8,
    mode: Mode,
    masks: Masks,
    b: FlowBox,
    variables: Variables,
    counter: u16,
) -> Act
    ensures { result ≡ act_by (set_by masks) (mode_in mode) (meaning edition b) variables.entry.values.now variables.entry.marks.now counter }
{
    // Kept: a match, since each box has fields of its own; closures would be no plainer.
    match b {
        FlowBox::Assign {
            target,
            op,
            left,
            right,
            next,
            constant,
        } => {
            let left = variables.variable(left);
            let right = variables.variable(right);
            let given = operate(edition, op, constant, left, right);
            variables.store(masks, target, given, next)
        }
        FlowBox::Decide {
            comparison,
            left,
            right,
            next,
            other,
        } => {
            let left = variables.variable(left);
            let right = variables.variable(right);
            let read = left.mark | right.mark;
            let stops = marks::decision_notice(mode, read);
            if stops != 0 {
                return Act::Notice(marks::named_by(mode, stops));
            }
            let taken = operations::compare(comparison, left.value, right.value);
            let after = marks::counter_mark(mode, counter, read);
            // Two returns, so that the compiler branches here: the processor then goes on to a box
            // before the variables are compared.
            if taken {
                return Act::Go {
                    next,
                    counter: after,
                };
            }
            Act::Go {
                next: other,
                counter: after,
            }
        }
        FlowBox::Halt => {
            let output = variables.variable(31);
            let ends = marks::halt_notice(mode, counter, output.mark);
            if ends != 0 {
                return Act::Notice(marks::named_by(mode, ends));
            }
            Act::Value(output.value)
        }
        FlowBox::Choose {
            target,
            comparison,
            left,
            right,
            next,
            one,
            other,
        } => {
            let given = variables.choose(comparison, left, right, one, other);
            variables.store(masks, target, given, next)
        }
    }
}

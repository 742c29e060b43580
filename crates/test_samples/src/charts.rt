// Random charts that obey the rules: of both editions and all sizes, with loops, every kind of box,
// operation and comparison, and halts on many ways; often all boxes are alike in both editions, and
// often there are many decisions between two copies, which the rewriter replaces, and near misses
// of such.
// Kept: a box is its ten bytes, with kind, operation and comparison as the numbers of a file: what
// is drawn is for the code under test, and shares no type with it. Where one of several things is
// drawn, a number is, and a match gives each its share; a table would repeat entries for that.
ghost use Rattle.std.specs.Prelude.{◌<◌, ◌≤◌};

use crate::files;
use crate::files::{File, low};
use crate::random::Random;

#[derive(Clone, Copy, Debug, PartialEq, Eq)]
enum Edition {
    One = 1,
    Two = 2,
}

// A chart's numbers of inputs and of boxes, its edition, and a number below which its boxes are
// alike in both editions.
#[derive(Clone, Copy, Debug)]
pub struct Shape {
    pub inputs: u32,
    pub boxes: u32,
    edition: Edition,
    alike: u32,
}

const HALT: [u8; 10] = [3, 0, 0, 0, 0, 0, 0, 0, 0, 0];

// Often few boxes, often a number at which a file gets a block more.
fn boxes_number(random: &mut Random) -> u32
    ensures { result ≤ 204 }
{
    match random.below(8) {
        0 | 1 | 2 => 1 + random.below(8),
        3 => 51 + random.below(2),
        4 => 102 + random.below(2),
        5 => 153 + random.below(2),
        6 => 203 + random.below(2),
        _ => 1 + random.below(204),
    }
}

// A variable 16 to 31, mostly one of four.
fn variable(random: &mut Random) -> u8 {
    match random.below(6) {
        0 | 1 => 31,
        2 => low(16 + random.below(16)),
        _ => low(16 + random.below(3)),
    }
}

// Operations 2, 3 and 11 are those in which the editions differ.
fn operation(random: &mut Random, alike: bool) -> u8 {
    if random.one_in(6) {
        return 0;
    }
    match low(random.below(12)) {
        2 | 3 if alike => 1,
        11 if alike => 10,
        op => op,
    }
}

// Whether an operation other than 0 reads its right operand in an edition.
// Kept: said here again, apart from the rules of `boxes`, which are tested on these charts.
fn reads_right(edition: Edition, op: u8) -> bool {
    match op {
        1 | 9 | 10 => false,
        11 => edition == Edition::Two,
        _ => true,
    }
}

// A next box of a fork, which is a decision and its two next boxes: a copy into a target, or a near
// miss of one. A near miss has another target, next box or operation, or is a decision or a choice,
// of comparison 1, where a copy has its operation.
#[derive(Clone, Copy, Debug)]
enum Branch {
    Copy,
    OtherTarget,
    OtherNext,
    OtherOperation,
    Decision,
    Choice,
}

impl Branch {
    fn draw(random: &mut Random) -> Branch {
        match random.below(32) {
            0 => Branch::OtherTarget,
            1 => Branch::OtherNext,
            2 => Branch::OtherOperation,
            3 => Branch::Decision,
            4 => Branch::Choice,
            _ => Branch::Copy,
        }
    }
}

impl Shape {
    // Mostly the next box in the file, the first one after the last.
    fn next_box(self, random: &mut Random, p: u32) -> u8 {
        if random.one_in(4) {
            return low(random.below(self.boxes));
        }
        let next = p.wrapping_add(1);
        if next < self.boxes { low(next) } else { 0 }
    }

    fn operand(self, random: &mut Random) -> u8 {
        if self.inputs == 0 || random.one_in(2) {
            return variable(random);
        }
        low(random.below(self.inputs))
    }

    fn assignment(self, random: &mut Random, p: u32, next: u8) -> [u8; 10] {
        let target = variable(random);
        let op = operation(random, p < self.alike);
        let left = self.operand(random);
        let right = self.operand(random);
        let [c0, c1, c2, c3] = random.edge().to_le_bytes();
        if op == 0 {
            return [1, target, op, 0, 0, next, c0, c1, c2, c3];
        }
        if reads_right(self.edition, op) {
            return [1, target, op, left, right, next, 0, 0, 0, 0];
        }
        [1, target, op, left, 0, next, 0, 0, 0, 0]
    }

    fn decision(self, random: &mut Random, next: u8, other: u8) -> [u8; 10] {
        let comparison = low(random.below(3));
        let left = self.operand(random);
        let right = self.operand(random);
        [2, 0, comparison, left, right, next, other, 0, 0, 0]
    }

    // Whether the box at a place may be of kind 4, which edition 1 lacks.
    fn may_choose(self, p: u32) -> bool {
        self.edition == Edition::Two && self.alike <= p
    }

    fn choice(self, random: &mut Random, target: u8, comparison: u8, next: u8) -> [u8; 10] {
        let left = self.operand(random);
        let right = self.operand(random);
        let if_true = self.operand(random);
        let if_false = self.operand(random);
        [
            4, target, comparison, left, right, next, if_true, if_false, 0, 0,
        ]
    }

    fn random_box(self, random: &mut Random, p: u32) -> [u8; 10] {
        let kind = random.below(16);
        let next = self.next_box(random, p);
        match kind {
            0 | 1 if self.may_choose(p) => {
                let target = variable(random);
                let comparison = low(random.below(3));
                self.choice(random, target, comparison, next)
            }
            0..=10 => self.assignment(random, p, next),
            11..=13 => {
                let other = self.next_box(random, p);
                self.decision(random, next, other)
            }
            _ => HALT,
        }
    }

    // A choice cannot stand at every place, and a copy does there.
    fn branch(self, random: &mut Random, p: u32, target: u8, next: u8, made: Branch) -> [u8; 10] {
        let from = self.operand(random);
        let elsewhere = self.next_box(random, p);
        match made {
            Branch::OtherTarget => [1, variable(random), 1, from, 0, next, 0, 0, 0, 0],
            Branch::OtherNext => [1, target, 1, from, 0, elsewhere, 0, 0, 0, 0],
            Branch::OtherOperation => [1, target, 9, from, 0, next, 0, 0, 0, 0],
            Branch::Decision => [2, 0, 1, from, target, next, elsewhere, 0, 0, 0],
            Branch::Choice if self.may_choose(p) => self.choice(random, target, 1, next),
            Branch::Choice | Branch::Copy => [1, target, 1, from, 0, next, 0, 0, 0, 0],
        }
    }
}

// None, a few, or as many as there is room for.
fn forks_number(random: &mut Random, n: u32) -> u32 {
    match random.below(4) {
        0 => 0,
        1 => 1 + random.below(3),
        _ => n / 4,
    }
}

// Often all boxes of a chart are alike in both editions, and often those below one of them.
fn alike_below(random: &mut Random, n: u32) -> u32 {
    match random.below(6) {
        0 | 1 => n,
        2 => random.below(n),
        _ => 0,
    }
}

// The file of a chart in the making, at the front of a buffer, and its length.
// Kept: the length stands beside the buffer, since what is behind it may be changed too, and may
// come to be in the file.
#[derive(Clone, Copy)]
pub struct Draft {
    pub file: File,
    pub length: usize,
    pub shape: Shape,
}

impl Draft {
    fn put_boxes(&mut self, random: &mut Random) {
        for p in 0..self.shape.boxes {
            files::put_box(&mut self.file, p, self.shape.random_box(random, p));
        }
    }

    // Mostly a fork that the rewriter makes one box of. At times it goes back to its decision, to a
    // halt, or to one box twice; its next boxes are near misses of one kind; or another decision
    // goes to them too. What is put later may fall on it.
    fn put_fork(&mut self, random: &mut Random, p: u32) {
        let shape = self.shape;
        let one = shape.next_box(random, p);
        let after = shape.next_box(random, u32::from(one));
        let other = if random.one_in(16) { one } else { after };
        let past = shape.next_box(random, u32::from(other));
        let next = if random.one_in(16) { low(p) } else { past };
        let target = variable(random);
        let made = Branch::draw(random);
        let near = if random.one_in(2) {
            made
        } else {
            Branch::draw(random)
        };
        let first = shape.branch(random, u32::from(one), target, next, made);
        let second = shape.branch(random, u32::from(other), target, next, near);
        files::put_box(&mut self.file, u32::from(one), first);
        files::put_box(&mut self.file, u32::from(other), second);
        if random.one_in(3) {
            files::put_box(&mut self.file, u32::from(next), HALT);
        }
        if random.one_in(4) {
            let again = shape.decision(random, other, one);
            files::put_box(&mut self.file, random.below(shape.boxes), again);
        }
        let fork = shape.decision(random, one, other);
        files::put_box(&mut self.file, p, fork);
    }

    // Forks at every fourth box from the first on, and at times anywhere.
    fn put_forks(&mut self, random: &mut Random, count: u32) {
        for i in 0..count {
            let anywhere = random.below(self.shape.boxes);
            let is_astray = random.one_in(6);
            let fourth = 4 * (i % 64);
            let p = if is_astray || self.shape.boxes <= fourth {
                anywhere
            } else {
                fourth
            };
            self.put_fork(random, p);
        }
    }
}

// A file that load accepts; the rest of the buffer is 0 but for the checks of its blocks.
pub fn make(random: &mut Random) -> Draft {
    let boxes = boxes_number(random);
    let inputs = random.below(17);
    let any = random.below(boxes);
    let first = if random.one_in(2) { 0 } else { any };
    let edition = if random.one_in(2) {
        Edition::One
    } else {
        Edition::Two
    };
    let alike = alike_below(random, boxes);
    let shape = Shape {
        inputs,
        boxes,
        edition,
        alike,
    };
    let mut draft = Draft {
        file: [0; 3072],
        length: files::length_of(boxes),
        shape,
    };
    files::put_header(&mut draft.file, edition as u32, inputs, boxes, first);
    draft.put_boxes(random);
    let forks = forks_number(random, boxes);
    draft.put_forks(random, forks);
    files::mend(&mut draft.file);
    draft
}

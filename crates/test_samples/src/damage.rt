// Damage to a chart's file: one change of one kind, or two, or two blocks exchanged.
// Kept: a kind of damage is drawn as a number, and a match gives each its share.
use crate::charts::{Draft, Shape};
use crate::files::{File, front, get, low, put};
use crate::random::Random;
use crate::{charts, files};

impl Shape {
    // A byte that may stand at an edge of a rule.
    fn edge_byte(self, random: &mut Random) -> u8 {
        match random.below(8) {
            0 => low(random.below(5)),
            1 => low(15 + random.below(2)),
            2 => low(31 + random.below(2)),
            3 => low(self.inputs.wrapping_add(random.below(2))),
            4 => low(self.inputs.wrapping_sub(1)),
            5 => low(self.boxes.wrapping_add(random.below(2))),
            6 => low(self.boxes.wrapping_sub(1)),
            _ => low(random.next()),
        }
    }

    // Two blocks of boxes, where the file has two.
    fn two_blocks(self, random: &mut Random) -> Option<(u32, u32)> {
        let last = (self.boxes % 256).div_ceil(51);
        if last < 2 {
            return None;
        }
        let j = 2 + random.below(last - 1);
        let i = 1 + random.below(j - 1);
        Some((i, j))
    }
}

impl Draft {
    fn mend(&mut self) {
        files::mend(&mut self.file);
    }

    // Another byte than the one that stands there.
    fn change(&mut self, random: &mut Random, at: usize) {
        let by = 1 + random.below(255);
        let byte = u32::from(get(&self.file, at));
        put(&mut self.file, at, low(byte + by));
    }

    // One byte anywhere; the checks are mended half of the time.
    fn any_byte(&mut self, random: &mut Random) {
        let at = match u32::try_from(self.length) {
            Ok(length) => random.index(length),
            Err(_) => 0,
        };
        self.change(random, at);
        if random.one_in(2) {
            self.mend();
        }
    }

    // One of the header's eight bytes.
    fn header_byte(&mut self, random: &mut Random) {
        let at = random.index(8);
        let byte = self.shape.edge_byte(random);
        put(&mut self.file, at, byte);
        self.mend();
    }

    // Another edition, 0 to 3, or the same.
    fn edition_byte(&mut self, random: &mut Random) {
        put(&mut self.file, 4, low(random.below(4)));
        self.mend();
    }

    // One of the header's bytes that have to be 0.
    fn empty_byte(&mut self, random: &mut Random) {
        let at = match random.below(4) {
            0 => 8,
            1 => 509,
            _ => 8 + random.index(502),
        };
        self.change(random, at);
        self.mend();
    }

    // One byte of a box.
    fn box_byte(&mut self, random: &mut Random) {
        let start = files::place(random.below(self.shape.boxes));
        let at = random.index(10);
        let byte = self.shape.edge_byte(random);
        put(&mut self.file, start + at, byte);
        self.mend();
    }

    // One byte of a place after the last box.
    fn byte_past_boxes(&mut self, random: &mut Random) {
        let past = self.shape.boxes.wrapping_add(random.below(52));
        let start = files::place(past);
        let at = random.index(10);
        self.change(random, start + at);
        self.mend();
    }

    // One byte of a block's check.
    fn check_byte(&mut self, random: &mut Random) {
        let block = 512 * random.index(5);
        let at = random.index(2);
        self.change(random, block + 510 + at);
    }

    // The checks of the other edition, which is 2 where byte 4 is that of neither.
    // Kept: editions are bytes here, as byte 4 may be that of none.
    fn other_checks(&mut self) {
        let edition = if self.file[4] == 2 { 1 } else { 2 };
        files::seal(&mut self.file, edition);
    }

    // A length that may be that of no chart, or of another one.
    fn other_length(&mut self, random: &mut Random) {
        self.length = match random.below(8) {
            0 => 0,
            1 => self.length.wrapping_add(1),
            2 => self.length.wrapping_sub(1),
            3 => random.index(3073),
            _ => 512 * random.index(7),
        };
    }

    fn damage(&mut self, random: &mut Random) {
        match random.below(14) {
            0 | 1 => self.any_byte(random),
            2 | 3 => self.header_byte(random),
            4 => self.empty_byte(random),
            5 | 6 | 7 => self.box_byte(random),
            8 => self.byte_past_boxes(random),
            9 => self.check_byte(random),
            10 => self.edition_byte(random),
            11 => self.other_checks(),
            _ => self.other_length(random),
        }
    }
}

// A file that was drawn, at the front of a buffer, and whether it is a chart's with two box blocks
// exchanged and nothing else changed.
// Kept: a flag, since the file is there either way; an Option would have no more to hold. And a
// length stands beside the buffer, as what was drawn is copied, and no ArrayVec is.
#[derive(Clone, Copy)]
pub struct Drawn {
    pub buffer: File,
    pub length: usize,
    pub exchanged: bool,
}

impl Drawn {
    pub fn bytes(&self) -> &[u8] {
        front(&self.buffer, self.length)
    }
}

// The file of a random chart. One time in three there is a change to it, one time in four two; or
// two blocks are exchanged, where it has them.
pub fn draw(random: &mut Random) -> Drawn {
    let mut draft = charts::make(random);
    let mut exchanged = false;
    if random.one_in(3) {
        if random.one_in(8) {
            if let Some((i, j)) = draft.shape.two_blocks(random) {
                files::exchange(&mut draft.file, i, j);
                exchanged = true;
            }
        } else {
            draft.damage(random);
            if random.one_in(4) {
                draft.damage(random);
            }
        }
    }
    Drawn {
        buffer: draft.file,
        length: draft.length,
        exchanged,
    }
}

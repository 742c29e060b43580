// A chart: the bytes of its file, and what its header says.
ghost use Rattle.std.specs.Prelude.{◌≤◌, IsSome, length};

use crate::boxes::ChartBox;
use crate::numbers::Edition;
use crate::told::{Refusal, Reply, Told};
use crate::{blocks, choices};

// The file's bytes, with zeros behind them, and the edition and the numbers of inputs and of boxes
// that they say, with the first box.
#[derive(Clone, Copy)]
pub struct Chart {
    bytes: [u8; 2560],
    pub edition: Edition,
    pub inputs: u8,
    pub boxes: u8,
    pub first: u8,
}

// How many blocks of boxes a file of a chart's length has.
fn box_blocks(file: &[u8]) -> Option<u8>
    ensures { IsSome result → length file.now ≤ 2560 }
{
    match file.len() {
        1024 => Some(1),
        1536 => Some(2),
        2048 => Some(3),
        2560 => Some(4),
        _ => None,
    }
}

impl Chart {
    // The chart of a file, or what load's six input checks refuse, in their order.
    pub fn read(file: &[u8]) -> Result<Chart, Refusal> {
        let box_blocks = box_blocks(file).ok_or(Refusal::Length)?;
        if let Some(block) = blocks::differing(file) {
            return Err(Refusal::Check(block));
        }
        let Some([edition, inputs, boxes, first, zeros @ ..]) = file.strip_prefix(b"FLOW") else {
            return Err(Refusal::Letters);
        };
        let edition = Edition::of(*edition).ok_or(Refusal::Letters)?;
        let mut bytes = [0; 2560];
        bytes[..file.len()].copy_from_slice(file);
        let chart = Chart {
            bytes,
            edition,
            inputs: *inputs,
            boxes: *boxes,
            first: *first,
        };
        let is_empty = zeros.iter().take(502).all(|byte| *byte == 0);
        if !is_empty || !chart.has_range() {
            return Err(Refusal::Header);
        }
        if chart.boxes.div_ceil(51) != box_blocks {
            return Err(Refusal::Blocks);
        }
        match (0..51 * box_blocks).find(|number| !chart.place_holds(*number)) {
            Some(number) => Err(Refusal::Place(number)),
            None => Ok(chart),
        }
    }

    fn has_range(&self) -> bool {
        self.inputs <= 16 && (1..=204).contains(&self.boxes) && self.first < self.boxes
    }

    // A place past the last box has zeros alone.
    fn place_holds(&self, number: u8) -> bool {
        let bytes = blocks::place(&self.bytes, number);
        if self.boxes <= number {
            return bytes == [0; 10];
        }
        match ChartBox::of(self.edition, bytes) {
            Some(found) => found.may_stand(self.inputs, self.boxes),
            None => false,
        }
    }

    // The length of the file follows from the number of boxes.
    fn length(&self) -> u16 {
        512 * (1 + u16::from(self.boxes.div_ceil(51)))
    }

    fn file(&self) -> &[u8] {
        let length = usize::from(self.length());
        self.bytes.get(..length).unwrap_or(&self.bytes)
    }

    // Puts the file at the front of `out`.
    pub fn write(&self, out: &mut [u8]) -> Told {
        let file = self.file();
        let front = out.get_mut(..file.len()).ok_or(Refusal::Room)?;
        front.copy_from_slice(file);
        Ok(Reply::Written {
            length: self.length(),
        })
    }

    pub fn box_at(&self, number: u8) -> Option<ChartBox> {
        ChartBox::of(self.edition, blocks::place(&self.bytes, number))
    }

    // The ten bytes of a box.
    pub fn show(&self, number: u32) -> Option<[u8; 10]> {
        let number = u8::try_from(number).ok()?;
        (number < self.boxes).then_some(blocks::place(&self.bytes, number))
    }

    // Decisions between two copies become choices.
    pub fn rewrite(&mut self) {
        choices::rewrite(&mut self.bytes, self.boxes);
        blocks::seal(&mut self.bytes);
    }

    // Whether the bytes of a box say something else in the other edition, or nothing at all there:
    // operations differ in what they mean, kinds 2 and 3 are alike, and kind 4 is edition 2's own.
    fn differs(&self, number: u8) -> bool {
        let bytes = blocks::place(&self.bytes, number);
        ChartBox::of(Edition::One, bytes) != ChartBox::of(Edition::Two, bytes)
    }

    // The same chart in the other edition, or the first box that differs there. No path is
    // followed: a box that none reaches counts.
    pub fn in_other_edition(mut self) -> Result<Chart, Refusal> {
        if let Some(number) = (0..self.boxes).find(|number| self.differs(*number)) {
            return Err(Refusal::OtherEdition(number));
        }
        self.edition = self.edition.other();
        self.bytes[4] = self.edition as u8;
        blocks::seal(&mut self.bytes);
        Ok(self)
    }
}

// Random calls in random order with random arguments.
use crate::pair::{Difference, Pair};
use test_samples::arguments;
use test_samples::files::{byte, low};
use test_samples::random::Random;

// A random case: the pair, the random numbers, and a file, which may be a chart's.
#[derive(Drop)]
pub struct Case<'a> {
    pub pair: &'a mut Pair,
    pub random: &'a mut Random,
    pub file: &'a [u8],
}

impl Case<'_> {
    fn begin(&mut self) -> Result<(), Difference> {
        let inputs = u32::from(self.pair.chart.inputs);
        let a = arguments::begin(self.random, inputs);
        self.pair.begin(&a)
    }

    // In a part of the buffer that starts anywhere.
    fn write_back(&mut self) -> Result<(), Difference> {
        let boxes = u32::from(self.pair.chart.boxes);
        let room = arguments::room(self.random, boxes);
        let from = self.random.index(40);
        let filled = low(self.random.next());
        self.pair.write_back(from, room, filled)
    }

    fn convert(&mut self) -> Result<(), Difference> {
        let room = arguments::room(self.random, byte(self.file, 6));
        let from = self.random.index(40);
        let filled = low(self.random.next());
        self.pair.convert(self.file, from, room, filled)
    }

    fn advance(&mut self) -> Result<(), Difference> {
        let m = arguments::amount(self.random, self.pair.limit);
        self.pair.advance(m)
    }

    fn show(&mut self) -> Result<(), Difference> {
        let number = arguments::number(self.random, self.file);
        self.pair.show(self.file, number)
    }

    // Kept: a call is drawn as a number, and a match gives each its share.
    fn call(&mut self) -> Result<(), Difference> {
        match self.random.below(34) {
            0..=1 => self.pair.load(self.file),
            2..=11 => self.begin(),
            12..=23 => self.advance(),
            24..=25 => self.pair.answer(),
            26 => self.pair.abandon(),
            27..=28 => self.write_back(),
            29 => self.convert(),
            30..=31 => self.pair.rewrite(),
            _ => self.show(),
        }
    }

    // A load, mostly with no run under way, and then calls of every kind.
    pub fn list(&mut self) -> Result<(), Difference> {
        if !self.random.one_in(4) {
            self.pair.abandon()?;
        }
        self.pair.load(self.file)?;
        for _ in 0..24 {
            self.call()?;
        }
        Ok(())
    }
}

// Random arguments of calls, of which some are to be refused.
// Kept: where one of several things is drawn, a number is, and a match gives each of them its
// share.
use crate::files;
use crate::random::Random;

// The arguments of a begin, whose inputs are the first `count` numbers.
// Kept: the mode is a number, since one that is no mode is drawn too. And a count stands beside an
// array, as arguments are copied, and no ArrayVec is.
#[derive(Clone, Copy)]
pub struct Arguments {
    pub mode: u32,
    pub numbers: [u32; 20],
    pub count: usize,
    pub allowed: u32,
    pub limit: u32,
}

impl Arguments {
    pub fn inputs(&self) -> &[u32] {
        files::front(&self.numbers, self.count)
    }
}

// The steps that a limit means.
// Kept: 01 lets 0 stand for 4,096, and a limit is drawn as it is given to begin.
// It is said here again, apart from `begin`, which is tested by these arguments.
pub fn steps_within(limit: u32) -> u32 {
    if limit == 0 { 4096 } else { limit }
}

// Draws the arguments of one begin; of a bad one each may break its rule.
#[derive(Drop)]
struct Draw<'a> {
    random: &'a mut Random,
    bad: bool,
}

impl Draw<'_> {
    fn breaks(&mut self) -> bool {
        let breaks = self.random.one_in(2);
        self.bad && breaks
    }

    fn mode(&mut self) -> u32 {
        if self.breaks() {
            return self.random.edge();
        }
        self.random.below(3)
    }

    fn count(&mut self, k: u32) -> usize {
        if self.breaks() {
            return self.random.index(20);
        }
        usize::from(files::low(k % 20))
    }

    fn allowed(&mut self, k: u32) -> u32 {
        let all = (1u32 << (k % 32)).wrapping_sub(1);
        let kind = self.random.below(4);
        if self.breaks() {
            return self.random.edge();
        }
        match kind {
            0 => 0,
            1 => all,
            _ => self.random.next() & all,
        }
    }

    // Mostly small, so that runs are short.
    fn limit(&mut self) -> u32 {
        if self.breaks() {
            return 65530 + self.random.edge() % 1000000;
        }
        match self.random.below(512) {
            0 => 65535,
            1 => 1 + self.random.below(65535),
            2..=15 => 0,
            16..=100 => 1 + self.random.below(300),
            _ => 1 + self.random.below(24),
        }
    }

    fn numbers(&mut self) -> [u32; 20] {
        let mut numbers = [0; 20];
        for number in &mut numbers {
            *number = self.random.edge();
        }
        numbers
    }
}

// A begin on a chart of k inputs.
pub fn begin(random: &mut Random, k: u32) -> Arguments {
    let bad = random.one_in(8);
    let mut draw = Draw { random, bad };
    let mode = draw.mode();
    let count = draw.count(k);
    let allowed = draw.allowed(k);
    let limit = draw.limit();
    Arguments {
        mode,
        numbers: draw.numbers(),
        count,
        allowed,
        limit,
    }
}

// The boxes of an advance, at times around the limit of the run, which a high-water run is to be
// advanced by at once.
pub fn amount(random: &mut Random, limit: u32) -> u32 {
    match random.below(12) {
        0 => random.below(3),
        1 => u32::MAX,
        2 => random.edge(),
        3 => random.below(400),
        4 => limit.wrapping_sub(1),
        5 => limit.wrapping_add(1 + random.below(100)),
        6 | 7 => limit,
        _ => random.below(8),
    }
}

// The room of a write back or of a conversion: around the length of the file, none, or any.
pub fn room(random: &mut Random, boxes: u32) -> usize {
    let length = files::length_of(boxes);
    match random.below(8) {
        0 => 0,
        1 => length + 1,
        2 => length.wrapping_sub(1),
        3 => random.index(2601),
        4 => 2600,
        _ => length,
    }
}

// The number of a box to show.
pub fn number(random: &mut Random, file: &[u8]) -> u32 {
    let n = files::byte(file, 6);
    match random.below(6) {
        0 => n,
        1 => n + 1,
        2 => random.edge(),
        3 => random.below(256),
        _ => random.below(n),
    }
}

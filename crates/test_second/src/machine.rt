// A run: its variables and marks, and the boxes that it takes out of the file one by one.
use crate::boxes::ChartBox;
use crate::chart::Chart;

#[derive(Clone, Copy, Debug, PartialEq, Eq)]
pub enum Mode {
    Bare,
    Surveillance,
    HighWater,
}

impl Mode {
    pub fn of(number: u32) -> Option<Mode> {
        match number {
            0 => Some(Mode::Bare),
            1 => Some(Mode::Surveillance),
            2 => Some(Mode::HighWater),
            _ => None,
        }
    }
}

// How a run ends. `named` is the set of the inputs named, bit j for input j.
#[derive(Clone, Copy, Debug, PartialEq, Eq)]
pub enum Ending {
    Value { value: u32, steps: u32 },
    Notice { steps: u32, named: u32 },
    Spent { steps: u32 },
}

// A run under way. Word j of `marks` is about input j alone: its bit v is set where the set of
// variable v has input j. `counter` is one set, bit j for input j. `at` is the box at hand, and
// `steps` the count of the boxes run.
// Kept: sets as words by input, and not by variable as in the first interpreter, are this one's own
// structure, in which it was written apart.
#[derive(Clone, Copy)]
pub struct Run {
    vars: [u32; 32],
    marks: [u32; 16],
    counter: u32,
    pub mode: Mode,
    at: u8,
    pub steps: u32,
    pub limit: u32,
}

// 2 to the power of `v`, which is below 32.
pub fn bit(v: u8) -> u32 {
    1 << (v % 32)
}

// The word of one input after a guarded assignment to `target` from the variables in `read`. A bare
// run leaves it as it is.
fn word_after(mode: Mode, word: u32, target: u8, read: u32) -> u32 {
    match mode {
        Mode::Bare => word,
        _ if word & read != 0 => word | bit(target),
        Mode::Surveillance => word & !bit(target),
        Mode::HighWater => word,
    }
}

impl Run {
    // A run of a chart at its first box, in which the inputs in `allowed` are not withheld, a set
    // of inputs that the chart has.
    pub fn start(chart: &Chart, mode: Mode, inputs: &[u32], allowed: u32, limit: u32) -> Run {
        let mut vars = [0; 32];
        for (var, input) in vars.iter_mut().zip(inputs) {
            *var = *input;
        }
        let mut marks = [0; 16];
        for (mark, input) in marks.iter_mut().zip(0..chart.inputs) {
            *mark = bit(input) & !allowed;
        }
        Run {
            vars,
            marks,
            counter: 0,
            mode,
            at: chart.first,
            steps: 0,
            limit,
        }
    }

    fn value(&self, variable: u8) -> u32 {
        self.vars[usize::from(variable % 32)]
    }

    // The union of the sets of the variables in `read`: the inputs whose words meet it.
    fn named(&self, read: u32) -> u32 {
        let mut set = 0;
        for (word, input) in self.marks.iter().zip(0..) {
            if word & read != 0 {
                set |= bit(input);
            }
        }
        set
    }

    // A value is stored that was made of the variables in `read`. Each word of the marks follows
    // from itself: no rule lets one input into a set because of another.
    fn assign(&mut self, target: u8, value: u32, read: u32, next: u8) {
        self.vars[usize::from(target % 32)] = value;
        for word in &mut self.marks {
            *word = word_after(self.mode, *word, target, read);
        }
        self.at = next;
    }

    // The notice of a high-water run: no count and no set, as either could follow withheld inputs.
    fn uncounted() -> Ending {
        Ending::Notice { steps: 0, named: 0 }
    }

    fn notice(&self, named: u32) -> Ending {
        Ending::Notice {
            steps: self.steps,
            named,
        }
    }

    // Where a decision reads a mark, a run under surveillance ends.
    fn decide(&mut self, read: u32, next: u8) -> Option<Ending> {
        let set = self.named(read);
        if self.mode == Mode::Surveillance && set != 0 {
            return Some(self.notice(set));
        }
        self.counter |= set;
        self.at = next;
        None
    }

    fn halt(&self) -> Ending {
        let set = self.named(bit(31));
        match self.mode {
            Mode::Surveillance if set != 0 => self.notice(set),
            Mode::HighWater if (set | self.counter) != 0 => Run::uncounted(),
            _ => Ending::Value {
                value: self.value(31),
                steps: self.steps,
            },
        }
    }

    // A run after a box is counted: spent where the count is the limit. A high-water run that is
    // spent ends as its notice does.
    fn limited(&self) -> Option<Ending> {
        if self.steps != self.limit {
            return None;
        }
        match self.mode {
            Mode::HighWater => Some(Run::uncounted()),
            _ => Some(Ending::Spent { steps: self.steps }),
        }
    }

    // One box, counted, and how the run ends, where it does. A choice is an assignment that reads
    // four variables: the two compared and the two that it may copy. It ends no run and leaves the
    // counter's set.
    // Kept: a match, since each box has fields of its own; closures would be no plainer.
    fn step(&mut self, chart: &Chart) -> Option<Ending> {
        self.steps = self.steps.wrapping_add(1);
        // Never none, in a chart.
        let Some(current) = chart.box_at(self.at) else {
            return Some(self.halt());
        };
        match current {
            ChartBox::Assignment {
                target,
                meaning,
                left,
                right,
                next,
                constant,
            } => {
                let value = meaning.result_of(constant, self.value(left), self.value(right));
                let left = if meaning.reads_left() { bit(left) } else { 0 };
                let right = if meaning.reads_right() { bit(right) } else { 0 };
                self.assign(target, value, left | right, next);
            }
            ChartBox::Decision {
                comparison,
                left,
                right,
                if_true,
                if_false,
            } => {
                let holds = comparison.holds(self.value(left), self.value(right));
                let next = if holds { if_true } else { if_false };
                if let Some(ending) = self.decide(bit(left) | bit(right), next) {
                    return Some(ending);
                }
            }
            ChartBox::Halt => return Some(self.halt()),
            ChartBox::Choice {
                target,
                comparison,
                left,
                right,
                next,
                if_true,
                if_false,
            } => {
                let holds = comparison.holds(self.value(left), self.value(right));
                let source = if holds { if_true } else { if_false };
                let read = bit(left) | bit(right) | bit(if_true) | bit(if_false);
                self.assign(target, self.value(source), read, next);
            }
        }
        self.limited()
    }

    // Up to `count` boxes, fewer where the run ends; how it ends, where it does.
    pub fn advance(&mut self, chart: &Chart, count: u32) -> Option<Ending> {
        (0..count).find_map(|_| self.step(chart))
    }
}

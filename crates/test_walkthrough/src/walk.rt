// A run of the chart, from its begin to its answer.
use crate::words::{print_called, print_told};
use runner::Runner;
use std::{fmt, io};

// Input 0 of every run: the tenant's own probe took so many milliseconds.
const LATENCY: u32 = 700;

// The allowed set: bit 0 is 1 and bit 1 is 0.
pub const ALLOWED: u32 = 1;

// The modes, in the order of their numbers, which begin takes. Kept: they are printed in the
// walkthrough's words, and `marks::Mode` has no number to give.
#[derive(Clone, Copy)]
pub enum Mode {
    Bare,
    Surveillance,
    HighWater,
}

impl fmt::Display for Mode {
    fn fmt<W: fmt::Write>(&self, f: &mut fmt::Formatter<W>) -> fmt::Result {
        f.write_str(match self {
            Mode::Bare => "bare",
            Mode::Surveillance => "surveillance",
            Mode::HighWater => "high-water",
        })
    }
}

// A run in a mode, with so many of the neighbour's connections as input 1.
#[derive(Clone, Copy)]
pub struct Run {
    mode: Mode,
    connections: u32,
}

impl Run {
    pub fn new(mode: Mode, connections: u32) -> Run {
        Run { mode, connections }
    }

    // The run to its end, in two advances.
    pub fn make(self, rt: &impl Print, runner: Runner) -> io::Result<Runner> {
        let Run { mode, connections } = self;
        println!(rt; "{mode}, inputs {LATENCY} and {connections}")?;
        let begun = runner.begin(mode as u32, &[LATENCY, connections], ALLOWED, 0);
        let runner = print_called(rt, "  begin", begun)?;
        let runner = print_called(rt, "  advance by 2", runner.advance(2))?;
        let runner = print_called(rt, "  advance by 4096", runner.advance(4096))?;
        print_told(rt, "  answer", runner.answer())?;
        Ok(runner)
    }
}

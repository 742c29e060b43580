// A second interpreter of charts, of edition 1 and of edition 2: it keeps the loaded file's bytes
// and reads each box out of them.
// Every call is total: no argument and no model is excluded. None has an equation: what they answer
// is compared with the runner's answers.
#![tactic(auto)]

mod blocks;
mod boxes;
mod chart;
mod choices;
mod machine;
mod numbers;
mod told;

use chart::Chart;
pub use machine::Ending;
use machine::{Mode, Run, bit};
use numbers::Edition;
pub use told::{Numbers, Refusal, Reply, Told};

#[derive(Clone, Copy)]
enum Phase {
    NoRun,
    UnderWay(Run),
    Ended(Ending),
}

// The chart held, if there is one, and its run. A refused call leaves a model as it was.
#[derive(Clone, Copy)]
pub struct Model {
    chart: Option<Chart>,
    phase: Phase,
}

impl Model {
    // Holds no chart.
    pub fn new() -> Model {
        Model {
            chart: None,
            phase: Phase::NoRun,
        }
    }

    fn is_under_way(&self) -> bool {
        matches!(self.phase, Phase::UnderWay(_))
    }

    // The chart, where no run is under way.
    fn chart_at_rest(&self) -> Result<Chart, Refusal> {
        let chart = self.chart.ok_or(Refusal::NoChart)?;
        if self.is_under_way() {
            return Err(Refusal::UnderWay);
        }
        Ok(chart)
    }

    // Replaces the chart and forgets an ended run.
    pub fn load(&mut self, file: &[u8]) -> Told {
        if self.is_under_way() {
            return Err(Refusal::UnderWay);
        }
        let chart = Chart::read(file)?;
        self.chart = Some(chart);
        self.phase = Phase::NoRun;
        Ok(Reply::Chart {
            inputs: chart.inputs,
            boxes: chart.boxes,
        })
    }

    // Starts a run at the first box and forgets an earlier ending. A limit 0 means 4,096.
    // Kept: 01 gives begin these four arguments, and 0 that meaning.
    pub fn begin(&mut self, mode: u32, inputs: &[u32], allowed: u32, limit: u32) -> Told {
        let chart = self.chart_at_rest()?;
        let mode = Mode::of(mode).ok_or(Refusal::Mode)?;
        if inputs.len() != usize::from(chart.inputs) {
            return Err(Refusal::Inputs);
        }
        if bit(chart.inputs) <= allowed {
            return Err(Refusal::Allowed);
        }
        if 65535 < limit {
            return Err(Refusal::Limit);
        }
        let steps = if limit == 0 { 4096 } else { limit };
        self.phase = Phase::UnderWay(Run::start(&chart, mode, inputs, allowed, steps));
        Ok(Reply::Done)
    }

    // Puts a choice in the place of each decision between two copies, and forgets an ended run.
    pub fn rewrite(&mut self) -> Told {
        let mut chart = self.chart_at_rest()?;
        if chart.edition == Edition::One {
            return Err(Refusal::Edition);
        }
        chart.rewrite();
        self.chart = Some(chart);
        self.phase = Phase::NoRun;
        Ok(Reply::Done)
    }

    // Runs `m` boxes, or fewer where the run ends. A high-water run is advanced by its whole limit
    // or not at all, and tells no steps here: answer tells them with a value.
    pub fn advance(&mut self, m: u32) -> Told {
        let (Some(chart), Phase::UnderWay(mut run)) = (&self.chart, self.phase) else {
            return Err(Refusal::NoRun);
        };
        let high_water = run.mode == Mode::HighWater;
        if high_water && m < run.limit {
            return Err(Refusal::Amount);
        }
        let ending = run.advance(chart, m);
        let steps = if high_water { 0 } else { run.steps };
        match ending {
            Some(ending) => {
                self.phase = Phase::Ended(ending);
                Ok(Reply::Ended { steps })
            }
            None => {
                self.phase = Phase::UnderWay(run);
                Ok(Reply::Running { steps })
            }
        }
    }

    // Drops the run under way.
    pub fn abandon(&mut self) -> Told {
        if !self.is_under_way() {
            return Err(Refusal::NoRun);
        }
        self.phase = Phase::NoRun;
        Ok(Reply::Done)
    }

    // The ending of the run that ended last, if there is one.
    pub fn answer(&self) -> Told {
        match self.phase {
            Phase::Ended(ending) => Ok(Reply::Answer(ending)),
            _ => Err(Refusal::NoEnding),
        }
    }

    // Puts the file at the front of `out`.
    pub fn write_back(&self, out: &mut [u8]) -> Told {
        let chart = self.chart.ok_or(Refusal::NoChart)?;
        chart.write(out)
    }
}

// The ten bytes of box `number` in `file`; none where load's input checks would refuse the file, or
// it has no such box.
pub fn show(file: &[u8], number: u32) -> Option<[u8; 10]> {
    Chart::read(file).ok()?.show(number)
}

// Puts the other edition's file of the same chart at the front of `buf`: 1 to 2, or 2 to 1. A box
// that the other edition has not, or takes otherwise, is told before a buffer that is too short.
pub fn convert(file: &[u8], buf: &mut [u8]) -> Told {
    Chart::read(file)?.in_other_edition()?.write(buf)
}

// What the random cases reached.
// Kept: a mode is the number that a begin takes, an edition the byte that a file has, and a refusal
// has the number that is printed. `as` stands where std has no `From` of u32 for usize.
ghost use Rattle.std.specs.Prelude.{◌<◌};

use crate::compare::Endings;
use block::Refusal;
use runner::{Ending, Loaded};
use std::fmt;

// Numbers by mode: bare, surveillance, high-water.
#[derive(Clone, Copy, Default)]
struct ByMode([u64; 3]);

// Loads of files with two blocks exchanged.
#[derive(Clone, Copy, Default)]
struct Exchanged {
    loaded: u64,
    refused_by_2: u64,
    refused_by_6: u64,
}

// Lists by edition have edition 1 first. `answers` are those that are also the answers of the runs
// advanced at once. `loaded` is by blocks, from two on, and `named` of notices that name no input,
// one, and more. `alike` are endings of a chart and of its converted one, which are one ending;
// `changed` are rewritings after which another chart is held. `beside` are bare runs of a chart and
// of its rewritten one that ended with one value, `fewer` those of them that took fewer steps, and
// `gained` runs of both under surveillance that ended with a notice and with a value.
#[derive(Clone, Copy, Default)]
pub struct Counts {
    refused: [u64; 25],
    begun: ByMode,
    values: ByMode,
    notices: ByMode,
    spent: ByMode,
    pub dropped: u64,
    pub answers: u64,
    pub running: u64,
    pub stopped: u64,
    loaded: [u64; 4],
    pub shown: u64,
    pub not_shown: u64,
    pub written: u64,
    named: [u64; 3],
    editions: [u64; 2],
    exchanged: [Exchanged; 2],
    converted: [u64; 2],
    pub alike: u64,
    pub rewritten: u64,
    pub changed: u64,
    beside: u64,
    fewer: u64,
    gained: u64,
}

pub fn count(number: &mut u64) {
    *number = number.wrapping_add(1);
}

fn count_at(numbers: &mut [u64], at: usize) {
    if let Some(number) = numbers.get_mut(at) {
        count(number);
    }
}

// Where the lists by edition have an edition.
fn row(edition: u8) -> usize
    ensures { result < 2 }
{
    usize::from(edition != 1)
}

impl Counts {
    pub fn refuse(&mut self, refusal: Refusal) {
        count_at(&mut self.refused, refusal.number as usize);
    }

    pub fn load(&mut self, chart: Loaded, edition: u8) {
        let last = chart.boxes.saturating_sub(1);
        count_at(&mut self.loaded, usize::from(last / 51));
        count(&mut self.editions[row(edition)]);
    }

    // A load of a file with two blocks exchanged.
    pub fn exchange(&mut self, told: Result<Loaded, Refusal>, edition: u8) {
        let exchanged = &mut self.exchanged[row(edition)];
        match told {
            Ok(_) => count(&mut exchanged.loaded),
            Err(Refusal { number: 2, .. }) => count(&mut exchanged.refused_by_2),
            Err(Refusal { number: 6, .. }) => count(&mut exchanged.refused_by_6),
            Err(_) => {}
        }
    }

    pub fn begin(&mut self, mode: u32) {
        count_at(&mut self.begun.0, mode as usize);
    }

    pub fn end(&mut self, mode: u32, ending: Ending) {
        let by_mode = match ending {
            Ending::Value(_) => &mut self.values,
            Ending::Notice(named) => {
                count_at(&mut self.named, named.count_ones().min(2) as usize);
                &mut self.notices
            }
            Ending::Spent => &mut self.spent,
        };
        count_at(&mut by_mode.0, mode as usize);
    }

    pub fn convert(&mut self, edition: u8) {
        count(&mut self.converted[row(edition)]);
    }

    pub fn beside(&mut self, endings: Endings) {
        let (Ok(old), Ok(new)) = (endings.old, endings.new) else {
            return;
        };
        match (old.ending, new.ending) {
            (Ending::Value(_), Ending::Value(_)) if endings.bare => {
                count(&mut self.beside);
                if new.steps < old.steps {
                    count(&mut self.fewer);
                }
            }
            (Ending::Notice(_), Ending::Value(_)) => count(&mut self.gained),
            _ => {}
        }
    }
}

impl fmt::Display for ByMode {
    fn fmt<W: fmt::Write>(&self, f: &mut fmt::Formatter<W>) -> fmt::Result {
        let [bare, surveillance, high_water] = self.0;
        write!(
            f,
            "bare {bare}, surveillance {surveillance}, high-water {high_water}"
        )
    }
}

impl fmt::Display for Exchanged {
    fn fmt<W: fmt::Write>(&self, f: &mut fmt::Formatter<W>) -> fmt::Result {
        let Exchanged {
            loaded,
            refused_by_2,
            refused_by_6,
        } = self;
        write!(
            f,
            "loaded {loaded}, refused by 2 {refused_by_2}, by 6 {refused_by_6}"
        )
    }
}

impl Counts {
    fn fmt_runs<W: fmt::Write>(&self, f: &mut fmt::Formatter<W>) -> fmt::Result {
        writeln!(f, "runs begun: {}", self.begun)?;
        writeln!(f, "ended with a value: {}", self.values)?;
        writeln!(f, "ended with a notice: {}", self.notices)?;
        writeln!(f, "ended spent: {}", self.spent)?;
        writeln!(f, "dropped: {}", self.dropped)?;
        writeln!(f, "answers compared: {}", self.answers)?;
        writeln!(
            f,
            "advances: running {}, ended {}",
            self.running, self.stopped
        )
    }

    fn fmt_files<W: fmt::Write>(&self, f: &mut fmt::Formatter<W>) -> fmt::Result {
        let [two, three, four, five] = self.loaded;
        let [none, one, more] = self.named;
        let [first, second] = self.editions;
        let [exchanged, exchanged_in_2] = self.exchanged;
        writeln!(
            f,
            "files loaded: 1024 bytes {two}, 1536 bytes {three}, 2048 bytes {four}, 2560 bytes {five}"
        )?;
        writeln!(
            f,
            "boxes: shown {}, not shown {}",
            self.shown, self.not_shown
        )?;
        writeln!(f, "files written back: {}", self.written)?;
        writeln!(
            f,
            "notices that name: no input {none}, one {one}, more {more}"
        )?;
        writeln!(f, "files loaded: edition 1 {first}, edition 2 {second}")?;
        writeln!(f, "two blocks exchanged in edition 1: {exchanged}")?;
        writeln!(f, "two blocks exchanged in edition 2: {exchanged_in_2}")
    }

    fn fmt_charts<W: fmt::Write>(&self, f: &mut fmt::Formatter<W>) -> fmt::Result {
        let [first, second] = self.converted;
        writeln!(
            f,
            "files converted: from edition 1 {first}, from edition 2 {second}"
        )?;
        writeln!(
            f,
            "endings of a chart and of its converted one: {}",
            self.alike
        )?;
        writeln!(
            f,
            "rewritings: done {}, of which {} changed the chart",
            self.rewritten, self.changed
        )?;
        writeln!(
            f,
            "bare runs of a chart and of its rewritten one: ended with one value {}, of which {} in fewer steps",
            self.beside, self.fewer
        )?;
        writeln!(
            f,
            "surveillance runs of both: ended with a notice of the chart and a value of its rewritten one {}",
            self.gained
        )
    }
}

// A line for each number, and then one for each refusal: 11 is the run program's, and none has a
// number from 16 to 20.
impl fmt::Display for Counts {
    fn fmt<W: fmt::Write>(&self, f: &mut fmt::Formatter<W>) -> fmt::Result {
        self.fmt_runs(f)?;
        self.fmt_files(f)?;
        self.fmt_charts(f)?;
        for (number, count) in self.refused.iter().enumerate() {
            if matches!(number, 1..=10 | 12..=15 | 21..=24) {
                writeln!(f, "refused {number}: {count}")?;
            }
        }
        Ok(())
    }
}

// The runner and the model, which is the second interpreter's, side by side: each call goes to both
// with the same arguments, what they tell is compared, and what was reached is counted.
ghost use Rattle.std.specs.Prelude.{◌<◌};

use crate::compare;
use crate::compare::Endings;
use crate::counts::{Counts, count};
use crate::report::{Failure, Told};
use block::Refusal;
use encoding::{Encoded, Numbered, kinds};
use runner::{Advanced, Called, Loaded, Runner};
use std::fmt;
use test_samples::arguments::{Arguments, steps_within};
use test_samples::files;
use test_samples::files::{File, byte};
use test_second::{Model, Reply};
use test_text::text::part;

// What differs, the case and the call, and what the two sides told.
#[derive(Clone, Copy)]
pub struct Difference {
    what: &'static str,
    case: u32,
    call: u32,
    first: Encoded,
    second: Encoded,
}

impl fmt::Display for Difference {
    fn fmt<W: fmt::Write>(&self, f: &mut fmt::Formatter<W>) -> fmt::Result {
        let Difference {
            what,
            case,
            call,
            ..
        } = self;
        writeln!(f, "{what}, case {case}, call {call}")?;
        writeln!(f, "  one: {}", Told(self.first))?;
        write!(f, "  other: {}", Told(self.second))
    }
}

// `told` is what the last call told, and `whole` the answer of a copy of the model that was
// advanced at once by the whole limit of the last run. `chart` has the numbers of the chart held,
// 0 where there is none; `mode` and `limit` are those of the last run. `case` and `calls` say where
// the pair is. `exchanged` says that the case's file is a chart's with two blocks exchanged.
// Kept: `exchanged` and `mode` are as they were drawn, and no value stands beside the flag.
#[derive(Clone, Copy)]
pub struct Pair {
    runner: Runner,
    model: Model,
    told: Encoded,
    whole: Encoded,
    pub chart: Loaded,
    mode: u32,
    pub limit: u32,
    pub case: u32,
    calls: u32,
    exchanged: bool,
    pub counts: Counts,
}

// A buffer filled with one byte, of which a part is lent. The part starts at `from` modulo 40, and
// has `room` modulo 2,601 bytes.
#[derive(Clone, Copy, PartialEq, Eq)]
struct Buffer {
    bytes: [u8; 2640],
    from: usize,
    room: usize,
}

impl Buffer {
    fn new(from: usize, room: usize, filled: u8) -> Buffer {
        Buffer {
            bytes: [filled; 2640],
            from,
            room,
        }
    }

    fn start(&self) -> usize
        ensures { result < 40 }
    {
        self.from % 40
    }

    fn lent(&mut self) -> &mut [u8] {
        let start = self.start();
        let end = start + self.room % 2601;
        &mut self.bytes[start..end]
    }

    // So many bytes from the start of the part on, or none where there are fewer.
    fn front(&self, length: usize) -> &[u8] {
        let start = self.start();
        part(&self.bytes, start, start.wrapping_add(length))
    }
}

// A converted file is converted back to the one that it is of.
fn goes_back(file: &[u8], converted: &[u8]) -> bool {
    let mut back = [0; 2560];
    convert::convert(converted, &mut back).is_ok() && part(&back, 0, file.len()) == file
}

// What is told of a box shown: how many bytes there are, and the first of them, its kind. Kept:
// std has no `From` of usize for u64.
fn shown(part: &[u8]) -> Encoded {
    encoding::make(kinds::SHOWN, part.len() as u64, byte(part, 0))
}

// What load tells of the file of the chart that a runner holds, which has so many bytes.
fn loads_as(runner: Runner, length: usize) -> Result<Loaded, Refusal> {
    let file = compare::file_of(runner);
    Runner::new().load(part(&file, 0, length)).told
}

impl Pair {
    pub fn new() -> Pair {
        let told = encoding::make(kinds::DONE, 0, 0);
        Pair {
            runner: Runner::new(),
            model: Model::new(),
            told,
            whole: told,
            chart: Loaded {
                inputs: 0,
                boxes: 0,
            },
            mode: 0,
            limit: 0,
            case: 0,
            calls: 0,
            exchanged: false,
            counts: Counts::default(),
        }
    }

    // The same counts, and a new runner and a new model.
    pub fn renew(&mut self) {
        self.runner = Runner::new();
        self.model = Model::new();
        self.chart = Loaded {
            inputs: 0,
            boxes: 0,
        };
    }

    // The next random case, and whether two blocks of its file are exchanged.
    pub fn start(&mut self, case: u32, exchanged: bool) {
        self.case = case;
        self.calls = 0;
        self.exchanged = exchanged;
    }

    // Kept: what is compared and what two told, here and below; of them a `Difference` is made.
    fn differ(
        &self,
        what: &'static str,
        first: impl Into<Encoded>,
        second: impl Into<Encoded>,
    ) -> Result<(), Difference> {
        Err(Difference {
            what,
            case: self.case,
            call: self.calls,
            first: first.into(),
            second: second.into(),
        })
    }

    fn same(&self, what: &'static str, first: Encoded, second: Encoded) -> Result<(), Difference> {
        if first != second {
            return self.differ(what, first, second);
        }
        Ok(())
    }

    // A call more, which both told of.
    fn turn(
        &mut self,
        what: &'static str,
        first: Encoded,
        second: Encoded,
    ) -> Result<(), Difference> {
        self.told = first;
        self.calls = self.calls.wrapping_add(1);
        self.same(what, first, second)
    }

    // A call more, whose refusal is counted.
    fn settle<T: Numbered + Copy>(
        &mut self,
        what: &'static str,
        told: Result<T, Refusal>,
        model: test_second::Told,
    ) -> Result<(), Difference> {
        if let Err(refusal) = told {
            self.counts.refuse(refusal);
        }
        self.turn(what, told.into(), compare::of_model(model))
    }

    // The same of a call that changes the runner.
    fn follow<T: Numbered + Copy>(
        &mut self,
        what: &'static str,
        called: Called<T>,
        model: test_second::Told,
    ) -> Result<Result<T, Refusal>, Difference> {
        self.runner = called.runner;
        self.settle(what, called.told, model)?;
        Ok(called.told)
    }

    pub fn load(&mut self, file: &[u8]) -> Result<(), Difference> {
        let model = self.model.load(file);
        let told = self.follow("load", self.runner.load(file), model)?;
        let edition = files::get(file, 4);
        if let Ok(chart) = told {
            self.chart = chart;
            self.counts.load(chart, edition);
        }
        if self.exchanged {
            self.counts.exchange(told, edition);
        }
        Ok(())
    }

    pub fn begin(&mut self, a: &Arguments) -> Result<(), Difference> {
        let model = self.model.begin(a.mode, a.inputs(), a.allowed, a.limit);
        let begun = self.runner.begin(a.mode, a.inputs(), a.allowed, a.limit);
        if self.follow("begin", begun, model)?.is_err() {
            return Ok(());
        }
        self.mode = a.mode;
        self.limit = steps_within(a.limit);
        self.counts.begin(a.mode);
        self.go_ahead()
    }

    // After a begin: a copy of the model is advanced at once by its whole limit, which ends the
    // run.
    fn go_ahead(&mut self) -> Result<(), Difference> {
        let mut ahead = self.model;
        let told = ahead.advance(self.limit);
        self.whole = compare::of_model(ahead.answer());
        match told {
            Ok(Reply::Ended { .. }) => Ok(()),
            _ => self.differ("the limit at once", self.told, compare::of_model(told)),
        }
    }

    pub fn advance(&mut self, m: u32) -> Result<(), Difference> {
        let model = self.model.advance(m);
        match self.follow("advance", self.runner.advance(m), model)? {
            Ok(Advanced::Running(_)) => count(&mut self.counts.running),
            Ok(Advanced::Ended(_)) => {
                count(&mut self.counts.stopped);
                self.end()?;
            }
            Err(_) => {}
        }
        Ok(())
    }

    // After the end of a run the answer is compared at once, and counted. What the advance told
    // stays the last told.
    fn end(&mut self) -> Result<(), Difference> {
        let told = self.told;
        self.answer()?;
        self.told = told;
        match self.runner.answer() {
            Ok(answered) => {
                self.counts.end(self.mode, answered.ending);
                Ok(())
            }
            refused => self.differ("answer after the end", refused, refused),
        }
    }

    // The answer does not depend on the cuts: it is also that of the whole limit at once.
    pub fn answer(&mut self) -> Result<(), Difference> {
        let told = self.runner.answer();
        let model = self.model.answer();
        self.settle("answer", told, model)?;
        if told.is_err() {
            return Ok(());
        }
        count(&mut self.counts.answers);
        self.same("answer after the limit at once", told.into(), self.whole)
    }

    pub fn abandon(&mut self) -> Result<(), Difference> {
        let model = self.model.abandon();
        if self
            .follow("abandon", self.runner.abandon(), model)?
            .is_ok()
        {
            count(&mut self.counts.dropped);
        }
        Ok(())
    }

    pub fn rewrite(&mut self) -> Result<(), Difference> {
        let before = self.runner;
        let model = self.model.rewrite();
        if self.follow("rewrite", before.rewrite(), model)?.is_err() {
            return Ok(());
        }
        count(&mut self.counts.rewritten);
        self.hold_rewritten(before)
    }

    // After a rewriting: both hold one chart, its file loads, and it is counted where it is another
    // than before.
    fn hold_rewritten(&mut self, before: Runner) -> Result<(), Difference> {
        if !compare::model_holds(self.model, self.runner) {
            return self.differ("the chart after a rewriting", self.told, self.told);
        }
        let length = files::length_of(u32::from(self.chart.boxes));
        let loaded = loads_as(self.runner, length);
        self.same(
            "load after a rewriting",
            loaded.into(),
            Ok(self.chart).into(),
        )?;
        if !compare::one_chart(before, self.runner) {
            count(&mut self.counts.changed);
        }
        Ok(())
    }

    // Write back into buffers filled with one byte.
    pub fn write_back(&mut self, from: usize, room: usize, filled: u8) -> Result<(), Difference> {
        let mut one = Buffer::new(from, room, filled);
        let mut two = one;
        let told = self.runner.write_back(one.lent());
        let model = self.model.write_back(two.lent());
        self.settle("write back", told, model)?;
        if told.is_ok() {
            count(&mut self.counts.written);
        }
        if one != two {
            return self.differ("buffer after write back", told, told);
        }
        Ok(())
    }

    // Write back, and then into the file itself.
    pub fn take(&mut self, file: &mut File) -> Result<(), Difference> {
        self.write_back(0, 2560, 0)?;
        let _ = self.runner.write_back(file);
        Ok(())
    }

    // A conversion into buffers filled with one byte. What was written is converted back, to the
    // file.
    pub fn convert(
        &mut self,
        file: &[u8],
        from: usize,
        room: usize,
        filled: u8,
    ) -> Result<(), Difference> {
        let mut one = Buffer::new(from, room, filled);
        let mut two = one;
        let told = convert::convert(file, one.lent());
        let model = test_second::convert(file, two.lent());
        self.settle("convert", told, model)?;
        if one != two {
            return self.differ("convert", told, compare::of_model(model));
        }
        if told.is_err() {
            return Ok(());
        }
        if !goes_back(file, one.front(file.len())) {
            return self.differ("convert back", told, told);
        }
        self.counts.convert(files::get(file, 4));
        Ok(())
    }

    // What a chart and its converted one told of one call.
    pub fn alike<T: Numbered>(&self, told: [Result<T, Refusal>; 2]) -> Result<(), Difference> {
        let [original, converted] = told;
        self.same("the converted chart", original.into(), converted.into())
    }

    // How runs of a chart and of its rewritten one ended. `equal` says that the chart is rewritten
    // to itself.
    pub fn beside(&mut self, endings: Endings, equal: bool) -> Result<(), Difference> {
        if !endings.may_be(equal) {
            return self.differ("the rewritten chart", endings.old, endings.new);
        }
        self.counts.beside(endings);
        Ok(())
    }

    // Show a box: told as the length of the part and its first byte, and the bytes are compared.
    pub fn show(&mut self, file: &[u8], number: u32) -> Result<(), Difference> {
        let one = chart::show_box(file, number);
        let bytes = test_second::show(file, number);
        let two = bytes.as_slice().as_flattened();
        self.turn("show", shown(one), shown(two))?;
        if one != two {
            return self.differ("show", shown(one), shown(two));
        }
        if one.is_empty() {
            count(&mut self.counts.not_shown);
        } else {
            count(&mut self.counts.shown);
        }
        Ok(())
    }

    // Both told what a fixed case says.
    // Kept: a name is bytes, since it is of an input's line, which may be no text.
    pub fn expect<'a>(&self, name: &'a [u8], expected: Encoded) -> Result<(), Failure<'a>> {
        let told = self.told;
        if told != expected {
            return Err(Failure::Unexpected {
                name,
                expected,
                told,
            });
        }
        Ok(())
    }

    // A line that is no command, or says what is not so.
    pub fn wrong_line<'a>(&self, line: &'a [u8]) -> Result<(), Failure<'a>> {
        Err(Failure::WrongLine {
            line,
            calls: self.calls,
        })
    }
}

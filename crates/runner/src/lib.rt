// The runner and its seven calls.
#![tactic(auto)]

ghost use Rattle.std.specs.Prelude.{◌≡◌, None, Some, cond, [], ◌-◌, ltb};
ghost use Rattle.calls.specs.Calls.{load, begin, advance, answer, abandon, write_back, rewrite, by_verdict};
ghost use Rattle.runner.specs.State.{is_running_in, is_ended_in, new_runner, dropped, standing_of, kept};
ghost use Rattle.runner.specs.Outcomes.{outcome, turned_away, call};
ghost use Rattle.runner.specs.Outcomes as outcomes;
ghost use Rattle.runner.specs.Replies.{load_reply, verdict_reply, told_of, advance_reply, answer_reply, written_reply};

use block::{Reason, Refusal};
use calls::Standing;
use format::Header;
use machine::{Act, Variables};
use marks::Mode;

// How a run ends: with a value, with a notice that names a set of inputs, or spent.
#[derive(Clone, Copy, Debug, PartialEq, Eq)]
pub enum Ending {
    Value(u32),
    Notice(u16),
    Spent,
}

// What answer tells: the ending and the steps.
#[derive(Clone, Copy, Debug, PartialEq, Eq)]
pub struct Answered {
    pub ending: Ending,
    pub steps: u32,
}

// The state of a runner: no run, a run under way, or a run that has ended.
#[derive(Clone, Copy)]
pub enum State {
    NoRun,
    Running,
    Ended(Answered),
}

impl State {
    fn is_running(self) -> bool
        ensures { result ≡ is_running_in self }
    {
        matches!(self, State::Running)
    }

    fn is_ended(self) -> bool
        ensures { result ≡ is_ended_in self }
    {
        matches!(self, State::Ended(_))
    }
}

// The chart that is held: its header and the box table. Of a run under way: the counter mark, the
// mode, the box at hand, the limit and the steps so far, and last the variables and their marks.
// What a run stores to is not beside the table, so that the table is not copied with it.
// Kept: one struct with arrays of 32 numbers, the numbers of a run beside them also where there is
// none, and a new runner's table of zeros without a chart, as 01 asks; `is_held` tells a chart by
// its header.
#[derive(Clone, Copy)]
pub struct Runner {
    header: Header,
    table: [u8; 2040],
    counter: u16,
    mode: Mode,
    at: u8,
    limit: u16,
    steps: u16,
    state: State,
    vars: [u32; 32],
    marks: [u16; 32],
}

// The runner that follows a call, and what the call tells.
#[derive(Clone, Copy)]
pub struct Called<T> {
    pub runner: Runner,
    pub told: Result<T, Refusal>,
}

// What load tells: the numbers of inputs and boxes.
#[derive(Clone, Copy, Debug, PartialEq, Eq)]
pub struct Loaded {
    pub inputs: u8,
    pub boxes: u8,
}

// What advance tells: running or ended, and the steps so far.
#[derive(Clone, Copy, Debug, PartialEq, Eq)]
pub enum Advanced {
    Running(u32),
    Ended(u32),
}

impl Runner {
    pub fn new() -> Runner
        ensures { result ≡ new_runner }
    {
        // Kept: each field again, since `drop_run` needs a runner that is there.
        let header = Header {
            edition: 0,
            inputs: 0,
            boxes: 0,
            first: 0,
        };
        Runner {
            header,
            table: [0; 2040],
            vars: [0; 32],
            marks: [0; 32],
            counter: 0,
            mode: Mode::Bare,
            at: 0,
            limit: 0,
            steps: 0,
            state: State::NoRun,
        }
    }

    // The chart stays, and nothing of a run.
    fn drop_run(&mut self)
        ensures { self.new ≡ dropped self.old }
    {
        self.vars = [0; 32];
        self.marks = [0; 32];
        self.counter = 0;
        self.mode = Mode::Bare;
        self.at = 0;
        self.limit = 0;
        self.steps = 0;
        self.state = State::NoRun;
    }

    // What the refusals look at.
    fn standing(&self) -> Standing
        ensures { result ≡ standing_of self.now }
    {
        let least = if marks::hides(self.mode) {
            u32::from(self.limit)
        } else {
            0
        };
        Standing {
            header: self.header,
            running: self.state.is_running(),
            least,
            ended: self.state.is_ended(),
        }
    }

    // The chart of a file replaces the one held.
    pub fn load(mut self, file: &[u8]) -> Called<Loaded>
        ensures { outcome (load_reply result.told) [] result.runner ≡ call (load file.now) self }
    {
        if self.state.is_running() {
            return Called {
                told: Err(Reason::UnderWay.into()),
                runner: self,
            };
        }
        // Kept, here and below: no `?`, since a refused call hands its runner back too.
        match format::check_file(file) {
            Ok(header) => {
                self.header = header;
                self.table = chart::table_of(file);
                self.drop_run();
                Called {
                    told: Ok(Loaded {
                        inputs: header.inputs,
                        boxes: header.boxes,
                    }),
                    runner: self,
                }
            }
            Err(refusal) => Called {
                told: Err(refusal),
                runner: self,
            },
        }
    }

    // A run on the held chart, which forgets an earlier ending.
    // Kept: four arguments, which document 01 has the call take.
    pub fn begin(mut self, mode: u32, inputs: &[u32], allowed: u32, limit: u32) -> Called<()>
        ensures { outcome (verdict_reply result.told) [] result.runner ≡ call (begin mode inputs.now allowed limit) self }
    {
        let told = calls::check_begin(self.standing(), mode, inputs, allowed, limit);
        // Kept: a refused begin goes on to the one exit, so that the runner is copied once.
        if let Ok(()) = told {
            self.vars = begin::first_vars(inputs);
            self.marks = begin::first_marks(allowed, self.header.inputs);
            self.counter = 0;
            // Kept: `From` of Mode takes a byte, and std's widens alone; `check_begin` let pass
            // what fits.
            self.mode = Mode::from(mode as u8);
            self.at = self.header.first;
            self.limit = begin::effective(limit) as u16;
            self.steps = 0;
            self.state = State::Running;
        }
        Called { told, runner: self }
    }

    // Runs m boxes, or fewer if the run ends, and tells which. `end` is how the run ends where no
    // box ends it before; none where it goes on.
    pub fn advance(mut self, m: u32) -> Called<Advanced>
        ensures { outcome (advance_reply result.told) [] result.runner ≡ call (advance m) self }
    {
        let verdict = calls::check_advance(self.standing(), m);
        let mode = self.mode;
        let masks = marks::masks_of(mode);
        let hidden = marks::hides(mode);
        // Kept: a refused advance goes on with 0 boxes, since one exit copies the runner once.
        let asked = amount(verdict, m);
        let portion = allot(asked, self.limit, self.steps);
        let reach = u32::from(self.steps) + portion.boxes;
        let mut left = portion.boxes;
        let mut at = self.at;
        let mut half = decode::first_half(at);
        let mut end = portion.end;
        // Kept: a counted limit that is spent, which 01 asks of advance.
        while 0 < left {
            left -= 1;
            let b = decode::box_at(&self.table, half);
            let edition = self.header.edition;
            let variables = Variables {
                values: &self.vars,
                marks: &self.marks,
            };
            let done = machine::run_box(edition, mode, masks, b, variables, self.counter);
            match done {
                Act::Store {
                    target,
                    value: v,
                    mark,
                    next,
                } => {
                    // Kept: by `usize::from` the place is its result in the loop's proof, which did
                    // not close.
                    let t = (target % 32) as usize;
                    self.vars[t] = v;
                    self.marks[t] = mark;
                    at = next;
                    half = decode::half_of(next);
                }
                Act::Go { next, counter } => {
                    self.counter = counter;
                    at = next;
                    half = decode::half_of(next);
                }
                Act::Value(v) => {
                    end = Some(Ending::Value(v));
                    break;
                }
                Act::Notice(set) => {
                    end = Some(Ending::Notice(set));
                    break;
                }
            }
        }
        let steps = reach - left;
        match end {
            None => {
                self.at = at;
                // Kept: std's `From` widens alone, and steps below a limit fit.
                self.steps = steps as u16;
            }
            Some(ending) => {
                self.drop_run();
                self.state = State::Ended(disclose(hidden, ending, steps));
            }
        }
        Called {
            told: tell(verdict, hidden, end, steps),
            runner: self,
        }
    }

    // Drops the run under way.
    pub fn abandon(mut self) -> Called<()>
        ensures { outcome (verdict_reply result.told) [] result.runner ≡ call abandon self }
    {
        if !self.state.is_running() {
            return Called {
                told: Err(Reason::NoRun.into()),
                runner: self,
            };
        }
        self.drop_run();
        Called {
            told: Ok(()),
            runner: self,
        }
    }

    // The ending. The runner that follows is the one lent: nothing is handed back.
    pub fn answer(self) -> Result<Answered, Refusal>
        ensures { outcome (answer_reply result) [] self ≡ call answer self }
    {
        match self.state {
            State::Ended(answered) => Ok(answered),
            _ => Err(Reason::NoEnding.into()),
        }
    }

    // The file of the held chart at the front of a lent buffer. The runner that follows is the one
    // lent.
    pub fn write_back(self, buf: &mut [u8]) -> Result<usize, Refusal>
        ensures { outcome (written_reply result) buf.new self ≡ call (write_back buf.old) self }
    {
        let header = self.header;
        calls::check_write_back(self.standing(), buf)?;
        // Kept: a table of its own is lent, since a field of a runner by value would be copied first.
        let table = self.table;
        chart::put_file(header, &table, buf);
        Ok(chart::file_length(header))
    }

    // The chart held, rewritten, in its own place; an ended run is forgotten.
    pub fn rewrite(mut self) -> Called<()>
        ensures { outcome (verdict_reply result.told) [] result.runner ≡ call rewrite self }
    {
        if let Err(refusal) = calls::check_rewrite(self.standing()) {
            return Called {
                told: Err(refusal),
                runner: self,
            };
        }
        rewrite::rewrite(&mut self.table);
        self.drop_run();
        Called {
            told: Ok(()),
            runner: self,
        }
    }
}

// How many boxes an advance by m may run, by the verdict on it.
fn amount(verdict: Result<(), Refusal>, m: u32) -> u32
    ensures { result ≡ by_verdict verdict m (λ x. 0) }
{
    verdict.map_or(0, |()| m)
}

// What an advance runs of the boxes asked for, and how the run ends after them where none of them
// ends it: all of them, after which it goes on, or those that are left to the limit, after which it
// is spent.
#[derive(Clone, Copy)]
struct Portion {
    boxes: u32,
    end: Option<Ending>,
}

fn allot(asked: u32, limit: u16, steps: u16) -> Portion
    ensures { result ≡
        (let left = cond (ltb steps limit) (limit - steps) 1 in cond (ltb asked left) (record { boxes = asked; end = None }) (record { boxes = left; end = Some Ending.Spent })) }
{
    let left = left_to(u32::from(limit), u32::from(steps));
    if asked < left {
        return Portion {
            boxes: asked,
            end: None,
        };
    }
    Portion {
        boxes: left,
        end: Some(Ending::Spent),
    }
}

// How many boxes a run has left to its limit after so many steps: the one at hand in any case.
fn left_to(limit: u32, steps: u32) -> u32
    ensures { result ≡ cond (ltb steps limit) (limit - steps) 1 }
{
    limit.saturating_sub(steps).max(1)
}

// What is disclosed of an ended run. A value keeps its count; where counts are hidden, nothing else
// does. Kept, here and in `tell`: a notice of no inputs and 0 steps, as `kept` and `told_of` say.
fn disclose(hidden: bool, ending: Ending, steps: u32) -> Answered
    ensures { result ≡ kept hidden ending steps }
{
    if hidden & !matches!(ending, Ending::Value(_)) {
        return Answered {
            ending: Ending::Notice(0),
            steps: 0,
        };
    }
    Answered { ending, steps }
}

// What advance tells by the verdict on it, of a run that has come to such an end where it was
// accepted.
fn tell(
    verdict: Result<(), Refusal>,
    hidden: bool,
    end: Option<Ending>,
    steps: u32,
) -> Result<Advanced, Refusal>
    ensures { advance_reply result ≡ by_verdict verdict (told_of end hidden steps) turned_away }
{
    verdict?;
    match end {
        None => Ok(Advanced::Running(steps)),
        Some(_) => Ok(Advanced::Ended(if hidden { 0 } else { steps })),
    }
}

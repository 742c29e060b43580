// What the two sides tell and the charts that they hold, and how a chart's run and that of its
// rewritten one may end.
use block::Refusal;
use encoding::Encoded;
use runner::{Answered, Ending, Runner};
use test_second::{Model, Numbers, Told};

// What the model told, which says the numbers of `encoding` by itself.
// Kept: no `From` can stand here, since both types are of other crates.
pub fn of_model(told: Told) -> Encoded {
    let Numbers {
        kind,
        first,
        second,
    } = told.into();
    encoding::make(kind, u64::from(first), second)
}

// The file of the chart that a runner holds, with zeros after it. Kept: `test_walkthrough` has its
// own of another length; what stands under both knows no runner. So has `model_holds` of a model.
pub fn file_of(runner: Runner) -> [u8; 2560] {
    let mut file = [0; 2560];
    let _ = runner.write_back(&mut file);
    file
}

// Two runners hold one chart: they write back the same file.
pub fn one_chart(a: Runner, b: Runner) -> bool {
    file_of(a) == file_of(b)
}

// The same of a model and a runner.
pub fn model_holds(model: Model, runner: Runner) -> bool {
    let mut file = [0; 2560];
    let _ = model.write_back(&mut file);
    file == file_of(runner)
}

// How a run of a chart and, with the same arguments, one of its rewritten chart end, or what
// refuses their begins.
// Kept: `bare` is a flag, since the other modes have one rule.
#[derive(Clone, Copy)]
pub struct Endings {
    pub old: Result<Answered, Refusal>,
    pub new: Result<Answered, Refusal>,
    pub bare: bool,
}

impl Endings {
    // Whether runs may end so. Where both have a value it is one value, in no more steps; a bare
    // run keeps its value. `equal` says that the chart is rewritten to itself.
    pub fn may_be(self, equal: bool) -> bool {
        let (Ok(old), Ok(new)) = (self.old, self.new) else {
            return self.old == self.new;
        };
        match (old.ending, new.ending) {
            _ if equal => old == new,
            (Ending::Value(one), Ending::Value(other)) => one == other && new.steps <= old.steps,
            (Ending::Spent, Ending::Value(_) | Ending::Spent) => true,
            _ => !self.bare,
        }
    }
}

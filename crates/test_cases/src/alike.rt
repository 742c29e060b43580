// A chart and its converted one, each in a runner of its own: the same random calls to both, and
// what they tell is compared.
use crate::counts::count;
use crate::pair::Difference;
use crate::random_calls::Case;
use block::Refusal;
use runner::{Called, Runner};
use test_samples::arguments;
use test_samples::arguments::steps_within;
use test_samples::files::byte;
use test_text::text::part;

#[derive(Clone, Copy)]
struct Two {
    original: Runner,
    converted: Runner,
}

impl Two {
    // One call to both, and what they told.
    fn call<T: Copy, F: Fn(Runner) -> Called<T>>(&mut self, call: F) -> [Result<T, Refusal>; 2]
        requires { F.IsAlwaysCallable call }
    {
        let original = call(self.original);
        let converted = call(self.converted);
        self.original = original.runner;
        self.converted = converted.runner;
        [original.told, converted.told]
    }
}

// A begin, an advance by some boxes, one by the limit, which ends a run, and the answer.
fn run(case: &mut Case, two: &mut Two) -> Result<(), Difference> {
    let a = arguments::begin(case.random, byte(case.file, 5));
    let limit = steps_within(a.limit);
    let some = arguments::amount(case.random, limit);
    let begun = two.call(|runner| runner.begin(a.mode, a.inputs(), a.allowed, a.limit));
    case.pair.alike(begun)?;
    case.pair.alike(two.call(|runner| runner.advance(some)))?;
    case.pair.alike(two.call(|runner| runner.advance(limit)))?;
    let ending = two.original.answer();
    case.pair.alike([ending, two.converted.answer()])?;
    if ending.is_ok() {
        count(&mut case.pair.counts.alike);
    }
    Ok(())
}

// Three runs of a file's chart and of its converted one, where the file converts.
pub fn runs(case: &mut Case) -> Result<(), Difference> {
    // Kept: a length beside the buffer, as `convert` tells it.
    let mut buffer = [0; 2560];
    let Ok(length) = convert::convert(case.file, &mut buffer) else {
        return Ok(());
    };
    let original = Runner::new().load(case.file);
    let converted = Runner::new().load(part(&buffer, 0, length));
    case.pair.alike([original.told, converted.told])?;
    let mut two = Two {
        original: original.runner,
        converted: converted.runner,
    };
    for _ in 0..3 {
        run(case, &mut two)?;
    }
    Ok(())
}

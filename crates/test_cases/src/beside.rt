// A chart of edition 2 and its rewritten one, each in a runner of its own: runs with the same
// random arguments, and how they end is compared.
use crate::compare;
use crate::compare::Endings;
use crate::pair::Difference;
use crate::random_calls::Case;
use block::Refusal;
use runner::{Answered, Runner};
use test_samples::arguments;
use test_samples::arguments::{Arguments, steps_within};
use test_samples::files::byte;

// How a run ends that is advanced by its limit at once, or what refuses its begin.
fn ending(runner: Runner, a: &Arguments) -> Result<Answered, Refusal> {
    let begun = runner.begin(a.mode, a.inputs(), a.allowed, a.limit);
    begun.told?;
    let ended = begun.runner.advance(steps_within(a.limit));
    ended.runner.answer()
}

// Three bare runs of a file's chart and of its rewritten one, and two under surveillance, where the
// file loads and is of edition 2.
pub fn runs(case: &mut Case) -> Result<(), Difference> {
    let old = Runner::new().load(case.file).runner;
    let rewritten = old.rewrite();
    if rewritten.told.is_err() {
        return Ok(());
    }
    let new = rewritten.runner;
    let equal = compare::one_chart(old, new);
    // Kept: a mode is the number that begin takes.
    for mode in [0, 0, 0, 1, 1] {
        let mut a = arguments::begin(case.random, byte(case.file, 5));
        a.mode = mode;
        let endings = Endings {
            old: ending(old, &a),
            new: ending(new, &a),
            bare: mode == 0,
        };
        case.pair.beside(endings, equal)?;
    }
    Ok(())
}

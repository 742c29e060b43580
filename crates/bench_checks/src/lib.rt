// For the benchmark, to be timed: health checks. They stand alone so that each call of the runner
// has one caller, as in a program, and is compiled into it. They have no equation: the benchmark
// compares their sums with those of plain Rust.
#![tactic(auto)]

use arrayvec::ArrayVec;
use bench_rounds::{fold_told, holding};

// Health checks: begin, advance to the end, answer. Input 0 is one more each round. Of more than 32
// inputs, which no chart has, there are no rounds. Kept: a sum of 0 for these, a mode that is a
// number and the arguments of a begin, since callers in C give and read them.
pub fn flow_checks(
    file: &[u8],
    mode: u32,
    inputs: &[u32],
    allowed: u32,
    limit: u32,
    rounds: u32,
) -> u64 {
    let mut numbers = ArrayVec::<u32, 32>::new();
    if numbers.try_extend_from_slice(inputs).is_err() {
        return 0;
    }
    let mut runner = holding(file);
    let mut sum = 0;
    // Kept: rounds of its own, so that each call has one caller.
    for _ in 0..rounds {
        if let Some(first) = numbers.first_mut() {
            *first = first.wrapping_add(1);
        }
        let begun = runner.begin(mode, &numbers, allowed, limit);
        runner = begun.runner.advance(65535).runner;
        sum = fold_told(sum, runner.answer());
    }
    sum
}

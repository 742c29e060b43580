// Runs the cases of document 01 without (P), and cases of document 02, which standard input has,
// and random lists of calls, on the runner and on the second interpreter; and charts beside their
// converted ones and beside their rewritten ones, on two runners. It stops at the first difference,
// and else says what was reached. Its functions have no equations: what it prints is compared.
#![tactic(auto)]

mod alike;
mod beside;
mod commands;
mod compare;
mod counts;
mod pair;
mod random_calls;
mod report;

use counts::Counts;
use pair::{Difference, Pair};
use random_calls::Case;
use report::Failure;
use std::io;
use test_samples::damage;
use test_samples::random::Random;
use test_text::input;
use test_text::text::part;

// Where the random numbers start.
const SEED: u64 = 88172645463325252;

// The random cases are numbered from 1, below this.
const CASES: u32 = 100000;

// A chart's file and a list of calls with it; at times the chart is run beside its converted one or
// its rewritten one. The pair is often the one that the case before left.
fn random_case(pair: &mut Pair, random: &mut Random, number: u32) -> Result<(), Difference> {
    let drawn = damage::draw(random);
    if random.one_in(8) {
        pair.renew();
    }
    pair.start(number, drawn.exchanged);
    let mut case = Case {
        pair,
        random,
        file: drawn.bytes(),
    };
    case.list()?;
    // Kept: which comparison follows is drawn as a number.
    match case.random.below(4) {
        0 => alike::runs(&mut case),
        1 => beside::runs(&mut case),
        _ => Ok(()),
    }
}

fn random_cases() -> Result<Counts, Difference> {
    let mut random = Random::new(SEED);
    let mut pair = Pair::new();
    for number in 1..CASES {
        random_case(&mut pair, &mut random, number)?;
    }
    Ok(pair.counts)
}

// The fixed cases, which a text has, and the random ones.
fn cases<'a>(rt: &impl Print, text: &'a [u8]) -> Result<Counts, Failure<'a>> {
    commands::run(rt, text)?;
    Ok(random_cases()?)
}

// Standard input has room for fewer than 65,536 bytes.
// Kept: a length beside the buffer, as `read` tells it; one that is full is of too long an input.
fn main(rt: HostRuntime) -> io::Result<()> {
    let mut text = [0; 65536];
    let length = input::read(&rt, &mut text)?;
    if length == text.len() {
        return println!(&rt; "standard input is too long");
    }
    match cases(&rt, part(&text, 0, length)) {
        Ok(counts) => println!(&rt; "{counts}no difference"),
        Err(failure) => failure.print(&rt),
    }
}

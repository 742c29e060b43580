// For the benchmark, to be timed: many rounds of one call; what each tells is folded into a sum.
// The functions have no equations: the benchmark compares the sums with those of plain Rust.
// Kept: each has its own rounds, since a function that is given what a round does would say no more
// than `for` or `fold`. `as` stands where std has no `From`: u32 for usize, and usize for u64.
#![tactic(auto)]

use block::Refusal;
use encoding::Encoded;
use runner::Runner;
use std::mem;

fn fold(sum: u64, word: u64) -> u64 {
    (sum ^ (sum >> 7)).wrapping_add(word)
}

pub fn fold_told(sum: u64, told: impl Into<Encoded>) -> u64 {
    let Encoded {
        kind,
        first,
        second,
    } = told.into();
    fold(fold(fold(sum, u64::from(kind)), first), u64::from(second))
}

fn fold_byte(sum: u64, bytes: &[u8], at: usize) -> u64 {
    bytes
        .get(at)
        .map_or(sum, |byte| fold(sum, u64::from(*byte)))
}

// What a round told that wrote to a buffer, and one byte of the buffer, which becomes 255.
fn fold_written(sum: u64, told: Result<usize, Refusal>, buf: &mut [u8], round: u32) -> u64 {
    let byte = buf
        .get_mut((round % 2048) as usize)
        .map_or(0, |byte| mem::replace(byte, 255));
    fold(fold_told(sum, told), u64::from(byte))
}

pub fn holding(file: &[u8]) -> Runner {
    Runner::new().load(file).runner
}

// Two files, each of which is a half of the lent bytes.
// Kept: two files in one buffer, as callers in C lend them.
fn halves(files: &[u8]) -> [&[u8]; 2] {
    let half = files.len() / 2;
    [&files[..half], &files[half..2 * half]]
}

// Loads of two files in turn, each of which is a half of the lent bytes.
pub fn flow_loads(files: &[u8], rounds: u32) -> u64 {
    let files = halves(files);
    let mut runner = Runner::new();
    let mut sum = 0;
    for i in 0..rounds {
        let loaded = runner.load(files[(i % 2) as usize]);
        runner = loaded.runner;
        sum = fold_told(sum, loaded.told);
    }
    sum
}

// Write backs of one chart; of each, one byte of the buffer is folded and changed.
pub fn flow_writes(file: &[u8], buf: &mut [u8], rounds: u32) -> u64 {
    let runner = holding(file);
    let mut sum = 0;
    for i in 0..rounds {
        let told = runner.write_back(buf);
        sum = fold_written(sum, told, buf, i);
    }
    sum
}

// Conversions of one file; of each, one byte of the buffer is folded and changed.
pub fn flow_converts(file: &[u8], buf: &mut [u8], rounds: u32) -> u64 {
    let mut sum = 0;
    for i in 0..rounds {
        let told = convert::convert(file, buf);
        sum = fold_written(sum, told, buf, i);
    }
    sum
}

// Rewritings of two charts in turn, whose files are each a half of the lent bytes. The last chart
// rewritten is written back, and the first byte of the check of its first boxes is folded too.
pub fn flow_rewrites(files: &[u8], buf: &mut [u8], rounds: u32) -> u64 {
    let charts = halves(files).map(holding);
    let mut runner = Runner::new();
    let mut sum = 0;
    for i in 0..rounds {
        let rewritten = charts[(i % 2) as usize].rewrite();
        runner = rewritten.runner;
        sum = fold_told(sum, rewritten.told);
    }
    let sum = fold_told(sum, runner.write_back(buf));
    fold_byte(sum, buf, 1022)
}

// Boxes shown, by numbers below 256; of each, the length and the byte at 5 are folded.
pub fn flow_shows(file: &[u8], rounds: u32) -> u64 {
    (0..rounds).fold(0, |sum, i| {
        let part = chart::show_box(file, i % 256);
        fold_byte(fold(sum, part.len() as u64), part, 5)
    })
}

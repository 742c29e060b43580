// Follows the chart of docs/WALKTHROUGH.md from its file to its answers and back to a file, to a
// file of the other edition, and to a rewritten chart, and prints each stage.
#![tactic(auto)]

mod files;
mod walk;
mod words;

use files::{File, file_of, with_constant, with_copies};
use runner::Runner;
use std::io;
use test_text::text::part;
use walk::{ALLOWED, Mode, Run};
use words::{Bytes, Holds, Mark, print_called, print_told};

// The check of a block, with so much added: as it is summed, and as the block holds it.
fn print_check(rt: &impl Print, words: &str, added: u32, block: &[u8]) -> io::Result<()> {
    let sum = block::checksum(added, block);
    let held = Bytes(part(block, 510, 512));
    println!(rt; "{words}check {sum}, bytes 510 and 511:{held}")
}

fn print_box(rt: &impl Print, file: &[u8], p: u32) -> io::Result<()> {
    let shown = Bytes(chart::show_box(file, p));
    println!(rt; "  box {p}:{shown}")
}

fn print_file(rt: &impl Print, file: &[u8]) -> io::Result<()> {
    let length = file.len();
    let head = part(file, 0, 512);
    let later = part(file, 512, 1024);
    println!(rt; "file, bytes: {length}\nblock 0")?;
    println!(rt; "  bytes 0 to 7:{}", Bytes(part(head, 0, 8)))?;
    let empty = Holds(boxes::all_zero(part(head, 8, 510)));
    println!(rt; "  bytes 8 to 509 are 0: {empty}")?;
    print_check(rt, "  ", format::addend(1, 0), head)?;
    println!(rt; "block 1")?;
    for p in 0..8 {
        print_box(rt, file, p)?;
    }
    let empty = Holds(boxes::all_zero(part(later, 70, 510)));
    println!(rt; "  bytes 70 to 509 are 0: {empty}")?;
    print_check(rt, "  ", format::addend(1, 1), later)
}

fn print_allowed(rt: &impl Print) -> io::Result<()> {
    let marks = begin::first_marks(ALLOWED, 2);
    println!(rt; "allowed set {ALLOWED}")?;
    println!(rt; "  input 0: {}", Mark(marks[0]))?;
    println!(rt; "  input 1: {}", Mark(marks[1]))
}

fn load(rt: &impl Print, words: &str, file: &[u8]) -> io::Result<Runner> {
    print_called(rt, words, Runner::new().load(file))
}

fn runs(rt: &impl Print, mut runner: Runner) -> io::Result<Runner> {
    for mode in [Mode::Bare, Mode::Surveillance, Mode::HighWater] {
        for connections in [40, 250] {
            runner = Run::new(mode, connections).make(rt, runner)?;
        }
    }
    Ok(runner)
}

// What write back left in a buffer: the file, the bytes past it, and the chart that the file loads
// as.
fn write_back(rt: &impl Print, runner: Runner, file: &[u8]) -> io::Result<()> {
    let mut buffer = [170; 1100];
    print_told(rt, "write back", runner.write_back(&mut buffer))?;
    let (written, past) = buffer.split_at(1024);
    println!(rt;
        "  bytes 0 to 1023 are the file's: {}",
        Holds(written == file)
    )?;
    let kept = Holds(past.iter().all(|byte| *byte == 170));
    println!(rt; "  bytes 1024 to 1099 are as they were: {kept}")?;
    load(rt, "load of those bytes", written)?;
    Ok(())
}

// The file of edition 2, and what it is converted back to.
fn print_converted(rt: &impl Print, file: &[u8], converted: &File) -> io::Result<()> {
    let (head, later) = converted.split_at(512);
    let mut back = [0; 1024];
    println!(rt; "  bytes 0 to 7:{}", Bytes(&head[..8]))?;
    print_check(rt, "  block 0: ", format::addend(2, 0), head)?;
    print_check(rt, "  block 1: ", format::addend(2, 1), later)?;
    load(rt, "load of those bytes", converted)?;
    print_told(
        rt,
        "convert those bytes",
        convert::convert(converted, &mut back),
    )?;
    println!(rt; "  they are the file's: {}", Holds(back.as_slice() == file))
}

// Answers the file of edition 2.
fn conversions(rt: &impl Print, runner: Runner, file: &[u8]) -> io::Result<File> {
    let mut buffer = [0; 1024];
    print_told(rt, "convert", convert::convert(file, &mut buffer))?;
    let constant = with_constant(runner);
    print_box(rt, &constant, 3)?;
    print_told(rt, "convert", convert::convert(&constant, &mut buffer))?;
    print_converted(rt, &constant, &buffer)?;
    Ok(buffer)
}

// A chart that is rewritten, and runs before and after.
fn rewriting(rt: &impl Print, converted: File) -> io::Result<()> {
    let copies = with_copies(converted);
    for p in [2, 3, 7] {
        print_box(rt, &copies, p)?;
    }
    let bare = Run::new(Mode::Bare, 250);
    let surveillance = Run::new(Mode::Surveillance, 250);
    let runner = load(rt, "load", &copies)?;
    let runner = bare.make(rt, runner)?;
    let runner = surveillance.make(rt, runner)?;
    let runner = print_called(rt, "rewrite", runner.rewrite())?;
    print_box(rt, &file_of(runner), 2)?;
    let runner = bare.make(rt, runner)?;
    let runner = surveillance.make(rt, runner)?;
    Run::new(Mode::Surveillance, 40).make(rt, runner)?;
    Ok(())
}

fn main(rt: HostRuntime) -> io::Result<()> {
    // Kept: an array and a length, as `serve::read_chart` answers.
    let mut space = [0; 2561];
    let length = serve::read_chart(&rt, &mut space);
    let file = &space[..length];
    print_file(&rt, file)?;
    print_allowed(&rt)?;
    let runner = load(&rt, "load", file)?;
    let ended = runs(&rt, runner)?;
    write_back(&rt, ended, file)?;
    let converted = conversions(&rt, runner, file)?;
    print_called(&rt, "rewrite", runner.rewrite())?;
    rewriting(&rt, converted)
}

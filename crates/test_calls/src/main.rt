// Makes the lists of calls that standard input has, each list by `flow_script` at once, and prints
// what each call tells and how many calls were made. The file `stdin` says what its lines are. The
// functions have no equations: what is printed is compared.
#![tactic(auto)]

mod call_lines;
mod list;
mod report;

use list::List;
use std::io;
use test_samples::files::{File, front, low};
use test_text::text::{number, part};
use test_text::{edits, input, letters};

// Kept, here and in what prints: a match on a line's letters, whose arms are one call each. `as`
// stands where std has no `From` of u32 for usize.
// A line edits the file, adds to the list or changes what is lent to it; one that is only printed
// has its turn when the list is made.
fn command(rt: &impl Print, list: &mut List, line: &[u8], file: &mut File) -> io::Result<()> {
    if letters::is_comment(line) || edits::edit(line, file) {
        return Ok(());
    }
    if let Some(call) = call_lines::numbers(line) {
        list.add(call);
        return Ok(());
    }
    let first = number(line, 1) as usize;
    match letters::of(line) {
        b"ke" => list.keep(front(file, first)),
        b"le" => list.less(first),
        b"ro" => list.room = first,
        b"bu" => {
            list.length = first;
            list.filled = low(number(line, 2));
        }
        b"li" | b"by" => {}
        _ => {
            print!(rt; "wrong line: ")?;
            rt.write_all(line)?;
            println!(rt)?;
        }
    }
    Ok(())
}

// Makes a list, and prints of its lines, which the text begins with, what came of them.
// Kept: arrays and how much of each is lent, as `flow_script` is lent a part of each.
fn make(rt: &impl Print, list: &List, lines: &[u8]) -> io::Result<()> {
    let mut told = [report::UNTOLD; 256];
    let mut buffer = [list.filled; 2600];
    let room = list.room.min(told.len());
    let length = list.length.min(buffer.len());
    let made = test_script::flow_script(
        &list.files,
        &list.words,
        &mut told[..room],
        &mut buffer[..length],
    );
    report::print(rt, lines, &told[..room], part(&buffer, 0, list.length))?;
    println!(rt; "calls made {made}")?;
    if !list.fits {
        println!(rt; "the list has more than there is room for")?;
    }
    Ok(())
}

// Each list goes to its line `make`, and the next starts behind it. A line ends in a newline.
fn lists(rt: &impl Print, text: &[u8]) -> io::Result<()> {
    let mut file: File = [0; 3072];
    let mut list = List::new();
    let mut lines = text;
    let mut rest = text;
    for piece in text.split_inclusive(|byte| *byte == b'\n') {
        rest = rest.get(piece.len()..).unwrap_or_default();
        let Some(line) = piece.strip_suffix(b"\n") else {
            break;
        };
        if report::ends_list(line) {
            make(rt, &list, lines)?;
            list = List::new();
            lines = rest;
        } else {
            command(rt, &mut list, line, &mut file)?;
        }
    }
    Ok(())
}

// Standard input has room for fewer than 65,536 bytes.
// Kept: a length beside the buffer, as `read` tells it; one that is full is of too long an input.
fn main(rt: HostRuntime) -> io::Result<()> {
    let mut text = [0; 65536];
    let length = input::read(&rt, &mut text)?;
    if length == text.len() {
        return println!(&rt; "standard input is too long");
    }
    lists(&rt, part(&text, 0, length))
}

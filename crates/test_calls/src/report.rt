// What is printed of a list that was made: of each line that is a call what it told, of others what
// they ask for.
use crate::call_lines;
use encoding::kinds;
use std::{fmt, io};
use test_text::letters;
use test_text::text::{number, part};

// What the numbers told are before a list is made. Kept: those that no call told are printed too.
pub const UNTOLD: u32 = 99;

// The kind of what a call told, by its name or by its number. Kept: kinds are the numbers of
// `encoding`, which `flow_script` tells.
#[derive(Clone, Copy)]
struct Kind(u32);

impl fmt::Display for Kind {
    fn fmt<W: fmt::Write>(&self, f: &mut fmt::Formatter<W>) -> fmt::Result {
        f.write_str(match self.0 {
            kinds::DONE => "done",
            kinds::CHART => "chart",
            kinds::RUNNING => "running",
            kinds::ENDED => "ended",
            kinds::VALUE => "value",
            kinds::NOTICE => "notice",
            kinds::SPENT => "spent",
            kinds::REFUSED => "refused",
            kinds::WRITTEN => "written",
            kinds::SHOWN => "shown",
            test_script::NO_CALL => "no call",
            kind => return write!(f, "kind {kind}"),
        })
    }
}

// Prints the four numbers of a call, which are the first of those told, and answers the rest.
fn print_told<'a>(rt: &impl Print, told: &'a [u32]) -> io::Result<&'a [u32]> {
    let Some(([kind, first, second, sum], rest)) = told.split_first_chunk::<4>() else {
        println!(rt; "no room")?;
        return Ok(told);
    };
    let kind = Kind(*kind);
    println!(rt; "{kind} {first} {second}, sum {sum}")?;
    Ok(rest)
}

// The numbers that no call told.
// Kept: its loop is one `print!`, as that of bytes below; one function of both is no plainer.
fn print_rest(rt: &impl Print, told: &[u32]) -> io::Result<()> {
    if told.is_empty() {
        return Ok(());
    }
    print!(rt; "not told:")?;
    for number in told {
        print!(rt; " {number}")?;
    }
    println!(rt)
}

// Prints of a line what came of it, and answers the numbers that the next calls told.
// Kept: a match on the letters, whose arms share no call; casts, as u32 has no From for usize.
fn print_line<'a>(
    rt: &impl Print,
    line: &[u8],
    told: &'a [u32],
    buffer: &[u8],
) -> io::Result<&'a [u32]> {
    if call_lines::numbers(line).is_some() {
        rt.write_all(line)?;
        print!(rt; ": ")?;
        return print_told(rt, told);
    }
    match letters::of(line) {
        b"li" => {
            rt.write_all(line)?;
            println!(rt)?;
        }
        b"by" => {
            let from = number(line, 1) as usize;
            let to = number(line, 2) as usize;
            rt.write_all(line)?;
            print!(rt; ":")?;
            for byte in part(buffer, from, to) {
                print!(rt; " {byte}")?;
            }
            println!(rt)?;
        }
        _ => {}
    }
    Ok(told)
}

// The line that has a list made.
pub fn ends_list(line: &[u8]) -> bool {
    line.starts_with(b"ma")
}

// Of the lines of a text before the first that ends a list.
pub fn print(rt: &impl Print, lines: &[u8], told: &[u32], buffer: &[u8]) -> io::Result<()> {
    let mut rest = told;
    let pieces = lines.split_inclusive(|byte| *byte == b'\n');
    let lines = pieces.map_while(|piece| piece.strip_suffix(b"\n"));
    for line in lines.take_while(|line| !ends_list(line)) {
        rest = print_line(rt, line, rest, buffer)?;
    }
    print_rest(rt, rest)
}

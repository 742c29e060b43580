// The commands of the fixed cases, one to a line: they change the chart file, make a call, or say
// what the last call is to tell or what the file is to hold. The file `stdin` has the list of them.
// Kept: a match on a call or on a line's letters, whose arms are one call each. `as` stands where
// std has no `From` of u32 for usize.
use crate::pair::{Difference, Pair};
use crate::report;
use crate::report::Failure;
use std::array;
use test_samples::arguments::Arguments;
use test_samples::files;
use test_samples::files::{File, front, low};
use test_text::letters::Call;
use test_text::text::{number, part, piece};
use test_text::{edits, letters};

// The arguments of a begin: the inputs are the last numbers of the line, after their count.
fn arguments(line: &[u8]) -> Arguments {
    Arguments {
        mode: number(line, 1),
        numbers: array::from_fn(|i| number(line, 5 + i)),
        count: number(line, 4) as usize,
        allowed: number(line, 2),
        limit: number(line, 3),
    }
}

fn call(pair: &mut Pair, named: Call, line: &[u8], file: &File) -> Result<(), Difference> {
    let first = number(line, 1);
    let second = number(line, 2);
    let file = front(file, first as usize);
    match named {
        Call::Load => pair.load(file),
        Call::Begin => pair.begin(&arguments(line)),
        Call::Advance => pair.advance(first),
        Call::Answer => pair.answer(),
        Call::Abandon => pair.abandon(),
        Call::Write => pair.write_back(first as usize, second as usize, low(number(line, 3))),
        Call::Show => pair.show(file, second),
        Call::Convert => pair.convert(file, 7, second as usize, 9),
        Call::Rewrite => pair.rewrite(),
    }
}

// The last call told what the line says.
fn expect<'a>(rt: &impl Print, pair: &Pair, line: &'a [u8]) -> Result<(), Failure<'a>> {
    let first = u64::from(number(line, 2));
    let expected = encoding::make(number(line, 1), first, number(line, 3));
    let name = piece(line, 1, b'"');
    pair.expect(name, expected)?;
    Ok(report::case(rt, name, expected)?)
}

// The ten bytes of a place of the file are those of the line.
fn holds(line: &[u8], file: &File) -> bool {
    let start = files::place(number(line, 1));
    part(file, start, start + 10) == edits::box_bytes(line).as_slice()
}

// Comments are left out.
fn command<'a>(
    rt: &impl Print,
    pair: &mut Pair,
    line: &'a [u8],
    file: &mut File,
) -> Result<(), Failure<'a>> {
    if letters::is_comment(line) || edits::edit(line, file) {
        return Ok(());
    }
    if let Some(named) = Call::of(line) {
        return Ok(call(pair, named, line, file)?);
    }
    match letters::of(line) {
        b"ta" => Ok(pair.take(file)?),
        b"ho" if holds(line, file) => Ok(()),
        b"ne" => {
            pair.renew();
            Ok(())
        }
        b"ex" => expect(rt, pair, line),
        _ => pair.wrong_line(line),
    }
}

// Up to the first failure. A line ends in a newline.
pub fn run<'a>(rt: &impl Print, text: &'a [u8]) -> Result<(), Failure<'a>> {
    let mut pair = Pair::new();
    let mut file: File = [0; 3072];
    // Kept, as in `test_calls`: two lines of std's, which a function of both makes no plainer.
    let pieces = text.split_inclusive(|byte| *byte == b'\n');
    for line in pieces.filter_map(|piece| piece.strip_suffix(b"\n")) {
        command(rt, &mut pair, line, &mut file)?;
    }
    Ok(())
}

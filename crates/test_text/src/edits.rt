// The commands that change a chart file.
use crate::letters;
use crate::text::number;
use std::array;
use test_samples::files;
use test_samples::files::{File, low};

// The ten bytes that follow a place.
pub fn box_bytes(line: &[u8]) -> [u8; 10] {
    array::from_fn(|i| low(number(line, 2 + i)))
}

// A command to the file; whether the line is one.
// Kept: the flag is all that a caller asks; an Option of nothing would say no more. Each command
// is a line of a match, as a table of functions would not take these arguments. And std has no From
// of u32 for usize.
pub fn edit(line: &[u8], file: &mut File) -> bool {
    let first = number(line, 1);
    let second = number(line, 2);
    match letters::of(line) {
        b"ch" => files::put_chart(file, first, second),
        b"pu" => files::put(file, first as usize, low(second)),
        b"bo" => files::put_box(file, first, box_bytes(line)),
        b"me" => files::mend(file),
        b"se" => files::seal(file, low(first)),
        b"sw" => files::exchange(file, first, second),
        _ => return false,
    }
    true
}

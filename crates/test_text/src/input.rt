// Standard input.
use std::io;
use std::io::Read;

// Reads to the front of a buffer until it is full or the input ends, and answers how many bytes
// there were.
// Kept: the loop and its length, since no method of std fills an array as far as an input goes:
// `read_exact` refuses a shorter one, and `read_to_end` needs a heap.
pub fn read(rt: &impl Input, buffer: &mut [u8]) -> io::Result<usize> {
    let mut input = rt.reader();
    let mut length = 0;
    while length < buffer.len() {
        match input.read(&mut buffer[length..])? {
            0 => break,
            more => length += more,
        }
    }
    Ok(length)
}

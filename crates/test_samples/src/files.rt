// Chart files in a buffer: bytes, places and checks. A byte past the end is not put, and reads as
// 0.
// Kept: bytes at places, lengths, headers and checks are said here again, apart from the code that
// is tested on these files. Editions are bytes, as byte 4 may be that of none.
ghost use Rattle.std.specs.Prelude.{◌<◌};

// Room for the longest chart, and a block more. How much of it is a file, whoever lends it says.
pub type File = [u8; 3072];

pub fn low(x: u32) -> u8 {
    x.to_le_bytes()[0]
}

pub fn put(file: &mut File, at: usize, byte: u8) {
    if let Some(place) = file.get_mut(at) {
        *place = byte;
    }
}

pub fn byte(bytes: &[u8], at: usize) -> u32
    ensures { result < 256 }
{
    u32::from(get(bytes, at))
}

pub fn get(bytes: &[u8], at: usize) -> u8 {
    bytes.get(at).copied().unwrap_or(0)
}

// The first items, or all of them where there are fewer.
pub fn front<T>(items: &[T], count: usize) -> &[T] {
    items.get(..count).unwrap_or(items)
}

// Where the ten bytes of a place start.
pub fn place(p: u32) -> usize
    ensures { result < 10000 }
{
    let p = usize::from(low(p));
    512 * (1 + p / 51) + 10 * (p % 51)
}

// The length of a file of n boxes.
pub fn length_of(n: u32) -> usize
    ensures { result < 10000 }
{
    512 * (1 + usize::from(low(n)).div_ceil(51))
}

pub fn put_box(file: &mut File, p: u32, bytes: [u8; 10]) {
    let start = place(p);
    if let Some(place) = file.get_mut(start..start + 10) {
        place.copy_from_slice(&bytes);
    }
}

// Block 0 of a chart, without its check.
pub fn put_header(file: &mut File, edition: u32, k: u32, n: u32, first: u32) {
    let edition = low(edition);
    let header = [b'F', b'L', b'O', b'W', edition, low(k), low(n), low(first)];
    file[..8].copy_from_slice(&header);
}

pub fn clear(file: &mut File) {
    *file = [0; 3072];
}

// The check of a block that adds a number to its weighted sum. From the last byte down, a byte that
// is added to `some` is in it for each of the (position + 1) turns that are left, so `all` gets it
// so many times.
fn check_of(body: &[u8], added: u16) -> [u8; 2] {
    let mut some = 0u16;
    let mut all = added;
    for byte in body.iter().rev() {
        some = some.wrapping_add(u16::from(*byte));
        all = all.wrapping_add(some);
    }
    all.to_le_bytes()
}

// The checks that the blocks have in a file of an edition, whatever byte 4 is.
pub fn seal(file: &mut File, edition: u8) {
    for number in 0..6u16 {
        let start = 512 * usize::from(number);
        let end = start + 510;
        let added = if edition == 2 { 511 * number } else { 0 };
        let check = check_of(&file[start..end], added);
        file[end..end + 2].copy_from_slice(&check);
    }
}

// Every block's check made right.
pub fn mend(file: &mut File) {
    let edition = file[4];
    seal(file, edition);
}

// Two blocks exchanged, with their checks.
// Kept: byte by byte, since the two blocks may be one, of which no two mutable parts can be lent.
// Kept: casts, as by `low` it stays open that a block is one of the file's.
pub fn exchange(file: &mut File, i: u32, j: u32) {
    let one = 512 * (i % 6) as usize;
    let two = 512 * (j % 6) as usize;
    for at in 0..512 {
        file.swap(one + at, two + at);
    }
}

// Chart C's box: 16 is copied to 16, next box 0.
const LOOP: [u8; 10] = [1, 16, 1, 16, 0, 0, 0, 0, 0, 0];

// A chart of edition 1 and of n boxes, each chart C's; with k 0 and n 1 it is chart C.
pub fn put_chart(file: &mut File, k: u32, n: u32) {
    clear(file);
    put_header(file, 1, k, n, 0);
    for p in 0..n {
        put_box(file, p, LOOP);
    }
    mend(file);
}

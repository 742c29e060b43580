// Texts: parts, pieces between separators, and numbers.
// Kept: a part or a piece that is not there is an empty text, as all callers would make it one.

// The bytes from one place to another, none where there are no such places.
pub fn part(text: &[u8], from: usize, to: usize) -> &[u8] {
    text.get(from..to).unwrap_or_default()
}

// The piece with a number, from 0 on, of a text whose pieces are apart by one byte each; empty
// where there are fewer.
pub fn piece(text: &[u8], number: usize, apart: u8) -> &[u8] {
    text.split(|byte| *byte == apart)
        .nth(number)
        .unwrap_or_default()
}

// The number that digits say. One that is too large for 32 bits loses its front.
// Kept: parse of std refuses what is no number, and here every text has one.
fn decimal(digits: &[u8]) -> u32 {
    digits.iter().fold(0, |value: u32, digit| {
        (value % 429496730 * 10).wrapping_add(u32::from(digit % 16))
    })
}

// A number of a line, which is so many spaces after its start.
pub fn number(line: &[u8], spaces: usize) -> u32 {
    decimal(piece(line, spaces, b' '))
}

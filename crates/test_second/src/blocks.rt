// The blocks of a chart file, their checks, and the places of boxes in them.
ghost use Rattle.std.specs.Prelude.{◌<◌};

// The ten bytes of place `number`, zeros past the end: 51 places to a block, from block 1 on.
pub fn place(file: &[u8], number: u8) -> [u8; 10] {
    let start = start(number);
    let rest = file.get(start..).unwrap_or_default();
    rest.first_chunk().copied().unwrap_or([0; 10])
}

// Where place `number` starts.
pub fn start(number: u8) -> usize
    ensures { result < 10000 }
{
    let number = usize::from(number);
    512 * (1 + number / 51) + 10 * (number % 51)
}

// What a block's check takes for one more byte, after byte 509: the block's own number where byte 4
// of block 0 is 2, whatever the letters are, else 0.
// Kept: the edition is that byte here, since checks are looked at before it is known to be one.
fn own_number(file: &[u8], block: u8) -> u8 {
    if file.get(4) == Some(&2) { block } else { 0 }
}

// The check of a block: the sum over positions 0 to 510 of (position + 1) times byte, modulo
// 65,536, with `own_number` for the byte at 510: it adds 511 times the block's number, or nothing.
// From the last byte down, `tail` is added at each position, so the byte at position p is added
// p + 1 times.
fn check_of(body: &[u8], own_number: u8) -> [u8; 2] {
    let mut tail = u16::from(own_number);
    let mut total = tail;
    for byte in body.iter().rev() {
        tail = tail.wrapping_add(u16::from(*byte));
        total = total.wrapping_add(tail);
    }
    total.to_le_bytes()
}

fn agrees(block: &[u8], own_number: u8) -> bool {
    match block {
        [body @ .., low, high] => check_of(body, own_number) == [*low, *high],
        _ => false,
    }
}

// The first block whose check differs.
pub fn differing(file: &[u8]) -> Option<u8> {
    let (number, _) = (0..).zip(file.chunks_exact(512)).find(|(number, block)| !agrees(
        block,
        own_number(file, *number),
    ))?;
    Some(number)
}

// The checks that the blocks should have. All five are sealed; those past the file's end are of no
// account.
pub fn seal(bytes: &mut [u8; 2560]) {
    for number in 0..5 {
        let start = 512 * usize::from(number);
        let end = start + 510;
        let added = own_number(bytes, number);
        let check = check_of(&bytes[start..end], added);
        bytes[end..end + 2].copy_from_slice(&check);
    }
}

// A chart out of its file and back: the box table of a file, the file of a chart, and one box of a
// file.
#![tactic(auto)]

ghost use Rattle.std.specs.Prelude.{◌≡◌, ◌≤◌, length};
ghost use Rattle.chart.specs.Chart.{box_blocks, table_of, header_body, sealed_block};
ghost use Rattle.chart.specs.WriteBack.{file_length, put_file};
ghost use Rattle.chart.specs.ShowBox.{show_box, IsPart};

use format::Header;

fn box_blocks(bytes: usize) -> usize
    ensures { result ≡ box_blocks bytes }
{
    (bytes / 512).saturating_sub(1).min(4)
}

// The box table of a file, filled block by block; the blocks that the file lacks are zero bytes.
pub fn table_of(file: &[u8]) -> [u8; 2040]
    ensures { result ≡ table_of file.now }
{
    let count = box_blocks(file.len());
    // Kept: boxes are bytes of one array, since document 01 has the runner hold it.
    let mut table = [0u8; 2040];
    // Kept: over chunks of both it stays open what the table holds after each of them.
    for j in 0..count {
        let to = 510 * j;
        let start = 512 * (1 + j);
        table[to..to + 510].copy_from_slice(&file[start..start + 510]);
    }
    table
}

#[tactic(auto, unfolding(crate::specs::Chart::header_body))]
fn header_body(header: Header) -> [u8; 510]
    ensures { result ≡ header_body header }
{
    let mut body = [0u8; 510];
    body[..4].copy_from_slice(b"FLOW");
    body[4..8].copy_from_slice(&[header.edition, header.inputs, header.boxes, header.first]);
    body
}

// Block j of a chart's file, into its part of a buffer.
fn write_block(header: Header, table: &[u8; 2040], j: u8, part: &mut [u8])
    requires { (j ≤ 4) × (length part.old ≡ 512) }
    ensures { part.new ≡ sealed_block header table.now j }
{
    if j == 0 {
        part[..510].copy_from_slice(&header_body(header));
    } else {
        let start = 510 * usize::from(j - 1);
        part[..510].copy_from_slice(&table[start..start + 510]);
    }
    block::seal(format::addend(header.edition, j), part);
}

// The length of a chart's file. The contract tells callers the range.
pub fn file_length(header: Header) -> usize
    ensures { (result ≡ file_length header) × (result ≤ 3072) }
{
    512 * format::blocks_for(header.boxes)
}

// The file of a chart at the front of a lent buffer that has room for it, each block in its own
// part; another buffer is left as it was.
// Kept, here and in `write_block`: header and table, as the runner holds them by document 01.
#[tactic(auto, unfolding(crate::specs::WriteBack::put_file))]
pub fn put_file(header: Header, table: &[u8; 2040], buf: &mut [u8])
    ensures { buf.new ≡ put_file header table.now buf.old }
{
    if format::in_range(header) && file_length(header) <= buf.len() {
        // Kept: the part that starts at 512 times the block's number, as 01 asks; and a cast, since
        // no `From` makes a u8 of a usize.
        for j in 0..format::blocks_for(header.boxes) {
            let at = 512 * j;
            write_block(header, table, j as u8, &mut buf[at..at + 512]);
        }
    }
}

// The ten bytes of a box as a part of the lent file; an empty part where load would refuse the file
// or no box has the number.
#[tactic(auto, unfolding(crate::specs::ShowBox::shown_by))]
pub fn show_box(file: &[u8], number: u32) -> &[u8]
    ensures { IsPart (show_box file.now number) file.entry result }
{
    match format::check_file(file) {
        Ok(header) if number < u32::from(header.boxes) => {
            let start = format::place_start(number);
            &file[start..start + 10]
        }
        // Kept: document 01 has an empty part for no box.
        _ => &file[..0],
    }
}

// The converter between the editions: a chart's file into its file of the other edition.
#![tactic(auto)]

ghost use Rattle.std.specs.Prelude.{◌≡◌, ◌<◌, ◌≤◌};
ghost use Rattle.format.specs.Search.{found_failing};
ghost use Rattle.convert.specs.Convert.{in_other, takes_box, conversion, convert};

use block::{Reason, Refusal};
use format::Header;

// The header of a chart in the other edition.
fn in_other(header: Header) -> Header
    ensures { result ≡ in_other header }
{
    // Kept: an edition is a byte, as `other_than` in specs/ has it.
    let edition = if header.edition == 2 { 1 } else { 2 };
    Header { edition, ..header }
}

// Whether an edition takes the box at a place as it stands in the other: byte 2 is the operation of
// an assignment alone.
#[tactic(auto, unfolding(crate::specs::Convert::takes))]
fn takes_box(edition: u8, table: &[u8; 2040], p: u8) -> bool
    requires { p < 204 }
    ensures { result ≡ takes_box edition table.now p }
{
    // Kept: a box is bytes of the table, the kind too, as `takes` in specs/ has it.
    let start = 10 * usize::from(p);
    let b = &table[start..start + 10];
    if b[0] == 1 {
        !matches!(b[2], 2 | 3 | 11)
    } else {
        boxes::has_kind(edition, b[0])
    }
}

// The first of a table's boxes that an edition does not take.
fn first_untaken(edition: u8, table: &[u8; 2040], boxes: u8) -> Option<u8>
    requires { boxes ≤ 204 }
    ensures { result ≡ found_failing (takes_box edition table.now) boxes }
{
    format::first_failing(boxes, |p| takes_box(edition, table, p))
}

// Puts the other edition's file at the front of a lent buffer, each block in its own part, and
// tells its length; a refusal leaves the buffer as it was. Load's input checks 1 to 6 come first,
// then 14 and 12.
#[tactic(auto, unfolding(crate::specs::Convert::convert, crate::specs::Convert::conversion_by, crate::specs::Convert::check_after, crate::specs::Convert::check_chart))]
pub fn convert(file: &[u8], buf: &mut [u8]) -> Result<usize, Refusal>
    ensures { conversion result buf.new ≡ convert file.now buf.old }
{
    let header = in_other(format::check_file(file)?);
    let table = chart::table_of(file);
    if let Some(p) = first_untaken(header.edition, &table, header.boxes) {
        return Err(Reason::Untaken(u32::from(p)).into());
    }
    if buf.len() < chart::file_length(header) {
        return Err(Reason::Room.into());
    }
    chart::put_file(header, &table, buf);
    Ok(chart::file_length(header))
}

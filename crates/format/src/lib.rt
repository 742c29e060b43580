// The chart file's rules: what load's input checks 1 to 6 answer of any bytes.
#![tactic(auto)]

ghost use Rattle.std.specs.Prelude.{◌≡◌, ℕ, ◌-◌, ◌*◌, ◌<◌, ◌≤◌, true, false, length, MatchOption};
ghost use Rattle.format.specs.Search.{IsFirstFailing, found_failing};
ghost use Rattle.format.specs.File.{addend, place_start, blocks_for, length_rule, check_rule, letters_rule, header_of, in_range, header_rule, place_rule, check_file};

use block::{Reason, Refusal};

// Block 0's numbers of a chart: the edition, the number of inputs, of boxes, and the first box run.
#[derive(Clone, Copy, Debug, PartialEq, Eq)]
pub struct Header {
    // Kept, here and below: any byte, as `header_of` has it; check 2 goes by it before check 3.
    pub edition: u8,
    pub inputs: u8,
    pub boxes: u8,
    pub first: u8,
}

// The first number below a count that fails a test, if one does. No equation, and a `requires`: all
// that is known of a test is where it may be called (`pre`) and what it may give (`post`).
pub fn first_failing<F: Fn(u8) -> bool>(count: u8, test: F) -> Option<u8>
    requires { (i : ℕ) → i < count → F.pre test i }
    ensures { IsFirstFailing (F.post test) count result }
{
    // Kept: with `find` it stays open that a test is called at numbers below the count alone.
    for i in 0..count {
        if !test(i) {
            return Some(i);
        }
    }
    None
}

// The blocks of a file of so many boxes. The contract tells callers the range.
pub fn blocks_for(boxes: u8) -> usize
    ensures { (result ≡ blocks_for boxes) × (result ≤ 6) }
{
    1 + usize::from(boxes).div_ceil(51)
}

// Where a place starts in a file.
pub fn place_start(p: u32) -> usize
    ensures { result ≡ place_start p }
{
    // Kept: no `From` makes a usize of a u32.
    let p = p as usize;
    512 * (1 + p / 51) + 10 * (p % 51)
}

// The numbers of inputs and boxes and the first box are those that a file can have.
pub fn in_range(header: Header) -> bool
    ensures { result ≡ in_range header }
{
    header.inputs <= 16 && (1..=204).contains(&header.boxes) && header.first < header.boxes
}

// What the check of block b adds in a file of this edition.
#[tactic(auto, unfolding(crate::specs::File::addend))]
pub fn addend(edition: u8, b: u8) -> u32
    ensures { result ≡ addend edition b }
{
    if edition == 2 { 511 * u32::from(b) } else { 0 }
}

// The blocks of a file of so many bytes, where check 1 passes it.
fn blocks_in(len: usize) -> Option<u8>
    ensures { MatchOption result (length_rule len ≡ false) (λ n. (length_rule len ≡ true) × (2 ≤ n) × (n ≤ 5) × (len ≡ 512 * n)) }
{
    match len {
        1024 => Some(2),
        1536 => Some(3),
        2048 => Some(4),
        2560 => Some(5),
        _ => None,
    }
}

// A file that check 1 passes: its bytes, the number of its blocks, and the header that block 0
// holds, whatever the other checks say of it.
#[derive(Clone, Copy)]
struct File<'a> {
    bytes: &'a [u8],
    blocks: u8,
    header: Header,
    ghost some: { 2 ≤ blocks },
    ghost few: { blocks ≤ 5 },
    ghost whole: { length bytes.now ≡ 512 * blocks },
    ghost told: { header ≡ header_of bytes.now },
}

impl File<'_> {
    fn new(bytes: &[u8]) -> Option<File<'_>>
        ensures { MatchOption result (length_rule (length bytes.now) ≡ false) (λ f. (length_rule (length bytes.now) ≡ true) × (f.bytes.now ≡ bytes.now)) }
    {
        let blocks = blocks_in(bytes.len())?;
        let header = Header {
            edition: bytes[4],
            inputs: bytes[5],
            boxes: bytes[6],
            first: bytes[7],
        };
        Some(File {
            bytes,
            blocks,
            header,
        })
    }

    #[tactic(auto, unfolding(crate::specs::File::check_rule))]
    fn block_holds(&self, j: u8) -> bool
        requires { j < self.now.blocks }
        ensures { result ≡ check_rule self.now.bytes.now self.now.header j }
    {
        let start = 512 * usize::from(j);
        block::is_sealed(
            addend(self.header.edition, j),
            &self.bytes[start..start + 512],
        )
    }

    // The first block whose check differs.
    fn first_wrong(&self) -> Option<u8>
        ensures { result ≡ found_failing (check_rule self.now.bytes.now self.now.header) self.now.blocks }
    {
        first_failing(self.blocks, |j| self.block_holds(j))
    }

    fn letters_hold(&self) -> bool
        ensures { result ≡ letters_rule self.now.bytes.now }
    {
        self.bytes.starts_with(b"FLOW") && matches!(self.header.edition, 1 | 2)
    }

    #[tactic(auto, unfolding(crate::specs::File::header_rule))]
    fn header_holds(&self) -> bool
        ensures { result ≡ header_rule self.now.bytes.now }
    {
        in_range(self.header) && boxes::all_zero(&self.bytes[8..510])
    }

    // A box that obeys the rules, or past the last box ten zero bytes.
    #[tactic(auto, unfolding(crate::specs::File::place_rule))]
    fn place_holds(&self, p: u8) -> bool
        requires { p < 51 * (self.now.blocks - 1) }
        ensures { result ≡ place_rule self.now.bytes.now self.now.header p }
    {
        let header = self.header;
        let start = place_start(u32::from(p));
        let place = &self.bytes[start..start + 10];
        if p < header.boxes {
            boxes::well_formed(header.edition, header.inputs, header.boxes, place)
        } else {
            boxes::all_zero(place)
        }
    }

    // The first place that breaks a rule.
    fn first_broken(&self) -> Option<u8>
        ensures { result ≡ found_failing (place_rule self.now.bytes.now self.now.header) (51 * (self.now.blocks - 1)) }
    {
        first_failing(51 * (self.blocks - 1), |p| self.place_holds(p))
    }
}

// Load's input checks 1 to 6, in order, of any bytes.
#[tactic(auto, unfolding(crate::specs::File::check_file))]
pub fn check_file(file: &[u8]) -> Result<Header, Refusal>
    ensures { result ≡ check_file file.now }
{
    let file = File::new(file).ok_or(Reason::Length)?;
    if let Some(block) = file.first_wrong() {
        return Err(Reason::Check(u32::from(block)).into());
    }
    if !file.letters_hold() {
        return Err(Reason::Letters.into());
    }
    if !file.header_holds() {
        return Err(Reason::Header.into());
    }
    if usize::from(file.blocks) != blocks_for(file.header.boxes) {
        return Err(Reason::Blocks.into());
    }
    if let Some(place) = file.first_broken() {
        return Err(Reason::Place(u32::from(place)).into());
    }
    Ok(file.header)
}

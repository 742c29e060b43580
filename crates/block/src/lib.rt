// A block of 512 bytes: its check, the seal that puts the check into it, and the test of a seal.
// And a refusal, which every list of checks above answers by.
#![tactic(auto)]

ghost use Rattle.std.specs.Prelude.{◌≡◌, slice_set};
ghost use Rattle.boxes.specs.Bytes.{at};
ghost use Rattle.block.specs.Block.{checksum, is_sealed, with_seal};
ghost use Rattle.block.specs.Refusing.{refusal, refusal_for};

// A refusal, by document 01's number and detail.
#[derive(Clone, Copy, Debug, PartialEq, Eq)]
pub struct Refusal {
    pub number: u32,
    pub detail: u32,
}

// Why a call is refused, with the block or the place that the detail tells: a name for each of
// document 01's numbers, but 11, which is the run program's.
#[derive(Clone, Copy, Debug, PartialEq, Eq)]
pub enum Reason {
    Length,
    Check(u32),
    Letters,
    Header,
    Blocks,
    Place(u32),
    Mode,
    Allowed,
    Inputs,
    Limit,
    Room,
    Amount,
    Untaken(u32),
    Edition,
    NoChart,
    UnderWay,
    NoRun,
    NoEnding,
}

impl Refusal {
    // Kept: public, with a clause of its own; its fields' names in each arm would be no plainer.
    pub fn new(number: u32, detail: u32) -> Refusal
        ensures { result ≡ refusal number detail }
    {
        Refusal { number, detail }
    }
}

impl From<Reason> for Refusal {
    ghost from_gives = { λ reason refused. refused ≡ refusal_for reason };

    fn from(reason: Reason) -> Refusal {
        match reason {
            Reason::Length => Refusal::new(1, 0),
            Reason::Check(block) => Refusal::new(2, block),
            Reason::Letters => Refusal::new(3, 0),
            Reason::Header => Refusal::new(4, 0),
            Reason::Blocks => Refusal::new(5, 0),
            Reason::Place(place) => Refusal::new(6, place),
            Reason::Mode => Refusal::new(7, 0),
            Reason::Allowed => Refusal::new(8, 0),
            Reason::Inputs => Refusal::new(9, 0),
            Reason::Limit => Refusal::new(10, 0),
            Reason::Room => Refusal::new(12, 0),
            Reason::Amount => Refusal::new(13, 0),
            Reason::Untaken(place) => Refusal::new(14, place),
            Reason::Edition => Refusal::new(15, 0),
            Reason::NoChart => Refusal::new(21, 0),
            Reason::UnderWay => Refusal::new(22, 0),
            Reason::NoRun => Refusal::new(23, 0),
            Reason::NoEnding => Refusal::new(24, 0),
        }
    }
}

// The check of a block: what it adds and the sum over its bytes 0 to 509 of (position + 1) times
// byte, modulo 65,536. A shorter slice is summed to its end.
pub fn checksum(added: u32, block: &[u8]) -> u32
    ensures { result ≡ checksum added block.now }
{
    let end = block.len().min(510);
    // Kept: a sum of 16 bits and its casts, since a load takes 1.4 times as long with one of 32.
    let mut sum = (added % 65536) as u16;
    for (weight, byte) in (1u32..).zip(&block[..end]) {
        let term = weight * u32::from(*byte);
        sum = sum.wrapping_add((term % 65536) as u16);
    }
    u32::from(sum)
}

// Byte i, and 0 past the end.
fn byte(block: &[u8], i: usize) -> u8
    ensures { result ≡ at block.now i }
{
    block.get(i).copied().unwrap_or(0)
}

// Bytes 510 and 511 hold the block's check, with so much added, low byte first.
pub fn is_sealed(added: u32, block: &[u8]) -> bool
    ensures { result ≡ is_sealed added block.now }
{
    let [low, high, _, _] = checksum(added, block).to_le_bytes();
    (byte(block, 510) == low) & (byte(block, 511) == high)
}

// Byte i becomes b, where there is a byte i.
fn put(block: &mut [u8], i: usize, b: u8)
    ensures { block.new ≡ slice_set block.old i b }
{
    // Kept: with `get_mut` it stays open that the other bytes are as they were.
    if i < block.len() {
        block[i] = b;
    }
}

// The block's check, with so much added, into its bytes 510 and 511, low byte first, where it has
// them. All else stays.
pub fn seal(added: u32, block: &mut [u8])
    ensures { block.new ≡ with_seal added block.old }
{
    let [low, high, _, _] = checksum(added, block).to_le_bytes();
    put(block, 510, low);
    put(block, 511, high);
}
